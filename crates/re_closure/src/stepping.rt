//! Steps of a map: by its sets, or written by rows.
ghost use Rattle.re_closure.specs.Sides.{in_form, step_to};
ghost use Rattle.re_check.specs.StepClauses.{HasRowSets};
ghost use Rattle.std.specs.Prelude.{◌≡◌, IfOk};

use crate::types::StepMap;
use re_cert::{Step, StepParts};
use re_labels::NoMemory;
use re_problem::Problem;
use re_shaping::lower_map;
use std::alloc::Global;

/// The lower step to a problem with this map, whose entries have the sets of its rows: by sets, or written by rows. By rows a set of a row
/// takes about log n comparisons, where n sets have entries.
pub(crate) fn step_with(
    alloc: Global,
    next: Problem,
    map: StepMap,
    by_rows: bool,
) -> Result<Step, NoMemory>
    requires { HasRowSets map.rows.items map.entries.items }
    ensures { IfOk result (λ s. s ≡ in_form by_rows (step_to next map.rows.items map.entries.items)) }
{
    let StepMap { rows, entries } = map;
    let map = lower_map(alloc, by_rows, rows.as_slice(), entries)?;
    let parts = StepParts::Lower { rows, map };
    Ok(Step { next, parts })
}
