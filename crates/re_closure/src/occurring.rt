//! The sets that occur in rows, and the labels to which they go.
ghost use Rattle.re_closure.specs.Sides.{IsMapOf, entries_by};
ghost use Rattle.re_labels.specs.declared.TheConstants.{MAX_ROWS};
ghost use Rattle.re_labels.specs.Lists.{place_of};
ghost use Rattle.re_labels.specs.GoodRows.{max_rows, max_sets};
ghost use Rattle.std.specs.Prelude.{◌≡◌, ◌≤◌, ◌<◌, Contains, IfOk, List, flat_map, length, ℕ};

use crate::types::StepMap;
use re_cert::SetEntry;
use re_labels::{Constraint, LabelSet, MAX_LABELS, NoMemory, Row};
use re_step::{place_of, sets_of};
use std::alloc::Global;

// The different sets of the maximal rows.
fn sets_of_rows(
    alloc: Global,
    constraint: &Constraint,
    labels: u8,
    rows: &[Row],
) -> Result<Vec<LabelSet>, NoMemory>
    requires labels { labels ≤ MAX_LABELS }
    requires rows { rows.now ≡ max_rows constraint.now labels }
    ensures { IfOk result (λ sets. sets.items ≡ max_sets constraint.now labels) }
{
    let _degree = constraint.degree();
    sets_of(alloc, rows)
}

// For each of the sets its place among the others.
fn entries_of(
    alloc: Global,
    others: &[LabelSet],
    sets: &[LabelSet],
) -> Result<Vec<SetEntry>, NoMemory>
    requires { length others.now ≤ MAX_LABELS }
    ensures { IfOk result (λ entries. entries.items ≡ entries_by (place_of others.now) sets.now) }
{
    let mut entries = Vec::new(alloc);
    for set in sets {
        let label = place_of(others, *set) as u8;
        entries.push(SetEntry { set: *set, label })?;
    }
    Ok(entries)
}

/// The map of the maximal rows of a constraint: each of their sets goes to its place among some others.
pub(crate) fn map_of(
    alloc: Global,
    constraint: &Constraint,
    labels: u8,
    others: &[LabelSet],
    rows: Vec<Row>,
) -> Result<StepMap, NoMemory>
    requires labels { labels ≤ MAX_LABELS }
    requires others { length others.now ≤ MAX_LABELS }
    requires rows { rows.items ≡ max_rows constraint.now labels }
    requires few { length rows.items ≤ MAX_ROWS }
    ensures { IfOk result (IsMapOf constraint.now labels (place_of others.now)) }
{
    let sets = sets_of_rows(alloc, constraint, labels, rows.as_slice())?;
    let entries = entries_of(alloc, others, sets.as_slice())?;
    Ok(StepMap { rows, entries })
}
