//! The constraints of one side of a closure.
ghost use Rattle.re_closure.specs.Sides.{family_of};
ghost use Rattle.re_labels.specs.Configs.{sorted};
ghost use Rattle.re_labels.specs.declared.TheConstants.{MAX_ROWS};
ghost use Rattle.re_labels.specs.Lists.{place_of};
ghost use Rattle.re_closure_laws.specs.Lines.{IsFamily, below, topmost};
ghost use Rattle.re_labels.specs.declared.constraint_table.TheConstants.{MAX_CONFIGURATIONS};
ghost use Rattle.std.specs.Prelude.{◌≡◌, ◌<◌, ◌≤◌, Contains, IfOk, IsErrOf, List, length, map, ℕ};

use crate::line::SetLine;
use crate::sets::all_around;
use arrayvec::ArrayVec;
use re_labels::{Config, Constraint, InsertFault, LabelSet, MAX_LABELS, NoMemory};
use re_step::{AllowedFault, allowed, place_of};
use std::alloc::Global;

// The places of the line's sets among the sets.
fn labels_of(sets: &[LabelSet], line: &[LabelSet]) -> ArrayVec<u8, 6>
    requires few { length sets.now ≤ MAX_LABELS }
    requires six { length line.now ≤ 6 }
    ensures { result.items ≡ map (place_of sets.now) line.now }
{
    let mut labels = ArrayVec::new();
    for set in line {
        labels.push(place_of(sets, *set) as u8);
    }
    labels
}

// The configuration of the places of the line's sets, each of which is there.
fn config_of(sets: &[LabelSet], line: &SetLine) -> Config
    requires few { length sets.now ≤ MAX_LABELS }
    requires two { 2 ≤ length line.now }
    requires there { (set : List ℕ) → Contains line.now set → Contains sets.now set }
    ensures { result ≡ sorted (map (place_of sets.now) line.now) }
{
    let labels = labels_of(sets, line.sets());
    Config::from_labels(labels.as_slice())
}

/// The constraint of the lines, by the places of their sets among the sets.
pub(crate) fn topmost_of(
    alloc: Global,
    degree: u8,
    lines: &[SetLine],
    sets: &[LabelSet],
) -> Result<Constraint, NoMemory>
    requires family { IsFamily (family_of degree lines.now sets.now) }
    requires few { length sets.now ≤ MAX_LABELS }
    requires few_lines { length lines.now ≤ MAX_ROWS }
    ensures { IfOk result (λ constraint. constraint ≡ topmost (family_of degree lines.now sets.now)) }
{
    let mut configs = Constraint::new(alloc, degree);
    for line in lines {
        match configs.insert(config_of(sets, line)) {
            Ok(_) => {}
            Err(InsertFault::NoMemory) => return Err(NoMemory),
            Err(InsertFault::TooManyConfigurations) => unreachable!(),
        }
    }
    Ok(configs)
}

/// The constraint of all that lies below the lines, of which the topmost constraint is given. It costs what `re_step::allowed` costs.
pub(crate) fn below_of(
    alloc: Global,
    top: &Constraint,
    lines: &[SetLine],
    sets: &[LabelSet],
) -> Result<Constraint, AllowedFault>
    requires family { IsFamily (family_of top.now.degree lines.now sets.now) }
    requires few { length sets.now ≤ MAX_LABELS }
    requires top { top.now ≡ topmost (family_of top.now.degree lines.now sets.now) }
    ensures below { IfOk result (λ all. all ≡ below (family_of top.now.degree lines.now sets.now)) }
    ensures within { IfOk result (λ _. length (below (family_of top.now.degree lines.now sets.now)).configs ≤ MAX_CONFIGURATIONS) }
    ensures many { IsErrOf result AllowedFault.TooManyConfigurations →
        MAX_CONFIGURATIONS < length (below (family_of top.now.degree lines.now sets.now)).configs }
{
    let _lines = lines;
    let Ok(around) = all_around(alloc, sets) else {
        return Err(AllowedFault::NoMemory);
    };
    allowed(alloc, top, around.as_slice())
}
