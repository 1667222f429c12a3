//! Problems whose equal labels are merged.
ghost use Rattle.re_changes.specs.Classes.{least_equal, strong_by};
ghost use Rattle.re_changes.specs.Merging.{merging_of};
ghost use Rattle.re_changes.specs.Renumbering.{number_among};
ghost use Rattle.re_labels.specs.Lists.{count_from};
ghost use Rattle.re_labels.specs.Sets.{meet};
ghost use Rattle.re_laws.specs.Algorithms.{Solvable};
ghost use Rattle.re_problem.specs.NamedProblems.{unnamed};
ghost use Rattle.re_labels.specs.Strength.{up_set};
ghost use Rattle.std.specs.Prelude.{◌≡◌, ◌≤◌, ◌↔◌, ℕ, IfOk, length, map};

use crate::classes::{least_equal, least_labels};
use crate::renumbering::{number_among, renumbered};
use crate::types::Merged;
use arrayvec::ArrayVec;
use re_labels::{LabelSet, MAX_LABELS, NoMemory};
use re_problem::{LabelMap, Problem};
use std::alloc::Global;

/// For each label of the problem the set of those that cover it, by one walk over the rests of each constraint.
pub fn cover_sets(problem: &Problem) -> ArrayVec<LabelSet, 128>
    ensures { result.items ≡ map (λ label. meet (up_set problem.now.active label (length problem.now.names)) (up_set problem.now.passive label (length problem.now.names))) (count_from 0 (length problem.now.names)) }
{
    let labels = problem.names().len() as u8;
    let active = re_boxes::up_sets(problem.active(), labels);
    let passive = re_boxes::up_sets(problem.passive(), labels);
    let mut covers = ArrayVec::new();
    for label in 0..labels {
        covers.push(active[label as usize].meet(passive[label as usize]));
    }
    covers
}

// For each label the new number of the least label of its class.
fn merge_map(covers: &[LabelSet], stay: &[u8]) -> ArrayVec<u8, 128>
    requires few { length covers.now ≤ MAX_LABELS }
    requires stay { length stay.now ≤ MAX_LABELS }
    ensures { result.items ≡ map (λ a. number_among stay.now (least_equal (strong_by covers.now) (length covers.now) a)) (count_from 0 (length covers.now)) }
{
    let mut images = ArrayVec::new();
    for label in 0..covers.len() as u8 {
        images.push(number_among(stay, least_equal(covers, label)));
    }
    images
}

/// The problem with equal labels merged, those that cover each other: the least of each class stays and keeps its name,
/// the labels that stay are numbered anew, and the constraints are the images under the map, which leads from each label
/// to the new number of the one that stays. It is solvable in as many rounds as before. It finds all up-sets of each constraint
/// at once, in one walk over the rests of its configurations, and sorts the images of all configurations.
pub fn merge(alloc: Global, problem: &Problem) -> Result<Merged, NoMemory>
    ensures merged { IfOk result (λ merged. merged ≡ merging_of problem.now) }
    ensures rounds { IfOk result (λ merged. (T : ℕ) → Solvable (unnamed merged.problem) T ↔ Solvable (unnamed problem.now) T) }
{
    let covers = cover_sets(problem);
    let stay = least_labels(covers.as_slice());
    let images = merge_map(covers.as_slice(), stay.as_slice());
    let merged = renumbered(
        alloc,
        problem.names(),
        problem.active(),
        problem.passive(),
        stay.as_slice(),
        images.as_slice(),
    )?;
    let Some(map) = LabelMap::new(images.as_slice()) else {
        unreachable!();
    };
    Ok(Merged {
        problem: merged,
        map,
    })
}
