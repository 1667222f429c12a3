//! The inner beam: merges along the edges of the passive diagram.
ghost use Rattle.std.specs.Prelude.{◌≤◌, length};

use crate::states::{State, has_mark};
use arrayvec::ArrayVec;
use re_boxes::up_sets;
use re_changes::{Change, Changed};
use re_labels::{LabelSet, MAX_LABELS, NoMemory};
use re_problem::{Problem, zero_round};
use re_shaping::{config_mark, label_mark, moved_mark, problem_mark};
use std::alloc::Global;

/// How many problems of the inner beam stay after each merge.
const INNER_WIDTH: usize = 6;

// A merge of two labels of a problem of the inner beam, and how many active configurations it leaves.
#[derive(Clone, Copy)]
struct Merge {
    state: usize,
    low: u8,
    high: u8,
    active: usize,
}

// The set at the label's place.
fn set_at(sets: &[LabelSet], label: u8) -> LabelSet {
    match sets.get(label as usize) {
        Some(set) => *set,
        None => LabelSet::empty(),
    }
}

// Whether the label's set has the other label.
fn has_at(sets: &[LabelSet], label: u8, other: u8) -> bool {
    other < MAX_LABELS && set_at(sets, label).has(other)
}

// For each label below the number those that are stronger.
fn stronger_sets(ups: &[LabelSet], labels: u8) -> ArrayVec<LabelSet, 128>
    requires { labels ≤ MAX_LABELS }
    ensures { length result.items ≤ labels }
{
    let mut stronger = ArrayVec::new();
    for label in 0..labels {
        let mut set = LabelSet::empty();
        for other in 0..labels {
            if has_at(ups, label, other) && !has_at(ups, other, label) {
                set = set.insert(other);
            }
        }
        stronger.push(set);
    }
    stronger
}

// For each label below the number those that are weaker: those whose sets of stronger labels have it.
fn weaker_sets(stronger: &[LabelSet], labels: u8) -> ArrayVec<LabelSet, 128>
    requires { labels ≤ MAX_LABELS }
    ensures { length result.items ≤ labels }
{
    let mut weaker = ArrayVec::new();
    for label in 0..labels {
        let mut set = LabelSet::empty();
        for other in 0..labels {
            if has_at(stronger, other, label) {
                set = set.insert(other);
            }
        }
        weaker.push(set);
    }
    weaker
}

// The strength of labels: for each the labels at least as strong, those that are stronger, and those that are weaker.
#[derive(Drop)]
struct Strength {
    ups: ArrayVec<LabelSet, 128>,
    stronger: ArrayVec<LabelSet, 128>,
    weaker: ArrayVec<LabelSet, 128>,
}

// The strength of the labels around passive nodes.
fn strength_of(problem: &Problem) -> Strength {
    let labels = problem.names().len() as u8;
    let ups = up_sets(problem.passive(), labels);
    let stronger = stronger_sets(ups.as_slice(), labels);
    let weaker = weaker_sets(stronger.as_slice(), labels);
    Strength {
        ups,
        stronger,
        weaker,
    }
}

impl Strength {
    // Whether the second label is stronger, with none strictly between.
    fn is_next(&self, weak: u8, strong: u8) -> bool {
        let above = set_at(self.stronger.as_slice(), weak);
        let below = set_at(self.weaker.as_slice(), strong);
        has_at(self.stronger.as_slice(), weak, strong) && above.meet(below).is_empty()
    }

    // Whether the labels are equally strong.
    fn are_equal(&self, first: u8, second: u8) -> bool {
        let ups = self.ups.as_slice();
        has_at(ups, first, second) && has_at(ups, second, first)
    }

    // Whether the labels are equally strong, or are the ends of an edge of the diagram.
    fn is_edge(&self, first: u8, second: u8) -> bool {
        self.are_equal(first, second) || self.is_next(first, second) || self.is_next(second, first)
    }
}

// The numbers of the active configurations.
fn active_marks(alloc: Global, problem: &Problem) -> Result<Vec<u64>, NoMemory> {
    let mut marks = Vec::new(alloc);
    for config in problem.active().configs() {
        marks.push(config_mark(config))?;
    }
    Ok(marks)
}

// How many active configurations are left when the two labels are merged, where these are the numbers of all.
fn active_after(
    alloc: Global,
    problem: &Problem,
    marks: &[u64],
    low: u8,
    high: u8,
) -> Result<usize, NoMemory> {
    let change = label_mark(low).wrapping_sub(label_mark(high));
    let mut after = Vec::with_capacity(alloc, marks.len())?;
    for (config, mark) in problem.active().configs().zip(marks) {
        after.push(moved_mark(*mark, config, high, change))?;
    }
    after.sort_unstable();
    after.dedup();
    Ok(after.len())
}

// Appends the merges of the problem at this place of the inner beam.
fn push_merges(
    alloc: Global,
    merges: &mut Vec<Merge>,
    problem: &Problem,
    state: usize,
) -> Result<(), NoMemory> {
    let labels = problem.names().len() as u8;
    let strength = strength_of(problem);
    let marks = active_marks(alloc, problem)?;
    for low in 0..labels {
        for high in low + 1..labels {
            if strength.is_edge(low, high) {
                let active = active_after(alloc, problem, marks.as_slice(), low, high)?;
                merges.push(Merge {
                    state,
                    low,
                    high,
                    active,
                })?;
            }
        }
    }
    Ok(())
}

// All merges of the problems of the inner beam, those that leave the fewest active configurations first.
fn merges_of(alloc: Global, states: &[State]) -> Result<Vec<Merge>, NoMemory> {
    let mut merges = Vec::new(alloc);
    for (place, state) in states.iter().enumerate() {
        push_merges(alloc, &mut merges, state.made.problem(), place)?;
    }
    merges.sort_by_key(|merge| merge.active)?;
    Ok(merges)
}

/// What the merge makes of the problem, where there are such labels.
pub(crate) fn changed(
    alloc: Global,
    made: &Changed,
    low: u8,
    high: u8,
) -> Result<Option<Changed>, NoMemory> {
    let labels = made.problem().names().len();
    if low < high && (high as usize) < labels {
        Ok(Some(made.changed(alloc, Change::Merge(low, high))?))
    } else {
        Ok(None)
    }
}

/// The inner beam's problem of these changes, ranked by its active configurations. None where it is solvable without communication.
pub(crate) fn state_of(made: Changed) -> Option<State> {
    if zero_round(made.problem()).is_some() {
        return None;
    }
    let mark = problem_mark(made.problem());
    let rank = made.problem().active().len() as u64;
    Some(State { made, mark, rank })
}

/// What the merge makes of the problem, where there are such labels and it isn't solvable without communication.
pub(crate) fn merged(
    alloc: Global,
    made: &Changed,
    low: u8,
    high: u8,
) -> Result<Option<State>, NoMemory> {
    match changed(alloc, made, low, high)? {
        Some(made) => Ok(state_of(made)),
        None => Ok(None),
    }
}

// What the merge makes of its problem, if that isn't solvable without communication.
fn state_after(alloc: Global, states: &[State], merge: Merge) -> Result<Option<State>, NoMemory> {
    match states.get(merge.state) {
        Some(state) => merged(alloc, &state.made, merge.low, merge.high),
        None => Ok(None),
    }
}

/// The inner beam after one merge more.
pub(crate) fn after_merge(alloc: Global, states: &[State]) -> Result<Vec<State>, NoMemory> {
    let merges = merges_of(alloc, states)?;
    let mut next: Vec<State> = Vec::new(alloc);
    for merge in merges.as_slice() {
        if next.len() >= INNER_WIDTH {
            break;
        }
        if let Some(state) = state_after(alloc, states, *merge)? {
            if !has_mark(next.as_slice(), state.mark) {
                next.push(state)?;
            }
        }
    }
    Ok(next)
}
