//! The search for an upper bound from level to level.
use crate::candidates::{Kept, first_kept};
use crate::given::Given;
use crate::pairing::{Paired, beam_labels, pattern_path};
use crate::shortest_levels::{Count, End, Reached, Rung, Wanted, level_behind, step_of};
use crate::sizes::next_size;
use re_cert::Step;
use re_labels::NoMemory;
use re_problem::Problem;
use std::alloc::Global;

/// What the search comes to: the shortest path to a problem that is solvable without communication, if one is found, and the count of
/// what was looked at.
#[derive(Drop)]
pub(crate) struct Climb {
    pub(crate) path: Option<Vec<Step>>,
    pub(crate) count: Count,
}

// The path to the end behind the last level.
fn path_to(alloc: Global, levels: &[Rung], end: End) -> Result<Vec<Step>, NoMemory> {
    let End { step, parent } = end;
    let mut path = Vec::new(alloc);
    path.push(step)?;
    let mut place = parent;
    for level in levels.iter().rev() {
        if let Some(kept) = level.kept.as_slice().get(place) {
            path.push(step_of(alloc, kept, level.sets.as_slice())?)?;
            place = kept.parent;
        }
    }
    path.reverse();
    Ok(path)
}

// What is reached behind the last of the levels, or behind the first problem.
fn reached_behind(
    alloc: Global,
    given: &Given,
    first: &[Kept],
    levels: &[Rung],
    labels: u8,
    count: &mut Count,
) -> Result<Reached, NoMemory> {
    let wanted = Wanted {
        given,
        steps: levels.len().saturating_add(1),
        most: labels,
    };
    match levels.last() {
        Some(level) => level_behind(alloc, level.kept.as_slice(), wanted, count),
        None => level_behind(alloc, first, wanted, count),
    }
}

// The path that one beam finds from the problem, if any: at most so many levels, of problems of at most so many labels.
fn beam_path(
    alloc: Global,
    given: &Given,
    first: &[Kept],
    most: usize,
    labels: u8,
    count: &mut Count,
) -> Result<Option<Vec<Step>>, NoMemory> {
    let mut levels: Vec<Rung> = Vec::new(alloc);
    for _level in 0..most {
        match reached_behind(alloc, given, first, levels.as_slice(), labels, count)? {
            Reached::End(end) => return Ok(Some(path_to(alloc, levels.as_slice(), end)?)),
            Reached::Level(level) => {
                if level.kept.is_empty() {
                    break;
                }
                levels.push(level)?;
            }
        }
    }
    Ok(None)
}

/// The shortest path that is found from the problem to one that is solvable without communication, or with what is given alone: at most so
/// many levels, of problems of at most so many labels.
pub(crate) fn shortest_path(
    alloc: Global,
    given: &Given,
    problem: &Problem,
    levels: usize,
    labels: u8,
) -> Result<Climb, NoMemory> {
    let first = first_kept(alloc, problem)?;
    let mut climb = Climb {
        path: None,
        count: Count { nodes: 0, cut: 0 },
    };
    let mut most = levels;
    let paired = pattern_path(alloc, problem, levels, labels)?;
    let widest = beam_labels(alloc, given, problem, &paired, labels)?;
    let Paired { path, .. } = paired;
    if let Some(path) = path {
        most = path.len().saturating_sub(1);
        climb.path = Some(path);
    }
    let mut size = 2;
    for _size in 0..labels {
        if size > widest || most == 0 {
            break;
        }
        let kept = first.as_slice();
        if let Some(path) = beam_path(alloc, given, kept, most, size, &mut climb.count)? {
            most = path.len().saturating_sub(1);
            climb.path = Some(path);
        }
        size = next_size(size);
    }
    Ok(climb)
}
