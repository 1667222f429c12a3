//! The inner beam of upper bounds: labels are left out one at a time.
use crate::chance::chance_of;
use crate::states::{State, has_mark};
use crate::thinning::without;
use re_changes::Changed;
use re_labels::{LabelSet, MAX_LABELS, NoMemory};
use re_problem::Problem;
use re_shaping::problem_mark;
use std::alloc::Global;

/// How many problems of the inner beam stay after each label that is left out.
const INNER_WIDTH: usize = 4;

// A label to leave out of a problem of the inner beam, and the chance that is left then.
#[derive(Clone, Copy)]
struct Loss {
    state: usize,
    label: u8,
    chance: u64,
}

// The first label that stands in no active configuration.
fn idle_label(problem: &Problem) -> Option<u8> {
    let used = problem.active().labels();
    for label in 0..problem.names().len() as u8 {
        if label < MAX_LABELS && !used.has(label) {
            return Some(label);
        }
    }
    None
}

// What is left without the labels that stand in no active configuration.
fn trimmed(alloc: Global, made: Changed) -> Result<Changed, NoMemory> {
    let mut made = made;
    for _label in 0..MAX_LABELS {
        let Some(label) = idle_label(made.problem()) else {
            break;
        };
        match without(alloc, &made, label)? {
            Some(left) => made = left,
            None => break,
        }
    }
    Ok(made)
}

/// The inner beam's problem of these changes, without idle labels, ranked by its chance. None where it has no active configuration.
pub(crate) fn state_of(alloc: Global, made: Changed) -> Result<Option<State>, NoMemory> {
    let made = trimmed(alloc, made)?;
    if made.problem().active().len() == 0 {
        return Ok(None);
    }
    let mark = problem_mark(made.problem());
    let chance = chance_of(alloc, made.problem(), made.problem().active().labels())?;
    Ok(Some(State {
        made,
        mark,
        rank: u64::MAX - chance,
    }))
}

// The labels without the one.
fn all_but(labels: LabelSet, label: u8) -> LabelSet {
    if label < MAX_LABELS {
        labels.remove(label)
    } else {
        labels
    }
}

// All labels to leave out of the problems of the inner beam, those that leave the greatest chance first.
fn losses_of(alloc: Global, states: &[State]) -> Result<Vec<Loss>, NoMemory> {
    let mut losses = Vec::new(alloc);
    for (place, state) in states.iter().enumerate() {
        let problem = state.made.problem();
        let labels = problem.active().labels();
        for label in 0..problem.names().len() as u8 {
            let chance = chance_of(alloc, problem, all_but(labels, label))?;
            losses.push(Loss {
                state: place,
                label,
                chance,
            })?;
        }
    }
    losses.sort_by_key(|loss| u64::MAX - loss.chance)?;
    Ok(losses)
}

// What is left of its problem without the label.
fn state_after(alloc: Global, states: &[State], loss: Loss) -> Result<Option<State>, NoMemory> {
    let Some(state) = states.get(loss.state) else {
        return Ok(None);
    };
    match without(alloc, &state.made, loss.label)? {
        Some(made) => state_of(alloc, made),
        None => Ok(None),
    }
}

/// The inner beam where one label more is left out.
pub(crate) fn after_loss(alloc: Global, states: &[State]) -> Result<Vec<State>, NoMemory> {
    let losses = losses_of(alloc, states)?;
    let mut next: Vec<State> = Vec::new(alloc);
    for loss in losses.as_slice() {
        if next.len() >= INNER_WIDTH {
            break;
        }
        if let Some(state) = state_after(alloc, states, *loss)? {
            if !has_mark(next.as_slice(), state.mark) {
                next.push(state)?;
            }
        }
    }
    Ok(next)
}
