//! Texts of what shows that problems are greedy.

use crate::evidence_bounds::derived_chain;
use crate::evidence_texts::printed;
use re_forest_words::{Showing, Shown, greedy_behind, push_name};
use re_frame::push_words;
use re_greedy::Partial;
use re_labels::{Names, NoMemory, Side};
use re_problem::{Problem, print_problem};
use std::alloc::Global;

/// How many derived problems are looked at behind the problem, as `greedy` does.
const MORE_PROBLEMS: u8 = 2;

// Appends the line of a multiset, with one blank between its labels.
fn push_line(text: &mut Vec<u8>, names: &Names, labels: &[u8]) -> Result<(), NoMemory> {
    let mut blank = "";
    for label in labels {
        push_words(text, blank)?;
        push_name(text, names, *label)?;
        blank = " ";
    }
    push_words(text, "\n")
}

// Appends the lines of the multisets that are neither empty nor as large as a passive configuration.
fn push_lines(text: &mut Vec<u8>, problem: &Problem, partial: &[Partial]) -> Result<(), NoMemory> {
    let degree = problem.passive().degree() as usize;
    for member in partial {
        let labels = member.labels();
        if !labels.is_empty() && labels.len() < degree {
            push_line(text, problem.names(), labels)?;
        }
    }
    Ok(())
}

// The line of a side.
fn side_line(side: Side) -> &'static str {
    match side {
        Side::Active => "active\n",
        Side::Passive => "passive\n",
    }
}

// The text of the problem, or of the chain of so many derived problems behind it.
fn front_text(alloc: Global, problem: &Problem, steps: u8) -> Result<Option<Vec<u8>>, NoMemory> {
    if steps == 0 {
        Ok(Some(print_problem(alloc, problem)?))
    } else {
        printed(alloc, derived_chain(alloc, problem, steps)?)
    }
}

// The text with what shows it.
fn shown_text(
    alloc: Global,
    problem: &Problem,
    shown: &Shown,
) -> Result<Option<Vec<u8>>, NoMemory> {
    let Some(mut text) = front_text(alloc, problem, shown.steps)? else {
        return Ok(None);
    };
    push_words(&mut text, "== greedy\n")?;
    push_words(&mut text, side_line(shown.side))?;
    push_lines(&mut text, &shown.problem, shown.partial.as_slice())?;
    Ok(Some(text))
}

/// The text of what shows that the problem is greedy, or one behind it.
pub(crate) fn greedy_text(alloc: Global, problem: &Problem) -> Result<Option<Vec<u8>>, NoMemory> {
    match greedy_behind(alloc, problem, MORE_PROBLEMS)? {
        Showing::Shown(shown) => shown_text(alloc, problem, &shown),
        Showing::NotGreedy | Showing::Unknown => Ok(None),
    }
}
