//! The text of an answer of `greedy`.
ghost use Rattle.re_forest_words.specs.GreedyAnswers.{showing_outcome};
ghost use Rattle.re_forest_words.specs.GreedyTexts.{labels_text, partial_line, partial_lines, shown_text, side_text};
ghost use Rattle.re_frame.specs.Outcomes.{outcome_of};
ghost use Rattle.std.specs.Prelude.{◌≡◌, ◌≤◌, ◌++◌, IfOk, OnOk};

use crate::lines::{push_behind, push_name};
use crate::showing::{Showing, Shown};
use re_frame::{Output, begun, done, push_number, push_words, refused, too_long};
use re_greedy::Partial;
use re_io::MAX_BYTES;
use re_labels::{Names, NoMemory, Side};
use re_problem::push_problem;
use std::alloc::Global;

// Appends the names of the labels, each behind a blank.
fn push_each(text: &mut Vec<u8>, names: &Names, labels: &[u8]) -> Result<(), NoMemory>
    ensures { OnOk result (text.new.items ≡ text.old.items ++ labels_text names.now labels.now) }
{
    let [label, others @ ..] = labels else {
        return push_words(text, "");
    };
    push_behind(text, names, *label)?;
    push_each(text, names, others)
}

// Appends the line of a multiset, where its labels are fewer than the degree and at least one.
fn push_line(text: &mut Vec<u8>, names: &Names, degree: u8, labels: &[u8]) -> Result<(), NoMemory>
    requires { 2 ≤ degree }
    ensures { OnOk result (text.new.items ≡ text.old.items ++ partial_line names.now degree labels.now) }
{
    let [label, others @ ..] = labels else {
        return push_words(text, "");
    };
    if others.len() < degree as usize - 1 {
        push_name(text, names, *label)?;
        push_each(text, names, others)?;
        push_words(text, "\n")
    } else {
        push_words(text, "")
    }
}

// Appends the lines of the multisets, the last one first.
fn push_lines(
    text: &mut Vec<u8>,
    names: &Names,
    degree: u8,
    partial: &[Partial],
) -> Result<(), NoMemory>
    requires { 2 ≤ degree }
    ensures { OnOk result (text.new.items ≡ text.old.items ++ partial_lines names.now degree partial.now) }
{
    let [first, others @ ..] = partial else {
        return push_words(text, "");
    };
    push_lines(text, names, degree, others)?;
    push_line(text, names, degree, first.labels())
}

// The word for a side.
fn side_word(side: Side) -> &'static str
    ensures { result.now ≡ side_text side }
{
    match side {
        Side::Active => "active",
        Side::Passive => "passive",
    }
}

// The text of what shows it.
fn shown_bytes(alloc: Global, shown: &Shown) -> Result<Vec<u8>, NoMemory>
    ensures { IfOk result (λ text. text.items ≡ shown_text shown.now) }
{
    let problem = &shown.problem;
    let degree = problem.passive().degree();
    let mut text = begun(alloc, "greedy: ")?;
    push_words(&mut text, side_word(shown.side))?;
    push_words(&mut text, " nodes, behind ")?;
    push_number(alloc, &mut text, shown.steps as usize)?;
    push_words(&mut text, " steps\n")?;
    push_problem(&mut text, problem)?;
    push_words(&mut text, "\n== greedy\n")?;
    push_lines(&mut text, problem.names(), degree, shown.partial.as_slice())?;
    Ok(text)
}

// The output of what shows it, or the limit where its text is longer than an input may be.
fn shown_output(alloc: Global, shown: &Shown) -> Result<Output, NoMemory>
    ensures { IfOk result (λ output. outcome_of output ≡ showing_outcome (Showing.Shown shown.now)) }
{
    let text = shown_bytes(alloc, shown)?;
    if text.len() > MAX_BYTES {
        return Ok(too_long(alloc)?);
    }
    Ok(done(text))
}

/// The output for what shows that a problem is greedy, or for that nothing does.
pub(crate) fn showing_output(alloc: Global, showing: &Showing) -> Result<Output, NoMemory>
    ensures { IfOk result (λ output. outcome_of output ≡ showing_outcome showing.now) }
{
    match showing {
        Showing::Shown(shown) => shown_output(alloc, shown),
        Showing::NotGreedy => Ok(refused(begun(alloc, "no: not greedy\n")?)),
        Showing::Unknown => Ok(refused(begun(alloc, "not found\n")?)),
    }
}
