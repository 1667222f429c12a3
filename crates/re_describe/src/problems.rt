//! The problems of a certificate, each with its numbers and its constraints in few rows.
ghost use Rattle.re_cert.specs.Bounds.{problem_at};
ghost use Rattle.re_describe.specs.Heads.{counts, problem_text, side_counts};
ghost use Rattle.re_describe.specs.Reports.{SaysRows, row_line, rows_text};
ghost use Rattle.re_labels.specs.Constraints.{IsConstraint};
ghost use Rattle.std.specs.Fmt.{decimal};
ghost use Rattle.std.specs.Prelude.{◌≡◌, ◌≤◌, ◌++◌, None, Some, codes, IfOk, OnOk, flat_map, length};

use crate::condensing::condensed;
use crate::items::push_items;
use crate::pieces::{push_between, push_count};
use re_cert::Certificate;
use re_frame::{begun, push_number, push_words};
use re_labels::{Constraint, MAX_LABELS, Names, NoMemory, Row};
use re_problem::Problem;
use std::alloc::Global;

/// The problem of this number: of one beyond the last one, the first problem.
pub(crate) fn problem_of(certificate: &Certificate, number: u8) -> &Problem
    ensures { result.now ≡ problem_at certificate.now number }
{
    if number as usize <= certificate.steps().len() {
        certificate.problem_at(number as usize)
    } else {
        certificate.first()
    }
}

// Words, a degree, and a number of configurations.
fn push_side(text: &mut Vec<u8>, words: &str, degree: u8, configs: usize) -> Result<(), NoMemory>
    ensures { OnOk result (text.new.items ≡ text.old.items ++ (words.now ++ (decimal degree ++ (codes ", configurations: " ++ decimal configs)))) }
{
    push_between(text, words, degree as usize, ", configurations: ")?;
    let alloc = *text.allocator();
    push_number(alloc, text, configs)
}

// The degree of a side and how many configurations it has, behind these words.
fn push_side_counts(
    text: &mut Vec<u8>,
    words: &str,
    constraint: &Constraint,
) -> Result<(), NoMemory>
    ensures { OnOk result (text.new.items ≡ text.old.items ++ side_counts words.now constraint.now) }
{
    push_side(text, words, constraint.degree(), constraint.len())
}

/// Appends the numbers of a problem.
pub(crate) fn push_counts(text: &mut Vec<u8>, problem: &Problem) -> Result<(), NoMemory>
    ensures { OnOk result (text.new.items ≡ text.old.items ++ counts problem.now) }
{
    push_count(text, "\n- labels: ", problem.names().len())?;
    push_side_counts(text, "\n- active nodes: degree ", problem.active())?;
    push_side_counts(text, "\n- passive nodes: degree ", problem.passive())?;
    push_words(text, "\n")
}

/// Appends the title of the problem of this number, and its numbers.
pub(crate) fn push_problem(
    text: &mut Vec<u8>,
    number: usize,
    problem: &Problem,
) -> Result<(), NoMemory>
    ensures { OnOk result (text.new.items ≡ text.old.items ++ problem_text number problem.now) }
{
    push_between(text, "\n## Problem ", number, "\n")?;
    push_counts(text, problem)
}

// A row, as a line that stands as it is.
fn push_row(text: &mut Vec<u8>, names: &Names, row: &Row) -> Result<(), NoMemory>
    ensures { OnOk result (text.new.items ≡ text.old.items ++ row_line names.now row.now) }
{
    push_words(text, "    ")?;
    push_items(text, names, row.sets())?;
    push_words(text, "\n")
}

// The rows, as lines that stand as they are.
fn push_rows(text: &mut Vec<u8>, names: &Names, rows: &[Row]) -> Result<(), NoMemory>
    ensures { OnOk result (text.new.items ≡ text.old.items ++ flat_map (row_line names.now) rows.now) }
{
    for row in rows {
        push_row(text, names, row)?;
    }
    Ok(())
}

// The text of a constraint that isn't listed.
fn unlisted(alloc: Global, title: &str, names: &Names) -> Result<Vec<u8>, NoMemory>
    ensures { IfOk result (λ text. text.items ≡ rows_text title.now names.now None) }
{
    let mut text = begun(alloc, title)?;
    push_words(
        &mut text,
        ": more than 4096 configurations, which are not listed here\n",
    )?;
    Ok(text)
}

// The text of a constraint in these rows.
fn listed(alloc: Global, title: &str, names: &Names, rows: &[Row]) -> Result<Vec<u8>, NoMemory>
    ensures { IfOk result (λ text. text.items ≡ rows_text title.now names.now (Some rows.now)) }
{
    let mut text = begun(alloc, title)?;
    push_count(&mut text, ", lines: ", rows.len())?;
    push_words(&mut text, "\n\n")?;
    push_rows(&mut text, names, rows)?;
    Ok(text)
}

/// The text of a constraint in few rows, behind this title.
pub(crate) fn constraint_text(
    alloc: Global,
    title: &str,
    names: &Names,
    constraint: &Constraint,
) -> Result<Vec<u8>, NoMemory>
    requires labels { length names.now ≤ MAX_LABELS }
    requires constraint { IsConstraint (length names.now) constraint.now }
    ensures { IfOk result (λ text. SaysRows title.now names.now constraint.now text.items) }
{
    let labels = names.len() as u8;
    match condensed(alloc, constraint, labels)? {
        None => unlisted(alloc, title, names),
        Some(rows) => listed(alloc, title, names, rows.as_slice()),
    }
}
