//! A certificate or a problem, written with its configurations in groups.
ghost use Rattle.re_chains.specs.ChainTexts.{chain_fault, is_certificate_text, text_bound};
ghost use Rattle.re_describe.specs.GroupTexts.{WritesSame};
ghost use Rattle.re_labels.specs.Constraints.{IsConstraint};
ghost use Rattle.std.specs.Prelude.{◌≡◌, ◌≤◌, IfOk, IsTrue, None, length};

use crate::condensing::condensed;
use crate::items::push_items;
use crate::joining::{Line, joined_lines};
use crate::latex::lines_of;
use crate::pieces::push_count;
use re_cert::Certificate;
use re_chains::{is_certificate_text, read_bound};
use re_frame::push_words;
use re_io::MAX_BYTES;
use re_labels::{Constraint, MAX_LABELS, Names, NoMemory, Row};
use re_problem::{Problem, TextFault};
use re_texts::print_certificate;
use std::alloc::Global;

// The rows as lines.
fn lines_of_rows(alloc: Global, rows: Vec<Row>) -> Result<Vec<Line>, NoMemory> {
    let mut lines = Vec::new(alloc);
    for row in &rows {
        lines.push(Line::new(row.sets()))?;
    }
    Ok(lines)
}

// Few lines of a constraint: those of `condensed`, or joined ones where these aren't more.
fn few_lines(alloc: Global, constraint: &Constraint, labels: u8) -> Result<Vec<Line>, NoMemory>
    requires labels { labels ≤ MAX_LABELS }
    requires constraint { IsConstraint labels constraint.now }
{
    let joined = joined_lines(alloc, constraint)?;
    match condensed(alloc, constraint, labels)? {
        Some(rows) => {
            if rows.len() < joined.len() {
                lines_of_rows(alloc, rows)
            } else {
                Ok(joined)
            }
        }
        None => Ok(joined),
    }
}

// Appends the lines, or `%d` where there is none and the degree is d.
fn push_lines(
    text: &mut Vec<u8>,
    names: &Names,
    lines: Vec<Line>,
    degree: u8,
) -> Result<(), NoMemory> {
    if lines.is_empty() {
        push_count(text, "%", degree as usize)?;
        return push_words(text, "\n");
    }
    for line in &lines {
        push_items(text, names, line.sets())?;
        push_words(text, "\n")?;
    }
    Ok(())
}

/// Appends the text of the problem with its configurations in groups.
pub(crate) fn push_grouped(text: &mut Vec<u8>, problem: &Problem) -> Result<(), NoMemory> {
    let alloc = *text.allocator();
    let names = problem.names();
    let labels = names.len() as u8;
    let active = few_lines(alloc, problem.active(), labels)?;
    push_lines(text, names, active, problem.active().degree())?;
    push_words(text, "\n")?;
    let passive = few_lines(alloc, problem.passive(), labels)?;
    push_lines(text, names, passive, problem.passive().degree())
}

// Appends the line.
fn push_line(text: &mut Vec<u8>, line: &[u8]) -> Result<(), NoMemory> {
    text.extend_from_slice(line)?;
    push_words(text, "\n")
}

// Whether a problem begins behind this section line of a certificate.
fn begins_problem(line: &[u8]) -> bool {
    line.starts_with(b"== certificate") || line.starts_with(b"== step")
}

// The text of the certificate with the configurations of its problems in groups.
fn grouped_certificate(alloc: Global, certificate: &Certificate) -> Result<Vec<u8>, NoMemory> {
    let printed = print_certificate(alloc, certificate)?;
    let mut text = Vec::new(alloc);
    let mut number: usize = 0;
    let mut is_problem = false;
    let lines = lines_of(alloc, printed.as_slice())?;
    for line in &lines {
        if begins_problem(line) {
            push_line(&mut text, line)?;
            if number <= certificate.steps().len() {
                push_grouped(&mut text, certificate.problem_at(number))?;
            }
            number = number.saturating_add(1);
            is_problem = true;
        } else if line.starts_with(b"==") {
            push_line(&mut text, line)?;
            is_problem = false;
        } else if !is_problem && !line.is_empty() {
            push_line(&mut text, line)?;
        }
    }
    Ok(text)
}

/// The certificate in this form, or the first problem alone, with the configurations in groups.
pub(crate) fn grouped(
    alloc: Global,
    certificate: &Certificate,
    is_whole: bool,
) -> Result<Vec<u8>, NoMemory> {
    if is_whole {
        return grouped_certificate(alloc, certificate);
    }
    let mut text = Vec::new(alloc);
    push_grouped(&mut text, certificate.first())?;
    Ok(text)
}

/// Whether the two certificates have one text. Then they are one.
pub(crate) fn is_same(
    alloc: Global,
    certificate: &Certificate,
    other: &Certificate,
) -> Result<bool, NoMemory>
    ensures { IfOk result (λ same. IsTrue same → certificate.now ≡ other.now) }
{
    let text = print_certificate(alloc, certificate)?;
    let other_text = print_certificate(alloc, other)?;
    Ok(text.as_slice() == other_text.as_slice())
}

// Whether the text can be read, and writes the certificate.
fn writes(alloc: Global, text: &[u8], certificate: &Certificate) -> Result<bool, NoMemory>
    ensures { IfOk result (λ same. IsTrue same →
        (length text.now ≤ MAX_BYTES) × (chain_fault text.now ≡ None) × (text_bound text.now ≡ certificate.now)) }
{
    if text.len() > MAX_BYTES {
        return Ok(false);
    }
    match read_bound(alloc, text) {
        Ok(again) => is_same(alloc, &again, certificate),
        Err(TextFault::Bad(_)) => Ok(false),
        Err(TextFault::NoMemory) => Err(NoMemory),
    }
}

/// The same text.
pub(crate) fn copied(alloc: Global, text: &[u8]) -> Result<Vec<u8>, NoMemory>
    ensures { IfOk result (λ copy. copy.items ≡ text.now) }
{
    let mut copy = Vec::new(alloc);
    copy.extend_from_slice(text)?;
    Ok(copy)
}

/// The text of this certificate or problem with its configurations in groups, so in few lines. It is read, and given where it can be
/// read and writes the same; else, as where it is longer than texts may be, the given text is. It costs what `condensed` costs for each
/// constraint, and to sort the configurations, to print three certificates and to read one.
pub(crate) fn in_groups(
    alloc: Global,
    text: &[u8],
    certificate: &Certificate,
) -> Result<Vec<u8>, NoMemory>
    requires short { length text.now ≤ MAX_BYTES }
    requires right { chain_fault text.now ≡ None }
    requires written { text_bound text.now ≡ certificate.now }
    ensures { IfOk result (λ new. WritesSame text.now certificate.now new.items) }
{
    let is_whole = is_certificate_text(text);
    let new = grouped(alloc, certificate, is_whole)?;
    if is_certificate_text(new.as_slice()) != is_whole {
        return copied(alloc, text);
    }
    if writes(alloc, new.as_slice(), certificate)? {
        return Ok(new);
    }
    copied(alloc, text)
}
