//! Lines of labels: the set of a line, and the multisets of some lines.
ghost use Rattle.re_cert.specs.Entries.{label_items};
ghost use Rattle.re_judging.specs.LabelLines.{Gives, alone, labels_or, multiset_in, multisets_on, one_set, set_in, side_of, side_on};
ghost use Rattle.re_problem.specs.ProblemTexts.{lines_of};
ghost use Rattle.std.specs.Option.{option_and_then};
ghost use Rattle.std.specs.Prelude.{◌≡◌, ◌≤◌, ◌<◌, ◌+◌, IsSome, Some, length};

use re_cert::{has_labels, line_labels};
use re_greedy::Partial;
use re_io::MAX_BYTES;
use re_labels::{LabelSet, Names, NoMemory, Side};
use re_problem::{
    InputFault, ItemStep, TextFault, begins_section, cut_line, next_item, read_label,
};
use std::alloc::Global;

// The set of the labels of a line of labels, or None where one isn't among the names.
fn line_set(line: &[u8], names: &Names) -> Option<LabelSet>
    requires { IsSome (label_items line.now) }
    ensures { result ≡ option_and_then (set_in names.now) (label_items line.now) }
{
    let _count = names.len();
    let mut at = 0;
    let mut set = LabelSet::empty();
    'items: loop {
        match next_item(line, at) {
            ItemStep::Item(item) => {
                let Some(label) = read_label(line, &item, names) else {
                    return None;
                };
                set = set.insert(label);
                at = item.to;
            }
            ItemStep::End => return Some(set),
            ItemStep::Bad => unreachable!(),
        }
    }
}

// The set that a line of this number writes.
fn set_on(names: &Names, number: u32, line: &[u8]) -> Result<LabelSet, InputFault>
    ensures { result ≡ labels_or (set_in names.now) number line.now }
{
    if begins_section(line) {
        return Err(InputFault::BadSection(number));
    }
    if !has_labels(line) {
        return Err(InputFault::BadItem(number));
    }
    match line_set(line, names) {
        Some(set) => Ok(set),
        None => Err(InputFault::BadEntry(number)),
    }
}

// The set where no line stands behind it; the next one would have this number.
fn alone(number: u32, text: &[u8], set: LabelSet) -> Result<LabelSet, InputFault>
    ensures { result ≡ alone number (lines_of text.now) set }
{
    if text.is_empty() {
        return Ok(set);
    }
    let (line, _behind) = cut_line(text);
    if begins_section(line) {
        Err(InputFault::BadSection(number))
    } else {
        Err(InputFault::BadEntry(number))
    }
}

/// The set of labels that one line writes, of this number, or the first fault.
pub(crate) fn one_set(names: &Names, number: u32, text: &[u8]) -> Result<LabelSet, InputFault>
    requires { 0 < length text.now → number + length text.now ≤ MAX_BYTES + 1 }
    ensures { result ≡ one_set names.now number (lines_of text.now) }
{
    if text.is_empty() {
        return Err(InputFault::EarlyEnd);
    }
    let (line, behind) = cut_line(text);
    let set = set_on(names, number, line)?;
    alone(number + 1, behind, set)
}

// The multiset of the labels of a line of labels, or None where one isn't among the names, there is none, or they are more.
fn line_multiset(line: &[u8], names: &Names, most: u8) -> Option<Partial>
    requires items { IsSome (label_items line.now) }
    requires most { most ≤ 5 }
    ensures { result ≡ option_and_then (multiset_in names.now (most + 1)) (label_items line.now) }
{
    if most == 0 {
        return None;
    }
    let _count = names.len();
    match line_labels(line, names, most) {
        Some(labels) => Some(Partial::from_labels(labels.as_slice())),
        None => line_multiset(line, names, most - 1),
    }
}

// The multiset that a line of this number writes, of fewer labels than the degree.
fn multiset_on(names: &Names, degree: u8, number: u32, line: &[u8]) -> Result<Partial, InputFault>
    requires least { 1 ≤ degree }
    requires most { degree ≤ 6 }
    ensures { result ≡ labels_or (multiset_in names.now degree) number line.now }
{
    if begins_section(line) {
        return Err(InputFault::BadSection(number));
    }
    if !has_labels(line) {
        return Err(InputFault::BadItem(number));
    }
    match line_multiset(line, names, degree - 1) {
        Some(multiset) => Ok(multiset),
        None => Err(InputFault::BadEntry(number)),
    }
}

/// The multisets that the lines write, of which the first has this number, each of fewer labels than the degree, or the first fault. It reads line by line,
/// and keeps the multisets.
pub(crate) fn multisets_on(
    alloc: Global,
    names: &Names,
    degree: u8,
    number: u32,
    text: &[u8],
) -> Result<Vec<Partial>, TextFault>
    requires least { 1 ≤ degree }
    requires most { degree ≤ 6 }
    requires counted { 0 < length text.now → number + length text.now ≤ MAX_BYTES + 1 }
    ensures { Gives (λ multisets. multisets.items) (multisets_on names.now degree number (lines_of text.now)) result }
{
    let mut multisets: Vec<Partial> = Vec::new(alloc);
    let mut current = number;
    let mut rest = text;
    'lines: while !rest.is_empty() {
        let (line, behind) = cut_line(rest);
        match multiset_on(names, degree, current, line) {
            Ok(multiset) => match multisets.push(multiset) {
                Ok(()) => {}
                Err(_) => return Err(TextFault::NoMemory),
            },
            Err(fault) => return Err(TextFault::Bad(fault)),
        }
        current += 1;
        rest = behind;
    }
    Ok(multisets)
}

// The side that the line names.
fn side_of(line: &[u8]) -> Option<Side>
    ensures { result ≡ side_of line.now }
{
    if line == b"active".as_slice() {
        Some(Side::Active)
    } else if line == b"passive".as_slice() {
        Some(Side::Passive)
    } else {
        None
    }
}

/// The side that a line of this number names, or its fault.
pub(crate) fn side_on(number: u32, line: &[u8]) -> Result<Side, InputFault>
    ensures { result ≡ side_on number line.now }
{
    if begins_section(line) {
        return Err(InputFault::BadSection(number));
    }
    match side_of(line) {
        Some(side) => Ok(side),
        None => Err(InputFault::BadEntry(number)),
    }
}
