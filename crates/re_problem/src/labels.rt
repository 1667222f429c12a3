// The labels of an item.
ghost use Rattle.std.specs.Prelude.{◌≡◌, ◌≤◌, ◌<◌, ◌+◌, ◌++◌, IsErrOf, IsSome, OnOk, ℕ, [], length, drop, slice_range, if◌then◌else◌, None, Option, Some};
ghost use Rattle.std.specs.Option.{option_and_then, option_map};
ghost use Rattle.re_problem.specs.Items.{ItemText, item_of, item_with, labels_from, labels_of, with_name};
ghost use Rattle.re_problem.specs.Labels.{NextLabel, item_names, item_set, names_or_none, labels_held};
ghost use Rattle.re_problem.specs.ItemSteps.{StandsOn};
ghost use Rattle.re_labels.specs.ListSets.{list_set};
ghost use Rattle.re_labels.specs.Names.{is_name as is_name_text};

use crate::bytes::skip_blanks;
use crate::items::{Item, caret_place};
use re_labels::{LabelSet, MAX_LABELS, Name, Names, NamesFault, is_name};

/// The next label of a text, with the places of its name and the place behind it.
#[derive(Clone, Copy, Debug, PartialEq, Eq)]
pub(crate) enum LabelStep {
    Label { from: usize, to: usize, next: usize },
    End,
    Bad,
}

// Where the name that begins at this place is closed by a parenthesis, or the end of the text.
fn name_end(text: &[u8], from: usize) -> usize
    requires { from ≤ length text.now }
    ensures from { from ≤ result }
    ensures within { result ≤ length text.now }
    ensures open { result ≡ length text.now → labels_from (Some []) (drop from text.now) ≡ None }
    ensures closed { result < length text.now → labels_from (Some []) (drop from text.now)
        ≡ (if is_name_text (slice_range text.now from result)
        then with_name (slice_range text.now from result) (labels_from None (drop (result + 1) text.now)) else None) }
{
    let mut to = from;
    'name: while to < text.len() && text[to] != b')' {
        to += 1;
    }
    to
}

// The label that stands in the text from this place on, behind blanks.
fn next_label(text: &[u8], at: usize) -> LabelStep
    requires { at ≤ length text.now }
    ensures { NextLabel text.now at result }
{
    let from = skip_blanks(text, at);
    if from == text.len() {
        return LabelStep::End;
    }
    let byte = text[from];
    if byte == b'(' {
        let to = name_end(text, from + 1);
        if to == text.len() {
            return LabelStep::Bad;
        }
        if !is_name(&text[from + 1..to]) {
            return LabelStep::Bad;
        }
        return LabelStep::Label {
            from: from + 1,
            to,
            next: to + 1,
        };
    }
    if !byte.is_ascii_alphanumeric() {
        return LabelStep::Bad;
    }
    LabelStep::Label {
        from,
        to: from + 1,
        next: from + 1,
    }
}

/// How many labels the text writes, or None where it writes no labels one after another.
pub(crate) fn count_labels(text: &[u8]) -> Option<usize>
    ensures { result ≡ option_map length (labels_of text.now) }
{
    let mut at = 0;
    let mut count = 0;
    'labels: loop {
        match next_label(text, at) {
            LabelStep::Label { next, .. } => {
                count += 1;
                at = next;
            }
            LabelStep::End => return Some(count),
            LabelStep::Bad => return None,
        }
    }
}

// The set of the labels that the text writes, or None where one isn't among the names.
fn labels_in(text: &[u8], names: &Names) -> Option<LabelSet>
    ensures { result ≡ option_and_then (labels_held names.now) (labels_of text.now) }
{
    let _count = names.len();
    let mut at = 0;
    let mut labels = LabelSet::empty();
    'labels: loop {
        match next_label(text, at) {
            LabelStep::Label { from, to, next } => {
                match names.find_text(&text[from..to]) {
                    None => return None,
                    Some(label) => {
                        labels = labels.insert(label);
                        at = next;
                    }
                }
            }
            LabelStep::End => return Some(labels),
            LabelStep::Bad => return None,
        }
    }
}

// What stands before the power of an item's word, or all of the word.
fn base_text(word: &[u8]) -> &[u8]
    ensures { (item : ItemText) → item_of word.now ≡ Some item → item_with item.power result.now ≡ Some item }
{
    match caret_place(word) {
        None => word,
        Some(at) => &word[..at],
    }
}

// The text of the labels of an item without its power: what stands between its brackets, or all of it.
fn labels_text(base: &[u8]) -> &[u8]
    ensures { (power : Option ℕ) (item : ItemText) → item_with power base.now ≡ Some item → labels_of result.now ≡ Some item.names }
{
    if base.len() < 2 {
        return base;
    }
    if base[0] != b'[' {
        return base;
    }
    &base[1..base.len() - 1]
}

/// The set of the labels of an item that `next_item` gave on this line, or None exactly where a label of it isn't among the names.
pub fn item_labels(line: &[u8], item: &Item, names: &Names) -> Option<LabelSet>
    requires { StandsOn item.now line.now }
    ensures { result ≡ item_set line.now item.now names.now }
{
    let word = &line[item.from..item.to];
    labels_in(labels_text(base_text(word)), names)
}

// Adds the names that the text writes.
fn names_into(text: &[u8], names: &mut Names) -> Result<(), NamesFault>
    requires { IsSome (labels_of text.now) }
    ensures ok { OnOk result (names.new ≡ list_set (names.old ++ names_or_none (labels_of text.now))) }
    ensures many { IsErrOf result NamesFault.TooMany → MAX_LABELS < length (list_set (names.old ++ names_or_none (labels_of text.now))) }
{
    let _count = names.len();
    let mut at = 0;
    'labels: loop {
        match next_label(text, at) {
            LabelStep::Label { from, to, next } => {
                let Some(name) = Name::new(&text[from..to]) else {
                    unreachable!();
                };
                match names.insert(name) {
                    Ok(_) => {}
                    Err(fault) => return Err(fault),
                }
                at = next;
            }
            LabelStep::End => return Ok(()),
            LabelStep::Bad => unreachable!(),
        }
    }
}

/// Adds the names of the labels of an item that `next_item` gave on this line. `TooMany` comes exactly where the names and these
/// are more than `MAX_LABELS`, and then it isn't said which of them were added.
pub fn add_item_names(line: &[u8], item: &Item, names: &mut Names) -> Result<(), NamesFault>
    requires { StandsOn item.now line.now }
    ensures ok { OnOk result (names.new ≡ list_set (names.old ++ item_names line.now item.now)) }
    ensures many { IsErrOf result NamesFault.TooMany → MAX_LABELS < length (list_set (names.old ++ item_names line.now item.now)) }
{
    let word = &line[item.from..item.to];
    names_into(labels_text(base_text(word)), names)
}
