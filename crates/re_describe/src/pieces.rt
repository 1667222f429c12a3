//! What reports are put together from. A label without a name is written as empty parentheses; in a certificate each has one.
ghost use Rattle.re_describe.specs.Pieces.{gap, group_text, image_text, index_of, item_text, listed, places_text, shown};
ghost use Rattle.re_labels.specs.Sets.{IsLabelSet};
ghost use Rattle.re_texts.specs.SetTexts.{named_text};
ghost use Rattle.std.specs.Fmt.{decimal};
ghost use Rattle.std.specs.Prelude.{◌≡◌, ◌++◌, IfOk, OnOk, flat_map};

use re_frame::{begun, push_number, push_words};
use re_labels::{LabelSet, MAX_LABELS, Names, NoMemory};
use re_problem::push_label;
use std::alloc::Global;

/// Appends words and a number.
pub(crate) fn push_count(text: &mut Vec<u8>, words: &str, number: usize) -> Result<(), NoMemory>
    ensures { OnOk result (text.new.items ≡ text.old.items ++ (words.now ++ decimal number)) }
{
    let alloc = *text.allocator();
    push_words(text, words)?;
    push_number(alloc, text, number)
}

/// Appends words, a number, and words.
pub(crate) fn push_between(
    text: &mut Vec<u8>,
    words: &str,
    number: usize,
    more: &str,
) -> Result<(), NoMemory>
    ensures { OnOk result (text.new.items ≡ text.old.items ++ (words.now ++ (decimal number ++ more.now))) }
{
    let alloc = *text.allocator();
    push_words(text, words)?;
    push_number(alloc, text, number)?;
    push_words(text, more)
}

/// What stands behind the labels of the problem of this number, where labels of several problems are spoken of.
pub(crate) fn index_of(alloc: Global, number: usize) -> Result<Vec<u8>, NoMemory>
    ensures { IfOk result (λ index. index.items ≡ index_of number) }
{
    let mut index = begun(alloc, "_")?;
    push_number(alloc, &mut index, number)?;
    Ok(index)
}

// Appends the name of a label, or empty parentheses where there is none.
fn push_name(text: &mut Vec<u8>, names: &Names, label: u8) -> Result<(), NoMemory>
    ensures { OnOk result (text.new.items ≡ text.old.items ++ named_text names.now label) }
{
    if (label as usize) < names.len() {
        push_label(text, names.name(label))
    } else {
        push_words(text, "()")
    }
}

/// Appends a label with what stands behind the labels of its problem.
pub(crate) fn push_shown(
    text: &mut Vec<u8>,
    names: &Names,
    index: &[u8],
    label: u8,
) -> Result<(), NoMemory>
    ensures { OnOk result (text.new.items ≡ text.old.items ++ shown names.now index.now label) }
{
    push_name(text, names, label)?;
    Ok(text.extend_from_slice(index)?)
}

// Appends words and a label.
fn push_next(
    text: &mut Vec<u8>,
    names: &Names,
    index: &[u8],
    between: &[u8],
    label: u8,
) -> Result<(), NoMemory>
    ensures { OnOk result (text.new.items ≡ text.old.items ++ (between.now ++ shown names.now index.now label)) }
{
    text.extend_from_slice(between)?;
    push_shown(text, names, index, label)
}

// Appends the labels of the set in order, each behind these words.
fn push_behind(
    text: &mut Vec<u8>,
    names: &Names,
    index: &[u8],
    between: &[u8],
    set: LabelSet,
) -> Result<(), NoMemory>
    requires { IsLabelSet MAX_LABELS set }
    ensures { OnOk result (text.new.items ≡ text.old.items ++ flat_map (λ label. between.now ++ shown names.now index.now label) set) }
{
    let Some(label) = set.first() else {
        return push_words(text, "");
    };
    push_next(text, names, index, between, label)?;
    push_behind(text, names, index, between, set.remove(label))
}

/// Appends the labels of a set in order, with these words between.
pub(crate) fn push_listed(
    text: &mut Vec<u8>,
    names: &Names,
    index: &[u8],
    between: &[u8],
    set: LabelSet,
) -> Result<(), NoMemory>
    ensures { OnOk result (text.new.items ≡ text.old.items ++ listed names.now index.now between.now set) }
{
    let _count = set.count();
    let Some(label) = set.first() else {
        return push_words(text, "");
    };
    push_shown(text, names, index, label)?;
    push_behind(text, names, index, between, set.remove(label))
}

// What stands between labels in brackets: a blank where each has something behind it.
fn gap(index: &[u8]) -> &'static [u8]
    ensures { result.now ≡ gap index.now }
{
    if index.is_empty() { b"" } else { b" " }
}

/// Appends the labels of a set in order, in brackets.
pub(crate) fn push_group(
    text: &mut Vec<u8>,
    names: &Names,
    index: &[u8],
    set: LabelSet,
) -> Result<(), NoMemory>
    ensures { OnOk result (text.new.items ≡ text.old.items ++ group_text names.now index.now set) }
{
    push_words(text, "[")?;
    push_listed(text, names, index, gap(index), set)?;
    push_words(text, "]")
}

/// Appends a set of a row: its label alone, or its labels in brackets.
pub(crate) fn push_item(
    text: &mut Vec<u8>,
    names: &Names,
    index: &[u8],
    set: LabelSet,
) -> Result<(), NoMemory>
    ensures { OnOk result (text.new.items ≡ text.old.items ++ item_text names.now index.now set) }
{
    if set.count() == 1 {
        push_listed(text, names, index, b"", set)
    } else {
        push_group(text, names, index, set)
    }
}

/// Appends the sets, each behind a blank.
pub(crate) fn push_places(
    text: &mut Vec<u8>,
    names: &Names,
    index: &[u8],
    sets: &[LabelSet],
) -> Result<(), NoMemory>
    ensures { OnOk result (text.new.items ≡ text.old.items ++ places_text names.now index.now sets.now) }
{
    for set in sets {
        push_words(text, " ")?;
        push_item(text, names, index, *set)?;
    }
    Ok(())
}

/// Appends the labels, each behind a blank.
pub(crate) fn push_image(
    text: &mut Vec<u8>,
    names: &Names,
    index: &[u8],
    labels: &[u8],
) -> Result<(), NoMemory>
    ensures { OnOk result (text.new.items ≡ text.old.items ++ image_text names.now index.now labels.now) }
{
    for label in labels {
        push_next(text, names, index, b" ", *label)?;
    }
    Ok(())
}
