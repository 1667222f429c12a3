//! What the lines of witnesses are put together from.
ghost use Rattle.re_why.specs.WitnessTexts.{are_named, choice_text, config_text_of, label_text_of, row_text_of, set_text_of, sets_named, sets_text};
ghost use Rattle.std.specs.Fmt.{decimal};
ghost use Rattle.std.specs.Prelude.{◌≡◌, ◌≤◌, ◌+◌, ◌++◌, IfOk, OnOk, length, string_bytes};

use re_cert::set_fits;
use re_frame::push_words;
use re_labels::{Config, LabelSet, Names, NoMemory, Row};
use re_problem::push_label;
use re_texts::{push_config, push_row, push_set};
use std::alloc::{AllocError, Global};

fn digits(alloc: Global, number: u128) -> Result<String, AllocError>
    ensures { IfOk result (λ text. string_bytes text ≡ decimal number) }
{
    format!(in alloc; "{number}")
}

/// Appends a number.
pub(crate) fn push_number(text: &mut Vec<u8>, number: u128) -> Result<(), NoMemory>
    ensures { OnOk result (text.new.items ≡ text.old.items ++ decimal number) }
{
    let alloc = *text.allocator();
    let digits = digits(alloc, number)?;
    push_words(text, digits.as_str())
}

/// Appends words, and a number.
pub(crate) fn push_count(text: &mut Vec<u8>, words: &str, number: usize) -> Result<(), NoMemory>
    ensures { OnOk result (text.new.items ≡ text.old.items ++ words.now ++ decimal number) }
{
    push_words(text, words)?;
    push_number(text, number as u128)
}

/// Appends words, and a place, which is counted from 1.
pub(crate) fn push_place(text: &mut Vec<u8>, words: &str, place: usize) -> Result<(), NoMemory>
    ensures { OnOk result (text.new.items ≡ text.old.items ++ words.now ++ decimal (place + 1)) }
{
    push_words(text, words)?;
    push_number(text, place as u128 + 1)
}

// Whether the labels have names.
fn are_named(names: &Names, labels: &[u8]) -> bool
    ensures { result ≡ are_named names.now labels.now }
{
    let count = names.len();
    labels.iter().all(|label| (*label as usize) < count)
}

// Whether the labels of the sets have names.
fn sets_named(names: &Names, sets: &[LabelSet]) -> bool
    ensures { result ≡ sets_named names.now sets.now }
{
    let count = names.len();
    sets.iter().all(|set| set_fits(*set, count))
}

// Whether the labels of the set have names.
fn set_named(names: &Names, set: LabelSet) -> bool
    ensures { result ≡ are_named names.now set }
{
    set_fits(set, names.len())
}

/// Appends a label that has a name.
pub(crate) fn push_label_of(text: &mut Vec<u8>, names: &Names, label: u8) -> Result<(), NoMemory>
    ensures { OnOk result (text.new.items ≡ text.old.items ++ label_text_of names.now label) }
{
    if (label as usize) < names.len() {
        push_label(text, names.name(label))
    } else {
        Ok(())
    }
}

/// Appends a configuration whose labels have names.
pub(crate) fn push_config_of(
    text: &mut Vec<u8>,
    names: &Names,
    config: &Config,
) -> Result<(), NoMemory>
    ensures { OnOk result (text.new.items ≡ text.old.items ++ config_text_of names.now config.now) }
{
    if are_named(names, config.labels()) {
        push_config(text, names, config)
    } else {
        Ok(())
    }
}

/// Appends labels that have names as a configuration.
pub(crate) fn push_choice(text: &mut Vec<u8>, names: &Names, labels: &[u8]) -> Result<(), NoMemory>
    requires two { 2 ≤ length labels.now }
    requires six { length labels.now ≤ 6 }
    ensures { OnOk result (text.new.items ≡ text.old.items ++ choice_text names.now labels.now) }
{
    let _count = names.len();
    if are_named(names, labels) {
        push_config_of(text, names, &Config::from_labels(labels))
    } else {
        Ok(())
    }
}

/// Appends a set whose labels have names.
pub(crate) fn push_set_of(text: &mut Vec<u8>, names: &Names, set: LabelSet) -> Result<(), NoMemory>
    ensures { OnOk result (text.new.items ≡ text.old.items ++ set_text_of names.now set) }
{
    if set_named(names, set) {
        push_set(text, names, set)
    } else {
        Ok(())
    }
}

/// Appends a row whose labels have names.
pub(crate) fn push_row_of(text: &mut Vec<u8>, names: &Names, row: &Row) -> Result<(), NoMemory>
    ensures { OnOk result (text.new.items ≡ text.old.items ++ row_text_of names.now row.now) }
{
    if sets_named(names, row.sets()) {
        push_row(text, names, row)
    } else {
        Ok(())
    }
}

/// Appends sets as a row.
pub(crate) fn push_sets(
    text: &mut Vec<u8>,
    names: &Names,
    sets: &[LabelSet],
) -> Result<(), NoMemory>
    ensures { OnOk result (text.new.items ≡ text.old.items ++ sets_text names.now sets.now) }
{
    match Row::from_sets(sets) {
        Some(row) => push_row_of(text, names, &row),
        None => Ok(()),
    }
}
