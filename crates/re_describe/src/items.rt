//! Rows as lines: runs of equal sets once, with their power.
ghost use Rattle.re_describe.specs.Pieces.{items_text};
ghost use Rattle.re_describe.specs.SetRuns.{PushesRun};
ghost use Rattle.re_labels.specs.Sets.{number};
ghost use Rattle.std.specs.Prelude.{◌≡◌, ◌<◌, ◌≤◌, ◌++◌, IfOk, OnOk, length, map};

use crate::pieces::push_item;
use arrayvec::ArrayVec;
use re_frame::push_words;
use re_labels::{LabelSet, Names, NoMemory};
use re_problem::push_power;
use re_texts::run_length;

// The numbers of the sets.
fn numbers_of(sets: &[LabelSet]) -> ArrayVec<u128, 6>
    requires { length sets.now ≤ 6 }
    ensures { result.items ≡ map number sets.now }
{
    let mut numbers = ArrayVec::new();
    for set in sets {
        numbers.push(set.number());
    }
    numbers
}

// The run of equal sets that begins at this place, and the place behind it.
fn push_run(
    text: &mut Vec<u8>,
    names: &Names,
    numbers: &[u128],
    sets: &[LabelSet],
    at: usize,
) -> Result<usize, NoMemory>
    requires numbers { numbers.now ≡ map number sets.now }
    requires at { at < length numbers.now }
    ensures within { IfOk result (λ next. (at < next) × (next ≤ length numbers.now)) }
    ensures run { IfOk result (λ next. PushesRun names.now numbers.now at next text.old.items text.new.items) }
{
    let count = run_length(numbers, at);
    let set = sets[at];
    let _number = set.number();
    push_item(text, names, &[], set)?;
    push_power(text, count)?;
    Ok(at + count)
}

/// Appends the sets of a row with one space between, equal neighbours once with their power.
pub(crate) fn push_items(
    text: &mut Vec<u8>,
    names: &Names,
    sets: &[LabelSet],
) -> Result<(), NoMemory>
    requires { length sets.now ≤ 6 }
    ensures { OnOk result (text.new.items ≡ text.old.items ++ items_text names.now sets.now) }
{
    if sets.is_empty() {
        return push_words(text, "");
    }
    let numbers = numbers_of(sets);
    let mut at = push_run(text, names, numbers.as_slice(), sets, 0)?;
    'runs: while at < sets.len() {
        push_words(text, " ")?;
        at = push_run(text, names, numbers.as_slice(), sets, at)?;
    }
    Ok(())
}
