//! Sets, one behind the other.
ghost use Rattle.re_labels.specs.Sets.{IsLabelSet, number};
ghost use Rattle.re_texts.specs.SetTexts.{PushesSetRun, row_text};
ghost use Rattle.std.specs.List.{AllByRecursion};
ghost use Rattle.std.specs.Prelude.{◌≡◌, ◌≤◌, ◌<◌, ◌+◌, ◌++◌, IfOk, OnOk, length, map};

use re_labels::{LabelSet, Names, NoMemory};
use re_problem::push_power;
use re_texts::{push_set, run_length};
use std::alloc::Global;

// The numbers of the sets.
fn numbers_of(alloc: Global, sets: &[LabelSet]) -> Result<Vec<u128>, NoMemory>
    ensures { IfOk result (λ numbers. numbers.items ≡ map number sets.now) }
{
    let mut numbers = Vec::new(alloc);
    for set in sets {
        numbers.push(set.number())?;
    }
    Ok(numbers)
}

// The run of equal sets that begins at this place, and the place behind it.
fn push_run(
    text: &mut Vec<u8>,
    names: &Names,
    numbers: &[u128],
    sets: &[LabelSet],
    at: usize,
) -> Result<usize, NoMemory>
    requires numbers { numbers.now ≡ map number sets.now }
    requires at { at < length numbers.now }
    requires named { AllByRecursion (AllByRecursion (λ label. label < length names.now)) sets.now }
    ensures within { IfOk result (λ next. (at < next) × (next ≤ length numbers.now)) }
    ensures run { IfOk result (λ next. PushesSetRun names.now numbers.now at next text.old.items text.new.items) }
{
    let count = run_length(numbers, at);
    let set = sets[at];
    let _number = set.number();
    push_set(text, names, set)?;
    push_power(text, count)?;
    Ok(at + count)
}

/// Appends sets of named labels, in their order with one space between, runs of equal ones once with their power.
pub(crate) fn push_sets(
    alloc: Global,
    text: &mut Vec<u8>,
    names: &Names,
    sets: &[LabelSet],
) -> Result<(), NoMemory>
    requires { AllByRecursion (AllByRecursion (λ label. label < length names.now)) sets.now }
    ensures { OnOk result (text.new.items ≡ text.old.items ++ row_text names.now sets.now) }
{
    if sets.is_empty() {
        return Ok(());
    }
    let numbers = numbers_of(alloc, sets)?;
    let mut at = push_run(text, names, numbers.as_slice(), sets, 0)?;
    'runs: while at < sets.len() {
        text.push(b' ')?;
        at = push_run(text, names, numbers.as_slice(), sets, at)?;
    }
    Ok(())
}
