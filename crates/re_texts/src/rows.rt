// Rows, one a line.
ghost use Rattle.re_labels.specs.Sets.{number};
ghost use Rattle.re_texts.specs.SetTexts.{PushesSetRun, row_text, rows_text, set_text};
ghost use Rattle.re_problem.specs.CanonicalTexts.{runs};
ghost use Rattle.std.specs.Io.{StartsWith};
ghost use Rattle.std.specs.List.{AllByRecursion};
ghost use Rattle.std.specs.Prelude.{◌≡◌, ◌≤◌, ◌<◌, ◌+◌, ◌++◌, ◌∷◌, IfOk, OnOk, drop, length, map, slice_index};

use crate::sets::push_set;
use arrayvec::ArrayVec;
use re_labels::{LabelSet, Names, NoMemory, Row};
use re_problem::push_power;
use std::alloc::Global;

// The numbers of the sets of a row.
fn numbers_of(sets: &[LabelSet]) -> ArrayVec<u128, 6>
    requires { length sets.now ≤ 6 }
    ensures { result.items ≡ map number sets.now }
{
    let mut numbers = ArrayVec::new();
    for set in sets {
        numbers.push(set.number());
    }
    numbers
}

/// How many numbers equal to the first one the list begins with from this place on.
pub fn run_length(numbers: &[u128], at: usize) -> usize
    requires { at < length numbers.now }
    ensures least { 1 ≤ result }
    ensures within { at + result ≤ length numbers.now }
    ensures runs { runs (drop at numbers.now)
        ≡ record { label = slice_index numbers.now at; count = result } ∷ runs (drop (at + result) numbers.now) }
{
    let mut end = at + 1;
    'run: while end < numbers.len() && numbers[end] == numbers[at] {
        end += 1;
    }
    end - at
}

// The run of equal sets that begins at this place, and the place behind it.
fn push_run(
    text: &mut Vec<u8>,
    names: &Names,
    numbers: &[u128],
    sets: &[LabelSet],
    at: usize,
) -> Result<usize, NoMemory>
    requires numbers { numbers.now ≡ map number sets.now }
    requires at { at < length numbers.now }
    requires named { AllByRecursion (AllByRecursion (λ label. label < length names.now)) sets.now }
    ensures within { IfOk result (λ next. (at < next) × (next ≤ length numbers.now)) }
    ensures run { IfOk result (λ next. PushesSetRun names.now numbers.now at next text.old.items text.new.items) }
    ensures grown { StartsWith text.new.items text.old.items }
{
    let count = run_length(numbers, at);
    let set = sets[at];
    let _number = set.number();
    push_set(text, names, set)?;
    push_power(text, count)?;
    Ok(at + count)
}

/// Appends a row of sets of named labels: its sets in order with one space between, runs of equal ones once with their power.
/// After an error the text may have grown.
pub fn push_row(text: &mut Vec<u8>, names: &Names, row: &Row) -> Result<(), NoMemory>
    requires { AllByRecursion (AllByRecursion (λ label. label < length names.now)) row.now }
    ensures text { OnOk result (text.new.items ≡ text.old.items ++ row_text names.now row.now) }
    ensures grown { StartsWith text.new.items text.old.items }
{
    let sets = row.sets();
    let numbers = numbers_of(sets);
    let mut at = push_run(text, names, numbers.as_slice(), sets, 0)?;
    'runs: while at < sets.len() {
        text.push(b' ')?;
        at = push_run(text, names, numbers.as_slice(), sets, at)?;
    }
    Ok(())
}

/// The rows in order, one a line, each line ended by a line feed.
pub fn print_rows(alloc: Global, names: &Names, rows: &[Row]) -> Result<Vec<u8>, NoMemory>
    requires { AllByRecursion (AllByRecursion (AllByRecursion (λ label. label < length names.now))) rows.now }
    ensures { IfOk result (λ text. text.items ≡ rows_text names.now rows.now) }
{
    let mut text = Vec::new(alloc);
    for row in rows {
        push_row(&mut text, names, row)?;
        text.push(b'\n')?;
    }
    Ok(text)
}
