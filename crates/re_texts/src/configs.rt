// Configurations.
ghost use Rattle.re_texts.specs.SetTexts.{named_text};
ghost use Rattle.re_problem.specs.CanonicalTexts.{config_text, runs};
ghost use Rattle.re_problem.specs.Printed.{PushesRun};
ghost use Rattle.std.specs.Io.{StartsWith};
ghost use Rattle.std.specs.List.{AllByRecursion};
ghost use Rattle.std.specs.Prelude.{◌≡◌, ◌≤◌, ◌<◌, ◌+◌, ◌++◌, ◌∷◌, IfOk, OnOk, drop, length, map, slice_index};

use crate::rows::run_length;
use crate::sets::push_named;
use arrayvec::ArrayVec;
use re_labels::{Config, Names, NoMemory};
use re_problem::push_power;

// The labels as wide numbers.
fn widened(labels: &[u8]) -> ArrayVec<u128, 6>
    requires { length labels.now ≤ 6 }
    ensures { result.items ≡ labels.now }
{
    let mut numbers = ArrayVec::new();
    for label in labels {
        numbers.push(u128::from(*label));
    }
    numbers
}

// The run of equal labels that begins at this place, and the place behind it.
fn push_label_run(
    text: &mut Vec<u8>,
    names: &Names,
    numbers: &[u128],
    labels: &[u8],
    at: usize,
) -> Result<usize, NoMemory>
    requires numbers { numbers.now ≡ labels.now }
    requires at { at < length numbers.now }
    requires named { AllByRecursion (λ label. label < length names.now) labels.now }
    ensures within { IfOk result (λ next. (at < next) × (next ≤ length numbers.now)) }
    ensures run { IfOk result (λ next. PushesRun names.now numbers.now at next text.old.items text.new.items) }
    ensures grown { StartsWith text.new.items text.old.items }
{
    let count = run_length(numbers, at);
    push_named(text, names, labels[at])?;
    push_power(text, count)?;
    Ok(at + count)
}

/// Appends a configuration of named labels as in the canonical text of a problem: its labels in order with one space between, runs of
/// equal ones once with their power. After an error the text may have grown.
pub fn push_config(text: &mut Vec<u8>, names: &Names, config: &Config) -> Result<(), NoMemory>
    requires { AllByRecursion (λ label. label < length names.now) config.now }
    ensures text { OnOk result (text.new.items ≡ text.old.items ++ config_text names.now config.now) }
    ensures grown { StartsWith text.new.items text.old.items }
{
    let labels = config.labels();
    let numbers = widened(labels);
    let mut at = push_label_run(text, names, numbers.as_slice(), labels, 0)?;
    'runs: while at < labels.len() {
        text.push(b' ')?;
        at = push_label_run(text, names, numbers.as_slice(), labels, at)?;
    }
    Ok(())
}
