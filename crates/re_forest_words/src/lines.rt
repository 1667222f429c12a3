//! The lines of the answers of `flexible`.
ghost use Rattle.re_forest_words.specs.Answers.{flexibility_outcome, labels_text};
ghost use Rattle.re_frame.specs.Outcomes.{outcome_of};
ghost use Rattle.re_labels.specs.Sets.{IsLabelSet};
ghost use Rattle.re_labels.specs.declared.TheConstants.{MAX_LABELS};
ghost use Rattle.re_texts.specs.SetTexts.{named_text};
ghost use Rattle.std.specs.Prelude.{◌≡◌, ◌++◌, IfOk, OnOk, codes};

use re_flexible::Flexibility;
use re_frame::{Output, begun, done, push_number, push_words, refused};
use re_labels::{LabelSet, Names, NoMemory};
use re_problem::push_label;
use std::alloc::Global;

/// Appends the name of a label, or empty parentheses where there is none.
pub fn push_name(text: &mut Vec<u8>, names: &Names, label: u8) -> Result<(), NoMemory>
    ensures { OnOk result (text.new.items ≡ text.old.items ++ named_text names.now label) }
{
    if (label as usize) < names.len() {
        push_label(text, names.name(label))
    } else {
        push_words(text, "()")
    }
}

/// Appends the name of a label behind a blank.
pub(crate) fn push_behind(text: &mut Vec<u8>, names: &Names, label: u8) -> Result<(), NoMemory>
    ensures { OnOk result (text.new.items ≡ text.old.items ++ (codes " " ++ named_text names.now label)) }
{
    push_words(text, " ")?;
    push_name(text, names, label)
}

/// Appends the names of the labels of the set, in order, each behind a blank.
pub fn push_labels(text: &mut Vec<u8>, names: &Names, set: LabelSet) -> Result<(), NoMemory>
    requires { IsLabelSet MAX_LABELS set }
    ensures { OnOk result (text.new.items ≡ text.old.items ++ labels_text names.now set) }
{
    let Some(label) = set.first() else {
        return push_words(text, "");
    };
    push_behind(text, names, label)?;
    push_labels(text, names, set.remove(label))
}

// The output for a flexible set.
fn flexible_output(alloc: Global, names: &Names, set: LabelSet) -> Result<Output, NoMemory>
    ensures { IfOk result (λ output. outcome_of output ≡ flexibility_outcome names.now (Flexibility.Flexible set)) }
{
    let _count = set.count();
    let mut text = begun(alloc, "flexible:")?;
    push_labels(&mut text, names, set)?;
    push_words(&mut text, "\n")?;
    Ok(done(text))
}

// The output for so many levels.
fn length_output(alloc: Global, names: &Names, length: u8) -> Result<Output, NoMemory>
    ensures { IfOk result (λ output. outcome_of output ≡ flexibility_outcome names.now (Flexibility.Length length)) }
{
    let mut text = begun(alloc, "not flexible: length ")?;
    push_number(alloc, &mut text, length as usize)?;
    push_words(&mut text, "\n")?;
    Ok(refused(text))
}

/// The output for what flexible sets of labels, or levels, a problem with these names has.
pub(crate) fn flexibility_output(
    alloc: Global,
    names: &Names,
    flexibility: Flexibility,
) -> Result<Output, NoMemory>
    ensures { IfOk result (λ output. outcome_of output ≡ flexibility_outcome names.now flexibility) }
{
    match flexibility {
        Flexibility::Flexible(set) => flexible_output(alloc, names, set),
        Flexibility::Length(length) => length_output(alloc, names, length),
        Flexibility::NoSolution => Ok(refused(begun(alloc, "no solution\n")?)),
    }
}
