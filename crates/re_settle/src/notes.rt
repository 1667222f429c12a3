//! The last line of an answer: which labels trimming takes away.
ghost use Rattle.re_forest_words.specs.Answers.{labels_text};
ghost use Rattle.re_labels.specs.Sets.{has};
ghost use Rattle.re_texts.specs.SetTexts.{named_text};
ghost use Rattle.re_settle.specs.Lines.{lost_from, note_line, note_of};
ghost use Rattle.std.specs.Prelude.{◌≡◌, ◌+◌, ◌++◌, ◌≤◌, ◌<◌, ◌==◌, ◌||◌, OnOk, codes, length, if◌then◌else◌};

use re_flexible::trimmed;
use re_forest_words::push_name;
use re_frame::push_words;
use re_labels::{LabelSet, Names, NoMemory};
use re_problem::Problem;

// Appends the name of the label behind a blank, where the set lacks it.
fn push_lacking(
    text: &mut Vec<u8>,
    names: &Names,
    kept: LabelSet,
    label: u8,
) -> Result<(), NoMemory>
    requires { label < 128 }
    ensures { OnOk result (text.new.items ≡ text.old.items ++ (if has kept label then codes "" else codes " " ++ named_text names.now label)) }
{
    if kept.has(label) {
        return push_words(text, "");
    }
    push_words(text, " ")?;
    push_name(text, names, label)
}

// Appends the names of those labels that the set lacks, of so many from this one on, each behind a blank.
fn push_lost(
    text: &mut Vec<u8>,
    names: &Names,
    kept: LabelSet,
    label: u8,
    more: u8,
) -> Result<(), NoMemory>
    requires { label + more ≤ 128 }
    ensures { OnOk result (text.new.items ≡ text.old.items ++ labels_text names.now (lost_from kept label more)) }
{
    if more == 0 {
        return push_words(text, "");
    }
    push_lacking(text, names, kept, label)?;
    push_lost(text, names, kept, label + 1, more - 1)
}

// Whether the set of labels that are left has none, or all.
fn is_plain(names: &Names, kept: LabelSet) -> bool
    ensures { result ≡ ((length kept == 0) || (length kept == length names.now)) }
{
    let count = kept.count();
    count == 0 || count as usize == names.len()
}

// Appends the line of the labels that the set lacks.
fn push_noted(text: &mut Vec<u8>, names: &Names, kept: LabelSet) -> Result<(), NoMemory>
    ensures { OnOk result (text.new.items ≡ text.old.items ++ (codes "note: labels that fit no tree:" ++ (labels_text names.now (lost_from kept 0 (length names.now)) ++ codes "\n"))) }
{
    push_words(text, "note: labels that fit no tree:")?;
    push_lost(text, names, kept, 0, names.len() as u8)?;
    push_words(text, "\n")
}

// Appends it, where that set has some label, and not all.
fn push_note_of(text: &mut Vec<u8>, names: &Names, kept: LabelSet) -> Result<(), NoMemory>
    ensures { OnOk result (text.new.items ≡ text.old.items ++ note_of names.now kept) }
{
    if is_plain(names, kept) {
        push_words(text, "")
    } else {
        push_noted(text, names, kept)
    }
}

/// Appends the line that names the labels of the problem that trimming takes away, where it takes some away and leaves some.
pub(crate) fn push_note(text: &mut Vec<u8>, problem: &Problem) -> Result<(), NoMemory>
    ensures { OnOk result (text.new.items ≡ text.old.items ++ note_line problem.now) }
{
    push_note_of(text, problem.names(), trimmed(problem))
}
