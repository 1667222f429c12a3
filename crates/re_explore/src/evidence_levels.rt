//! The part of a problem's levels of labels.
ghost use Rattle.re_labels.specs.Sets.{IsLabelSet};
ghost use Rattle.re_explore.specs.EvidenceLevels.{levels_part, levels_text, set_text};
ghost use Rattle.std.specs.Prelude.{◌≡◌, ◌++◌, IfOk, OnOk};

use re_flexible::Flexibility;
use re_forest_words::{push_labels, push_name};
use re_frame::{push_number, push_words};
use re_labels::{LabelSet, MAX_LABELS, Names, NoMemory};
use re_problem::{Problem, print_problem};
use std::alloc::Global;

// Appends the names of the labels of the set, in order, with one blank between.
fn push_set(text: &mut Vec<u8>, names: &Names, set: LabelSet) -> Result<(), NoMemory>
    requires { IsLabelSet MAX_LABELS set }
    ensures { OnOk result (text.new.items ≡ text.old.items ++ set_text names.now set) }
{
    let Some(label) = set.first() else {
        return push_words(text, "");
    };
    push_name(text, names, label)?;
    push_labels(text, names, set.remove(label))
}

// Appends the lines of a flexible set.
fn push_flexible(text: &mut Vec<u8>, names: &Names, set: LabelSet) -> Result<(), NoMemory>
    ensures { OnOk result (text.new.items ≡ text.old.items ++ levels_text names.now (Flexibility.Flexible set)) }
{
    let _count = set.count();
    push_words(text, "== flexible\n")?;
    push_set(text, names, set)?;
    push_words(text, "\n")
}

// Appends the lines of so many levels.
fn push_length(text: &mut Vec<u8>, names: &Names, count: u8) -> Result<(), NoMemory>
    ensures { OnOk result (text.new.items ≡ text.old.items ++ levels_text names.now (Flexibility.Length count)) }
{
    let _names = names;
    let alloc = *text.allocator();
    push_words(text, "== length\n")?;
    push_number(alloc, text, count as usize)?;
    push_words(text, "\n")
}

// Appends the lines of what flexible sets or levels a problem with these names has.
fn push_levels(text: &mut Vec<u8>, names: &Names, levels: &Flexibility) -> Result<(), NoMemory>
    ensures { OnOk result (text.new.items ≡ text.old.items ++ levels_text names.now levels.now) }
{
    match levels {
        Flexibility::Flexible(set) => push_flexible(text, names, *set),
        Flexibility::Length(count) => push_length(text, names, *count),
        Flexibility::NoSolution => push_words(text, "== length\n0\n"),
    }
}

/// The part of a problem with these levels of labels: its text, and a flexible set, or how many levels there are.
pub(crate) fn levels_part(
    alloc: Global,
    problem: &Problem,
    levels: &Flexibility,
) -> Result<Vec<u8>, NoMemory>
    ensures { IfOk result (λ text. text.items ≡ levels_part problem.now levels.now) }
{
    let mut text = print_problem(alloc, problem)?;
    push_levels(&mut text, problem.names(), levels)?;
    Ok(text)
}
