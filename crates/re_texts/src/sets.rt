// Sets as groups.
ghost use Rattle.re_texts.specs.SetTexts.{named_text, set_text};
ghost use Rattle.re_labels.specs.Sets.{IsLabelSet};
ghost use Rattle.std.specs.Io.{StartsWith};
ghost use Rattle.std.specs.List.{AllByRecursion};
ghost use Rattle.std.specs.Prelude.{◌≡◌, ◌<◌, ◌++◌, OnOk, flat_map, length};

use re_labels::{LabelSet, MAX_LABELS, Names, NoMemory};
use re_problem::push_label;

// Appends the label.
pub(crate) fn push_named(text: &mut Vec<u8>, names: &Names, label: u8) -> Result<(), NoMemory>
    requires { label < length names.now }
    ensures text { OnOk result (text.new.items ≡ text.old.items ++ named_text names.now label) }
    ensures grown { StartsWith text.new.items text.old.items }
{
    push_label(text, names.name(label))
}

// Appends the labels of the set, in order.
fn push_labels(text: &mut Vec<u8>, names: &Names, set: LabelSet) -> Result<(), NoMemory>
    requires set { IsLabelSet MAX_LABELS set }
    requires named { AllByRecursion (λ label. label < length names.now) set }
    ensures text { OnOk result (text.new.items ≡ text.old.items ++ flat_map (named_text names.now) set) }
    ensures grown { StartsWith text.new.items text.old.items }
{
    let Some(label) = set.first() else {
        return Ok(());
    };
    push_named(text, names, label)?;
    push_labels(text, names, set.remove(label))
}

/// Appends a set of named labels as a group: its labels in order between brackets, without blanks. After an error the text may
/// have grown.
pub fn push_set(text: &mut Vec<u8>, names: &Names, set: LabelSet) -> Result<(), NoMemory>
    requires { AllByRecursion (λ label. label < length names.now) set }
    ensures text { OnOk result (text.new.items ≡ text.old.items ++ set_text names.now set) }
    ensures grown { StartsWith text.new.items text.old.items }
{
    let _number = set.number();
    text.push(b'[')?;
    push_labels(text, names, set)?;
    Ok(text.push(b']')?)
}
