// Diagrams, and the meanings of labels.
ghost use Rattle.re_texts.specs.SetTexts.{class_text, diagram_text, edge_text, least_at, meaning_text, meanings_text};
ghost use Rattle.re_labels.specs.Sets.{IsLabelSet};
ghost use Rattle.std.specs.List.{AllByRecursion};
ghost use Rattle.std.specs.Prelude.{◌≡◌, ◌<◌, ◌++◌, IfOk, OnOk, codes, flat_map, length};
ghost use Rattle.re_texts.specs.SetTexts.{named_text};

use crate::sets::{push_named, push_set};
use re_labels::{LabelSet, MAX_LABELS, Names, NoMemory};
use std::alloc::Global;

/// Writes the text behind what is there. Where memory ends, a part of it may stand there.
pub fn push_all(text: &mut Vec<u8>, more: &str) -> Result<(), NoMemory>
    ensures { OnOk result (text.new.items ≡ text.old.items ++ more.now) }
{
    Ok(text.extend_from_slice(more.as_bytes())?)
}

// Appends the labels, a space before each.
fn push_spaced(text: &mut Vec<u8>, names: &Names, class: LabelSet) -> Result<(), NoMemory>
    requires set { IsLabelSet MAX_LABELS class }
    requires named { AllByRecursion (λ label. label < length names.now) class }
    ensures { OnOk result (text.new.items ≡ text.old.items ++ flat_map (λ label. codes " " ++ named_text names.now label) class) }
{
    let Some(label) = class.first() else {
        return Ok(());
    };
    push_all(text, " ")?;
    push_named(text, names, label)?;
    push_spaced(text, names, class.remove(label))
}

fn push_class(text: &mut Vec<u8>, names: &Names, class: LabelSet) -> Result<(), NoMemory>
    requires { AllByRecursion (λ label. label < length names.now) class }
    ensures { OnOk result (text.new.items ≡ text.old.items ++ class_text names.now class) }
{
    let _number = class.number();
    push_all(text, "class")?;
    push_spaced(text, names, class)?;
    push_all(text, "\n")
}

// The least label of the class at a place.
fn least_at(classes: &[LabelSet], place: u8) -> u8
    requires { place < length classes.now }
    ensures { result ≡ least_at classes.now place }
{
    classes[place as usize].first().unwrap_or(0)
}

fn push_edge(
    text: &mut Vec<u8>,
    names: &Names,
    classes: &[LabelSet],
    edge: (u8, u8),
) -> Result<(), NoMemory>
    requires weak { edge.0 < length classes.now }
    requires strong { edge.1 < length classes.now }
    requires weak_named { least_at classes.now edge.0 < length names.now }
    requires strong_named { least_at classes.now edge.1 < length names.now }
    ensures { OnOk result (text.new.items ≡ text.old.items ++ edge_text names.now classes.now edge) }
{
    push_all(text, "edge ")?;
    push_named(text, names, least_at(classes, edge.0))?;
    push_all(text, " ")?;
    push_named(text, names, least_at(classes, edge.1))?;
    push_all(text, "\n")
}

fn push_classes(text: &mut Vec<u8>, names: &Names, classes: &[LabelSet]) -> Result<(), NoMemory>
    requires { AllByRecursion (AllByRecursion (λ label. label < length names.now)) classes.now }
    ensures { OnOk result (text.new.items ≡ text.old.items ++ flat_map (class_text names.now) classes.now) }
{
    for class in classes {
        push_class(text, names, *class)?;
    }
    Ok(())
}

fn push_edges(
    text: &mut Vec<u8>,
    names: &Names,
    classes: &[LabelSet],
    edges: &[(u8, u8)],
) -> Result<(), NoMemory>
    requires weak { AllByRecursion (λ edge. edge.0 < length classes.now) edges.now }
    requires strong { AllByRecursion (λ edge. edge.1 < length classes.now) edges.now }
    requires weak_named { AllByRecursion (λ edge. least_at classes.now edge.0 < length names.now) edges.now }
    requires strong_named { AllByRecursion (λ edge. least_at classes.now edge.1 < length names.now) edges.now }
    ensures { OnOk result (text.new.items ≡ text.old.items ++ flat_map (edge_text names.now classes.now) edges.now) }
{
    for edge in edges {
        push_edge(text, names, classes, *edge)?;
    }
    Ok(())
}

/// A diagram of classes of named labels: a line with the labels of each class, and a line for each edge with the least labels of
/// its classes, the weaker first.
pub fn print_diagram(
    alloc: Global,
    names: &Names,
    classes: &[LabelSet],
    edges: &[(u8, u8)],
) -> Result<Vec<u8>, NoMemory>
    requires named { AllByRecursion (AllByRecursion (λ label. label < length names.now)) classes.now }
    requires weak { AllByRecursion (λ edge. edge.0 < length classes.now) edges.now }
    requires strong { AllByRecursion (λ edge. edge.1 < length classes.now) edges.now }
    requires weak_named { AllByRecursion (λ edge. least_at classes.now edge.0 < length names.now) edges.now }
    requires strong_named { AllByRecursion (λ edge. least_at classes.now edge.1 < length names.now) edges.now }
    ensures { IfOk result (λ text. text.items ≡ diagram_text names.now classes.now edges.now) }
{
    let mut text = Vec::new(alloc);
    push_classes(&mut text, names, classes)?;
    push_edges(&mut text, names, classes, edges)?;
    Ok(text)
}

fn push_meaning(
    text: &mut Vec<u8>,
    names: &Names,
    names_before: &Names,
    sets: &[LabelSet],
    label: u8,
) -> Result<(), NoMemory>
    requires label { label < length names.now }
    requires set { label < length sets.now }
    requires named { AllByRecursion (AllByRecursion (λ label. label < length names_before.now)) sets.now }
    ensures { OnOk result (text.new.items ≡ text.old.items ++ meaning_text names.now names_before.now sets.now label) }
{
    push_named(text, names, label)?;
    push_all(text, " = ")?;
    push_set(text, names_before, sets[label as usize])?;
    push_all(text, "\n")
}

/// The labels of a problem and the sets that they stand for, of labels with other names: for each a line with the label, `=` and the
/// set as a group.
pub fn print_meanings(
    alloc: Global,
    names: &Names,
    names_before: &Names,
    sets: &[LabelSet],
) -> Result<Vec<u8>, NoMemory>
    requires labels { length sets.now ≡ length names.now }
    requires named { AllByRecursion (AllByRecursion (λ label. label < length names_before.now)) sets.now }
    ensures { IfOk result (λ text. text.items ≡ meanings_text names.now names_before.now sets.now) }
{
    let mut text = Vec::new(alloc);
    for label in 0..names.len() {
        push_meaning(&mut text, names, names_before, sets, label as u8)?;
    }
    Ok(text)
}
