//! The steps of a certificate: what the labels of each next problem stand for.
ghost use Rattle.re_boxes.specs.Boxes.{IsUp};
ghost use Rattle.re_boxes.specs.HeldStrength.{ups_in};
ghost use Rattle.re_cert.specs.Bounds.{map_of};
ghost use Rattle.re_describe.specs.Meanings.{Means};
ghost use Rattle.re_describe.specs.Steps.{AreMeant, SaysMap, SaysSets, SaysStep, between, by_rows_text, by_sets_text, entry_line, images_text, label_line, meaning_text, meanings_text, merged_text, upper_text, upper_title};
ghost use Rattle.re_labels.specs.Lists.{count_from};
ghost use Rattle.re_labels.specs.Sets.{IsIn, IsLabelSet};
ghost use Rattle.std.specs.Fmt.{decimal};
ghost use Rattle.std.specs.Prelude.{◌≡◌, ◌==◌, codes, ◌<◌, ◌+◌, ◌^◌, ◌++◌, ℕ, true, IfOk, OnOk, count_by, flat_map, length};

use crate::meanings::{Meaning, meaning_of};
use crate::pieces::{
    index_of, push_between, push_count, push_group, push_image, push_listed, push_places,
    push_shown,
};
use re_boxes::Strength;
use re_cert::{LowerMap, RowImage, SetEntry, Step, StepParts, set_fits};
use re_frame::push_words;
use re_labels::{Constraint, LabelSet, Names, NoMemory, Row};
use re_problem::Problem;
use std::alloc::Global;

/// A label, and what a set that becomes it means.
#[derive(Clone, Copy, Debug)]
pub struct Meant {
    pub label: u8,
    pub meaning: Meaning,
}

// What the set means, where its labels are labels of the problem before.
fn meaning_within(strength: &Strength, set: LabelSet) -> Meaning
    requires holds { (x : ℕ) → IsIn x (ups_in strength.now.ups.items x) }
    requires goes_on { (x : ℕ) → IsUp (ups_in strength.now.ups.items) (ups_in strength.now.ups.items x) }
    ensures { IsLabelSet strength.now.labels set → Means (ups_in strength.now.ups.items) set result }
{
    let _count = set.count();
    if !set_fits(set, strength.labels as usize) {
        return Meaning::Alone(set);
    }
    meaning_of(strength, set)
}

// The label of the entry, and what its set means.
fn meant_of(strength: &Strength, entry: &SetEntry) -> Meant
    requires holds { (x : ℕ) → IsIn x (ups_in strength.now.ups.items x) }
    requires goes_on { (x : ℕ) → IsUp (ups_in strength.now.ups.items) (ups_in strength.now.ups.items x) }
    ensures label { result.label ≡ entry.now.label }
    ensures means { IsLabelSet strength.now.labels entry.now.set → Means (ups_in strength.now.ups.items) entry.now.set result.meaning }
{
    Meant {
        label: entry.label,
        meaning: meaning_within(strength, entry.set),
    }
}

// The meanings of the entries.
fn meanings_of(
    alloc: Global,
    strength: &Strength,
    entries: &[SetEntry],
) -> Result<Vec<Meant>, NoMemory>
    requires holds { (x : ℕ) → IsIn x (ups_in strength.now.ups.items x) }
    requires goes_on { (x : ℕ) → IsUp (ups_in strength.now.ups.items) (ups_in strength.now.ups.items x) }
    ensures { IfOk result (λ meant. AreMeant (ups_in strength.now.ups.items) strength.now.labels entries.now meant.items) }
{
    let mut meant = Vec::new(alloc);
    for entry in entries {
        let one = meant_of(strength, entry);
        let meaning = one.meaning;
        meant.push(Meant {
            label: one.label,
            meaning,
        })?;
    }
    Ok(meant)
}

// Appends a meaning.
fn push_meaning(
    text: &mut Vec<u8>,
    names: &Names,
    index: &[u8],
    meaning: &Meaning,
) -> Result<(), NoMemory>
    ensures { OnOk result (text.new.items ≡ text.old.items ++ meaning_text names.now index.now meaning.now) }
{
    match meaning {
        Meaning::Upwards(weakest) => {
            push_words(text, "<")?;
            push_listed(text, names, index, b",", *weakest)?;
            push_words(text, ">")
        }
        Meaning::Alone(labels) => push_group(text, names, index, *labels),
    }
}

// What stands between meanings: nothing in front of the first one.
fn between(first: bool) -> &'static str
    ensures { result.now ≡ between first }
{
    if first { "" } else { " or " }
}

// Appends the meanings of the sets that become the label.
fn push_meanings(
    text: &mut Vec<u8>,
    names: &Names,
    index: &[u8],
    label: u8,
    meant: &[Meant],
) -> Result<(), NoMemory>
    ensures { OnOk result (text.new.items ≡ text.old.items ++ meanings_text names.now index.now label true meant.now) }
{
    let mut first = true;
    for one in meant {
        if one.label == label {
            push_words(text, between(first))?;
            push_meaning(text, names, index, &one.meaning)?;
            first = false;
        }
    }
    Ok(())
}

// How many of them are of the label.
fn count_of(meant: &[Meant], label: u8) -> usize
    ensures { result ≡ count_by (λ m. m.label == label) meant.now }
{
    meant.iter().filter(|one| one.label == label).count()
}

// Behind the meanings of a label: whether there is none, or more than one.
fn push_merged(text: &mut Vec<u8>, count: usize) -> Result<(), NoMemory>
    ensures { OnOk result (text.new.items ≡ text.old.items ++ merged_text count) }
{
    if count == 0 {
        push_words(text, "new: no set of the step becomes it")
    } else if count > 1 {
        push_words(text, ", merged")
    } else {
        push_words(text, "")
    }
}

// A label of the next problem, and what it stands for, as a line that stands as it is.
fn push_label(
    text: &mut Vec<u8>,
    names: &Names,
    index: &[u8],
    next: &Names,
    next_index: &[u8],
    meant: &[Meant],
    label: u8,
) -> Result<(), NoMemory>
    ensures { OnOk result (text.new.items ≡ text.old.items ++ label_line names.now index.now next.now next_index.now meant.now label) }
{
    push_words(text, "    ")?;
    push_shown(text, next, next_index, label)?;
    push_words(text, " = ")?;
    push_meanings(text, names, index, label, meant)?;
    push_merged(text, count_of(meant, label))?;
    push_words(text, "\n")
}

// Each label of the next problem.
fn push_labels(
    text: &mut Vec<u8>,
    names: &Names,
    index: &[u8],
    next: &Names,
    next_index: &[u8],
    meant: &[Meant],
) -> Result<(), NoMemory>
    ensures { OnOk result (text.new.items ≡ text.old.items
        ++ flat_map (label_line names.now index.now next.now next_index.now meant.now) (count_from 0 (length next.now))) }
{
    let labels = next.len() as u8;
    for label in 0..labels {
        push_label(text, names, index, next, next_index, meant, label)?;
    }
    Ok(())
}

// The title of a lower step by sets.
fn sets_title(alloc: Global, number: usize) -> Result<Vec<u8>, NoMemory>
    ensures { IfOk result (λ text. text.items ≡ codes "\nWhat each label of problem " ++ (decimal number ++ codes " stands for:\n\n")) }
{
    let mut text = Vec::new(alloc);
    push_between(
        &mut text,
        "\nWhat each label of problem ",
        number,
        " stands for:\n\n",
    )?;
    Ok(text)
}

// The text of these meanings.
fn meant_text(
    alloc: Global,
    names: &Names,
    next: &Names,
    number: usize,
    meant: &[Meant],
) -> Result<Vec<u8>, NoMemory>
    requires { number < 2 ^ 32 }
    ensures { IfOk result (λ text. text.items ≡ by_sets_text names.now next.now number meant.now) }
{
    let index = index_of(alloc, number)?;
    let next_index = index_of(alloc, number + 1)?;
    let mut text = sets_title(alloc, number + 1)?;
    push_labels(
        &mut text,
        names,
        index.as_slice(),
        next,
        next_index.as_slice(),
        meant,
    )?;
    Ok(text)
}

// The text of a lower step by sets.
fn by_sets(
    alloc: Global,
    passive: &Constraint,
    names: &Names,
    next: &Names,
    number: usize,
    entries: &[SetEntry],
) -> Result<Vec<u8>, NoMemory>
    requires { number < 2 ^ 32 }
    ensures { IfOk result (λ text. SaysSets passive.now names.now next.now number entries.now text.items) }
{
    let labels = names.len() as u8;
    let _degree = passive.degree();
    let strength = Strength::of(passive, labels);
    let meant = meanings_of(alloc, &strength, entries)?;
    let text = meant_text(alloc, names, next, number, meant.as_slice())?;
    Ok(text)
}

// Appends the rows with their images, one a line.
fn push_images(
    text: &mut Vec<u8>,
    names: &Names,
    index: &[u8],
    next: &Names,
    next_index: &[u8],
    rows: &[Row],
    images: &[RowImage],
) -> Result<(), NoMemory>
    ensures { OnOk result (text.new.items ≡ text.old.items ++ images_text names.now index.now next.now next_index.now rows.now images.now) }
{
    let [row, others @ ..] = rows else {
        return push_words(text, "");
    };
    let [image, more @ ..] = images else {
        return push_words(text, "");
    };
    push_words(text, "   ")?;
    push_places(text, names, index, row.sets())?;
    push_words(text, " becomes")?;
    push_image(text, next, next_index, image.labels())?;
    push_words(text, "\n")?;
    push_images(text, names, index, next, next_index, others, more)
}

// The title of a lower step by rows.
fn rows_title(alloc: Global, number: usize) -> Result<Vec<u8>, NoMemory>
    ensures { IfOk result (λ text. text.items
        ≡ codes "\nWhat each maximal row of the passive constraint of problem " ++ (decimal number ++ codes " becomes, place by place:\n\n")) }
{
    let mut text = Vec::new(alloc);
    push_between(
        &mut text,
        "\nWhat each maximal row of the passive constraint of problem ",
        number,
        " becomes, place by place:\n\n",
    )?;
    Ok(text)
}

// The text of a lower step by rows.
fn by_rows(
    alloc: Global,
    names: &Names,
    next: &Names,
    number: usize,
    rows: &[Row],
    images: &[RowImage],
) -> Result<Vec<u8>, NoMemory>
    requires { number < 2 ^ 32 }
    ensures { IfOk result (λ text. text.items ≡ by_rows_text names.now next.now number rows.now images.now) }
{
    let index = index_of(alloc, number)?;
    let next_index = index_of(alloc, number + 1)?;
    let mut text = rows_title(alloc, number)?;
    push_images(
        &mut text,
        names,
        index.as_slice(),
        next,
        next_index.as_slice(),
        rows,
        images,
    )?;
    Ok(text)
}

// Appends the label of an entry, and its set, as a line that stands as it is.
fn push_entry(
    text: &mut Vec<u8>,
    names: &Names,
    index: &[u8],
    next: &Names,
    next_index: &[u8],
    entry: &SetEntry,
) -> Result<(), NoMemory>
    ensures { OnOk result (text.new.items ≡ text.old.items ++ entry_line names.now index.now next.now next_index.now entry.now) }
{
    push_words(text, "    ")?;
    push_shown(text, next, next_index, entry.label)?;
    push_words(text, " = ")?;
    push_group(text, names, index, entry.set)?;
    push_words(text, "\n")
}

// Appends all entries, one a line.
fn push_entries(
    text: &mut Vec<u8>,
    names: &Names,
    index: &[u8],
    next: &Names,
    next_index: &[u8],
    entries: &[SetEntry],
) -> Result<(), NoMemory>
    ensures { OnOk result (text.new.items ≡ text.old.items ++ flat_map (entry_line names.now index.now next.now next_index.now) entries.now) }
{
    for entry in entries {
        push_entry(text, names, index, next, next_index, entry)?;
    }
    Ok(())
}

// The title of an upper step.
fn upper_title(alloc: Global, number: usize) -> Result<Vec<u8>, NoMemory>
    requires { number < 2 ^ 32 }
    ensures { IfOk result (λ text. text.items ≡ upper_title number) }
{
    let mut text = Vec::new(alloc);
    push_count(&mut text, "\nThe set of labels of problem ", number)?;
    push_between(
        &mut text,
        " that each label of problem ",
        number + 1,
        " has:\n\n",
    )?;
    Ok(text)
}

// The text of an upper step.
fn upper(
    alloc: Global,
    names: &Names,
    next: &Names,
    number: usize,
    entries: &[SetEntry],
) -> Result<Vec<u8>, NoMemory>
    requires { number < 2 ^ 32 }
    ensures { IfOk result (λ text. text.items ≡ upper_text names.now next.now number entries.now) }
{
    let index = index_of(alloc, number)?;
    let next_index = index_of(alloc, number + 1)?;
    let mut text = upper_title(alloc, number)?;
    push_entries(
        &mut text,
        names,
        index.as_slice(),
        next,
        next_index.as_slice(),
        entries,
    )?;
    Ok(text)
}

// The text of a lower step.
fn lower(
    alloc: Global,
    before: &Problem,
    next: &Problem,
    number: usize,
    rows: &[Row],
    map: &LowerMap,
) -> Result<Vec<u8>, NoMemory>
    requires { number < 2 ^ 32 }
    ensures { IfOk result (λ text. SaysMap before.now next.now number true rows.now (map_of map.now) text.items) }
{
    match map {
        LowerMap::BySet(entries) => by_sets(
            alloc,
            before.passive(),
            before.names(),
            next.names(),
            number,
            entries.as_slice(),
        ),
        LowerMap::ByRow(images) => by_rows(
            alloc,
            before.names(),
            next.names(),
            number,
            rows,
            images.as_slice(),
        ),
    }
}

// The text of an upper step between these problems.
fn upper_step(
    alloc: Global,
    before: &Problem,
    next: &Problem,
    number: usize,
    entries: &[SetEntry],
) -> Result<Vec<u8>, NoMemory>
    requires { number < 2 ^ 32 }
    ensures { IfOk result (λ text. text.items ≡ upper_text before.now.names next.now.names number entries.now) }
{
    upper(alloc, before.names(), next.names(), number, entries)
}

/// What the report says of the labels behind the step from the problem of this number.
pub(crate) fn labels_text(
    alloc: Global,
    before: &Problem,
    number: usize,
    step: &Step,
) -> Result<Vec<u8>, NoMemory>
    requires { number < 2 ^ 32 }
    ensures { IfOk result (λ text. SaysStep before.now number step.now text.items) }
{
    match &step.parts {
        StepParts::Lower { rows, map } => {
            lower(alloc, before, &step.next, number, rows.as_slice(), map)
        }
        StepParts::Upper { map } => {
            upper_step(alloc, before, &step.next, number, map.as_slice())
        }
    }
}
