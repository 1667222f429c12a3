//! What shows that a map of a lower step fails a clause.
ghost use Rattle.re_labels.specs.Configs.{sorted};
ghost use Rattle.re_labels.specs.Rows.{set_at};
ghost use Rattle.re_cert.specs.Bounds.{map_of};
ghost use Rattle.re_check.specs.LabelsOver.{labels_over};
ghost use Rattle.re_check.specs.RowEntries.{image_entries, row_entries};
ghost use Rattle.re_check.specs.StepClauses.{HasRowSets};
ghost use Rattle.re_labels.specs.Lists.{IsRising, count_from, same_list};
ghost use Rattle.re_labels.specs.Sets.{IsLabelSet, number as number_of};
ghost use Rattle.re_problem.specs.Steps.LowerMap.{by_row, by_set};
ghost use Rattle.re_problem.specs.Steps.{SetEntry, entry_sets, label_of};
ghost use Rattle.re_why.specs.Finding.{AreBelow, becoming, by_set_witness, entry_becomes, first_from, first_some, first_unordered, foreign_set, has_set, image_witness, is_foreign, is_held, lost, lost_choice, lost_row, lost_witness, map_entries, ordered_witness, rows_becoming, set_becoming, set_or_none, set_witness, sets_ascend, sets_becoming};
ghost use Rattle.std.specs.List.{AllByRecursion};
ghost use Rattle.std.specs.Prelude.{◌≡◌, ◌≤◌, ◌<◌, ◌+◌, ◌^◌, ◌++◌, ℕ, List, Contains, None, Some, find, length, map as list_map, not, option_map};

use crate::bad_choice::first_bad_choice;
use crate::witness::{PortSets, Witness};
use arrayvec::ArrayVec;
use re_cert::{LowerMap, RowImage, SetEntry};
use re_check::{all_labels_over, all_labels_over_by_row, occurs, place_for, row_image, sets_at};
use re_labels::{Config, Constraint, LabelSet, MAX_LABELS, PortLabels, Row};

// ---- the sets

// Whether the set of the entry comes before that of the next one.
fn sets_ascend(entry: &SetEntry, next: &SetEntry) -> bool
    ensures { result ≡ sets_ascend entry.now next.now }
{
    entry.set < next.set
}

// The first entry whose set isn't before that of the one behind it.
fn unordered_set(entries: &[SetEntry]) -> Option<usize>
    ensures { result ≡ first_unordered sets_ascend 0 entries.now }
{
    for place in 1..entries.len() {
        let entry = &entries[place - 1];
        let next = &entries[place];
        if !sets_ascend(entry, next) {
            return Some(place - 1);
        }
    }
    None
}

// Whether some entry has the set.
fn has_set(entries: &[SetEntry], set: LabelSet) -> bool
    requires { IsRising (λ s t. number_of s < number_of t) (entry_sets entries.now) }
    ensures { result ≡ has_set entries.now set }
{
    match place_for(entries, set) {
        Some(_) => true,
        None => false,
    }
}

// The first of the sets that no entry has.
fn missing_of(entries: &[SetEntry], sets: &[LabelSet]) -> Option<LabelSet>
    requires { IsRising (λ s t. number_of s < number_of t) (entry_sets entries.now) }
    ensures { result ≡ find (λ set. not (has_set entries.now set)) sets.now }
{
    let [set, others @ ..] = sets else {
        return None;
    };
    if !has_set(entries, *set) {
        return Some(*set);
    }
    missing_of(entries, others)
}

// The first set of the rows that no entry has.
fn missing_set(entries: &[SetEntry], rows: &[Row]) -> Option<LabelSet>
    requires { IsRising (λ s t. number_of s < number_of t) (entry_sets entries.now) }
    ensures { result ≡ first_some (find (λ set. not (has_set entries.now set))) rows.now }
{
    let [row, others @ ..] = rows else {
        return None;
    };
    if let Some(set) = missing_of(entries, row.sets()) {
        return Some(set);
    }
    missing_set(entries, others)
}

// Whether the set of the entry is in no row.
fn is_foreign(rows: &[Row], entry: &SetEntry) -> bool
    ensures { result ≡ is_foreign rows.now entry.now }
{
    !occurs(rows, entry.set)
}

// The first entry whose set is in no row.
fn first_foreign(entries: &[SetEntry], rows: &[Row]) -> Option<SetEntry>
    ensures { result ≡ find (is_foreign rows.now) entries.now }
{
    entries
        .iter()
        .copied()
        .find(|entry| is_foreign(rows, entry))
}

// The first set of an entry that is in no row.
fn foreign_set(entries: &[SetEntry], rows: &[Row]) -> Option<LabelSet>
    ensures { result ≡ foreign_set rows.now entries.now }
{
    match first_foreign(entries, rows) {
        Some(entry) => Some(entry.set),
        None => None,
    }
}

// What shows first that entries whose sets ascend don't have exactly the sets of the rows.
fn ordered_witness(rows: &[Row], entries: &[SetEntry]) -> Option<Witness>
    requires { IsRising (λ s t. number_of s < number_of t) (entry_sets entries.now) }
    ensures { result ≡ ordered_witness rows.now entries.now }
{
    if let Some(set) = missing_set(entries, rows) {
        return Some(Witness::MissingSet(set));
    }
    match foreign_set(entries, rows) {
        Some(set) => Some(Witness::ForeignSet(set)),
        None => None,
    }
}

// What shows first that the entries don't have exactly the sets of the rows.
fn by_set_witness(rows: &[Row], entries: &[SetEntry]) -> Option<Witness>
    ensures { result ≡ by_set_witness rows.now entries.now }
{
    match unordered_set(entries) {
        Some(place) => Some(Witness::SetOrder(place)),
        None => ordered_witness(rows, entries),
    }
}

/// What shows first that the entries don't have exactly the sets of the rows, or that there are not as many images as rows.
pub(crate) fn set_witness(rows: &[Row], map: &LowerMap) -> Option<Witness>
    ensures { result ≡ set_witness rows.now (map_of map.now) }
{
    match map {
        LowerMap::BySet(entries) => by_set_witness(rows, entries.as_slice()),
        LowerMap::ByRow(_) => Some(Witness::ImageCount),
    }
}

// ---- the images of the rows

// Whether it is a configuration of the constraint.
fn is_held(constraint: &Constraint, config: &Config) -> bool
    ensures { result ≡ is_held constraint.now config.now }
{
    constraint.contains(config)
}

// The row with its image, unless that is a configuration.
fn lost(active: &Constraint, number: usize, image: Config) -> Option<Witness>
    ensures { result ≡ lost active.now number image }
{
    if is_held(active, &image) {
        return None;
    }
    Some(Witness::LostRow(number, image))
}

// The row with its image under the entries, unless that is a configuration.
fn lost_row(active: &Constraint, entries: &[SetEntry], row: &Row, number: usize) -> Option<Witness>
    requires ascends { IsRising (λ s t. number_of s < number_of t) (entry_sets entries.now) }
    requires held { AllByRecursion (Contains (entry_sets entries.now)) row.now }
    requires labels { AllByRecursion (λ entry. entry.label < MAX_LABELS) entries.now }
    ensures { result ≡ lost_row active.now entries.now number row.now }
{
    lost(active, number, row_image(entries, row))
}

// The first row, numbered from here on, whose image under the entries is no configuration.
fn lost_by_set(
    active: &Constraint,
    entries: &[SetEntry],
    rows: &[Row],
    number: usize,
) -> Option<Witness>
    requires ascends { IsRising (λ s t. number_of s < number_of t) (entry_sets entries.now) }
    requires held { AllByRecursion (AllByRecursion (Contains (entry_sets entries.now))) rows.now }
    requires labels { AllByRecursion (λ entry. entry.label < MAX_LABELS) entries.now }
    requires number { number + length rows.now < 2 ^ 64 }
    ensures { result ≡ first_from (lost_row active.now entries.now) number rows.now }
{
    let [row, others @ ..] = rows else {
        return None;
    };
    if let Some(witness) = lost_row(active, entries, row, number) {
        return Some(witness);
    }
    lost_by_set(active, entries, others, number + 1)
}

// The first image, numbered from here on, that is no configuration.
fn lost_by_row(active: &Constraint, images: &[RowImage], number: usize) -> Option<Witness>
    requires images { AllByRecursion (AllByRecursion (λ x. x < MAX_LABELS)) images.now }
    requires number { number + length images.now < 2 ^ 64 }
    ensures { result ≡ first_from (λ k image. lost active.now k (sorted image)) number images.now }
{
    let [image, others @ ..] = images else {
        return None;
    };
    if let Some(witness) = lost(active, number, Config::from_labels(image.labels())) {
        return Some(witness);
    }
    lost_by_row(active, others, number + 1)
}

/// The first row whose image is no active configuration.
pub(crate) fn image_witness(active: &Constraint, rows: &[Row], map: &LowerMap) -> Option<Witness>
    requires sets { (entries : List SetEntry) → map_of map.now ≡ by_set entries → HasRowSets rows.now entries }
    requires below { AreBelow (map_of map.now) }
    requires few { length rows.now < 2 ^ 64 }
    ensures { result ≡ image_witness active.now rows.now (map_of map.now) }
{
    match map {
        LowerMap::BySet(entries) => lost_by_set(active, entries.as_slice(), rows, 0),
        LowerMap::ByRow(images) => lost_by_row(active, images.as_slice(), 0),
    }
}

// ---- the images of what can be chosen

// The first of the sets that holds the label and becomes the image, or an empty set.
fn in_row(sets: &[LabelSet], images: &[u8], label: u8, image: u8) -> Option<LabelSet>
    requires label { label < MAX_LABELS }
    ensures { result ≡ set_becoming (row_entries sets.now images.now) label image }
{
    let [set, other_sets @ ..] = sets else {
        return None;
    };
    let [first, other_images @ ..] = images else {
        return None;
    };
    if set.has(label) && *first == image {
        return Some(*set);
    }
    in_row(other_sets, other_images, label, image)
}

// The same in all rows.
fn in_rows(rows: &[Row], images: &[RowImage], label: u8, image: u8) -> Option<LabelSet>
    requires label { label < MAX_LABELS }
    ensures { result ≡ rows_becoming rows.now images.now label image }
{
    let [row, other_rows @ ..] = rows else {
        return None;
    };
    let [first, other_images @ ..] = images else {
        return None;
    };
    if let Some(set) = in_row(row.sets(), first.labels(), label, image) {
        return Some(set);
    }
    in_rows(other_rows, other_images, label, image)
}

// Whether the set of the entry holds the label and becomes the image.
fn entry_becomes(entry: &SetEntry, label: u8, image: u8) -> bool
    requires label { label < MAX_LABELS }
    ensures { result ≡ entry_becomes label image entry.now }
{
    entry.set.has(label) && entry.label == image
}

// The first entry whose set holds the label and becomes the image.
fn first_becoming(entries: &[SetEntry], label: u8, image: u8) -> Option<SetEntry>
    requires label { label < MAX_LABELS }
    ensures { result ≡ find (entry_becomes label image) entries.now }
{
    entries
        .iter()
        .copied()
        .find(|entry| entry_becomes(entry, label, image))
}

// The same among the entries.
fn in_entries(entries: &[SetEntry], label: u8, image: u8) -> Option<LabelSet>
    requires label { label < MAX_LABELS }
    ensures { result ≡ set_becoming entries.now label image }
{
    match first_becoming(entries, label, image) {
        Some(entry) => Some(entry.set),
        None => None,
    }
}

// The first set that holds the label and becomes the image.
fn becoming(rows: &[Row], map: &LowerMap, label: u8, image: u8) -> LabelSet
    requires label { label < MAX_LABELS }
    ensures { result ≡ set_or_none (becoming rows.now (map_of map.now) label image) }
{
    let found = match map {
        LowerMap::BySet(entries) => in_entries(entries.as_slice(), label, image),
        LowerMap::ByRow(images) => in_rows(rows, images.as_slice(), label, image),
    };
    match found {
        Some(set) => set,
        None => LabelSet::empty(),
    }
}

// The sets that hold the labels and become the images.
fn all_becoming(rows: &[Row], map: &LowerMap, labels: &[u8], images: &[u8]) -> ArrayVec<LabelSet, 6>
    requires six { length labels.now ≤ 6 }
    requires below { AllByRecursion (λ label. label < MAX_LABELS) labels.now }
    ensures sets { result.items ≡ sets_becoming rows.now (map_of map.now) labels.now images.now }
    ensures few { length result.items ≤ length labels.now }
{
    let [label, other_labels @ ..] = labels else {
        return ArrayVec::new();
    };
    let [image, other_images @ ..] = images else {
        return ArrayVec::new();
    };
    let mut sets = all_becoming(rows, map, other_labels, other_images);
    sets.insert(0, becoming(rows, map, *label, *image));
    sets
}

// The labels over each label.
fn all_over(rows: &[Row], map: &LowerMap) -> [LabelSet; MAX_LABELS as usize]
    requires { AreBelow (map_of map.now) }
    ensures { result ≡ list_map (labels_over (map_entries rows.now (map_of map.now))) (count_from 0 MAX_LABELS) }
{
    match map {
        LowerMap::BySet(entries) => all_labels_over(entries.as_slice()),
        LowerMap::ByRow(images) => all_labels_over_by_row(rows, images.as_slice()),
    }
}

// The configuration with sets from which it can be chosen and labels that they become, where some labels over its labels are no
// configuration.
fn lost_choice(
    passive: &Constraint,
    rows: &[Row],
    map: &LowerMap,
    config: &Config,
    over: &[LabelSet],
) -> Option<Witness>
    requires degree { length over.now ≡ passive.now.degree }
    requires over { over.now ≡ list_map (labels_over (map_entries rows.now (map_of map.now))) config.now }
    ensures { result ≡ lost_choice rows.now (map_of map.now) passive.now config.now }
{
    match first_bad_choice(passive, over) {
        Some(labels) => {
            let from = all_becoming(rows, map, config.labels(), labels.labels());
            let sets = PortSets::new(from.as_slice());
            Some(Witness::LostChoice(config.copy(), sets, labels))
        }
        None => None,
    }
}

/// The first active configuration that can be chosen from sets of which some become labels that are no passive configuration.
pub(crate) fn lost_witness(
    before: &Constraint,
    passive: &Constraint,
    rows: &[Row],
    map: &LowerMap,
) -> Option<Witness>
    requires degree { passive.now.degree ≡ before.now.degree }
    requires below { AreBelow (map_of map.now) }
    ensures { result ≡ lost_witness before.now passive.now rows.now (map_of map.now) }
{
    let over = all_over(rows, map);
    for place in 0..before.len() {
        let Some(config) = before.get(place) else {
            unreachable!();
        };
        let sets = sets_at(config, &over);
        let found = lost_choice(passive, rows, map, config, sets.as_slice());
        if found.is_some() {
            return found;
        }
    }
    None
}
