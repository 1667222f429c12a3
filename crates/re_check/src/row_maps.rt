//! The images of rows, and what the allowed multisets of their sets become by rows.
ghost use Rattle.re_labels.specs.Rows.{IsChoice};
ghost use Rattle.re_check.specs.LabelsOver.{labels_over};
ghost use Rattle.re_check.specs.RowEntries.{image_entries, row_entries};
ghost use Rattle.re_check.specs.StepClauses.{KeepsAllowedByRow, KeepsImages, OccursInRows};
ghost use Rattle.re_labels.specs.Lists.{count_from};
ghost use Rattle.re_labels.specs.Sets.{has, with_label};
ghost use Rattle.re_problem.specs.Steps.{SetEntry};
ghost use Rattle.re_labels.specs.Constraints.{Has};
ghost use Rattle.std.specs.List.{AllByRecursion, list_all};
ghost use Rattle.std.specs.Prelude.{◌≡◌, ◌<◌, ◌↔◌, ◌++◌, ℕ, List, Contains, IsTrue, if◌then◌else◌, length, map, nat_lt};

use crate::allowed_images::{has_all_choices, sets_at};
use re_cert::RowImage;
use re_labels::{Config, Constraint, LabelSet, MAX_LABELS, Row};

// Whether each label is one that configurations may have.
fn are_labels(labels: &[u8]) -> bool
    ensures { result ≡ list_all (λ label. nat_lt label MAX_LABELS) labels.now }
{
    labels.iter().all(|label| *label < MAX_LABELS)
}

// Whether the image is a configuration of the constraint.
fn is_image(image: &RowImage, to: &Constraint) -> bool
    ensures { IsTrue result ↔ Has to.now image.now }
{
    let _degree = to.degree();
    let labels = image.labels();
    if !are_labels(labels) {
        return false;
    }
    to.contains(&Config::from_labels(labels))
}

/// Whether each image is a configuration of the constraint. It takes no memory; with m configurations an image takes about log m
/// comparisons.
pub fn keeps_images(images: &[RowImage], to: &Constraint) -> bool
    ensures { IsTrue result ↔ KeepsImages images.now to.now }
{
    for image in images {
        if !is_image(image, to) {
            return false;
        }
    }
    true
}

// The labels with one more, where the set holds the label below.
fn with_image(over: LabelSet, set: LabelSet, label: u8, image: u8) -> LabelSet
    requires label { label < MAX_LABELS }
    requires image { image < MAX_LABELS }
    ensures { result ≡ (if has set label then with_label over image else over) }
{
    if set.has(label) {
        over.insert(image)
    } else {
        over
    }
}

// The labels with those at the places of the sets that hold the label.
fn over_row(over: LabelSet, sets: &[LabelSet], image: &[u8], label: u8) -> LabelSet
    requires label { label < MAX_LABELS }
    requires image { AllByRecursion (λ x. x < MAX_LABELS) image.now }
    ensures { (done : List SetEntry) → over ≡ labels_over done label → result ≡ labels_over (done ++ row_entries sets.now image.now) label }
{
    let [set, other_sets @ ..] = sets else {
        return over;
    };
    let [first, other_labels @ ..] = image else {
        return over;
    };
    let more = with_image(over, *set, label, *first);
    over_row(more, other_sets, other_labels, label)
}

// The labels with those in the images of the rows at the places of the sets that hold the label.
fn over_rows(over: LabelSet, rows: &[Row], images: &[RowImage], label: u8) -> LabelSet
    requires label { label < MAX_LABELS }
    requires images { AllByRecursion (AllByRecursion (λ x. x < MAX_LABELS)) images.now }
    ensures { (done : List SetEntry) → over ≡ labels_over done label → result ≡ labels_over (done ++ image_entries rows.now images.now) label }
{
    let [row, other_rows @ ..] = rows else {
        return over;
    };
    let [image, other_images @ ..] = images else {
        return over;
    };
    let more = over_row(over, row.sets(), image.labels(), label);
    over_rows(more, other_rows, other_images, label)
}

// The labels that stand in the images at the places of sets that hold the label.
fn labels_over(rows: &[Row], images: &[RowImage], label: u8) -> LabelSet
    requires label { label < MAX_LABELS }
    requires images { AllByRecursion (AllByRecursion (λ x. x < MAX_LABELS)) images.now }
    ensures { result ≡ labels_over (image_entries rows.now images.now) label }
{
    over_rows(LabelSet::empty(), rows, images, label)
}

/// The labels over each label: those that stand in the images at the places of sets that hold it.
pub fn all_labels_over(rows: &[Row], images: &[RowImage]) -> [LabelSet; MAX_LABELS as usize]
    requires { AllByRecursion (AllByRecursion (λ x. x < MAX_LABELS)) images.now }
    ensures { result ≡ map (labels_over (image_entries rows.now images.now)) (count_from 0 MAX_LABELS) }
{
    let mut over = [LabelSet::empty(); MAX_LABELS as usize];
    for label in 0..MAX_LABELS {
        over[label as usize] = labels_over(rows, images, label);
    }
    over
}

// Whether for each configuration each choice from the labels over its labels is one of `to`.
fn takes_all_choices(rows: &[Row], images: &[RowImage], from: &Constraint, to: &Constraint) -> bool
    requires degree { to.now.degree ≡ from.now.degree }
    requires images { AllByRecursion (AllByRecursion (λ x. x < MAX_LABELS)) images.now }
    ensures { IsTrue result
        ↔ ((config : List ℕ) → Contains from.now.configs config → (labels : List ℕ) → IsChoice labels (map (labels_over (image_entries rows.now images.now)) config) → Has to.now labels) }
{
    let over = all_labels_over(rows, images);
    for place in 0..from.len() {
        let Some(config) = from.get(place) else {
            unreachable!();
        };
        let sets = sets_at(config, &over);
        if !has_all_choices(to, sets.as_slice()) {
            return false;
        }
    }
    true
}

/// Whether, for each allowed multiset of the sets of the rows, each choice of a label that each of its sets becomes by rows is a
/// configuration of `to`, where a multiset of as many sets as the degree of `from` is allowed if some choice of one label of each is a
/// configuration of `from`.
///
/// It takes no memory, and walks neither the multisets nor the choices: for each label it collects the labels that the sets which
/// hold it become, in one walk over the rows and images, and then costs what `keeps_allowed` costs.
pub fn keeps_allowed_by_row(
    rows: &[Row],
    images: &[RowImage],
    from: &Constraint,
    to: &Constraint,
) -> bool
    requires degree { to.now.degree ≡ from.now.degree }
    requires images { AllByRecursion (AllByRecursion (λ x. x < MAX_LABELS)) images.now }
    ensures { (sets : List (List ℕ)) → ((set : List ℕ) → OccursInRows rows.now set → Contains sets set)
        → IsTrue result ↔ KeepsAllowedByRow sets rows.now images.now from.now to.now }
{
    let _degree = from.degree();
    takes_all_choices(rows, images, from, to)
}
