//! What shows that rows aren't the maximal rows.
ghost use Rattle.re_labels.specs.Sets.{IsLabelSet};
ghost use Rattle.re_problem.specs.Verdicts.{first_label};
ghost use Rattle.re_boxes.specs.Ordering.{is_row_before};
ghost use Rattle.re_labels.specs.Constraints.{IsConstraint};
ghost use Rattle.re_labels.specs.GoodRows.{max_rows};
ghost use Rattle.re_why.specs.Finding.{bad_row, can_add, extended, extended_at, first_from, first_unordered, is_listed, missing_row, row_witness};
ghost use Rattle.std.specs.List.{AllByRecursion};
ghost use Rattle.std.specs.Prelude.{◌≡◌, ◌≤◌, ◌<◌, ◌+◌, ◌^◌, IfOk, find, length, not};

use crate::bad_choice::first_bad_choice;
use crate::witness::Witness;
use re_boxes::{row_order, with_set};
use re_check::is_good;
use re_labels::{Constraint, LabelSet, MAX_LABELS, NoMemory, Row};
use re_step::{RowsFault, maximal_rows};
use std::alloc::Global;
use std::cmp::Ordering;

// The first row, numbered from here on, of which some choice is no configuration.
fn bad_row(passive: &Constraint, rows: &[Row], number: usize) -> Option<Witness>
    requires degrees { AllByRecursion (λ row. length row ≡ passive.now.degree) rows.now }
    requires number { number + length rows.now < 2 ^ 64 }
    ensures { result ≡ first_from (bad_row passive.now) number rows.now }
{
    let [row, others @ ..] = rows else {
        return None;
    };
    if let Some(labels) = first_bad_choice(passive, row.sets()) {
        return Some(Witness::BadRow(number, labels));
    }
    bad_row(passive, others, number + 1)
}

// Whether the label isn't in the set at the place, and the row is good with it there.
fn can_add(passive: &Constraint, sets: &[LabelSet], place: usize, label: u8) -> bool
    requires degree { length sets.now ≡ passive.now.degree }
    requires place { place < length sets.now }
    requires label { label < MAX_LABELS }
    requires sets { AllByRecursion (λ set. IsLabelSet MAX_LABELS set × (0 < length set)) sets.now }
    ensures { result ≡ can_add passive.now sets.now place label }
{
    let _degree = passive.degree();
    let set = sets[place];
    if set.has(label) {
        return false;
    }
    let more = with_set(sets, place, set.insert(label));
    match Row::from_sets(more.as_slice()) {
        Some(row) => is_good(passive, &row),
        None => unreachable!(),
    }
}

// The least label below the number that can be added to the set at the place.
fn added_label(passive: &Constraint, labels: u8, sets: &[LabelSet], place: usize) -> Option<u8>
    requires degree { length sets.now ≡ passive.now.degree }
    requires place { place < length sets.now }
    requires labels { labels ≤ MAX_LABELS }
    requires sets { AllByRecursion (λ set. IsLabelSet MAX_LABELS set × (0 < length set)) sets.now }
    ensures { result ≡ first_label (can_add passive.now sets.now place) labels }
{
    for label in 0..labels {
        if can_add(passive, sets, place, label) {
            return Some(label);
        }
    }
    None
}

// The first set from this place on to which a label can be added, where the others are the sets from there on.
fn extended_set(
    passive: &Constraint,
    labels: u8,
    number: usize,
    sets: &[LabelSet],
    others: &[LabelSet],
    place: usize,
) -> Option<Witness>
    requires degree { length sets.now ≡ passive.now.degree }
    requires place { place + length others.now ≡ length sets.now }
    requires labels { labels ≤ MAX_LABELS }
    requires sets { AllByRecursion (λ set. IsLabelSet MAX_LABELS set × (0 < length set)) sets.now }
    ensures { result ≡ first_from (extended_at passive.now labels number sets.now) place others.now }
{
    let _degree = passive.degree();
    let [_, more @ ..] = others else {
        return None;
    };
    if let Some(label) = added_label(passive, labels, sets, place) {
        return Some(Witness::Extends(number, place, label));
    }
    extended_set(passive, labels, number, sets, more, place + 1)
}

// The first row, numbered from here on, to which a label can be added.
fn extended_row(passive: &Constraint, labels: u8, rows: &[Row], number: usize) -> Option<Witness>
    requires degrees { AllByRecursion (λ row. length row ≡ passive.now.degree) rows.now }
    requires labels { labels ≤ MAX_LABELS }
    requires number { number + length rows.now < 2 ^ 64 }
    ensures { result ≡ first_from (extended passive.now labels) number rows.now }
{
    let [row, others @ ..] = rows else {
        return None;
    };
    let sets = row.sets();
    if let Some(witness) = extended_set(passive, labels, number, sets, sets, 0) {
        return Some(witness);
    }
    extended_row(passive, labels, others, number + 1)
}

// Whether the row comes before the other one.
fn is_before(row: &Row, other: &Row) -> bool
    ensures { result ≡ is_row_before row.now other.now }
{
    row_order(row, other) == Ordering::Less
}

// The first row, numbered from here on, that isn't before the one behind it.
fn unordered_row(rows: &[Row], number: usize) -> Option<usize>
    requires { number + length rows.now < 2 ^ 64 }
    ensures { result ≡ first_unordered is_row_before number rows.now }
{
    let [row, others @ ..] = rows else {
        return None;
    };
    let [next, ..] = others else {
        return None;
    };
    if !is_before(row, next) {
        return Some(number);
    }
    unordered_row(others, number + 1)
}

// Whether the row is one of the list.
fn is_listed(rows: &[Row], row: &Row) -> bool
    ensures { result ≡ is_listed rows.now row.now }
{
    rows.iter()
        .any(|other| row_order(row, other) == Ordering::Equal)
}

// The first of all rows that isn't one of the list.
fn unlisted(all: &[Row], rows: &[Row]) -> Option<Row>
    ensures { result ≡ find (λ row. not (is_listed rows.now row)) all.now }
{
    let [row, others @ ..] = all else {
        return None;
    };
    if !is_listed(rows, row) {
        return Some(row.copy());
    }
    unlisted(others, rows)
}

// The first maximal row that isn't one of the list, or that there are too many.
fn missing_row(
    alloc: Global,
    passive: &Constraint,
    labels: u8,
    rows: &[Row],
) -> Result<Option<Witness>, NoMemory>
    requires labels { labels ≤ MAX_LABELS }
    requires below { AllByRecursion (AllByRecursion (λ label. label < labels)) passive.now.configs }
    ensures { IfOk result (λ witness. witness ≡ missing_row passive.now labels rows.now) }
{
    match maximal_rows(alloc, passive, labels) {
        Ok(all) => match unlisted(all.as_slice(), rows) {
            Some(row) => Ok(Some(Witness::MissingRow(row))),
            None => Ok(None),
        },
        Err(RowsFault::TooManyRows) => Ok(Some(Witness::ManyRows)),
        Err(RowsFault::NoMemory) => Err(NoMemory),
    }
}

/// What shows first that the rows aren't the maximal rows of the constraint. It takes the memory of `maximal_rows` where each row is
/// one of them.
pub(crate) fn row_witness(
    alloc: Global,
    passive: &Constraint,
    labels: u8,
    rows: &[Row],
) -> Result<Option<Witness>, NoMemory>
    requires degrees { AllByRecursion (λ row. length row ≡ passive.now.degree) rows.now }
    requires labels { labels ≤ MAX_LABELS }
    requires few { length rows.now < 2 ^ 64 }
    requires below { AllByRecursion (AllByRecursion (λ label. label < labels)) passive.now.configs }
    ensures { IfOk result (λ witness. witness ≡ row_witness passive.now labels rows.now) }
{
    if let Some(witness) = bad_row(passive, rows, 0) {
        return Ok(Some(witness));
    }
    if let Some(witness) = extended_row(passive, labels, rows, 0) {
        return Ok(Some(witness));
    }
    if let Some(number) = unordered_row(rows, 0) {
        return Ok(Some(Witness::RowOrder(number)));
    }
    missing_row(alloc, passive, labels, rows)
}
