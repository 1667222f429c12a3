//! The first clause that a step fails.
ghost use Rattle.re_cert.specs.Bounds.{map_of};
ghost use Rattle.re_problem.specs.Steps.LowerMap.{by_row, by_set};
ghost use Rattle.re_check.specs.Clauses.{are_allowed, are_exchanged, are_good, are_maximal, have_labels, have_row_sets, is_filled, keep_allowed, keep_allowed_by_row, keep_images, keep_rows, step_fault};
ghost use Rattle.re_check.specs.StepClauses.{HasNextLabels, HasRowSets};
ghost use Rattle.re_labels.specs.GoodRows.{max_rows};
ghost use Rattle.std.specs.List.{AllByRecursion, list_all};
ghost use Rattle.std.specs.Prelude.{◌≡◌, ◌<◌, IsTrue, [], false, length, nat_lt, true};

use crate::allowed_images::keeps_allowed;
use crate::clause::Clause;
use crate::judging::are_maximal_rows;
use crate::next_labels::{are_allowed_images, are_good_images, have_next_labels};
use crate::row_images::keeps_rows;
use crate::row_maps::{keeps_allowed_by_row, keeps_images};
use crate::row_sets::are_row_sets;
use re_cert::{LowerMap, RowImage, SetEntry, Step, StepParts, set_fits};
use re_labels::{Constraint, MAX_LABELS, Row};
use re_problem::Problem;

/// Whether the degrees of the next problem are those of the one before, exchanged.
pub fn are_exchanged(before: &Problem, next: &Problem) -> bool
    ensures { result ≡ are_exchanged before.now next.now }
{
    next.active().degree() == before.passive().degree()
        && next.passive().degree() == before.active().degree()
}

// Whether the rows are the maximal rows of the passive constraint, in order.
fn are_maximal(before: &Problem, rows: &[Row]) -> bool
    ensures { result ≡ are_maximal before.now rows.now }
{
    let labels = before.names().len() as u8;
    are_maximal_rows(before.passive(), labels, rows)
}

// Whether the entries have exactly the sets of the rows, each once and ascending.
fn have_row_sets(before: &Problem, rows: &[Row], entries: &[SetEntry]) -> bool
    requires { rows.now ≡ max_rows before.now.passive (length before.now.names) }
    ensures test { result ≡ have_row_sets before.now rows.now entries.now }
    ensures fact { IsTrue result → HasRowSets rows.now entries.now }
{
    are_row_sets(entries, rows)
}

// Whether the labels of the entries are labels that configurations may have.
fn have_labels_below(entries: &[SetEntry]) -> bool
    ensures { result ≡ list_all (λ entry. nat_lt entry.label MAX_LABELS) entries.now }
{
    entries.iter().all(|entry| entry.label < MAX_LABELS)
}

// Whether the image of each row is a configuration.
fn keep_rows(active: &Constraint, rows: &[Row], entries: &[SetEntry]) -> bool
    requires { HasRowSets rows.now entries.now }
    ensures test { result ≡ keep_rows active.now rows.now entries.now }
    ensures below { IsTrue result → AllByRecursion (λ entry. entry.label < MAX_LABELS) entries.now }
{
    let _degree = active.degree();
    have_labels_below(entries) && keeps_rows(entries, rows, active)
}

// Whether the image of each multiset of the sets from which some choice is active before is a configuration.
fn keep_allowed(before: &Constraint, passive: &Constraint, entries: &[SetEntry]) -> bool
    requires degree { passive.now.degree ≡ before.now.degree }
    requires below { AllByRecursion (λ entry. entry.label < MAX_LABELS) entries.now }
    ensures { result ≡ keep_allowed before.now passive.now entries.now }
{
    keeps_allowed(entries, before, passive)
}

/// Whether each image is a configuration of the constraint. It looks each one up.
pub fn keep_images(active: &Constraint, images: &[RowImage]) -> bool
    ensures test { result ≡ keep_images active.now images.now }
    ensures below { IsTrue result → AllByRecursion (AllByRecursion (λ label. label < MAX_LABELS)) images.now }
{
    let _degree = active.degree();
    keeps_images(images, active)
}

// Whether for each multiset of the sets from which some choice is active before each choice of a label that each of them becomes by
// rows is a configuration.
fn keep_allowed_by_row(
    before: &Problem,
    passive: &Constraint,
    rows: &[Row],
    images: &[RowImage],
) -> bool
    requires degree { passive.now.degree ≡ before.now.active.degree }
    requires maximal { rows.now ≡ max_rows before.now.passive (length before.now.names) }
    requires below { AllByRecursion (AllByRecursion (λ label. label < MAX_LABELS)) images.now }
    ensures { result ≡ keep_allowed_by_row (length before.now.names) before.now.active passive.now rows.now images.now }
{
    keeps_allowed_by_row(rows, images, before.active(), passive)
}

// The first clause that a lower step by sets fails, where it meets those of the degrees and of the rows.
fn by_set_clause(
    before: &Problem,
    next: &Problem,
    rows: &[Row],
    entries: &[SetEntry],
) -> Option<Clause>
    requires exchanged { are_exchanged before.now next.now ≡ true }
    requires maximal { are_maximal before.now rows.now ≡ true }
    ensures { result ≡ step_fault before.now (record { lower = true; next = next.now; rows = rows.now; map = by_set entries.now }) }
{
    if !have_row_sets(before, rows, entries) {
        return Some(Clause::L3);
    }
    if !keep_rows(next.active(), rows, entries) {
        return Some(Clause::L4);
    }
    if !keep_allowed(before.active(), next.passive(), entries) {
        return Some(Clause::L5);
    }
    None
}

// The first clause that a lower step by rows fails, where it meets those of the degrees and of the rows.
fn by_row_clause(
    before: &Problem,
    next: &Problem,
    rows: &[Row],
    images: &[RowImage],
) -> Option<Clause>
    requires exchanged { are_exchanged before.now next.now ≡ true }
    requires maximal { are_maximal before.now rows.now ≡ true }
    ensures { result ≡ step_fault before.now (record { lower = true; next = next.now; rows = rows.now; map = by_row images.now }) }
{
    if images.len() != rows.len() {
        return Some(Clause::L3);
    }
    if !keep_images(next.active(), images) {
        return Some(Clause::L4);
    }
    if !keep_allowed_by_row(before, next.passive(), rows, images) {
        return Some(Clause::L5);
    }
    None
}

// The first clause that a lower step fails.
fn lower_clause(before: &Problem, next: &Problem, rows: &[Row], map: &LowerMap) -> Option<Clause>
    ensures { result ≡ step_fault before.now (record { lower = true; next = next.now; rows = rows.now; map = map_of map.now }) }
{
    if !are_exchanged(before, next) {
        return Some(Clause::L1);
    }
    if !are_maximal(before, rows) {
        return Some(Clause::L2);
    }
    match map {
        LowerMap::BySet(entries) => by_set_clause(before, next, rows, entries.as_slice()),
        LowerMap::ByRow(images) => by_row_clause(before, next, rows, images.as_slice()),
    }
}

// Whether the set of the entry isn't empty, and of labels of the problem.
fn is_filled(before: &Problem, entry: &SetEntry) -> bool
    ensures { result ≡ is_filled before.now entry.now.set }
{
    !entry.set.is_empty() && set_fits(entry.set, before.names().len())
}

// Whether the set of each entry isn't empty, and of labels of the problem.
fn are_filled(before: &Problem, entries: &[SetEntry]) -> bool
    ensures { result ≡ list_all (λ entry. is_filled before.now entry.set) entries.now }
{
    entries.iter().all(|entry| is_filled(before, entry))
}

// Whether the entries have exactly the labels of the next problem, each once and ascending, each with a set of labels that isn't empty.
fn have_labels(before: &Problem, next: &Problem, entries: &[SetEntry]) -> bool
    ensures test { result ≡ have_labels before.now next.now entries.now }
    ensures fact { IsTrue result → HasNextLabels (length next.now.names) entries.now }
{
    have_next_labels(entries, next.names().len()) && are_filled(before, entries)
}

// Whether the sets of each active configuration of the next problem are a good row of the passive constraint before.
fn are_good(before: &Problem, next: &Problem, entries: &[SetEntry]) -> bool
    requires degree { next.now.active.degree ≡ before.now.passive.degree }
    requires labels { HasNextLabels (length next.now.names) entries.now }
    ensures { result ≡ are_good before.now.passive next.now.active entries.now }
{
    are_good_images(entries, next.active(), before.passive())
}

// Whether from the sets of each passive configuration of the next problem some choice is active before.
fn are_allowed(before: &Problem, next: &Problem, entries: &[SetEntry]) -> bool
    requires degree { next.now.passive.degree ≡ before.now.active.degree }
    requires labels { HasNextLabels (length next.now.names) entries.now }
    ensures { result ≡ are_allowed before.now.active next.now.passive entries.now }
{
    are_allowed_images(entries, next.passive(), before.active())
}

// The first clause that an upper step fails.
fn upper_clause(before: &Problem, next: &Problem, entries: &[SetEntry]) -> Option<Clause>
    ensures { result ≡ step_fault before.now (record { lower = false; next = next.now; rows = []; map = by_set entries.now }) }
{
    if !are_exchanged(before, next) {
        return Some(Clause::U1);
    }
    if !have_labels(before, next, entries) {
        return Some(Clause::U2);
    }
    if !are_good(before, next, entries) {
        return Some(Clause::U3);
    }
    if !are_allowed(before, next, entries) {
        return Some(Clause::U4);
    }
    None
}

/// The first clause that the step from this problem doesn't meet, in the order `L1` to `L5` or `U1` to `U4`, or None exactly where it
/// meets them all: where it is a lower step, or an upper step. It takes no memory.
///
/// The rows are judged by boxes, as `are_maximal_rows` states; the images of the allowed multisets by one row of labels for each active
/// configuration, as `keeps_allowed` and `keeps_allowed_by_row` state; an upper step costs what `are_good_images` and `are_allowed_images` cost.
pub fn step_clause(before: &Problem, step: &Step) -> Option<Clause>
    ensures { result ≡ step_fault before.now step.now }
{
    match &step.parts {
        StepParts::Lower { rows, map } => lower_clause(before, &step.next, rows.as_slice(), map),
        StepParts::Upper { map } => upper_clause(before, &step.next, map.as_slice()),
    }
}
