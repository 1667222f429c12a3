//! What a change makes of a problem.
ghost use Rattle.re_changes.specs.Changes.{IsChange, changed_by, goes_to, kept, staying};
ghost use Rattle.re_labels.specs.Lists.{count_from};
ghost use Rattle.re_labels.specs.Sets.{has, without_label};
ghost use Rattle.re_problem.specs.NamedProblems.{occurs};
ghost use Rattle.std.specs.Prelude.{◌≡◌, ◌≤◌, ◌||◌, IfOk, Some, None, filter, if◌then◌else◌, length, map, option_and_then};
ghost use Rattle.re_changes.specs.Renumbering.{number_among};

use crate::change::{Change, Changed};
use crate::renumbering::{number_among, renumbered};
use crate::without::{constraint_without, labels_in};
use arrayvec::ArrayVec;
use re_labels::{Constraint, MAX_LABELS, NoMemory};
use std::alloc::Global;

/// All labels below this number but the one.
pub fn all_but(label: u8, labels: u8) -> ArrayVec<u8, 128>
    requires { labels ≤ MAX_LABELS }
    ensures { result.items ≡ without_label (count_from 0 labels) label }
{
    let mut others = ArrayVec::new();
    for other in 0..labels {
        if other != label {
            others.push(other);
        }
    }
    others
}

// The labels that stand in a configuration of one of the constraints, of those below the number.
fn used_labels(active: &Constraint, passive: &Constraint, labels: u8) -> ArrayVec<u8, 128>
    requires { labels ≤ MAX_LABELS }
    ensures { result.items ≡ filter (λ label. occurs active.now label || occurs passive.now label) (count_from 0 labels) }
{
    let used = labels_in(active).union(labels_in(passive));
    let mut held = ArrayVec::new();
    for label in 0..labels {
        if used.has(label) {
            held.push(label);
        }
    }
    held
}

// The label to which a label goes.
fn goes_to(change: Change, label: u8) -> u8
    ensures { result ≡ goes_to change label }
{
    match change {
        Change::Merge(low, high) => { if label == high { low } else { label } }
        Change::LeaveOut(_) => label,
    }
}

// The new numbers of all labels below this number, where these stay.
fn new_numbers(change: Change, stay: &[u8], labels: u8) -> ArrayVec<u8, 128>
    requires stay { length stay.now ≤ MAX_LABELS }
    requires labels { labels ≤ MAX_LABELS }
    ensures { result.items ≡ map (λ label. number_among stay.now (goes_to change label)) (count_from 0 labels) }
{
    let mut numbers = ArrayVec::new();
    for label in 0..labels {
        numbers.push(number_among(stay, goes_to(change, label)));
    }
    numbers
}

// The label that a label becomes where these stay, if it is left.
fn becomes(change: Change, stay: &[u8], label: u8) -> Option<u8>
    requires { length stay.now ≤ MAX_LABELS }
    ensures { result ≡ (if has stay.now (goes_to change label) then Some (number_among stay.now (goes_to change label)) else None) }
{
    let to = goes_to(change, label);
    if stay.contains(&to) {
        Some(number_among(stay, to))
    } else {
        None
    }
}

// What the labels that are left become.
fn images_after(change: Change, stay: &[u8], images: &[Option<u8>]) -> ArrayVec<Option<u8>, 128>
    requires stay { length stay.now ≤ MAX_LABELS }
    requires few { length images.now ≤ MAX_LABELS }
    ensures { result.items ≡ map (λ image. option_and_then (λ label. if has stay.now (goes_to change label) then Some (number_among stay.now (goes_to change label)) else None) image) images.now }
{
    let mut after = ArrayVec::new();
    for image in images {
        after.push(match image {
            Some(label) => becomes(change, stay, *label),
            None => None,
        });
    }
    after
}

// What the change makes, where these labels stay and these configurations are kept.
fn renumbered_by(
    alloc: Global,
    made: &Changed,
    change: Change,
    stay: &[u8],
    active: &Constraint,
    passive: &Constraint,
) -> Result<Changed, NoMemory>
    requires change { IsChange (length made.now.problem.names) change }
    requires stay { stay.now ≡ staying change made.now.problem }
    requires active { active.now ≡ (kept change made.now.problem).active }
    requires passive { passive.now ≡ (kept change made.now.problem).passive }
    ensures { IfOk result (λ next. next ≡ changed_by change made.now) }
{
    let names = made.problem.names();
    let numbers = new_numbers(change, stay, names.len() as u8);
    let problem = renumbered(alloc, names, active, passive, stay, numbers.as_slice())?;
    let images = images_after(change, stay, made.images());
    Ok(Changed { problem, images })
}

/// What the merge of two labels makes.
pub(crate) fn merged(alloc: Global, made: &Changed, low: u8, high: u8) -> Result<Changed, NoMemory>
    requires { IsChange (length made.now.problem.names) (Change.Merge low high) }
    ensures { IfOk result (λ next. next ≡ changed_by (Change.Merge low high) made.now) }
{
    let problem = &made.problem;
    let stay = all_but(high, problem.names().len() as u8);
    renumbered_by(
        alloc,
        made,
        Change::Merge(low, high),
        stay.as_slice(),
        problem.active(),
        problem.passive(),
    )
}

/// What is made where a label is left out.
pub(crate) fn left_out(alloc: Global, made: &Changed, label: u8) -> Result<Changed, NoMemory>
    requires { IsChange (length made.now.problem.names) (Change.LeaveOut label) }
    ensures { IfOk result (λ next. next ≡ changed_by (Change.LeaveOut label) made.now) }
{
    let problem = &made.problem;
    let active = constraint_without(alloc, problem.active(), label)?;
    let passive = constraint_without(alloc, problem.passive(), label)?;
    let stay = used_labels(&active, &passive, problem.names().len() as u8);
    renumbered_by(
        alloc,
        made,
        Change::LeaveOut(label),
        stay.as_slice(),
        &active,
        &passive,
    )
}
