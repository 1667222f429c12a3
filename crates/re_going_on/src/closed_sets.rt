//! Right-closed sets, and the good rows in which one of them stands at all places but one.
use crate::patterns::Pattern;
use re_boxes::up_sets;
use re_labels::{Constraint, LabelSet, MAX_LABELS, NoMemory, Row};
use std::alloc::Global;

/// How many right-closed sets are looked at.
const MAX_CLOSED: usize = 256;

// Appends the set, where it isn't there.
fn offer(closed: &mut Vec<LabelSet>, set: LabelSet) -> Result<(), NoMemory> {
    if closed.len() < MAX_CLOSED && !closed.iter().any(|one| one.number() == set.number()) {
        closed.push(set)?;
    }
    Ok(())
}

// The right-closed sets of labels: with each label those at least as strong.
fn right_closed(
    alloc: Global,
    constraint: &Constraint,
    labels: u8,
) -> Result<Vec<LabelSet>, NoMemory> {
    let mut closed: Vec<LabelSet> = Vec::new(alloc);
    if labels > MAX_LABELS {
        return Ok(closed);
    }
    let ups = up_sets(constraint, labels);
    for up in ups.as_slice() {
        offer(&mut closed, *up)?;
    }
    for place in 0..MAX_CLOSED {
        let Some(set) = closed.as_slice().get(place) else {
            break;
        };
        let set = *set;
        for up in ups.as_slice() {
            offer(&mut closed, set.union(*up))?;
        }
    }
    Ok(closed)
}

// The row in which the one set stands at all places but one, and the other there, for degrees 3 and 5.
fn row_of(degree: u8, often: LabelSet, once: LabelSet) -> Option<Row> {
    match degree {
        3 => Row::from_sets(&[once, often, often]),
        5 => Row::from_sets(&[once, often, often, often, often]),
        _ => None,
    }
}

// Whether each choice from the row is a configuration.
fn is_good(constraint: &Constraint, often: LabelSet, once: LabelSet) -> bool {
    match row_of(constraint.degree(), often, once) {
        Some(row) => {
            row.sets().len() == constraint.degree() as usize && constraint.is_good(&row)
        }
        None => false,
    }
}

// The labels that may stand once where this set stands at all other places.
fn once_with(constraint: &Constraint, labels: u8, often: LabelSet) -> LabelSet {
    let mut once = LabelSet::empty();
    for label in 0..MAX_LABELS {
        if label < labels && is_good(constraint, often, LabelSet::single(label)) {
            once = once.insert(label);
        }
    }
    once
}

/// The good rows in which a right-closed set stands at all places but one, and at that place all labels that go with it.
pub(crate) fn good_patterns(
    alloc: Global,
    constraint: &Constraint,
    labels: u8,
) -> Result<Vec<Pattern>, NoMemory> {
    let mut patterns = Vec::new(alloc);
    for often in right_closed(alloc, constraint, labels)?.as_slice() {
        let once = once_with(constraint, labels, *often);
        if !once.is_empty() {
            patterns.push(Pattern {
                often: *often,
                once,
            })?;
        }
    }
    Ok(patterns)
}
