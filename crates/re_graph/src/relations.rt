//! Relations between labels: for each label the set of those to which it is related.
use crate::multisets::{Multiset, orders};
use re_labels::{LabelSet, MAX_LABELS, NoMemory};
use std::alloc::Global;

/// Whether the label is in the set.
pub(crate) fn is_in(set: LabelSet, label: u8) -> bool {
    label < MAX_LABELS && set.has(label)
}

// So many empty sets.
fn nothing(alloc: Global, labels: u8) -> Result<Vec<LabelSet>, NoMemory> {
    let mut rows = Vec::new(alloc);
    for _label in 0..labels {
        rows.push(LabelSet::empty())?;
    }
    Ok(rows)
}

// Relates the first label to the second one too.
fn relate(rows: &mut [LabelSet], first: u8, second: u8) {
    if let Some(row) = rows.get_mut(first as usize) {
        if second < MAX_LABELS {
            *row = row.insert(second);
        }
    }
}

/// The pairs of multisets of two labels, in both orders.
pub(crate) fn relation_of(
    alloc: Global,
    labels: u8,
    multisets: &[Multiset],
) -> Result<Vec<LabelSet>, NoMemory> {
    let mut rows = nothing(alloc, labels)?;
    for multiset in multisets {
        let [(first, second, _), ..] = orders(*multiset, 2);
        relate(rows.as_mut_slice(), first, second);
        relate(rows.as_mut_slice(), second, first);
    }
    Ok(rows)
}

/// The relation the other way round.
pub(crate) fn transposed(alloc: Global, rows: &[LabelSet]) -> Result<Vec<LabelSet>, NoMemory> {
    let labels = rows.len().min(MAX_LABELS as usize) as u8;
    let mut columns = nothing(alloc, labels)?;
    for (first, row) in (0..labels).zip(rows) {
        for second in 0..labels {
            if is_in(*row, second) {
                relate(columns.as_mut_slice(), second, first);
            }
        }
    }
    Ok(columns)
}

/// The labels to which some label of the set is related.
pub(crate) fn reached(rows: &[LabelSet], set: LabelSet) -> LabelSet {
    let mut all = LabelSet::empty();
    for (label, row) in (0..MAX_LABELS).zip(rows) {
        if is_in(set, label) {
            all = all.union(*row);
        }
    }
    all
}

/// The labels that are related to those to which something is related that a label of the first relation is.
pub(crate) fn chained(
    alloc: Global,
    first: &[LabelSet],
    second: &[LabelSet],
) -> Result<Vec<LabelSet>, NoMemory> {
    let mut rows = Vec::new(alloc);
    for row in first {
        rows.push(reached(second, *row))?;
    }
    Ok(rows)
}

/// The labels that are related to themselves.
pub(crate) fn loops(rows: &[LabelSet]) -> LabelSet {
    let mut all = LabelSet::empty();
    for (label, row) in (0..MAX_LABELS).zip(rows) {
        if label < MAX_LABELS && row.has(label) {
            all = all.insert(label);
        }
    }
    all
}

// For each label that the row reaches as a second one, and each third one, the first labels of the triples.
fn reached_thirds(
    alloc: Global,
    labels: u8,
    triples: &[Multiset],
    row: LabelSet,
) -> Result<Vec<LabelSet>, NoMemory> {
    let mut thirds = nothing(alloc, labels)?;
    for multiset in triples {
        for (first, second, third) in &orders(*multiset, 3) {
            if is_in(row, *second) {
                relate(thirds.as_mut_slice(), *third, *first);
            }
        }
    }
    Ok(thirds)
}

// The same for each second label of the other node.
fn all_thirds(
    alloc: Global,
    triples: &[Multiset],
    first: &[LabelSet],
) -> Result<Vec<Vec<LabelSet>>, NoMemory> {
    let labels = first.len().min(MAX_LABELS as usize) as u8;
    let mut all = Vec::new(alloc);
    for row in first {
        all.push(reached_thirds(alloc, labels, triples, *row)?)?;
    }
    Ok(all)
}

/// The relation between the labels at an end of each of two nodes with three ends, whose other ends two relations join, each from the left node
/// to the right one.
pub(crate) fn joined(
    alloc: Global,
    left: &[Multiset],
    right: &[Multiset],
    first: &[LabelSet],
    second: &[LabelSet],
) -> Result<Vec<LabelSet>, NoMemory> {
    let thirds = all_thirds(alloc, right, first)?;
    let mut rows = nothing(alloc, first.len().min(MAX_LABELS as usize) as u8)?;
    for multiset in left {
        for (here, by_first, by_second) in &orders(*multiset, 3) {
            let (Some(reach), Some(set)) = (
                thirds.as_slice().get(*by_first as usize),
                second.get(*by_second as usize),
            ) else {
                continue;
            };
            if let Some(row) = rows.as_mut_slice().get_mut(*here as usize) {
                *row = row.union(reached(reach.as_slice(), *set));
            }
        }
    }
    Ok(rows)
}
