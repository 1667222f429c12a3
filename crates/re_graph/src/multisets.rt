//! Multisets of labels at the free ends of a node.
ghost use Rattle.std.specs.Prelude.{◌≤◌, ◌<◌};

use crate::relations::is_in;
use re_labels::{Config, LabelSet, MAX_LABELS, NoMemory};
use std::alloc::Global;

/// A multiset of at most 6 labels as a number: a byte for each label, in ascending order, the least in the lowest byte.
pub(crate) type Multiset = u64;

/// The number of the labels of a configuration, where labels count from this one on.
pub(crate) fn multiset_of(config: &Config, from: u8) -> Multiset {
    let mut number = 0u64;
    for label in config.labels().iter().rev() {
        number = (number << 8) | u64::from(label.saturating_add(from));
    }
    number
}

// The label at this place.
fn label_at(multiset: Multiset, place: u8) -> u8 {
    match multiset.to_le_bytes().as_slice().get(place as usize) {
        Some(label) => *label,
        None => MAX_LABELS,
    }
}

// The multiset without the label at this place.
fn without(multiset: Multiset, place: u8) -> Multiset
    requires { place ≤ 6 }
{
    let below = (1u64 << (8 * place)).wrapping_sub(1);
    (multiset & below) | ((multiset >> 8) & !below)
}

// Each multiset once, in ascending order.
fn each_once(mut all: Vec<Multiset>) -> Vec<Multiset> {
    all.sort_unstable();
    all.dedup();
    all
}

/// What is left of multisets of so many labels when one of them is in the set, each once and in ascending order.
pub(crate) fn filled(
    alloc: Global,
    multisets: &[Multiset],
    ends: u8,
    set: LabelSet,
) -> Result<Vec<Multiset>, NoMemory>
    requires { ends ≤ 6 }
{
    let mut left = Vec::new(alloc);
    for multiset in multisets {
        for place in 0..ends {
            if is_in(set, label_at(*multiset, place)) {
                left.push(without(*multiset, place))?;
            }
        }
    }
    Ok(each_once(left))
}

// Appends what is left of a multiset when the relation joins the label at this place to another one.
fn push_looped(
    left: &mut Vec<Multiset>,
    multiset: Multiset,
    ends: u8,
    place: u8,
    set: LabelSet,
) -> Result<(), NoMemory>
    requires ends { ends ≤ 6 }
    requires place { place < ends }
{
    let others = without(multiset, place);
    for other in 0..ends - 1 {
        if is_in(set, label_at(others, other)) {
            left.push(without(others, other))?;
        }
    }
    Ok(())
}

/// What is left of multisets of so many labels when the relation joins two of them, each once and in ascending order.
pub(crate) fn looped(
    alloc: Global,
    multisets: &[Multiset],
    ends: u8,
    relation: &[LabelSet],
) -> Result<Vec<Multiset>, NoMemory>
    requires { ends ≤ 6 }
{
    let mut left = Vec::new(alloc);
    for multiset in multisets {
        for place in 0..ends {
            if let Some(set) = relation.get(label_at(*multiset, place) as usize) {
                push_looped(&mut left, *multiset, ends, place, *set)?;
            }
        }
    }
    Ok(each_once(left))
}

/// The labels of multisets of one label.
pub(crate) fn set_of(multisets: &[Multiset]) -> LabelSet {
    let mut set = LabelSet::empty();
    for multiset in multisets {
        let label = label_at(*multiset, 0);
        if label < MAX_LABELS {
            set = set.insert(label);
        }
    }
    set
}

/// The labels of a multiset of two or three in each order: two pairs or six triples, of which the last label of a pair counts for nothing.
pub(crate) fn orders(multiset: Multiset, ends: u8) -> [(u8, u8, u8); 6] {
    let first = label_at(multiset, 0);
    let second = label_at(multiset, 1);
    let third = if ends > 2 {
        label_at(multiset, 2)
    } else {
        MAX_LABELS
    };
    [
        (first, second, third),
        (second, first, third),
        (first, third, second),
        (third, first, second),
        (second, third, first),
        (third, second, first),
    ]
}

/// Whether each multiset of the first list stands in the second one, where both ascend.
pub(crate) fn is_part(few: &[Multiset], many: &[Multiset]) -> bool {
    let mut place = 0usize;
    for multiset in many {
        if few.get(place) == Some(multiset) {
            place = place.saturating_add(1);
        }
    }
    place == few.len()
}

// How many multisets stand in front of the first one whose labels aren't in the set.
fn own_count(multisets: &[Multiset], own: LabelSet) -> usize {
    let mut count = 0usize;
    for multiset in multisets {
        if !is_in(own, label_at(*multiset, 0)) {
            return count;
        }
        count = count.saturating_add(1);
    }
    count
}

/// The multisets of labels in the set, and those of others, which stand behind them.
pub(crate) fn split_at_own(multisets: &[Multiset], own: LabelSet) -> (&[Multiset], &[Multiset]) {
    let count = own_count(multisets, own);
    match (multisets.get(..count), multisets.get(count..)) {
        (Some(first), Some(others)) => (first, others),
        _ => (multisets, &multisets[..0]),
    }
}
