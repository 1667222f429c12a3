//! Sets of labels that passive nodes of degree 2 take to each other, and the problem between whose labels they are.
use re_labels::{Config, LabelSet, MAX_LABELS, NoMemory};
use re_problem::Problem;
use std::alloc::Global;

/// How many sets are looked at.
const MAX_SETS: usize = 512;

/// Two sets, each of all labels that go with each label of the other one.
#[derive(Clone, Copy)]
struct Opposites {
    set: LabelSet,
    other: LabelSet,
}

/// Sets of labels, and for each the place of its opposite.
#[derive(Drop)]
pub(crate) struct Sides {
    pub(crate) sets: Vec<LabelSet>,
    pub(crate) opposite: Vec<u8>,
}

// All labels below this number.
fn all_below(labels: usize) -> LabelSet {
    let mut all = LabelSet::empty();
    for label in 0..MAX_LABELS {
        if (label as usize) < labels {
            all = all.insert(label);
        }
    }
    all
}

// The set with the label.
fn with(set: LabelSet, label: u8) -> LabelSet {
    if label < MAX_LABELS {
        set.insert(label)
    } else {
        set
    }
}

/// For each label those that may stand beside it around a passive node of degree 2.
pub(crate) fn beside_labels(alloc: Global, problem: &Problem) -> Result<Vec<LabelSet>, NoMemory> {
    let mut beside = Vec::new(alloc);
    for _label in 0..problem.names().len() {
        beside.push(LabelSet::empty())?;
    }
    for config in problem.passive().configs() {
        let [label, other] = config.labels() else {
            continue;
        };
        if let Some(set) = beside.as_mut_slice().get_mut(*label as usize) {
            *set = with(*set, *other);
        }
        if let Some(set) = beside.as_mut_slice().get_mut(*other as usize) {
            *set = with(*set, *label);
        }
    }
    Ok(beside)
}

// All labels that go with each label of the set.
fn opposite_of(beside: &[LabelSet], set: LabelSet) -> LabelSet {
    let mut all = all_below(beside.len());
    for (label, others) in beside.iter().enumerate() {
        if label < MAX_LABELS as usize && set.has(label as u8) {
            all = all.meet(*others);
        }
    }
    all
}

// Whether the set is there.
fn is_there(found: &[Opposites], set: LabelSet) -> bool {
    found.iter().any(|one| one.set.number() == set.number())
}

// Appends the set with its opposite, where neither is empty and it isn't there.
fn offer(found: &mut Vec<Opposites>, beside: &[LabelSet], set: LabelSet) -> Result<(), NoMemory> {
    let other = opposite_of(beside, set);
    if set.is_empty() || other.is_empty() || is_there(found.as_slice(), set) {
        return Ok(());
    }
    if found.len() < MAX_SETS {
        found.push(Opposites { set, other })?;
    }
    Ok(())
}

// The sets beside labels, and what they have in common, each with its opposite.
fn all_opposites(alloc: Global, beside: &[LabelSet]) -> Result<Vec<Opposites>, NoMemory> {
    let mut found: Vec<Opposites> = Vec::new(alloc);
    for set in beside {
        offer(&mut found, beside, *set)?;
    }
    for place in 0..MAX_SETS {
        let Some(one) = found.as_slice().get(place) else {
            break;
        };
        let set = one.set;
        for other in beside {
            offer(&mut found, beside, set.meet(*other))?;
        }
    }
    Ok(found)
}

// How many choices of a label of each of the two sets there are.
fn choices(one: &Opposites) -> u32 {
    (one.set.count() as u32).wrapping_mul(one.other.count() as u32)
}

/// Sets and their opposites, at most so many: those first that have the most choices of two labels.
pub(crate) fn sides_of(alloc: Global, beside: &[LabelSet], most: usize) -> Result<Sides, NoMemory> {
    let mut all = all_opposites(alloc, beside)?;
    all.sort_by_key(|one| u32::MAX - choices(one))?;
    let mut sets: Vec<LabelSet> = Vec::new(alloc);
    let mut opposite = Vec::new(alloc);
    for one in all.as_slice() {
        let place = sets.len();
        let next = place.saturating_add(1);
        if next >= MAX_LABELS as usize {
            break;
        }
        if one.set.number() == one.other.number() && next <= most {
            sets.push(one.set)?;
            opposite.push(place as u8)?;
        }
        if one.set.number() < one.other.number() && next < most {
            sets.push(one.set)?;
            opposite.push(next as u8)?;
            sets.push(one.other)?;
            opposite.push(place as u8)?;
        }
    }
    Ok(Sides { sets, opposite })
}

// The configuration of these two labels.
fn pair(label: u8, other: u8) -> Option<Config> {
    if label < MAX_LABELS && other < MAX_LABELS {
        Some(Config::from_labels(&[label, other]))
    } else {
        None
    }
}

/// The configurations of the sets with their opposites, by their places.
pub(crate) fn opposite_pairs(alloc: Global, sides: &Sides) -> Result<Vec<Config>, NoMemory> {
    let mut pairs = Vec::new(alloc);
    for (place, other) in sides.opposite.iter().enumerate() {
        if place < MAX_LABELS as usize {
            if let Some(pair) = pair(place as u8, *other) {
                pairs.push(pair)?;
            }
        }
    }
    Ok(pairs)
}
