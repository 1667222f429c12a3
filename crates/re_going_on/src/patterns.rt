//! Patterns: rows of sets in which one set stands at all places but one, and families of patterns that go together.
use re_labels::{LabelSet, MAX_LABELS, NoMemory};
use re_problem::Problem;
use std::alloc::Global;

/// A row of sets of labels in which one set stands at all places but one; as an active configuration one of single labels.
#[derive(Clone, Copy)]
pub(crate) struct Pattern {
    /// What stands at all places but one.
    pub(crate) often: LabelSet,
    /// What stands at the other place.
    pub(crate) once: LabelSet,
}

// A pattern, and the labels that may stand beside those of its sets.
#[derive(Clone, Copy)]
struct Member {
    pattern: Pattern,
    beside_often: LabelSet,
    beside_once: LabelSet,
}

// The set of the label alone.
fn single(label: u8) -> LabelSet {
    if label < MAX_LABELS {
        LabelSet::single(label)
    } else {
        LabelSet::empty()
    }
}

// The pattern of these labels in order, if they are one.
fn pattern_of(labels: &[u8]) -> Option<Pattern> {
    let [first, second, ..] = labels else {
        return None;
    };
    let [.., before, last] = labels else {
        return None;
    };
    if first == before {
        return Some(Pattern {
            often: single(*first),
            once: single(*last),
        });
    }
    if second == last {
        return Some(Pattern {
            often: single(*last),
            once: single(*first),
        });
    }
    None
}

/// The patterns among the active configurations.
pub(crate) fn patterns_of(alloc: Global, problem: &Problem) -> Result<Vec<Pattern>, NoMemory> {
    let mut patterns = Vec::new(alloc);
    for config in problem.active().configs() {
        if let Some(pattern) = pattern_of(config.labels()) {
            patterns.push(pattern)?;
        }
    }
    Ok(patterns)
}

// Whether the sets have a label in common.
fn meet(set: LabelSet, other: LabelSet) -> bool {
    !set.meet(other).is_empty()
}

// The labels that may stand beside one of the set.
fn beside_set(beside: &[LabelSet], set: LabelSet) -> LabelSet {
    let mut all = LabelSet::empty();
    for (label, others) in beside.iter().enumerate() {
        if label < MAX_LABELS as usize && set.has(label as u8) {
            all = all.union(*others);
        }
    }
    all
}

// Whether the patterns may stand beside each other: not with both their sets that stand once.
fn go_together(one: &Member, other: &Member) -> bool {
    meet(one.beside_often, other.pattern.often)
        && meet(one.beside_often, other.pattern.once)
        && meet(one.beside_once, other.pattern.often)
}

// Whether two nodes of the pattern may stand beside each other, either with the set that stands once or with the other one.
fn goes_with_itself(member: &Member) -> bool {
    meet(member.beside_often, member.pattern.often) && meet(member.beside_once, member.pattern.once)
}

// With how many of the others the one at this place goes.
fn company(members: &[Member], place: usize, one: &Member) -> usize {
    let mut count: usize = 0;
    for (other, member) in members.iter().enumerate() {
        if other != place && go_together(one, member) {
            count = count.saturating_add(1);
        }
    }
    count
}

// The place of the first one that goes with the most others.
fn best_place(members: &[Member]) -> usize {
    let mut best: usize = 0;
    let mut most: usize = 0;
    for (place, member) in members.iter().enumerate() {
        let count = company(members, place, member);
        if most < count {
            best = place;
            most = count;
        }
    }
    best
}

// The others that go with the one at this place.
fn others_with(
    alloc: Global,
    members: &[Member],
    place: usize,
    one: &Member,
) -> Result<Vec<Member>, NoMemory> {
    let mut left = Vec::new(alloc);
    for (other, member) in members.iter().enumerate() {
        if other != place && go_together(one, member) {
            left.push(*member)?;
        }
    }
    Ok(left)
}

// The patterns that go with themselves.
fn members_of(
    alloc: Global,
    patterns: &[Pattern],
    beside: &[LabelSet],
) -> Result<Vec<Member>, NoMemory> {
    let mut members = Vec::new(alloc);
    for pattern in patterns {
        let member = Member {
            pattern: *pattern,
            beside_often: beside_set(beside, pattern.often),
            beside_once: beside_set(beside, pattern.once),
        };
        if goes_with_itself(&member) {
            members.push(member)?;
        }
    }
    Ok(members)
}

/// Patterns that go together, at most so many: one after another that goes with the most of those which are left. Beside each label
/// may stand the labels of its set.
pub(crate) fn family_of(
    alloc: Global,
    patterns: &[Pattern],
    beside: &[LabelSet],
    most: usize,
) -> Result<Vec<Pattern>, NoMemory> {
    let mut members = members_of(alloc, patterns, beside)?;
    let mut family = Vec::new(alloc);
    for _member in 0..most {
        let place = best_place(members.as_slice());
        let Some(one) = members.as_slice().get(place) else {
            break;
        };
        let one = *one;
        family.push(one.pattern)?;
        members = others_with(alloc, members.as_slice(), place, &one)?;
    }
    Ok(family)
}
