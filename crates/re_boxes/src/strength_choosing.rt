//! A choice of one label of each set that is no configuration.
ghost use Rattle.re_boxes.specs.Boxes.{IsStrength};
ghost use Rattle.re_labels.specs.Rows.{IsChoice, set_at};
ghost use Rattle.re_labels.specs.Sets.{IsIn, IsLabelSet, IsWithin};
ghost use Rattle.re_labels.specs.Constraints.{Has};
ghost use Rattle.re_boxes.specs.Choosing.{AreGoodBehind, AreGoodChoices, IsBadBehind};
ghost use Rattle.re_boxes.specs.HeldStrength.{ups_in};
ghost use Rattle.std.specs.List.{AllByRecursion};
ghost use Rattle.std.specs.Prelude.{◌≡◌, ◌≤◌, ◌<◌, ◌+◌, ◌∷◌, [], IfSome, MatchBool, MatchOption, length, true};

use crate::sets::with_label;
use crate::strength::Strength;
use arrayvec::ArrayVec;
use re_labels::{Config, Constraint, LabelSet, MAX_LABELS, Trail};

// The least label of the set that the other one has too.
fn first_in(set: LabelSet, other: LabelSet) -> Option<u8>
    ensures { IfSome result (λ label. IsIn label set × (label < MAX_LABELS)) }
{
    let _number = set.number();
    set.meet(other).first()
}

/// The least label of the set, if it has any.
pub(crate) fn least_of(set: LabelSet) -> Option<u8>
    ensures { MatchOption result (set ≡ []) (λ label. IsIn label set × (label < MAX_LABELS)) }
{
    let _number = set.number();
    set.first()
}

/// A label of the set, one of the wanted ones if it has any, and else of the first of the sets in order that has any.
pub(crate) fn picked(set: LabelSet, wanted: LabelSet, order: &[LabelSet]) -> Option<u8>
    ensures { MatchOption result (set ≡ []) (λ label. IsIn label set × (label < MAX_LABELS)) }
{
    if let Some(label) = first_in(set, wanted) {
        return Some(label);
    }
    for level in order {
        if let Some(label) = first_in(set, *level) {
            return Some(label);
        }
    }
    least_of(set)
}

// The set at the place, if there is one.
fn wanted_at(sets: &[LabelSet], place: usize) -> LabelSet {
    if place < sets.len() {
        sets[place]
    } else {
        LabelSet::empty()
    }
}

// The labels of all the sets.
fn all_labels(sets: &[LabelSet]) -> LabelSet {
    let mut all = LabelSet::empty();
    for set in sets {
        all = all.union(*set);
    }
    all
}

// Whether some choice of one label of the first set and of each other one is no configuration behind the drawn labels. Then it is
// drawn too. The trail is that of the choices looked up. Of each set the labels that are wanted there come first, then those that are wanted anywhere.
fn is_bad_behind(
    constraint: &Constraint,
    wanted: &[LabelSet],
    anywhere: LabelSet,
    drawn: &mut ArrayVec<u8, 6>,
    trail: &mut Trail,
    first: LabelSet,
    others: &[LabelSet],
) -> bool
    requires two { 2 ≤ length drawn.old.items + length others.now + 1 }
    requires six { length drawn.old.items + length others.now + 1 ≤ 6 }
    requires drawn_below { AllByRecursion (λ label. label < MAX_LABELS) drawn.old.items }
    requires first_set { IsLabelSet MAX_LABELS first }
    requires other_sets { AllByRecursion (IsLabelSet MAX_LABELS) others.now }
    ensures { MatchBool result
        (IsBadBehind constraint.now drawn.old.items (first ∷ others.now) drawn.new.items)
        (AreGoodBehind constraint.now drawn.old.items (first ∷ others.now) × (drawn.new.items ≡ drawn.old.items)) }
{
    let Some(label) = picked(first, wanted_at(wanted, drawn.len()), &[anywhere]) else {
        return false;
    };
    drawn.push(label);
    let [next, more @ ..] = others else {
        if !constraint.contains_near(&Config::from_labels(drawn.as_slice()), trail) {
            return true;
        }
        drawn.pop();
        return is_bad_behind(
            constraint,
            wanted,
            anywhere,
            drawn,
            trail,
            first.remove(label),
            others,
        );
    };
    if is_bad_behind(constraint, wanted, anywhere, drawn, trail, *next, more) {
        return true;
    }
    drawn.pop();
    is_bad_behind(
        constraint,
        wanted,
        anywhere,
        drawn,
        trail,
        first.remove(label),
        others,
    )
}

/// A choice of one label of each set that is no configuration, or None exactly where there is none. Of each set the labels
/// that are wanted there come first, then those that are wanted at another place: in a colouring it is equal
/// labels that don't go together.
pub fn bad_choice(
    constraint: &Constraint,
    wanted: &[LabelSet],
    sets: &[LabelSet],
) -> Option<ArrayVec<u8, 6>>
    requires two { 2 ≤ length sets.now }
    requires six { length sets.now ≤ 6 }
    requires sets { AllByRecursion (IsLabelSet MAX_LABELS) sets.now }
    ensures { MatchOption result (AreGoodChoices constraint.now sets.now)
        (λ choice. IsBadBehind constraint.now [] sets.now choice.items) }
{
    let [first, others @ ..] = sets else {
        unreachable!()
    };
    let mut drawn = ArrayVec::new();
    let anywhere = all_labels(wanted);
    let mut trail = Trail::default();
    if is_bad_behind(
        constraint, wanted, anywhere, &mut drawn, &mut trail, *first, others,
    ) {
        return Some(drawn);
    }
    None
}

// The bad choice, with one of the candidates at the place if it stays bad so.
fn raised_at(
    constraint: &Constraint,
    order: &[LabelSet],
    wanted: LabelSet,
    sets: &[LabelSet],
    choice: ArrayVec<u8, 6>,
    place: usize,
    candidates: LabelSet,
) -> ArrayVec<u8, 6>
    requires two { 2 ≤ length sets.now }
    requires six { length sets.now ≤ 6 }
    requires sets { AllByRecursion (IsLabelSet MAX_LABELS) sets.now }
    requires place { place < length sets.now }
    requires candidates { IsWithin candidates (set_at sets.now place) }
    requires bad { IsBadBehind constraint.now [] sets.now choice.items }
    ensures { IsBadBehind constraint.now [] sets.now result.items }
{
    let Some(label) = picked(candidates, wanted, order) else {
        return choice;
    };
    let other = with_label(choice.as_slice(), place, label);
    if !constraint.contains(&Config::from_labels(other.as_slice())) {
        return other;
    }
    let rest = candidates.remove(label);
    raised_at(constraint, order, wanted, sets, choice, place, rest)
}

// The bad choice with stronger labels, from this place on, as far as it stays bad.
fn raised(
    constraint: &Constraint,
    strength: &Strength,
    wanted: &[LabelSet],
    sets: &[LabelSet],
    choice: ArrayVec<u8, 6>,
    place: usize,
) -> ArrayVec<u8, 6>
    requires two { 2 ≤ length sets.now }
    requires six { length sets.now ≤ 6 }
    requires sets { AllByRecursion (IsLabelSet strength.now.labels) sets.now }
    requires bad { IsBadBehind constraint.now [] sets.now choice.items }
    ensures { IsBadBehind constraint.now [] sets.now result.items }
{
    if place >= sets.len() {
        return choice;
    }
    let label = choice[place];
    let stronger = sets[place].meet(strength.up(label)).remove(label);
    if stronger.is_empty() {
        return raised(constraint, strength, wanted, sets, choice, place + 1);
    }
    let more = raised_at(
        constraint,
        strength.order(),
        wanted_at(wanted, place),
        sets,
        choice,
        place,
        stronger,
    );
    raised(constraint, strength, wanted, sets, more, place + 1)
}

// Whether one choice, of a wanted label of each set or the least one, is no configuration behind the drawn labels. Then it is drawn too.
fn is_first_bad(
    constraint: &Constraint,
    wanted: &[LabelSet],
    anywhere: LabelSet,
    drawn: &mut ArrayVec<u8, 6>,
    sets: &[LabelSet],
) -> bool
    requires two { 2 ≤ length drawn.old.items + length sets.now }
    requires six { length drawn.old.items + length sets.now ≤ 6 }
    requires drawn_below { AllByRecursion (λ label. label < MAX_LABELS) drawn.old.items }
    ensures { result ≡ true → IsBadBehind constraint.now drawn.old.items sets.now drawn.new.items }
{
    let [first, others @ ..] = sets else {
        return !constraint.contains(&Config::from_labels(drawn.as_slice()));
    };
    let Some(label) = picked(*first, wanted_at(wanted, drawn.len()), &[anywhere]) else {
        return false;
    };
    drawn.push(label);
    is_first_bad(constraint, wanted, anywhere, drawn, others)
}

// The choice of a wanted label of each set, or the least one, where that is no configuration. It looks up one choice, and none where
// nothing is wanted.
fn first_bad(
    constraint: &Constraint,
    wanted: &[LabelSet],
    sets: &[LabelSet],
) -> Option<ArrayVec<u8, 6>>
    requires two { 2 ≤ length sets.now }
    requires six { length sets.now ≤ 6 }
    ensures { IfSome result (λ choice. IsBadBehind constraint.now [] sets.now choice.items) }
{
    if wanted.is_empty() {
        return None;
    }
    let anywhere = all_labels(wanted);
    let mut drawn = ArrayVec::new();
    if is_first_bad(constraint, wanted, anywhere, &mut drawn, sets) {
        return Some(drawn);
    }
    None
}

/// A choice of one label of each set that is no configuration, or None exactly where there is none. One of wanted labels is looked up
/// first. Else the weakest labels tell whether there is one. Its labels go up, to wanted ones and else to strong ones, as far as it stays
/// one; where all labels go up to as many, that is left out.
pub fn strong_bad_choice(
    constraint: &Constraint,
    strength: &Strength,
    wanted: &[LabelSet],
    sets: &[LabelSet],
) -> Option<ArrayVec<u8, 6>>
    requires strong { IsStrength constraint.now (ups_in strength.now.ups.items) }
    requires two { 2 ≤ length sets.now }
    requires six { length sets.now ≤ 6 }
    requires sets { AllByRecursion (IsLabelSet strength.now.labels) sets.now }
    ensures { MatchOption result (AreGoodChoices constraint.now sets.now)
        (λ choice. IsBadBehind constraint.now [] sets.now choice.items) }
{
    if let Some(choice) = first_bad(constraint, wanted, sets) {
        if strength.order().len() < 2 {
            return Some(choice);
        }
        return Some(raised(constraint, strength, wanted, sets, choice, 0));
    }
    let weakest = strength.weakest_sets(sets);
    match bad_choice(constraint, wanted, weakest.as_slice()) {
        None => None,
        Some(choice) => Some(raised(constraint, strength, wanted, sets, choice, 0)),
    }
}
