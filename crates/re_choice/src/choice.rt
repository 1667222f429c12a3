//! The first choice of one label of each of some sets that is a configuration.

ghost use Rattle.re_choice.specs.FirstChoice.{IsDrawn, begins, first_behind};
ghost use Rattle.re_labels.specs.Rows.{choices, singles};
ghost use Rattle.re_labels.specs.Sets.{IsLabelSet};
ghost use Rattle.re_labels.specs.Constraints.{has_config};
ghost use Rattle.std.specs.List.{AllByRecursion};
ghost use Rattle.std.specs.Prelude.{◌++◌, ◌+◌, ◌<◌, ◌≡◌, ◌≤◌, ◌∷◌, find, length};

use arrayvec::ArrayVec;
use re_labels::{Constraint, LabelSet, MAX_LABELS, PortLabels, Row};

/// The sets of one label each, and behind them the others: at most six in all.
pub fn fixed(drawn: &[u8], others: &[LabelSet]) -> ArrayVec<LabelSet, 6>
    requires six { length drawn.now + length others.now ≤ 6 }
    requires below { AllByRecursion (λ label. label < MAX_LABELS) drawn.now }
    ensures { result.items ≡ singles drawn.now ++ others.now }
{
    let mut sets = ArrayVec::new();
    for label in drawn {
        sets.push(LabelSet::single(*label));
    }
    for set in others {
        sets.push(*set);
    }
    sets
}

// Whether the drawn labels and one label of each of the others are a configuration for some choice.
fn is_begun(constraint: &Constraint, drawn: &[u8], others: &[LabelSet]) -> bool
    requires degree { length drawn.now + length others.now ≡ constraint.now.degree }
    requires below { AllByRecursion (λ label. label < MAX_LABELS) drawn.now }
    requires sets { AllByRecursion (IsLabelSet MAX_LABELS) others.now }
    ensures { result ≡ begins constraint.now drawn.now others.now }
{
    let _degree = constraint.degree();
    let sets = fixed(drawn, others);
    match Row::from_sets(sets.as_slice()) {
        Some(row) => constraint.allows(&row),
        None => false,
    }
}

// Puts behind the drawn labels the first choice of one label of the first set and of each other one with which they are a
// configuration, and says whether there is one. A label that no choice of the others completes is left at once.
fn draw(
    constraint: &Constraint,
    drawn: &mut ArrayVec<u8, 6>,
    first: LabelSet,
    others: &[LabelSet],
) -> bool
    requires degree { length drawn.old.items + length others.now + 1 ≡ constraint.now.degree }
    requires drawn_below { AllByRecursion (λ label. label < MAX_LABELS) drawn.old.items }
    requires first_set { IsLabelSet MAX_LABELS first }
    requires other_sets { AllByRecursion (IsLabelSet MAX_LABELS) others.now }
    ensures { IsDrawn (first_behind constraint.now drawn.old.items (first ∷ others.now)) drawn.old.items result drawn.new.items }
{
    let _degree = constraint.degree();
    let Some(label) = first.first() else {
        return false;
    };
    drawn.push(label);
    if !is_begun(constraint, drawn.as_slice(), others) {
        drawn.pop();
        return draw(constraint, drawn, first.remove(label), others);
    }
    let [next, more @ ..] = others else {
        return true;
    };
    draw(constraint, drawn, *next, more)
}

/// That each set is one.
pub fn are_sets(sets: &[LabelSet])
    ensures { AllByRecursion (IsLabelSet MAX_LABELS) sets.now }
{
    let [first, others @ ..] = sets else {
        return;
    };
    let _count = first.count();
    are_sets(others)
}

/// The first choice of one label of each set that is a configuration: each set goes through its labels in ascending order, the
/// first set slowest. None exactly where no choice is one, so also where there aren't as many sets as labels of a configuration.
/// It takes no memory. It goes from set to set and never back: for each label that it tries it asks once whether the constraint
/// allows it with some choice of the sets behind it, so that it asks at most as often as there are labels in the sets.
pub fn first_choice(constraint: &Constraint, sets: &[LabelSet]) -> Option<PortLabels>
    ensures { result ≡ find (has_config constraint.now) (choices sets.now) }
{
    if sets.len() != constraint.degree() as usize {
        return None;
    }
    are_sets(sets);
    let [first, others @ ..] = sets else {
        return None;
    };
    let mut drawn = ArrayVec::new();
    if draw(constraint, &mut drawn, *first, others) {
        PortLabels::new(drawn.as_slice())
    } else {
        None
    }
}
