//! The first choice of one label of each of some sets that is no configuration.
ghost use Rattle.re_choice.specs.FirstChoice.{IsDrawn};
ghost use Rattle.re_why.specs.BadChoice.{begins, first_bad, first_behind};
ghost use Rattle.re_labels.specs.Rows.{choices};
ghost use Rattle.re_labels.specs.Sets.{IsLabelSet};
ghost use Rattle.std.specs.List.{AllByRecursion};
ghost use Rattle.std.specs.Prelude.{◌+◌, ◌<◌, ◌≡◌, ◌∷◌, length};

use arrayvec::ArrayVec;
use re_check::is_good;
use re_choice::{are_sets, fixed};
use re_labels::{Constraint, LabelSet, MAX_LABELS, PortLabels, Row};

// Whether the drawn labels and one label of each of the others are no configuration for some choice.
fn is_begun(constraint: &Constraint, drawn: &[u8], others: &[LabelSet]) -> bool
    requires degree { length drawn.now + length others.now ≡ constraint.now.degree }
    requires below { AllByRecursion (λ label. label < MAX_LABELS) drawn.now }
    requires sets { AllByRecursion (IsLabelSet MAX_LABELS) others.now }
    ensures { result ≡ begins constraint.now drawn.now others.now }
{
    let _degree = constraint.degree();
    let sets = fixed(drawn, others);
    match Row::from_sets(sets.as_slice()) {
        Some(row) => !is_good(constraint, &row),
        None => false,
    }
}

// Puts behind the drawn labels the first choice of one label of the first set and of each other one with which they are no
// configuration, and says whether there is one. A label that each choice of the others completes to a configuration is left at once.
fn draw(
    constraint: &Constraint,
    drawn: &mut ArrayVec<u8, 6>,
    first: LabelSet,
    others: &[LabelSet],
) -> bool
    requires degree { length drawn.old.items + length others.now + 1 ≡ constraint.now.degree }
    requires drawn_below { AllByRecursion (λ label. label < MAX_LABELS) drawn.old.items }
    requires first_set { IsLabelSet MAX_LABELS first }
    requires other_sets { AllByRecursion (IsLabelSet MAX_LABELS) others.now }
    ensures { IsDrawn (first_behind constraint.now drawn.old.items (first ∷ others.now)) drawn.old.items result drawn.new.items }
{
    let _degree = constraint.degree();
    let Some(label) = first.first() else {
        return false;
    };
    drawn.push(label);
    if !is_begun(constraint, drawn.as_slice(), others) {
        drawn.pop();
        return draw(constraint, drawn, first.remove(label), others);
    }
    let [next, more @ ..] = others else {
        return true;
    };
    draw(constraint, drawn, *next, more)
}

/// The first choice of one label of each set that is no configuration: each set goes through its labels in ascending order, the
/// first set slowest. None exactly where each choice is one. It takes no memory. For each label that it tries it asks once whether
/// each choice with it is a configuration.
pub fn first_bad_choice(constraint: &Constraint, sets: &[LabelSet]) -> Option<PortLabels>
    requires { length sets.now ≡ constraint.now.degree }
    ensures { result ≡ first_bad constraint.now sets.now }
{
    let _degree = constraint.degree();
    are_sets(sets);
    let [first, others @ ..] = sets else {
        unreachable!()
    };
    let mut drawn = ArrayVec::new();
    if draw(constraint, &mut drawn, *first, others) {
        PortLabels::new(drawn.as_slice())
    } else {
        None
    }
}
