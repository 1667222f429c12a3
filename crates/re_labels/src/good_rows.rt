//! Good and allowed rows: walks over the choices of one label of each set.
ghost use Rattle.re_labels.specs.Rows.{choices, is_full};
ghost use Rattle.re_labels.specs.Sets.{IsLabelSet};
ghost use Rattle.re_labels.specs.Constraints.{has_config};
ghost use Rattle.re_labels.specs.GoodRows.{is_good};
ghost use Rattle.std.specs.List.{AllByRecursion, list_all};
ghost use Rattle.std.specs.Prelude.{◌≡◌, ◌≤◌, ◌<◌, ◌+◌, ◌++◌, ◌∷◌, length, true};

use crate::{Config, Constraint, LabelSet, MAX_LABELS, Row};
use arrayvec::ArrayVec;

// Whether the labels are a configuration.
fn is_config(constraint: &Constraint, labels: &[u8]) -> bool
    requires two { 2 ≤ length labels.now }
    requires six { length labels.now ≤ 6 }
    requires below { AllByRecursion (λ label. label < MAX_LABELS) labels.now }
    ensures { result ≡ has_config constraint.now labels.now }
{
    constraint.contains(&Config::from_labels(labels))
}

// Whether the drawn labels are a configuration with each choice of one label of the first set and of each other one.
fn each_is(
    constraint: &Constraint,
    drawn: &mut ArrayVec<u8, 6>,
    first: LabelSet,
    others: &[LabelSet],
) -> bool
    requires two { 2 ≤ length drawn.old.items + length others.now + 1 }
    requires six { length drawn.old.items + length others.now + 1 ≤ 6 }
    requires drawn_below { AllByRecursion (λ label. label < MAX_LABELS) drawn.old.items }
    requires first_set { IsLabelSet MAX_LABELS first }
    requires other_sets { AllByRecursion (IsLabelSet MAX_LABELS) others.now }
    ensures each { result ≡ list_all (λ labels. has_config constraint.now (drawn.old.items ++ labels)) (choices (first ∷ others.now)) }
    ensures drawn { drawn.new.items ≡ drawn.old.items }
{
    let Some(label) = first.first() else {
        return true;
    };
    drawn.push(label);
    let [next, more @ ..] = others else {
        let last = is_config(constraint, drawn.as_slice());
        drawn.pop();
        if !last {
            return false;
        }
        return each_is(constraint, drawn, first.remove(label), others);
    };
    let with_label = each_is(constraint, drawn, *next, more);
    drawn.pop();
    if !with_label {
        return false;
    }
    each_is(constraint, drawn, first.remove(label), others)
}

// Whether each choice of the row is a configuration.
fn each_choice_is(constraint: &Constraint, row: &Row) -> bool
    ensures full { is_full row.now ≡ true }
    ensures each { result ≡ list_all (has_config constraint.now) (choices row.now) }
{
    let [first, others @ ..] = row.sets() else {
        unreachable!()
    };
    let mut drawn = ArrayVec::new();
    each_is(constraint, &mut drawn, *first, others)
}

impl Constraint {
    /// Whether every choice of one label of each set of the row is a configuration. It takes no memory, and leaves at the
    /// first choice that isn't one.
    pub fn is_good(&self, row: &Row) -> bool
        requires { length row.now ≡ self.now.degree }
        ensures { result ≡ is_good self.now row.now }
    {
        each_choice_is(self, row)
    }
}
