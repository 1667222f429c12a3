//! Good rows: a walk over the choices in which equal sets give their labels in ascending order.
ghost use Rattle.re_labels.specs.Rows.{IsChoice};
ghost use Rattle.re_check.specs.EqualSets.{given_by, narrowed};
ghost use Rattle.re_labels.specs.Sets.{IsLabelSet};
ghost use Rattle.re_labels.specs.Constraints.{Has};
ghost use Rattle.re_labels.specs.GoodRows.{is_good};
ghost use Rattle.std.specs.List.{AllByRecursion};
ghost use Rattle.std.specs.Prelude.{◌≡◌, ◌≤◌, ◌<◌, ◌+◌, ◌++◌, ◌∷◌, ◌↔◌, ℕ, List, IsTrue, length};

use arrayvec::ArrayVec;
use re_labels::{Config, Constraint, LabelSet, MAX_LABELS, Row, Trail};

// The labels that the next set gives behind a set of which some are left.
fn labels_of(set: LabelSet, left: LabelSet, next: LabelSet) -> LabelSet
    ensures { result ≡ given_by set left next }
{
    if next == set { left } else { next }
}

// Whether the drawn labels are a configuration.
fn is_config(constraint: &Constraint, labels: &[u8], trail: &mut Trail) -> bool
    requires two { 2 ≤ length labels.now }
    requires six { length labels.now ≤ 6 }
    requires below { AllByRecursion (λ label. label < MAX_LABELS) labels.now }
    ensures { IsTrue result ↔ Has constraint.now labels.now }
{
    constraint.contains_near(&Config::from_labels(labels), trail)
}

// Whether the drawn labels are a configuration with each choice of one label of what is left of the set and one of each other set;
// of the sets that follow as the same set again, only the choices from what is left are asked for.
fn each_is(
    constraint: &Constraint,
    drawn: &mut ArrayVec<u8, 6>,
    trail: &mut Trail,
    set: LabelSet,
    left: LabelSet,
    others: &[LabelSet],
) -> bool
    requires two { 2 ≤ length drawn.old.items + length others.now + 1 }
    requires six { length drawn.old.items + length others.now + 1 ≤ 6 }
    requires drawn_below { AllByRecursion (λ label. label < MAX_LABELS) drawn.old.items }
    requires left_set { IsLabelSet MAX_LABELS left }
    requires other_sets { AllByRecursion (IsLabelSet MAX_LABELS) others.now }
    ensures each { IsTrue result ↔ ((labels : List ℕ) → IsChoice labels (left ∷ narrowed set left others.now) → Has constraint.now (drawn.old.items ++ labels)) }
    ensures drawn { drawn.new.items ≡ drawn.old.items }
{
    let Some(label) = left.first() else {
        return true;
    };
    drawn.push(label);
    let [next, more @ ..] = others else {
        let last = is_config(constraint, drawn.as_slice(), trail);
        drawn.pop();
        if !last {
            return false;
        }
        return each_is(constraint, drawn, trail, set, left.remove(label), others);
    };
    let given = labels_of(set, left, *next);
    let with_label = each_is(constraint, drawn, trail, *next, given, more);
    drawn.pop();
    if !with_label {
        return false;
    }
    each_is(constraint, drawn, trail, set, left.remove(label), others)
}

/// Whether every choice of one label of each set of the row is a configuration. It takes no memory, asks of equal sets only for
/// choices in ascending order, and leaves at the first that isn't a configuration.
pub fn is_good(constraint: &Constraint, row: &Row) -> bool
    requires { length row.now ≡ constraint.now.degree }
    ensures { result ≡ is_good constraint.now row.now }
{
    let [first, others @ ..] = row.sets() else {
        unreachable!()
    };
    let mut drawn = ArrayVec::new();
    let mut trail = Trail::default();
    each_is(constraint, &mut drawn, &mut trail, *first, *first, others)
}
