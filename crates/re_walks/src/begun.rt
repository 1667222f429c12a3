//! Labels that begin a configuration.
ghost use Rattle.re_labels.specs.Rows.{singles};
ghost use Rattle.re_labels.specs.Lists.{count_from};
ghost use Rattle.re_walks.specs.Begun.{is_begun};
ghost use Rattle.std.specs.List.{AllByRecursion};
ghost use Rattle.std.specs.Prelude.{◌≡◌, ◌<◌, ◌≤◌, ◌++◌, ◌-◌, length, replicate};

use arrayvec::ArrayVec;
use re_choice::first_choice;
use re_labels::{Constraint, LabelSet, MAX_LABELS};

// The set of the labels below the number.
fn labels_below(n: u8) -> LabelSet
    requires { n ≤ MAX_LABELS }
    ensures { result ≡ count_from 0 n }
{
    let mut set = LabelSet::empty();
    for label in 0..n {
        set = set.insert(label);
    }
    set
}

// The sets of one label each, and behind them the set, up to so many.
fn begun_sets(labels: &[u8], degree: u8, all: LabelSet) -> ArrayVec<LabelSet, 6>
    requires most { degree ≤ 6 }
    requires few { length labels.now ≤ degree }
    requires labels { AllByRecursion (λ label. label < MAX_LABELS) labels.now }
    ensures { result.items ≡ singles labels.now ++ replicate (degree - length labels.now) all }
{
    let mut sets = ArrayVec::new();
    for label in labels {
        sets.push(LabelSet::single(*label));
    }
    for _place in labels.len()..degree as usize {
        sets.push(all);
    }
    sets
}

/// Whether some configuration of labels below the number begins with these labels, in some order of its own. It takes no memory, and costs
/// what `first_choice` of `re_choice` costs.
pub fn is_begun(active: &Constraint, n: u8, labels: &[u8]) -> bool
    requires n { n ≤ MAX_LABELS }
    requires few { length labels.now ≤ active.now.degree }
    requires labels { AllByRecursion (λ label. label < MAX_LABELS) labels.now }
    ensures { result ≡ is_begun active.now n labels.now }
{
    let degree = active.degree();
    let sets = begun_sets(labels, degree, labels_below(n));
    first_choice(active, sets.as_slice()).is_some()
}
