//! Entries for the labels of the next problem, and the rows of their sets.
ghost use Rattle.re_check.specs.StepClauses.{HasAllowedImages, HasGoodImages, HasNextLabels};
ghost use Rattle.re_labels.specs.Sets.{IsLabelSet};
ghost use Rattle.re_problem.specs.Steps.{entry_sets};
ghost use Rattle.std.specs.List.{AllByRecursion};
ghost use Rattle.std.specs.Prelude.{◌≡◌, ◌<◌, ◌≤◌, ◌↔◌, IsTrue, length};

use arrayvec::ArrayVec;
use re_cert::SetEntry;
use re_labels::{Constraint, LabelSet, MAX_LABELS};
use re_problem::{first_not_allowed, first_not_good};

/// Whether the entries have exactly the labels below the number, each once and ascending, each with a nonempty set. It takes no
/// memory, and walks the entries once.
pub fn have_next_labels(entries: &[SetEntry], labels: usize) -> bool
    ensures { IsTrue result ↔ HasNextLabels labels entries.now }
{
    if entries.len() != labels {
        return false;
    }
    for (label, entry) in entries.iter().enumerate() {
        if entry.label as usize != label {
            return false;
        }
        if entry.set.is_empty() {
            return false;
        }
    }
    true
}

/// The sets of the entries, in order.
pub fn sets_of(entries: &[SetEntry]) -> ArrayVec<LabelSet, 128>
    requires { length entries.now ≤ MAX_LABELS }
    ensures sets { result.items ≡ entry_sets entries.now }
    ensures below { AllByRecursion (IsLabelSet MAX_LABELS) result.items }
{
    let mut sets = ArrayVec::new();
    for entry in entries {
        let _count = entry.set.count();
        sets.push(entry.set);
    }
    sets
}

/// Whether the sets of the entries for the labels of each configuration of `next` are a good row of `before`, where the entry for a
/// label is the one at its place, and the sets are nonempty. It takes no memory, and looks up at most one configuration for each
/// choice of a row, leaving a row at the first choice that isn't one.
pub fn are_good_images(entries: &[SetEntry], next: &Constraint, before: &Constraint) -> bool
    requires degree { next.now.degree ≡ before.now.degree }
    requires few { length entries.now ≤ MAX_LABELS }
    requires filled { AllByRecursion (λ s. 0 < length s) (entry_sets entries.now) }
    requires known { AllByRecursion (AllByRecursion (λ label. label < length entries.now)) next.now.configs }
    ensures { IsTrue result ↔ HasGoodImages entries.now next.now before.now }
{
    let sets = sets_of(entries);
    first_not_good(next, before, sets.as_slice()).is_none()
}

/// Whether from the sets of the entries for the labels of each configuration of `next` some choice is a configuration of `before`,
/// where the entry for a label is the one at its place, and the sets are nonempty. It takes no memory, and leaves a row at the first
/// choice that is one.
pub fn are_allowed_images(entries: &[SetEntry], next: &Constraint, before: &Constraint) -> bool
    requires degree { next.now.degree ≡ before.now.degree }
    requires few { length entries.now ≤ MAX_LABELS }
    requires filled { AllByRecursion (λ s. 0 < length s) (entry_sets entries.now) }
    requires known { AllByRecursion (AllByRecursion (λ label. label < length entries.now)) next.now.configs }
    ensures { IsTrue result ↔ HasAllowedImages entries.now next.now before.now }
{
    let sets = sets_of(entries);
    first_not_allowed(next, before, sets.as_slice()).is_none()
}
