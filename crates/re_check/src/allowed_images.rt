//! The images of allowed multisets of sets.
ghost use Rattle.re_labels.specs.Rows.{IsChoice, set_at};
ghost use Rattle.re_check.specs.LabelsOver.{labels_over};
ghost use Rattle.re_check.specs.StepClauses.{KeepsAllowed};
ghost use Rattle.re_labels.specs.Lists.{count_from};
ghost use Rattle.re_labels.specs.Sets.{IsLabelSet};
ghost use Rattle.re_labels.specs.Constraints.{Has};
ghost use Rattle.std.specs.List.{AllByRecursion};
ghost use Rattle.std.specs.Prelude.{◌≡◌, ◌<◌, ◌↔◌, ℕ, List, IsTrue, length, map};

use crate::runs::is_good;
use arrayvec::ArrayVec;
use re_cert::SetEntry;
use re_labels::{Config, Constraint, LabelSet, MAX_LABELS, Row};

// The labels of the entries whose sets hold the label.
fn labels_over(entries: &[SetEntry], label: u8) -> LabelSet
    requires label { label < MAX_LABELS }
    requires labels { AllByRecursion (λ entry. entry.label < MAX_LABELS) entries.now }
    ensures { result ≡ labels_over entries.now label }
{
    let mut over = LabelSet::empty();
    for entry in entries {
        if entry.set.has(label) {
            over = over.insert(entry.label);
        }
    }
    over
}

/// The labels over each label: those of the entries whose sets hold it.
pub fn all_labels_over(entries: &[SetEntry]) -> [LabelSet; MAX_LABELS as usize]
    requires { AllByRecursion (λ entry. entry.label < MAX_LABELS) entries.now }
    ensures { result ≡ map (labels_over entries.now) (count_from 0 MAX_LABELS) }
{
    let mut over = [LabelSet::empty(); MAX_LABELS as usize];
    for label in 0..MAX_LABELS {
        over[label as usize] = labels_over(entries, label);
    }
    over
}

/// The sets at the labels of the configuration.
pub fn sets_at(config: &Config, sets: &[LabelSet]) -> ArrayVec<LabelSet, 6>
    requires { length sets.now ≡ MAX_LABELS }
    ensures { result.items ≡ map (set_at sets.now) config.now }
{
    let mut there = ArrayVec::new();
    for label in config.labels() {
        there.push(sets[*label as usize]);
    }
    there
}

/// Whether each choice of one label of each set is a configuration of the constraint.
pub(crate) fn has_all_choices(constraint: &Constraint, sets: &[LabelSet]) -> bool
    requires degree { length sets.now ≡ constraint.now.degree }
    requires sets { AllByRecursion (IsLabelSet MAX_LABELS) sets.now }
    ensures { IsTrue result ↔ ((labels : List ℕ) → IsChoice labels sets.now → Has constraint.now labels) }
{
    let _degree = constraint.degree();
    match Row::from_sets(sets) {
        Some(row) => is_good(constraint, &row),
        None => true,
    }
}

/// Whether the image of each allowed multiset of the entries' sets is a configuration of `to`, where a multiset of as many sets as
/// the degree of `from` is allowed if some choice of one label of each is a configuration of `from`.
///
/// It takes no memory, and doesn't walk the multisets: for each label of `from` it collects the labels of the entries whose sets
/// hold it, in one walk over the entries for each label, and then asks for each configuration of `from` whether each choice of one
/// label over each of its labels is a configuration of `to`. It leaves a configuration at the first choice that isn't one. Labels of
/// the configuration with the same labels over them are asked for choices in ascending order alone: k labels over each of d such ones
/// give (k + d - 1 over d) choices. Where the labels over them differ, each choice is looked up: k to the power of the degree.
pub fn keeps_allowed(entries: &[SetEntry], from: &Constraint, to: &Constraint) -> bool
    requires degree { to.now.degree ≡ from.now.degree }
    requires labels { AllByRecursion (λ entry. entry.label < MAX_LABELS) entries.now }
    ensures { IsTrue result ↔ KeepsAllowed entries.now from.now to.now }
{
    let over = all_labels_over(entries);
    for place in 0..from.len() {
        let Some(config) = from.get(place) else {
            unreachable!();
        };
        let sets = sets_at(config, &over);
        if !has_all_choices(to, sets.as_slice()) {
            return false;
        }
    }
    true
}
