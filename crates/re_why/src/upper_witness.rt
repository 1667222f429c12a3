//! What shows that an upper step fails a clause.
ghost use Rattle.re_labels.specs.Lists.{count_from};
ghost use Rattle.re_problem.specs.Verdicts.{first_label};
ghost use Rattle.re_problem.specs.Steps.{SetEntry, entry_sets, set_for};
ghost use Rattle.re_why.specs.Finding.{bad_witness, empty_set, first_unordered, is_empty, label_witness, labels_ascend, names_label, shut_witness};
ghost use Rattle.std.specs.List.{AllByRecursion};
ghost use Rattle.std.specs.Prelude.{◌≡◌, ◌≤◌, ◌<◌, find, length, map, nat_lt, not};

use crate::bad_choice::first_bad_choice;
use crate::witness::{PortSets, Witness};
use arrayvec::ArrayVec;
use re_cert::SetEntry;
use re_check::sets_of;
use re_labels::{Config, Constraint, LabelSet};
use re_problem::{first_not_allowed, first_not_good};

// Whether the label of the entry is below that of the next one.
fn labels_ascend(entry: &SetEntry, next: &SetEntry) -> bool
    ensures { result ≡ labels_ascend entry.now next.now }
{
    entry.label < next.label
}

// The first entry whose label isn't below that of the one behind it.
fn unordered_label(entries: &[SetEntry]) -> Option<usize>
    ensures { result ≡ first_unordered labels_ascend 0 entries.now }
{
    for place in 1..entries.len() {
        let entry = &entries[place - 1];
        let next = &entries[place];
        if !labels_ascend(entry, next) {
            return Some(place - 1);
        }
    }
    None
}

// Whether some entry has the label.
fn has_label(entries: &[SetEntry], label: u8) -> bool
    ensures { result ≡ names_label entries.now label }
{
    entries.iter().any(|entry| entry.label == label)
}

// The least label below the number that no entry has.
fn missing_label(entries: &[SetEntry], labels: usize) -> Option<u8>
    requires { labels ≤ 128 }
    ensures { result ≡ first_label (λ label. not (names_label entries.now label)) labels }
{
    for label in 0..labels {
        if !has_label(entries, label as u8) {
            return Some(label as u8);
        }
    }
    None
}

// Whether the set of the entry is empty.
fn is_empty(entry: &SetEntry) -> bool
    ensures { result ≡ is_empty entry.now }
{
    entry.set.is_empty()
}

// The first entry whose set is empty.
fn first_empty(entries: &[SetEntry]) -> Option<SetEntry>
    ensures { result ≡ find is_empty entries.now }
{
    entries.iter().copied().find(|entry| is_empty(entry))
}

// The label of the first entry whose set is empty.
fn empty_set(entries: &[SetEntry]) -> Option<u8>
    ensures { result ≡ empty_set entries.now }
{
    match first_empty(entries) {
        Some(entry) => Some(entry.label),
        None => None,
    }
}

/// What shows first that the entries don't have exactly the labels of the next problem, each with a set that isn't empty.
pub(crate) fn label_witness(entries: &[SetEntry], labels: usize) -> Option<Witness>
    requires { labels ≤ 128 }
    ensures { result ≡ label_witness labels entries.now }
{
    if let Some(place) = unordered_label(entries) {
        return Some(Witness::LabelOrder(place));
    }
    if let Some(label) = missing_label(entries, labels) {
        return Some(Witness::MissingLabel(label));
    }
    match empty_set(entries) {
        Some(label) => Some(Witness::EmptySet(label)),
        None => None,
    }
}

// The sets of the labels of the configuration.
fn sets_for(entries: &[SetEntry], config: &Config) -> ArrayVec<LabelSet, 6>
    requires { AllByRecursion (λ label. label < length entries.now) config.now }
    ensures { result.items ≡ map (set_for entries.now) config.now }
{
    let mut sets = ArrayVec::new();
    for label in config.labels() {
        let entry = &entries[*label as usize];
        sets.push(entry.set);
    }
    sets
}

/// The first active configuration of the next problem whose sets are no good row, with the first choice that shows it.
pub(crate) fn bad_witness(
    passive: &Constraint,
    active: &Constraint,
    entries: &[SetEntry],
) -> Option<Witness>
    requires degree { active.now.degree ≡ passive.now.degree }
    requires few { length entries.now ≤ 128 }
    requires filled { AllByRecursion (λ s. 0 < length s) (entry_sets entries.now) }
    requires known { AllByRecursion (AllByRecursion (λ label. label < length entries.now)) active.now.configs }
    ensures { result ≡ bad_witness passive.now active.now entries.now }
{
    let _degree = active.degree();
    let all = sets_of(entries);
    let Some(config) = first_not_good(active, passive, all.as_slice()) else {
        return None;
    };
    let sets = sets_for(entries, &config);
    let Some(labels) = first_bad_choice(passive, sets.as_slice()) else {
        return None;
    };
    Some(Witness::BadSets(config, PortSets::new(sets.as_slice()), labels))
}

/// The first passive configuration of the next problem from whose sets no active configuration can be chosen.
pub(crate) fn shut_witness(
    before: &Constraint,
    passive: &Constraint,
    entries: &[SetEntry],
) -> Option<Witness>
    requires degree { passive.now.degree ≡ before.now.degree }
    requires few { length entries.now ≤ 128 }
    requires filled { AllByRecursion (λ s. 0 < length s) (entry_sets entries.now) }
    requires known { AllByRecursion (AllByRecursion (λ label. label < length entries.now)) passive.now.configs }
    ensures { result ≡ shut_witness before.now passive.now entries.now }
{
    let all = sets_of(entries);
    let Some(config) = first_not_allowed(passive, before, all.as_slice()) else {
        return None;
    };
    let sets = sets_for(entries, &config);
    Some(Witness::ShutSets(config, PortSets::new(sets.as_slice())))
}
