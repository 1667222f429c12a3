//! The images of rows.
ghost use Rattle.re_labels.specs.Configs.{sorted};
ghost use Rattle.re_check.specs.StepClauses.{HasRowSets, KeepsRows};
ghost use Rattle.re_labels.specs.Lists.{IsRising};
ghost use Rattle.re_labels.specs.Sets.{number};
ghost use Rattle.re_problem.specs.Steps.{entry_sets, label_of};
ghost use Rattle.std.specs.List.{AllByRecursion};
ghost use Rattle.std.specs.Prelude.{◌≡◌, ◌<◌, ◌↔◌, ℕ, List, Contains, IsTrue, map};

use crate::row_sets::place_for;
use arrayvec::ArrayVec;
use re_cert::SetEntry;
use re_labels::{Config, Constraint, LabelSet, MAX_LABELS, Row};

// The label of the entry for the set.
fn label_for(entries: &[SetEntry], set: LabelSet) -> u8
    requires ascends { IsRising (λ s t. number s < number t) (entry_sets entries.now) }
    requires held { Contains (entry_sets entries.now) set }
    requires labels { AllByRecursion (λ entry. entry.label < MAX_LABELS) entries.now }
    ensures label { result ≡ label_of entries.now set }
    ensures below { result < MAX_LABELS }
{
    match place_for(entries, set) {
        Some(place) => {
            let entry = &entries[place];
            entry.label
        }
        None => unreachable!(),
    }
}

/// The configuration of the labels of the entries for the row's sets.
pub fn image(entries: &[SetEntry], row: &Row) -> Config
    requires ascends { IsRising (λ s t. number s < number t) (entry_sets entries.now) }
    requires held { (set : List ℕ) → Contains row.now set → Contains (entry_sets entries.now) set }
    requires labels { AllByRecursion (λ entry. entry.label < MAX_LABELS) entries.now }
    ensures { result ≡ sorted (map (label_of entries.now) row.now) }
{
    let mut labels: ArrayVec<u8, 6> = ArrayVec::new();
    for set in row.sets() {
        labels.push(label_for(entries, *set));
    }
    Config::from_labels(labels.as_slice())
}

/// Whether the image of each row under the entries is a configuration of the constraint, where the entries have the sets that occur
/// in the rows. It takes no memory. With n entries and m configurations a set takes about log n comparisons, and a row log m more.
pub fn keeps_rows(entries: &[SetEntry], rows: &[Row], to: &Constraint) -> bool
    requires sets { HasRowSets rows.now entries.now }
    requires labels { AllByRecursion (λ entry. entry.label < MAX_LABELS) entries.now }
    ensures { IsTrue result ↔ KeepsRows rows.now entries.now to.now }
{
    for row in rows {
        if !to.contains(&image(entries, row)) {
            return false;
        }
    }
    true
}
