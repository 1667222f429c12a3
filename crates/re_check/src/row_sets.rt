//! The sets of the entries, and those that occur in rows.
ghost use Rattle.re_check.specs.StepClauses.{HasRowSets, OccursInRows};
ghost use Rattle.re_labels.specs.Lists.{IsRising, place_of};
ghost use Rattle.re_labels.specs.Sets.{number};
ghost use Rattle.re_problem.specs.Steps.{entry_sets};
ghost use Rattle.std.specs.Prelude.{◌≡◌, ◌<◌, ◌↔◌, ℕ, List, Contains, IsTrue, MatchOption, length};

use re_cert::SetEntry;
use re_labels::{LabelSet, Row};

// Whether the sets of the entries ascend.
fn ascend(entries: &[SetEntry]) -> bool
    ensures { IsTrue result ↔ IsRising (λ s t. number s < number t) (entry_sets entries.now) }
{
    for place in 1..entries.len() {
        let before = &entries[place - 1];
        let entry = &entries[place];
        if before.set >= entry.set {
            return false;
        }
    }
    true
}

/// The place of the entry for the set, where the sets ascend, or nothing where no entry has it.
pub fn place_for(entries: &[SetEntry], set: LabelSet) -> Option<usize>
    requires { IsRising (λ s t. number s < number t) (entry_sets entries.now) }
    ensures { MatchOption result (Contains (entry_sets entries.now) set → ⊥) (λ place. (place < length entries.now) × Contains (entry_sets entries.now) set × (place_of (entry_sets entries.now) set ≡ place)) }
{
    let _count = set.count();
    match entries.binary_search_by_key(&set, |entry| entry.set) {
        Ok(place) => {
            let entry = &entries[place];
            let _count = entry.set.count();
            Some(place)
        }
        Err(_) => None,
    }
}

// Whether each set of the row is one of the entries' sets.
fn has_sets_of(entries: &[SetEntry], row: &Row) -> bool
    requires { IsRising (λ s t. number s < number t) (entry_sets entries.now) }
    ensures { IsTrue result ↔ ((set : List ℕ) → Contains row.now set → Contains (entry_sets entries.now) set) }
{
    for set in row.sets() {
        if place_for(entries, *set).is_none() {
            return false;
        }
    }
    true
}

// Whether each set of each row is one of the entries' sets.
fn has_all_sets(entries: &[SetEntry], rows: &[Row]) -> bool
    requires { IsRising (λ s t. number s < number t) (entry_sets entries.now) }
    ensures { IsTrue result ↔ ((set : List ℕ) → OccursInRows rows.now set → Contains (entry_sets entries.now) set) }
{
    for row in rows {
        if !has_sets_of(entries, row) {
            return false;
        }
    }
    true
}

/// Whether the set occurs in some row.
pub fn occurs(rows: &[Row], set: LabelSet) -> bool
    ensures { IsTrue result ↔ OccursInRows rows.now set }
{
    let _count = set.count();
    for row in rows {
        if row.sets().contains(&set) {
            return true;
        }
    }
    false
}

// Whether each set of the entries occurs in some row.
fn all_occur(entries: &[SetEntry], rows: &[Row]) -> bool
    ensures { IsTrue result ↔ ((set : List ℕ) → Contains (entry_sets entries.now) set → OccursInRows rows.now set) }
{
    for entry in entries {
        if !occurs(rows, entry.set) {
            return false;
        }
    }
    true
}

/// Whether the entries have exactly the sets that occur in the rows, each once and ascending. It takes no memory. With n entries
/// each set of the rows takes about log n comparisons, and each entry a walk over the rows up to its set.
pub fn are_row_sets(entries: &[SetEntry], rows: &[Row]) -> bool
    ensures { IsTrue result ↔ HasRowSets rows.now entries.now }
{
    if !ascend(entries) {
        return false;
    }
    if !has_all_sets(entries, rows) {
        return false;
    }
    all_occur(entries, rows)
}
