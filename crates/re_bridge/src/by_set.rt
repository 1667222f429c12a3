//! Whether labels for the first sets begin a map by sets.
ghost use Rattle.re_bridge.specs.Bridges.{has_entries, keep_rows_so_far, passes_by_set, rows_of, sets_of};
ghost use Rattle.re_check.specs.Clauses.{are_exchanged, keep_allowed};
ghost use Rattle.re_labels.specs.Lists.{IsRising};
ghost use Rattle.re_labels.specs.Sets.{number};
ghost use Rattle.re_problem.specs.Steps.{entry_sets, label_of};
ghost use Rattle.re_labels.specs.Constraints.{has_config};
ghost use Rattle.std.specs.List.{AllByRecursion};
ghost use Rattle.std.specs.Prelude.{◌≡◌, ◌<◌, ◌≤◌, ◌||◌, IfOk, length, map, not, true, ◌&&◌};

use re_cert::SetEntry;
use re_check::{keeps_allowed, place_for, row_image};
use re_labels::{Constraint, LabelSet, MAX_LABELS, NoMemory, Row};
use re_problem::Problem;
use re_walks::entries_for;
use std::alloc::Global;

// Whether each set of the row has an entry.
fn has_entries(entries: &[SetEntry], row: &Row) -> bool
    requires { IsRising (λ s t. number s < number t) (entry_sets entries.now) }
    ensures { result ≡ has_entries entries.now row.now }
{
    for set in row.sets() {
        if place_for(entries, *set).is_none() {
            return false;
        }
    }
    true
}

// Whether the image of the row is a configuration, where each of its sets has an entry.
fn keeps_row(entries: &[SetEntry], row: &Row, active: &Constraint) -> bool
    requires ascends { IsRising (λ s t. number s < number t) (entry_sets entries.now) }
    requires labels { AllByRecursion (λ entry. entry.label < MAX_LABELS) entries.now }
    ensures { result ≡ (not (has_entries entries.now row.now) || has_config active.now (map (label_of entries.now) row.now)) }
{
    if !has_entries(entries, row) {
        return true;
    }
    active.contains(&row_image(entries, row))
}

// The same of all rows.
fn keeps_rows_so_far(entries: &[SetEntry], rows: &[Row], active: &Constraint) -> bool
    requires ascends { IsRising (λ s t. number s < number t) (entry_sets entries.now) }
    requires labels { AllByRecursion (λ entry. entry.label < MAX_LABELS) entries.now }
    ensures { result ≡ keep_rows_so_far active.now rows.now entries.now }
{
    for row in rows {
        if !keeps_row(entries, row, active) {
            return false;
        }
    }
    true
}

// Whether the image of each multiset of the sets from which some choice is active before is a configuration.
fn keeps_sets(entries: &[SetEntry], before: &Constraint, passive: &Constraint) -> bool
    requires degree { passive.now.degree ≡ before.now.degree }
    requires labels { AllByRecursion (λ entry. entry.label < MAX_LABELS) entries.now }
    ensures { result ≡ keep_allowed before.now passive.now entries.now }
{
    keeps_allowed(entries, before, passive)
}

// Whether the images of the rows and of the allowed multisets whose sets have entries are configurations.
fn keeps_entries(before: &Problem, next: &Problem, rows: &[Row], entries: &[SetEntry]) -> bool
    requires exchanged { are_exchanged before.now next.now ≡ true }
    requires ascends { IsRising (λ s t. number s < number t) (entry_sets entries.now) }
    requires labels { AllByRecursion (λ entry. entry.label < MAX_LABELS) entries.now }
    ensures { result ≡ (keep_rows_so_far next.now.active rows.now entries.now && keep_allowed before.now.active next.now.passive entries.now) }
{
    keeps_rows_so_far(entries, rows, next.active())
        && keeps_sets(entries, before.active(), next.passive())
}

/// Whether the images of the rows and of the allowed multisets whose sets have labels are configurations: the labels are those of the
/// first sets. It makes their entries, and costs what `keeps_rows` and `keeps_allowed` of `re_check` cost.
pub(crate) fn passes_by_set(
    alloc: Global,
    before: &Problem,
    next: &Problem,
    rows: &[Row],
    sets: &[LabelSet],
    labels: &[u8],
) -> Result<bool, NoMemory>
    requires exchanged { are_exchanged before.now next.now ≡ true }
    requires rows { rows.now ≡ rows_of before.now }
    requires sets { sets.now ≡ sets_of before.now }
    requires few { length labels.now ≤ length sets.now }
    requires labels { AllByRecursion (λ label. label < MAX_LABELS) labels.now }
    ensures { IfOk result (λ passes. passes ≡ passes_by_set before.now next.now labels.now) }
{
    let entries = entries_for(alloc, sets, labels)?;
    Ok(keeps_entries(before, next, rows, entries.as_slice()))
}
