//! A list of rows is judged.
ghost use Rattle.re_boxes.specs.Boxes.{IsStrength, IsUp};
ghost use Rattle.re_labels.specs.Rows.{Dominates, row_cmp};
ghost use Rattle.re_labels.specs.Lists.{IsRising};
ghost use Rattle.re_labels.specs.Sets.{IsLabelSet};
ghost use Rattle.re_boxes.specs.UpRows.{AreUpRows, IsUpRow};
ghost use Rattle.re_boxes.specs.HeldStrength.{ups_in};
ghost use Rattle.re_labels.specs.GoodRows.{max_rows};
ghost use Rattle.std.specs.List.{AllByRecursion};
ghost use Rattle.std.specs.declared.cmp.Ordering.TheVariants.{Less};
ghost use Rattle.std.specs.Prelude.{◌≡◌, ◌≤◌, ◌<◌, ◌↔◌, ℕ, List, Contains, IsTrue, MatchBool, length};

use crate::covering::{are_configs_dominated, are_rows_covered};
use re_boxes::{RowIndex, Strength, dominates, row_order, strong_bad_choice};
use re_labels::{Constraint, LabelSet, MAX_LABELS, Row};
use std::cmp::Ordering;

// Whether all labels of the set are below the number.
fn is_below(set: LabelSet, labels: u8) -> bool
    requires { labels ≤ MAX_LABELS }
    ensures { IsTrue result ↔ IsLabelSet labels set }
{
    let _number = set.number();
    if labels == 0 {
        return set.is_empty();
    }
    set.after(labels - 1).is_none()
}

/// Whether the set has, with each of its labels, what the label goes up to.
pub fn is_up(strength: &Strength, set: LabelSet) -> bool
    requires { IsLabelSet strength.now.labels set }
    ensures { IsTrue result ↔ IsUp (ups_in strength.now.ups.items) set }
{
    for label in 0..strength.labels {
        if set.has(label) && !strength.up(label).within(set) {
            return false;
        }
    }
    true
}

// Whether all labels of the sets are below the number.
fn are_below(sets: &[LabelSet], labels: u8) -> bool
    requires { labels ≤ MAX_LABELS }
    ensures { IsTrue result ↔ AllByRecursion (IsLabelSet labels) sets.now }
{
    for set in sets {
        if !is_below(*set, labels) {
            return false;
        }
    }
    true
}

// Whether each of the sets has, with each of its labels, what the label goes up to.
fn are_up(strength: &Strength, sets: &[LabelSet]) -> bool
    requires { AllByRecursion (IsLabelSet strength.now.labels) sets.now }
    ensures { IsTrue result ↔ AllByRecursion (IsUp (ups_in strength.now.ups.items)) sets.now }
{
    for set in sets {
        if !is_up(strength, *set) {
            return false;
        }
    }
    true
}

// Whether the row is good, of labels below the number, and has with each label what the label goes up to. Where not, it is no
// maximal row.
fn is_up_row(constraint: &Constraint, strength: &Strength, row: &Row) -> bool
    requires { IsStrength constraint.now (ups_in strength.now.ups.items) }
    ensures { MatchBool result
        (IsUpRow constraint.now (ups_in strength.now.ups.items) strength.now.labels row.now)
        (Contains (max_rows constraint.now strength.now.labels) row.now → ⊥) }
{
    let sets = row.sets();
    if sets.len() != constraint.degree() as usize {
        return false;
    }
    if !are_below(sets, strength.labels) {
        return false;
    }
    if !are_up(strength, sets) {
        return false;
    }
    strong_bad_choice(constraint, strength, &[], sets).is_none()
}

// The same for each row of the list.
fn are_up_rows(constraint: &Constraint, strength: &Strength, rows: &[Row]) -> bool
    requires { IsStrength constraint.now (ups_in strength.now.ups.items) }
    ensures { MatchBool result
        (AreUpRows constraint.now (ups_in strength.now.ups.items) strength.now.labels rows.now)
        (rows.now ≡ max_rows constraint.now strength.now.labels → ⊥) }
{
    for row in rows {
        if !is_up_row(constraint, strength, row) {
            return false;
        }
    }
    true
}

// Whether each row of the list comes before the next one.
fn are_ascending(rows: &[Row]) -> bool
    ensures { IsTrue result ↔ IsRising (λ row other. row_cmp row other ≡ Less) rows.now }
{
    for place in 1..rows.len() {
        if row_order(&rows[place - 1], &rows[place]) != Ordering::Less {
            return false;
        }
    }
    true
}

// Whether the row dominates no other row of the list.
fn is_apart(rows: &[Row], row: &Row) -> bool
    requires { (other : List (List ℕ)) → Contains rows.now other → length row.now ≡ length other }
    ensures { IsTrue result ↔ ((other : List (List ℕ)) → Contains rows.now other → Dominates row.now other → row.now ≡ other) }
{
    let _sets = row.sets();
    for other in rows {
        let _others = other.sets();
        if dominates(row, other) && row_order(row, other) != Ordering::Equal {
            return false;
        }
    }
    true
}

// Whether no row of the list dominates another one.
fn are_apart(rows: &[Row]) -> bool
    requires { (row other : List (List ℕ)) → Contains rows.now row → Contains rows.now other → length row ≡ length other }
    ensures { IsTrue result ↔ ((row other : List (List ℕ)) → Contains rows.now row → Contains rows.now other → Dominates row other → row ≡ other) }
{
    for row in rows {
        if !is_apart(rows, row) {
            return false;
        }
    }
    true
}

/// Whether these are the maximal rows of sets of labels below the number, in order, each once: the rows of nonempty sets of
/// which each choice of one label of each set is a configuration, and that no other such row dominates. It is false, too, of
/// rows of another number of sets than the constraint's degree, and of rows with a label that is not below the number. It takes
/// no memory.
///
/// Each row must be good and have with each label the stronger ones, the rows must ascend, none may dominate another, and each
/// configuration, with the stronger labels of its own, must be dominated. Then, of each row, place and label, it searches the box
/// of the good rows that pass the row by this label there. A box that no row of the list dominates is parted by a choice that is
/// no configuration, or is good, and then a row is missing. With m rows of d sets of n labels that is m * m comparisons of rows
/// and m * d * n boxes; how often one is parted has no bound but the number of choices, and is small for most constraints. An
/// index of the rows by their labels, of 110 KB on the stack, names a row that dominates a part.
pub fn are_maximal_rows(constraint: &Constraint, labels: u8, rows: &[Row]) -> bool
    requires labels { labels ≤ MAX_LABELS }
    requires below { AllByRecursion (AllByRecursion (λ label. label < labels)) constraint.now.configs }
    ensures { MatchBool result (rows.now ≡ max_rows constraint.now labels) (rows.now ≡ max_rows constraint.now labels → ⊥) }
{
    let _degree = constraint.degree();
    let strength = Strength::of(constraint, labels);
    if !are_up_rows(constraint, &strength, rows) {
        return false;
    }
    if !are_ascending(rows) {
        return false;
    }
    if !are_apart(rows) {
        return false;
    }
    let lookup = RowIndex::of(rows);
    if !are_configs_dominated(constraint, &strength, rows, &lookup) {
        return false;
    }
    are_rows_covered(constraint, &strength, rows, &lookup)
}
