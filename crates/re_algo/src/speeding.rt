//! The table with one round less.
ghost use Rattle.re_algo.specs.Constructions.{IsSeen, faster_table, top_places};
ghost use Rattle.re_algo.specs.Tables.{entries};
ghost use Rattle.re_labels.specs.Orders.{placements};
ghost use Rattle.re_labels.specs.Rows.{covers, dominates, is_full, placed};
ghost use Rattle.re_labels.specs.Lists.{place_of};
ghost use Rattle.re_labels.specs.Sets.{IsLabelSet};
ghost use Rattle.re_laws.specs.Algorithms.{Solves};
ghost use Rattle.re_laws.specs.Fast.{fitted};
ghost use Rattle.re_problem.specs.Derived.{derived as next_problem};
ghost use Rattle.re_problem.specs.NamedProblems.{unnamed};
ghost use Rattle.re_step.specs.Derivations.{derivation};
ghost use Rattle.std.specs.List.{AllByRecursion, list_any, position_or_len};
ghost use Rattle.std.specs.Prelude.{◌≡◌, ◌≤◌, ◌<◌, [], IfOk, find, length, map, slice_index_or, true};

use crate::Table;
use crate::seen::{SeenRow, seen_rows};
use crate::sets::set_at;
use arrayvec::ArrayVec;
use re_labels::{LabelSet, MAX_LABELS, NoMemory, Placement, Placements, PortLabels, Row};
use re_problem::Problem;
use re_step::{Derived, place_of};
use std::alloc::Global;

// Whether the sets in this order of their places hold the other ones, place by place.
fn holds(sets: &[LabelSet], order: &[u8], others: &[LabelSet]) -> bool
    ensures { result ≡ covers (placed sets.now order.now) others.now }
{
    if order.len() != others.len() {
        return false;
    }
    for index in 0..order.len() {
        let set = set_at(sets, usize::from(order[index]));
        let other = others[index];
        if !other.within(set) {
            return false;
        }
    }
    true
}

// The first order of the row's places in which its sets hold the other ones.
fn first_order(row: &Row, others: &[LabelSet]) -> Option<Placement>
    ensures { result ≡ find (λ order. covers (placed row.now order) others.now) (placements (length row.now)) }
{
    let sets = row.sets();
    for placement in Placements::new(sets.len()) {
        if holds(sets, placement.places(), others) {
            return Some(placement);
        }
    }
    None
}

/// The row's sets in the first order of its places in which they hold the other ones, where there is one.
pub fn fitted(row: &Row, others: &[LabelSet]) -> ArrayVec<LabelSet, 6>
    ensures { result.items ≡ fitted row.now others.now }
{
    let mut fitted = ArrayVec::new();
    if let Some(placement) = first_order(row, others) {
        for place in placement.places() {
            fitted.push(set_at(row.sets(), usize::from(*place)));
        }
    }
    fitted
}

/// The place of the first of the rows that dominates the other one, where one of them does.
pub fn first_dominating(rows: &[Row], other: &Row) -> usize
    requires alike { AllByRecursion (λ row. length row ≡ length other.now) rows.now }
    requires some { list_any (λ row. dominates row other.now) rows.now ≡ true }
    ensures place { result ≡ position_or_len (λ row. dominates row other.now) rows.now }
    ensures within { result < length rows.now }
{
    for (index, row) in rows.iter().enumerate() {
        if row.dominates(other) {
            return index;
        }
    }
    unreachable!()
}

// The labels that stand for the sets of the first row that dominates these sets, in the order in which it holds them.
fn top_labels(rows: &[Row], sets: &[LabelSet], seen: &[LabelSet]) -> PortLabels
    requires two { 2 ≤ length seen.now }
    requires six { length seen.now ≤ 6 }
    requires few { length sets.now ≤ MAX_LABELS }
    requires seen { AllByRecursion (IsLabelSet MAX_LABELS) seen.now }
    requires full { is_full seen.now ≡ true }
    requires alike { AllByRecursion (λ row. length row ≡ length seen.now) rows.now }
    requires dominated { list_any (λ row. dominates row seen.now) rows.now ≡ true }
    ensures { result ≡ top_places rows.now sets.now seen.now }
{
    let Some(other) = Row::from_sets(seen) else {
        unreachable!();
    };
    let index = first_dominating(rows, &other);
    let top = fitted(&rows[index], seen);
    let mut labels: ArrayVec<u8, 6> = ArrayVec::new();
    for set in top.as_slice() {
        labels.push(place_of(sets, *set) as u8);
    }
    match PortLabels::new(labels.as_slice()) {
        Some(labels) => labels,
        None => unreachable!(),
    }
}

// The answers for all rows.
fn all_labels(
    alloc: Global,
    derived: &Derived,
    rows: &[SeenRow],
) -> Result<Vec<PortLabels>, NoMemory>
    requires few { length derived.now.sets ≤ MAX_LABELS }
    requires rows { AllByRecursion (IsSeen derived.now.rows) rows.now }
    ensures { IfOk result (λ answers. answers.items ≡ map (top_places derived.now.rows derived.now.sets) rows.now) }
{
    let mut answers = Vec::new(alloc);
    for row in rows {
        answers.push(top_labels(derived.rows.as_slice(), derived.sets.as_slice(), row.sets()))?;
    }
    Ok(answers)
}

/// The table with one round less for the derived problem, from one of at least 1 round that solves the problem (Brandt, PODC 2019).
/// Its answer at a passive view is found from the sets of labels that the neighbours may put on the edges: the first maximal row
/// that dominates these sets is taken, in the first order of its places in which it holds them, and each of its sets is answered
/// by its label. It goes once over the active views; then each passive view costs a test of rows, up to the first that dominates,
/// and of that row's orders.
pub fn faster(
    alloc: Global,
    problem: &Problem,
    derived: &Derived,
    table: &Table,
) -> Result<Table, NoMemory>
    requires active { table.now.degrees.active ≡ problem.now.active.degree }
    requires passive { table.now.degrees.passive ≡ problem.now.passive.degree }
    requires derived { derived.now ≡ derivation (unnamed problem.now) }
    requires rounds { 1 ≤ table.now.radius }
    requires solves { Solves (unnamed problem.now) table.now.radius (entries table.now) }
    ensures table { IfOk result (λ less. less ≡ faster_table (unnamed problem.now) table.now) }
    ensures solves { IfOk result (λ less. Solves (next_problem (unnamed problem.now)) less.radius (entries less)) }
{
    let _passive = problem.passive();
    let _names = derived.problem.names();
    let radius = table.radius();
    let degrees = table.degrees();
    let rows = seen_rows(alloc, table)?;
    let answers = all_labels(alloc, derived, rows.as_slice())?;
    match Table::build(degrees.swapped(), radius - 1, answers) {
        Some(less) => Ok(less),
        None => unreachable!(),
    }
}
