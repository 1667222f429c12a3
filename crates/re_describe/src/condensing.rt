//! A constraint in few rows.
ghost use Rattle.re_describe.specs.Spelling.{AreAlone, AreApart, AreSources, AreTaken, Condenses, Spells, TakesIn};
ghost use Rattle.re_labels.specs.Constraints.{IsConstraint};
ghost use Rattle.re_labels.specs.GoodRows.{IsDominated, is_dominated};
ghost use Rattle.std.specs.Prelude.{◌≡◌, ◌≤◌, ◌∷◌, [], ℕ, Contains, IfOk, List, OnOk, length, option_map};

use re_boxes::{dominates, row_order};
use re_labels::{Constraint, MAX_LABELS, NoMemory, Row};
use re_step::{RowsFault, maximal_rows};
use std::alloc::Global;
use std::cmp::Ordering;

/// The most configurations of a constraint that is listed.
pub const MOST_LISTED: usize = 4096;

// How many choices the row has, or the greatest number where it has more.
fn size_of(row: &Row) -> u64 {
    let mut size: u64 = 1;
    for set in row.sets() {
        size = size.saturating_mul(u64::from(set.count()));
    }
    size
}

// The rows of many choices first, and rows of equally many in the order of rows.
fn larger_first(row: &Row, other: &Row) -> Ordering {
    match size_of(other).cmp(&size_of(row)) {
        Ordering::Equal => row_order(row, other),
        order => order,
    }
}

// Each configuration as a row of its own.
fn rows_alone(alloc: Global, constraint: &Constraint) -> Result<Vec<Row>, NoMemory>
    ensures { IfOk result (λ rows. Spells constraint.now rows.items × AreAlone constraint.now rows.items) }
{
    let _degree = constraint.degree();
    let mut rows = Vec::new(alloc);
    for place in 0..constraint.len() {
        let Some(config) = constraint.get(place) else {
            unreachable!();
        };
        rows.push(Row::of_config(config))?;
    }
    Ok(rows)
}

// Rows that spell the constraint: the maximal ones, or each configuration where they are more than 1024.
fn spelling(alloc: Global, constraint: &Constraint, labels: u8) -> Result<Vec<Row>, NoMemory>
    requires labels { labels ≤ MAX_LABELS }
    requires constraint { IsConstraint labels constraint.now }
    ensures { IfOk result (λ rows. AreSources constraint.now labels rows.items) }
{
    match maximal_rows(alloc, constraint, labels) {
        Ok(rows) => Ok(rows),
        Err(RowsFault::TooManyRows) => rows_alone(alloc, constraint),
        Err(RowsFault::NoMemory) => Err(NoMemory),
    }
}

// The first row of the list that dominates this one.
fn top_of<'a>(rows: &'a [Row], row: &Row) -> &'a Row
    requires alike { (top : List (List ℕ)) → Contains rows.now top → length top ≡ length row.now }
    requires some { IsDominated rows.now row.now }
    ensures listed { Contains rows.now result.now }
    ensures dominated { IsDominated (result.now ∷ []) row.now }
{
    for top in rows {
        if dominates(top, row) {
            return top;
        }
    }
    unreachable!()
}

// Whether a row of the list dominates this one.
fn has_top(rows: &[Row], row: &Row) -> bool
    requires { (top : List (List ℕ)) → Contains rows.now top → length top ≡ length row.now }
    ensures { result ≡ is_dominated rows.now row.now }
{
    for top in rows {
        if dominates(top, row) {
            return true;
        }
    }
    false
}

// The list has a row that dominates this one then: it has one already, or the first one of the others that does comes behind.
fn take_in(few: &mut Vec<Row>, others: &[Row], row: &Row) -> Result<(), NoMemory>
    requires alike { (top : List (List ℕ)) → Contains few.old.items top → length top ≡ length row.now }
    requires others_alike { (top : List (List ℕ)) → Contains others.now top → length top ≡ length row.now }
    requires some { IsDominated others.now row.now }
    ensures { OnOk result (TakesIn others.now few.old.items few.new.items row.now) }
{
    if has_top(few.as_slice(), row) {
        return Ok(());
    }
    Ok(few.push(top_of(others, row).copy())?)
}

// Few of the rows that spell the constraint and still spell it: the first ones that have a configuration of which none before has it.
fn covering(alloc: Global, constraint: &Constraint, rows: &[Row]) -> Result<Vec<Row>, NoMemory>
    requires spells { Spells constraint.now rows.now }
    requires apart { AreApart rows.now }
    ensures { IfOk result (λ few. AreTaken constraint.now rows.now few.items) }
{
    let _degree = constraint.degree();
    let mut few: Vec<Row> = Vec::new(alloc);
    for place in 0..constraint.len() {
        let Some(config) = constraint.get(place) else {
            unreachable!();
        };
        let row = Row::of_config(config);
        take_in(&mut few, rows, &row)?;
    }
    Ok(few)
}

/// The groups of a constraint, rows that spell it: every choice of one label of each set is a configuration, and each configuration is such a
/// choice. They are maximal rows, few of them, those of many choices first; or each configuration alone, where there are more than 1024
/// maximal rows. None stands twice, or dominates another one. None exactly where there are more than `MOST_LISTED` configurations. It costs what `maximal_rows` costs, and a walk
/// over these rows for each configuration.
pub fn condensed(
    alloc: Global,
    constraint: &Constraint,
    labels: u8,
) -> Result<Option<Vec<Row>>, NoMemory>
    requires labels { labels ≤ MAX_LABELS }
    requires constraint { IsConstraint labels constraint.now }
    ensures { IfOk result (λ rows. Condenses constraint.now labels (option_map (λ few. few.items) rows)) }
{
    if constraint.len() > MOST_LISTED {
        return Ok(None);
    }
    let mut rows = spelling(alloc, constraint, labels)?;
    rows.sort_unstable_by(larger_first);
    let mut few = covering(alloc, constraint, rows.as_slice())?;
    few.sort_unstable_by(larger_first);
    Ok(Some(few))
}
