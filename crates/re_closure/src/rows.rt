//! The rows of lines: in place of each set the labels whose sets lie within it.
ghost use Rattle.re_closure.specs.Sides.{IsRowBefore, family_of, row_at};
ghost use Rattle.re_labels.specs.Rows.{row_cmp};
ghost use Rattle.re_labels.specs.declared.TheConstants.{MAX_ROWS};
ghost use Rattle.re_labels.specs.Lists.{IsRising};
ghost use Rattle.re_closure_laws.specs.Lines.{AreApart, IsFamily, below, labels_within, row_within};
ghost use Rattle.re_boxes.specs.Ordering.{is_row_before};
ghost use Rattle.re_labels.specs.GoodRows.{max_rows};
ghost use Rattle.std.specs.List.Sorted.{IsPermutation, IsSortedBy};
ghost use Rattle.std.specs.Prelude.{◌≡◌, ◌<◌, ◌≤◌, ◌-◌, ◌↔◌, Contains, IfOk, IsTrue, List, false, length, map, ℕ};
ghost use Rattle.std.specs.declared.cmp.Ordering.TheVariants.{Equal};

use crate::line::SetLine;
use crate::sets::labels_within;
use arrayvec::ArrayVec;
use re_boxes::row_order;
use re_labels::{LabelSet, MAX_LABELS, NoMemory, Row};
use std::alloc::Global;
use std::cmp::Ordering;

// The row of a line.
fn row_of(sets: &[LabelSet], line: &SetLine) -> Row
    requires few { length sets.now ≤ MAX_LABELS }
    requires two { 2 ≤ length line.now }
    requires there { (set : List ℕ) → Contains line.now set → Contains sets.now set }
    ensures { result ≡ row_within sets.now line.now }
{
    let mut held = ArrayVec::<LabelSet, 6>::new();
    for set in line.sets() {
        held.push(labels_within(sets, *set));
    }
    match Row::from_sets(held.as_slice()) {
        Some(row) => row,
        None => unreachable!(),
    }
}

// The rows of the lines, one after another.
fn rows_of(
    alloc: Global,
    degree: u8,
    lines: &[SetLine],
    sets: &[LabelSet],
) -> Result<Vec<Row>, NoMemory>
    requires family { IsFamily (family_of degree lines.now sets.now) }
    requires few { length sets.now ≤ MAX_LABELS }
    ensures { IfOk result (λ rows. rows.items ≡ map (row_within sets.now) lines.now) }
{
    let _degree = degree;
    let mut rows = Vec::new(alloc);
    for line in lines {
        rows.push(row_of(sets, line))?;
    }
    Ok(rows)
}

// The order of rows.
fn order(row: &Row, other: &Row) -> Ordering
    ensures { result ≡ row_cmp row.now other.now }
{
    row_order(row, other)
}

// The rows in order.
fn in_order(rows: Vec<Row>) -> Vec<Row>
    ensures same { IsPermutation rows.items result.items }
    ensures order { IsSortedBy is_row_before result.items }
{
    let mut all = rows;
    all.sort_unstable_by(order);
    all
}

// Whether the row at this place stands right before it too.
fn is_again(rows: &[Row], place: usize) -> bool
    requires { place < length rows.now }
    ensures again { IsTrue result → (0 < place) × (row_at rows.now (place - 1) ≡ row_at rows.now place) }
    ensures anew { result ≡ false → 0 < place → row_cmp (row_at rows.now (place - 1)) (row_at rows.now place) ≡ Equal → ⊥ }
{
    if place == 0 {
        return false;
    }
    let before = &rows[place - 1];
    let row = &rows[place];
    let _before = before.sets();
    let _row = row.sets();
    order(before, row) == Ordering::Equal
}

// Each of the rows once, where they are in order.
fn without_repeats(alloc: Global, rows: &[Row]) -> Result<Vec<Row>, NoMemory>
    requires { IsSortedBy is_row_before rows.now }
    ensures rises { IfOk result (λ once. IsRising IsRowBefore once.items) }
    ensures same { IfOk result (λ once. (row : List (List ℕ)) → Contains once.items row ↔ Contains rows.now row) }
    ensures few { IfOk result (λ once. length once.items ≤ length rows.now) }
{
    let mut once = Vec::new(alloc);
    for place in 0..rows.len() {
        if !is_again(rows, place) {
            once.push(rows[place].copy())?;
        }
    }
    Ok(once)
}

/// The maximal rows of what lies below the lines: their rows, each once, in order. It sorts them.
pub(crate) fn maximal_of(
    alloc: Global,
    degree: u8,
    lines: &[SetLine],
    sets: &[LabelSet],
) -> Result<Vec<Row>, NoMemory>
    requires family { IsFamily (family_of degree lines.now sets.now) }
    requires apart { AreApart lines.now }
    requires few { length sets.now ≤ MAX_LABELS }
    requires few_lines { length lines.now ≤ MAX_ROWS }
    ensures rows { IfOk result (λ rows. rows.items ≡ max_rows (below (family_of degree lines.now sets.now)) (length sets.now)) }
    ensures few { IfOk result (λ rows. length rows.items ≤ MAX_ROWS) }
{
    let rows = rows_of(alloc, degree, lines, sets)?;
    let all = in_order(rows);
    without_repeats(alloc, all.as_slice())
}
