//! Maximal rows are kept until the boxes of each of them are covered.
ghost use Rattle.re_boxes.specs.Boxes.{IsStrength};
ghost use Rattle.re_boxes.specs.Growing.{IsLonger};
ghost use Rattle.re_labels.specs.Rows.{row_cmp};
ghost use Rattle.re_labels.specs.GoodRows.{max_rows};
ghost use Rattle.re_boxes.specs.Boxed.{AreBoxesCovered};
ghost use Rattle.re_boxes.specs.HeldStrength.{ups_in};
ghost use Rattle.re_step.specs.Completing.{AreRight};
ghost use Rattle.re_step.specs.Kept.{IsKept};
ghost use Rattle.std.specs.List.{AllByRecursion};
ghost use Rattle.std.specs.Prelude.{◌≡◌, ◌≤◌, ◌<◌, ℕ, List, Contains, IfErr, IfOk, OnOk, length, slice_index_or, []};

use crate::completing::Memo;
use crate::rows_fault::RowsFault;
use crate::settling::Found;
use re_boxes::{RowIndex, Strength, cover_configs, cover_row, row_order};
use re_labels::{Constraint, MAX_LABELS, MAX_ROWS, Row};
use std::alloc::Global;
use std::cmp::Ordering;

// The boxes of the row at this index of the list, if there is one, are covered then.
fn cover_row_at(
    constraint: &Constraint,
    strength: &Strength,
    found: &mut Found,
    index: usize,
) -> Result<(), RowsFault>
    requires strong { IsStrength constraint.now (ups_in strength.now.ups.items) }
    requires kept { IsKept constraint.now strength.now.labels MAX_ROWS found.old.rows.items }
    requires right { AreRight constraint.now strength.now.labels found.old.memo.slots.items }
    ensures kept { OnOk result (IsKept constraint.now strength.now.labels MAX_ROWS found.new.rows.items) }
    ensures right { OnOk result (AreRight constraint.now strength.now.labels found.new.memo.slots.items) }
    ensures longer { IsLonger found.old.rows.items found.new.rows.items }
    ensures past { length found.old.rows.items ≤ index → found.new.rows.items ≡ found.old.rows.items }
    ensures covered { OnOk result (index < length found.new.rows.items → AreBoxesCovered constraint.now (ups_in strength.now.ups.items) strength.now.labels found.new.rows.items (slice_index_or found.new.rows.items index [])) }
    ensures many { IfErr result (λ fault. fault ≡ RowsFault.TooManyRows → MAX_ROWS < length (max_rows constraint.now strength.now.labels)) }
{
    if index >= found.rows.len() {
        return Ok(());
    }
    let row = found.rows[index].copy();
    cover_row(constraint, strength, found, &row)
}

// The boxes of all rows of the list are covered then.
fn cover_rows(
    constraint: &Constraint,
    strength: &Strength,
    found: &mut Found,
) -> Result<(), RowsFault>
    requires strong { IsStrength constraint.now (ups_in strength.now.ups.items) }
    requires kept { IsKept constraint.now strength.now.labels MAX_ROWS found.old.rows.items }
    requires right { AreRight constraint.now strength.now.labels found.old.memo.slots.items }
    ensures kept { OnOk result (IsKept constraint.now strength.now.labels MAX_ROWS found.new.rows.items) }
    ensures right { OnOk result (AreRight constraint.now strength.now.labels found.new.memo.slots.items) }
    ensures longer { OnOk result (IsLonger found.old.rows.items found.new.rows.items) }
    ensures covered { OnOk result ((row : List (List ℕ)) → Contains found.new.rows.items row → AreBoxesCovered constraint.now (ups_in strength.now.ups.items) strength.now.labels found.new.rows.items row) }
    ensures many { IfErr result (λ fault. fault ≡ RowsFault.TooManyRows → MAX_ROWS < length (max_rows constraint.now strength.now.labels)) }
{
    for index in 0..MAX_ROWS {
        cover_row_at(constraint, strength, found, index)?;
    }
    Ok(())
}

// The order of rows.
fn order(row: &Row, other: &Row) -> Ordering
    ensures { result ≡ row_cmp row.now other.now }
{
    row_order(row, other)
}

// For how many labels the memo has places: it serves degree 3 alone, where two labels are left to complete.
fn remembered(degree: u8, labels: u8) -> u8
    ensures { result ≤ labels }
{
    if degree == 3 { labels } else { 0 }
}

/// The maximal rows of sets of labels below the number, in order, each once: the rows of nonempty sets of which each choice
/// of one label of each set is a configuration, and that no other such row dominates. (They are the configurations that a
/// half step of round elimination makes: Brandt, PODC 2019.) `TooManyRows` shows that there are more than `MAX_ROWS`, and
/// otherwise the list has them all. It takes room for `MAX_ROWS` + 1 rows at its start, and in degree 3 for a memo with 128 places
/// for each label, where each two labels have the labels that complete them; no other memory.
///
/// It keeps rows that were grown, label by label, until no label can be added. It begins with the configurations: the row of
/// what the labels of a configuration go up to grows to a kept row, where no kept row dominates it yet. Then, of each kept
/// row, place and label, it searches the box of the good rows that pass the row by this label there. A box that no kept row
/// dominates is parted by a choice that is no configuration, or is good and grows to a new row. With m rows of d sets of n
/// labels that is m * d * n boxes; how often one is parted has no bound but the number of choices, and is small for most
/// constraints. An index of the kept rows by their labels, of 110 KB on the stack, names a row that dominates a part, in
/// place of a walk over all of them.
pub fn maximal_rows(
    alloc: Global,
    constraint: &Constraint,
    labels: u8,
) -> Result<Vec<Row>, RowsFault>
    requires labels { labels ≤ MAX_LABELS }
    requires below { AllByRecursion (AllByRecursion (λ label. label < labels)) constraint.now.configs }
    ensures rows { IfOk result (λ rows. rows.items ≡ max_rows constraint.now labels) }
    ensures few { OnOk result (length (max_rows constraint.now labels) ≤ MAX_ROWS) }
    ensures many { result ≡ Err RowsFault.TooManyRows → MAX_ROWS < length (max_rows constraint.now labels) }
{
    let degree = constraint.degree();
    let strength = Strength::of(constraint, labels);
    let Ok(rows) = Vec::with_capacity(alloc, MAX_ROWS + 1) else {
        return Err(RowsFault::NoMemory);
    };
    let Ok(memo) = Memo::new(alloc, remembered(degree, labels)) else {
        return Err(RowsFault::NoMemory);
    };
    let mut found = Found {
        rows,
        lookup: RowIndex::new(),
        memo,
    };
    cover_configs(constraint, &strength, &mut found)?;
    cover_rows(constraint, &strength, &mut found)?;
    let mut rows = found.rows;
    rows.sort_unstable_by(order);
    Ok(rows)
}
