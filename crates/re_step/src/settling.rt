//! A list of maximal rows, to which good sets that no row dominates add the row that they grow to.
ghost use Rattle.re_boxes.specs.Boxes.{IsStrength};
ghost use Rattle.re_boxes.specs.HeldStrength.{ups_in};
ghost use Rattle.re_boxes.specs.Sets.{AreSets};
ghost use Rattle.re_labels.specs.GoodRows.{IsDominated, IsGood, max_rows};
ghost use Rattle.re_boxes.specs.Growing.{IsLonger};
ghost use Rattle.re_step.specs.Completing.{AreRight};
ghost use Rattle.re_step.specs.Kept.{IsKept};
ghost use Rattle.std.specs.Prelude.{◌≡◌, ◌<◌, ◌↔◌, Contains, IfErr, IsTrue, OnOk, length, true};

use crate::completing::Memo;
use crate::growing::grown;
use crate::rows_fault::RowsFault;
use re_boxes::{Keeper, RowIndex, Strength, is_seen_dominated, row_order};
use re_labels::{Constraint, LabelSet, MAX_ROWS, Row};
use std::cmp::Ordering;

// Whether the last sets are the same. Rows that end in different sets differ, and most do.
fn end_alike(row: &Row, other: &Row) -> bool
    ensures { row.now ≡ other.now → result ≡ true }
{
    let sets = row.sets();
    let others = other.sets();
    sets[sets.len() - 1].number() == others[others.len() - 1].number()
}

// Whether the row is one of the list.
fn is_listed(rows: &[Row], row: &Row) -> bool
    ensures { IsTrue result ↔ Contains rows.now row.now }
{
    let _sets = row.sets();
    for other in rows {
        let _others = other.sets();
        if end_alike(row, other) {
            if row_order(row, other) == Ordering::Equal {
                return true;
            }
        }
    }
    false
}

/// The maximal rows found so far, with an index of their labels.
#[derive(Drop)]
pub(crate) struct Found {
    pub(crate) rows: Vec<Row>,
    pub(crate) lookup: RowIndex,
    pub(crate) memo: Memo,
}

impl Keeper for Found {
    ghost use Rattle.re_labels.specs.declared.TheConstants.{MAX_ROWS};
    ghost use Rattle.re_step.specs.Completing.{AreRight};
    ghost use Rattle.re_step.specs.declared.rows_fault.RowsFault.{RowsFault};

    type Refusal = RowsFault;

    ghost rows = { λ found. found.rows.items };

    ghost most = { λ found. MAX_ROWS };

    ghost serves = { λ found constraint n. IsKept constraint n MAX_ROWS found.rows.items × AreRight constraint n found.memo.slots.items };

    ghost tells = { λ found constraint n fault. fault ≡ RowsFault.TooManyRows → MAX_ROWS < length (max_rows constraint n) };

    fn sees_dominated(&self, sets: &[LabelSet]) -> bool {
        is_seen_dominated(self.rows.as_slice(), &self.lookup, sets)
    }

    // The sets grow to a row, which is kept where it isn't listed yet.
    fn settle(
        &mut self,
        constraint: &Constraint,
        strength: &Strength,
        sets: &[LabelSet],
    ) -> Result<(), RowsFault> {
        let _degree = constraint.degree();
        let row = grown(constraint, strength, &mut self.memo, sets);
        if is_listed(self.rows.as_slice(), &row) {
            return Ok(());
        }
        self.lookup.add(&row);
        if let Err(_) = self.rows.push(row) {
            return Err(RowsFault::NoMemory);
        }
        if self.rows.len() > MAX_ROWS {
            return Err(RowsFault::TooManyRows);
        }
        Ok(())
    }
}
