//! The boxes of the rows of a list, and the rows of the configurations.
ghost use Rattle.re_boxes.specs.UpRows.{AreUpRows};
ghost use Rattle.re_boxes.specs.Boxes.{IsStrength};
ghost use Rattle.re_boxes.specs.Boxed.{AreBoxesCovered, AreConfigsDominated};
ghost use Rattle.re_boxes.specs.HeldStrength.{ups_in};
ghost use Rattle.re_labels.specs.GoodRows.{max_rows};
ghost use Rattle.std.specs.List.{AllByRecursion};
ghost use Rattle.std.specs.Prelude.{◌≡◌, ◌<◌, ℕ, List, Contains, MatchBool, length};

use re_boxes::{
    Keeper, RowIndex, Strength, cover_configs, cover_row, is_dominated, is_seen_dominated,
};
use re_labels::{Constraint, LabelSet, Row};

// Good sets are dominated by no row of the list.
#[derive(Clone, Copy)]
struct Missing;

// A list of rows that stays as it is, with an index of their labels.
#[derive(Clone, Copy)]
struct Listed<'a> {
    rows: &'a [Row],
    lookup: &'a RowIndex,
}

impl<'a> Keeper for Listed<'a> {
    type Refusal = Missing;

    ghost rows = { λ listed. listed.rows.now };

    ghost most = { λ listed. length listed.rows.now };

    ghost serves = { λ listed constraint n. (row : List (List ℕ)) → Contains listed.rows.now row → length row ≡ constraint.degree };

    ghost tells = { λ listed constraint n refusal. listed.rows.now ≡ max_rows constraint n → ⊥ };

    fn sees_dominated(&self, sets: &[LabelSet]) -> bool {
        is_seen_dominated(self.rows, self.lookup, sets)
    }

    fn settle(
        &mut self,
        constraint: &Constraint,
        _strength: &Strength,
        sets: &[LabelSet],
    ) -> Result<(), Missing> {
        let _degree = constraint.degree();
        if is_dominated(self.rows, self.lookup, sets) {
            return Ok(());
        }
        Err(Missing)
    }
}

// Whether the boxes of a row of the list are covered.
fn is_row_covered(
    constraint: &Constraint,
    strength: &Strength,
    rows: &[Row],
    lookup: &RowIndex,
    row: &Row,
) -> bool
    requires strong { IsStrength constraint.now (ups_in strength.now.ups.items) }
    requires rows { AreUpRows constraint.now (ups_in strength.now.ups.items) strength.now.labels rows.now }
    requires row { Contains rows.now row.now }
    ensures { MatchBool result
        (AreBoxesCovered constraint.now (ups_in strength.now.ups.items) strength.now.labels rows.now row.now)
        (rows.now ≡ max_rows constraint.now strength.now.labels → ⊥) }
{
    let mut listed = Listed { rows, lookup };
    cover_row(constraint, strength, &mut listed, row).is_ok()
}

/// Whether the boxes of each row of the list are covered.
pub(crate) fn are_rows_covered(
    constraint: &Constraint,
    strength: &Strength,
    rows: &[Row],
    lookup: &RowIndex,
) -> bool
    requires strong { IsStrength constraint.now (ups_in strength.now.ups.items) }
    requires rows { AreUpRows constraint.now (ups_in strength.now.ups.items) strength.now.labels rows.now }
    ensures { MatchBool result
        ((row : List (List ℕ)) → Contains rows.now row → AreBoxesCovered constraint.now (ups_in strength.now.ups.items) strength.now.labels rows.now row)
        (rows.now ≡ max_rows constraint.now strength.now.labels → ⊥) }
{
    for row in rows {
        if !is_row_covered(constraint, strength, rows, lookup, row) {
            return false;
        }
    }
    true
}

/// Whether each configuration, with what its labels go up to, is dominated by a row of the list.
pub(crate) fn are_configs_dominated(
    constraint: &Constraint,
    strength: &Strength,
    rows: &[Row],
    lookup: &RowIndex,
) -> bool
    requires strong { IsStrength constraint.now (ups_in strength.now.ups.items) }
    requires rows { AreUpRows constraint.now (ups_in strength.now.ups.items) strength.now.labels rows.now }
    requires below { AllByRecursion (AllByRecursion (λ label. label < strength.now.labels)) constraint.now.configs }
    ensures { MatchBool result
        (AreConfigsDominated constraint.now (ups_in strength.now.ups.items) rows.now)
        (rows.now ≡ max_rows constraint.now strength.now.labels → ⊥) }
{
    let mut listed = Listed { rows, lookup };
    cover_configs(constraint, strength, &mut listed).is_ok()
}
