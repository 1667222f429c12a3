//! The order of rows.
ghost use Rattle.re_labels.specs.Rows.{row_cmp};
ghost use Rattle.std.specs.Prelude.{◌≡◌};

use re_labels::Row;
use std::cmp::Ordering;

/// The order of rows: lexicographic, by the numbers of their sets.
pub fn row_order(row: &Row, other: &Row) -> Ordering
    ensures { result ≡ row_cmp row.now other.now }
{
    row.sets().cmp(other.sets())
}
