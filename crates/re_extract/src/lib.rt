//! The algorithm that a certificate of an upper bound gives, and the same written out as a table.
#![tactic(auto)]

mod choosing;
mod extracting;
mod extractor;
mod sights;
mod upper_tables;
mod views;

ghost use Rattle.re_extract.specs.UpperTables.{UpperTableLaw};

pub use extractor::Extractor;
pub use upper_tables::upper_table;

/// The algorithm of an upper bound, written out, solves the first problem in as many rounds as there are steps. It holds for every
/// number of views, also where there are more than are listed and no table is made.
pub fn upper_table_law()
    ensures { UpperTableLaw }
{}
