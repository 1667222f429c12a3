//! The texts of tables: a problem, perhaps the next one, and the answers of an algorithm, one view a line.
#![tactic(auto)]

mod laws;
mod printing;
mod reading;
mod sections;
mod table_texts;

pub use laws::table_text_law;
pub use printing::print_table;
pub use table_texts::{TableForm, TableInput, read_table};

/// The largest radius that the text of a table may name.
pub const MAX_RADIUS: u8 = 64;
