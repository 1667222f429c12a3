//! Algorithms written out as tables: whether one solves a problem, and the tables with one round less and more.
//!
//! How many views there are, and the place of each among all of them.
#![tactic(auto)]

mod answers;
mod counting;
mod laws;
mod place_laws;
mod placing;
mod seen;
mod sets;
mod slowing;
mod solving;
mod speeding;
mod table;

pub use counting::{MAX_VIEWS, view_count};
pub use laws::{given_law, seen_law, verdict_law};
pub use place_laws::{fewer_views_law, place_law};
pub use placing::view_place;
pub use sets::set_at;
pub use slowing::{SlowerFault, slower};
pub use solving::{TableVerdict, solves};
pub use speeding::{faster, first_dominating, fitted};
pub use table::Table;
