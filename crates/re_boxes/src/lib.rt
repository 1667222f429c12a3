//! Boxes of rows: what is left of a row, strength of labels, and the search for boxes that no row covers.
#![tactic(auto)]

mod box_laws;
mod boxing;
mod choosing;
mod holding;
mod indexing;
mod keeper;
mod ordering;
mod rest_laws;
mod searching;
mod sets;
mod spans;
mod strength;
mod strength_choosing;
mod visiting;
mod walking;

pub use box_laws::{boxes_law, grown_law, lacks_law, strength_law};
pub use boxing::{has_above, nothing, up_above};
pub use choosing::least_of;
pub use holding::dominates;
pub use indexing::{RowIndex, is_dominated, is_seen_dominated};
pub use keeper::Keeper;
pub use ordering::row_order;
pub use rest_laws::rest_law;
pub use sets::with_set;
pub use strength::Strength;
pub use strength_choosing::{bad_choice, strong_bad_choice};
pub use visiting::up_sets;
pub use walking::{cover_configs, cover_row};
