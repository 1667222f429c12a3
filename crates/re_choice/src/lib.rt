//! Choices of labels: the first choice of one label of each of some sets that is a configuration.
#![tactic(auto)]

mod choice;
mod labels;

pub use choice::{are_sets, first_choice, fixed};
pub use labels::are_labels;
