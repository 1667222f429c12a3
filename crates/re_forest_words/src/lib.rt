//! The words on finite forests: `flexible`, a flexible set of labels of a problem, or how many levels of labels it has; `greedy`, what shows that a problem
//! can be labelled one node after another.
#![tactic(auto)]

mod answering;
mod greedy_answering;
mod greedy_lines;
mod lines;
mod showing;
mod words;

pub use greedy_answering::greedy_means_law;
pub use lines::{push_labels, push_name};
pub use showing::{Showing, Shown, greedy_behind, shown_law};
pub use words::{ForestWord, forest_help, forest_word};
