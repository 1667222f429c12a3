//! The words `solve` and `cover`: solutions on finite graphs, and graphs without one.
#![tactic(auto)]

mod answering;
mod covering;
mod ends;
mod faults;
mod given_covering;
mod given_solving;
mod given_texts;
mod labels;
mod lines;
mod solving;
mod texts;
mod words;

pub use faults::{GraphFault, ReadFault};
pub use given_texts::{GivenGraph, LabelledGraph, read_labelled};
pub use solving::MAX_TRIES;
pub use texts::{GraphText, read_graph_text};
pub use words::{GraphWord, graph_help, graph_word};
