//! The words `longest`, `shortest` and `cycle`: searches for a lower bound, an upper bound or a fixed point that goes on from a chain, alone or
//! where a solution of an input problem is given. And the words `relaxed` and `through`: a fixed point behind relaxations, or through a library.
#![tactic(auto)]

mod answering;
mod fitting;
mod lines;
mod relaxed_answering;
mod relaxed_words;
mod words;

pub use lines::{searched_limit, searched_output};
pub use relaxed_words::{RelaxedWord, relaxed_help, relaxed_word};
pub use words::{SearchWord, search_help, search_word};
