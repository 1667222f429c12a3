//! What words ask: an input problem that they name behind their own words, and which words wrong ones are near to.
#![tactic(auto)]

mod beside;
mod beside_words;
mod near_words;
mod wrong_words;

pub use beside::{Beside, FrontText};
pub use beside_words::{NamedInput, named_input, own_words};
pub use near_words::{has_own_line, push_near_words, push_own_lines};
pub use wrong_words::wrong_word;
