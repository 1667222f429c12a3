//! The words of `explore` that begin chains, give their last problems, and shape them.
#![tactic(auto)]

mod answering;
mod labels;
mod shaping;
mod words;

pub use labels::LabelWord;
pub use words::{ChainWord, Shaping, chain_help, chain_word};
