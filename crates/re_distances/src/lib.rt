//! How far words are from each other, letter by letter.
#![tactic(auto)]

mod distances;

pub use distances::distance;
