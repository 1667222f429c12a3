//! The words `fit`, `given`, `rounds` and `product`: problems and bounds where a solution of an input problem is given; bounds that go on from a chain.
//!
//! Whether a problem is solvable in one, two or three rounds, told from its own labels, without its derived problem.
#![tactic(auto)]

mod ahead_laws;
mod answering;
mod asking;
mod counting;
mod drawing;
mod going_on;
mod listing;
mod looking;
mod meetings;
mod multiplying;
mod one;
mod ordering;
mod rounds;
mod searching;
mod standing;
mod stopping;
mod three;
mod tuples;
mod two;
mod words;

pub use ahead_laws::{one_round_law, three_rounds_law, two_rounds_law};
pub use counting::{Counted, MAX_AHEAD, RoundsTexts, count, count_within};
pub use going_on::{extended_in, repeated_in, taken_law};
pub use looking::{Ahead, look_ahead};
pub use one::find_row;
pub use standing::Standing;
pub use two::{MAX_ROW_TRIES, Told, find_rows};
pub use words::{GivenWord, given_help, given_word};
