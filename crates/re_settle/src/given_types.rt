//! What is known of a problem given an input problem, and the words that show it.

use crate::types::{Shown, Way};

/// What is known of how many rounds a problem takes given an input problem, and the words that show it.
#[derive(Clone, Copy, Debug, PartialEq, Eq)]
pub enum SettledGiven {
    /// It takes exactly so many rounds, as one of the words shows.
    Exactly(Shown),
    /// No number of rounds solves it, as a fixed point or a finite graph shows.
    Never(Way),
    /// It takes more than the first number of rounds, and where a second one is known, at most that many.
    Within(Shown, Option<Shown>),
    /// It takes more than the first number of rounds, one more than are shown to be too few, since one more than these is of no use given that input;
    /// and where a last one is known, at most that many.
    Beyond(u8, Shown, Option<Shown>),
    /// It takes at most so many rounds, and no number is known to be too few.
    AtMost(Shown),
}
