//! The words that judge a bound given an input problem.

/// A word that reads a problem or a bound, and an input problem of its first problem.
#[derive(Clone, Copy, Debug, PartialEq, Eq)]
pub enum BoundWord {
    /// `fit`: whether the last problem is solvable in 0 rounds given the input problem, exchanged as often as there are steps.
    Fit,
    /// `given`: the verdict on the bound given the input problem.
    Given,
}
