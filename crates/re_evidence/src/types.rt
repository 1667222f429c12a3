//! What is said of how many rounds a problem takes, with port numbers alone and with unique identifiers.

/// How many rounds a problem takes.
#[derive(Clone, Copy, Debug, PartialEq, Eq)]
pub enum Claim {
    /// So many rounds solve it, and no fewer do.
    Exactly(u8),
    /// No number of rounds solves it.
    Never,
    /// It isn't solvable in so many rounds or fewer.
    MoreThan(u8),
    /// So many rounds solve it.
    AtMost(u8),
    /// It isn't solvable in the first number of rounds or fewer, and the second solves it.
    Between(u8, u8),
}

/// At least how many rounds a problem takes with N unique identifiers, as N grows.
#[derive(Clone, Copy, Debug, PartialEq, Eq)]
pub enum Least {
    /// More than so many, from some N on.
    MoreThan(u8),
    /// At least log* N, less a constant.
    LogStar,
    /// At least the order of log N.
    Log,
}

/// At most how many rounds.
#[derive(Clone, Copy, Debug, PartialEq, Eq)]
pub enum Most {
    /// At most the order of log* N.
    LogStar,
    /// At most the order of log N.
    Log,
}

/// The order of the number of rounds.
#[derive(Clone, Copy, Debug, PartialEq, Eq)]
pub enum Order {
    /// That of log* N.
    LogStar,
    /// That of log N.
    Log,
    /// That of N.
    Linear,
}

/// How many rounds a problem takes with N unique identifiers, as N grows.
#[derive(Clone, Copy, Debug, PartialEq, Eq)]
pub enum Class {
    /// No number is enough from some N on: there is no solution.
    NoSolution,
    /// A constant number, of which the claim says more.
    Constant(Claim),
    /// So many, but for a constant factor.
    Order(Order),
    /// At least so many, and where it is known, at most so many.
    Bounds(Least, Option<Most>),
    /// At most so many, and nothing is known from below.
    AtMost(Most),
}
