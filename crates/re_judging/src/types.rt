//! Parts of evidence, what each says of a problem, and what they say together.

use re_frame::Output;
use re_labels::Side;
use re_problem::Problem;

/// What one part of evidence says of a problem.
#[derive(Clone, Copy, Debug, PartialEq, Eq)]
pub enum Fact {
    /// It isn't solvable in so many rounds or fewer.
    MoreThan(u8),
    /// So many rounds solve it.
    AtMost(u8),
    /// No number of rounds solves it.
    Never,
    /// No number does, and with N identifiers the order of log N is a bound below.
    FixedPoint,
    /// Some number of rounds is enough given a proper colouring of this side with one colour more than a node of it meets others.
    FewColours(Side),
    /// A set of its labels is flexible.
    Flexible,
    /// No set is, and it has so many levels of labels.
    Length(u8),
    /// It has no level of labels.
    NoSolution,
    /// Nothing that holds without that input.
    Nothing,
}

/// What parts of evidence say of a problem together. Where nothing is known of a number or a side there is none.
#[derive(Clone, Copy, Debug, PartialEq, Eq)]
pub struct Known {
    /// It isn't solvable in so many rounds or fewer.
    pub more: Option<u8>,
    /// So many rounds solve it.
    pub most: Option<u8>,
    /// No number of rounds solves it.
    pub never: bool,
    /// With identifiers the order of log N is a bound below.
    pub log: bool,
    /// Some number of rounds is enough given few colours of this side.
    pub few: Option<Side>,
    /// A set of labels is flexible.
    pub flexible: bool,
    /// There is one level of labels alone.
    pub linear: bool,
    /// There is no level of labels.
    pub unsolvable: bool,
}

/// What a part of evidence holds.
#[derive(Clone, Copy, Debug, PartialEq, Eq)]
pub enum PartKind {
    /// A certificate: `re check` judges it.
    Certificate,
    /// A bound and an input problem: `explore given` judges them.
    Given,
    /// A problem and a graph: `explore solve` finds that it has no solution there.
    Graph,
    /// A problem and a number of levels of labels.
    Length,
    /// A problem and a set of labels: the set is flexible.
    Flexible,
    /// A chain of upper steps and multisets of labels: with them the last problem is greedy from one side.
    Greedy,
}

/// The problem of a part of evidence, and what the part says of it.
#[derive(Drop)]
pub struct Part {
    pub problem: Problem,
    pub fact: Fact,
}

/// What comes of a part of evidence.
#[derive(Drop)]
pub enum Judged {
    /// It says this.
    Holds(Part),
    /// It says nothing, for this reason.
    Refused(Output),
}
