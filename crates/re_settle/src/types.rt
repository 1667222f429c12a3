//! What is known of a problem, and the words that show it.

use re_evidence::Most;
use re_labels::Side;

/// Words whose answer to a problem shows something of it.
#[derive(Clone, Copy, Debug, PartialEq, Eq)]
pub enum Way {
    /// `re zero`: it is solvable without communication.
    Zero,
    /// `explore flexible`: no set of labels is flexible, so that no number of rounds is enough with port numbers alone; or no label is left by
    /// trimming.
    Flexible,
    /// `re lower K M`: a lower bound of K steps with at most M merges in each.
    Lower(u8, u8),
    /// `re upper K M`: an upper bound of at most K steps, in each of which at most M labels are left out.
    Upper(u8, u8),
    /// `re fixed K M`: a fixed point of at most K steps with at most M merges in each.
    Fixed(u8, u8),
    /// `explore closure`: the fixed point of its closure; or behind 1 step, or as many as are named.
    Closure(u8),
    /// `explore closure` on the problem with a line `== diagram` behind it, and one with the names of the labels of these numbers, the lower one
    /// first: the fixed point of the closure of the problem that this diagram raises.
    Raised(u8, u8),
    /// `explore merge X Y`, and on what it gives `explore closure`, X and Y being the names of the labels of these numbers: the fixed point of
    /// the closure behind the step to the derived problem of the problem in which X has become Y.
    Merge(u8, u8),
    /// `explore cover M`: a graph of at most M active nodes without a solution.
    Cover(u8),
    /// `explore cycle K M N`: a fixed point of at most K steps with at most M merges in each, of at most N problems that are looked at.
    Cycle(u8, u8, u32),
    /// `explore relaxed N`: a fixed point behind a relaxation, of at most N that are looked at.
    Relaxed(u32),
    /// `explore through`: a fixed point behind a step to one of its library.
    Through,
    /// `explore rounds K`: how many rounds it takes, where these are at most K, or more than how many, as far as steps go and the
    /// problem before a step that passes a limit tells.
    Rounds(u8),
    /// `explore longest K L`: a lower bound of at most K steps, each to a problem of at most L labels.
    Longest(u8, u8),
    /// `explore shortest K L`: an upper bound of at most K steps, each to a problem of at most L labels.
    Shortest(u8, u8),
}

/// Words whose answer to a problem, given a proper colouring, shows that some number of rounds is enough.
#[derive(Clone, Copy, Debug, PartialEq, Eq)]
pub enum ColouredWay {
    /// `explore rounds K`: at most K rounds.
    Rounds(u8),
    /// `explore shortest K L`: an upper bound of at most K steps, each to a problem of at most L labels.
    Shortest(u8, u8),
}

/// Words that show that some number of rounds is enough given a proper colouring with so many colours, of active nodes or of passive ones, which are
/// edges where they have two ends.
#[derive(Clone, Copy, Debug, PartialEq, Eq)]
pub struct Coloured {
    pub side: Side,
    pub colours: u8,
    pub way: ColouredWay,
}

/// A number of rounds, and the words that show it.
#[derive(Clone, Copy, Debug, PartialEq, Eq)]
pub struct Shown {
    pub rounds: u8,
    pub way: Way,
}

/// What is known of how many rounds a problem takes, and the words that show it.
#[derive(Clone, Copy, Debug, PartialEq, Eq)]
pub enum Settled {
    /// It has no solution: trimming leaves no label.
    Unsolvable,
    /// It takes exactly so many rounds, as one of the words shows.
    Exactly(Shown),
    /// No number of rounds solves it, as the words show: a fixed point, a finite graph without a solution, or that no set of labels is flexible.
    Never(Way),
    /// It takes more than the first number of rounds, and where a second one is known, at most that many.
    Within(Shown, Option<Shown>),
}

/// What is found of the class of a problem that no number of rounds is known to solve, besides what shows what is claimed.
#[derive(Clone, Copy, Debug, PartialEq, Eq)]
pub enum Further {
    /// Nothing.
    Nothing,
    /// It takes the order of N, since it has one level of labels alone.
    Linear,
    /// It takes at most the order of log* N: some number of rounds is enough given a proper colouring of one side with one colour more than a node of
    /// this side meets others.
    FewColours(Coloured),
    /// It takes at most the order of log* N: it, or a problem at most 2 derived ones behind it, is greedy, as `explore greedy` shows.
    Greedy,
    /// It takes at least the order of log N, as a fixed point shows.
    FixedPoint(Way),
}

/// What is known of a problem, and what its levels of labels add to it.
#[derive(Clone, Copy, Debug, PartialEq, Eq)]
pub struct Classified {
    /// What is known of how many rounds it takes.
    pub settled: Settled,
    /// What is found of its class besides.
    pub further: Further,
    /// At most how many rounds it takes with identifiers, where a set of its labels is flexible.
    pub above: Option<Most>,
    /// How many levels of labels it has, where no set is flexible and the literature tells the number of rounds by it.
    pub length: Option<u8>,
}
