//! How many rounds a problem takes with port numbers alone, and its class with unique identifiers, also on finite forests, as far as its levels of
//! labels and searches with fixed limits tell, and the words whose answers show it. What shows the claim is one thing, what shows more of the class
//! another: the claim is told before more of the class is looked for. The labels that trimming takes away are named.
//!
//! **Levels of labels** come before any search. Where trimming leaves no label, there is no solution, and nothing else is said. Where no set of
//! labels is flexible, no number of rounds is enough with port numbers alone, and with N identifiers the order of log N is a bound below; where there
//! is one level alone, the problem takes the order of N; and nothing else is tried. Where a degree is 2, what the literature says of more levels
//! stands in a line of its own. Where a set of labels is flexible the searches tell what they tell, and it adds a bound above on finite forests: the
//! order of log N, or of log* N where both degrees are 2.
//!
//! **Order.** Cheap ways of all kinds come first, whatever the problem's size; each way has a bound on its work, which is none on its time: so the
//! answer is the same on every machine. What is said of N is multiplied by N in `settle N`. The claim is settled by the first of these:
//!
//! 1. Whether the problem is solvable without communication.
//! 2. A fixed point of at most 4 steps without merges; one behind one of the first 16 N relaxations; a graph of at most 4 active nodes without a
//!    solution, which comes first where a passive node has more than two neighbours and the problem more than 32 N configurations.
//! 3. Its number of rounds, where this is at most `MAX_ROUNDS` and no step on the way passes a limit, or one does and the problem before it, or
//!    the one before that, tells of one round more, or two.
//! 4. A fixed point: of the closure of the problem; of that behind 1 or 2 steps, where the closures before are solvable without communication and the
//!    problems have at most 16 labels and 64 N configurations; behind a step to the library of `through`; behind one of the first 200 N relaxations;
//!    where the problem has at most 8 labels, of the closure behind a merge of two of them in the problem itself, with the same bounds; of the
//!    closure with a diagram of one edge, of at most 8 labels and 32 N configurations; of at most 8 steps with at most 1 merge in each, among the
//!    first 300 N problems, where the first four derived problems have at most 40 N configurations each.
//! 5. A graph without a solution of at most 64 active nodes that gadgets make in 1,000,000 N steps, 50,000,000 at most.
//! 6. Two bounds. The longest one of the rounds that were counted, of the steps behind it and of what `longest` finds, with 8 steps and 8 more for
//!    each doubling of N, to problems of 12 labels in degrees up to 3, 8 in degree 4, 6 in degree 5 and 5 in degree 6, and 4, 2, 1 and 1 more for
//!    each doubling. In degrees 5 and 2, of at most 8 N configurations, what `shortest 6 20` finds. Else what `shortest` finds, with 12 steps and 8
//!    more for each doubling, to 8, 6, 4 and 4 labels, and 4, 2, 1 and 1 more for each doubling. Where the two don't meet, and `MAX_ROUNDS` are too few,
//!    rounds are counted up to `MORE_ROUNDS`, and where a step passes a limit, the problem before it, or the one before that, tells of up to three
//!    rounds more.
//!
//! Where a graph settles it, or no upper bound is found, and the degrees aren't both 2, more is found of the class by the first of these: whether the
//! problem, or one of the two derived ones behind it, is greedy, as `explore greedy` finds; and then, behind a graph alone, whether some number of
//! rounds, at most 8, is enough given few colours of nodes, by problems of at most 16 labels, or of edges, by problems of at most 8; behind a graph of
//! at most 4 nodes the fixed points of 4; of a problem of at most 8 N configurations what `shortest` finds given few colours of nodes, with 8 steps
//! and 8 more for each doubling of N, and the labels that it has above; that number of rounds given them by problems of at most 24 labels; what
//! `shortest` finds given few colours of edges, where that input problem has at most 64 N configurations.
//!
//! What is found is accepted by `check`, and its text is no longer than one that is read; or it is a count of rounds, or a graph without a
//! solution. Where a text is too long, the way counts as one that finds nothing; for an upper bound without labels left out one with few labels
//! is looked for, and where no lower bound has a text, `re zero` shows that 0 rounds aren't enough. Where nothing is found, nothing is known.
//!
//! How many rounds a problem takes where a solution of an input problem is given, as far as searches with fixed limits find out, and the words
//! whose answers show it.
//!
//! **Order.** Each way has a bound on its work, which is none on its time: so the answer is the same on every machine. What is said of N is
//! multiplied by N in `settle N`.
//!
//! 1. Whether 0 rounds are enough.
//! 2. The fixed point of the closure of the problem, where `given` accepts it; and a graph of at most 4 active nodes, or 3 where a degree
//!    is 6, on which the problem has no solution and the input problem has one.
//! 3. Where 0 rounds are too few, the number of rounds, where this is at most `re_settle::MAX_ROUNDS` and no step on the way passes a limit or
//!    starts from a problem of more than 64 labels. As many rounds as are counted to be too few are known.
//! 4. An upper bound: what `shortest` finds, where the problem has at most 12 N configurations. Its numbers of steps and labels, and those of
//!    `longest` below, are those of a problem alone; so are the problems in degrees 5 and 2 on which `shortest 6 20` comes first, but for those of
//!    which a graph of at most 4 active nodes shows that no number of rounds solves them alone.
//! 5. Where no upper bound is found, a fixed point of at most 8 steps with at most 1 merge in each, among the first 300 N problems, where the first
//!    four derived problems have at most 40 N configurations each; and a graph of at most 64 active nodes that gadgets make in 1,000,000 N steps,
//!    or 100,000 N where a degree is 5 or more, 50,000,000 at most.
//! 6. Where a question is left, the first two derived problems have at most 160 N configurations each, and the input problem has at most 12 N, the
//!    longer lower bound of the rounds that are too few and of what `longest` finds: to problems of 4 labels, and where that has fewer steps than
//!    it may and three derived problems pass no limit, to problems of as many labels as alone.
//!
//! Where r rounds are too few, and the labels of the input problem, with its sides exchanged r times, tell the passive configurations in which they
//! stand, so are r + 1 (`re_given_bounds`).
//!
//! What is found is accepted by `given`, and its text with the input problem is no longer than one that is read; or it is a count of rounds, or a
//! graph with a solution of the input problem. Where a text is too long, the way counts as one that finds nothing. Where nothing is found, nothing
//! is known.
#![tactic(auto)]

mod answering;
mod answering_given;
mod bounds;
mod bounds_given;
mod claimed;
mod classifying;
mod coloured;
mod counting;
mod counting_given;
mod finders;
mod given_lines;
mod given_types;
mod lines;
mod measures;
mod never;
mod never_given;
mod notes;
mod settling;
mod settling_given;
mod telling;
mod texts;
mod types;
mod words;

pub use answering_given::SettleText;
pub use bounds::{count_of, upper_chain};
pub use claimed::{Claimed, Telling};
pub use classifying::settle;
pub use counting::{MAX_ROUNDS, MORE_ROUNDS, few_of};
pub use given_types::SettledGiven;
pub use lines::push_way;
pub use measures::{
    doublings, greatest_degree, longest_labels, longest_steps, shortest_labels, shortest_steps,
};
pub use settling_given::settle_given;
pub use telling::tell;
pub use texts::{has_given_text, has_text};
pub use types::{Classified, Coloured, ColouredWay, Further, Settled, Shown, Way};
pub use words::{MAX_TIMES, SettleWord, settle_help, settle_word};
