//! Greedy problems, whose active nodes may be labelled one after another in any order: how few rounds solve them, and the search that finds what shows it.
#![tactic(auto)]

ghost use Rattle.re_greedy.specs.Examples.{EdgesLaw, IndependentSetsLaw, MatchingsLaw};
ghost use Rattle.re_greedy.specs.Laws.{ColouredChainLaw, GreedyChainLaw, GreedyClassLaw, GreedyLaw, GreedyOrderLaw, GreedyTestLaw, PassiveColoursLaw, PassiveGreedyClassLaw, PassiveGreedyLaw};

mod answering;
mod finding;
mod joining;
mod judging;
mod partials;

pub use answering::{Reply, reply_to};
pub use finding::{Greediness, MAX_MULTISETS, Work, find_greedy};
pub use judging::{ListVerdict, judge_list, refused_list_law};
pub use partials::Partial;

/// The test whether a problem is greedy with some multisets decides it.
pub fn greedy_test_law()
    ensures { GreedyTestLaw }
{}

/// A greedy problem is solvable in 2 c hops given a proper colouring with c colours: one colour after another.
pub fn greedy_law()
    ensures { GreedyLaw }
{}

/// So it takes at most the order of log* N rounds of local algorithms.
pub fn greedy_class_law()
    ensures { GreedyClassLaw }
{}

/// And that order where no number of rounds is enough with port numbers alone.
pub fn greedy_order_law()
    ensures { GreedyOrderLaw }
{}

/// Where passive nodes may be labelled one after another, the same holds given a proper colouring of them, with one hop more.
pub fn passive_greedy_law()
    ensures { PassiveGreedyLaw }
{}

/// Two hops give a proper colouring of the passive nodes, where one of the active nodes is given.
pub fn passive_colours_law()
    ensures { PassiveColoursLaw }
{}

/// So such problems also take at most the order of log* N rounds.
pub fn passive_greedy_class_law()
    ensures { PassiveGreedyClassLaw }
{}

/// What upper steps lead to may be solvable given few colours instead of the problem before them.
pub fn coloured_chain_law()
    ensures { ColouredChainLaw }
{}

/// So problems take at most the order of log* N rounds from which upper steps lead to one that is greedy from one side or the other.
pub fn greedy_chain_law()
    ensures { GreedyChainLaw }
{}

/// Maximal independent sets, in degrees up to 6, take at most the order of log* N rounds.
pub fn independent_sets_law()
    ensures { IndependentSetsLaw }
{}

/// Proper colourings of edges with 5 colours, in degree 3, take at most that order.
pub fn edges_law()
    ensures { EdgesLaw }
{}

/// Maximal matchings, in degrees up to 6, take at most that order.
pub fn matchings_law()
    ensures { MatchingsLaw }
{}
