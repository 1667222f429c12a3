//! What certificates say of local algorithms, whose nodes have unique identifiers, and of randomised ones: laws alone, no code.
//!
//! Laws of what some inputs tell. Few colours of passive nodes, edges where these have two ends, and so bounds above for local algorithms, in order
//! log* N rounds of N identifiers; the class of what is solvable given so few, and what certificates say of it. Then inputs whose labels tell in which
//! configuration they stand, as those of sides and of orientations do: with them one round more than some number is of no use; and the test of that.
#![tactic(auto)]

mod input_laws;
mod telling;

ghost use Rattle.re_given_bounds.specs.ClassBounds.{AboveLogLaw, ClassLaw, NoTwoClassesLaw};
ghost use Rattle.re_given_bounds.specs.FewColoursBounds.{UpperBoundLocalLaw};
ghost use Rattle.re_given_bounds.specs.LocalBounds.{LocalBoundLaw, LogarithmicBoundLaw, UniqueIdentifiersLaw, WholeLowerBoundLaw};
ghost use Rattle.re_given_bounds.specs.RandomBounds.{IdentifiedBoundLaw, RandomisedBoundLaw, WholeRandomisedLaw};

pub use input_laws::{
    both_coloured_law, edge_coloured_law, edges_coloured_law, few_edge_colours_law,
    few_edge_colours_local_law, idle_hop_law, no_edge_coloured_law, order_both_coloured_law,
    order_edge_coloured_law, product_input_law, product_local_law, upper_bound_edge_coloured_law,
};
pub use telling::{tells_config, tells_passive};

/// The verdict on a certificate is right of local algorithms of as many rounds as there is a hypergraph of identifiers for, at a lower bound with
/// one round less.
pub fn local_bound_law()
    ensures { LocalBoundLaw }
{}

/// The verdict on a certificate is right of local algorithms, those with unique identifiers: for each number of rounds there is a number of identifiers from
/// which on no local algorithm of so many rounds solves what is accepted as a fixed point; at a lower bound, for up to as many rounds as it has steps.
pub fn unique_identifiers_law()
    ensures { UniqueIdentifiersLaw }
{}

/// C^(T + 1) identifiers are enough for that (after Brandt, Chang, Grebík, Grunau, Rozhoň and Vidnyánszky): T rounds are enough for what is accepted as a fixed point only where T + 1 > log_C N, with identifiers
/// below N; at a lower bound so it is for fewer rounds than it has steps. The number C, `identifier_base`, depends on the degrees and the number of
/// labels of the certificate's problems alone.
pub fn logarithmic_bound_law()
    ensures { LogarithmicBoundLaw }
{}

/// The verdict on a certificate is right of randomised algorithms: after a fixed point each of them of T rounds fails at some node, for some port
/// numbering, with a probability of at least 1 / q, where q is 2^(D^(T + 1)) or more, so that T rounds are enough for a probability of failure
/// below 1 / q only where T + 1 > log_D (log_2 q); at a lower bound so it is for fewer rounds than it has steps. The number D, `random_base`,
/// depends on the degrees and the number of labels alone.
pub fn randomised_bound_law()
    ensures { RandomisedBoundLaw }
{}

/// So it is where nodes have N different identifiers too, if N is at least C^(T + 1).
pub fn identified_bound_law()
    ensures { IdentifiedBoundLaw }
{}

/// An upper bound that is valid given a proper colouring with one colour more than a node has neighbours is one for local algorithms, with order
/// log* N rounds more, where nodes have N identifiers.
pub fn upper_bound_local_law()
    ensures { UpperBoundLocalLaw }
{}

/// The verdict on a certificate is right of classes: what is accepted as an upper bound takes a constant number of rounds with unique identifiers,
/// and what is accepted as a fixed point at least the order of log N.
pub fn class_law()
    ensures { ClassLaw }
{}

/// What is accepted as a fixed point takes at least the order of log N rounds.
pub fn above_log_law()
    ensures { AboveLogLaw }
{}

/// What is accepted as a fixed point is solved in no number of rounds given a proper colouring with one colour more than a node has neighbours:
/// no problem takes both the order of log N rounds at least and the order of log* N at most.
pub fn no_two_classes_law()
    ensures { NoTwoClassesLaw }
{}

/// An accepted lower bound of k steps excludes local algorithms of as many rounds too, with `virtual_base a p n ^ (T + 1)` identifiers or more, where
/// its last problem has no more than n labels.
pub fn whole_lower_bound_law()
    ensures { WholeLowerBoundLaw }
{}

/// It excludes randomised algorithms of as many rounds too, without identifiers and with so many, where the probability of failure at a node is below
/// 1 / q, and q is at least `2 ^ (D ^ (T + 1))`.
pub fn whole_randomised_law()
    ensures { WholeRandomisedLaw }
{}
