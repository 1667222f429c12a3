//! Laws of what some inputs tell. Few colours of passive nodes, edges where these have two ends, and so bounds above for local algorithms, in order
//! log* N rounds of N identifiers; the class of what is solvable given so few, and what certificates say of it. Then inputs whose labels tell in which
//! configuration they stand, as those of sides and of orientations do: with them one round more than some number is of no use; and the test of that.

ghost use Rattle.re_given_bounds.specs.EdgeBounds.{NoEdgeColouredLaw, UpperBoundEdgeColouredLaw};
ghost use Rattle.re_given_bounds.specs.EdgeClasses.{BothColouredLaw, EdgeColouredLaw, OrderBothColouredLaw, OrderEdgeColouredLaw};
ghost use Rattle.re_given_bounds.specs.Laws.{EdgesColouredLaw, FewEdgeColoursLaw, FewEdgeColoursLocalLaw, ProductInputLaw, ProductLocalLaw};
ghost use Rattle.re_given_bounds.specs.Telling.{IdleHopLaw};

/// In one hop active nodes with unique identifiers below N colour the passive nodes properly with N^p colours: by the p identifiers around each. So they
/// colour edges with N^2, where p is 2.
pub fn edges_coloured_law()
    ensures { EdgesColouredLaw }
{}

/// A proper colouring of the passive nodes with N colours gives one with one more than a passive node meets others, in order log* N hops: with 2 a - 1
/// edge colours, where p is 2.
pub fn few_edge_colours_law()
    ensures { FewEdgeColoursLaw }
{}

/// What is solvable in k hops given a proper colouring of the passive nodes with so few colours has a local algorithm, one with unique identifiers, of
/// 2 log* N + k + K rounds, where identifiers are below N and K depends on the degrees alone.
pub fn few_edge_colours_local_law()
    ensures { FewEdgeColoursLocalLaw }
{}

/// What is solvable given a proper colouring of the passive nodes with one colour more than a passive node meets others takes at most the order of log* N
/// rounds: given 2 a - 1 edge colours, where passive nodes are edges.
pub fn edge_coloured_law()
    ensures { EdgeColouredLaw }
{}

/// What is solvable given so few edge colours, but in no number of rounds with port numbers alone, takes the order of log* N rounds.
pub fn order_edge_coloured_law()
    ensures { OrderEdgeColouredLaw }
{}

/// An upper bound of k steps that is valid given so few edge colours has a local algorithm of 2 log* N + k + K rounds, where identifiers are below N and K
/// depends on the degrees alone.
pub fn upper_bound_edge_coloured_law()
    ensures { UpperBoundEdgeColouredLaw }
{}

/// No number of rounds solves what is accepted as a fixed point given so few edge colours.
pub fn no_edge_coloured_law()
    ensures { NoEdgeColouredLaw }
{}

/// The product of two input problems is an input problem: a solution of both is given.
pub fn product_input_law()
    ensures { ProductInputLaw }
{}

/// What two local algorithms of T rounds solve, one of T rounds solves at once.
pub fn product_local_law()
    ensures { ProductLocalLaw }
{}

/// What is solvable given few colours of active and of passive nodes at once takes at most the order of log* N rounds: given degree + 1 node colours and
/// 2 a - 1 edge colours, where passive nodes are edges.
pub fn both_coloured_law()
    ensures { BothColouredLaw }
{}

/// What is solvable given both, but in no number of rounds with port numbers alone, takes the order of log* N rounds.
pub fn order_both_coloured_law()
    ensures { OrderBothColouredLaw }
{}

/// Where each label of the input problem, with its sides exchanged k times, tells in which passive configuration it stands, what is solvable in k + 1 rounds
/// given the input problem is solvable in k.
pub fn idle_hop_law()
    ensures { IdleHopLaw }
{}
