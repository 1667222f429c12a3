//! Finite graphs that show what no number of rounds solves, also where a solution of an input problem is given: the views of their nodes
//! are views of the tree that covers them.
#![tactic(auto)]

mod ends;

ghost use Rattle.re_cover.specs.Laws.{EdgeLaw, GraphLaw, NoSolutionLaw, OutputsLaw, SeenLaw, ViewsLaw};
ghost use Rattle.re_cover.specs.GivenGraphs.{GivenGraphLaw, GivenOutputsLaw, GivenSeenLaw, GivenViewsLaw, NoSolutionGivenLaw};

pub use ends::GraphEnd;

/// The two ways over an edge, from active to passive nodes and back, undo each other.
pub fn edge_law()
    ensures { EdgeLaw }
{}

/// The view of a node of a graph is a view of the tree.
pub fn views_law()
    ensures { ViewsLaw }
{}

/// A passive node's view shows at each port the view of the active node there.
pub fn seen_law()
    ensures { SeenLaw }
{}

/// What an algorithm that solves a problem outputs at the active nodes of a graph is a solution on it.
pub fn outputs_law()
    ensures { OutputsLaw }
{}

/// Where a problem is solvable in some number of rounds, each graph of its degrees has a solution.
pub fn graph_law()
    ensures { GraphLaw }
{}

/// Where some graph of its degrees has no solution, no number of rounds solves the problem.
pub fn no_solution_law()
    ensures { NoSolutionLaw }
{}

/// The view of a node of a graph with input labels is a view of the tree, and its labels fit.
pub fn given_views_law()
    ensures { GivenViewsLaw }
{}

/// A passive node's view shows at each port the view of the active node there.
pub fn given_seen_law()
    ensures { GivenSeenLaw }
{}

/// What an algorithm that solves a problem given an input problem outputs at the active nodes of a graph is a solution on it.
pub fn given_outputs_law()
    ensures { GivenOutputsLaw }
{}

/// Where a problem is solvable given an input problem, each graph with a solution of the input problem has one of the problem.
pub fn given_graph_law()
    ensures { GivenGraphLaw }
{}

/// Where some graph with a solution of the input problem has none of the problem, no number of rounds solves it given the input problem.
pub fn no_solution_given_law()
    ensures { NoSolutionGivenLaw }
{}
