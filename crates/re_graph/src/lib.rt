//! Finite graphs as data, the search for a solution on one, their texts, and the search for graphs without a solution: those that are listed, and those
//! that gadgets make.
#![tactic(auto)]

mod covers;
mod finding;
mod finding_gadgets;
mod gadgets;
mod graph;
mod joining;
mod judging;
mod multisets;
mod parallel;
mod passing;
mod printing;
mod relations;
mod searching;
mod solving;
mod standing;
mod writing;

ghost use Rattle.re_graph.specs.Examples.{IndependentSetLaw};
ghost use Rattle.re_graph.specs.Solving.{SolutionWalkLaw};

pub use covers::{Cover, cover_of};
pub use finding::{Found, FoundCover, find_cover, find_cover_given};
pub use finding_gadgets::{MAX_GRAPHS, MAX_TRIES, find_gadgets, find_gadgets_given};
pub use graph::{Graph, MAX_NODES, MAX_PASSIVE, PassiveEnds};
pub use judging::{LabelsFault, labels_fault};
pub use printing::push_graph;
pub use re_cover::GraphEnd;
pub use searching::{MAX_KEPT, MAX_MADE, MAX_STEPS};
pub use solving::{SolveFault, solve};
pub use standing::{has_end, stands};

/// The labels that a walk goes over pass where all of them are there exactly where they are a solution, and then those in front do, too.
pub fn solution_walk_law()
    ensures { SolutionWalkLaw }
{}

/// No number of rounds finds a maximal independent set in degree 3: there is none on two nodes with an edge between them and a loop at each.
pub fn independent_set_law()
    ensures { IndependentSetLaw }
{}
