//! What walks over lists of labels find: bridges, the map of a lower step from one problem to another, and reductions, the map of a problem
//! into itself with the fewest images. And a chain of kind lower led on over a bridge.
#![tactic(auto)]

mod appending;
mod by_row;
mod by_set;
mod chains;
mod finding;
mod mapping;
mod reducing;
mod walking;
mod within;

ghost use Rattle.re_bridge.specs.Laws.{BridgeLaw};
ghost use Rattle.re_bridge.specs.Reductions.{LeastLabelsLaw, ReducedRoundsLaw, ReductionLaw};

pub use appending::appended;
pub use chains::bridge;
pub use finding::{BridgeFault, find_bridge};
pub use reducing::{ReduceFault, reduce};

/// The map of the bridge between two problems is the first one by which a lower step leads from the one to the other: by sets, or, where
/// there is none by sets, by rows. Where the map is missing, no lower step does.
pub fn bridge_law()
    ensures { BridgeLaw }
{}

/// The map that `reduction` finds is one of the problem into itself with the fewest images, and the first of these; where it finds none, no map
/// has fewer images than there are labels.
pub fn reduction_law()
    ensures { ReductionLaw }
{}

/// A problem is solvable in T rounds exactly where the reduced problem is.
pub fn reduced_rounds_law()
    ensures { ReducedRoundsLaw }
{}

/// Each problem to which a problem relaxes, and which relaxes to it, has at least as many labels as the reduced problem.
pub fn least_labels_law()
    ensures { LeastLabelsLaw }
{}
