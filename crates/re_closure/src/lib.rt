//! Fixed points from right-closed sets: the closure of the last problem of a chain, or of the problem that a diagram raises it to, the certificate
//! that it comes back, and the word `closure`.
//!
//! Lines of sets, the topmost of those that come from some lines by combinations, and those of the closure of a problem.
#![tactic(auto)]

mod answering;
mod certificates;
mod closure;
mod combining;
mod constraints;
mod diagrams;
mod dominating;
mod edges;
mod families;
mod finding;
mod going_on;
mod limit_lines;
mod line;
mod occurring;
mod raised_output;
mod raising;
mod reading;
mod rows;
mod said_sets;
mod sets;
mod stepping;
mod topmost;
pub mod types;

ghost use Rattle.re_closure.specs.Diagrams.{OrderLaw, RaisedLaw};
ghost use Rattle.re_closure.specs.Laws.{OneOutcomeLaw, OneRaisedOutcomeLaw};
ghost use Rattle.re_closure.specs.RaisedClosures.{RaisedStepLaw};

pub use answering::{ClosureWord, MAX_FURTHER, closure_help, closure_word};
pub use families::{Families, closure_families, others_of};
pub use finding::find_closure;
pub use going_on::closure_output;
pub use line::SetLine;
pub use raising::find_raised;
pub use topmost::{LinesFault, MAX_COMBINATIONS, topmost_lines};
pub use types::{Closing, ClosureFault, ClosureLimit};

/// A chain whose last problem isn't solvable without communication decides what the word gives to it, but for the limit of rows.
pub fn one_outcome_law()
    ensures plain { OneOutcomeLaw }
    ensures raised { OneRaisedOutcomeLaw }
{}

/// The order of a diagram is the least one that holds its edges.
pub fn order_law()
    ensures { OrderLaw }
{}

/// The problem that a diagram raises is a problem, and a relaxation.
pub fn raised_law()
    ensures { RaisedLaw }
{}

/// A lower step leads from a problem to the closure of each relaxation of it, with the sides exchanged: where each label stays, each maximal row goes
/// to one of the relaxation that dominates it.
pub fn raised_step_law()
    ensures { RaisedStepLaw }
{}
