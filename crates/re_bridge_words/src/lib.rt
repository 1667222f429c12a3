//! The words `bridge` and `reduce`: a chain led on to a given problem by one step more, and a problem with fewer labels.
#![tactic(auto)]

mod answering;
mod reducing;
mod upper;
mod words;

ghost use Rattle.re_bridge_words.specs.Laws.{NoLaw, NoUpperLaw};
ghost use Rattle.re_bridge_words.specs.ReduceWords.{ReducedGivenLaw};

pub use answering::MAX_TRIES;
use re_bridge::bridge_law;
use re_settings::upper_walk_law;
pub use upper::bridge_upper;
pub use words::{BridgeWord, bridge_help, bridge_word};

/// Where `bridge` answers `no` to a chain of kind lower and a problem, no lower step leads from the last problem of the chain to this one: with no map
/// does it meet its clauses.
pub fn no_law()
    ensures { NoLaw }
{
    bridge_law();
}

/// Where `bridge` answers `no` to a chain of kind upper and a problem, no upper step leads from the last problem of the chain to this one.
pub fn no_upper_law()
    ensures { NoUpperLaw }
{
    upper_walk_law();
}

/// Given an input problem, a problem is solvable in T rounds exactly where the reduced problem is.
pub fn reduced_given_law()
    ensures { ReducedGivenLaw }
{}
