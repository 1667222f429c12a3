//! What is claimed of a problem, and of which more may be found.

use crate::types::Classified;
use re_frame::Output;
use re_problem::Problem;

/// A problem, and what is known of it: nothing changes what is claimed and what shows it, and of its class more may be found.
#[derive(Drop)]
pub struct Claimed {
    /// The problem.
    pub problem: Problem,
    /// What is known of it.
    pub classified: Classified,
    /// How often bounds are taken.
    pub times: u8,
}

/// What is told of a text at once.
#[derive(Drop)]
pub enum Telling {
    /// The whole answer.
    Whole(Output),
    /// What is claimed of its problem: its lines stand at the front of the answer, whatever is found besides.
    Claims(Claimed),
}
