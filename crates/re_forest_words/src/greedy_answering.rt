//! What `greedy` answers.
ghost use Rattle.re_cert.specs.Bounds.{last_problem};
ghost use Rattle.re_forest_words.specs.GreedyAnswers.{GreedyMeansLaw, IsAnswer, MayGiveGreedy};
ghost use Rattle.re_frame.specs.Outcomes.{outcome_of};
ghost use Rattle.re_io.specs.declared.read.TheConstants.{MAX_BYTES};
ghost use Rattle.std.specs.Prelude.{◌≡◌, ◌≤◌, IfOk, length};

use crate::greedy_lines::showing_output;
use crate::showing::greedy_behind;
use re_chains::read_chain;
use re_frame::{Output, fault_output};
use re_labels::NoMemory;
use re_problem::{Problem, TextFault};
use std::alloc::Global;

// What the word gives to a problem.
fn problem_output(alloc: Global, problem: &Problem, most: u8) -> Result<Output, NoMemory>
    requires { most ≤ 2 }
    ensures { IfOk result (λ output. IsAnswer most problem.now (outcome_of output)) }
{
    let _degrees = problem.degrees();
    let showing = greedy_behind(alloc, problem, most)?;
    showing_output(alloc, &showing)
}

/// What the word gives to a text.
#[tactic(auto, unfolding(crate::specs::GreedyAnswers::MayGiveGreedy))]
pub(crate) fn greedy_output(alloc: Global, text: &[u8], most: u8) -> Result<Output, NoMemory>
    requires few { length text.now ≤ MAX_BYTES }
    requires most { most ≤ 2 }
    ensures { IfOk result (λ output. MayGiveGreedy most text.now (outcome_of output)) }
{
    match read_chain(alloc, text) {
        Ok(chain) => problem_output(alloc, chain.last(), most),
        Err(TextFault::Bad(fault)) => Ok(fault_output(alloc, fault)?),
        Err(TextFault::NoMemory) => Err(NoMemory),
    }
}

/// Where the word answers Done, the last problem of the chain is solvable given few colours, and takes at most the order of log* N rounds.
pub fn greedy_means_law()
    ensures { GreedyMeansLaw }
{}
