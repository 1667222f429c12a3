//! What the words answer.
ghost use Rattle.re_cert.specs.Bounds.{last_problem};
ghost use Rattle.re_forest_words.specs.Answers.{IsAnswer, IsListed, MayGive};
ghost use Rattle.re_frame.specs.Outcomes.{outcome_of};
ghost use Rattle.re_io.specs.declared.read.TheConstants.{MAX_BYTES};
ghost use Rattle.std.specs.Prelude.{◌≡◌, ◌≤◌, IfOk, length};

use crate::greedy_answering::greedy_output;
use crate::lines::flexibility_output;
use crate::words::ForestWord;
use re_chains::read_chain;
use re_flexible::{Flexibility, flexibility_of};
use re_frame::{Finding, Output, fault_output};
use re_labels::NoMemory;
use re_problem::{Problem, TextFault};
use std::alloc::Global;

// The labels of a set stand once, in order.
fn listed(flexibility: &Flexibility)
    ensures { IsListed flexibility.now }
{
    if let Flexibility::Flexible(set) = flexibility {
        let _count = set.count();
    }
}

// What `flexible` gives to a problem.
fn problem_output(alloc: Global, problem: &Problem) -> Result<Output, NoMemory>
    ensures { IfOk result (λ output. IsAnswer problem.now (outcome_of output)) }
{
    let flexibility = flexibility_of(problem);
    listed(&flexibility);
    flexibility_output(alloc, problem.names(), flexibility)
}

// What `flexible` gives to a text.
#[tactic(auto, unfolding(crate::specs::Answers::MayGive))]
fn text_output(alloc: Global, text: &[u8]) -> Result<Output, NoMemory>
    requires { length text.now ≤ MAX_BYTES }
    ensures { IfOk result (λ output. MayGive text.now (outcome_of output)) }
{
    match read_chain(alloc, text) {
        Ok(chain) => problem_output(alloc, chain.last()),
        Err(TextFault::Bad(fault)) => Ok(fault_output(alloc, fault)?),
        Err(TextFault::NoMemory) => Err(NoMemory),
    }
}

impl Finding for ForestWord {
    ghost use Rattle.re_forest_words.specs.GreedyAnswers.{MayGive as MayGiveWord};
    ghost use Rattle.re_forest_words.specs.Words.{IsForestWord};
    ghost use Rattle.std.specs.Prelude.{true};

    ghost fits = { IsForestWord };

    ghost may = { MayGiveWord };

    ghost judging = { λ _. true };

    fn find(&self, alloc: Global, text: Vec<u8>) -> Result<Output, NoMemory> {
        match self {
            ForestWord::Flexible => text_output(alloc, text.as_slice()),
            ForestWord::Greedy(most) => greedy_output(alloc, text.as_slice(), *most),
        }
    }
}
