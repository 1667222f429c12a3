//! What the word answers.
ghost use Rattle.re_frame.specs.Outcomes.{outcome_of};
ghost use Rattle.re_settle.specs.Answers.{IsAnswer, MayGive};
ghost use Rattle.re_settle.specs.Words.{IsSettleWord};
ghost use Rattle.std.specs.Prelude.{◌≤◌, IfOk, length};

use crate::classifying::settle;
use crate::lines::settled_output;
use crate::words::SettleWord;
use re_frame::{Finding, Output, fault_output};
use re_io::MAX_BYTES;
use re_labels::NoMemory;
use re_problem::{Problem, TextFault, read_problem};
use std::alloc::Global;

// What the word gives to a problem.
fn problem_output(alloc: Global, problem: &Problem, times: u8) -> Result<Output, NoMemory>
    requires { times ≤ 64 }
    ensures { IfOk result (λ output. IsAnswer times problem.now (outcome_of output)) }
{
    let classified = settle(alloc, problem, times)?;
    settled_output(alloc, problem, classified)
}

// What the word gives to a text.
#[tactic(auto, unfolding(crate::specs::Answers::MayGive))]
fn text_output(alloc: Global, word: SettleWord, text: &[u8]) -> Result<Output, NoMemory>
    requires word { IsSettleWord word }
    requires few { length text.now ≤ MAX_BYTES }
    ensures { IfOk result (λ output. MayGive word text.now (outcome_of output)) }
{
    match read_problem(alloc, text) {
        Ok(problem) => problem_output(alloc, &problem, word.times),
        Err(TextFault::Bad(fault)) => Ok(fault_output(alloc, fault)?),
        Err(TextFault::NoMemory) => Err(NoMemory),
    }
}

impl Finding for SettleWord {
    ghost use Rattle.std.specs.Prelude.{true};
    ghost use Rattle.re_settle.specs.Answers.{MayGive};
    ghost use Rattle.re_settle.specs.Words.{IsSettleWord};

    ghost fits = { IsSettleWord };

    ghost may = { MayGive };

    ghost judging = { λ _. true };

    fn find(&self, alloc: Global, text: Vec<u8>) -> Result<Output, NoMemory> {
        text_output(alloc, *self, text.as_slice())
    }
}
