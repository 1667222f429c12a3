//! What the word answers to a text.
ghost use Rattle.re_settings.specs.InputProblems.{input_fault as fault_of};
ghost use Rattle.re_frame.specs.Outcomes.{outcome_of, status_of};
ghost use Rattle.re_frame.specs.Runs.{MaySay};
ghost use Rattle.re_given.specs.Inputs.{IsInput};
ghost use Rattle.re_given_words.specs.Counting.{walk_after};
ghost use Rattle.re_problem.specs.NamedProblems.{unnamed};
ghost use Rattle.re_settle.specs.Words.{IsSettleWord};
ghost use Rattle.re_settle.specs.GivenAnswers.{IsGivenAnswer, IsUntold, MayGiveBeside, MayGiveGiven, MaySettle};
ghost use Rattle.re_walks.specs.Walking.{cut};
ghost use Rattle.std.specs.Prelude.{◌≡◌, ◌≤◌, ◌⊎◌, IfOk, None, length, true};

use crate::given_lines::settled_output;
use crate::settling_given::settle_given;
use crate::words::SettleWord;
use re_chains::{has_line, problem_chain};
use re_frame::{Finding, Output, fault_output};
use re_io::MAX_BYTES;
use re_labels::NoMemory;
use re_problem::{Problem, TextFault};
use re_settings::{
    GIVEN, GivenTexts, given_verdict, given_verdict_output, input_fault, input_fault_output,
    read_given,
};
use std::alloc::Global;

/// The word `settle N` over a text: a problem, or a problem, a line `== given` and an input problem.
#[derive(Clone, Copy, Debug, PartialEq, Eq)]
pub struct SettleText {
    /// The word, with its number.
    pub word: SettleWord,
}

// What is given where it can't be told whether 0 rounds are enough: what `given` answers to the problem.
fn untold_output(alloc: Global, problem: &Problem, input: &Problem) -> Result<Output, NoMemory>
    requires input { fault_of problem.now input.now ≡ None }
    requires untold { walk_after (unnamed problem.now) (unnamed input.now) 0 ≡ cut }
    ensures { IfOk result (λ output. IsUntold problem.now input.now (outcome_of output)) }
{
    let chain = problem_chain(alloc, problem.copy()?);
    let verdict = given_verdict(alloc, &chain.certificate, input)?;
    given_verdict_output(alloc, &chain.certificate, input, &verdict)
}

// What the word gives to a problem and an input problem of it.
fn known_output(
    alloc: Global,
    problem: &Problem,
    input: &Problem,
    times: u8,
) -> Result<Output, NoMemory>
    requires input { IsInput (unnamed problem.now) (unnamed input.now) }
    requires none { fault_of problem.now input.now ≡ None }
    requires times { times ≤ 64 }
    ensures { IfOk result (λ output. IsGivenAnswer times problem.now input.now (outcome_of output) ⊎ IsUntold problem.now input.now (outcome_of output)) }
{
    match settle_given(alloc, problem, input, times)? {
        Some(settled) => { settled_output(alloc, problem, settled) }
        None => untold_output(alloc, problem, input),
    }
}

// What it gives to a problem and a problem behind it.
fn beside_output(
    alloc: Global,
    problem: &Problem,
    input: &Problem,
    times: u8,
) -> Result<Output, NoMemory>
    requires { times ≤ 64 }
    ensures { IfOk result (λ output. MayGiveBeside (fault_of problem.now input.now) times problem.now input.now (outcome_of output)) }
{
    match input_fault(problem, input) {
        Some(fault) => input_fault_output(alloc, input, fault),
        None => known_output(alloc, problem, input, times),
    }
}

// What it gives to a text with a line `== given`.
fn given_output(alloc: Global, times: u8, text: &[u8]) -> Result<Output, NoMemory>
    requires times { times ≤ 64 }
    requires few { length text.now ≤ MAX_BYTES }
    ensures { IfOk result (λ output. MayGiveGiven times text.now (outcome_of output)) }
{
    match read_given(alloc, text) {
        Ok(GivenTexts { problem, input }) => beside_output(alloc, &problem, &input, times),
        Err(TextFault::Bad(fault)) => Ok(fault_output(alloc, fault)?),
        Err(TextFault::NoMemory) => Err(NoMemory),
    }
}

// What it gives to a text.
#[tactic(auto, unfolding(crate::specs::GivenAnswers::MaySettle))]
fn text_output(alloc: Global, word: SettleWord, text: Vec<u8>) -> Result<Output, NoMemory>
    requires word { IsSettleWord word }
    requires few { length text.items ≤ MAX_BYTES }
    ensures may { IfOk result (λ output. MaySettle word text.items (outcome_of output)) }
    ensures says { IfOk result (λ output. MaySay (status_of output.answer) true) }
{
    if has_line(GIVEN, text.as_slice()) {
        given_output(alloc, word.times, text.as_slice())
    } else {
        word.find(alloc, text)
    }
}

impl Finding for SettleText {
    ghost use Rattle.re_settle.specs.Words.{IsSettleWord};
    ghost use Rattle.re_settle.specs.GivenAnswers.{MaySettle};
    ghost use Rattle.std.specs.Prelude.{true};

    ghost fits = { λ text. IsSettleWord text.word };

    ghost may = { λ text. MaySettle text.word };

    ghost judging = { λ _. true };

    fn find(&self, alloc: Global, text: Vec<u8>) -> Result<Output, NoMemory> {
        text_output(alloc, self.word, text)
    }
}
