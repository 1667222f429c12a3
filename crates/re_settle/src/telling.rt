//! What the word tells of a text piece by piece: what is claimed, as soon as nothing changes it, and then the rest.
ghost use Rattle.re_chains.specs.TwoTexts.{has_line};
ghost use Rattle.re_frame.specs.Outcomes.{outcome_of};
ghost use Rattle.re_settle.specs.Answers.{by_claim};
ghost use Rattle.re_settle.specs.Pieces.{IsClaim, IsEnded, IsSure, MayFollow, MayTell, Says, front_of};
ghost use Rattle.re_settle.specs.Words.{IsSettleWord};
ghost use Rattle.std.specs.Prelude.{◌≡◌, ◌≤◌, ℕ, List, IfOk, codes, false, length};

use crate::answering_given::SettleText;
use crate::claimed::{Claimed, Telling};
use crate::classifying::{claim, classify};
use crate::lines::{by_claim, claim_text, rest_text};
use crate::words::SettleWord;
use re_chains::has_line;
use re_frame::{Finding, Output, fault_output};
use re_io::MAX_BYTES;
use re_labels::NoMemory;
use re_problem::{Problem, TextFault, read_problem};
use re_settings::GIVEN;
use std::alloc::Global;

// What is claimed of a problem.
fn claimed(alloc: Global, problem: Problem, times: u8) -> Result<Claimed, NoMemory>
    requires { times ≤ 64 }
    ensures problem { IfOk result (λ claimed. claimed.problem ≡ problem) }
    ensures times { IfOk result (λ claimed. claimed.times ≡ times) }
    ensures sure { IfOk result IsClaim }
{
    let classified = claim(alloc, &problem, times)?;
    Ok(Claimed {
        problem,
        classified,
        times,
    })
}

// What is told of a text without a line `== given`.
fn tell_alone(alloc: Global, word: SettleWord, text: &[u8]) -> Result<Telling, NoMemory>
    requires word { IsSettleWord word }
    requires few { length text.now ≤ MAX_BYTES }
    requires alone { has_line (codes "given") text.now ≡ false }
    ensures told { IfOk result (MayTell word text.now) }
    ensures says { IfOk result Says }
    ensures sure { IfOk result IsSure }
{
    match read_problem(alloc, text) {
        Ok(problem) => Ok(Telling::Claims(claimed(alloc, problem, word.times)?)),
        Err(TextFault::Bad(fault)) => Ok(Telling::Whole(fault_output(alloc, fault)?)),
        Err(TextFault::NoMemory) => Err(NoMemory),
    }
}

/// What the word tells of a text: what is claimed of its problem, as soon as nothing changes it; or the whole answer, where the text has a line
/// `== given` or a fault.
pub fn tell(alloc: Global, word: SettleWord, text: Vec<u8>) -> Result<Telling, NoMemory>
    requires word { IsSettleWord word }
    requires few { length text.items ≤ MAX_BYTES }
    ensures told { IfOk result (MayTell word text.items) }
    ensures says { IfOk result Says }
    ensures sure { IfOk result IsSure }
{
    if has_line(GIVEN, text.as_slice()) {
        let output = SettleText { word }.find(alloc, text)?;
        Ok(Telling::Whole(output))
    } else {
        tell_alone(alloc, word, text.as_slice())
    }
}

impl Claimed {
    /// The lines of what is claimed, and of the words that show it: whole lines, at the front of what the word may give.
    pub fn front(&self, alloc: Global) -> Result<Vec<u8>, NoMemory>
        requires { IsClaim self.now }
        ensures lines { IfOk result (λ text. text.items ≡ front_of self.now) }
        ensures ended { IsEnded (front_of self.now) }
        ensures begins { (rest : List ℕ) × MayFollow self.now rest }
    {
        claim_text(alloc, &self.problem, self.classified.settled)
    }

    /// The lines behind them, with the answer of both: what is found of the class besides, in the time of these searches.
    pub fn rest(&self, alloc: Global) -> Result<Output, NoMemory>
        requires { IsClaim self.now }
        ensures answer { IfOk result (λ output. outcome_of output ≡ by_claim self.now.classified.settled output.text.items) }
        ensures follows { IfOk result (λ output. MayFollow self.now output.text.items) }
    {
        let classified = classify(alloc, &self.problem, self.classified, self.times)?;
        let text = rest_text(alloc, &self.problem, classified)?;
        Ok(by_claim(self.classified.settled, text))
    }
}
