// The reading of a whole input into an answer.
ghost use Rattle.std.specs.Prelude.{◌≡◌, ◌≤◌, ℕ, Bool, List, [], Some, length, IfOk, IsErrOf};
ghost use Rattle.re_io.specs.Faults.{Rose};
ghost use Rattle.re_frame.specs.Outcomes.{Outcome, outcome_of, status_of, within_limit};
ghost use Rattle.re_frame.specs.Runs.{MaySay, TakesInput};

use crate::output::{Output, OutputFault, too_long};
use crate::status::Answer;
use re_io::{LineFault, MAX_BYTES, Source, read_all};
use re_labels::NoMemory;
use std::alloc::Global;

/// A command that takes its input as a whole.
pub trait Answering {
    /// The numbers of the command are such as words can give it.
    ghost fits: { Self → Type 0 };

    /// What it answers to these bytes.
    ghost outcome: { Self → List ℕ → Outcome };

    /// What the text of an answer Done is worth.
    ghost worth: { Self → List ℕ → Type 0 };

    /// It judges, so that its answer can be No.
    ghost judging: { Self → Bool };

    /// The output for an input of these bytes, no more than an input may have.
    fn answer(&self, alloc: Global, text: Vec<u8>) -> Result<Output, NoMemory>
        requires within { length text.items ≤ MAX_BYTES }
        requires ready { fits self.now }
        ensures output { IfOk result (λ output. outcome_of output ≡ outcome self.now text.items) }
        ensures says { IfOk result (λ output. MaySay (status_of output.answer) (judging self.now)) }
        ensures worth { IfOk result (λ output. output.answer ≡ Answer.Done → worth self.now output.text.items) };
}

/// Reads the whole input of a command, and answers it.
#[tactic(auto, unfolding(crate::specs::Outcomes::within_limit))]
pub fn answer_input<C: Answering, S: Source>(
    alloc: Global,
    command: &C,
    source: &mut S,
) -> Result<Output, OutputFault>
    requires { C.fits command.now }
    ensures output { IfOk result (λ output. (bytes : List ℕ) → S.left source.old ≡ Some bytes →
        outcome_of output ≡ within_limit (C.outcome command.now) bytes) }
    ensures says { IfOk result (λ output. MaySay (status_of output.answer) (C.judging command.now)) }
    ensures worth { IfOk result (λ output. output.answer ≡ Answer.Done → C.worth command.now output.text.items) }
    ensures emptied { IfOk result (λ _. (bytes : List ℕ) → S.left source.old ≡ Some bytes →
        length bytes ≤ MAX_BYTES → S.left source.new ≡ Some []) }
    ensures fault { IsErrOf result OutputFault.ReadFault → Rose (S.faults source.old) (S.faults source.new) }
    ensures within { IsErrOf result OutputFault.ReadFault → TakesInput (S.left source.old) (S.left source.new) }
    ensures later { S.faults source.old ≤ S.faults source.new }
{
    let bytes = match read_all(alloc, source) {
        Ok(bytes) => bytes,
        Err(LineFault::ReadFault) => return Err(OutputFault::ReadFault),
        Err(LineFault::InputTooLong) => return Ok(too_long(alloc)?),
        Err(LineFault::NoMemory) => return Err(OutputFault::NoMemory),
    };
    Ok(command.answer(alloc, bytes)?)
}
