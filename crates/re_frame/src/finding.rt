// The reading of a whole input into what is found.
ghost use Rattle.std.specs.Prelude.{◌≡◌, ◌≤◌, ℕ, Bool, List, [], Some, length, IfOk, IsErrOf};
ghost use Rattle.re_io.specs.Faults.{Rose};
ghost use Rattle.re_frame.specs.Answers.{MayAnswer};
ghost use Rattle.re_frame.specs.Outcomes.{Outcome, outcome_of, status_of};
ghost use Rattle.re_frame.specs.Runs.{MaySay, TakesInput};

use crate::{Output, OutputFault, too_long};
use re_io::{LineFault, MAX_BYTES, Source, read_all};
use re_labels::NoMemory;
use std::alloc::Global;

/// A command that takes its input as a whole, and answers what a search comes to.
pub trait Finding {
    /// The numbers of the command are such as words can give it.
    ghost fits: { Self → Type 0 };

    /// The outcomes that it may have for these bytes.
    ghost may: { Self → List ℕ → Outcome → Type 0 };

    /// It judges, so that its answer can be No.
    ghost judging: { Self → Bool };

    /// The output for an input of these bytes, no more than an input may have.
    fn find(&self, alloc: Global, text: Vec<u8>) -> Result<Output, NoMemory>
        requires within { length text.items ≤ MAX_BYTES }
        requires ready { fits self.now }
        ensures output { IfOk result (λ output. may self.now text.items (outcome_of output)) }
        ensures says { IfOk result (λ output. MaySay (status_of output.answer) (judging self.now)) };
}

/// Reads the whole input of a command, and answers what it finds.
pub fn find_input<F: Finding, S: Source>(
    alloc: Global,
    command: &F,
    source: &mut S,
) -> Result<Output, OutputFault>
    requires { F.fits command.now }
    ensures output { IfOk result (λ output. (bytes : List ℕ) → S.left source.old ≡ Some bytes →
        MayAnswer (F.may command.now) bytes (outcome_of output)) }
    ensures says { IfOk result (λ output. MaySay (status_of output.answer) (F.judging command.now)) }
    ensures emptied { IfOk result (λ _. (bytes : List ℕ) → S.left source.old ≡ Some bytes →
        length bytes ≤ MAX_BYTES → S.left source.new ≡ Some []) }
    ensures fault { IsErrOf result OutputFault.ReadFault → Rose (S.faults source.old) (S.faults source.new) }
    ensures within { IsErrOf result OutputFault.ReadFault → TakesInput (S.left source.old) (S.left source.new) }
    ensures later { S.faults source.old ≤ S.faults source.new }
{
    let bytes = match read_all(alloc, source) {
        Ok(bytes) => bytes,
        Err(LineFault::ReadFault) => return Err(OutputFault::ReadFault),
        Err(LineFault::InputTooLong) => return Ok(too_long(alloc)?),
        Err(LineFault::NoMemory) => return Err(OutputFault::NoMemory),
    };
    Ok(command.find(alloc, bytes)?)
}
