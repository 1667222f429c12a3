// The command `check`.
ghost use Rattle.std.specs.Prelude.{◌≡◌, ◌≤◌, ◌++◌, ℕ, List, [], length, IfOk, IsErrOf};
ghost use Rattle.re_io.specs.Faults.{Rose};
ghost use Rattle.re_cert.specs.CertificateTexts.{certificate_of, text_lines};
ghost use Rattle.re_frame.specs.Check.{check_outcome};
ghost use Rattle.re_words.specs.Command.{judges};
ghost use Rattle.re_words.specs.Meaning.{WritesBound};
ghost use Rattle.re_frame.specs.Outcomes.{outcome_of, status_of, within_limit};
ghost use Rattle.re_frame.specs.Runs.{MaySay, TakesInput};

use crate::command::{Command, Streaming};
use re_check::{CheckFault, check_stream};
use re_frame::{Answer, Output, OutputFault, fault_output, too_long, verdict_output};
use re_io::{MAX_BYTES, Source};
use std::alloc::Global;

/// The line of the verdict on the certificate that the source gives, or of its fault.
#[tactic(auto, unfolding(re_frame::specs::Outcomes::within_limit, re_frame::specs::Check::check_outcome))]
pub(crate) fn check<S: Source>(alloc: Global, source: &mut S) -> Result<Output, OutputFault>
    ensures output { IfOk result (λ output. (bytes : List ℕ) → S.left source.old ≡ Some bytes →
        outcome_of output ≡ within_limit check_outcome bytes) }
    ensures says { IfOk result (λ output. MaySay (status_of output.answer) (judges (Command.Streams Streaming.Check))) }
    ensures means { IfOk result (λ output. output.answer ≡ Answer.Done → (bytes : List ℕ) → S.left source.old ≡ Some bytes →
        WritesBound bytes (certificate_of (text_lines bytes)).kind (length (certificate_of (text_lines bytes)).steps)) }
    ensures emptied { IfOk result (λ _. (bytes : List ℕ) → S.left source.old ≡ Some bytes →
        length bytes ≤ MAX_BYTES → S.left source.new ≡ Some []) }
    ensures fault { IsErrOf result OutputFault.ReadFault → Rose (S.faults source.old) (S.faults source.new) }
    ensures within { IsErrOf result OutputFault.ReadFault → TakesInput (S.left source.old) (S.left source.new) }
    ensures later { S.faults source.old ≤ S.faults source.new }
{
    match check_stream(alloc, source) {
        Ok(report) => Ok(verdict_output(alloc, report.verdict)?),
        Err(CheckFault::Input(fault)) => Ok(fault_output(alloc, fault)?),
        Err(CheckFault::InputTooLong) => Ok(too_long(alloc)?),
        Err(CheckFault::ReadFault) => Err(OutputFault::ReadFault),
        Err(CheckFault::NoMemory) => Err(OutputFault::NoMemory),
    }
}
