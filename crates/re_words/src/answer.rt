// From a command to its output.
ghost use Rattle.std.specs.Prelude.{◌≡◌, ◌≤◌, ℕ, List, [], length, IfOk, IsErrOf};
ghost use Rattle.re_io.specs.Faults.{Rose};
ghost use Rattle.re_cert.specs.CertificateTexts.{certificate_of, text_lines};
ghost use Rattle.re_words.specs.Command.{judges};
ghost use Rattle.re_words.specs.Meaning.{WritesBound};
ghost use Rattle.re_frame.specs.Outcomes.{outcome_of, status_of, within_limit};
ghost use Rattle.re_words.specs.Output.{streaming_outcome};
ghost use Rattle.re_frame.specs.Runs.{MaySay, TakesInput};

use crate::check::check;
use crate::command::{Command, Streaming};
use re_frame::{Answer, Output, OutputFault};
use re_io::{MAX_BYTES, Source};
use std::alloc::Global;

/// The output of a command that goes through its input.
#[tactic(auto, unfolding(crate::specs::Output::streaming_outcome, re_frame::specs::Outcomes::within_limit))]
pub fn stream<S: Source>(
    alloc: Global,
    streaming: Streaming,
    source: &mut S,
) -> Result<Output, OutputFault>
    ensures output { IfOk result (λ output. (bytes : List ℕ) → S.left source.old ≡ Some bytes →
        outcome_of output ≡ within_limit (streaming_outcome streaming) bytes) }
    ensures says { IfOk result (λ output. MaySay (status_of output.answer) (judges (Command.Streams streaming))) }
    ensures means { IfOk result (λ output. streaming ≡ Streaming.Check → output.answer ≡ Answer.Done →
        (bytes : List ℕ) → S.left source.old ≡ Some bytes → WritesBound bytes (certificate_of (text_lines bytes)).kind (length (certificate_of (text_lines bytes)).steps)) }
    ensures emptied { IfOk result (λ _. (bytes : List ℕ) → S.left source.old ≡ Some bytes →
        length bytes ≤ MAX_BYTES → S.left source.new ≡ Some []) }
    ensures fault { IsErrOf result OutputFault.ReadFault → Rose (S.faults source.old) (S.faults source.new) }
    ensures within { IsErrOf result OutputFault.ReadFault → TakesInput (S.left source.old) (S.left source.new) }
    ensures later { S.faults source.old ≤ S.faults source.new }
{
    match streaming {
        Streaming::Check => check(alloc, source),
    }
}
