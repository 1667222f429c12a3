// The word, and what it answers.
ghost use Rattle.re_frame.specs.Outcomes.{outcome_of};
ghost use Rattle.re_io.specs.declared.read.TheConstants.{MAX_BYTES};
ghost use Rattle.re_why.specs.Explaining.{explained, explaining_outcome, names_why, why_help};
ghost use Rattle.std.specs.Prelude.{◌≡◌, ◌≤◌, IfOk, length, map, string_bytes};

use crate::finding::why_refused;
use crate::push_refutation;
use re_cert::{Certificate, read_certificate};
use re_check::check;
use re_frame::{Answering, Output, fault_output, verdict_output};
use re_labels::NoMemory;
use re_problem::TextFault;
use std::alloc::Global;

/// The word `why`. It reads a certificate as a whole and takes the time of `check` twice, and more only where a row is missing.
#[derive(Clone, Copy, Debug, PartialEq, Eq)]
pub struct Why;

/// Whether the words are this word.
pub fn names_why(words: &[String]) -> bool
    ensures { result ≡ names_why (map string_bytes words.now) }
{
    match words {
        [word] => "why" == word.as_str(),
        _ => false,
    }
}

/// The line of help.
#[tactic(auto, unfolding(crate::specs::Explaining::why_help))]
pub fn why_help() -> &'static str
    ensures { result.now ≡ why_help }
{
    "why: reads a certificate, gives the line of check, and behind a refusal a line that shows it\n"
}

// The line of the verdict, and behind it the witness of a refusal.
fn explained(alloc: Global, certificate: &Certificate) -> Result<Output, NoMemory>
    ensures { IfOk result (λ output. outcome_of output ≡ explained certificate.now) }
{
    let mut output = verdict_output(alloc, check(certificate))?;
    if let Some(refutation) = why_refused(alloc, certificate)? {
        push_refutation(&mut output.text, certificate, &refutation)?;
    }
    Ok(output)
}

#[tactic(auto, unfolding(crate::specs::Explaining::explaining_outcome))]
fn text_output(alloc: Global, text: &[u8]) -> Result<Output, NoMemory>
    requires { length text.now ≤ MAX_BYTES }
    ensures { IfOk result (λ output. outcome_of output ≡ explaining_outcome text.now) }
{
    match read_certificate(alloc, text) {
        Ok(certificate) => explained(alloc, &certificate),
        Err(TextFault::Bad(fault)) => Ok(fault_output(alloc, fault)?),
        Err(TextFault::NoMemory) => Err(NoMemory),
    }
}

impl Answering for Why {
    ghost use Rattle.std.specs.Prelude.{true};
    ghost use Rattle.re_why.specs.Explaining.{explaining_outcome};

    ghost fits = { λ _. Unit {0} };

    ghost outcome = { λ _. explaining_outcome };

    ghost worth = { λ _ _. Unit {0} };

    ghost judging = { λ _. true };

    fn answer(&self, alloc: Global, text: Vec<u8>) -> Result<Output, NoMemory> {
        text_output(alloc, text.as_slice())
    }
}
