//! The printing of a bound and an input problem.
ghost use Rattle.re_cert.specs.CertificateTexts.{certificate_fault, certificate_of, text_lines};
ghost use Rattle.re_texts.specs.PrintedCertificates.{certificate_text};
ghost use Rattle.re_frame.specs.Outcomes.{outcome_of};
ghost use Rattle.re_problem.specs.CanonicalTexts.{canonical};
ghost use Rattle.re_chains.specs.GivenTexts.{GivesBoth, IsReadAs, given_text, given_text_outcome};
ghost use Rattle.std.specs.Prelude.{◌≡◌, IfOk, None};

use re_cert::Certificate;
use re_frame::{Output, done, push_words, too_long};
use re_io::MAX_BYTES;
use re_labels::NoMemory;
use re_problem::{Problem, print_problem};
use re_texts::{limits, print_certificate};
use std::alloc::Global;

// The text of both.
fn text_of(alloc: Global, bound: &Certificate, input: &Problem) -> Result<Vec<u8>, NoMemory>
    ensures text { IfOk result (λ text. text.items ≡ given_text bound.now input.now) }
    ensures read { IfOk result (λ text. IsReadAs bound.now input.now text.items) }
{
    limits(input);
    let mut text = print_certificate(alloc, bound)?;
    push_words(&mut text, "== given\n")?;
    let more = print_problem(alloc, input)?;
    text.extend_from_slice(more.as_slice())?;
    Ok(text)
}

/// The output that is the text of a bound and, behind a line `== given`, of an input problem; or the limit exactly where that text is
/// longer than `MAX_BYTES` bytes, and so would be read by no word. What is put out has no fault, and is read as this bound and this problem.
#[tactic(auto, unfolding(re_frame::specs::Outcomes::within_limit))]
pub fn print_given(alloc: Global, bound: &Certificate, input: &Problem) -> Result<Output, NoMemory>
    ensures outcome { IfOk result (λ output. outcome_of output ≡ given_text_outcome bound.now input.now) }
    ensures text { IfOk result (λ output. GivesBoth bound.now input.now (outcome_of output)) }
{
    let text = text_of(alloc, bound, input)?;
    if text.len() > MAX_BYTES {
        return Ok(too_long(alloc)?);
    }
    Ok(done(text))
}
