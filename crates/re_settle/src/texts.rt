//! Whether what is found can be written out.
ghost use Rattle.re_settle.specs.Ways.{HasText};
ghost use Rattle.re_chains.specs.GivenTexts.{IsGivenText, given_text};
ghost use Rattle.re_texts.specs.PrintedCertificates.{certificate_text};
ghost use Rattle.std.specs.Prelude.{◌≡◌, ◌<◌, IfOk, false, length, true};

use re_cert::Certificate;
use re_chains::print_given;
use re_frame::Answer;
use re_io::MAX_BYTES;
use re_labels::NoMemory;
use re_problem::Problem;
use re_texts::print_certificate;
use std::alloc::Global;

/// Whether the text of the certificate is no longer than one that is read, which is where it is read as the certificate.
pub fn has_text(alloc: Global, certificate: &Certificate) -> Result<bool, NoMemory>
    ensures text { IfOk result (λ has. has ≡ true → HasText certificate.now) }
    ensures whole { IfOk result (λ has. HasText certificate.now → has ≡ true) }
    ensures long { IfOk result (λ has. has ≡ false → MAX_BYTES < length (certificate_text certificate.now)) }
{
    let text = print_certificate(alloc, certificate)?;
    Ok(text.len() <= MAX_BYTES)
}

/// The same of the certificate and an input problem behind it, where the text is read as both.
pub fn has_given_text(
    alloc: Global,
    certificate: &Certificate,
    input: &Problem,
) -> Result<bool, NoMemory>
    ensures text { IfOk result (λ has. has ≡ true → IsGivenText certificate.now input.now (given_text certificate.now input.now)) }
    ensures whole { IfOk result (λ has. IsGivenText certificate.now input.now (given_text certificate.now input.now) → has ≡ true) }
{
    let output = print_given(alloc, certificate, input)?;
    match output.answer {
        Answer::Done => Ok(true),
        _ => Ok(false),
    }
}
