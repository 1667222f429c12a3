//! A certificate, printed and read.
ghost use Rattle.re_texts.specs.PrintedCertificates.{certificate_text};
ghost use Rattle.re_io.specs.declared.read.TheConstants.{MAX_BYTES};
ghost use Rattle.std.specs.Prelude.{◌≡◌, ◌<◌, ◌≤◌, IfOk, MatchOption, length};

use crate::printed_certificate::print_certificate;
use re_cert::{Certificate, read_certificate};
use re_io::MAX_BYTES;
use re_labels::NoMemory;
use re_problem::TextFault;
use std::alloc::Global;

/// The certificate that the text of this one writes, which is this one, or None exactly where that text has more than `MAX_BYTES`
/// bytes and so can't be read. It prints the certificate and reads the text, and costs what the two cost.
pub fn read_certificate_back(
    alloc: Global,
    certificate: &Certificate,
) -> Result<Option<Certificate>, NoMemory>
    ensures { IfOk result (λ read. MatchOption read (MAX_BYTES < length (certificate_text certificate.now)) (λ again. (length (certificate_text certificate.now) ≤ MAX_BYTES) × (again ≡ certificate.now))) }
{
    let text = print_certificate(alloc, certificate)?;
    if text.len() > MAX_BYTES {
        return Ok(None);
    }
    match read_certificate(alloc, text.as_slice()) {
        Ok(read) => Ok(Some(read)),
        Err(TextFault::NoMemory) => Err(NoMemory),
        Err(TextFault::Bad(_)) => unreachable!(),
    }
}
