//! The certificate at the front of an input of `run`.
ghost use Rattle.re_cert.specs.CertificateReading.{Stands};
ghost use Rattle.re_cert.specs.CertificateTexts.{State as CertificateState, behind as behind_lines, is_whole};
ghost use Rattle.re_io.specs.LineReading.{LineText};
ghost use Rattle.re_io.specs.declared.read.TheConstants.{MAX_BYTES};
ghost use Rattle.re_problem.specs.TextReading.{IsRefused};
ghost use Rattle.re_net.specs.RunReading.{Ends, Feeds};
ghost use Rattle.re_net.specs.RunTexts.{behind, run_text};
ghost use Rattle.re_net.specs.RunTexts.State.{InCertificate};
ghost use Rattle.std.specs.Prelude.{◌≡◌, ◌==◌, ◌≤◌, ◌<◌, ◌+◌, ◌++◌, ◌∷◌, [], false, true, List, Ok, Err, ℕ, IfErr, IfOk, length};

use crate::lines::is_deliveries_line;
use re_cert::CertReader;
use re_io::{Line, cut_line};
use re_problem::{InputFault, TextFault};
use std::alloc::Global;

// A section line that no certificate has.
const MARK: &[u8] = b"==";

// Feeds a finished line with this text.
fn feed(alloc: Global, reader: &mut CertReader, text: &[u8]) -> Result<(), TextFault>
    requires fed { (before : List LineText) × Stands reader.old before }
    requires within { reader.old.byte + length text.now + 1 ≤ MAX_BYTES }
    ensures { (before : List LineText) (s : CertificateState) → behind_lines before ≡ Ok s → Stands reader.old before → Feeds s text.now reader.new before result }
{
    let text = match Vec::from_slice(alloc, text) {
        Ok(text) => text,
        Err(_) => return Err(TextFault::NoMemory),
    };
    match reader.feed(&Line { text, ended: true }) {
        Ok(_) => Ok(()),
        Err(fault) => Err(fault),
    }
}

// The fault of a text whose last line is this one, without a line feed, before its certificate has ended.
fn unfinished_fault(alloc: Global, reader: &mut CertReader, line: &[u8]) -> TextFault
    requires fed { (before : List LineText) × Stands reader.old before }
    requires goes_on { (before : List LineText) → Stands reader.old before → is_whole (behind_lines before) ≡ false }
    requires within { reader.old.byte + length line.now ≤ MAX_BYTES }
    ensures { (before : List LineText) (s : CertificateState) (byte number : ℕ) → behind_lines before ≡ Ok s → Stands reader.old before
        → IsRefused (behind byte number (InCertificate s) (record { text = line.now; ended = false } ∷ [])) result }
{
    if !is_deliveries_line(line) {
        return TextFault::Bad(InputFault::EarlyEnd);
    }
    match feed(alloc, reader, MARK) {
        Ok(()) => unreachable!(),
        Err(fault) => fault,
    }
}

// What stands behind the certificate's `== end`, read by a new reader, and the number of its first line.
fn end_behind<'a>(
    alloc: Global,
    reader: &mut CertReader,
    text: &'a [u8],
) -> Result<(&'a [u8], u32), TextFault>
    requires within { length text.now ≤ MAX_BYTES }
    requires new { Stands reader.old [] }
    ensures ends { IfOk result (λ left. Ends text.now left.0.now left.1) }
    ensures refused { IfErr result (λ fault. IsRefused (run_text text.now) fault) }
{
    let mut rest = text;
    let mut number: u32 = 1;
    'lines: while !rest.is_empty() {
        let (line, behind, ended) = cut_line(rest);
        if !ended {
            return Err(unfinished_fault(alloc, reader, line));
        }
        match feed(alloc, reader, line) {
            Ok(()) => {}
            Err(fault) => return Err(fault),
        }
        rest = behind;
        number += 1;
        if reader.ended() {
            return Ok((rest, number));
        }
    }
    Err(TextFault::Bad(InputFault::EarlyEnd))
}

/// What stands behind the certificate's `== end`, and the number of its first line.
pub(crate) fn certificate_end(alloc: Global, text: &[u8]) -> Result<(&[u8], u32), TextFault>
    requires { length text.now ≤ MAX_BYTES }
    ensures ends { IfOk result (λ left. Ends text.now left.0.now left.1) }
    ensures refused { IfErr result (λ fault. IsRefused (run_text text.now) fault) }
{
    let mut reader = CertReader::new(alloc);
    end_behind(alloc, &mut reader, text)
}
