//! The reading of chains.
ghost use Rattle.re_cert.specs.CertificateTexts.{certificate_fault, certificate_of, text_lines};
ghost use Rattle.re_chains.specs.Chains.{chain_of};
ghost use Rattle.re_chains.specs.ChainTexts.{ReadGives, chain_fault, is_certificate_text, problem_chain, text_bound, text_chain};
ghost use Rattle.re_io.specs.declared.read.TheConstants.{MAX_BYTES};
ghost use Rattle.re_problem.specs.ProblemTexts.{first_fault, lines_of, problem_of};
ghost use Rattle.std.specs.Prelude.{◌≡◌, ◌≤◌, IfOk, length};

use crate::copies::chain;
use crate::one_kind::LowerChain;
use re_cert::{Certificate, Kind, read_certificate};
use re_labels::NoMemory;
use re_problem::{Problem, TextFault, begins_section, cut_line, is_empty_line, read_problem};
use std::alloc::Global;

/// Whether the text is that of a certificate, and not of a problem: whether its first line that isn't empty begins with `==`.
#[tactic(auto, unfolding(crate::specs::ChainTexts::is_certificate_text))]
pub fn is_certificate_text(text: &[u8]) -> bool
    ensures { result ≡ is_certificate_text text.now }
{
    let mut rest = text;
    'lines: while !rest.is_empty() {
        let (line, behind) = cut_line(rest);
        if !is_empty_line(line) {
            return begins_section(line);
        }
        rest = behind;
    }
    false
}

/// The chain that a problem stands for: of kind lower, without steps. It takes no memory.
pub fn problem_chain(alloc: Global, problem: Problem) -> LowerChain
    ensures { result.certificate ≡ problem_chain problem }
{
    match Certificate::build(Kind::Lower, 0, problem, Vec::new(alloc), Vec::new(alloc)) {
        Some(chain) => LowerChain::new(chain),
        None => unreachable!(),
    }
}

// The chain that a certificate stands for, in its own memory where that isn't a fixed point.
fn as_chain(alloc: Global, certificate: Certificate) -> Result<Certificate, NoMemory>
    ensures { IfOk result (λ chain. chain ≡ chain_of certificate) }
{
    match certificate.kind() {
        Kind::Fixed => chain(alloc, &certificate),
        _ => Ok(certificate),
    }
}

// The chain of the certificate that the text writes.
fn read_steps(alloc: Global, text: &[u8]) -> Result<Certificate, TextFault>
    requires { length text.now ≤ MAX_BYTES }
    ensures { ReadGives (certificate_fault (text_lines text.now)) (chain_of (certificate_of (text_lines text.now))) result }
{
    match read_certificate(alloc, text) {
        Ok(certificate) => match as_chain(alloc, certificate) {
            Ok(chain) => Ok(chain),
            Err(_) => Err(TextFault::NoMemory),
        },
        Err(fault) => Err(fault),
    }
}

// The chain of the problem that the text writes.
fn read_start(alloc: Global, text: &[u8]) -> Result<Certificate, TextFault>
    requires { length text.now ≤ MAX_BYTES }
    ensures { ReadGives (first_fault 0 1 (lines_of text.now)) (problem_chain (problem_of (lines_of text.now))) result }
{
    match read_problem(alloc, text) {
        Ok(problem) => Ok(problem_chain(alloc, problem).certificate),
        Err(fault) => Err(fault),
    }
}

// The certificate that the text writes.
fn read_whole(alloc: Global, text: &[u8]) -> Result<Certificate, TextFault>
    requires { length text.now ≤ MAX_BYTES }
    ensures { ReadGives (certificate_fault (text_lines text.now)) (certificate_of (text_lines text.now)) result }
{
    read_certificate(alloc, text)
}

/// The bound that a text writes: that of its certificate, where the first of its lines that isn't of blanks alone begins with `==`, and
/// else the lower bound without steps of its problem. `Bad` comes exactly where the text has a fault, with its first one.
pub fn read_bound(alloc: Global, text: &[u8]) -> Result<Certificate, TextFault>
    requires { length text.now ≤ MAX_BYTES }
    ensures { ReadGives (chain_fault text.now) (text_bound text.now) result }
{
    if is_certificate_text(text) {
        read_whole(alloc, text)
    } else {
        read_start(alloc, text)
    }
}

/// The chain that a text writes. Where the first of its lines that isn't of blanks alone begins with `==`, the text is that of a
/// certificate, and a fixed point stands for the lower bound with its steps; else it is that of a problem, which stands for the lower
/// bound without steps. `Bad` comes exactly where the text has a fault, with its first one.
///
/// It costs what the reading of the certificate or of the problem costs; a fixed point is copied once.
pub fn read_chain(alloc: Global, text: &[u8]) -> Result<Certificate, TextFault>
    requires { length text.now ≤ MAX_BYTES }
    ensures { ReadGives (chain_fault text.now) (text_chain text.now) result }
{
    if is_certificate_text(text) {
        read_steps(alloc, text)
    } else {
        read_start(alloc, text)
    }
}
