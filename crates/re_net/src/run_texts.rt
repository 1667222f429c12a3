//! Inputs of `run`, read as a whole.
ghost use Rattle.re_cert.specs.CertificateTexts.{text_lines};
ghost use Rattle.re_io.specs.declared.read.TheConstants.{MAX_BYTES};
ghost use Rattle.re_net.specs.FiniteTrees.{IsNumbered};
ghost use Rattle.re_net.specs.RunReading.{AreMessages, Fits, Holds, RestGives, RunGives, state_of};
ghost use Rattle.re_net.specs.RunTexts.{behind};
ghost use Rattle.std.specs.Prelude.{◌≡◌, ◌≤◌, ◌+◌, ◌-◌, IfOk, length};
ghost use Rattle.re_problem.specs.NamedProblems.{degrees_of};

use crate::certificate_part::certificate_end;
use crate::reading::{Delivery, Place, judge};
use crate::trees::Tree;
use re_cert::{Certificate, read_certificate};
use re_io::cut_line;
use re_problem::{InputFault, TextFault};
use std::alloc::Global;

/// A certificate, a finite tree whose degrees are those of the first problem, and deliveries of messages over its edges, in order.
#[derive(Drop)]
pub struct RunInput {
    /// The certificate.
    pub certificate: Certificate,
    /// The tree, which is numbered.
    pub tree: Tree,
    /// The deliveries, each of a message of the tree with a number below that of the steps.
    pub deliveries: Vec<Delivery>,
}

// What is held behind the lines that stand behind a certificate, at the end of a text of so many bytes.
fn read_rest(
    alloc: Global,
    certificate: &Certificate,
    size: usize,
    first: u32,
    text: &[u8],
) -> Result<Place, TextFault>
    requires size { size ≤ MAX_BYTES }
    requires within { length text.now ≤ size }
    requires counted { first ≤ size - length text.now + 1 }
    ensures { RestGives certificate.now (behind (size - length text.now) first (state_of certificate.now Place.Behind) (text_lines text.now)) result }
{
    let mut place = Place::Behind;
    let mut number = first;
    let mut rest = text;
    'lines: while !rest.is_empty() {
        let (line, behind, ended) = cut_line(rest);
        let byte = (size - rest.len()) as u32;
        place = match judge(alloc, certificate, place, byte, number, line, ended) {
            Ok(next) => next,
            Err(fault) => return Err(fault),
        };
        number += 1;
        rest = behind;
    }
    Ok(place)
}

/// The certificate, the tree and the deliveries that a text writes: what the word `run` reads. `Bad` comes exactly where the text has a
/// fault, with its first one.
///
/// The text is that of a certificate up to and with its `== end`, then the section line `== tree` with lines of a tree, then the section
/// line `== deliveries` with lines of deliveries to its end. Bytes count from 0 and lines from 1 in the whole text. Lines of blanks alone
/// are passed over behind `== end`. Up to `== deliveries` an unfinished last line isn't judged, unless it is `== deliveries` with optional
/// blanks behind it; the last delivery needs no line feed.
///
/// A line of the certificate is at fault as `read_certificate` has it. Between `== end` and `== tree` any other line is `BadSection`. The
/// first line of the tree is `active` or `passive`, the side of node 0; each further one is three numbers that join the next node: the node
/// to which it is joined, the port there, and its own port. A line of the deliveries is three numbers: a node, its port, and the number of
/// its message. Numbers have at most 9 digits and no leading zero, and words are separated by blanks. In these two sections a byte other
/// than a letter, a digit or a blank is `BadByte`, and a line of another form is `BadItem`, as is `== deliveries` before the side of node 0;
/// another section line is `BadSection`. It is `BadEntry` where no node can be joined there, where there is no such node, port or message
/// number, and at `== deliveries` where the tree isn't numbered. The line that joins one node more than a tree may have is `TooManyNodes`.
/// A text that ends before `== deliveries` is `EarlyEnd`.
///
/// It holds the certificate, the tree and the deliveries alone, and goes through the certificate's lines twice.
pub fn read_run(alloc: Global, text: &[u8]) -> Result<RunInput, TextFault>
    requires { length text.now ≤ MAX_BYTES }
    ensures gives { RunGives text.now result }
    ensures degrees { IfOk result (λ input. input.tree.degrees ≡ degrees_of input.certificate.first) }
    ensures numbered { IfOk result (λ input. IsNumbered input.tree) }
    ensures messages { IfOk result (λ input. AreMessages input.tree (length input.certificate.steps) input.deliveries.items) }
{
    let (rest, number) = certificate_end(alloc, text)?;
    let front = &text[..text.len() - rest.len()];
    let certificate = read_certificate(alloc, front)?;
    match read_rest(alloc, &certificate, text.len(), number, rest)? {
        Place::Deliveries(tree, deliveries) => Ok(RunInput {
            certificate,
            tree,
            deliveries,
        }),
        _ => Err(TextFault::Bad(InputFault::EarlyEnd)),
    }
}
