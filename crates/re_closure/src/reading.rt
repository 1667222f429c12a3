//! Texts with a diagram.
ghost use Rattle.re_cert.specs.Bounds.{last_problem};
ghost use Rattle.re_cert.specs.declared.certificate.Kind.TheVariants.{Fixed};
ghost use Rattle.re_closure.specs.DiagramTexts.{AreEdges, TextGives};
ghost use Rattle.re_io.specs.declared.read.TheConstants.{MAX_BYTES};
ghost use Rattle.re_chains.specs.TwoTexts.{IsCut};
ghost use Rattle.std.specs.Prelude.{◌≡◌, ◌<◌, ◌≤◌, ◌+◌, ℕ, IfOk, List, codes, length};

use crate::edges::read_edges;
use re_cert::Certificate;
use re_chains::{Cut, at_line, read_chain};
use re_problem::TextFault;
use std::alloc::Global;

/// A chain, and the edges of a diagram of labels of its last problem.
#[derive(Drop)]
pub(crate) struct DiagramText {
    pub(crate) chain: Certificate,
    /// Pairs of labels, of which the second stands at least as high as the first.
    pub(crate) edges: Vec<(u8, u8)>,
}

/// The chain and the edges of a text that is cut at its line `== diagram`. `Bad` comes exactly where the text has a fault, with its first one.
pub(crate) fn read_diagram(alloc: Global, cut: Cut<'_>) -> Result<DiagramText, TextFault>
    requires few { length cut.front.now ≤ MAX_BYTES }
    requires counted { cut.number ≤ cut.byte + 1 }
    requires number { 1 < cut.number }
    requires within { 0 < length cut.behind.now → cut.byte + length cut.behind.now ≤ MAX_BYTES }
    ensures text { (text : List ℕ) → IsCut (codes "diagram") text cut.entry → TextGives text result }
    ensures open { IfOk result (λ text. text.chain.kind ≡ Fixed → ⊥) }
    ensures edges { IfOk result (λ text. AreEdges (length (last_problem text.chain).names) text.edges.items) }
{
    let chain = match read_chain(alloc, cut.front) {
        Ok(chain) => chain,
        Err(TextFault::Bad(fault)) => return Err(TextFault::Bad(at_line(cut.number - 1, fault))),
        Err(TextFault::NoMemory) => return Err(TextFault::NoMemory),
    };
    let names = chain.last().names();
    match read_edges(alloc, names, cut.byte, cut.number, cut.behind) {
        Ok(edges) => Ok(DiagramText { chain, edges }),
        Err(fault) => Err(fault),
    }
}
