//! What comes of a part of evidence, by what it holds.
ghost use Rattle.re_judging.specs.PartVerdicts.{IsPart, kind_of};
ghost use Rattle.std.specs.Prelude.{◌≡◌, ◌≤◌, IfOk, length};

use crate::bound_parts::{certificate_part, given_part};
use crate::flexible_parts::{FLEXIBLE, flexible_part};
use crate::graph_parts::graph_part;
use crate::greedy_parts::{GREEDY, greedy_part};
use crate::level_parts::{LENGTH, length_part};
use crate::types::{Judged, PartKind};
use re_chains::has_line;
use re_io::MAX_BYTES;
use re_labels::NoMemory;
use re_settings::GIVEN;
use std::alloc::Global;

/// The name of the line in front of a graph.
const GRAPH: &[u8] = b"graph";

/// What the text holds, by its lines `==` with a name.
pub fn kind_of(text: &[u8]) -> PartKind
    requires { length text.now ≤ MAX_BYTES }
    ensures { result ≡ kind_of text.now }
{
    if has_line(GRAPH, text) {
        PartKind::Graph
    } else if has_line(LENGTH, text) {
        PartKind::Length
    } else if has_line(FLEXIBLE, text) {
        PartKind::Flexible
    } else if has_line(GREEDY, text) {
        PartKind::Greedy
    } else if has_line(GIVEN, text) {
        PartKind::Given
    } else {
        PartKind::Certificate
    }
}

/// What comes of a part of evidence: its problem, and what it says of it, which is true; or its refusal, as the word answers that judges such texts.
pub fn judge_part(alloc: Global, text: &[u8]) -> Result<Judged, NoMemory>
    requires { length text.now ≤ MAX_BYTES }
    ensures { IfOk result (IsPart text.now) }
{
    match kind_of(text) {
        PartKind::Certificate => certificate_part(alloc, text),
        PartKind::Given => given_part(alloc, text),
        PartKind::Graph => graph_part(alloc, text),
        PartKind::Length => length_part(alloc, text),
        PartKind::Flexible => flexible_part(alloc, text),
        PartKind::Greedy => greedy_part(alloc, text),
    }
}
