//! The ends on a line.
ghost use Rattle.re_graph_words.specs.GraphLines.{end_on, end_with as both_numbers, judged_end as end_judged, judged_word as word_judged, line_from as ends_from, is_numbered as has_numbers, stands_before as is_before};
ghost use Rattle.re_problem.specs.SectionLines.{words_of};
ghost use Rattle.re_problem.specs.Numerals.{number_of};
ghost use Rattle.std.specs.Prelude.{◌≡◌, ◌≢◌, ◌≤◌, ◌<◌, ◌==◌, ◌+◌, ◌++◌, ◌∷◌, [], IfOk, IfSome, drop, length, position, take};

use crate::faults::GraphFault;
use arrayvec::ArrayVec;
use re_cover::GraphEnd;
use re_graph::{MAX_NODES, PassiveEnds, has_end, stands};
use re_labels::Degrees;
use re_problem::{InputFault, next_word, read_number};

fn end_with(node: Option<u32>, port: Option<u32>) -> Option<(u32, u32)>
    ensures { result ≡ both_numbers node port }
{
    let node = node?;
    let port = port?;
    Some((node, port))
}

// The place of the first dot.
fn dot_place(word: &[u8]) -> Option<usize>
    ensures place { result ≡ position (λ b. b == 46) word.now }
    ensures within { IfSome result (λ place. place < length word.now) }
{
    word.iter().position(|byte| *byte == b'.')
}

// What stands in front of the dot at this place, and behind it.
fn cut_end(word: &[u8], dot: usize) -> Option<(u32, u32)>
    requires { dot < length word.now }
    ensures { result ≡ both_numbers (number_of (take dot word.now)) (number_of (drop (dot + 1) word.now)) }
{
    end_with(read_number(&word[..dot]), read_number(&word[dot + 1..]))
}

// The number of the node and the port that a word writes.
fn read_end(word: &[u8]) -> Option<(u32, u32)>
    ensures { result ≡ end_on word.now }
{
    match dot_place(word) {
        None => None,
        Some(dot) => cut_end(word, dot),
    }
}

// Whether the end stands on a line before, or before it on its own.
fn stands_before(passive: &[PassiveEnds], ends: &[GraphEnd], here: GraphEnd) -> bool
    ensures { result ≡ is_before passive.now ends.now here }
{
    stands(passive, here) || has_end(ends, here)
}

// Whether a node has a port of this number, where nodes count from 1.
fn is_numbered(degrees: Degrees, node: u32, port: u32) -> bool
    ensures { result ≡ has_numbers degrees node port }
{
    1 <= node && 1 <= port && port <= degrees.active as u32
}

// The end with these numbers, behind the others.
fn judged_end(
    degrees: Degrees,
    number: u32,
    passive: &[PassiveEnds],
    ends: &[GraphEnd],
    node: u32,
    port: u32,
) -> Result<GraphEnd, GraphFault>
    ensures end { result ≡ end_judged degrees number passive.now ends.now node port }
    ensures room { IfOk result (λ _. length ends.now ≢ degrees.passive) }
{
    if !is_numbered(degrees, node, port) {
        return Err(GraphFault::NoSuchEnd(number));
    }
    if node > MAX_NODES as u32 {
        return Err(GraphFault::TooManyNodes(number));
    }
    let here = GraphEnd {
        node: node as u8 - 1,
        port: port as u8,
    };
    if stands_before(passive, ends, here) {
        return Err(GraphFault::EndTwice(number));
    }
    if ends.len() == degrees.passive as usize {
        return Err(GraphFault::Text(InputFault::WrongDegree(number)));
    }
    Ok(here)
}

// The end that the word writes, behind the others.
fn judged_word(
    degrees: Degrees,
    number: u32,
    passive: &[PassiveEnds],
    ends: &[GraphEnd],
    word: &[u8],
) -> Result<GraphEnd, GraphFault>
    ensures end { result ≡ word_judged degrees number passive.now ends.now (end_on word.now) }
    ensures room { IfOk result (λ _. length ends.now ≢ degrees.passive) }
{
    match read_end(word) {
        None => Err(GraphFault::NotEnds(number)),
        Some((node, port)) => judged_end(degrees, number, passive, ends, node, port),
    }
}

// The ends, and one more.
fn longer(ends: &[GraphEnd], here: GraphEnd) -> ArrayVec<GraphEnd, 6>
    requires { length ends.now ≤ 5 }
    ensures { result.items ≡ ends.now ++ here ∷ [] }
{
    let mut held = ArrayVec::new();
    for end in ends {
        held.push(*end);
    }
    held.push(here);
    held
}

// The ends on a line, behind those of the lines before and of the words before on it.
fn line_from(
    degrees: Degrees,
    number: u32,
    passive: &[PassiveEnds],
    ends: &[GraphEnd],
    line: &[u8],
) -> Result<PassiveEnds, GraphFault>
    requires few { length ends.now ≤ degrees.passive }
    requires degree { degrees.passive ≤ 6 }
    ensures { result ≡ ends_from degrees number passive.now ends.now (words_of line.now) }
{
    let Some((word, rest)) = next_word(line) else {
        if ends.len() != degrees.passive as usize {
            return Err(GraphFault::Text(InputFault::WrongDegree(number)));
        }
        return match PassiveEnds::new(ends) {
            Some(held) => Ok(held),
            None => unreachable!(),
        };
    };
    match judged_word(degrees, number, passive, ends, word) {
        Err(fault) => Err(fault),
        Ok(here) => {
            let more = longer(ends, here);
            line_from(degrees, number, passive, more.as_slice(), rest)
        }
    }
}

/// The ends on a line of this number, behind those of the lines before.
pub(crate) fn read_line(
    degrees: Degrees,
    number: u32,
    passive: &[PassiveEnds],
    line: &[u8],
) -> Result<PassiveEnds, GraphFault>
    requires degree { degrees.passive ≤ 6 }
    ensures { result ≡ ends_from degrees number passive.now [] (words_of line.now) }
{
    let none: ArrayVec<GraphEnd, 6> = ArrayVec::new();
    line_from(degrees, number, passive, none.as_slice(), line)
}
