//! The lines of a graph.
ghost use Rattle.re_graph_words.specs.GraphLines.{graph_from, nodes_in as count_in, nodes_on as count_on, whole_graph as graph_of_all};
ghost use Rattle.re_graph_words.specs.Reading.{AddsLine, LinesGive};
ghost use Rattle.re_io.specs.declared.read.TheConstants.{MAX_BYTES};
ghost use Rattle.re_problem.specs.ProblemTexts.{lines_of};
ghost use Rattle.std.specs.Prelude.{◌≡◌, ◌<◌, ◌≤◌, ◌+◌, [], IfOk, length};

use crate::ends::read_line;
use crate::faults::{GraphFault, ReadFault};
use re_cover::GraphEnd;
use re_graph::{Graph, MAX_NODES, PassiveEnds};
use re_labels::Degrees;
use re_problem::{InputFault, begins_section, cut_line, is_empty_line};
use std::alloc::Global;

// The greatest number of a node at these ends, where nodes count from 1.
fn nodes_on(ends: &[GraphEnd]) -> usize
    ensures { result ≡ count_on ends.now }
{
    let [here, others @ ..] = ends else {
        return 0;
    };
    let node = here.node as usize + 1;
    node.max(nodes_on(others))
}

// The same at the ends of all these passive nodes.
fn nodes_in(passive: &[PassiveEnds]) -> usize
    ensures { result ≡ count_in passive.now }
{
    let [ends, others @ ..] = passive else {
        return 0;
    };
    let node = nodes_on(ends.ends());
    node.max(nodes_in(others))
}

// The graph of these passive nodes, where each end of each node stands.
fn whole_graph(
    degrees: Degrees,
    number: u32,
    passive: Vec<PassiveEnds>,
) -> Result<Graph, GraphFault>
    ensures graph { result ≡ graph_of_all degrees number passive.items }
    ensures degrees { IfOk result (λ graph. (graph.active_degree ≡ degrees.active) × (graph.passive_degree ≡ degrees.passive)) }
{
    if passive.is_empty() {
        return Err(GraphFault::EndMissing(number));
    }
    let nodes = nodes_in(passive.as_slice());
    if nodes > MAX_NODES as usize {
        return Err(GraphFault::EndMissing(number));
    }
    match Graph::build(degrees, nodes as u8, passive) {
        Some(graph) => Ok(graph),
        None => Err(GraphFault::EndMissing(number)),
    }
}

// Adds the ends on a line of this number, unless it is empty.
fn add_line(
    passive: &mut Vec<PassiveEnds>,
    degrees: Degrees,
    number: u32,
    line: &[u8],
) -> Result<(), ReadFault>
    requires { degrees.passive ≤ 6 }
    ensures { AddsLine degrees number line.now passive.old.items passive.new.items result }
{
    if is_empty_line(line) {
        return Ok(());
    }
    if begins_section(line) {
        return Err(ReadFault::Bad(GraphFault::Text(InputFault::BadSection(number))));
    }
    match read_line(degrees, number, passive.as_slice(), line) {
        Err(fault) => Err(ReadFault::Bad(fault)),
        Ok(ends) => match passive.push(ends) {
            Ok(()) => Ok(()),
            Err(_) => Err(ReadFault::NoMemory),
        },
    }
}

/// The graph that these lines write, of which the first has this number. It reads line by line, and keeps the ends.
pub(crate) fn read_lines(
    alloc: Global,
    degrees: Degrees,
    number: u32,
    text: &[u8],
) -> Result<Graph, ReadFault>
    requires counted { 0 < length text.now → number + length text.now ≤ MAX_BYTES + 1 }
    requires degree { degrees.passive ≤ 6 }
    ensures graph { LinesGive (graph_from degrees number [] (lines_of text.now)) result }
    ensures degrees { IfOk result (λ graph. (graph.active_degree ≡ degrees.active) × (graph.passive_degree ≡ degrees.passive)) }
{
    let mut passive: Vec<PassiveEnds> = Vec::new(alloc);
    let mut current = number;
    let mut rest = text;
    'lines: while !rest.is_empty() {
        let (line, behind) = cut_line(rest);
        match add_line(&mut passive, degrees, current, line) {
            Ok(()) => {}
            Err(fault) => return Err(fault),
        }
        current += 1;
        rest = behind;
    }
    match whole_graph(degrees, current, passive) {
        Ok(graph) => Ok(graph),
        Err(fault) => Err(ReadFault::Bad(fault)),
    }
}
