//! Texts of a problem and a graph.
ghost use Rattle.re_graph_words.specs.GraphInputs.{graph_for as graph_of_lines, graph_input};
ghost use Rattle.re_graph_words.specs.Reading.{GraphGives, IsRefused, TextRefuses};
ghost use Rattle.re_io.specs.declared.read.TheConstants.{MAX_BYTES};
ghost use Rattle.re_problem.specs.ProblemTexts.{lines_of};
ghost use Rattle.re_chains.specs.TwoTexts.{has_line};
ghost use Rattle.std.specs.Prelude.{◌≡◌, ◌<◌, ◌≤◌, ◌+◌, codes, false, length};

use crate::faults::{GraphFault, ReadFault};
use crate::lines::read_lines;
use re_chains::{cut_at, read_problem_at};
use re_graph::Graph;
use re_problem::{InputFault, Problem, TextFault};
use std::alloc::Global;

/// The name of the line in front of the graph.
pub(crate) const GRAPH: &[u8] = b"graph";

/// A problem and a graph of its degrees.
#[derive(Drop)]
pub struct GraphText {
    pub problem: Problem,
    pub graph: Graph,
}

/// The fault of the problem's text.
pub(crate) fn text_fault(fault: TextFault) -> ReadFault
    ensures { TextRefuses fault result }
{
    match fault {
        TextFault::Bad(fault) => ReadFault::Bad(GraphFault::Text(fault)),
        TextFault::NoMemory => ReadFault::NoMemory,
    }
}

// The fault of a text without the line.
fn end_fault(alloc: Global, text: &[u8]) -> ReadFault
    requires few { length text.now ≤ MAX_BYTES }
    requires none { has_line (codes "graph") text.now ≡ false }
    ensures { IsRefused (graph_input text.now) result }
{
    let fault = match read_problem_at(alloc, 0, 1, text) {
        Ok(_) => return ReadFault::Bad(GraphFault::Text(InputFault::EarlyEnd)),
        Err(fault) => fault,
    };
    text_fault(fault)
}

// The problem with the graph of the lines behind it.
fn graph_for(
    alloc: Global,
    problem: Problem,
    number: u32,
    text: &[u8],
) -> Result<GraphText, ReadFault>
    requires { 0 < length text.now → number + length text.now ≤ MAX_BYTES + 1 }
    ensures { GraphGives (graph_of_lines problem number (lines_of text.now)) result }
{
    let degrees = problem.degrees();
    match read_lines(alloc, degrees, number, text) {
        Ok(graph) => Ok(GraphText { problem, graph }),
        Err(fault) => Err(fault),
    }
}

/// The problem and the graph that a text writes. `Bad` comes exactly where the text has a fault, with its first one.
pub fn read_graph_text(alloc: Global, text: &[u8]) -> Result<GraphText, ReadFault>
    requires { length text.now ≤ MAX_BYTES }
    ensures { GraphGives (graph_input text.now) result }
{
    let Some(cut) = cut_at(GRAPH, text) else {
        return Err(end_fault(alloc, text));
    };
    match read_problem_at(alloc, 0, 1, cut.front) {
        Ok(problem) => graph_for(alloc, problem, cut.number, cut.behind),
        Err(fault) => Err(text_fault(fault)),
    }
}
