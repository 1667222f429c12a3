//! Texts of a problem, an input problem and a graph with a solution of the input problem.
ghost use Rattle.re_graph_words.specs.GivenInputs.{at_labels_line as before_labels, given_for as given_with, given_graph, graph_behind as graph_with, labelled_for as labels_of_lines, labelled_input};
ghost use Rattle.re_graph_words.specs.GivenReading.{BeforeLine, GivenGraphGives, LabelledGives};
ghost use Rattle.re_graph_words.specs.Reading.{IsRefused};
ghost use Rattle.re_io.specs.declared.read.TheConstants.{MAX_BYTES};
ghost use Rattle.re_problem.specs.ProblemTexts.{lines_of};
ghost use Rattle.re_chains.specs.TwoTexts.{has_line};
ghost use Rattle.std.specs.Prelude.{◌≡◌, ◌<◌, ◌≤◌, ◌+◌, Err, codes, false, length};

use crate::faults::{GraphFault, ReadFault};
use crate::labels::read_labels;
use crate::lines::read_lines;
use crate::texts::{GRAPH, text_fault};
use re_chains::{at_line, cut_at};
use re_graph::Graph;
use re_labels::PortLabels;
use re_problem::{InputFault, Problem};
use re_settings::{GivenTexts, read_given};
use std::alloc::Global;

// The name of the line in front of the labels.
const LABELS: &[u8] = b"labels";

/// A problem, a problem beside it, and a graph with the degrees of the first one; whether the second is an input problem of it isn't asked.
#[derive(Drop)]
pub struct GivenGraph {
    pub problem: Problem,
    pub input: Problem,
    pub graph: Graph,
}

/// The same, with labels of the second problem for each active node, in the order of its ports; whether they are a solution isn't asked.
#[derive(Drop)]
pub struct LabelledGraph {
    pub given: GivenGraph,
    pub labels: Vec<PortLabels>,
}

// The same fault, in front of a line of this number.
fn at_labels_line(number: u32, fault: GraphFault) -> GraphFault
    ensures { result ≡ before_labels number fault }
{
    match fault {
        GraphFault::Text(fault) => GraphFault::Text(at_line(number, fault)),
        _ => fault,
    }
}

// The fault of the text in front of a line of this number.
fn before_line(number: u32, fault: ReadFault) -> ReadFault
    ensures { BeforeLine number fault result }
{
    match fault {
        ReadFault::Bad(fault) => ReadFault::Bad(at_labels_line(number, fault)),
        ReadFault::NoMemory => ReadFault::NoMemory,
    }
}

// The fault of a text without the line in front of the graph.
fn no_graph(alloc: Global, text: &[u8]) -> ReadFault
    requires few { length text.now ≤ MAX_BYTES }
    requires none { has_line (codes "graph") text.now ≡ false }
    ensures { IsRefused (given_graph text.now) result }
{
    let fault = match read_given(alloc, text) {
        Ok(_) => return ReadFault::Bad(GraphFault::Text(InputFault::EarlyEnd)),
        Err(fault) => fault,
    };
    text_fault(fault)
}

// Both problems, with the graph of these lines.
fn graph_behind(
    alloc: Global,
    texts: GivenTexts,
    number: u32,
    text: &[u8],
) -> Result<GivenGraph, ReadFault>
    requires { 0 < length text.now → number + length text.now ≤ MAX_BYTES + 1 }
    ensures { GivenGraphGives (graph_with texts number (lines_of text.now)) result }
{
    let GivenTexts { problem, input } = texts;
    let degrees = problem.degrees();
    match read_lines(alloc, degrees, number, text) {
        Ok(graph) => Ok(GivenGraph {
            problem,
            input,
            graph,
        }),
        Err(fault) => Err(fault),
    }
}

// Both problems that a text writes, with the graph of the lines behind them.
fn given_for(alloc: Global, front: &[u8], number: u32, text: &[u8]) -> Result<GivenGraph, ReadFault>
    requires few { length front.now ≤ MAX_BYTES }
    requires least { 1 ≤ number }
    requires counted { 0 < length text.now → number + length text.now ≤ MAX_BYTES + 1 }
    ensures { GivenGraphGives (given_with front.now number (lines_of text.now)) result }
{
    match read_given(alloc, front) {
        Ok(texts) => graph_behind(alloc, texts, number, text),
        Err(fault) => Err(before_line(number - 1, text_fault(fault))),
    }
}

// Both problems and the graph that a text writes.
fn read_given_graph(alloc: Global, text: &[u8]) -> Result<GivenGraph, ReadFault>
    requires { length text.now ≤ MAX_BYTES }
    ensures { GivenGraphGives (given_graph text.now) result }
{
    let Some(cut) = cut_at(GRAPH, text) else {
        return Err(no_graph(alloc, text));
    };
    given_for(alloc, cut.front, cut.number, cut.behind)
}

// The graph with the labels of the lines behind it.
fn labelled_for(
    alloc: Global,
    given: GivenGraph,
    number: u32,
    text: &[u8],
) -> Result<LabelledGraph, ReadFault>
    requires counted { 0 < length text.now → number + length text.now ≤ MAX_BYTES + 1 }
    requires active { given.graph.active_degree ≡ given.problem.active.degree }
    requires passive { given.graph.passive_degree ≡ given.problem.passive.degree }
    ensures { LabelledGives (labels_of_lines given number (lines_of text.now)) result }
{
    match read_labels(alloc, &given.input, given.graph.nodes(), number, text) {
        Ok(labels) => Ok(LabelledGraph { given, labels }),
        Err(fault) => Err(fault),
    }
}

// The fault of a text without the line in front of the labels.
fn no_labels(alloc: Global, text: &[u8]) -> ReadFault
    requires few { length text.now ≤ MAX_BYTES }
    requires none { has_line (codes "labels") text.now ≡ false }
    ensures { IsRefused (labelled_input text.now) result }
{
    let fault = match read_given_graph(alloc, text) {
        Ok(_) => return ReadFault::Bad(GraphFault::Text(InputFault::EarlyEnd)),
        Err(fault) => fault,
    };
    fault
}

/// Both problems, the graph and the labels that a text writes. `Bad` comes exactly where the text has a fault, with its first one.
pub fn read_labelled(alloc: Global, text: &[u8]) -> Result<LabelledGraph, ReadFault>
    requires { length text.now ≤ MAX_BYTES }
    ensures { LabelledGives (labelled_input text.now) result }
{
    let Some(cut) = cut_at(LABELS, text) else {
        return Err(no_labels(alloc, text));
    };
    match read_given_graph(alloc, cut.front) {
        Ok(given) => labelled_for(alloc, given, cut.number, cut.behind),
        Err(fault) => Err(before_line(cut.number - 1, fault)),
    }
}
