//! The lines of labels.
ghost use Rattle.re_cert.specs.Entries.{label_items};
ghost use Rattle.re_graph_words.specs.GivenInputs.{labels_from, node_labels as labels_for};
ghost use Rattle.re_graph_words.specs.GivenReading.{AddsLabels, LabelsGive};
ghost use Rattle.re_io.specs.declared.read.TheConstants.{MAX_BYTES};
ghost use Rattle.re_problem.specs.ProblemTexts.{lines_of};
ghost use Rattle.std.specs.Prelude.{◌≡◌, ◌<◌, ◌≤◌, ◌+◌, ◌==◌, [], IfOk, length};

use crate::faults::{GraphFault, ReadFault};
use re_cert::{has_labels, line_labels};
use re_labels::PortLabels;
use re_problem::{InputFault, Problem, begins_section, cut_line, is_empty_line};
use std::alloc::Global;

// The labels of a node that a line of this number writes.
fn node_labels(input: &Problem, number: u32, line: &[u8]) -> Result<PortLabels, GraphFault>
    ensures { result ≡ labels_for input.now number (label_items line.now) }
{
    let degree = input.active().degree();
    if !has_labels(line) {
        return Err(GraphFault::Text(InputFault::BadItem(number)));
    }
    let bad = GraphFault::Text(InputFault::BadEntry(number));
    match line_labels(line, input.names(), degree) {
        None => Err(bad),
        Some(labels) => match PortLabels::new(labels.as_slice()) {
            None => Err(bad),
            Some(held) => Ok(held),
        },
    }
}

// Whether there are labels for so many nodes.
fn is_full(labels: &[PortLabels], nodes: u8) -> bool
    ensures { result ≡ (length labels.now == nodes) }
{
    labels.len() == nodes as usize
}

// Adds the labels on a line of this number, unless it is empty.
fn add_labels(
    labels: &mut Vec<PortLabels>,
    input: &Problem,
    nodes: u8,
    number: u32,
    line: &[u8],
) -> Result<(), ReadFault>
    ensures { AddsLabels input.now nodes number line.now labels.old.items labels.new.items result }
{
    if is_empty_line(line) {
        return Ok(());
    }
    if begins_section(line) {
        return Err(ReadFault::Bad(GraphFault::Text(InputFault::BadSection(number))));
    }
    if is_full(labels.as_slice(), nodes) {
        return Err(ReadFault::Bad(GraphFault::Text(InputFault::BadEntry(number))));
    }
    match node_labels(input, number, line) {
        Err(fault) => Err(ReadFault::Bad(fault)),
        Ok(own) => match labels.push(own) {
            Ok(()) => Ok(()),
            Err(_) => Err(ReadFault::NoMemory),
        },
    }
}

/// The labels of so many nodes that these lines write, of which the first has this number. It reads line by line, and keeps the labels.
pub(crate) fn read_labels(
    alloc: Global,
    input: &Problem,
    nodes: u8,
    number: u32,
    text: &[u8],
) -> Result<Vec<PortLabels>, ReadFault>
    requires counted { 0 < length text.now → number + length text.now ≤ MAX_BYTES + 1 }
    ensures labels { LabelsGive (λ labels. labels.items) (labels_from input.now nodes number [] (lines_of text.now)) result }
    ensures count { IfOk result (λ labels. length labels.items ≡ nodes) }
{
    let mut labels: Vec<PortLabels> = Vec::new(alloc);
    let mut current = number;
    let mut rest = text;
    'lines: while !rest.is_empty() {
        let (line, behind) = cut_line(rest);
        match add_labels(&mut labels, input, nodes, current, line) {
            Ok(()) => {}
            Err(fault) => return Err(fault),
        }
        current += 1;
        rest = behind;
    }
    if is_full(labels.as_slice(), nodes) {
        Ok(labels)
    } else {
        Err(ReadFault::Bad(GraphFault::Text(InputFault::EarlyEnd)))
    }
}
