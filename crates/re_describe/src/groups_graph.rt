//! A problem with a graph, also with an input problem and labels, written with its configurations in groups.
ghost use Rattle.re_chains.specs.TwoTexts.{has_line as has_named, lines_behind};
ghost use Rattle.re_describe.specs.GroupTexts.{WritesGraph, WritesGraphBy, WritesLabelled};
ghost use Rattle.re_graph_words.specs.GivenInputs.{labelled_input};
ghost use Rattle.re_graph_words.specs.GivenReading.{labelled_with};
ghost use Rattle.re_graph_words.specs.GraphInputs.{graph_input};
ghost use Rattle.std.specs.Prelude.{◌≡◌, ◌≤◌, IfOk, IsTrue, Ok, codes, length};

use crate::answering::GRAPH;
use crate::groups::{copied, push_grouped};
use crate::same_graphs::{are_same_graphs, are_same_labels};
use re_chains::{cut_at, has_line};
use re_frame::push_words;
use re_graph_words::{GraphText, LabelledGraph, ReadFault, read_graph_text, read_labelled};
use re_io::MAX_BYTES;
use re_judging::are_same;
use re_labels::NoMemory;
use re_problem::Problem;
use re_settings::GIVEN;
use std::alloc::Global;

/// Appends what stands in the other text from its line of this name on, with it.
pub(crate) fn push_from(new: &mut Vec<u8>, name: &[u8], text: &[u8]) -> Result<(), NoMemory>
    requires { length text.now ≤ MAX_BYTES }
{
    match cut_at(name, text) {
        Some(cut) => Ok(new.extend_from_slice(&text[cut.front.len()..])?),
        None => Ok(()),
    }
}

/// Whether the same lines stand in both texts behind the line of this name, which both have.
pub(crate) fn have_same_lines(name: &[u8], text: &[u8], other: &[u8]) -> bool
    requires few { length text.now ≤ MAX_BYTES }
    requires other { length other.now ≤ MAX_BYTES }
    ensures lines { IsTrue result → lines_behind name.now text.now ≡ lines_behind name.now other.now }
{
    match (cut_at(name, text), cut_at(name, other)) {
        (Some(cut), Some(other_cut)) => cut.behind == other_cut.behind,
        _ => false,
    }
}

/// A problem in groups, and what stands in the text from its line of this name on.
pub(crate) fn grouped_before(
    alloc: Global,
    name: &[u8],
    text: &[u8],
    problem: &Problem,
) -> Result<Vec<u8>, NoMemory>
    requires { length text.now ≤ MAX_BYTES }
{
    let mut new = Vec::new(alloc);
    push_grouped(&mut new, problem)?;
    push_from(&mut new, name, text)?;
    Ok(new)
}

// Whether it writes this problem and this graph.
fn writes_graph(alloc: Global, text: &[u8], read: &GraphText) -> Result<bool, NoMemory>
    requires { length text.now ≤ MAX_BYTES }
    ensures { IfOk result (λ same. IsTrue same → graph_input text.now ≡ Ok read.now) }
{
    match read_graph_text(alloc, text) {
        Ok(again) => {
            if !are_same_graphs(&again.graph, &read.graph) {
                return Ok(false);
            }
            are_same(alloc, &again.problem, &read.problem)
        }
        Err(ReadFault::Bad(_)) => Ok(false),
        Err(ReadFault::NoMemory) => Err(NoMemory),
    }
}

// Whether the new text is as long as it may be, and has a line `== given` and the lines of a graph as the other one.
fn keeps_lines(text: &[u8], new: &[u8]) -> bool
    requires { length text.now ≤ MAX_BYTES }
    ensures short { IsTrue result → length new.now ≤ MAX_BYTES }
    ensures given { IsTrue result → has_named (codes "given") new.now ≡ has_named (codes "given") text.now }
    ensures lines { IsTrue result → lines_behind (codes "graph") new.now ≡ lines_behind (codes "graph") text.now }
{
    if new.len() > MAX_BYTES {
        return false;
    }
    has_line(GIVEN, new) == has_line(GIVEN, text) && have_same_lines(GRAPH, new, text)
}

// Whether the new text writes the same problem and graph, with the same lines.
fn keeps_graph(alloc: Global, text: &[u8], new: &[u8], read: &GraphText) -> Result<bool, NoMemory>
    requires short { length text.now ≤ MAX_BYTES }
    requires read { graph_input text.now ≡ Ok read.now }
    ensures { IfOk result (λ same. IsTrue same → WritesGraph text.now new.now) }
{
    if keeps_lines(text, new) {
        writes_graph(alloc, new, read)
    } else {
        Ok(false)
    }
}

/// The text of this problem and graph with the configurations of the problem in groups; the lines of the graph stay. It is read, and given where
/// it can be read and writes the same; else the given text is. It costs what `in_groups` costs for the problem.
pub(crate) fn graph_in_groups(
    alloc: Global,
    text: &[u8],
    read: &GraphText,
) -> Result<Vec<u8>, NoMemory>
    requires short { length text.now ≤ MAX_BYTES }
    requires read { graph_input text.now ≡ Ok read.now }
    ensures { IfOk result (λ new. WritesGraph text.now new.items) }
{
    let new = grouped_before(alloc, GRAPH, text, &read.problem)?;
    if keeps_graph(alloc, text, new.as_slice(), read)? {
        return Ok(new);
    }
    copied(alloc, text)
}

// Whether these are the same.
fn are_same_labelled(
    alloc: Global,
    read: &LabelledGraph,
    other: &LabelledGraph,
) -> Result<bool, NoMemory>
    ensures { IfOk result (λ same. IsTrue same → labelled_with read.now ≡ labelled_with other.now) }
{
    if !are_same_graphs(&read.given.graph, &other.given.graph) {
        return Ok(false);
    }
    if !are_same_labels(read.labels.as_slice(), other.labels.as_slice()) {
        return Ok(false);
    }
    if !are_same(alloc, &read.given.problem, &other.given.problem)? {
        return Ok(false);
    }
    are_same(alloc, &read.given.input, &other.given.input)
}

// Whether it writes these problems, this graph and these labels.
fn writes_labelled(alloc: Global, text: &[u8], read: &LabelledGraph) -> Result<bool, NoMemory>
    requires { length text.now ≤ MAX_BYTES }
    ensures { IfOk result (λ same. IsTrue same → labelled_input text.now ≡ Ok (labelled_with read.now)) }
{
    match read_labelled(alloc, text) {
        Ok(again) => are_same_labelled(alloc, &again, read),
        Err(ReadFault::Bad(_)) => Ok(false),
        Err(ReadFault::NoMemory) => Err(NoMemory),
    }
}

// Whether the new text writes the same problems, graph and labels, with the same lines.
fn keeps_labelled(
    alloc: Global,
    text: &[u8],
    new: &[u8],
    read: &LabelledGraph,
) -> Result<bool, NoMemory>
    requires short { length text.now ≤ MAX_BYTES }
    requires read { labelled_input text.now ≡ Ok (labelled_with read.now) }
    ensures { IfOk result (λ same. IsTrue same → WritesLabelled text.now new.now) }
{
    if keeps_lines(text, new) {
        writes_labelled(alloc, new, read)
    } else {
        Ok(false)
    }
}

// The text of both problems in groups, with the lines of the graph and of the labels.
fn grouped_labelled(alloc: Global, text: &[u8], read: &LabelledGraph) -> Result<Vec<u8>, NoMemory>
    requires { length text.now ≤ MAX_BYTES }
{
    let mut new = Vec::new(alloc);
    push_grouped(&mut new, &read.given.problem)?;
    push_words(&mut new, "== given\n")?;
    push_grouped(&mut new, &read.given.input)?;
    push_from(&mut new, GRAPH, text)?;
    Ok(new)
}

/// The same of a text with an input problem and labels: the configurations of both problems are in groups.
pub(crate) fn labelled_in_groups(
    alloc: Global,
    text: &[u8],
    read: &LabelledGraph,
) -> Result<Vec<u8>, NoMemory>
    requires short { length text.now ≤ MAX_BYTES }
    requires read { labelled_input text.now ≡ Ok (labelled_with read.now) }
    ensures { IfOk result (λ new. WritesLabelled text.now new.items) }
{
    let new = grouped_labelled(alloc, text, read)?;
    if keeps_labelled(alloc, text, new.as_slice(), read)? {
        return Ok(new);
    }
    copied(alloc, text)
}

// Whether both texts write one problem and graph.
fn write_same_plain(alloc: Global, text: &[u8], new: &[u8]) -> Result<bool, NoMemory>
    requires { length text.now ≤ MAX_BYTES }
    ensures { IfOk result (λ same. IsTrue same → WritesGraph text.now new.now) }
{
    match read_graph_text(alloc, text) {
        Ok(read) => keeps_graph(alloc, text, new, &read),
        Err(ReadFault::Bad(_)) => Ok(false),
        Err(ReadFault::NoMemory) => Err(NoMemory),
    }
}

// Whether both write the same, where the first has an input problem.
fn write_same_labelled(alloc: Global, text: &[u8], new: &[u8]) -> Result<bool, NoMemory>
    requires { length text.now ≤ MAX_BYTES }
    ensures { IfOk result (λ same. IsTrue same → WritesLabelled text.now new.now) }
{
    match read_labelled(alloc, text) {
        Ok(read) => keeps_labelled(alloc, text, new, &read),
        Err(ReadFault::Bad(_)) => Ok(false),
        Err(ReadFault::NoMemory) => Err(NoMemory),
    }
}

/// Whether both texts write the same of a graph.
pub(crate) fn write_same_graph(alloc: Global, text: &[u8], new: &[u8]) -> Result<bool, NoMemory>
    requires { length text.now ≤ MAX_BYTES }
    ensures { IfOk result (λ same. IsTrue same → WritesGraphBy (has_named (codes "given") text.now) text.now new.now) }
{
    if has_line(GIVEN, text) {
        write_same_labelled(alloc, text, new)
    } else {
        write_same_plain(alloc, text, new)
    }
}

// A problem and a graph in groups; a text with a fault stays.
fn grouped_plain(alloc: Global, text: &[u8]) -> Result<Vec<u8>, NoMemory>
    requires { length text.now ≤ MAX_BYTES }
{
    match read_graph_text(alloc, text) {
        Ok(read) => grouped_before(alloc, GRAPH, text, &read.problem),
        Err(ReadFault::Bad(_)) => copied(alloc, text),
        Err(ReadFault::NoMemory) => Err(NoMemory),
    }
}

/// The text of a graph in groups; one with a fault stays.
pub(crate) fn grouped_graph(alloc: Global, text: &[u8]) -> Result<Vec<u8>, NoMemory>
    requires { length text.now ≤ MAX_BYTES }
{
    if !has_line(GIVEN, text) {
        return grouped_plain(alloc, text);
    }
    match read_labelled(alloc, text) {
        Ok(read) => grouped_labelled(alloc, text, &read),
        Err(ReadFault::Bad(_)) => copied(alloc, text),
        Err(ReadFault::NoMemory) => Err(NoMemory),
    }
}
