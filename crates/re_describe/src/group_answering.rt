//! What `condense` answers.
ghost use Rattle.re_chains.specs.ChainTexts.{chain_fault, text_bound};
ghost use Rattle.re_chains.specs.TwoTexts.{back_problem, front_bound, has_line as has_named, two_fault};
ghost use Rattle.re_describe.specs.ClassReports.{is_evidence as has_evidence};
ghost use Rattle.re_describe.specs.DescribeWords.{GroupsBy, GroupsText, IsSame, OrFault, OrGraphFault};
ghost use Rattle.re_describe.specs.GroupTexts.{WritesBoth, WritesGraph, WritesLabelled, WritesSame};
ghost use Rattle.re_frame.specs.Outcomes.{outcome_of};
ghost use Rattle.re_graph_words.specs.GivenInputs.{labelled_input};
ghost use Rattle.re_graph_words.specs.GraphInputs.{graph_input};
ghost use Rattle.std.specs.Prelude.{◌≡◌, ◌≤◌, IfOk, codes, false, length, true};

use crate::answering::GRAPH;
use crate::class_answering::is_evidence;
use crate::graph_answering::solved_alone;
use crate::groups::in_groups;
use crate::groups_evidence::groups_evidence;
use crate::groups_given::in_groups_given;
use crate::groups_graph::{graph_in_groups, labelled_in_groups};
use crate::labelled_answering::solved_given;
use re_chains::{has_line, read_bound, read_two};
use re_frame::{Output, done, fault_output};
use re_graph_words::{ReadFault, read_graph_text, read_labelled};
use re_io::MAX_BYTES;
use re_labels::NoMemory;
use re_problem::TextFault;
use re_settings::GIVEN;
use std::alloc::Global;

// The certificate or problem of a text in groups.
fn groups_alone(alloc: Global, text: &[u8]) -> Result<Output, NoMemory>
    requires { length text.now ≤ MAX_BYTES }
    ensures { IfOk result (λ output. OrFault (chain_fault text.now) (IsSame (WritesSame text.now (text_bound text.now)) (outcome_of output)) (outcome_of output)) }
{
    match read_bound(alloc, text) {
        Ok(bound) => Ok(done(in_groups(alloc, text, &bound)?)),
        Err(TextFault::Bad(fault)) => Ok(fault_output(alloc, fault)?),
        Err(TextFault::NoMemory) => Err(NoMemory),
    }
}

// The same with an input problem behind it.
fn groups_given(alloc: Global, text: &[u8]) -> Result<Output, NoMemory>
    requires { length text.now ≤ MAX_BYTES }
    ensures { IfOk result (λ output. OrFault (two_fault (codes "given") text.now)
        (IsSame (WritesBoth text.now (front_bound (codes "given") text.now) (back_problem (codes "given") text.now)) (outcome_of output)) (outcome_of output)) }
{
    match read_two(alloc, GIVEN, text) {
        Ok(texts) => Ok(done(in_groups_given(alloc, text, &texts)?)),
        Err(TextFault::Bad(fault)) => Ok(fault_output(alloc, fault)?),
        Err(TextFault::NoMemory) => Err(NoMemory),
    }
}

// A problem and a graph. A text that has a fault is answered as `solve` answers it, before it searches.
fn groups_graph(alloc: Global, text: &[u8]) -> Result<Output, NoMemory>
    requires short { length text.now ≤ MAX_BYTES }
    requires alone { has_named (codes "given") text.now ≡ false }
    ensures { IfOk result (λ output. OrGraphFault (graph_input text.now) (IsSame (WritesGraph text.now) (outcome_of output)) (outcome_of output)) }
{
    match read_graph_text(alloc, text) {
        Ok(read) => Ok(done(graph_in_groups(alloc, text, &read)?)),
        Err(ReadFault::Bad(_)) => Ok(solved_alone(alloc, text)?),
        Err(ReadFault::NoMemory) => Err(NoMemory),
    }
}

// A problem, an input problem and a graph with labels.
fn groups_labelled(alloc: Global, text: &[u8]) -> Result<Output, NoMemory>
    requires short { length text.now ≤ MAX_BYTES }
    requires given { has_named (codes "given") text.now ≡ true }
    ensures { IfOk result (λ output. OrGraphFault (labelled_input text.now) (IsSame (WritesLabelled text.now) (outcome_of output)) (outcome_of output)) }
{
    match read_labelled(alloc, text) {
        Ok(read) => Ok(done(labelled_in_groups(alloc, text, &read)?)),
        Err(ReadFault::Bad(_)) => Ok(solved_given(alloc, text)?),
        Err(ReadFault::NoMemory) => Err(NoMemory),
    }
}

// What a text that is no evidence writes, in groups.
fn groups_by(alloc: Global, text: &[u8]) -> Result<Output, NoMemory>
    requires { length text.now ≤ MAX_BYTES }
    ensures { IfOk result (λ output. GroupsBy (has_named (codes "graph") text.now) (has_named (codes "given") text.now) text.now (outcome_of output)) }
{
    match (has_line(GRAPH, text), has_line(GIVEN, text)) {
        (true, true) => groups_labelled(alloc, text),
        (true, false) => groups_graph(alloc, text),
        (false, true) => groups_given(alloc, text),
        (false, false) => groups_alone(alloc, text),
    }
}

/// What a text writes, in groups.
pub(crate) fn groups_output(alloc: Global, text: &[u8]) -> Result<Output, NoMemory>
    requires { length text.now ≤ MAX_BYTES }
    ensures { IfOk result (λ output. GroupsText (has_evidence text.now) text.now (outcome_of output)) }
{
    if is_evidence(text) {
        groups_evidence(alloc, text)
    } else {
        groups_by(alloc, text)
    }
}
