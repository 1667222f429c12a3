//! The faults of the texts of parts of evidence.
ghost use Rattle.re_cert.specs.CertificateTexts.{certificate_fault, text_lines};
ghost use Rattle.re_chains.specs.TwoTexts.{has_line as has_named, two_fault};
ghost use Rattle.re_frame.specs.Outcomes.{outcome_of};
ghost use Rattle.re_frame.specs.TextFaults.{fault_outcome};
ghost use Rattle.re_graph_words.specs.GivenInputs.{labelled_input};
ghost use Rattle.re_graph_words.specs.GraphInputs.{graph_input};
ghost use Rattle.re_judging.specs.GreedyParts.{turns_from, turns_on};
ghost use Rattle.re_judging.specs.Judging.{in_part as in_part_of};
ghost use Rattle.re_judging.specs.LabelLines.{multisets_on as multisets_of};
ghost use Rattle.re_judging.specs.PartFaults.{flexible_fault, graph_fault, graph_refusal, greedy_fault, length_fault, part_fault, parts_fault, read_fault};
ghost use Rattle.re_problem.specs.ProblemTexts.{lines_of};
ghost use Rattle.std.specs.Prelude.{◌≡◌, ◌<◌, ◌≤◌, ◌+◌, IfOk, codes, false, length, option_map, true};

use crate::flexible_parts::FLEXIBLE;
use crate::graph_parts::solved;
use crate::greedy_parts::GREEDY;
use crate::joints::{behind_joint, first_part, joint_at};
use crate::judging::in_part;
use crate::label_lines::{multisets_on, one_set, side_on};
use crate::level_parts::{LENGTH, number_in};
use crate::parts::kind_of;
use crate::types::PartKind;
use re_cert::read_certificate;
use re_chains::{at_line, cut_at, has_line, read_chain, read_problem_at, read_two};
use re_frame::{Output, fault_output, limit_of};
use re_graph_words::{ReadFault, read_graph_text, read_labelled};
use re_io::MAX_BYTES;
use re_labels::{Names, NoMemory, Side};
use re_problem::{InputFault, Problem, TextFault, cut_line};
use re_settings::GIVEN;
use std::alloc::Global;

// The fault of a certificate.
fn certificate_text_fault(alloc: Global, text: &[u8]) -> Result<Option<InputFault>, NoMemory>
    requires { length text.now ≤ MAX_BYTES }
    ensures { IfOk result (λ fault. fault ≡ certificate_fault (text_lines text.now)) }
{
    match read_certificate(alloc, text) {
        Ok(_) => Ok(None),
        Err(TextFault::Bad(fault)) => Ok(Some(fault)),
        Err(TextFault::NoMemory) => Err(NoMemory),
    }
}

// The fault of a bound and an input problem.
fn given_text_fault(alloc: Global, text: &[u8]) -> Result<Option<InputFault>, NoMemory>
    requires { length text.now ≤ MAX_BYTES }
    ensures { IfOk result (λ fault. fault ≡ two_fault (codes "given") text.now) }
{
    match read_two(alloc, GIVEN, text) {
        Ok(_) => Ok(None),
        Err(TextFault::Bad(fault)) => Ok(Some(fault)),
        Err(TextFault::NoMemory) => Err(NoMemory),
    }
}

// The fault of a problem and a number of levels.
fn length_text_fault(alloc: Global, text: &[u8]) -> Result<Option<InputFault>, NoMemory>
    requires few { length text.now ≤ MAX_BYTES }
    requires has { has_named (codes "length") text.now ≡ true }
    ensures { IfOk result (λ fault. fault ≡ length_fault text.now) }
{
    let Some(cut) = cut_at(LENGTH, text) else {
        unreachable!();
    };
    match read_problem_at(alloc, 0, 1, cut.front) {
        Ok(_) => match number_in(cut.behind) {
            Some(_) => Ok(None),
            None => Ok(Some(InputFault::BadEntry(cut.number))),
        },
        Err(TextFault::Bad(fault)) => Ok(Some(fault)),
        Err(TextFault::NoMemory) => Err(NoMemory),
    }
}

// The fault of a problem and a set of labels.
fn flexible_text_fault(alloc: Global, text: &[u8]) -> Result<Option<InputFault>, NoMemory>
    requires few { length text.now ≤ MAX_BYTES }
    requires has { has_named (codes "flexible") text.now ≡ true }
    ensures { IfOk result (λ fault. fault ≡ flexible_fault text.now) }
{
    let Some(cut) = cut_at(FLEXIBLE, text) else {
        unreachable!();
    };
    match read_problem_at(alloc, 0, 1, cut.front) {
        Ok(problem) => match one_set(problem.names(), cut.number, cut.behind) {
            Ok(_) => Ok(None),
            Err(fault) => Ok(Some(fault)),
        },
        Err(TextFault::Bad(fault)) => Ok(Some(fault)),
        Err(TextFault::NoMemory) => Err(NoMemory),
    }
}

// The fault of lines of multisets, each of fewer labels than the degree.
fn multisets_fault(
    alloc: Global,
    names: &Names,
    degree: u8,
    number: u32,
    text: &[u8],
) -> Result<Option<InputFault>, NoMemory>
    requires least { 1 ≤ degree }
    requires most { degree ≤ 6 }
    requires counted { 0 < length text.now → number + length text.now ≤ MAX_BYTES + 1 }
    ensures { IfOk result (λ fault. fault ≡ read_fault (multisets_of names.now degree number (lines_of text.now))) }
{
    match multisets_on(alloc, names, degree, number, text) {
        Ok(_) => Ok(None),
        Err(TextFault::Bad(fault)) => Ok(Some(fault)),
        Err(TextFault::NoMemory) => Err(NoMemory),
    }
}

// The same behind a line that names this side.
#[tactic(auto, using(crate::proofs::FaultLaws::turns_fault))]
fn behind_side(
    alloc: Global,
    problem: &Problem,
    number: u32,
    text: &[u8],
    side: Side,
) -> Result<Option<InputFault>, NoMemory>
    requires { 0 < length text.now → number + length text.now ≤ MAX_BYTES + 1 }
    ensures { IfOk result (λ fault. fault ≡ read_fault (turns_from problem.now number (lines_of text.now) side)) }
{
    let names = problem.names();
    match side {
        Side::Active => {
            let degree = problem.passive().degree();
            Ok(multisets_fault(alloc, names, degree, number, text)?)
        }
        Side::Passive => {
            let degree = problem.active().degree();
            Ok(multisets_fault(alloc, names, degree, number, text)?)
        }
    }
}

// The fault of the lines of a side and of multisets.
fn turns_fault(
    alloc: Global,
    problem: &Problem,
    number: u32,
    text: &[u8],
) -> Result<Option<InputFault>, NoMemory>
    requires { 0 < length text.now → number + length text.now ≤ MAX_BYTES + 1 }
    ensures { IfOk result (λ fault. fault ≡ read_fault (turns_on problem.now number (lines_of text.now))) }
{
    if text.is_empty() {
        return Ok(Some(InputFault::EarlyEnd));
    }
    let (line, behind) = cut_line(text);
    match side_on(number, line) {
        Ok(side) => behind_side(alloc, problem, number + 1, behind, side),
        Err(fault) => Ok(Some(fault)),
    }
}

// The fault of a chain, a side and multisets of labels.
fn greedy_text_fault(alloc: Global, text: &[u8]) -> Result<Option<InputFault>, NoMemory>
    requires few { length text.now ≤ MAX_BYTES }
    requires has { has_named (codes "greedy") text.now ≡ true }
    ensures { IfOk result (λ fault. fault ≡ greedy_fault text.now) }
{
    let Some(cut) = cut_at(GREEDY, text) else {
        unreachable!();
    };
    match read_chain(alloc, cut.front) {
        Ok(chain) => turns_fault(alloc, chain.last(), cut.number, cut.behind),
        Err(TextFault::Bad(fault)) => Ok(Some(at_line(cut.number - 1, fault))),
        Err(TextFault::NoMemory) => Err(NoMemory),
    }
}

// The line of the fault of a problem and a graph, as `solve` answers it.
#[tactic(auto, using(crate::proofs::FaultLaws::plain_refused))]
fn plain_fault(alloc: Global, text: &[u8]) -> Result<Option<Output>, NoMemory>
    requires few { length text.now ≤ MAX_BYTES }
    requires alone { has_named (codes "given") text.now ≡ false }
    ensures { IfOk result (λ fault. option_map outcome_of fault ≡ graph_refusal (graph_input text.now)) }
{
    match read_graph_text(alloc, text) {
        Ok(_) => Ok(None),
        Err(ReadFault::Bad(_)) => Ok(Some(solved(alloc, text)?)),
        Err(ReadFault::NoMemory) => Err(NoMemory),
    }
}

// The same where the text has an input problem.
#[tactic(auto, using(crate::proofs::FaultLaws::labelled_refused))]
fn labelled_fault(alloc: Global, text: &[u8]) -> Result<Option<Output>, NoMemory>
    requires few { length text.now ≤ MAX_BYTES }
    requires given { has_named (codes "given") text.now ≡ true }
    ensures { IfOk result (λ fault. option_map outcome_of fault ≡ graph_refusal (labelled_input text.now)) }
{
    match read_labelled(alloc, text) {
        Ok(_) => Ok(None),
        Err(ReadFault::Bad(_)) => Ok(Some(solved(alloc, text)?)),
        Err(ReadFault::NoMemory) => Err(NoMemory),
    }
}

// The line of the fault of a text with a graph.
fn graph_text_fault(alloc: Global, text: &[u8]) -> Result<Option<Output>, NoMemory>
    requires { length text.now ≤ MAX_BYTES }
    ensures { IfOk result (λ fault. option_map outcome_of fault ≡ graph_fault (has_named (codes "given") text.now) text.now) }
{
    if has_line(GIVEN, text) {
        labelled_fault(alloc, text)
    } else {
        plain_fault(alloc, text)
    }
}

// The line of a fault.
fn line_of(alloc: Global, fault: Option<InputFault>) -> Result<Option<Output>, NoMemory>
    ensures { IfOk result (λ output. option_map outcome_of output ≡ option_map fault_outcome fault) }
{
    match fault {
        Some(fault) => Ok(Some(fault_output(alloc, fault)?)),
        None => Ok(None),
    }
}

/// The line of the first fault of the text of a part, or None exactly where it has none. What the text holds isn't judged.
pub fn part_fault(alloc: Global, text: &[u8]) -> Result<Option<Output>, NoMemory>
    requires { length text.now ≤ MAX_BYTES }
    ensures { IfOk result (λ fault. option_map outcome_of fault ≡ part_fault text.now) }
{
    let fault = match kind_of(text) {
        PartKind::Graph => return graph_text_fault(alloc, text),
        PartKind::Certificate => certificate_text_fault(alloc, text)?,
        PartKind::Given => given_text_fault(alloc, text)?,
        PartKind::Length => length_text_fault(alloc, text)?,
        PartKind::Flexible => flexible_text_fault(alloc, text)?,
        PartKind::Greedy => greedy_text_fault(alloc, text)?,
    };
    line_of(alloc, fault)
}

// The answer to the part of this number, where its text has a fault.
fn fault_in_part(alloc: Global, number: u8, text: &[u8]) -> Result<Option<Output>, NoMemory>
    requires { length text.now ≤ MAX_BYTES }
    ensures { IfOk result (λ fault. option_map outcome_of fault ≡ option_map (in_part_of number) (part_fault text.now)) }
{
    match part_fault(alloc, text)? {
        Some(output) => Ok(Some(in_part(alloc, number, &output)?)),
        None => Ok(None),
    }
}

/// The answer of `judge` to the first part of a text that has a fault, where so many parts may follow the first one, which has this number; a part
/// more than these passes a limit. None exactly where there is none. What the parts hold isn't judged.
#[tactic(auto, using(crate::proofs::FaultLaws::fault_here, crate::proofs::FaultLaws::fault_nowhere, crate::proofs::FaultLaws::fault_of_many, crate::proofs::FaultLaws::fault_later))]
pub fn parts_fault(
    alloc: Global,
    more: u8,
    number: u8,
    text: &[u8],
) -> Result<Option<Output>, NoMemory>
    requires few { length text.now ≤ MAX_BYTES }
    requires number { number + more ≤ 16 }
    ensures { IfOk result (λ fault. option_map outcome_of fault ≡ parts_fault more number text.now) }
{
    if let Some(output) = fault_in_part(alloc, number, first_part(text))? {
        return Ok(Some(output));
    }
    let Some(at) = joint_at(text) else {
        return Ok(None);
    };
    if more == 0 {
        return Ok(Some(limit_of(alloc, 16, "parts")?));
    }
    parts_fault(alloc, more - 1, number + 1, behind_joint(text, at))
}
