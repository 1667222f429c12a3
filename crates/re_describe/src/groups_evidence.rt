//! Evidence, written with the configurations of its problems in groups, part by part.
ghost use Rattle.re_describe.specs.DescribeWords.{IsSame, OrOutcome};
ghost use Rattle.re_describe.specs.GroupTexts.{WritesEvidence};
ghost use Rattle.re_frame.specs.Outcomes.{outcome_of};
ghost use Rattle.re_judging.specs.PartFaults.{parts_fault as fault_of_parts};
ghost use Rattle.std.specs.Prelude.{◌≡◌, ◌≤◌, IfOk, IsTrue, None, length};

use crate::groups::{copied, grouped};
use crate::groups_given::grouped_both;
use crate::groups_graph::{grouped_before, grouped_graph, push_from};
use crate::same_parts::{FLEXIBLE, GREEDY, LENGTH, writes_parts};
use re_cert::read_certificate;
use re_chains::{cut_at, is_certificate_text, read_bound, read_problem_at, read_two};
use re_frame::{Output, done, push_words};
use re_io::MAX_BYTES;
use re_judging::{PartKind, behind_joint, first_part, joint_at, kind_of, parts_fault};
use re_labels::NoMemory;
use re_problem::TextFault;
use re_settings::GIVEN;
use std::alloc::Global;

// How many parts may follow the first one.
const MORE_PARTS: u8 = 15;

// A certificate in groups; a text with a fault stays, here as in the other kinds.
fn grouped_certificate(alloc: Global, text: &[u8]) -> Result<Vec<u8>, NoMemory>
    requires { length text.now ≤ MAX_BYTES }
{
    match read_certificate(alloc, text) {
        Ok(certificate) => grouped(alloc, &certificate, true),
        Err(TextFault::Bad(_)) => copied(alloc, text),
        Err(TextFault::NoMemory) => Err(NoMemory),
    }
}

// A bound and an input problem in groups.
fn grouped_given(alloc: Global, text: &[u8]) -> Result<Vec<u8>, NoMemory>
    requires { length text.now ≤ MAX_BYTES }
{
    match read_two(alloc, GIVEN, text) {
        Ok(texts) => grouped_both(
            alloc,
            &texts.bound,
            &texts.problem,
            is_certificate_text(text),
        ),
        Err(TextFault::Bad(_)) => copied(alloc, text),
        Err(TextFault::NoMemory) => Err(NoMemory),
    }
}

// The problem in front of the line of this name in groups.
fn grouped_front(alloc: Global, name: &[u8], text: &[u8]) -> Result<Vec<u8>, NoMemory>
    requires { length text.now ≤ MAX_BYTES }
{
    let Some(cut) = cut_at(name, text) else {
        return copied(alloc, text);
    };
    match read_problem_at(alloc, 0, 1, cut.front) {
        Ok(problem) => grouped_before(alloc, name, text, &problem),
        Err(TextFault::Bad(_)) => copied(alloc, text),
        Err(TextFault::NoMemory) => Err(NoMemory),
    }
}

// The chain in front of the line of this name in groups.
fn grouped_chain(alloc: Global, name: &[u8], text: &[u8]) -> Result<Vec<u8>, NoMemory>
    requires { length text.now ≤ MAX_BYTES }
{
    let Some(cut) = cut_at(name, text) else {
        return copied(alloc, text);
    };
    match read_bound(alloc, cut.front) {
        Ok(bound) => {
            let mut new = grouped(alloc, &bound, is_certificate_text(cut.front))?;
            push_from(&mut new, name, text)?;
            Ok(new)
        }
        Err(TextFault::Bad(_)) => copied(alloc, text),
        Err(TextFault::NoMemory) => Err(NoMemory),
    }
}

// A part in groups.
fn grouped_part(alloc: Global, text: &[u8]) -> Result<Vec<u8>, NoMemory>
    requires { length text.now ≤ MAX_BYTES }
{
    match kind_of(text) {
        PartKind::Certificate => grouped_certificate(alloc, text),
        PartKind::Given => grouped_given(alloc, text),
        PartKind::Graph => grouped_graph(alloc, text),
        PartKind::Length => grouped_front(alloc, LENGTH, text),
        PartKind::Flexible => grouped_front(alloc, FLEXIBLE, text),
        PartKind::Greedy => grouped_chain(alloc, GREEDY, text),
    }
}

// Appends the first part in groups, and so many behind it at most.
fn push_parts(new: &mut Vec<u8>, more: u8, text: &[u8]) -> Result<(), NoMemory>
    requires { length text.now ≤ MAX_BYTES }
{
    let part = grouped_part(*new.allocator(), first_part(text))?;
    new.extend_from_slice(part.as_slice())?;
    match joint_at(text) {
        Some(at) => {
            if more == 0 {
                return Ok(());
            }
            push_words(new, "=====\n")?;
            push_parts(new, more - 1, behind_joint(text, at))
        }
        None => Ok(()),
    }
}

// The parts in groups.
fn grouped_parts(alloc: Global, text: &[u8]) -> Result<Vec<u8>, NoMemory>
    requires { length text.now ≤ MAX_BYTES }
{
    let mut new = Vec::new(alloc);
    push_parts(&mut new, MORE_PARTS, text)?;
    Ok(new)
}

// Whether the new text is as long as it may be, and writes the same.
fn writes_evidence(alloc: Global, text: &[u8], new: &[u8]) -> Result<bool, NoMemory>
    requires { length text.now ≤ MAX_BYTES }
    ensures { IfOk result (λ same. IsTrue same → WritesEvidence text.now new.now) }
{
    if new.len() > MAX_BYTES {
        return Ok(false);
    }
    writes_parts(alloc, MORE_PARTS, text, new)
}

// The text of evidence with the configurations of its problems in groups. It is read, and given where it can be read and writes the same; else the
// given text is. It costs what `in_groups` costs for each problem.
#[tactic(auto, using(crate::proofs::SameParts::same_evidence))]
fn evidence_in_groups(alloc: Global, text: &[u8]) -> Result<Vec<u8>, NoMemory>
    requires short { length text.now ≤ MAX_BYTES }
    requires right { fault_of_parts 15 1 text.now ≡ None }
    ensures { IfOk result (λ new. WritesEvidence text.now new.items) }
{
    let new = grouped_parts(alloc, text)?;
    if writes_evidence(alloc, text, new.as_slice())? {
        return Ok(new);
    }
    copied(alloc, text)
}

/// What is answered to evidence: the fault of the first part that has one, or the same in groups.
pub(crate) fn groups_evidence(alloc: Global, text: &[u8]) -> Result<Output, NoMemory>
    requires { length text.now ≤ MAX_BYTES }
    ensures { IfOk result (λ output. OrOutcome (fault_of_parts 15 1 text.now) (IsSame (WritesEvidence text.now) (outcome_of output)) (outcome_of output)) }
{
    match parts_fault(alloc, MORE_PARTS, 1, text)? {
        Some(output) => Ok(output),
        None => Ok(done(evidence_in_groups(alloc, text)?)),
    }
}
