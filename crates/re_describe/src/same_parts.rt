//! Whether two texts of evidence write the same, part by part.
ghost use Rattle.re_cert.specs.CertificateTexts.{certificate_of, text_lines};
ghost use Rattle.re_chains.specs.ChainTexts.{text_chain};
ghost use Rattle.re_chains.specs.TwoTexts.{problem_lines};
ghost use Rattle.re_describe.specs.GroupTexts.{WritesBound, WritesChain, WritesFront, WritesKind, WritesPart, WritesParts};
ghost use Rattle.re_judging.specs.PartFaults.{part_fault as part_fault_of};
ghost use Rattle.re_problem.specs.ProblemTexts.{lines_of, problem_of};
ghost use Rattle.std.specs.Prelude.{◌≡◌, ◌≤◌, IfOk, IsTrue, None, codes, length};

use crate::groups::is_same;
use crate::groups_given::writes_both;
use crate::groups_graph::{have_same_lines, write_same_graph};
use re_cert::{Certificate, read_certificate};
use re_chains::{cut_at, is_certificate_text, read_chain, read_problem_at, read_two};
use re_io::MAX_BYTES;
use re_judging::{PartKind, are_same, behind_joint, first_part, joint_at, kind_of, part_fault};
use re_labels::NoMemory;
use re_problem::{Problem, TextFault};
use re_settings::GIVEN;
use std::alloc::Global;

/// The name of the line in front of a number of levels of labels.
pub(crate) const LENGTH: &[u8] = b"length";

/// The name of the line in front of a flexible set.
pub(crate) const FLEXIBLE: &[u8] = b"flexible";

/// The name of the line in front of a side and multisets.
pub(crate) const GREEDY: &[u8] = b"greedy";

// Whether the text writes the certificate.
fn writes_certificate(
    alloc: Global,
    text: &[u8],
    certificate: &Certificate,
) -> Result<bool, NoMemory>
    requires { length text.now ≤ MAX_BYTES }
    ensures { IfOk result (λ same. IsTrue same → certificate_of (text_lines text.now) ≡ certificate.now) }
{
    match read_certificate(alloc, text) {
        Ok(again) => is_same(alloc, &again, certificate),
        Err(TextFault::Bad(_)) => Ok(false),
        Err(TextFault::NoMemory) => Err(NoMemory),
    }
}

// Whether both write one certificate.
fn write_same_certificate(alloc: Global, text: &[u8], new: &[u8]) -> Result<bool, NoMemory>
    requires text { length text.now ≤ MAX_BYTES }
    requires new { length new.now ≤ MAX_BYTES }
    ensures { IfOk result (λ same. IsTrue same → certificate_of (text_lines new.now) ≡ certificate_of (text_lines text.now)) }
{
    match read_certificate(alloc, text) {
        Ok(certificate) => writes_certificate(alloc, new, &certificate),
        Err(TextFault::Bad(_)) => Ok(false),
        Err(TextFault::NoMemory) => Err(NoMemory),
    }
}

// Whether both write one bound and one input problem.
fn write_same_bound(alloc: Global, text: &[u8], new: &[u8]) -> Result<bool, NoMemory>
    requires { length text.now ≤ MAX_BYTES }
    ensures { IfOk result (λ same. IsTrue same → WritesBound (codes "given") text.now new.now) }
{
    match read_two(alloc, GIVEN, text) {
        Ok(texts) => writes_both(alloc, new, &texts.bound, &texts.problem),
        Err(TextFault::Bad(_)) => Ok(false),
        Err(TextFault::NoMemory) => Err(NoMemory),
    }
}

// Whether the text writes the problem.
fn writes_problem(alloc: Global, text: &[u8], problem: &Problem) -> Result<bool, NoMemory>
    requires { length text.now ≤ MAX_BYTES }
    ensures { IfOk result (λ same. IsTrue same → problem_of (problem_lines (lines_of text.now)) ≡ problem.now) }
{
    match read_problem_at(alloc, 0, 1, text) {
        Ok(again) => are_same(alloc, &again, problem),
        Err(TextFault::Bad(_)) => Ok(false),
        Err(TextFault::NoMemory) => Err(NoMemory),
    }
}

// Whether both write one problem in front of the line of this name, and have the same lines behind it.
fn write_same_front(alloc: Global, name: &[u8], text: &[u8], new: &[u8]) -> Result<bool, NoMemory>
    requires text { length text.now ≤ MAX_BYTES }
    requires new { length new.now ≤ MAX_BYTES }
    ensures { IfOk result (λ same. IsTrue same → WritesFront name.now text.now new.now) }
{
    if !have_same_lines(name, new, text) {
        return Ok(false);
    }
    let (Some(cut), Some(other)) = (cut_at(name, text), cut_at(name, new)) else {
        return Ok(false);
    };
    match read_problem_at(alloc, 0, 1, cut.front) {
        Ok(problem) => writes_problem(alloc, other.front, &problem),
        Err(TextFault::Bad(_)) => Ok(false),
        Err(TextFault::NoMemory) => Err(NoMemory),
    }
}

// Whether the text writes the chain.
fn writes_chain(alloc: Global, text: &[u8], chain: &Certificate) -> Result<bool, NoMemory>
    requires { length text.now ≤ MAX_BYTES }
    ensures { IfOk result (λ same. IsTrue same → text_chain text.now ≡ chain.now) }
{
    match read_chain(alloc, text) {
        Ok(again) => is_same(alloc, &again, chain),
        Err(TextFault::Bad(_)) => Ok(false),
        Err(TextFault::NoMemory) => Err(NoMemory),
    }
}

// Whether both write one chain in front of the line of this name, and have the same lines behind it.
fn write_same_chain(alloc: Global, name: &[u8], text: &[u8], new: &[u8]) -> Result<bool, NoMemory>
    requires text { length text.now ≤ MAX_BYTES }
    requires new { length new.now ≤ MAX_BYTES }
    ensures { IfOk result (λ same. IsTrue same → WritesChain name.now text.now new.now) }
{
    if !have_same_lines(name, new, text) {
        return Ok(false);
    }
    let (Some(cut), Some(other)) = (cut_at(name, text), cut_at(name, new)) else {
        return Ok(false);
    };
    match read_chain(alloc, cut.front) {
        Ok(chain) => writes_chain(alloc, other.front, &chain),
        Err(TextFault::Bad(_)) => Ok(false),
        Err(TextFault::NoMemory) => Err(NoMemory),
    }
}

// Whether both write the same of this kind.
fn write_same(alloc: Global, kind: PartKind, text: &[u8], new: &[u8]) -> Result<bool, NoMemory>
    requires text { length text.now ≤ MAX_BYTES }
    requires new { length new.now ≤ MAX_BYTES }
    ensures { IfOk result (λ same. IsTrue same → WritesKind kind text.now new.now) }
{
    match kind {
        PartKind::Certificate => write_same_certificate(alloc, text, new),
        PartKind::Given => write_same_bound(alloc, text, new),
        PartKind::Graph => write_same_graph(alloc, text, new),
        PartKind::Length => write_same_front(alloc, LENGTH, text, new),
        PartKind::Flexible => write_same_front(alloc, FLEXIBLE, text, new),
        PartKind::Greedy => write_same_chain(alloc, GREEDY, text, new),
    }
}

// Whether the text has no fault.
fn is_right(alloc: Global, text: &[u8]) -> Result<bool, NoMemory>
    requires { length text.now ≤ MAX_BYTES }
    ensures { IfOk result (λ right. IsTrue right → part_fault_of text.now ≡ None) }
{
    Ok(part_fault(alloc, text)?.is_none())
}

// Whether the other text of a part writes the same as this one.
fn writes_part(alloc: Global, text: &[u8], new: &[u8]) -> Result<bool, NoMemory>
    requires text { length text.now ≤ MAX_BYTES }
    requires new { length new.now ≤ MAX_BYTES }
    ensures { IfOk result (λ same. IsTrue same → WritesPart text.now new.now) }
{
    let kind = kind_of(text);
    if kind_of(new) != kind || is_certificate_text(new) != is_certificate_text(text) {
        return Ok(false);
    }
    if !is_right(alloc, new)? {
        return Ok(false);
    }
    write_same(alloc, kind, text, new)
}

/// Whether the other text writes the same as this one, part by part: the first part, and at most so many behind it.
#[tactic(auto, using(crate::proofs::SameParts::last_parts, crate::proofs::SameParts::next_parts))]
pub(crate) fn writes_parts(
    alloc: Global,
    more: u8,
    text: &[u8],
    new: &[u8],
) -> Result<bool, NoMemory>
    requires text { length text.now ≤ MAX_BYTES }
    requires new { length new.now ≤ MAX_BYTES }
    ensures { IfOk result (λ same. IsTrue same → WritesParts more text.now new.now) }
{
    if !writes_part(alloc, first_part(text), first_part(new))? {
        return Ok(false);
    }
    match (joint_at(text), joint_at(new)) {
        (None, None) => Ok(true),
        (Some(at), Some(other)) => {
            if more == 0 {
                return Ok(false);
            }
            writes_parts(
                alloc,
                more - 1,
                behind_joint(text, at),
                behind_joint(new, other),
            )
        }
        _ => Ok(false),
    }
}
