//! The whole report, block by block.
ghost use Rattle.re_check.specs.Verdicts.{verdict_of};
ghost use Rattle.re_describe.specs.Reports.{IsMarkdown, Says, Writes};
ghost use Rattle.re_describe.specs.declared.blocks.Block.TheVariants as block;
ghost use Rattle.re_frame.specs.Check.{verdict_line};
ghost use Rattle.std.specs.Prelude.{◌≡◌, ◌++◌, ◌-◌, IfOk, codes};
ghost use Rattle.re_cert.specs.Bounds.{problem_at};
ghost use Rattle.re_describe.specs.Heads.{claim, graph_claim, identifiers_claim, model, problem_text};

use crate::blocks::{Block, report_of};
use crate::endings::{back_text, check_text, notation_text, step_text};
use crate::heads::{push_claim, push_graph_claim, push_identifiers, push_model};
use crate::marks::fails_text;
use crate::orders::problem_order;
use crate::problems::{constraint_text, problem_of, push_problem};
use crate::steps::labels_text;
use re_cert::Certificate;
use re_check::{Verdict, check};
use re_frame::{begun, verdict_output};
use re_labels::NoMemory;
use std::alloc::Global;

// The line of the verdict.
fn line(alloc: Global, verdict: Verdict) -> Result<Vec<u8>, NoMemory>
    ensures { IfOk result (λ text. text.items ≡ codes "\n    " ++ verdict_line verdict) }
{
    let line = verdict_output(alloc, verdict)?.text;
    let mut text = begun(alloc, "\n    ")?;
    text.extend_from_slice(line.as_slice())?;
    Ok(text)
}

/// What the verdict says.
pub(crate) fn claim_text(alloc: Global, verdict: Verdict) -> Result<Vec<u8>, NoMemory>
    ensures { IfOk result (λ text. text.items ≡ claim verdict) }
{
    let mut text = Vec::new(alloc);
    push_claim(&mut text, verdict)?;
    Ok(text)
}

/// The same in rounds of the graph.
pub(crate) fn graph_text(alloc: Global, verdict: Verdict) -> Result<Vec<u8>, NoMemory>
    ensures { IfOk result (λ text. text.items ≡ graph_claim verdict) }
{
    let mut text = Vec::new(alloc);
    push_graph_claim(&mut text, verdict)?;
    Ok(text)
}

fn identifiers_text(alloc: Global, active: u8, verdict: Verdict) -> Result<Vec<u8>, NoMemory>
    ensures { IfOk result (λ text. text.items ≡ identifiers_claim active verdict) }
{
    let mut text = Vec::new(alloc);
    push_identifiers(&mut text, active, verdict)?;
    Ok(text)
}

/// Where algorithms run, and what a round is.
pub(crate) fn model_text(alloc: Global, active: u8, passive: u8) -> Result<Vec<u8>, NoMemory>
    ensures { IfOk result (λ text. text.items ≡ model active passive) }
{
    let mut text = Vec::new(alloc);
    push_model(&mut text, active, passive)?;
    Ok(text)
}

// The problem of this number.
fn problem_block(alloc: Global, certificate: &Certificate, number: u8) -> Result<Vec<u8>, NoMemory>
    ensures { IfOk result (λ text. text.items ≡ problem_text number (problem_at certificate.now number)) }
{
    let mut text = Vec::new(alloc);
    push_problem(&mut text, number as usize, problem_of(certificate, number))?;
    Ok(text)
}

// What the labels behind the step of this number stand for.
fn labels_block(alloc: Global, certificate: &Certificate, number: u8) -> Result<Vec<u8>, NoMemory>
    ensures { IfOk result (λ text. Says certificate.now (block.Labels number) text.items) }
{
    let place = number.saturating_sub(1);
    match certificate.steps().get(place as usize) {
        None => begun(alloc, ""),
        Some(step) => labels_text(alloc, problem_of(certificate, place), place as usize, step),
    }
}

// The active constraint of the problem of this number.
fn active_block(alloc: Global, certificate: &Certificate, number: u8) -> Result<Vec<u8>, NoMemory>
    ensures { IfOk result (λ text. Says certificate.now (block.Active number) text.items) }
{
    let problem = problem_of(certificate, number);
    let names = problem.names();
    let _labels = names.len();
    constraint_text(alloc, "\nActive constraint", names, problem.active())
}

// The passive one.
fn passive_block(alloc: Global, certificate: &Certificate, number: u8) -> Result<Vec<u8>, NoMemory>
    ensures { IfOk result (λ text. Says certificate.now (block.Passive number) text.items) }
{
    let problem = problem_of(certificate, number);
    let names = problem.names();
    let _labels = names.len();
    constraint_text(alloc, "\nPassive constraint", names, problem.passive())
}

/// What a block says of a certificate.
pub(crate) fn said(
    alloc: Global,
    certificate: &Certificate,
    verdict: Verdict,
    block: Block,
) -> Result<Vec<u8>, NoMemory>
    requires { verdict ≡ verdict_of certificate.now }
    ensures { IfOk result (λ text. Says certificate.now block text.items) }
{
    match block {
        Block::Title => begun(alloc, "# Report on a certificate\n"),
        Block::Line => line(alloc, verdict),
        Block::Claim => claim_text(alloc, verdict),
        Block::Model => {
            let degrees = certificate.first().degrees();
            model_text(alloc, degrees.active, degrees.passive)
        }
        Block::Graph => graph_text(alloc, verdict),
        Block::Identifiers => {
            let degrees = certificate.first().degrees();
            identifiers_text(alloc, degrees.active, verdict)
        }
        Block::Order => problem_order(alloc, certificate.first()),
        Block::Notation => notation_text(alloc),
        Block::Problem(number) => problem_block(alloc, certificate, number),
        Block::Active(number) => active_block(alloc, certificate, number),
        Block::Passive(number) => passive_block(alloc, certificate, number),
        Block::Step(number) => step_text(alloc, number),
        Block::Labels(number) => labels_block(alloc, certificate, number),
        Block::Fails(clause) => fails_text(alloc, clause),
        Block::WayBack => back_text(alloc, certificate),
        Block::Check => check_text(alloc, verdict),
    }
}

/// What the blocks say of a certificate with this verdict of `check`, in Markdown, one behind the other.
pub fn markdown(
    alloc: Global,
    certificate: &Certificate,
    verdict: Verdict,
    blocks: &[Block],
) -> Result<Vec<u8>, NoMemory>
    requires { verdict ≡ verdict_of certificate.now }
    ensures { IfOk result (λ text. Writes certificate.now blocks.now text.items) }
{
    let mut text = Vec::new(alloc);
    for block in blocks {
        let words = said(alloc, certificate, verdict, *block)?;
        text.extend_from_slice(words.as_slice())?;
    }
    Ok(text)
}

/// The report on a certificate, in Markdown: what `report_of` lists. It takes the time of `check`, at each constraint of at most `MOST_LISTED`
/// configurations that of `condensed`, and behind a fixed point that of `re_flexible::flexibility_of`.
pub fn report(alloc: Global, certificate: &Certificate) -> Result<Vec<u8>, NoMemory>
    ensures { IfOk result (λ text. IsMarkdown certificate.now text.items) }
{
    let verdict = check(certificate);
    let blocks = report_of(alloc, certificate, verdict)?;
    markdown(alloc, certificate, verdict, blocks.as_slice())
}
