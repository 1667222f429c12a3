//! The blocks of a report on a bound given an input problem.
ghost use Rattle.re_describe.specs.GivenReports.{given_blocks_with, given_front_blocks, given_graph_blocks, given_report_of, steps_verdict};
ghost use Rattle.re_describe.specs.declared.given_blocks.GivenBlock.TheVariants as given;
ghost use Rattle.std.specs.Prelude.{◌≡◌, ◌≤◌, ◌++◌, IfOk, OnOk, map};

use crate::blocks::{Block, body_blocks};
use re_cert::{Certificate, Kind};
use re_chains::steps_refusal;
use re_check::Verdict;
use re_labels::NoMemory;
use std::alloc::Global;

/// A block of a report on a bound given an input problem.
#[derive(Clone, Copy, Debug, PartialEq, Eq)]
pub enum GivenBlock {
    /// The title.
    Title,
    /// The lines of `given`.
    Lines,
    /// What these say of the first problem.
    Claim,
    /// Where algorithms run, what a node knows, and what a round is.
    Model,
    /// The claim in rounds of the graph whose edges the passive nodes are.
    Graph,
    /// The input problem: its title, what a solution is where it has a name, and its numbers.
    Input,
    /// Its active constraint, in few rows.
    InputActive,
    /// Its passive constraint, in few rows.
    InputPassive,
    /// A block of a report on the bound.
    Of(Block),
    /// How to check the bound.
    Check,
}

// The verdict on the steps alone.
fn steps_verdict(bound: &Certificate) -> Verdict
    ensures { result ≡ steps_verdict bound.now }
{
    match steps_refusal(bound) {
        Some(refusal) => refusal,
        None => Verdict::Accepted {
            kind: bound.kind(),
            steps: bound.steps().len() as u8,
        },
    }
}

fn push_graph(blocks: &mut Vec<GivenBlock>, passive: u8) -> Result<(), NoMemory>
    ensures { OnOk result (blocks.new.items ≡ blocks.old.items ++ given_graph_blocks passive) }
{
    if passive == 2 {
        return Ok(blocks.push(GivenBlock::Graph)?);
    }
    Ok(())
}

fn push_front(blocks: &mut Vec<GivenBlock>, passive: u8) -> Result<(), NoMemory>
    ensures { OnOk result (blocks.new.items ≡ blocks.old.items ++ given_front_blocks passive) }
{
    blocks.push(GivenBlock::Title)?;
    blocks.push(GivenBlock::Lines)?;
    blocks.push(GivenBlock::Claim)?;
    blocks.push(GivenBlock::Model)?;
    push_graph(blocks, passive)?;
    blocks.push(GivenBlock::Input)?;
    blocks.push(GivenBlock::InputActive)?;
    blocks.push(GivenBlock::InputPassive)?;
    Ok(blocks.push(GivenBlock::Of(Block::Notation))?)
}

// Each block of a report on the bound, as one of this report.
fn push_body(blocks: &mut Vec<GivenBlock>, body: &[Block]) -> Result<(), NoMemory>
    ensures { OnOk result (blocks.new.items ≡ blocks.old.items ++ map given.Of body.now) }
{
    for block in body {
        blocks.push(GivenBlock::Of(*block))?;
    }
    Ok(())
}

// The blocks of such a report on a bound of this kind, with so many steps and this verdict on them.
fn blocks_with(
    alloc: Global,
    verdict: Verdict,
    passive: u8,
    steps: u8,
    kind: Kind,
) -> Result<Vec<GivenBlock>, NoMemory>
    requires { steps ≤ 64 }
    ensures { IfOk result (λ blocks. blocks.items ≡ given_blocks_with verdict passive steps kind) }
{
    let body = body_blocks(alloc, verdict, steps, kind)?;
    let mut blocks = Vec::new(alloc);
    push_front(&mut blocks, passive)?;
    push_body(&mut blocks, body.as_slice())?;
    blocks.push(GivenBlock::Check)?;
    Ok(blocks)
}

/// The blocks of the report on a bound given an input problem: the title, the lines of `given`, the claim, the model and the input problem;
/// then the problems, the steps with the clause that fails, and the way back, as in a report on the bound; how to check it.
pub fn given_report_of(alloc: Global, bound: &Certificate) -> Result<Vec<GivenBlock>, NoMemory>
    ensures { IfOk result (λ blocks. blocks.items ≡ given_report_of bound.now) }
{
    let steps = bound.steps().len() as u8;
    let passive = bound.first().degrees().passive;
    blocks_with(alloc, steps_verdict(bound), passive, steps, bound.kind())
}
