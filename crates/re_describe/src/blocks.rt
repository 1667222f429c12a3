//! The blocks of a report: what it says, of which problem or step of a certificate.
ghost use Rattle.re_check.specs.Verdicts.{verdict_of};
ghost use Rattle.re_describe.specs.Blocks.{back_blocks, back_mark, blocks_with, body_blocks, end_mark, front_blocks, graph_blocks, identifier_blocks, problem_blocks, report_of, step_blocks, step_mark};
ghost use Rattle.std.specs.Prelude.{◌≡◌, ◌≤◌, ◌++◌, IfOk, OnOk};

use re_cert::{Certificate, Kind};
use re_check::{Clause, Verdict};
use re_labels::NoMemory;
use std::alloc::Global;

/// A block of a report. Problems have the number of steps in front of them, steps are numbered from 1.
#[derive(Clone, Copy, Debug, PartialEq, Eq)]
pub enum Block {
    /// The title.
    Title,
    /// The line of `check`.
    Line,
    /// What that says of the first problem.
    Claim,
    /// Where algorithms run, and what a round is.
    Model,
    /// The claim in rounds of the graph whose edges the passive nodes are.
    Graph,
    /// The claim where nodes have unique identifiers, or random strings, too.
    Identifiers,
    /// What bounds the order of rounds from above where that is at least log N, by flexible sets of labels.
    Order,
    /// How constraints and labels are written.
    Notation,
    /// The problem of this number: its title, and its numbers.
    Problem(u8),
    /// Its active constraint, in few rows.
    Active(u8),
    /// Its passive constraint, in few rows.
    Passive(u8),
    /// The title of the step of this number.
    Step(u8),
    /// What the labels behind that step stand for.
    Labels(u8),
    /// That the check fails here, at this clause.
    Fails(Clause),
    /// The way back of a fixed point.
    WayBack,
    /// How to check the certificate.
    Check,
}

// What begins a report on a certificate with this verdict whose first problem has passive nodes of this degree.
fn push_front(blocks: &mut Vec<Block>, verdict: Verdict, passive: u8) -> Result<(), NoMemory>
    ensures { OnOk result (blocks.new.items ≡ blocks.old.items ++ front_blocks verdict passive) }
{
    blocks.push(Block::Title)?;
    blocks.push(Block::Line)?;
    blocks.push(Block::Claim)?;
    blocks.push(Block::Model)?;
    push_graph(blocks, passive)?;
    push_identifiers(blocks, verdict)?;
    Ok(blocks.push(Block::Notation)?)
}

fn push_graph(blocks: &mut Vec<Block>, passive: u8) -> Result<(), NoMemory>
    ensures { OnOk result (blocks.new.items ≡ blocks.old.items ++ graph_blocks passive) }
{
    if passive == 2 {
        return Ok(blocks.push(Block::Graph)?);
    }
    Ok(())
}

fn push_identifiers(blocks: &mut Vec<Block>, verdict: Verdict) -> Result<(), NoMemory>
    ensures { OnOk result (blocks.new.items ≡ blocks.old.items ++ identifier_blocks verdict) }
{
    match verdict {
        Verdict::Accepted {
            kind: Kind::Fixed,
            ..
        } => {
            blocks.push(Block::Identifiers)?;
            Ok(blocks.push(Block::Order)?)
        }
        Verdict::Accepted {
            kind: Kind::Lower,
            ..
        } => Ok(blocks.push(Block::Identifiers)?),
        Verdict::Accepted {
            kind: Kind::Upper,
            ..
        } => Ok(blocks.push(Block::Identifiers)?),
        Verdict::Refused { .. } => Ok(()),
    }
}

// The problem of this number, and its constraints.
fn push_problem(blocks: &mut Vec<Block>, number: u8) -> Result<(), NoMemory>
    ensures { OnOk result (blocks.new.items ≡ blocks.old.items ++ problem_blocks number) }
{
    blocks.push(Block::Problem(number))?;
    blocks.push(Block::Active(number))?;
    Ok(blocks.push(Block::Passive(number))?)
}

// The clause that fails, where it is one of this step.
fn push_step_mark(blocks: &mut Vec<Block>, verdict: Verdict, number: u8) -> Result<(), NoMemory>
    ensures { OnOk result (blocks.new.items ≡ blocks.old.items ++ step_mark verdict number) }
{
    match verdict {
        Verdict::Accepted { .. } => Ok(()),
        Verdict::Refused { step, clause } => {
            if matches!(clause, Clause::End | Clause::Back) || step != number {
                return Ok(());
            }
            Ok(blocks.push(Block::Fails(clause))?)
        }
    }
}

// The step of this number, and the problem to which it leads.
fn push_step(blocks: &mut Vec<Block>, verdict: Verdict, number: u8) -> Result<(), NoMemory>
    ensures { OnOk result (blocks.new.items ≡ blocks.old.items ++ step_blocks verdict number) }
{
    blocks.push(Block::Step(number))?;
    push_step_mark(blocks, verdict, number)?;
    blocks.push(Block::Labels(number))?;
    push_problem(blocks, number)
}

fn push_end_mark(blocks: &mut Vec<Block>, verdict: Verdict) -> Result<(), NoMemory>
    ensures { OnOk result (blocks.new.items ≡ blocks.old.items ++ end_mark verdict) }
{
    match verdict {
        Verdict::Refused {
            clause: Clause::End,
            ..
        } => Ok(blocks.push(Block::Fails(Clause::End))?),
        _ => Ok(()),
    }
}

fn push_back_mark(blocks: &mut Vec<Block>, verdict: Verdict) -> Result<(), NoMemory>
    ensures { OnOk result (blocks.new.items ≡ blocks.old.items ++ back_mark verdict) }
{
    match verdict {
        Verdict::Refused {
            clause: Clause::Back,
            ..
        } => Ok(blocks.push(Block::Fails(Clause::Back))?),
        _ => Ok(()),
    }
}

// The way back of a certificate of this kind.
fn push_back(blocks: &mut Vec<Block>, verdict: Verdict, kind: Kind) -> Result<(), NoMemory>
    ensures { OnOk result (blocks.new.items ≡ blocks.old.items ++ back_blocks verdict kind) }
{
    match kind {
        Kind::Fixed => {
            blocks.push(Block::WayBack)?;
            push_back_mark(blocks, verdict)
        }
        Kind::Lower => Ok(()),
        Kind::Upper => Ok(()),
    }
}

/// The problems of a certificate of this kind, with so many steps and this verdict, the steps between them, and the way back.
pub(crate) fn body_blocks(
    alloc: Global,
    verdict: Verdict,
    steps: u8,
    kind: Kind,
) -> Result<Vec<Block>, NoMemory>
    requires { steps ≤ 64 }
    ensures { IfOk result (λ blocks. blocks.items ≡ body_blocks verdict steps kind) }
{
    let mut blocks = Vec::new(alloc);
    push_problem(&mut blocks, 0)?;
    for place in 0..steps {
        push_step(&mut blocks, verdict, place + 1)?;
    }
    push_end_mark(&mut blocks, verdict)?;
    push_back(&mut blocks, verdict, kind)?;
    Ok(blocks)
}

// The blocks of a report on such a certificate.
fn blocks_with(
    alloc: Global,
    verdict: Verdict,
    passive: u8,
    steps: u8,
    kind: Kind,
) -> Result<Vec<Block>, NoMemory>
    requires { steps ≤ 64 }
    ensures { IfOk result (λ blocks. blocks.items ≡ blocks_with verdict passive steps kind) }
{
    let body = body_blocks(alloc, verdict, steps, kind)?;
    let mut blocks = Vec::new(alloc);
    push_front(&mut blocks, verdict, passive)?;
    blocks.extend_from_slice(body.as_slice())?;
    blocks.push(Block::Check)?;
    Ok(blocks)
}

/// The blocks of the report on a certificate on which this is the verdict of `check`: the title, the line of `check`, the claim, the model,
/// and what follows with identifiers; each problem with its constraints, and in front of it the step to it; the clause that fails, where it
/// does; the way back of a fixed point; how to check it.
pub fn report_of(
    alloc: Global,
    certificate: &Certificate,
    verdict: Verdict,
) -> Result<Vec<Block>, NoMemory>
    requires { verdict ≡ verdict_of certificate.now }
    ensures { IfOk result (λ blocks. blocks.items ≡ report_of certificate.now) }
{
    let steps = certificate.steps().len() as u8;
    let passive = certificate.first().degrees().passive;
    blocks_with(alloc, verdict, passive, steps, certificate.kind())
}
