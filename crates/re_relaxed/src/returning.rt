//! Relaxations that come back to themselves.
use crate::closing::next_chain;
use crate::relaxing::{copied, merged_chain, relaxed_chain};
use crate::types::Tried;
use re_bridge::{BridgeFault, bridge};
use re_cert::{Certificate, Kind, MAX_STEPS, Step};
use re_chains::{LowerChain, copied_step, copied_steps, problem_chain};
use re_changes::Changed;
use re_labels::{MAX_LABELS, NoMemory};
use re_problem::Problem;
use re_shaping::by_rows;
use std::alloc::Global;

/// How many labels a derived problem has at most from which the way back is tried.
const MAX_BEFORE: usize = 30;

/// How many labels a problem between has at most.
const MAX_BETWEEN: usize = 48;

/// With how many tries a way back is searched for.
const MAX_TRIES: u32 = 3_000;

/// The chain with so many steps more, if they pass no limit.
pub(crate) fn chain_behind(
    alloc: Global,
    chain: &LowerChain,
    steps: u8,
) -> Result<Option<LowerChain>, NoMemory> {
    let mut longer = copied(alloc, chain)?;
    for _ in 0..steps {
        let Some(next) = next_chain(alloc, &longer, MAX_BEFORE)? else {
            return Ok(None);
        };
        longer = next;
    }
    Ok(Some(longer))
}

// The chain with the step to this problem, all maps by rows, if it is found.
fn bridged(alloc: Global, chain: &LowerChain, to: &Problem) -> Result<Tried, NoMemory> {
    if chain.certificate.steps().len() >= MAX_STEPS {
        return Ok(Tried::Missing);
    }
    match bridge(alloc, chain, to, MAX_TRIES) {
        Ok(Some(longer)) => Ok(Tried::Found(by_rows(alloc, &longer)?)),
        Ok(None) => Ok(Tried::Missing),
        Err(BridgeFault::NoMemory) => Err(NoMemory),
        Err(_) => Ok(Tried::Cut),
    }
}

// The chain from the problem back to it, of two steps or, behind two steps more each time, of at most so many more.
fn back_within(
    alloc: Global,
    problem: &Problem,
    chain: &LowerChain,
    more: u8,
) -> Result<Tried, NoMemory> {
    let Some(odd) = next_chain(alloc, chain, MAX_BEFORE)? else {
        return Ok(Tried::Cut);
    };
    let back = bridged(alloc, &odd, problem)?;
    let Tried::Missing = back else {
        return Ok(back);
    };
    if more == 0 {
        return Ok(Tried::Missing);
    }
    match next_chain(alloc, &odd, MAX_BETWEEN)? {
        Some(even) => back_within(alloc, problem, &even, more - 1),
        None => Ok(Tried::Cut),
    }
}

// The first step behind the others.
fn rotated(alloc: Global, steps: &[Step]) -> Result<Vec<Step>, NoMemory> {
    let [first, others @ ..] = steps else {
        return Ok(Vec::new(alloc));
    };
    let mut rotated = copied_steps(alloc, others)?;
    rotated.push(copied_step(alloc, first)?)?;
    Ok(rotated)
}

// Each of so many labels with itself.
fn own_pairs(alloc: Global, labels: usize) -> Result<Vec<(u8, u8)>, NoMemory> {
    let mut pairs = Vec::new(alloc);
    for label in 0..labels.min(MAX_LABELS as usize) as u8 {
        pairs.push((label, label))?;
    }
    Ok(pairs)
}

/// The fixed point that comes back, by these steps, to the last problem of the chain.
pub(crate) fn closed_by(
    alloc: Global,
    chain: &Certificate,
    back: Vec<Step>,
) -> Result<Tried, NoMemory> {
    let number = chain.steps().len().min(MAX_STEPS) as u8;
    let first = chain.first().copy()?;
    let renaming = own_pairs(alloc, chain.last().names().len())?;
    let mut back = back;
    let mut steps = copied_steps(alloc, chain.steps())?;
    steps.append(&mut back)?;
    match Certificate::build(Kind::Fixed, number, first, steps, renaming) {
        Some(certificate) => Ok(Tried::Found(certificate)),
        None => Ok(Tried::Missing),
    }
}

// The fixed point that goes on from the chain, whose last problem is relaxed, by the steps from the relaxation back to it.
fn behind_merges(
    alloc: Global,
    chain: &LowerChain,
    classes: &[u8],
    round: &Certificate,
) -> Result<Tried, NoMemory> {
    let Some(merged) = merged_chain(alloc, chain, classes)? else {
        return Ok(Tried::Missing);
    };
    let rows = by_rows(alloc, &merged.certificate)?;
    let back = copied_steps(alloc, round.steps())?;
    closed_by(alloc, &rows, back)
}

// The same behind the step to the derived problem of a relaxation of the last problem of the chain.
fn behind_step(
    alloc: Global,
    chain: &LowerChain,
    relaxed: &Changed,
    round: &Certificate,
) -> Result<Tried, NoMemory> {
    let Some(longer) = relaxed_chain(alloc, chain, relaxed)? else {
        return Ok(Tried::Missing);
    };
    let back = rotated(alloc, round.steps())?;
    closed_by(alloc, &longer.certificate, back)
}

// The fixed point that goes on from the chain by the steps from the relaxation back to it.
fn behind(
    alloc: Global,
    chain: &LowerChain,
    further: bool,
    classes: &[u8],
    relaxed: &Changed,
    round: &Certificate,
) -> Result<Tried, NoMemory> {
    if further {
        behind_merges(alloc, chain, classes, round)
    } else {
        behind_step(alloc, chain, relaxed, round)
    }
}

/// Whether the relaxation of the chain's last problem by these classes comes back to itself, by two steps or by four: the fixed point that goes on
/// from the chain, where `further` by its last step, to that relaxation, and else by the step to the derived problem of the relaxation.
pub(crate) fn returned(
    alloc: Global,
    chain: &LowerChain,
    further: bool,
    classes: &[u8],
    relaxed: &Changed,
) -> Result<Tried, NoMemory> {
    let problem = relaxed.problem();
    let start = problem_chain(alloc, problem.copy()?);
    match back_within(alloc, problem, &start, 1)? {
        Tried::Found(round) => behind(alloc, chain, further, classes, relaxed, &round),
        tried => Ok(tried),
    }
}
