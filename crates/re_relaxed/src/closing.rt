//! The closure of a problem, behind derived problems, or of one that a diagram raises.
ghost use Rattle.std.specs.Prelude.{◌<◌, length};

use crate::relaxing::relaxed_chain;
use crate::types::Tried;
use re_chains::LowerChain;
use re_changes::Changed;
use re_closure::{Closing, ClosureFault, find_closure, find_raised};
use re_labels::NoMemory;
use re_shaping::{ChainStepFault, step_lower};
use std::alloc::Global;

/// Up to how many labels a derived problem has whose closure is tried.
const MAX_CLOSED: usize = 16;

/// How many derived problems come before a closure that is tried.
const MAX_FURTHER: u8 = 2;

// What the closure comes to.
fn tried(closing: Result<Closing, ClosureFault>) -> Result<Tried, NoMemory> {
    match closing {
        Ok(Closing::Found(certificate)) => Ok(Tried::Found(certificate)),
        Ok(Closing::SolvableClosure(_)) => Ok(Tried::Open),
        Ok(Closing::Solvable(_)) => Ok(Tried::Missing),
        Err(ClosureFault::Limit(_)) => Ok(Tried::Cut),
        Err(ClosureFault::NoMemory) => Err(NoMemory),
    }
}

// What the closure of the last problem comes to.
fn closed(alloc: Global, chain: &LowerChain) -> Result<Tried, NoMemory> {
    tried(find_closure(alloc, chain))
}

// The chain, if its last problem has at most so many labels.
fn few_labels(chain: LowerChain, most: usize) -> Option<LowerChain> {
    if chain.certificate.last().names().len() <= most {
        Some(chain)
    } else {
        None
    }
}

/// The chain with one step more, to the derived problem, if it passes no limit and has at most so many labels.
pub(crate) fn next_chain(
    alloc: Global,
    chain: &LowerChain,
    most: usize,
) -> Result<Option<LowerChain>, NoMemory> {
    match step_lower(alloc, chain) {
        Ok(next) => Ok(few_labels(next, most)),
        Err(ChainStepFault::NoMemory) => Err(NoMemory),
        Err(_) => Ok(None),
    }
}

/// What the closure comes to, or, where it is solvable without communication, that behind at most so many derived problems.
pub(crate) fn closed_within(
    alloc: Global,
    chain: &LowerChain,
    more: u8,
) -> Result<Tried, NoMemory> {
    let here = closed(alloc, chain)?;
    let Tried::Open = here else {
        return Ok(here);
    };
    if more == 0 {
        return Ok(Tried::Missing);
    }
    match next_chain(alloc, chain, MAX_CLOSED)? {
        Some(next) => closed_within(alloc, &next, more - 1),
        None => Ok(Tried::Cut),
    }
}

/// What the closures behind the derived problem of a relaxation of the last problem come to.
pub(crate) fn closed_behind(
    alloc: Global,
    chain: &LowerChain,
    relaxed: &Changed,
) -> Result<Tried, NoMemory> {
    match relaxed_chain(alloc, chain, relaxed)? {
        Some(next) => closed_within(alloc, &next, MAX_FURTHER),
        None => Ok(Tried::Missing),
    }
}

/// What the closure of the problem comes to to which a diagram of one edge raises the last one; the lower label comes first.
pub(crate) fn closed_raised(
    alloc: Global,
    chain: &LowerChain,
    low: u8,
    high: u8,
) -> Result<Tried, NoMemory> {
    let labels = chain.certificate.last().names().len();
    if low as usize >= labels || high as usize >= labels {
        return Ok(Tried::Missing);
    }
    tried(find_raised(alloc, chain, &[(low, high)]))
}
