//! The bounds that words find, found anew by the searches behind these words, with their numbers. What they are worth `judge` says.
ghost use Rattle.std.specs.Prelude.{◌<◌};

use re_cert::{Certificate, MAX_STEPS};
use re_chains::{LowerChain, problem_chain};
use re_closure::{Closing, ClosureFault, find_closure, find_raised};
use re_labels::NoMemory;
use re_problem::Problem;
use re_relaxed::{Relaxed, find_relaxed, find_through};
use re_search::{FindFault, Search, find_fixed, find_lower, find_upper};
use re_settle::{Way, upper_chain};
use re_shaping::{ChainStepFault, MergeFault, merge_lower, step, step_lower};
use std::alloc::Global;

/// How many tries maps to the problems of the library of `through` take at most: as many as the word's.
const THROUGH_TRIES: u32 = 200_000;

/// The most changes in each step of a search of `re`.
const MAX_CHANGES: u8 = 8;

// What a search finds.
fn searched(search: Result<Search, FindFault>) -> Result<Option<Certificate>, NoMemory> {
    match search {
        Ok(Search::Found(certificate)) => Ok(Some(certificate)),
        Ok(Search::NotFound { .. }) | Err(FindFault::TooManyNodes) => Ok(None),
        Err(FindFault::NoMemory) => Err(NoMemory),
    }
}

// What `re lower K M` finds.
fn lower_bound(
    alloc: Global,
    problem: &Problem,
    steps: u8,
    merges: u8,
) -> Result<Option<Certificate>, NoMemory> {
    if steps as usize > MAX_STEPS || merges > MAX_CHANGES {
        return Ok(None);
    }
    searched(find_lower(alloc, problem, steps, merges))
}

/// What `re lower K 0` finds for the greatest K, at most so many, for which it finds something.
pub(crate) fn plain_lower(
    alloc: Global,
    problem: &Problem,
    steps: u8,
) -> Result<Option<Certificate>, NoMemory> {
    if let Some(certificate) = lower_bound(alloc, problem, steps, 0)? {
        return Ok(Some(certificate));
    }
    if steps == 0 {
        return Ok(None);
    }
    plain_lower(alloc, problem, steps - 1)
}

/// What `re upper K M` finds.
pub(crate) fn upper_bound(
    alloc: Global,
    problem: &Problem,
    steps: u8,
    drops: u8,
) -> Result<Option<Certificate>, NoMemory> {
    if steps as usize > MAX_STEPS || drops > MAX_CHANGES {
        return Ok(None);
    }
    searched(find_upper(alloc, problem, steps, drops))
}

// What `re fixed K M` finds.
fn fixed_bound(
    alloc: Global,
    problem: &Problem,
    steps: u8,
    merges: u8,
) -> Result<Option<Certificate>, NoMemory> {
    if steps == 0 || steps as usize > MAX_STEPS || merges > MAX_CHANGES {
        return Ok(None);
    }
    searched(find_fixed(alloc, problem, steps, merges))
}

// What a closure gives.
fn closed(closing: Result<Closing, ClosureFault>) -> Result<Option<Certificate>, NoMemory> {
    match closing {
        Ok(Closing::Found(certificate)) => Ok(Some(certificate)),
        Ok(Closing::Solvable(_)) | Ok(Closing::SolvableClosure(_)) => Ok(None),
        Err(ClosureFault::Limit(_)) => Ok(None),
        Err(ClosureFault::NoMemory) => Err(NoMemory),
    }
}

// The fixed point of the closure behind so many derived problems more.
fn closure_behind(
    alloc: Global,
    chain: &LowerChain,
    steps: u8,
) -> Result<Option<Certificate>, NoMemory> {
    if steps == 0 {
        return closed(find_closure(alloc, chain));
    }
    match step_lower(alloc, chain) {
        Ok(next) => closure_behind(alloc, &next, steps - 1),
        Err(ChainStepFault::NoMemory) => Err(NoMemory),
        Err(_) => Ok(None),
    }
}

// The fixed point of the closure where the one label becomes the other.
fn merged_closure(
    alloc: Global,
    chain: &LowerChain,
    from: u8,
    to: u8,
) -> Result<Option<Certificate>, NoMemory> {
    match merge_lower(alloc, chain, from, to) {
        Ok(merged) => closed(find_closure(alloc, &merged)),
        Err(MergeFault::NoMemory) => Err(NoMemory),
        Err(_) => Ok(None),
    }
}

// The fixed point of the closure with the one label raised to the other.
fn raised_closure(
    alloc: Global,
    chain: &LowerChain,
    low: u8,
    high: u8,
) -> Result<Option<Certificate>, NoMemory> {
    let labels = chain.certificate.last().names().len();
    if low as usize >= labels || high as usize >= labels {
        return Ok(None);
    }
    closed(find_raised(alloc, chain, &[(low, high)]))
}

// What a search behind relaxations finds.
fn relaxed(found: Relaxed) -> Option<Certificate> {
    match found {
        Relaxed::Found(certificate) => Some(certificate),
        _ => None,
    }
}

// The fixed point that words find which go on from the chain of a problem without steps.
fn chain_bound(
    alloc: Global,
    chain: &LowerChain,
    way: Way,
) -> Result<Option<Certificate>, NoMemory> {
    match way {
        Way::Closure(steps) => closure_behind(alloc, chain, steps),
        Way::Raised(low, high) => raised_closure(alloc, chain, low, high),
        Way::Merge(from, to) => merged_closure(alloc, chain, from, to),
        Way::Relaxed(nodes) => Ok(relaxed(find_relaxed(alloc, chain, nodes)?)),
        Way::Through => Ok(relaxed(find_through(alloc, chain, None, THROUGH_TRIES)?)),
        _ => Ok(None),
    }
}

/// The bound that these words find, where they are words of `re` or find a fixed point by closures or relaxations.
pub(crate) fn bound_by(
    alloc: Global,
    problem: &Problem,
    way: Way,
) -> Result<Option<Certificate>, NoMemory> {
    match way {
        Way::Lower(steps, merges) => lower_bound(alloc, problem, steps, merges),
        Way::Upper(steps, drops) => upper_bound(alloc, problem, steps, drops),
        Way::Fixed(steps, merges) => fixed_bound(alloc, problem, steps, merges),
        other => {
            let chain = problem_chain(alloc, problem.copy()?);
            chain_bound(alloc, &chain, other)
        }
    }
}

// The chain with so many derived problems more, where no limit is passed.
fn with_steps(
    alloc: Global,
    chain: Certificate,
    steps: u8,
) -> Result<Option<Certificate>, NoMemory> {
    if steps == 0 {
        return Ok(Some(chain));
    }
    match step(alloc, &chain) {
        Ok(next) => with_steps(alloc, next, steps - 1),
        Err(ChainStepFault::NoMemory) => Err(NoMemory),
        Err(_) => Ok(None),
    }
}

/// The chain of kind upper of so many derived problems behind the problem, where no limit is passed.
pub(crate) fn derived_chain(
    alloc: Global,
    problem: &Problem,
    steps: u8,
) -> Result<Option<Certificate>, NoMemory> {
    let chain = upper_chain(alloc, problem.copy()?);
    with_steps(alloc, chain.certificate, steps)
}
