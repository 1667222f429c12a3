//! Fixed points, and graphs without a solution. Each function tries one way to show that no number of rounds solves a problem, and tells the words
//! that show it.
ghost use Rattle.re_shaping.specs.Merging.{merge_limit, merge_refusal, merged};
ghost use Rattle.re_shaping.specs.Stepped.{stepped, stepping_fault};
ghost use Rattle.re_chains.specs.ChainTexts.{problem_chain};
ghost use Rattle.re_settle.specs.Ways.{ClosesBehind, HasText, IsClosable, IsEnd, IsFixedPoint, IsKnown, IsNever, IsTried, IsUnclosed, IsUnfixed};
ghost use Rattle.std.specs.Prelude.{◌≡◌, ◌↔◌, ◌<◌, ◌≤◌, IfOk, IfSome, IsTrue, None, length};

use crate::measures::is_small;
use crate::texts::has_text;
use crate::types::Way;
use re_chains::{LowerChain, over_problems};
use re_closure::{Closing, ClosureFault, find_closure, find_raised, one_outcome_law};
use re_evidence::Claim;
use re_going_on::{Cycle, find_cycle};
use re_graph::{MAX_STEPS, find_cover, find_gadgets};
use re_labels::NoMemory;
use re_problem::Problem;
use re_relaxed::{Relaxed, find_relaxed, find_through};
use re_search::{FindFault, Search, find_fixed};
use re_settings::Setting;
use re_shaping::{ChainStepFault, MergeFault, merge_lower, step_lower};
use re_step::{StepFault, step as derive};
use std::alloc::Global;

/// Up to how many labels merges and diagrams in the first problem are tried.
const MAX_TRIED: u8 = 8;

/// Up to how many labels a problem behind a step has whose closure is tried.
const MAX_CLOSED: u8 = 16;

/// Up to how many configurations it has.
const CLOSED_SIZE: usize = 64;

/// Up to how many configurations a problem has in which diagrams are tried.
const RAISED_SIZE: usize = 32;

/// Up to how many configurations the first derived problems have of a problem that may come back by merges.
pub(crate) const CYCLE_SIZE: usize = 40;

/// How many these are.
pub(crate) const CYCLE_STEPS: usize = 4;

/// Of how many problems it is asked whether they come back.
pub(crate) const CYCLE_NODES: u32 = 300;

/// How many relaxations are looked at before dearer ways.
const NEAR_RELAXED: u32 = 16;

/// Above how many configurations closures cost much where a passive node has more than two neighbours.
const DEAR_SIZE: usize = 32;

/// How many are looked at among these.
const FAR_RELAXED: u32 = 200;

/// How many tries maps to the problems of the library of `through` take at most: as many as the word's.
const THROUGH_TRIES: u32 = 200_000;

/// How many steps gadgets are joined in, and no more than `cover` takes.
pub(crate) const GADGET_STEPS: usize = 1_000_000;

// A fixed point of at most 4 steps without merges; none only where there is none that has a text.
fn fixed_way(alloc: Global, problem: &Problem, times: u8) -> Result<Option<Way>, NoMemory>
    ensures shown { IfOk result (λ found. IfSome found (IsFixedPoint times problem.now)) }
    ensures none { IfOk result (λ found. found ≡ None → IsUnfixed problem.now) }
{
    let _times = times;
    match find_fixed(alloc, problem, 4, 0) {
        Ok(Search::Found(certificate)) => {
            over_problems(&certificate);
            let _kind = certificate.kind();
            let has = has_text(alloc, &certificate)?;
            if has {
                Ok(Some(Way::Fixed(4, 0)))
            } else {
                Ok(None)
            }
        }
        Ok(
            Search::NotFound {
                nodes: _nodes,
                cut: _cut,
            },
        ) => Ok(None),
        Err(FindFault::TooManyNodes) => Ok(None),
        Err(FindFault::NoMemory) => Err(NoMemory),
    }
}

// Whether the closure of a problem behind a step is tried.
fn may_close(problem: &Problem, times: u8) -> bool
    ensures { IsTrue result ↔ IsClosable times problem.now }
{
    problem.names().len() <= MAX_CLOSED as usize && is_small(problem, CLOSED_SIZE, times)
}

// The chain with one derived step more, where the closure behind it is tried.
fn next_chain(alloc: Global, chain: &LowerChain, times: u8) -> Result<Option<LowerChain>, NoMemory>
    ensures may { IfOk result (λ next. IfSome next (λ next. stepping_fault chain.now.certificate ≡ None)) }
    ensures stepped { IfOk result (λ next. IfSome next (λ next. next.certificate ≡ stepped chain.now.certificate)) }
    ensures none { IfOk result (λ next. next ≡ None → IsEnd times chain.now.certificate) }
{
    match step_lower(alloc, chain) {
        Ok(next) => {
            if may_close(next.certificate.last(), times) {
                Ok(Some(next))
            } else {
                Ok(None)
            }
        }
        Err(ChainStepFault::TooManySteps) => Ok(None),
        Err(ChainStepFault::Limit(_passed)) => Ok(None),
        Err(ChainStepFault::NoMemory) => Err(NoMemory),
    }
}

// Behind how many derived problems, at most so many, the closure of the chain's last problem gives a fixed point: where the closures before are
// solvable without communication, and the problems behind a step are small. None only where no closure that can be computed gives one.
fn closing(alloc: Global, chain: &LowerChain, more: u8, times: u8) -> Result<Option<u8>, NoMemory>
    ensures closes { IfOk result (λ found. IfSome found (λ steps. ClosesBehind steps chain.now.certificate)) }
    ensures most { IfOk result (λ found. IfSome found (λ steps. steps ≤ more)) }
    ensures none { IfOk result (λ found. found ≡ None → IsUnclosed times more chain.now.certificate) }
{
    one_outcome_law();
    let last = chain.certificate.last();
    let _names = last.names();
    match find_closure(alloc, chain) {
        Ok(Closing::Found(certificate)) => {
            let has = has_text(alloc, &certificate)?;
            if has { Ok(Some(0)) } else { Ok(None) }
        }
        Ok(Closing::SolvableClosure(_sets)) => {
            if more == 0 {
                return Ok(None);
            }
            match next_chain(alloc, chain, times)? {
                None => Ok(None),
                Some(next) => match closing(alloc, &next, more - 1, times)? {
                    Some(steps) => Ok(Some(steps + 1)),
                    None => Ok(None),
                },
            }
        }
        Ok(Closing::Solvable(_place)) => Ok(None),
        Err(ClosureFault::Limit(_passed)) => Ok(None),
        Err(ClosureFault::NoMemory) => Err(NoMemory),
    }
}

// The fixed point of the closure of the problem, or behind at most so many derived problems.
fn closure_way(
    alloc: Global,
    problem: &Problem,
    chain: &LowerChain,
    more: u8,
    times: u8,
) -> Result<Option<Way>, NoMemory>
    requires chain { chain.now.certificate ≡ problem_chain problem.now }
    requires more { more ≤ 2 }
    ensures shown { IfOk result (λ found. IfSome found (IsFixedPoint times problem.now)) }
    ensures none { IfOk result (λ found. found ≡ None → IsUnclosed times more (problem_chain problem.now)) }
{
    let _problem = problem;
    match closing(alloc, chain, more, times)? {
        Some(steps) => Ok(Some(Way::Closure(steps))),
        None => Ok(None),
    }
}

// The fixed point of the closure of the problem that a diagram of one edge raises, of which the lower label comes first.
fn raised_way(
    alloc: Global,
    problem: &Problem,
    chain: &LowerChain,
    low: u8,
    high: u8,
    times: u8,
) -> Result<Option<Way>, NoMemory>
    requires chain { chain.now.certificate ≡ problem_chain problem.now }
    requires low { low < length problem.now.names }
    requires high { high < length problem.now.names }
    ensures { IfOk result (λ found. IfSome found (IsFixedPoint times problem.now)) }
{
    let _problem = problem;
    let _times = times;
    match find_raised(alloc, chain, &[(low, high)]) {
        Ok(Closing::Found(certificate)) => {
            let has = has_text(alloc, &certificate)?;
            if has {
                Ok(Some(Way::Raised(low, high)))
            } else {
                Ok(None)
            }
        }
        Ok(Closing::Solvable(_)) | Ok(Closing::SolvableClosure(_)) => Ok(None),
        Err(ClosureFault::Limit(_)) => Ok(None),
        Err(ClosureFault::NoMemory) => Err(NoMemory),
    }
}

// The same for the first other label, of so many, that is raised to this one.
fn raised_to(
    alloc: Global,
    problem: &Problem,
    chain: &LowerChain,
    high: u8,
    labels: u8,
    times: u8,
) -> Result<Option<Way>, NoMemory>
    requires chain { chain.now.certificate ≡ problem_chain problem.now }
    requires high { high < labels }
    requires labels { labels ≡ length problem.now.names }
    ensures { IfOk result (λ found. IfSome found (IsFixedPoint times problem.now)) }
{
    for low in 0..labels {
        if low == high {
            continue;
        }
        if let Some(way) = raised_way(alloc, problem, chain, low, high, times)? {
            return Ok(Some(way));
        }
    }
    Ok(None)
}

// The same for all edges, where the problem is small.
fn all_raised_way(
    alloc: Global,
    problem: &Problem,
    chain: &LowerChain,
    times: u8,
) -> Result<Option<Way>, NoMemory>
    requires { chain.now.certificate ≡ problem_chain problem.now }
    ensures { IfOk result (λ found. IfSome found (IsFixedPoint times problem.now)) }
{
    let labels = problem.names().len();
    if labels > MAX_TRIED as usize || !is_small(problem, RAISED_SIZE, times) {
        return Ok(None);
    }
    for high in 0..labels as u8 {
        if let Some(way) = raised_to(alloc, problem, chain, high, labels as u8, times)? {
            return Ok(Some(way));
        }
    }
    Ok(None)
}

// The fixed point of the closure of what a merge in the first problem gives.
fn closed_way(
    alloc: Global,
    problem: &Problem,
    relaxed: &LowerChain,
    from: u8,
    to: u8,
    times: u8,
) -> Result<Option<Way>, NoMemory>
    requires relaxed { relaxed.now.certificate ≡ merged from to (problem_chain problem.now) }
    requires may { merge_refusal from to (problem_chain problem.now) ≡ None }
    requires within { merge_limit from to (problem_chain problem.now) ≡ None }
    requires text { HasText relaxed.now.certificate }
    ensures { IfOk result (λ found. IfSome found (IsFixedPoint times problem.now)) }
{
    let _problem = problem;
    let _times = times;
    match find_closure(alloc, relaxed) {
        Ok(Closing::Found(certificate)) => {
            let has = has_text(alloc, &certificate)?;
            if has {
                Ok(Some(Way::Merge(from, to)))
            } else {
                Ok(None)
            }
        }
        Ok(Closing::Solvable(_)) | Ok(Closing::SolvableClosure(_)) => Ok(None),
        Err(ClosureFault::Limit(_)) => Ok(None),
        Err(ClosureFault::NoMemory) => Err(NoMemory),
    }
}

// The same where the one label becomes the other.
fn merge_way(
    alloc: Global,
    problem: &Problem,
    chain: &LowerChain,
    from: u8,
    to: u8,
    times: u8,
) -> Result<Option<Way>, NoMemory>
    requires { chain.now.certificate ≡ problem_chain problem.now }
    ensures { IfOk result (λ found. IfSome found (IsFixedPoint times problem.now)) }
{
    match merge_lower(alloc, chain, from, to) {
        Ok(merged) => {
            if !may_close(merged.certificate.last(), times) {
                return Ok(None);
            }
            let has = has_text(alloc, &merged.certificate)?;
            if has {
                closed_way(alloc, problem, &merged, from, to, times)
            } else {
                Ok(None)
            }
        }
        Err(MergeFault::NoMemory) => Err(NoMemory),
        Err(_) => Ok(None),
    }
}

// The same for the first later label that becomes this one, of so many.
fn merges_to(
    alloc: Global,
    problem: &Problem,
    chain: &LowerChain,
    to: u8,
    labels: u8,
    times: u8,
) -> Result<Option<Way>, NoMemory>
    requires chain { chain.now.certificate ≡ problem_chain problem.now }
    requires to { to < labels }
    ensures { IfOk result (λ found. IfSome found (IsFixedPoint times problem.now)) }
{
    for from in to + 1..labels {
        if let Some(way) = merge_way(alloc, problem, chain, from, to, times)? {
            return Ok(Some(way));
        }
    }
    Ok(None)
}

// The same for all pairs of labels, where there are few.
fn merges_way(
    alloc: Global,
    problem: &Problem,
    chain: &LowerChain,
    times: u8,
) -> Result<Option<Way>, NoMemory>
    requires { chain.now.certificate ≡ problem_chain problem.now }
    ensures { IfOk result (λ found. IfSome found (IsFixedPoint times problem.now)) }
{
    let labels = problem.names().len();
    if labels > MAX_TRIED as usize {
        return Ok(None);
    }
    for to in 0..labels as u8 {
        if let Some(way) = merges_to(alloc, problem, chain, to, labels as u8, times)? {
            return Ok(Some(way));
        }
    }
    Ok(None)
}

// The words that find a graph without a solution of at most so many active nodes.
fn graph_way(problem: &Problem, nodes: u8, times: u8) -> Way
    requires { IsKnown times problem.now Claim.Never (Way.Cover nodes) }
    ensures { IsNever times problem.now result }
{
    let _names = problem.names();
    let _times = times;
    Way::Cover(nodes)
}

/// A graph without a solution that gadgets make. The word that finds it first lists all graphs of at most 8 active nodes.
pub(crate) fn gadget_way(
    alloc: Global,
    problem: &Problem,
    times: u8,
) -> Result<Option<Way>, NoMemory>
    ensures { IfOk result (λ found. IfSome found (IsNever times problem.now)) }
{
    let steps = GADGET_STEPS.saturating_mul(usize::from(times));
    let steps = steps.min(MAX_STEPS);
    match find_gadgets(alloc, problem, 64, steps)?.graph {
        Some(graph) => {
            if graph.nodes() <= 8 {
                Ok(Some(graph_way(problem, 8, times)))
            } else {
                Ok(Some(graph_way(problem, 64, times)))
            }
        }
        None => Ok(None),
    }
}

// A graph of at most 4 active nodes without a solution.
fn cover_way(alloc: Global, problem: &Problem, times: u8) -> Result<Option<Way>, NoMemory>
    ensures { IfOk result (λ found. IfSome found (IsNever times problem.now)) }
{
    let _times = times;
    match find_cover(alloc, problem, 4)?.graph {
        Some(_) => Ok(Some(graph_way(problem, 4, times))),
        None => Ok(None),
    }
}

/// Whether the first derived problems, so many, have at most so many configurations each, so many times, so that a search is worth its time. Nothing
/// rests on it.
pub(crate) fn grows_little(
    alloc: Global,
    problem: &Problem,
    steps: usize,
    most: usize,
    times: u8,
) -> Result<bool, NoMemory> {
    let mut current = problem.copy()?;
    for _step in 0..steps {
        match derive(alloc, &current) {
            Ok(derived) => current = derived.problem,
            Err(StepFault::Limit(_)) => return Ok(false),
            Err(StepFault::NoMemory) => return Err(NoMemory),
        }
        if !is_small(&current, most, times) {
            return Ok(false);
        }
    }
    Ok(true)
}

// A fixed point of at most 8 steps with at most 1 merge in each.
fn cycle_way(
    alloc: Global,
    problem: &Problem,
    chain: &LowerChain,
    times: u8,
) -> Result<Option<Way>, NoMemory>
    requires chain { chain.now.certificate ≡ problem_chain problem.now }
    requires times { times ≤ 64 }
    ensures { IfOk result (λ found. IfSome found (IsFixedPoint times problem.now)) }
{
    if !grows_little(alloc, problem, CYCLE_STEPS, CYCLE_SIZE, times)? {
        return Ok(None);
    }
    let nodes = CYCLE_NODES * u32::from(times);
    let Cycle::Found(certificate) = find_cycle(alloc, &Setting::Alone, chain, 8, 1, nodes)? else {
        return Ok(None);
    };
    let has = has_text(alloc, &certificate)?;
    if has {
        Ok(Some(Way::Cycle(8, 1, nodes)))
    } else {
        Ok(None)
    }
}

// A fixed point behind a relaxation, of at most so many that are looked at.
fn relaxed_way(
    alloc: Global,
    problem: &Problem,
    chain: &LowerChain,
    nodes: u32,
    times: u8,
) -> Result<Option<Way>, NoMemory>
    requires chain { chain.now.certificate ≡ problem_chain problem.now }
    requires tried { IsTried times problem.now (Way.Relaxed nodes) }
    ensures { IfOk result (λ found. IfSome found (IsFixedPoint times problem.now)) }
{
    let _problem = problem;
    let _times = times;
    let Relaxed::Found(certificate) = find_relaxed(alloc, chain, nodes)? else {
        return Ok(None);
    };
    let has = has_text(alloc, &certificate)?;
    if has {
        Ok(Some(Way::Relaxed(nodes)))
    } else {
        Ok(None)
    }
}

// The first words that show a fixed point of the problem, whose chain is given too, of those that cost little, whatever its size.
fn near_way(
    alloc: Global,
    problem: &Problem,
    chain: &LowerChain,
    times: u8,
) -> Result<Option<Way>, NoMemory>
    requires chain { chain.now.certificate ≡ problem_chain problem.now }
    requires times { times ≤ 64 }
    ensures shown { IfOk result (λ found. IfSome found (IsFixedPoint times problem.now)) }
    ensures none { IfOk result (λ found. found ≡ None → IsUnfixed problem.now) }
{
    match fixed_way(alloc, problem, times)? {
        Some(way) => Ok(Some(way)),
        None => {
            let nodes = NEAR_RELAXED * u32::from(times);
            relaxed_way(alloc, problem, chain, nodes, times)
        }
    }
}

// Whether a graph of few nodes costs less than closures do. Nothing rests on it.
fn is_dear(problem: &Problem, times: u8) -> bool {
    problem.passive().degree() > 2 && !is_small(problem, DEAR_SIZE, times)
}

/// The first words that show that no number of rounds solves the problem, whose chain is given too, of those that cost little, whatever its size.
pub(crate) fn soon_way(
    alloc: Global,
    problem: &Problem,
    chain: &LowerChain,
    times: u8,
) -> Result<Option<Way>, NoMemory>
    requires chain { chain.now.certificate ≡ problem_chain problem.now }
    requires times { times ≤ 64 }
    ensures shown { IfOk result (λ found. IfSome found (IsNever times problem.now)) }
    ensures none { IfOk result (λ found. found ≡ None → IsUnfixed problem.now) }
{
    if is_dear(problem, times) {
        if let Some(way) = cover_way(alloc, problem, times)? {
            return Ok(Some(way));
        }
    }
    match near_way(alloc, problem, chain, times)? {
        Some(way) => Ok(Some(way)),
        None => cover_way(alloc, problem, times),
    }
}

// A fixed point behind a step to one of the library of `through`.
fn through_way(
    alloc: Global,
    problem: &Problem,
    chain: &LowerChain,
    times: u8,
) -> Result<Option<Way>, NoMemory>
    requires { chain.now.certificate ≡ problem_chain problem.now }
    ensures { IfOk result (λ found. IfSome found (IsFixedPoint times problem.now)) }
{
    let _problem = problem;
    let _times = times;
    let Relaxed::Found(certificate) = find_through(alloc, chain, None, THROUGH_TRIES)? else {
        return Ok(None);
    };
    let has = has_text(alloc, &certificate)?;
    if has {
        Ok(Some(Way::Through))
    } else {
        Ok(None)
    }
}

// The first words that show a fixed point of the problem, whose chain is given too, of those that cost more than closures.
fn farther_way(
    alloc: Global,
    problem: &Problem,
    chain: &LowerChain,
    times: u8,
) -> Result<Option<Way>, NoMemory>
    requires chain { chain.now.certificate ≡ problem_chain problem.now }
    requires times { times ≤ 64 }
    ensures { IfOk result (λ found. IfSome found (IsFixedPoint times problem.now)) }
{
    if let Some(way) = through_way(alloc, problem, chain, times)? {
        return Ok(Some(way));
    }
    let nodes = FAR_RELAXED * u32::from(times);
    if let Some(way) = relaxed_way(alloc, problem, chain, nodes, times)? {
        return Ok(Some(way));
    }
    if let Some(way) = merges_way(alloc, problem, chain, times)? {
        return Ok(Some(way));
    }
    if let Some(way) = all_raised_way(alloc, problem, chain, times)? {
        return Ok(Some(way));
    }
    cycle_way(alloc, problem, chain, times)
}

/// The same of those that cost more; none only where no closure that can be computed, of the problem or behind 1 or 2 derived ones, gives a fixed
/// point that has a text.
pub(crate) fn far_way(
    alloc: Global,
    problem: &Problem,
    chain: &LowerChain,
    times: u8,
) -> Result<Option<Way>, NoMemory>
    requires chain { chain.now.certificate ≡ problem_chain problem.now }
    requires times { times ≤ 64 }
    ensures shown { IfOk result (λ found. IfSome found (IsFixedPoint times problem.now)) }
    ensures none { IfOk result (λ found. found ≡ None → IsUnclosed times 2 (problem_chain problem.now)) }
{
    match closure_way(alloc, problem, chain, 2, times)? {
        Some(way) => Ok(Some(way)),
        None => farther_way(alloc, problem, chain, times),
    }
}
