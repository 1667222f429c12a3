//! Fixed points and graphs. Each function tries one way to show that no number of rounds solves a problem given an input problem.
ghost use Rattle.re_chains.specs.ChainTexts.{problem_chain};
ghost use Rattle.re_given.specs.Inputs.{IsInput};
ghost use Rattle.re_settings.specs.Taken.{IsTaken};
ghost use Rattle.re_problem.specs.NamedProblems.{unnamed};
ghost use Rattle.re_settle.specs.Ways.{HasText};
ghost use Rattle.re_settle.specs.GivenWays.{HasGivenText, IsKnownGiven};
ghost use Rattle.std.specs.Prelude.{◌≡◌, ◌≤◌, IfOk, IfSome, true};

use crate::finders::{cycle_given, is_accepted};
use crate::measures::greatest_degree;
use crate::never::{CYCLE_NODES, CYCLE_SIZE, CYCLE_STEPS, GADGET_STEPS, grows_little};
use crate::texts::{has_given_text, has_text};
use crate::types::{Shown, Way};
use re_cert::Certificate;
use re_chains::LowerChain;
use re_closure::{Closing, ClosureFault, find_closure};
use re_evidence::Claim;
use re_going_on::Cycle;
use re_graph::{MAX_STEPS, find_cover_given, find_gadgets_given};
use re_labels::NoMemory;
use re_problem::Problem;
use std::alloc::Global;

/// How many steps gadgets are joined in, where a degree is 5 or more.
const DEAR_STEPS: usize = 100_000;

// How many steps gadgets are joined in.
fn gadget_steps(problem: &Problem) -> usize {
    if greatest_degree(problem) < 5 {
        GADGET_STEPS
    } else {
        DEAR_STEPS
    }
}

// Whether `given` accepts the bound, and it has a text, alone and with the input problem.
fn closes_given(alloc: Global, bound: &Certificate, input: &Problem) -> Result<bool, NoMemory>
    ensures text { IfOk result (λ closes. closes ≡ true → HasText bound.now) }
    ensures taken { IfOk result (λ closes. closes ≡ true → IsTaken input.now bound.now) }
    ensures both { IfOk result (λ closes. closes ≡ true → HasGivenText bound.now input.now) }
{
    let has = has_text(alloc, bound)?;
    if !has {
        return Ok(false);
    }
    let taken = is_accepted(alloc, bound, input)?;
    if !taken {
        return Ok(false);
    }
    has_given_text(alloc, bound, input)
}

// The fixed point of the closure of the problem, where `given` accepts it.
fn closure_way(
    alloc: Global,
    problem: &Problem,
    input: &Problem,
    chain: &LowerChain,
    times: u8,
) -> Result<Option<Way>, NoMemory>
    requires chain { chain.now.certificate ≡ problem_chain problem.now }
    ensures { IfOk result (λ found. IfSome found (IsKnownGiven times problem.now input.now Claim.Never)) }
{
    let _problem = problem;
    let _names = input.names();
    let _times = times;
    match find_closure(alloc, chain) {
        Ok(Closing::Found(certificate)) => {
            let closes = closes_given(alloc, &certificate, input)?;
            if closes {
                Ok(Some(Way::Closure(0)))
            } else {
                Ok(None)
            }
        }
        Ok(Closing::Solvable(_)) | Ok(Closing::SolvableClosure(_)) => Ok(None),
        Err(ClosureFault::Limit(_)) => Ok(None),
        Err(ClosureFault::NoMemory) => Err(NoMemory),
    }
}

// A fixed point of at most 8 steps with at most 1 merge in each.
fn cycle_way(
    alloc: Global,
    problem: &Problem,
    input: &Problem,
    chain: &LowerChain,
    times: u8,
) -> Result<Option<Way>, NoMemory>
    requires chain { chain.now.certificate ≡ problem_chain problem.now }
    requires times { times ≤ 64 }
    ensures { IfOk result (λ found. IfSome found (IsKnownGiven times problem.now input.now Claim.Never)) }
{
    if !grows_little(alloc, problem, CYCLE_STEPS, CYCLE_SIZE, times)? {
        return Ok(None);
    }
    let nodes = CYCLE_NODES * u32::from(times);
    let Cycle::Found(certificate) = cycle_given(alloc, chain, input, 8, 1, nodes)? else {
        return Ok(None);
    };
    let has = has_given_text(alloc, &certificate, input)?;
    if has {
        Ok(Some(Way::Cycle(8, 1, nodes)))
    } else {
        Ok(None)
    }
}

// A graph that gadgets make. The word that finds it first lists all graphs of at most 8 active nodes.
fn gadget_way(
    alloc: Global,
    problem: &Problem,
    input: &Problem,
    times: u8,
) -> Result<Option<Way>, NoMemory>
    requires { IsInput (unnamed problem.now) (unnamed input.now) }
    ensures { IfOk result (λ found. IfSome found (IsKnownGiven times problem.now input.now Claim.Never)) }
{
    let steps = gadget_steps(problem).saturating_mul(usize::from(times));
    let steps = steps.min(MAX_STEPS);
    match find_gadgets_given(alloc, problem, input, 64, steps)?.cover {
        Some(cover) => {
            if cover.graph.nodes() <= 8 {
                Ok(Some(Way::Cover(8)))
            } else {
                Ok(Some(Way::Cover(64)))
            }
        }
        None => Ok(None),
    }
}

// How many active nodes a graph has at most.
fn cover_nodes(problem: &Problem) -> u8
    ensures { result ≤ 4 }
{
    if greatest_degree(problem) < 6 { 4 } else { 3 }
}

// A graph on which the problem has no solution and the input problem has one, of so many active nodes at most.
fn cover_way(
    alloc: Global,
    problem: &Problem,
    input: &Problem,
    times: u8,
) -> Result<Option<Way>, NoMemory>
    requires { IsInput (unnamed problem.now) (unnamed input.now) }
    ensures { IfOk result (λ found. IfSome found (IsKnownGiven times problem.now input.now Claim.Never)) }
{
    let _times = times;
    let most = cover_nodes(problem);
    match find_cover_given(alloc, problem, input, most)?.cover {
        Some(_) => Ok(Some(Way::Cover(4))),
        None => Ok(None),
    }
}

/// The first words that show soon that no number of rounds solves the problem, whose chain is given too, given the input problem.
pub(crate) fn near_way(
    alloc: Global,
    problem: &Problem,
    input: &Problem,
    chain: &LowerChain,
    times: u8,
) -> Result<Option<Way>, NoMemory>
    requires chain { chain.now.certificate ≡ problem_chain problem.now }
    requires input { IsInput (unnamed problem.now) (unnamed input.now) }
    ensures { IfOk result (λ found. IfSome found (IsKnownGiven times problem.now input.now Claim.Never)) }
{
    match closure_way(alloc, problem, input, chain, times)? {
        Some(way) => Ok(Some(way)),
        None => cover_way(alloc, problem, input, times),
    }
}

/// The same by dearer words, where no number of rounds is known to be enough.
pub(crate) fn far_way(
    alloc: Global,
    problem: &Problem,
    input: &Problem,
    chain: &LowerChain,
    most: Option<Shown>,
    times: u8,
) -> Result<Option<Way>, NoMemory>
    requires chain { chain.now.certificate ≡ problem_chain problem.now }
    requires input { IsInput (unnamed problem.now) (unnamed input.now) }
    requires times { times ≤ 64 }
    ensures { IfOk result (λ found. IfSome found (IsKnownGiven times problem.now input.now Claim.Never)) }
{
    if most.is_some() {
        return Ok(None);
    }
    match cycle_way(alloc, problem, input, chain, times)? {
        Some(way) => Ok(Some(way)),
        None => gadget_way(alloc, problem, input, times),
    }
}
