//! Lower and upper bounds given an input problem. Each way that is tried tells the number of rounds that it shows.
ghost use Rattle.re_chains.specs.ChainTexts.{problem_chain};
ghost use Rattle.re_given.specs.Inputs.{IsInput};
ghost use Rattle.re_problem.specs.NamedProblems.{unnamed};
ghost use Rattle.re_settings.specs.Taken.{IsTaken};
ghost use Rattle.re_settle.specs.GivenWays.{IsKnownGiven, IsLabelsGiven, IsTriedGiven};
ghost use Rattle.std.specs.Prelude.{◌≡◌, IfOk, IfSome};

use crate::bounds::{count_of, has_patterns, upper_chain};
use crate::finders::{is_accepted, longest_given, shortest_given};
use crate::measures::{
    doublings, greatest_degree, is_small, longest_labels, longest_steps, shortest_labels,
    shortest_steps,
};
use crate::never::grows_little;
use crate::texts::has_given_text;
use crate::types::{Shown, Way};
use re_chains::LowerChain;
use re_evidence::Claim;
use re_going_on::Shortest;
use re_graph::find_cover;
use re_labels::NoMemory;
use re_problem::Problem;
use std::alloc::Global;

/// Up to how many configurations the first derived problems have of a problem whose longest lower bound is looked for.
const LONGEST_SIZE: usize = 160;

/// How many these are.
const LONGEST_STEPS: usize = 2;

/// With how few labels it is looked for first.
const FEW_LABELS: u8 = 4;

/// How many derived problems pass no limit where it is looked for with more.
const WIDE_STEPS: usize = 3;

/// Up to how many configurations the input problem has that is then given.
const LONGEST_INPUT: usize = 12;

/// Up to how many active nodes a graph has that shows that a problem is hard.
const COVER_NODES: u8 = 4;

/// Up to how many configurations a problem has whose shortest upper bound is looked for.
const SHORTEST_SIZE: usize = 12;

// Whether the two problems are so small that a longest lower bound is looked for. Nothing rests on it.
fn is_soon(alloc: Global, problem: &Problem, input: &Problem, times: u8) -> Result<bool, NoMemory> {
    if !is_small(input, LONGEST_INPUT, times) {
        return Ok(false);
    }
    grows_little(alloc, problem, LONGEST_STEPS, LONGEST_SIZE, times)
}

// Whether so many derived problems pass no limit that more labels are looked at. Nothing rests on it.
fn takes_steps(alloc: Global, problem: &Problem) -> Result<bool, NoMemory> {
    grows_little(alloc, problem, WIDE_STEPS, usize::MAX, 1)
}

// The longest lower bound that is found with few steps, each to so many labels.
fn longest_to(
    alloc: Global,
    problem: &Problem,
    input: &Problem,
    chain: &LowerChain,
    labels: u8,
    times: u8,
) -> Result<Option<Shown>, NoMemory>
    requires chain { chain.now.certificate ≡ problem_chain problem.now }
    requires input { IsInput (unnamed problem.now) (unnamed input.now) }
    requires taken { IsTaken input.now chain.now.certificate }
    requires labels { IsLabelsGiven times problem.now labels }
    ensures { IfOk result (λ found. IfSome found (λ shown. IsKnownGiven times problem.now input.now (Claim.MoreThan shown.rounds) shown.way)) }
{
    let _problem = problem.names();
    let steps = longest_steps(doublings(times));
    let certificate = longest_given(alloc, chain, input, steps, labels)?;
    let has = has_given_text(alloc, &certificate, input)?;
    if !has {
        return Ok(None);
    }
    Ok(Some(Shown {
        rounds: count_of(&certificate),
        way: Way::Longest(steps, labels),
    }))
}

// The longer one of this and of what is found with more labels, or this alone where it has as many steps as are wanted or more labels are dear.
fn longest_from(
    alloc: Global,
    problem: &Problem,
    input: &Problem,
    chain: &LowerChain,
    times: u8,
) -> Result<Option<Shown>, NoMemory>
    requires chain { chain.now.certificate ≡ problem_chain problem.now }
    requires input { IsInput (unnamed problem.now) (unnamed input.now) }
    requires taken { IsTaken input.now chain.now.certificate }
    ensures { IfOk result (λ found. IfSome found (λ shown. IsKnownGiven times problem.now input.now (Claim.MoreThan shown.rounds) shown.way)) }
{
    let doublings = doublings(times);
    let few = longest_to(alloc, problem, input, chain, FEW_LABELS, times)?;
    if let Some(shown) = few {
        if longest_steps(doublings) <= shown.rounds {
            return Ok(few);
        }
    }
    let takes = takes_steps(alloc, problem)?;
    if !takes {
        return Ok(few);
    }
    let labels = longest_labels(greatest_degree(problem), doublings);
    let more = longest_to(alloc, problem, input, chain, labels, times)?;
    match few {
        Some(few) => Ok(Some(longer(problem, input, few, more, times))),
        None => Ok(more),
    }
}

/// The longest lower bound that is found with few steps, each to few labels, where `given` accepts the problem as one without steps and both problems
/// are small.
pub(crate) fn longest_way(
    alloc: Global,
    problem: &Problem,
    input: &Problem,
    chain: &LowerChain,
    times: u8,
) -> Result<Option<Shown>, NoMemory>
    requires chain { chain.now.certificate ≡ problem_chain problem.now }
    requires input { IsInput (unnamed problem.now) (unnamed input.now) }
    ensures { IfOk result (λ found. IfSome found (λ shown. IsKnownGiven times problem.now input.now (Claim.MoreThan shown.rounds) shown.way)) }
{
    let soon = is_soon(alloc, problem, input, times)?;
    if !soon {
        return Ok(None);
    }
    if !is_accepted(alloc, &chain.certificate, input)? {
        return Ok(None);
    }
    longest_from(alloc, problem, input, chain, times)
}

/// The one of more rounds, and the second of two of as many.
pub(crate) fn longer(
    problem: &Problem,
    input: &Problem,
    first: Shown,
    second: Option<Shown>,
    times: u8,
) -> Shown
    requires first { IsKnownGiven times problem.now input.now (Claim.MoreThan first.rounds) first.way }
    requires second { IfSome second (λ shown. IsKnownGiven times problem.now input.now (Claim.MoreThan shown.rounds) shown.way) }
    ensures { IsKnownGiven times problem.now input.now (Claim.MoreThan result.rounds) result.way }
{
    let _problem = problem;
    let _input = input;
    let _times = times;
    match second {
        Some(second) => {
            if second.rounds < first.rounds {
                first
            } else {
                second
            }
        }
        None => first,
    }
}

// The shortest upper bound that is found with at most so many steps, each to at most so many labels, if any.
fn shortest_way(
    alloc: Global,
    problem: &Problem,
    input: &Problem,
    steps: u8,
    labels: u8,
    times: u8,
) -> Result<Option<Shown>, NoMemory>
    requires tried { IsTriedGiven times problem.now (Way.Shortest steps labels) }
    requires input { IsInput (unnamed problem.now) (unnamed input.now) }
    ensures { IfOk result (λ found. IfSome found (λ shown. IsKnownGiven times problem.now input.now (Claim.AtMost shown.rounds) shown.way)) }
{
    let _times = times;
    let chain = upper_chain(alloc, problem.copy()?);
    let Shortest::Found(certificate) = shortest_given(alloc, &chain, input, steps, labels)? else {
        return Ok(None);
    };
    let has = has_given_text(alloc, &certificate, input)?;
    if !has {
        return Ok(None);
    }
    Ok(Some(Shown {
        rounds: count_of(&certificate),
        way: Way::Shortest(steps, labels),
    }))
}

// Whether a graph of few nodes shows that no number of rounds solves the problem alone, so that patterns lead nowhere. Nothing rests on it.
fn is_hard(alloc: Global, problem: &Problem) -> Result<bool, NoMemory> {
    Ok(find_cover(alloc, problem, COVER_NODES)?.graph.is_some())
}

/// The shortest upper bound that is found, if any, where the problem is small.
pub(crate) fn short_way(
    alloc: Global,
    problem: &Problem,
    input: &Problem,
    times: u8,
) -> Result<Option<Shown>, NoMemory>
    requires { IsInput (unnamed problem.now) (unnamed input.now) }
    ensures { IfOk result (λ found. IfSome found (λ shown. IsKnownGiven times problem.now input.now (Claim.AtMost shown.rounds) shown.way)) }
{
    if !is_small(problem, SHORTEST_SIZE, times) {
        return Ok(None);
    }
    if has_patterns(problem, times) && !is_hard(alloc, problem)? {
        if let Some(shown) = shortest_way(alloc, problem, input, 6, 20, times)? {
            return Ok(Some(shown));
        }
    }
    let doublings = doublings(times);
    let steps = shortest_steps(doublings);
    let labels = shortest_labels(greatest_degree(problem), doublings);
    shortest_way(alloc, problem, input, steps, labels, times)
}
