//! Lower and upper bounds. Each way that is tried tells the number of rounds that it shows.
ghost use Rattle.re_cert.specs.declared.certificate.Kind.TheVariants.{Upper};
ghost use Rattle.re_chains.specs.Chains.{chain_with};
ghost use Rattle.re_chains.specs.ChainTexts.{problem_chain};
ghost use Rattle.re_problem.specs.NamedProblems.{unnamed};
ghost use Rattle.re_problem.specs.Zero.{zero_place};
ghost use Rattle.re_settle.specs.Measures.{IsSmall, doublings, greatest_degree, shortest_labels, shortest_steps};
ghost use Rattle.re_settle.specs.Ways.{IsKnown, IsTried};
ghost use Rattle.std.specs.Prelude.{◌≡◌, ◌↔◌, ◌≤◌, [], IfOk, IfSome, IsTrue, None, length};

use crate::finders::longest_alone;
use crate::measures::{
    doublings, greatest_degree, is_small, longest_labels, longest_steps, shortest_labels,
    shortest_steps,
};
use crate::texts::has_text;
use crate::types::{Shown, Way};
use re_cert::{Certificate, Kind};
use re_chains::{LowerChain, UpperChain};
use re_evidence::Claim;
use re_going_on::{Shortest, find_shortest};
use re_labels::NoMemory;
use re_problem::Problem;
use re_search::{FindFault, Search, find_lower, find_upper};
use re_settings::Setting;
use std::alloc::Global;

/// How many configurations a problem in degree 5 has for which patterns are looked for.
const PATTERN_SIZE: usize = 8;

/// How many labels a problem may have.
const ALL_LABELS: u8 = 128;

/// How many steps a certificate has.
pub fn count_of(certificate: &Certificate) -> u8
    ensures { result ≡ length certificate.now.steps }
{
    certificate.steps().len() as u8
}

/// A lower bound of so many steps without merges.
pub(crate) fn lower_way(
    alloc: Global,
    problem: &Problem,
    steps: u8,
    times: u8,
) -> Result<Option<Shown>, NoMemory>
    requires { steps ≤ 8 }
    ensures { IfOk result (λ found. IfSome found (λ shown. IsKnown times problem.now (Claim.MoreThan shown.rounds) shown.way)) }
{
    let _times = times;
    match find_lower(alloc, problem, steps, 0) {
        Ok(Search::Found(certificate)) => {
            let has = has_text(alloc, &certificate)?;
            if has {
                Ok(Some(Shown {
                    rounds: count_of(&certificate),
                    way: Way::Lower(steps, 0),
                }))
            } else {
                Ok(None)
            }
        }
        Ok(Search::NotFound { .. }) | Err(FindFault::TooManyNodes) => Ok(None),
        Err(FindFault::NoMemory) => Err(NoMemory),
    }
}

// An upper bound of at most so many steps without labels left out; where its text is too long, one with few labels.
fn upper_way(
    alloc: Global,
    problem: &Problem,
    steps: u8,
    times: u8,
) -> Result<Option<Shown>, NoMemory>
    requires { steps ≤ 9 }
    ensures { IfOk result (λ found. IfSome found (λ shown. IsKnown times problem.now (Claim.AtMost shown.rounds) shown.way)) }
{
    let _times = times;
    match find_upper(alloc, problem, steps, 0) {
        Ok(Search::Found(certificate)) => {
            let has = has_text(alloc, &certificate)?;
            if has {
                Ok(Some(Shown {
                    rounds: count_of(&certificate),
                    way: Way::Upper(steps, 0),
                }))
            } else {
                brief_way(alloc, problem, steps, times)
            }
        }
        Ok(Search::NotFound { .. }) | Err(FindFault::TooManyNodes) => Ok(None),
        Err(FindFault::NoMemory) => Err(NoMemory),
    }
}

// The longest lower bound that is found with few steps, each to few labels.
fn longest_way(
    alloc: Global,
    problem: &Problem,
    chain: &LowerChain,
    times: u8,
) -> Result<Option<Shown>, NoMemory>
    requires chain { chain.now.certificate ≡ problem_chain problem.now }
    requires not_zero { zero_place (unnamed problem.now) ≡ None }
    ensures { IfOk result (λ found. IfSome found (λ shown. IsKnown times problem.now (Claim.MoreThan shown.rounds) shown.way)) }
{
    let doublings = doublings(times);
    let steps = longest_steps(doublings);
    let labels = longest_labels(greatest_degree(problem), doublings);
    let certificate = longest_alone(alloc, chain, steps, labels)?;
    let has = has_text(alloc, &certificate)?;
    if !has {
        return Ok(None);
    }
    Ok(Some(Shown {
        rounds: count_of(&certificate),
        way: Way::Longest(steps, labels),
    }))
}

/// The one of more rounds, and the second of two of as many; where there is none, that it isn't solvable without communication.
pub(crate) fn longer(
    problem: &Problem,
    first: Option<Shown>,
    second: Option<Shown>,
    times: u8,
) -> Shown
    requires not_zero { zero_place (unnamed problem.now) ≡ None }
    requires first { IfSome first (λ shown. IsKnown times problem.now (Claim.MoreThan shown.rounds) shown.way) }
    requires second { IfSome second (λ shown. IsKnown times problem.now (Claim.MoreThan shown.rounds) shown.way) }
    ensures { IsKnown times problem.now (Claim.MoreThan result.rounds) result.way }
{
    let _names = problem.names();
    let _times = times;
    match (first, second) {
        (Some(first), Some(second)) => {
            if second.rounds < first.rounds {
                first
            } else {
                second
            }
        }
        (Some(first), None) => first,
        (None, Some(second)) => second,
        (None, None) => Shown {
            rounds: 0,
            way: Way::Zero,
        },
    }
}

/// The longer one of so many steps without merges and of what `longest` finds.
pub(crate) fn long_way(
    alloc: Global,
    problem: &Problem,
    chain: &LowerChain,
    steps: u8,
    times: u8,
) -> Result<Shown, NoMemory>
    requires chain { chain.now.certificate ≡ problem_chain problem.now }
    requires not_zero { zero_place (unnamed problem.now) ≡ None }
    requires steps { steps ≤ 8 }
    ensures { IfOk result (λ shown. IsKnown times problem.now (Claim.MoreThan shown.rounds) shown.way) }
{
    let longest = longest_way(alloc, problem, chain, times)?;
    let lower = lower_way(alloc, problem, steps, times)?;
    Ok(longer(problem, longest, lower, times))
}

/// The chain of kind upper without steps that a problem stands for.
pub fn upper_chain(alloc: Global, problem: Problem) -> UpperChain
    ensures { result.certificate ≡ chain_with Upper problem [] }
{
    match Certificate::build(Kind::Upper, 0, problem, Vec::new(alloc), Vec::new(alloc)) {
        Some(chain) => UpperChain::new(chain),
        None => unreachable!(),
    }
}

// The shortest upper bound that is found with at most so many steps, each to at most so many labels, if any.
fn shortest_way(
    alloc: Global,
    problem: &Problem,
    steps: u8,
    labels: u8,
    times: u8,
) -> Result<Option<Shown>, NoMemory>
    requires { IsTried times problem.now (Way.Shortest steps labels) }
    ensures { IfOk result (λ found. IfSome found (λ shown. IsKnown times problem.now (Claim.AtMost shown.rounds) shown.way)) }
{
    let _times = times;
    let chain = upper_chain(alloc, problem.copy()?);
    let Shortest::Found(certificate) = find_shortest(alloc, &Setting::Alone, &chain, steps, labels)?
    else {
        return Ok(None);
    };
    let has = has_text(alloc, &certificate)?;
    if !has {
        return Ok(None);
    }
    Ok(Some(Shown {
        rounds: count_of(&certificate),
        way: Way::Shortest(steps, labels),
    }))
}

// An upper bound of at most so many steps, each to as many labels as there may be: one with few labels has a short text.
fn brief_way(
    alloc: Global,
    problem: &Problem,
    steps: u8,
    times: u8,
) -> Result<Option<Shown>, NoMemory>
    requires { steps ≤ 9 }
    ensures { IfOk result (λ found. IfSome found (λ shown. IsKnown times problem.now (Claim.AtMost shown.rounds) shown.way)) }
{
    shortest_way(alloc, problem, steps, ALL_LABELS, times)
}

/// Whether patterns may lead to an upper bound: in degrees 5 and 2, where the problem has few configurations.
pub(crate) fn has_patterns(problem: &Problem, times: u8) -> bool
    ensures { IsTrue result ↔ (problem.now.active.degree ≡ 5) × (problem.now.passive.degree ≡ 2) × IsSmall (unnamed problem.now) 8 times }
{
    problem.active().degree() == 5
        && problem.passive().degree() == 2
        && is_small(problem, PATTERN_SIZE, times)
}

/// The shortest upper bound that is found, if any.
pub(crate) fn short_way(
    alloc: Global,
    problem: &Problem,
    times: u8,
) -> Result<Option<Shown>, NoMemory>
    ensures { IfOk result (λ found. IfSome found (λ shown. IsKnown times problem.now (Claim.AtMost shown.rounds) shown.way)) }
{
    if has_patterns(problem, times) {
        if let Some(shown) = shortest_way(alloc, problem, 6, 20, times)? {
            return Ok(Some(shown));
        }
    }
    let doublings = doublings(times);
    let steps = shortest_steps(doublings);
    let labels = shortest_labels(greatest_degree(problem), doublings);
    shortest_way(alloc, problem, steps, labels, times)
}

/// An upper bound of at most so many steps without labels left out, and the shortest one that is found where a step passes a limit.
pub(crate) fn enough(
    alloc: Global,
    problem: &Problem,
    steps: u8,
    times: u8,
) -> Result<Option<Shown>, NoMemory>
    requires { steps ≤ 9 }
    ensures { IfOk result (λ found. IfSome found (λ shown. IsKnown times problem.now (Claim.AtMost shown.rounds) shown.way)) }
{
    match upper_way(alloc, problem, steps, times)? {
        Some(upper) => Ok(Some(upper)),
        None => short_way(alloc, problem, times),
    }
}
