//! What is known of a problem given an input problem.
ghost use Rattle.re_chains.specs.ChainTexts.{problem_chain};
ghost use Rattle.re_given.specs.Inputs.{IsInput};
ghost use Rattle.re_given_words.specs.Counting.{walk_after};
ghost use Rattle.re_problem.specs.NamedProblems.{unnamed};
ghost use Rattle.re_settle.specs.GivenWays.{IsKnownGiven, IsSettledGiven};
ghost use Rattle.re_walks.specs.Walking.{cut};
ghost use Rattle.std.specs.Prelude.{◌≡◌, ◌≤◌, IfOk, IfSome, None};

use crate::bounds_given::{longer, longest_way, short_way};
use crate::counting::MAX_ROUNDS;
use crate::counting_given::{counted, counted_at_once, most_way};
use crate::given_lines::claim_given;
use crate::given_types::SettledGiven;
use crate::never_given::{far_way, near_way};
use crate::types::{Shown, Way};
use re_chains::{LowerChain, problem_chain};
use re_evidence::{Claim, is_final};
use re_given_bounds::tells_passive;
use re_given_words::Counted;
use re_labels::NoMemory;
use re_problem::Problem;
use std::alloc::Global;

// What is known where so many rounds are too few, and a number is enough where one is known: where one round more than the first is of no use, that is
// too few as well.
fn together(
    problem: &Problem,
    input: &Problem,
    few: Shown,
    most: Option<Shown>,
    times: u8,
) -> SettledGiven
    requires input { IsInput (unnamed problem.now) (unnamed input.now) }
    requires few { IsKnownGiven times problem.now input.now (Claim.MoreThan few.rounds) few.way }
    requires most { IfSome most (λ shown. IsKnownGiven times problem.now input.now (Claim.AtMost shown.rounds) shown.way) }
    ensures { IsSettledGiven times problem.now input.now result }
{
    let _names = problem.names();
    let _times = times;
    if few.rounds < u8::MAX && tells_passive(input, few.rounds) {
        SettledGiven::Beyond(few.rounds + 1, few, most)
    } else {
        SettledGiven::Within(few, most)
    }
}

// The same where more rounds may be found to be too few, where a question is left.
fn bounded(
    alloc: Global,
    problem: &Problem,
    input: &Problem,
    chain: &LowerChain,
    few: Shown,
    most: Option<Shown>,
    times: u8,
) -> Result<SettledGiven, NoMemory>
    requires chain { chain.now.certificate ≡ problem_chain problem.now }
    requires input { IsInput (unnamed problem.now) (unnamed input.now) }
    requires few { IsKnownGiven times problem.now input.now (Claim.MoreThan few.rounds) few.way }
    requires most { IfSome most (λ shown. IsKnownGiven times problem.now input.now (Claim.AtMost shown.rounds) shown.way) }
    ensures { IfOk result (IsSettledGiven times problem.now input.now) }
{
    let known = together(problem, input, few, most, times);
    if is_final(claim_given(known)) {
        return Ok(known);
    }
    let longest = longest_way(alloc, problem, input, chain, times)?;
    let lower = longer(problem, input, few, longest, times);
    Ok(together(problem, input, lower, most, times))
}

// What is known where so many rounds are too few, it isn't counted how many are enough, and nothing shows soon that no number is.
fn searched(
    alloc: Global,
    problem: &Problem,
    input: &Problem,
    chain: &LowerChain,
    few: Shown,
    times: u8,
) -> Result<SettledGiven, NoMemory>
    requires chain { chain.now.certificate ≡ problem_chain problem.now }
    requires input { IsInput (unnamed problem.now) (unnamed input.now) }
    requires few { IsKnownGiven times problem.now input.now (Claim.MoreThan few.rounds) few.way }
    requires times { times ≤ 64 }
    ensures { IfOk result (IsSettledGiven times problem.now input.now) }
{
    let most = short_way(alloc, problem, input, times)?;
    if let Some(way) = far_way(alloc, problem, input, chain, most, times)? {
        return Ok(SettledGiven::Never(way));
    }
    bounded(alloc, problem, input, chain, few, most, times)
}

// A number of rounds that `rounds` counts up to the most.
fn by_rounds(rounds: u8, most: u8) -> Shown
    ensures rounds { result.rounds ≡ rounds }
    ensures way { result.way ≡ Way.Rounds most }
{
    Shown {
        rounds,
        way: Way::Rounds(most),
    }
}

// What is known where 0 rounds are too few.
fn behind_zero(
    alloc: Global,
    problem: &Problem,
    input: &Problem,
    chain: &LowerChain,
    few: Shown,
    times: u8,
) -> Result<SettledGiven, NoMemory>
    requires chain { chain.now.certificate ≡ problem_chain problem.now }
    requires input { IsInput (unnamed problem.now) (unnamed input.now) }
    requires few { IsKnownGiven times problem.now input.now (Claim.MoreThan few.rounds) few.way }
    requires times { times ≤ 64 }
    ensures { IfOk result (IsSettledGiven times problem.now input.now) }
{
    let _names = problem.names();
    if let Some(way) = near_way(alloc, problem, input, chain, times)? {
        return Ok(SettledGiven::Never(way));
    }
    match counted(alloc, problem, input, MAX_ROUNDS)? {
        Some(Counted::Exactly(rounds)) => {
            Ok(SettledGiven::Exactly(by_rounds(rounds, MAX_ROUNDS)))
        }
        found => {
            let most = most_way(alloc, problem, input, found, few, times)?;
            searched(alloc, problem, input, chain, most, times)
        }
    }
}

// What is known where it can't be told whether 0 rounds are enough.
fn untold(
    alloc: Global,
    problem: &Problem,
    input: &Problem,
    chain: &LowerChain,
    times: u8,
) -> Result<Option<SettledGiven>, NoMemory>
    requires chain { chain.now.certificate ≡ problem_chain problem.now }
    requires input { IsInput (unnamed problem.now) (unnamed input.now) }
    requires times { times ≤ 64 }
    ensures { IfOk result (λ found. IfSome found (IsSettledGiven times problem.now input.now)) }
{
    if let Some(way) = near_way(alloc, problem, input, chain, times)? {
        return Ok(Some(SettledGiven::Never(way)));
    }
    if let Some(most) = short_way(alloc, problem, input, times)? {
        return Ok(Some(SettledGiven::AtMost(most)));
    }
    match far_way(alloc, problem, input, chain, None, times)? {
        Some(way) => Ok(Some(SettledGiven::Never(way))),
        None => Ok(None),
    }
}

/// What the searches of this crate find out of how many rounds the problem takes given the input problem, and the words that show it, where their
/// bounds are taken so many times. It is true, and the words that are named show it, each with a text that is read. None is only where the
/// tries of `re_given_words` don't suffice to tell whether 0 rounds are enough, and nothing else is found. The crate's page says what is tried
/// in which order; the cost is that of these searches.
pub fn settle_given(
    alloc: Global,
    problem: &Problem,
    input: &Problem,
    times: u8,
) -> Result<Option<SettledGiven>, NoMemory>
    requires input { IsInput (unnamed problem.now) (unnamed input.now) }
    requires times { times ≤ 64 }
    ensures settled { IfOk result (λ found. IfSome found (IsSettledGiven times problem.now input.now)) }
    ensures none { IfOk result (λ found. found ≡ None → walk_after (unnamed problem.now) (unnamed input.now) 0 ≡ cut) }
{
    let _names = problem.names();
    let chain = problem_chain(alloc, problem.copy()?);
    match counted_at_once(alloc, problem, input)? {
        Counted::Exactly(rounds) => {
            Ok(Some(SettledGiven::Exactly(by_rounds(rounds, MAX_ROUNDS))))
        }
        Counted::MoreThan(rounds) => {
            let few = by_rounds(rounds, 0);
            Ok(Some(behind_zero(alloc, problem, input, &chain, few, times)?))
        }
        Counted::Tried(_) => untold(alloc, problem, input, &chain, times),
        Counted::Passed(..) | Counted::Stopped(..) => unreachable!(),
    }
}
