//! What `rounds` counts given an input problem.
ghost use Rattle.re_given.specs.Inputs.{IsInput};
ghost use Rattle.re_given_words.specs.Counting.{IsCounted};
ghost use Rattle.re_problem.specs.NamedProblems.{unnamed};
ghost use Rattle.re_settle.specs.GivenWays.{IsKnownGiven};
ghost use Rattle.std.specs.Prelude.{◌≡◌, ◌≤◌, IfOk, IfSome, Some};

use crate::counting::{MAX_ROUNDS, few_of};
use crate::types::{Shown, Way};
use re_evidence::Claim;
use re_given_words::{Counted, RoundsTexts, count, count_within};
use re_labels::NoMemory;
use re_problem::Problem;
use std::alloc::Global;

/// Up to how many labels problems have from which steps are taken.
const MAX_COUNTED: u8 = 64;

// The two problems.
fn texts_of(problem: &Problem, input: &Problem) -> Result<RoundsTexts, NoMemory>
    ensures problem { IfOk result (λ texts. texts.problem ≡ problem.now) }
    ensures input { IfOk result (λ texts. texts.input ≡ Some input.now) }
{
    Ok(RoundsTexts {
        problem: problem.copy()?,
        input: Some(input.copy()?),
    })
}

/// What is told of 0 rounds: that they are enough, too few, or that it can't be told.
pub(crate) fn counted_at_once(
    alloc: Global,
    problem: &Problem,
    input: &Problem,
) -> Result<Counted, NoMemory>
    requires { IsInput (unnamed problem.now) (unnamed input.now) }
    ensures { IfOk result (IsCounted (unnamed problem.now) (Some (unnamed input.now)) 0) }
{
    let texts = texts_of(problem, input)?;
    count(alloc, &texts, 0, 0)
}

/// How many rounds the problem takes given the input problem, up to `most`, as far as steps from problems of at most `MAX_COUNTED` labels go.
pub(crate) fn counted(
    alloc: Global,
    problem: &Problem,
    input: &Problem,
    most: u8,
) -> Result<Option<Counted>, NoMemory>
    requires input { IsInput (unnamed problem.now) (unnamed input.now) }
    requires most { most ≤ 64 }
    ensures { IfOk result (λ found. IfSome found (IsCounted (unnamed problem.now) (Some (unnamed input.now)) most)) }
{
    let texts = texts_of(problem, input)?;
    count_within(alloc, &texts, most, MAX_COUNTED)
}

// More than so many rounds, where that is counted.
fn more_way(
    problem: &Problem,
    input: &Problem,
    counted: Counted,
    most: u8,
    times: u8,
) -> Option<Shown>
    requires input { IsInput (unnamed problem.now) (unnamed input.now) }
    requires most { most ≤ 8 }
    requires counted { IsCounted (unnamed problem.now) (Some (unnamed input.now)) most counted }
    ensures { IfSome result (λ shown. IsKnownGiven times problem.now input.now (Claim.MoreThan shown.rounds) shown.way) }
{
    let _names = problem.names();
    let _input = input;
    let _times = times;
    let rounds = few_of(counted)?;
    Some(Shown {
        rounds,
        way: Way::Rounds(most),
    })
}

// The same where something is counted.
fn told_way(
    problem: &Problem,
    input: &Problem,
    found: Option<Counted>,
    most: u8,
    times: u8,
) -> Option<Shown>
    requires input { IsInput (unnamed problem.now) (unnamed input.now) }
    requires most { most ≤ 8 }
    requires counted { IfSome found (IsCounted (unnamed problem.now) (Some (unnamed input.now)) most) }
    ensures { IfSome result (λ shown. IsKnownGiven times problem.now input.now (Claim.MoreThan shown.rounds) shown.way) }
{
    match found {
        Some(counted) => more_way(problem, input, counted, most, times),
        None => None,
    }
}

// From how many rounds on nothing is told.
fn untold_from(found: Option<Counted>) -> u8
    ensures { result ≤ 8 }
{
    match found {
        Some(Counted::Tried(rounds)) => rounds.min(MAX_ROUNDS),
        _ => MAX_ROUNDS,
    }
}

// The most rounds, at least those that are known, that are counted to be too few, of fewer than those from which on nothing is told.
fn few_way(
    alloc: Global,
    problem: &Problem,
    input: &Problem,
    untold: u8,
    few: Shown,
    times: u8,
) -> Result<Shown, NoMemory>
    requires input { IsInput (unnamed problem.now) (unnamed input.now) }
    requires untold { untold ≤ 8 }
    requires few { IsKnownGiven times problem.now input.now (Claim.MoreThan few.rounds) few.way }
    ensures { IfOk result (λ shown. IsKnownGiven times problem.now input.now (Claim.MoreThan shown.rounds) shown.way) }
{
    let _times = times;
    let mut few = few;
    for most in 1..untold {
        let found = counted(alloc, problem, input, most)?;
        match told_way(problem, input, found, most, times) {
            Some(more) => few = more,
            None => return Ok(few),
        }
    }
    Ok(few)
}

/// The most rounds that are counted to be too few, where these are known to be, and this is what is counted up to `MAX_ROUNDS`.
pub(crate) fn most_way(
    alloc: Global,
    problem: &Problem,
    input: &Problem,
    found: Option<Counted>,
    few: Shown,
    times: u8,
) -> Result<Shown, NoMemory>
    requires input { IsInput (unnamed problem.now) (unnamed input.now) }
    requires found { IfSome found (IsCounted (unnamed problem.now) (Some (unnamed input.now)) 8) }
    requires few { IsKnownGiven times problem.now input.now (Claim.MoreThan few.rounds) few.way }
    ensures { IfOk result (λ shown. IsKnownGiven times problem.now input.now (Claim.MoreThan shown.rounds) shown.way) }
{
    match told_way(problem, input, found, MAX_ROUNDS, times) {
        Some(more) => Ok(more),
        None => few_way(alloc, problem, input, untold_from(found), few, times),
    }
}
