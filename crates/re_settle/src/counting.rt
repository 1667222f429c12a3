//! What `rounds` counts.
ghost use Rattle.re_given_words.specs.Counting.{MayTell};
ghost use Rattle.re_problem.specs.NamedProblems.{unnamed};
ghost use Rattle.re_settle.specs.Ways.{IsKnown, SaysCounted, few_of};
ghost use Rattle.std.specs.Prelude.{◌≡◌, ◌≤◌, ◌⊎◌, IfOk, IfSome, None};

use crate::types::{Shown, Way};
use re_evidence::Claim;
use re_given_words::{Counted, MAX_AHEAD, RoundsTexts, count};
use re_labels::NoMemory;
use re_problem::Problem;
use std::alloc::Global;

/// Up to how many rounds are counted by steps.
pub const MAX_ROUNDS: u8 = 8;

/// Up to how many rounds are counted where two bounds are left.
pub const MORE_ROUNDS: u8 = 9;

// How many rounds the problem takes, up to so many, where problems before a step that passes a limit tell of so many rounds more.
fn counted_to(alloc: Global, problem: &Problem, most: u8, ahead: u8) -> Result<Counted, NoMemory>
    requires { most ≤ 9 }
    ensures { IfOk result (MayTell (unnamed problem.now) None most) }
{
    let texts = RoundsTexts {
        problem: problem.copy()?,
        input: None,
    };
    count(alloc, &texts, most, ahead)
}

/// How many rounds the problem takes, up to `MAX_ROUNDS`, as far as steps go and the problems before a step that passes a limit tell.
pub(crate) fn counted(alloc: Global, problem: &Problem) -> Result<Counted, NoMemory>
    ensures { IfOk result (MayTell (unnamed problem.now) None 8) }
{
    counted_to(alloc, problem, MAX_ROUNDS, 2)
}

/// How many steps lead to problems that aren't solvable without communication, as far as steps go. Nothing rests on it.
pub(crate) fn steps_of(counted: Counted) -> u8
    ensures { result ≤ 8 }
{
    let steps = match counted {
        Counted::Exactly(rounds) => rounds.saturating_sub(1),
        Counted::MoreThan(rounds) | Counted::Passed(rounds, _) | Counted::Tried(rounds) => rounds,
        Counted::Stopped(_, steps, _) => steps,
    };
    steps.min(MAX_ROUNDS)
}

/// The rounds that are told to be too few, where more may be.
pub fn few_of(counted: Counted) -> Option<u8>
    ensures few { result ≡ few_of counted }
    ensures says { IfSome result (λ rounds. SaysCounted counted (Claim.MoreThan rounds)) }
{
    match counted {
        Counted::MoreThan(rounds) => Some(rounds),
        Counted::Passed(rounds, _) => Some(rounds),
        Counted::Stopped(rounds, _, _) => Some(rounds),
        Counted::Exactly(_) | Counted::Tried(_) => None,
    }
}

// More than so many rounds, where that is what is counted up to the most.
fn few_way(problem: &Problem, counted: Counted, most: u8, times: u8) -> Option<Shown>
    requires most { most ≡ 8 ⊎ most ≡ 9 }
    requires counted { MayTell (unnamed problem.now) None most counted }
    ensures { IfSome result (λ shown. IsKnown times problem.now (Claim.MoreThan shown.rounds) shown.way) }
{
    let _names = problem.names();
    let _times = times;
    let rounds = few_of(counted)?;
    Some(Shown {
        rounds,
        way: Way::Rounds(most),
    })
}

/// More than so many rounds, where that is counted.
pub(crate) fn more_way(problem: &Problem, counted: Counted, times: u8) -> Option<Shown>
    requires { MayTell (unnamed problem.now) None 8 counted }
    ensures { IfSome result (λ shown. IsKnown times problem.now (Claim.MoreThan shown.rounds) shown.way) }
{
    few_way(problem, counted, MAX_ROUNDS, times)
}

/// The same up to `MORE_ROUNDS`, where problems before a step that passes a limit tell of three rounds more.
pub(crate) fn further_way(
    alloc: Global,
    problem: &Problem,
    times: u8,
) -> Result<Option<Shown>, NoMemory>
    ensures { IfOk result (λ found. IfSome found (λ shown. IsKnown times problem.now (Claim.MoreThan shown.rounds) shown.way)) }
{
    let counted = counted_to(alloc, problem, MORE_ROUNDS, MAX_AHEAD)?;
    Ok(few_way(problem, counted, MORE_ROUNDS, times))
}
