//! What the searches find out of how many rounds a problem takes.
ghost use Rattle.re_given_words.specs.Counting.{MayTell};
ghost use Rattle.re_chains.specs.ChainTexts.{problem_chain};
ghost use Rattle.re_problem.specs.NamedProblems.{unnamed};
ghost use Rattle.re_problem.specs.Zero.{zero_place};
ghost use Rattle.re_settle.specs.Ways.{IsFixedPoint, IsFound, IsKnown, IsNever, IsUnclosed, IsUncounted, IsUnfixed};
ghost use Rattle.std.specs.Prelude.{◌≡◌, ◌≤◌, IfOk, IfSome, None};

use crate::bounds::{enough, long_way, longer, lower_way, short_way};
use crate::counting::{MAX_ROUNDS, counted, further_way, more_way, steps_of};
use crate::never::{far_way, gadget_way, soon_way};
use crate::types::{Settled, Shown, Way};
use re_chains::{LowerChain, problem_chain};
use re_evidence::Claim;
use re_given_words::Counted;
use re_labels::NoMemory;
use re_problem::{Problem, zero_round};
use std::alloc::Global;

// That no number of rounds is enough.
fn never(problem: &Problem, way: Way, times: u8) -> Settled
    requires { IsNever times problem.now way }
    ensures { IsFound times problem.now result }
{
    let _names = problem.names();
    let _times = times;
    Settled::Never(way)
}

// The same by a fixed point.
fn by_fixed_point(problem: &Problem, way: Way, times: u8) -> Settled
    requires { IsFixedPoint times problem.now way }
    ensures { IsFound times problem.now result }
{
    let _names = problem.names();
    let _times = times;
    Settled::Never(way)
}

// More than so many rounds, by steps without changes, and one more suffices.
fn by_steps(
    alloc: Global,
    problem: &Problem,
    steps: u8,
    times: u8,
) -> Result<Option<Settled>, NoMemory>
    requires steps { steps ≤ 8 }
    requires unfixed { IsUnfixed problem.now }
    ensures { IfOk result (λ found. IfSome found (IsFound times problem.now)) }
{
    let _names = problem.names();
    let Some(lower) = lower_way(alloc, problem, steps, times)? else {
        return Ok(None);
    };
    match enough(alloc, problem, steps + 1, times)? {
        Some(upper) => {
            if upper.rounds as usize == lower.rounds as usize + 1 {
                Ok(Some(Settled::Within(lower, Some(upper))))
            } else {
                Ok(None)
            }
        }
        None => Ok(None),
    }
}

// So many rounds, as they are counted: by certificates where these are found, and else by the count.
fn exact(alloc: Global, problem: &Problem, rounds: u8, times: u8) -> Result<Settled, NoMemory>
    requires counted { MayTell (unnamed problem.now) None 8 (Counted.Exactly rounds) }
    requires unfixed { IsUnfixed problem.now }
    ensures { IfOk result (IsFound times problem.now) }
{
    let _names = problem.names();
    let steps = steps_of(Counted::Exactly(rounds));
    match by_steps(alloc, problem, steps, times)? {
        Some(settled) => Ok(settled),
        None => Ok(Settled::Exactly(Shown {
            rounds,
            way: Way::Rounds(MAX_ROUNDS),
        })),
    }
}

// The bound below, or a longer one that is counted, where it is `MAX_ROUNDS` or more, and the bound above doesn't meet it.
fn further(
    alloc: Global,
    problem: &Problem,
    lower: Shown,
    upper: Option<Shown>,
    times: u8,
) -> Result<Shown, NoMemory>
    requires { IsKnown times problem.now (Claim.MoreThan lower.rounds) lower.way }
    ensures { IfOk result (λ shown. IsKnown times problem.now (Claim.MoreThan shown.rounds) shown.way) }
{
    if lower.rounds < MAX_ROUNDS {
        return Ok(lower);
    }
    if let Some(upper) = upper {
        if upper.rounds <= lower.rounds.saturating_add(1) {
            return Ok(lower);
        }
    }
    match further_way(alloc, problem, times)? {
        Some(shown) => {
            if lower.rounds < shown.rounds {
                Ok(shown)
            } else {
                Ok(lower)
            }
        }
        None => Ok(lower),
    }
}

// Two bounds.
fn bounded(
    alloc: Global,
    problem: &Problem,
    chain: &LowerChain,
    counted: Counted,
    times: u8,
) -> Result<Settled, NoMemory>
    requires chain { chain.now.certificate ≡ problem_chain problem.now }
    requires not_zero { zero_place (unnamed problem.now) ≡ None }
    requires counted { MayTell (unnamed problem.now) None 8 counted }
    requires uncounted { IsUncounted problem.now }
    requires unfixed { IsUnfixed problem.now }
    requires unclosed { IsUnclosed times 2 (problem_chain problem.now) }
    ensures { IfOk result (IsFound times problem.now) }
{
    let _names = problem.names();
    let more = more_way(problem, counted, times);
    let long = long_way(alloc, problem, chain, steps_of(counted), times)?;
    let lower = longer(problem, more, Some(long), times);
    let upper = short_way(alloc, problem, times)?;
    let best = further(alloc, problem, lower, upper, times)?;
    Ok(Settled::Within(best, upper))
}

// What is known where the closures that are tried show nothing.
fn unclosed(
    alloc: Global,
    problem: &Problem,
    chain: &LowerChain,
    counted: Counted,
    times: u8,
) -> Result<Settled, NoMemory>
    requires chain { chain.now.certificate ≡ problem_chain problem.now }
    requires not_zero { zero_place (unnamed problem.now) ≡ None }
    requires counted { MayTell (unnamed problem.now) None 8 counted }
    requires uncounted { IsUncounted problem.now }
    requires unfixed { IsUnfixed problem.now }
    requires unclosed { IsUnclosed times 2 (problem_chain problem.now) }
    ensures { IfOk result (IsFound times problem.now) }
{
    match gadget_way(alloc, problem, times)? {
        Some(way) => Ok(never(problem, way, times)),
        None => bounded(alloc, problem, chain, counted, times),
    }
}

// What is known beyond steps without changes.
fn searched(
    alloc: Global,
    problem: &Problem,
    chain: &LowerChain,
    counted: Counted,
    times: u8,
) -> Result<Settled, NoMemory>
    requires chain { chain.now.certificate ≡ problem_chain problem.now }
    requires not_zero { zero_place (unnamed problem.now) ≡ None }
    requires counted { MayTell (unnamed problem.now) None 8 counted }
    requires uncounted { IsUncounted problem.now }
    requires unfixed { IsUnfixed problem.now }
    requires times { times ≤ 64 }
    ensures { IfOk result (IsFound times problem.now) }
{
    match far_way(alloc, problem, chain, times)? {
        Some(way) => Ok(by_fixed_point(problem, way, times)),
        None => unclosed(alloc, problem, chain, counted, times),
    }
}

// What is known where nothing shows soon that no number of rounds is enough.
fn settled(
    alloc: Global,
    problem: &Problem,
    chain: &LowerChain,
    times: u8,
) -> Result<Settled, NoMemory>
    requires chain { chain.now.certificate ≡ problem_chain problem.now }
    requires not_zero { zero_place (unnamed problem.now) ≡ None }
    requires unfixed { IsUnfixed problem.now }
    requires times { times ≤ 64 }
    ensures { IfOk result (IsFound times problem.now) }
{
    let _names = problem.names();
    match counted(alloc, problem)? {
        Counted::Exactly(rounds) => exact(alloc, problem, rounds, times),
        other => searched(alloc, problem, chain, other, times),
    }
}

/// What the searches find out of how many rounds a problem takes, where their bounds are taken so many times.
pub(crate) fn search(alloc: Global, problem: &Problem, times: u8) -> Result<Settled, NoMemory>
    requires { times ≤ 64 }
    ensures { IfOk result (IsFound times problem.now) }
{
    let _names = problem.names();
    if let Some(_place) = zero_round(problem) {
        return Ok(Settled::Exactly(Shown {
            rounds: 0,
            way: Way::Zero,
        }));
    }
    let chain = problem_chain(alloc, problem.copy()?);
    match soon_way(alloc, problem, &chain, times)? {
        Some(way) => Ok(never(problem, way, times)),
        None => settled(alloc, problem, &chain, times),
    }
}
