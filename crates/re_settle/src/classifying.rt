//! What is known of a problem: what its levels of labels tell, before any search and behind them.
ghost use Rattle.re_flexible.specs.Lengths.{IsFlexibility};
ghost use Rattle.re_forest_words.specs.Showings.{IsShown as IsGreedyShown};
ghost use Rattle.re_problem.specs.NamedProblems.{unnamed};
ghost use Rattle.re_evidence.specs.OnForests.{most_of};
ghost use Rattle.re_settle.specs.Levels.{length_of};
ghost use Rattle.re_settle.specs.Ways.{IsFixedPoint, IsFound, IsFoundFurther, IsSettled};
ghost use Rattle.std.specs.Prelude.{◌≡◌, ◌≤◌, IfOk, IfSome, IsSome, None};

use crate::coloured::{late_coloured, soon_coloured};
use crate::lines::least_of;
use crate::never::far_way;
use crate::settling::search;
use crate::types::{Classified, Further, Settled, Shown, Way};
use re_chains::problem_chain;
use re_evidence::{Least, Most, most_of};
use re_flexible::{Flexibility, flexibility_of};
use re_forest_words::{Showing, Shown as GreedyShown, greedy_behind, shown_law};
use re_gap::{above_log_on_views_law, not_flexible_law};
use re_labels::{LabelSet, NoMemory};
use re_problem::Problem;
use std::alloc::Global;

// The number of levels, where the literature tells the number of rounds by it.
fn length_of(problem: &Problem, count: u8) -> Option<u8>
    ensures { result ≡ length_of (unnamed problem.now) (Flexibility.Length count) }
{
    let active = problem.active().degree();
    let passive = problem.passive().degree();
    if 2 <= count && (active == 2 || passive == 2) {
        Some(count)
    } else {
        None
    }
}

// What is known where trimming leaves no label.
fn unsolvable(problem: &Problem, times: u8) -> Classified
    requires { IsFlexibility (unnamed problem.now) Flexibility.NoSolution }
    ensures { IsSettled times problem.now result }
{
    let _names = problem.names();
    let _times = times;
    Classified {
        settled: Settled::Unsolvable,
        further: Further::Nothing,
        above: None,
        length: None,
    }
}

// What is known where no set of labels is flexible, and there are so many levels.
fn levelled(problem: &Problem, count: u8, times: u8) -> Classified
    requires { IsFlexibility (unnamed problem.now) (Flexibility.Length count) }
    ensures { IsSettled times problem.now result }
{
    let _names = problem.names();
    let _times = times;
    not_flexible_law();
    above_log_on_views_law();
    let length = length_of(problem, count);
    if count == 1 {
        Classified {
            settled: Settled::Never(Way::Flexible),
            further: Further::Linear,
            above: None,
            length,
        }
    } else {
        Classified {
            settled: Settled::Never(Way::Flexible),
            further: Further::Nothing,
            above: None,
            length,
        }
    }
}

// A fixed point of what these words show to be solved by no number of rounds: graphs of more than 4 nodes come behind all that is tried here.
fn later_way(alloc: Global, problem: &Problem, way: Way, times: u8) -> Result<Option<Way>, NoMemory>
    requires { times ≤ 64 }
    ensures { IfOk result (λ found. IfSome found (IsFixedPoint times problem.now)) }
{
    match way {
        Way::Cover(4) => {
            let chain = problem_chain(alloc, problem.copy()?);
            far_way(alloc, problem, &chain, times)
        }
        _ => Ok(None),
    }
}

// What is found of the class of a problem that is solved by no number of rounds, as these words show, besides what they show of it.
fn excluded(alloc: Global, problem: &Problem, way: Way, times: u8) -> Result<Further, NoMemory>
    requires found { IsFound times problem.now (Settled.Never way) }
    requires times { times ≤ 64 }
    ensures { IfOk result (IsFoundFurther times problem.now (Settled.Never way)) }
{
    let _names = problem.names();
    if let Some(coloured) = soon_coloured(alloc, problem, times)? {
        return Ok(Further::FewColours(coloured));
    }
    if let Some(later) = later_way(alloc, problem, way, times)? {
        return Ok(Further::FixedPoint(later));
    }
    match late_coloured(alloc, problem, times)? {
        Some(coloured) => Ok(Further::FewColours(coloured)),
        None => Ok(Further::Nothing),
    }
}

// What shows that the problem, or one of the two derived ones behind it, is greedy, if anything is found.
fn greedy_way(alloc: Global, problem: &Problem) -> Result<Option<GreedyShown>, NoMemory>
    ensures { IfOk result (λ found. IfSome found (IsGreedyShown (unnamed problem.now) 2)) }
{
    match greedy_behind(alloc, problem, 2)? {
        Showing::Shown(shown) => Ok(Some(shown)),
        Showing::NotGreedy | Showing::Unknown => Ok(None),
    }
}

// The same, where it is looked first whether the problem is greedy.
fn beside_graph(alloc: Global, problem: &Problem, way: Way, times: u8) -> Result<Further, NoMemory>
    requires found { IsFound times problem.now (Settled.Never way) }
    requires times { times ≤ 64 }
    ensures { IfOk result (IsFoundFurther times problem.now (Settled.Never way)) }
{
    let _names = problem.names();
    shown_law();
    match greedy_way(alloc, problem)? {
        Some(shown) => {
            let _steps = shown.steps;
            Ok(Further::Greedy)
        }
        None => excluded(alloc, problem, way, times),
    }
}

// What is found of the class of a problem of which so many rounds are known to be too few, and no number to be enough, besides what shows this: it is
// looked whether the problem is greedy.
fn beside_bound(
    alloc: Global,
    problem: &Problem,
    more: Shown,
    times: u8,
) -> Result<Further, NoMemory>
    requires found { IsFound times problem.now (Settled.Within more None) }
    ensures { IfOk result (IsFoundFurther times problem.now (Settled.Within more None)) }
{
    let _names = problem.names();
    let _rounds = more.rounds;
    let _times = times;
    shown_law();
    match greedy_way(alloc, problem)? {
        Some(shown) => {
            let _steps = shown.steps;
            Ok(Further::Greedy)
        }
        None => Ok(Further::Nothing),
    }
}

// What is found of the class of a problem with a flexible set, besides what shows so much of it.
fn beside(
    alloc: Global,
    problem: &Problem,
    settled: Settled,
    times: u8,
) -> Result<Further, NoMemory>
    requires found { IsFound times problem.now settled }
    requires times { times ≤ 64 }
    ensures { IfOk result (IsFoundFurther times problem.now settled) }
{
    match settled {
        Settled::Never(way) => beside_graph(alloc, problem, way, times),
        Settled::Within(more, None) => beside_bound(alloc, problem, more, times),
        _ => Ok(Further::Nothing),
    }
}

// Whether so much leaves a question of the class, where a flexible set shows this.
fn is_open(settled: Settled, most: Most) -> bool {
    match settled {
        Settled::Never(way) => least_of(way) == Least::LogStar && most == Most::Log,
        Settled::Within(_, None) => most == Most::Log,
        _ => false,
    }
}

// What is claimed where a set of labels is flexible.
fn flexible(
    alloc: Global,
    problem: &Problem,
    set: LabelSet,
    times: u8,
) -> Result<Classified, NoMemory>
    requires flexibility { IsFlexibility (unnamed problem.now) (Flexibility.Flexible set) }
    requires times { times ≤ 64 }
    ensures { IfOk result (IsSettled times problem.now) }
{
    let _names = problem.names();
    let _set = set;
    let most = most_of(problem);
    let settled = search(alloc, problem, times)?;
    Ok(Classified {
        settled,
        further: Further::Nothing,
        above: Some(most),
        length: None,
    })
}

/// What is claimed of how many rounds the problem takes, and so much of its class: what its levels of labels tell, and else what the searches of
/// this crate find out.
pub(crate) fn claim(alloc: Global, problem: &Problem, times: u8) -> Result<Classified, NoMemory>
    requires { times ≤ 64 }
    ensures { IfOk result (IsSettled times problem.now) }
{
    match flexibility_of(problem) {
        Flexibility::NoSolution => Ok(unsolvable(problem, times)),
        Flexibility::Length(count) => Ok(levelled(problem, count, times)),
        Flexibility::Flexible(set) => flexible(alloc, problem, set, times),
    }
}

// The same with what is found of the class of a problem with a flexible set.
fn with_further(
    alloc: Global,
    problem: &Problem,
    claimed: Classified,
    times: u8,
) -> Result<Classified, NoMemory>
    requires known { IsSettled times problem.now claimed }
    requires above { IsSome claimed.above }
    requires times { times ≤ 64 }
    ensures settled { IfOk result (IsSettled times problem.now) }
    ensures same { IfOk result (λ classified. classified.settled ≡ claimed.settled) }
{
    let _names = problem.names();
    let further = beside(alloc, problem, claimed.settled, times)?;
    Ok(Classified {
        settled: claimed.settled,
        further,
        above: claimed.above,
        length: claimed.length,
    })
}

/// The same with what is found of the class besides, where a question of it is left: on paths a flexible set tells it.
pub(crate) fn classify(
    alloc: Global,
    problem: &Problem,
    claimed: Classified,
    times: u8,
) -> Result<Classified, NoMemory>
    requires known { IsSettled times problem.now claimed }
    requires times { times ≤ 64 }
    ensures settled { IfOk result (IsSettled times problem.now) }
    ensures same { IfOk result (λ classified. classified.settled ≡ claimed.settled) }
{
    let Some(most) = claimed.above else {
        return Ok(claimed);
    };
    if is_open(claimed.settled, most) {
        with_further(alloc, problem, claimed, times)
    } else {
        Ok(claimed)
    }
}

/// What is known of how many rounds the problem takes: what its levels of labels tell, and else what the searches of this crate find out, where
/// their bounds are taken so many times. It is true, also on finite forests, and the words that are named show it, each certificate with a text
/// that is read; where they find less, nothing more is known. The crate's page says what is tried in which order; the cost is that of these
/// searches.
pub fn settle(alloc: Global, problem: &Problem, times: u8) -> Result<Classified, NoMemory>
    requires { times ≤ 64 }
    ensures { IfOk result (IsSettled times problem.now) }
{
    let claimed = claim(alloc, problem, times)?;
    classify(alloc, problem, claimed, times)
}
