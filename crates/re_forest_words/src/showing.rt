//! What shows that a problem is greedy, behind derived problems and from either side.
ghost use Rattle.re_forest_words.specs.Showings.{IsFew, IsNextShowing, IsNone, IsPassiveShowing, IsShowing, ShownLaw};
ghost use Rattle.re_problem.specs.Derived.{derived};
ghost use Rattle.re_problem.specs.NamedProblems.{unnamed};
ghost use Rattle.re_problem.specs.Problems.{Problem as problem};
ghost use Rattle.std.specs.Prelude.{◌≤◌, ◌<◌, ℕ, IfOk};

use re_greedy::{Greediness, Partial, Work, find_greedy};
use re_inputs::exchanged;
use re_labels::{NoMemory, Side};
use re_problem::Problem;
use re_step::{StepFault, step};
use std::alloc::Global;

/// What shows that a problem is greedy.
#[derive(Drop)]
pub struct Shown {
    /// So many derived problems behind it stands the problem that is greedy.
    pub steps: u8,
    /// From the side of its active nodes, or of its passive ones.
    pub side: Side,
    /// That problem, with its sides exchanged where it is greedy from the side of the passive nodes.
    pub problem: Problem,
    /// The multisets with which it is.
    pub partial: Vec<Partial>,
}

/// Whether a problem is greedy behind derived problems, from one side or the other.
#[derive(Drop)]
pub enum Showing {
    /// It is, by this.
    Shown(Shown),
    /// It isn't.
    NotGreedy,
    /// The limits weren't enough.
    Unknown,
}

// How much is done for each side of a problem.
fn work() -> Work {
    Work {
        lists: 400,
        tries: 200_000,
    }
}

// That it isn't, where that is known.
fn none_if(known: bool) -> Showing
    ensures { IsNone known result }
{
    if known {
        Showing::NotGreedy
    } else {
        Showing::Unknown
    }
}

// Whether the problem is greedy from its passive nodes, where it isn't known to be from the active ones.
fn from_passive(alloc: Global, problem: &Problem, known: bool) -> Result<Showing, NoMemory>
    ensures { IfOk result (IsPassiveShowing (unnamed problem.now) known) }
{
    let problem = exchanged(alloc, problem)?;
    match find_greedy(alloc, &problem, &mut work())? {
        Greediness::Greedy(partial) => Ok(Showing::Shown(Shown {
            steps: 0,
            side: Side::Passive,
            problem,
            partial,
        })),
        Greediness::NotGreedy => Ok(none_if(known)),
        Greediness::Unknown => Ok(Showing::Unknown),
    }
}

// Whether the problem is greedy from one side or the other.
fn greedy_here(alloc: Global, problem: &Problem) -> Result<Showing, NoMemory>
    ensures { IfOk result (IsShowing (unnamed problem.now) 0) }
{
    match find_greedy(alloc, problem, &mut work())? {
        Greediness::Greedy(partial) => Ok(Showing::Shown(Shown {
            steps: 0,
            side: Side::Active,
            problem: problem.copy()?,
            partial,
        })),
        Greediness::NotGreedy => from_passive(alloc, problem, true),
        Greediness::Unknown => from_passive(alloc, problem, false),
    }
}

// One derived problem more, and what is known without it.
fn one_more(known: bool, behind: Showing) -> Showing
    requires { IsFew behind }
    ensures { (problem : problem) (more : ℕ) → IsShowing (derived problem) more behind → IsNextShowing problem more known result }
{
    match behind {
        Showing::Shown(shown) => Showing::Shown(Shown {
            steps: shown.steps + 1,
            side: shown.side,
            problem: shown.problem,
            partial: shown.partial,
        }),
        Showing::NotGreedy => none_if(known),
        Showing::Unknown => Showing::Unknown,
    }
}

// Whether the derived problem is, behind so many more.
#[cycle(behind)]
fn greedy_next(alloc: Global, problem: &Problem, more: u8, known: bool) -> Result<Showing, NoMemory>
    requires { more < 2 }
    ensures { IfOk result (IsNextShowing (unnamed problem.now) more known) }
{
    match step(alloc, problem) {
        Ok(derived) => Ok(one_more(known, greedy_behind(alloc, &derived.problem, more)?)),
        Err(StepFault::Limit(_)) => Ok(Showing::Unknown),
        Err(StepFault::NoMemory) => Err(NoMemory),
    }
}

/// Whether the problem is greedy behind at most so many derived problems, from one side or the other: what shows it first, or `NotGreedy` only where it
/// isn't; and `Unknown` where a derived problem passes a limit or `re_greedy::find_greedy` doesn't know. Where something shows it, the problem is solvable
/// given few colours, and takes at most the order of log* N rounds.
#[cycle(behind)]
pub fn greedy_behind(alloc: Global, problem: &Problem, most: u8) -> Result<Showing, NoMemory>
    requires { most ≤ 2 }
    ensures { IfOk result (IsShowing (unnamed problem.now) most) }
{
    let known = match greedy_here(alloc, problem)? {
        Showing::Shown(shown) => return Ok(Showing::Shown(shown)),
        Showing::NotGreedy => true,
        Showing::Unknown => false,
    };
    if most == 0 {
        return Ok(none_if(known));
    }
    greedy_next(alloc, problem, most - 1, known)
}

/// What shows it means that the problem is solvable given few colours, and takes at most the order of log* N rounds.
pub fn shown_law()
    ensures { ShownLaw }
{}
