//! What few tries tell of the problems on the way of a search.
ghost use Rattle.re_settings.specs.Fits.{fit_walk};
ghost use Rattle.re_given.specs.Inputs.{IsInput, exchanged_by};
ghost use Rattle.re_settings.specs.Taken.{HasDegrees, Tells};
ghost use Rattle.re_problem.specs.NamedProblems.{unnamed};
ghost use Rattle.re_walks.specs.Walking.{cut};
ghost use Rattle.std.specs.Prelude.{◌≡◌, ◌↔◌, IfOk, IsTrue};

use crate::{FitFault, find_fit_after, input_fault};
use re_labels::NoMemory;
use re_problem::Problem;
use std::alloc::Global;

/// The most tries for a problem on the way of a search.
pub const FEW_TRIES: u32 = 10_000;

/// What is told of a problem where a solution of an input problem is given.
#[derive(Clone, Copy, Debug, PartialEq, Eq)]
pub enum Ends {
    /// It is solvable in 0 rounds.
    Solvable,
    /// It isn't.
    Unsolvable,
    /// The tries don't suffice to tell, or the other problem is no input problem of it.
    Unknown,
}

// Whether these are the degrees of the problem.
fn are_degrees(problem: &Problem, active: u8, passive: u8) -> bool
    ensures { IsTrue result ↔ ((active ≡ problem.now.active.degree) × (passive ≡ problem.now.passive.degree)) }
{
    active == problem.active().degree() && passive == problem.passive().degree()
}

// Whether the other problem, exchanged as often as there are steps, has the degrees of the problem.
fn has_degrees(problem: &Problem, input: &Problem, steps: u8) -> bool
    ensures { IsTrue result ↔ HasDegrees (unnamed problem.now) (exchanged_by steps (unnamed input.now)) }
{
    if steps % 2 == 0 {
        are_degrees(problem, input.active().degree(), input.passive().degree())
    } else {
        are_degrees(problem, input.passive().degree(), input.active().degree())
    }
}

// Whether the other problem, exchanged as often as there are steps, is an input problem of the problem.
fn is_input_after(problem: &Problem, input: &Problem, steps: u8) -> bool
    ensures { IsTrue result ↔ IsInput (unnamed problem.now) (exchanged_by steps (unnamed input.now)) }
{
    has_degrees(problem, input, steps) && input_fault(input, input).is_none()
}

/// Whether the problem is solvable in 0 rounds given the input problem, exchanged as often as there are steps to it, as `find_fit_after` of
/// `re_settings` tells with `FEW_TRIES` tries.
pub fn ends_after(
    alloc: Global,
    problem: &Problem,
    input: &Problem,
    steps: u8,
) -> Result<Ends, NoMemory>
    ensures tells { IfOk result (Tells (unnamed problem.now) (exchanged_by steps (unnamed input.now))) }
    ensures unknown { IfOk result (λ told. told ≡ Ends.Unknown → IsInput (unnamed problem.now) (exchanged_by steps (unnamed input.now)) →
        fit_walk (unnamed problem.now) (exchanged_by steps (unnamed input.now)) FEW_TRIES ≡ cut) }
{
    if !is_input_after(problem, input, steps) {
        return Ok(Ends::Unknown);
    }
    match find_fit_after(alloc, problem, input, steps, FEW_TRIES) {
        Ok(Some(_)) => Ok(Ends::Solvable),
        Ok(None) => Ok(Ends::Unsolvable),
        Err(FitFault::TooManyTries) => Ok(Ends::Unknown),
        Err(FitFault::NoMemory) => Err(NoMemory),
    }
}
