//! What is given: where a path ends.
ghost use Rattle.re_given.specs.Inputs.{IsInput};
ghost use Rattle.re_problem.specs.NamedProblems.{unnamed};

use re_inputs::exchanged;
use re_labels::{LabelSet, NoMemory};
use re_problem::Problem;
use re_settings::{FEW_TRIES, FitFault, Setting, find_fit, input_fault};
use std::alloc::Global;

/// What is told of a problem that isn't solvable without communication.
#[derive(Drop)]
pub(crate) enum Told {
    /// It is solvable in 0 rounds, by a set of its labels for each input label.
    Solvable(Vec<LabelSet>),
    /// It isn't.
    Unsolvable,
    /// The tries don't suffice to tell.
    Unknown,
}

// An input problem of the problems behind an even number of steps, and the same with its sides exchanged, of those behind an odd number.
#[derive(Drop)]
struct Inputs {
    even: Problem,
    odd: Problem,
}

/// What is given behind a search's first problem: nothing, or a solution of an input problem.
#[derive(Drop)]
pub(crate) struct Given {
    inputs: Option<Inputs>,
}

// What is told of the problem given the input problem.
fn told_by(alloc: Global, problem: &Problem, input: &Problem) -> Result<Told, NoMemory>
    requires { IsInput (unnamed problem.now) (unnamed input.now) }
{
    match find_fit(alloc, problem, input, FEW_TRIES) {
        Ok(Some(sets)) => Ok(Told::Solvable(sets)),
        Ok(None) => Ok(Told::Unsolvable),
        Err(FitFault::TooManyTries) => Ok(Told::Unknown),
        Err(FitFault::NoMemory) => Err(NoMemory),
    }
}

// The same where it may be no input problem.
fn told_if(alloc: Global, problem: &Problem, input: &Problem) -> Result<Told, NoMemory> {
    match input_fault(problem, input) {
        Some(_) => Ok(Told::Unknown),
        None => told_by(alloc, problem, input),
    }
}

impl Given {
    /// Nothing.
    pub(crate) fn nothing() -> Given {
        Given { inputs: None }
    }

    /// Whether it is nothing.
    pub(crate) fn is_nothing(&self) -> bool {
        self.inputs.is_none()
    }

    /// What is given in a setting of a chain's first problem, for a search behind so many steps. What is solvable with it is told by at most
    /// `FEW_TRIES` tries for each problem.
    pub(crate) fn behind(
        alloc: Global,
        setting: &Setting,
        steps: usize,
    ) -> Result<Given, NoMemory> {
        let Setting::Given(input) = setting else {
            return Ok(Given { inputs: None });
        };
        let even = input.copy()?;
        let odd = exchanged(alloc, input)?;
        let inputs = if steps % 2 == 0 {
            Inputs { even, odd }
        } else {
            Inputs {
                even: odd,
                odd: even,
            }
        };
        Ok(Given {
            inputs: Some(inputs),
        })
    }

    /// What is told of the problem behind so many steps of the search, which isn't solvable without communication.
    pub(crate) fn told(
        &self,
        alloc: Global,
        problem: &Problem,
        steps: usize,
    ) -> Result<Told, NoMemory> {
        let Some(inputs) = &self.inputs else {
            return Ok(Told::Unsolvable);
        };
        if steps % 2 == 0 {
            told_if(alloc, problem, &inputs.even)
        } else {
            told_if(alloc, problem, &inputs.odd)
        }
    }

    /// Whether it is told not to be solvable.
    pub(crate) fn is_open(
        &self,
        alloc: Global,
        problem: &Problem,
        steps: usize,
    ) -> Result<bool, NoMemory> {
        Ok(matches!(self.told(alloc, problem, steps)?, Told::Unsolvable))
    }
}
