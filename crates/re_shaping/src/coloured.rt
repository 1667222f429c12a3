//! A problem with the colours of its labels.
ghost use Rattle.re_problem.specs.NamedProblems.{IsNamedProblem};
ghost use Rattle.re_shaping.specs.Colours.{first_colours, mark_of};
ghost use Rattle.std.specs.Prelude.{◌≡◌};

use crate::colours::{Colours, first_colours};
use re_problem::Problem;
use std::marker::Model;

/// A problem, and the colours of its labels with their mark, which are found once. Contracts see it as the problem.
#[derive(Drop)]
pub struct Coloured {
    problem: Problem,
    colours: Colours,
    mark: u64,
}

impl Model for Coloured {
    ghost use Rattle.re_problem.specs.NamedProblems.{IsNamedProblem, NamedProblem};
    ghost use Rattle.re_shaping.specs.Colours.{first_colours, mark_of};
    ghost use Rattle.std.specs.Prelude.{◌≡◌};

    ghost Value = { NamedProblem };

    ghost view = { λ c. c.problem };

    ghost invariant = { λ c. (c.colours ≡ first_colours c.problem) × (c.mark ≡ mark_of c.colours) × IsNamedProblem c.problem };
}

impl Coloured {
    /// The problem with its colours. It costs a pass over all configurations for each time that the colours are refined.
    pub fn new(problem: Problem) -> Coloured
        ensures { result ≡ problem }
    {
        let colours = first_colours(&problem);
        let mark = colours.mark();
        Coloured {
            problem,
            colours,
            mark,
        }
    }

    /// The problem.
    pub fn problem(&self) -> &Problem
        ensures problem { result.now ≡ self.now }
        ensures named { IsNamedProblem self.now }
    {
        &self.problem
    }

    /// The colours.
    pub(crate) fn colours(&self) -> &Colours
        ensures { result.now ≡ first_colours self.now }
    {
        &self.colours
    }

    /// Their mark.
    pub(crate) fn mark(&self) -> u64
        ensures mark { result ≡ mark_of (first_colours self.now) }
        ensures named { IsNamedProblem self.now }
    {
        self.mark
    }
}
