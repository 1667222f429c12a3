//! The derived problems of the problems that were derived last.
ghost use Rattle.re_problem.specs.NamedProblems.{unnamed};
ghost use Rattle.re_search.specs.Derivations.{IsFound};
ghost use Rattle.re_step.specs.Derivations.{derivation, step_limit};
ghost use Rattle.re_step.specs.declared.derivation.StepLimit.{StepLimit};
ghost use Rattle.std.specs.Prelude.{◌≡◌, Err, IfOk, IfSome, IsTrue, None, Some};

use crate::steps::copied;
use re_labels::{Constraint, LabelSet, NoMemory};
use re_problem::Problem;
use re_step::{Derived, StepFault, StepLimit, step};
use std::alloc::Global;
use std::marker::Model;

/// How many problems are kept with what was found of them.
const MAX_KEPT: usize = 16;

/// What the derivation of a problem comes to.
#[derive(Drop)]
pub(crate) enum Found {
    /// The derived problem.
    Derived(Derived),
    /// The limit that it passes.
    Limit(StepLimit),
}

/// A problem, with what its derivation comes to. Contracts see the problem.
#[derive(Drop)]
pub(crate) struct Derivation {
    problem: Problem,
    found: Found,
}

impl Model for Derivation {
    ghost use Rattle.re_problem.specs.NamedProblems.{unnamed};
    ghost use Rattle.re_problem.specs.Problems.{Problem as Unnamed};
    ghost use Rattle.re_search.specs.Derivations.{IsFound};

    ghost Value = { Unnamed };

    ghost view = { λ d. unnamed d.problem };

    ghost invariant = { λ d. IsFound (unnamed d.problem) d.found };
}

// Whether the constraints are equal.
fn is_same(constraint: &Constraint, other: &Constraint) -> bool
    ensures { IsTrue result → constraint.now ≡ other.now }
{
    if constraint.degree() != other.degree() {
        return false;
    }
    if constraint.len() != other.len() {
        return false;
    }
    for place in 0..constraint.len() {
        let Some(config) = constraint.get(place) else {
            unreachable!();
        };
        let Some(others) = other.get(place) else {
            unreachable!();
        };
        if config != others {
            return false;
        }
    }
    true
}

// The same sets.
fn copied_sets(alloc: Global, sets: &[LabelSet]) -> Result<Vec<LabelSet>, NoMemory>
    ensures { IfOk result (λ copied. copied.items ≡ sets.now) }
{
    let mut copied = Vec::new(alloc);
    for set in sets {
        copied.push(*set)?;
    }
    Ok(copied)
}

// The same derived problem in memory of its own.
fn copy_of(alloc: Global, derived: &Derived) -> Result<Derived, NoMemory>
    ensures { IfOk result (λ copied. copied ≡ derived.now) }
{
    let problem = derived.problem.copy()?;
    let sets = copied_sets(alloc, derived.sets.as_slice())?;
    let rows = copied(alloc, derived.rows.as_slice())?;
    Ok(Derived {
        problem,
        sets,
        rows,
    })
}

// What the derivation of the problem comes to.
fn found_of(alloc: Global, problem: &Problem) -> Result<Found, NoMemory>
    ensures { IfOk result (IsFound (unnamed problem.now)) }
{
    match step(alloc, problem) {
        Ok(derived) => Ok(Found::Derived(derived)),
        Err(StepFault::Limit(limit)) => Ok(Found::Limit(limit)),
        Err(StepFault::NoMemory) => Err(NoMemory),
    }
}

impl Derivation {
    // Whether this is the derivation of the problem, whatever its labels are named.
    fn is_of(&self, problem: &Problem) -> bool
        ensures { IsTrue result → self.now ≡ unnamed problem.now }
    {
        self.problem.names().len() == problem.names().len()
            && is_same(self.problem.active(), problem.active())
            && is_same(self.problem.passive(), problem.passive())
    }

    // What `step` answers.
    fn answer(&self, alloc: Global) -> Result<Derived, StepFault>
        ensures derived { IfOk result (λ derived. derived ≡ derivation self.now) }
        ensures none { IfOk result (λ _. step_limit self.now ≡ None) }
        ensures limit { (limit : StepLimit) → result ≡ Err (StepFault.Limit limit) → step_limit self.now ≡ Some limit }
    {
        match &self.found {
            Found::Derived(derived) => match copy_of(alloc, derived) {
                Ok(copy) => Ok(copy),
                Err(NoMemory) => Err(StepFault::NoMemory),
            },
            Found::Limit(limit) => Err(StepFault::Limit(*limit)),
        }
    }
}

/// The derivations of the last problems that were derived.
#[derive(Drop)]
pub(crate) struct Derivations {
    alloc: Global,
    kept: Vec<Derivation>,
    next: usize,
}

impl Derivations {
    /// None yet.
    pub(crate) fn new(alloc: Global) -> Derivations {
        Derivations {
            alloc,
            kept: Vec::new(alloc),
            next: 0,
        }
    }

    // The derivation of the problem, if it is kept.
    fn known(&self, problem: &Problem) -> Option<&Derivation>
        ensures { IfSome result (λ known. known.now ≡ unnamed problem.now) }
    {
        for derivation in self.kept.as_slice() {
            if derivation.is_of(problem) {
                return Some(derivation);
            }
        }
        None
    }

    // Keeps one derivation more, in place of the oldest one where there are many.
    fn keep(&mut self, derivation: Derivation) -> Result<(), NoMemory> {
        if self.kept.as_slice().len() < MAX_KEPT {
            self.kept.push(derivation)?;
            return Ok(());
        }
        if self.next >= self.kept.as_slice().len() {
            self.next = 0;
        }
        if self.next < self.kept.as_slice().len() {
            self.kept[self.next] = derivation;
            self.next += 1;
        }
        Ok(())
    }

    /// The derived problem, as `re_step::step` answers it. That of a problem that was derived lately is copied and not computed again.
    pub(crate) fn derive(&mut self, problem: &Problem) -> Result<Derived, StepFault>
        ensures derived { IfOk result (λ derived. derived ≡ derivation (unnamed problem.now)) }
        ensures none { IfOk result (λ _. step_limit (unnamed problem.now) ≡ None) }
        ensures limit { (limit : StepLimit) → result ≡ Err (StepFault.Limit limit) → step_limit (unnamed problem.now) ≡ Some limit }
    {
        if let Some(known) = self.known(problem) {
            return known.answer(self.alloc);
        }
        let found = found_of(self.alloc, problem)?;
        let derivation = Derivation {
            problem: problem.copy()?,
            found,
        };
        let answer = derivation.answer(self.alloc);
        self.keep(derivation)?;
        answer
    }
}
