//! The verdict on a bound given an input problem.
ghost use Rattle.re_cert.specs.Bounds.{problem_at};
ghost use Rattle.re_chains.specs.OverChains.{or_refusal, steps_refusal};
ghost use Rattle.re_check.specs.Verdicts.{meets_back};
ghost use Rattle.re_given.specs.Given.{ZeroGiven};
ghost use Rattle.re_given.specs.Inputs.{IsInput};
ghost use Rattle.re_settings.specs.Verdicts.{HasCause, end_number, end_outcome, fixed_at, given_outcome, is_nowhere, kept_steps, lower_with, or_back, rendered, upper_with};
ghost use Rattle.re_settings.specs.Walks.{input_at, walk_at};
ghost use Rattle.re_settings.specs.declared.bound_words.BoundWord.TheVariants.{Given};
ghost use Rattle.re_problem.specs.NamedProblems.{unnamed};
ghost use Rattle.std.specs.Prelude.{◌≡◌, ◌≤◌, IfOk, None, length};

use crate::fitting::{FitAnswer, fit_at};
use crate::{InputFault, input_fault};
use re_cert::{Certificate, Kind};
use re_chains::{over_problems, steps_refusal};
use re_check::{Verdict, check};
use re_labels::{LabelSet, NoMemory};
use re_problem::Problem;
use std::alloc::Global;

/// The verdict on a bound given an input problem of its first problem.
#[derive(Drop)]
pub enum GivenVerdict {
    /// The bound holds given the input problem.
    Accepted,
    /// The other problem is no input problem of the bound's first one, for this reason.
    NoInput(InputFault),
    /// A step fails: what `check` says of the first that does.
    Fails(Verdict),
    /// END fails: a problem that is not to be solvable in 0 rounds is.
    Solvable {
        /// The steps that lead to it.
        number: u8,
        /// The sets of its labels that solve it, one for each input label.
        sets: Vec<LabelSet>,
        /// The most steps of a lower bound, fewer than all, that the walks show to hold.
        holds: Option<u8>,
    },
    /// END fails: the last problem of an upper bound isn't solvable in 0 rounds.
    Unsolvable,
    /// BACK fails.
    NotBack,
    /// The tries don't suffice to tell.
    TooManyTries,
}

// Whether the walk shows that the problem behind so many steps has no sets.
fn is_shown(
    alloc: Global,
    bound: &Certificate,
    input: &Problem,
    number: u8,
) -> Result<bool, NoMemory>
    requires few { number ≤ length bound.now.steps }
    requires sound { steps_refusal bound.now ≡ None }
    requires input { IsInput (unnamed bound.now.first) (unnamed input.now) }
    ensures { IfOk result (λ shown. shown ≡ is_nowhere (walk_at input.now bound.now number)) }
{
    match fit_at(alloc, bound, input, number)? {
        FitAnswer::Sets(_) => Ok(false),
        FitAnswer::Missing => Ok(true),
        FitAnswer::TooMany => Ok(false),
    }
}

// The most steps, fewer than so many, that the walk shows to hold.
fn kept_steps(
    alloc: Global,
    bound: &Certificate,
    input: &Problem,
    number: u8,
) -> Result<Option<u8>, NoMemory>
    requires few { number ≤ length bound.now.steps }
    requires sound { steps_refusal bound.now ≡ None }
    requires input { IsInput (unnamed bound.now.first) (unnamed input.now) }
    ensures { IfOk result (λ kept. kept ≡ kept_steps input.now bound.now number) }
{
    if number == 0 {
        return Ok(None);
    }
    let shown = is_shown(alloc, bound, input, number - 1)?;
    if shown {
        return Ok(Some(number - 1));
    }
    kept_steps(alloc, bound, input, number - 1)
}

// The verdict on a lower bound.
fn lower_verdict(
    alloc: Global,
    bound: &Certificate,
    input: &Problem,
) -> Result<GivenVerdict, NoMemory>
    requires sound { steps_refusal bound.now ≡ None }
    requires input { IsInput (unnamed bound.now.first) (unnamed input.now) }
    ensures outcome { IfOk result (λ verdict. rendered input.now bound.now verdict ≡ lower_with input.now bound.now (walk_at input.now bound.now (length bound.now.steps))) }
    ensures cause { IfOk result (HasCause input.now bound.now) }
{
    let number = bound.steps().len() as u8;
    match fit_at(alloc, bound, input, number)? {
        FitAnswer::Sets(sets) => {
            let holds = kept_steps(alloc, bound, input, number)?;
            Ok(GivenVerdict::Solvable {
                number,
                sets,
                holds,
            })
        }
        FitAnswer::Missing => Ok(GivenVerdict::Accepted),
        FitAnswer::TooMany => Ok(GivenVerdict::TooManyTries),
    }
}

// The verdict on an upper bound.
fn upper_verdict(
    alloc: Global,
    bound: &Certificate,
    input: &Problem,
) -> Result<GivenVerdict, NoMemory>
    requires sound { steps_refusal bound.now ≡ None }
    requires input { IsInput (unnamed bound.now.first) (unnamed input.now) }
    ensures outcome { IfOk result (λ verdict. rendered input.now bound.now verdict ≡ upper_with bound.now (walk_at input.now bound.now (length bound.now.steps))) }
    ensures cause { IfOk result (HasCause input.now bound.now) }
{
    let number = bound.steps().len() as u8;
    match fit_at(alloc, bound, input, number)? {
        FitAnswer::Sets(_) => Ok(GivenVerdict::Accepted),
        FitAnswer::Missing => Ok(GivenVerdict::Unsolvable),
        FitAnswer::TooMany => Ok(GivenVerdict::TooManyTries),
    }
}

// The verdict on a fixed point that ends well: where `check` refuses it, it is for BACK.
fn back_verdict(bound: &Certificate, input: &Problem, number: u8) -> GivenVerdict
    requires kind { bound.now.kind ≡ Kind.Fixed }
    requires back { bound.now.back ≤ number }
    requires few { number ≤ length bound.now.steps }
    requires sound { steps_refusal bound.now ≡ None }
    requires input { IsInput (unnamed bound.now.first) (unnamed input.now) }
    requires ends { ZeroGiven (unnamed (problem_at bound.now number)) (input_at input.now number) → ⊥ }
    ensures outcome { rendered input.now bound.now result ≡ or_back (meets_back bound.now) bound.now }
    ensures cause { HasCause input.now bound.now result }
{
    over_problems(bound);
    let _kind = bound.kind();
    match check(bound) {
        Verdict::Accepted { .. } => GivenVerdict::Accepted,
        Verdict::Refused { .. } => GivenVerdict::NotBack,
    }
}

// The verdict on a fixed point of which END is judged from this problem down.
fn fixed_verdict(
    alloc: Global,
    bound: &Certificate,
    input: &Problem,
    number: u8,
) -> Result<GivenVerdict, NoMemory>
    requires kind { bound.now.kind ≡ Kind.Fixed }
    requires back { bound.now.back ≤ number }
    requires few { number ≤ length bound.now.steps }
    requires sound { steps_refusal bound.now ≡ None }
    requires input { IsInput (unnamed bound.now.first) (unnamed input.now) }
    ensures outcome { IfOk result (λ verdict. rendered input.now bound.now verdict ≡ fixed_at input.now bound.now (end_number input.now bound.now number)) }
    ensures cause { IfOk result (HasCause input.now bound.now) }
{
    over_problems(bound);
    let _kind = bound.kind();
    match fit_at(alloc, bound, input, number)? {
        FitAnswer::Sets(sets) => Ok(GivenVerdict::Solvable {
            number,
            sets,
            holds: None,
        }),
        FitAnswer::Missing => Ok(back_verdict(bound, input, number)),
        FitAnswer::TooMany => {
            if number > bound.back() {
                fixed_verdict(alloc, bound, input, number - 1)
            } else {
                Ok(GivenVerdict::TooManyTries)
            }
        }
    }
}

// The verdict on a bound each step of which meets its clauses.
fn end_verdict(
    alloc: Global,
    bound: &Certificate,
    input: &Problem,
) -> Result<GivenVerdict, NoMemory>
    requires sound { steps_refusal bound.now ≡ None }
    requires input { IsInput (unnamed bound.now.first) (unnamed input.now) }
    ensures outcome { IfOk result (λ verdict. rendered input.now bound.now verdict ≡ end_outcome bound.now.kind input.now bound.now) }
    ensures cause { IfOk result (HasCause input.now bound.now) }
{
    match bound.kind() {
        Kind::Lower => lower_verdict(alloc, bound, input),
        Kind::Upper => upper_verdict(alloc, bound, input),
        Kind::Fixed => fixed_verdict(alloc, bound, input, bound.steps().len() as u8),
    }
}

// The verdict on a bound of whose first problem it is an input problem.
fn steps_verdict(
    alloc: Global,
    bound: &Certificate,
    input: &Problem,
) -> Result<GivenVerdict, NoMemory>
    requires { IsInput (unnamed bound.now.first) (unnamed input.now) }
    ensures outcome { IfOk result (λ verdict. rendered input.now bound.now verdict ≡ or_refusal (steps_refusal bound.now) (end_outcome bound.now.kind input.now bound.now)) }
    ensures cause { IfOk result (HasCause input.now bound.now) }
{
    match steps_refusal(bound) {
        Some(refusal) => Ok(GivenVerdict::Fails(refusal)),
        None => end_verdict(alloc, bound, input),
    }
}

/// The verdict of `given` on a bound and a problem behind it: that of which the word's answer is the output. The cause that it names stands: the
/// sets are the first by which the problem is solvable. Its cost is that of the walks of `re_settings`, with at most `MAX_TRIES` tries each.
pub fn given_verdict(
    alloc: Global,
    bound: &Certificate,
    input: &Problem,
) -> Result<GivenVerdict, NoMemory>
    ensures outcome { IfOk result (λ verdict. rendered input.now bound.now verdict ≡ given_outcome Given input.now bound.now) }
    ensures cause { IfOk result (HasCause input.now bound.now) }
{
    match input_fault(bound.first(), input) {
        Some(fault) => Ok(GivenVerdict::NoInput(fault)),
        None => steps_verdict(alloc, bound, input),
    }
}
