//! The output of the verdict on a bound given an input problem.
ghost use Rattle.re_cert.specs.Bounds.{problem_at};
ghost use Rattle.re_frame.specs.Outcomes.{outcome_of, refused as refused_with};
ghost use Rattle.re_settings.specs.Verdicts.{HasCause, accepted, accepted_line, end_line, held_line, kept_line, rendered};
ghost use Rattle.re_settings.specs.Walks.{AreFirst, fit_text, input_at};
ghost use Rattle.re_problem.specs.NamedProblems.{unnamed};
ghost use Rattle.std.specs.Prelude.{◌≡◌, ◌≤◌, ◌++◌, IfOk, length};

use crate::faults::input_fault_output;
use crate::fitting::{push_fit, tries_output};
use crate::verdicts::GivenVerdict;
use re_cert::{Certificate, Kind};
use re_check::{Clause, Verdict};
use re_frame::{Output, begun, done, push_number, push_words, refused, verdict_output};
use re_labels::{LabelSet, NoMemory};
use re_problem::Problem;
use std::alloc::Global;

// The line of a bound of this kind and of so many steps that holds given the input.
fn accepted_line(alloc: Global, kind: Kind, steps: usize) -> Result<Vec<u8>, NoMemory>
    ensures { IfOk result (λ text. text.items ≡ accepted_line kind steps) }
{
    match kind {
        Kind::Lower => {
            let mut text = begun(alloc, "accepted: given that input, not solvable in ")?;
            push_number(alloc, &mut text, steps)?;
            push_words(&mut text, " or fewer rounds\n")?;
            Ok(text)
        }
        Kind::Upper => {
            let mut text = begun(alloc, "accepted: given that input, solvable in ")?;
            push_number(alloc, &mut text, steps)?;
            push_words(&mut text, " rounds\n")?;
            Ok(text)
        }
        Kind::Fixed => begun(
            alloc,
            "accepted: given that input, not solvable in any number of rounds\n",
        ),
    }
}

// The output of a bound that holds given the input.
fn accepted(alloc: Global, bound: &Certificate) -> Result<Output, NoMemory>
    ensures { IfOk result (λ output. outcome_of output ≡ accepted bound.now) }
{
    Ok(done(accepted_line(alloc, bound.kind(), bound.steps().len())?))
}

// The line where END fails at the problem behind so many steps.
fn end_line(alloc: Global, number: u8) -> Result<Vec<u8>, NoMemory>
    ensures { IfOk result (λ text. text.items ≡ end_line number) }
{
    let mut text = begun(alloc, "refused: given that input, step ")?;
    push_number(alloc, &mut text, number as usize)?;
    push_words(&mut text, ", clause END\n")?;
    Ok(text)
}

// That line, and these sets for the labels of the input problem.
fn shown_end(
    alloc: Global,
    bound: &Certificate,
    input: &Problem,
    number: u8,
    sets: &[LabelSet],
) -> Result<Vec<u8>, NoMemory>
    requires few { number ≤ length bound.now.steps }
    requires sets { AreFirst (unnamed (problem_at bound.now number)) (input_at input.now number) sets.now }
    ensures { IfOk result (λ text. text.items ≡ end_line number ++ fit_text (problem_at bound.now number) input.now sets.now) }
{
    let mut text = end_line(alloc, number)?;
    push_fit(
        alloc,
        &mut text,
        bound.problem_at(number as usize),
        input,
        sets,
    )?;
    Ok(text)
}

// The line of so many steps of a lower bound that hold where the whole doesn't.
fn held_line(alloc: Global, steps: usize) -> Result<Vec<u8>, NoMemory>
    ensures { IfOk result (λ text. text.items ≡ held_line steps) }
{
    let mut text = begun(alloc, "holds: given that input, not solvable in ")?;
    push_number(alloc, &mut text, steps)?;
    push_words(&mut text, " or fewer rounds\n")?;
    Ok(text)
}

// Appends the line of the bound with so many steps.
fn push_kept(alloc: Global, text: &mut Vec<u8>, kept: Option<u8>) -> Result<(), NoMemory>
    ensures { IfOk result (λ _. text.new.items ≡ text.old.items ++ kept_line kept) }
{
    match kept {
        Some(steps) => {
            let line = held_line(alloc, steps as usize)?;
            Ok(text.extend_from_slice(line.as_slice())?)
        }
        None => Ok(()),
    }
}

// The output where a problem is solvable by these sets.
fn solvable_output(
    alloc: Global,
    bound: &Certificate,
    input: &Problem,
    number: u8,
    sets: &[LabelSet],
    holds: Option<u8>,
) -> Result<Output, NoMemory>
    requires few { number ≤ length bound.now.steps }
    requires sets { AreFirst (unnamed (problem_at bound.now number)) (input_at input.now number) sets.now }
    ensures { IfOk result (λ output. outcome_of output ≡ refused_with (end_line number ++ fit_text (problem_at bound.now number) input.now sets.now ++ kept_line holds)) }
{
    let mut text = shown_end(alloc, bound, input, number, sets)?;
    push_kept(alloc, &mut text, holds)?;
    Ok(refused(text))
}

/// The output of `given` for its verdict on a bound and a problem behind it.
pub fn given_verdict_output(
    alloc: Global,
    bound: &Certificate,
    input: &Problem,
    verdict: &GivenVerdict,
) -> Result<Output, NoMemory>
    requires { HasCause input.now bound.now verdict.now }
    ensures { IfOk result (λ output. outcome_of output ≡ rendered input.now bound.now verdict.now) }
{
    let step = bound.steps().len() as u8;
    match verdict {
        GivenVerdict::Accepted => accepted(alloc, bound),
        GivenVerdict::NoInput(fault) => input_fault_output(alloc, input, *fault),
        GivenVerdict::Fails(refusal) => Ok(verdict_output(alloc, *refusal)?),
        GivenVerdict::Solvable {
            number,
            sets,
            holds,
        } => solvable_output(alloc, bound, input, *number, sets.as_slice(), *holds),
        GivenVerdict::Unsolvable => Ok(refused(end_line(alloc, step)?)),
        GivenVerdict::NotBack => {
            let clause = Clause::Back;
            Ok(verdict_output(alloc, Verdict::Refused { step, clause })?)
        }
        GivenVerdict::TooManyTries => tries_output(alloc),
    }
}
