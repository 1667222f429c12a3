//! Sets for the labels of an input problem, and the lines that show them.
ghost use Rattle.re_cert.specs.Bounds.{problem_at};
ghost use Rattle.re_chains.specs.OverChains.{steps_refusal};
ghost use Rattle.re_frame.specs.Outcomes.{outcome_of};
ghost use Rattle.re_given.specs.Inputs.{IsInput, exchanged_by};
ghost use Rattle.re_settings.specs.Walks.{IsFitAnswer, fit_line, fit_text, input_at, tries_outcome};
ghost use Rattle.re_labels.specs.Lists.{count_from};
ghost use Rattle.re_problem.specs.NamedProblems.{unnamed};
ghost use Rattle.std.specs.List.{AllByRecursion};
ghost use Rattle.std.specs.Prelude.{◌≡◌, ◌<◌, ◌≤◌, ◌++◌, IfOk, None, OnOk, flat_map, length};

use crate::{FitFault, find_fit_after};
use re_cert::{Certificate, SetEntry};
use re_chains::over_problems;
use re_frame::{Answer, Output, begun, push_words};
use re_labels::{LabelSet, NoMemory};
use re_problem::Problem;
use re_texts::push_entry;
use std::alloc::Global;

/// The most tries of a walk.
pub const MAX_TRIES: u32 = 1_000_000;

/// What the walk for sets comes to.
#[derive(Drop)]
pub enum FitAnswer {
    /// A set for each input label.
    Sets(Vec<LabelSet>),
    /// There are none.
    Missing,
    /// The tries don't suffice.
    TooMany,
}

/// Sets for the labels of the input problem, exchanged as often as there are steps, as `re_settings::find_fit_after` finds them.
pub fn fit_answer(
    alloc: Global,
    problem: &Problem,
    input: &Problem,
    steps: u8,
) -> Result<FitAnswer, NoMemory>
    requires { IsInput (unnamed problem.now) (exchanged_by steps (unnamed input.now)) }
    ensures { IfOk result (IsFitAnswer (unnamed problem.now) (exchanged_by steps (unnamed input.now))) }
{
    match find_fit_after(alloc, problem, input, steps, MAX_TRIES) {
        Ok(Some(sets)) => Ok(FitAnswer::Sets(sets)),
        Ok(None) => Ok(FitAnswer::Missing),
        Err(FitFault::TooManyTries) => Ok(FitAnswer::TooMany),
        Err(FitFault::NoMemory) => Err(NoMemory),
    }
}

/// The same for the problem of the bound behind so many steps.
pub(crate) fn fit_at(
    alloc: Global,
    bound: &Certificate,
    input: &Problem,
    number: u8,
) -> Result<FitAnswer, NoMemory>
    requires few { number ≤ length bound.now.steps }
    requires sound { steps_refusal bound.now ≡ None }
    requires input { IsInput (unnamed bound.now.first) (unnamed input.now) }
    ensures { IfOk result (IsFitAnswer (unnamed (problem_at bound.now number)) (input_at input.now number)) }
{
    over_problems(bound);
    let _kind = bound.kind();
    fit_answer(alloc, bound.problem_at(number as usize), input, number)
}

// Appends the line of an input label.
fn push_fit_line(
    text: &mut Vec<u8>,
    problem: &Problem,
    input: &Problem,
    sets: &[LabelSet],
    label: u8,
) -> Result<(), NoMemory>
    requires label { label < length sets.now }
    requires count { length sets.now ≡ length input.now.names }
    requires below { AllByRecursion (AllByRecursion (λ label. label < length problem.now.names)) sets.now }
    ensures { OnOk result (text.new.items ≡ text.old.items ++ fit_line problem.now input.now sets.now label) }
{
    let set = sets[label as usize];
    let entry = SetEntry { set, label };
    push_entry(text, false, problem.names(), input.names(), &entry)?;
    push_words(text, "\n")
}

// The lines of the input labels.
fn fit_lines(
    alloc: Global,
    problem: &Problem,
    input: &Problem,
    sets: &[LabelSet],
) -> Result<Vec<u8>, NoMemory>
    requires count { length sets.now ≡ length input.now.names }
    requires below { AllByRecursion (AllByRecursion (λ label. label < length problem.now.names)) sets.now }
    ensures { IfOk result (λ text. text.items ≡ flat_map (fit_line problem.now input.now sets.now) (count_from 0 (length sets.now))) }
{
    let names = input.names();
    let mut text = Vec::new(alloc);
    for label in 0..names.len() {
        push_fit_line(&mut text, problem, input, sets, label as u8)?;
    }
    Ok(text)
}

/// Appends `yes` and a line for each input label.
pub(crate) fn push_fit(
    alloc: Global,
    text: &mut Vec<u8>,
    problem: &Problem,
    input: &Problem,
    sets: &[LabelSet],
) -> Result<(), NoMemory>
    requires count { length sets.now ≡ length input.now.names }
    requires below { AllByRecursion (AllByRecursion (λ label. label < length problem.now.names)) sets.now }
    ensures { OnOk result (text.new.items ≡ text.old.items ++ fit_text problem.now input.now sets.now) }
{
    push_words(text, "yes\n")?;
    let lines = fit_lines(alloc, problem, input, sets)?;
    Ok(text.extend_from_slice(lines.as_slice())?)
}

/// The output where the tries don't suffice.
pub fn tries_output(alloc: Global) -> Result<Output, NoMemory>
    ensures { IfOk result (λ output. outcome_of output ≡ tries_outcome) }
{
    Ok(Output {
        answer: Answer::Limit,
        text: begun(alloc, "limit: more than 1000000 tries\n")?,
    })
}
