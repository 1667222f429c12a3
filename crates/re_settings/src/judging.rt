//! The words over a bound and an input problem.
ghost use Rattle.re_chains.specs.OverChains.{or_refusal, steps_refusal};
ghost use Rattle.re_frame.specs.Outcomes.{outcome_of};
ghost use Rattle.re_given.specs.Inputs.{IsInput};
ghost use Rattle.re_settings.specs.Meanings.{AnswerMeans, IsJudged};
ghost use Rattle.re_settings.specs.Verdicts.{fit_with, given_outcome, sound_outcome};
ghost use Rattle.re_settings.specs.Walks.{walk_at};
ghost use Rattle.re_settings.specs.declared.bound_words.BoundWord.TheVariants.{Fit, Given};
ghost use Rattle.re_io.specs.declared.read.TheConstants.{MAX_BYTES};
ghost use Rattle.re_problem.specs.NamedProblems.{unnamed};
ghost use Rattle.std.specs.Prelude.{◌≡◌, ◌≤◌, IfOk, None, length};

use crate::bound_words::BoundWord;
use crate::faults::input_fault_output;
use crate::fitting::{FitAnswer, fit_at, push_fit, tries_output};
use crate::input_fault;
use crate::texts::GIVEN;
use crate::verdict_lines::given_verdict_output;
use crate::verdicts::given_verdict;
use re_cert::Certificate;
use re_chains::{TwoTexts, over_problems, read_two, steps_refusal};
use re_frame::{Output, begun, done, fault_output, refused, verdict_output};
use re_labels::NoMemory;
use re_problem::{Problem, TextFault};
use std::alloc::Global;

// What `fit` gives to a bound each step of which meets its clauses.
fn fit_output(alloc: Global, bound: &Certificate, input: &Problem) -> Result<Output, NoMemory>
    requires sound { steps_refusal bound.now ≡ None }
    requires input { IsInput (unnamed bound.now.first) (unnamed input.now) }
    ensures { IfOk result (λ output. outcome_of output ≡ fit_with input.now bound.now (walk_at input.now bound.now (length bound.now.steps))) }
{
    let steps = bound.steps().len();
    match fit_at(alloc, bound, input, steps as u8)? {
        FitAnswer::Sets(sets) => {
            let mut text = Vec::new(alloc);
            push_fit(
                alloc,
                &mut text,
                bound.problem_at(steps),
                input,
                sets.as_slice(),
            )?;
            Ok(done(text))
        }
        FitAnswer::Missing => Ok(refused(begun(alloc, "no\n")?)),
        FitAnswer::TooMany => tries_output(alloc),
    }
}

// What `fit` gives to a bound of whose first problem it is an input problem.
fn fit_steps(alloc: Global, bound: &Certificate, input: &Problem) -> Result<Output, NoMemory>
    requires { IsInput (unnamed bound.now.first) (unnamed input.now) }
    ensures { IfOk result (λ output. outcome_of output ≡ or_refusal (steps_refusal bound.now) (sound_outcome Fit input.now bound.now)) }
{
    match steps_refusal(bound) {
        Some(verdict) => Ok(verdict_output(alloc, verdict)?),
        None => fit_output(alloc, bound, input),
    }
}

// What `fit` gives to a bound and a problem behind it.
fn fit_input(alloc: Global, bound: &Certificate, input: &Problem) -> Result<Output, NoMemory>
    ensures { IfOk result (λ output. outcome_of output ≡ given_outcome Fit input.now bound.now) }
{
    match input_fault(bound.first(), input) {
        Some(fault) => input_fault_output(alloc, input, fault),
        None => fit_steps(alloc, bound, input),
    }
}

// What `given` gives to them.
fn verdict_given(alloc: Global, bound: &Certificate, input: &Problem) -> Result<Output, NoMemory>
    ensures { IfOk result (λ output. outcome_of output ≡ given_outcome Given input.now bound.now) }
{
    let verdict = given_verdict(alloc, bound, input)?;
    given_verdict_output(alloc, bound, input, &verdict)
}

// What the word gives to a bound and a problem behind it.
fn given_output(
    alloc: Global,
    word: BoundWord,
    bound: &Certificate,
    input: &Problem,
) -> Result<Output, NoMemory>
    ensures { IfOk result (λ output. outcome_of output ≡ given_outcome word input.now bound.now) }
{
    match word {
        BoundWord::Fit => fit_input(alloc, bound, input),
        BoundWord::Given => verdict_given(alloc, bound, input),
    }
}

// What it gives to them, and what that means.
fn meant_output(alloc: Global, word: BoundWord, texts: &TwoTexts) -> Result<Output, NoMemory>
    ensures answer { IfOk result (λ output. outcome_of output ≡ given_outcome word texts.now.problem texts.now.bound) }
    ensures means { IfOk result (λ output. AnswerMeans word texts.now.problem texts.now.bound (outcome_of output)) }
{
    over_problems(&texts.bound);
    let _kind = texts.bound.kind();
    let _names = texts.problem.names();
    given_output(alloc, word, &texts.bound, &texts.problem)
}

/// What the word gives to a text.
pub fn bound_output(alloc: Global, word: BoundWord, text: &[u8]) -> Result<Output, NoMemory>
    requires { length text.now ≤ MAX_BYTES }
    ensures { IfOk result (λ output. IsJudged word text.now (outcome_of output)) }
{
    match read_two(alloc, GIVEN, text) {
        Ok(texts) => meant_output(alloc, word, &texts),
        Err(TextFault::Bad(fault)) => Ok(fault_output(alloc, fault)?),
        Err(TextFault::NoMemory) => Err(NoMemory),
    }
}
