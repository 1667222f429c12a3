// The commands that read nothing.
ghost use Rattle.re_cert.specs.Bounds.{last_problem};
ghost use Rattle.re_check.specs.Verdicts.{verdict_of};
ghost use Rattle.re_frame.specs.Check.{verdict_outcome};
ghost use Rattle.re_words.specs.Command.{IsMaking, judges};
ghost use Rattle.re_words.specs.Making.{behind, making_outcome, one_step_outcome, sizes_text};
ghost use Rattle.re_frame.specs.Outcomes.{outcome_of, status_of};
ghost use Rattle.re_frame.specs.Runs.{MaySay};
ghost use Rattle.std.specs.Prelude.{◌≡◌, IfOk};

use crate::command::{Command, Making};
use re_cert::Certificate;
use re_check::check;
use re_families::{Family, family_problem};
use re_frame::{Output, begun, done, push_number, push_words, verdict_output};
use re_labels::NoMemory;
use re_limits::limit_output;
use re_problem::{Problem, print_problem};
use re_search::one_step;
use re_step::StepFault;
use std::alloc::Global;

// How many labels, active and passive configurations a problem has, one number a line.
fn sizes(alloc: Global, problem: &Problem) -> Result<Vec<u8>, NoMemory>
    ensures { IfOk result (λ text. text.items ≡ sizes_text problem.now) }
{
    let mut text = begun(alloc, "labels ")?;
    push_number(alloc, &mut text, problem.names().len())?;
    push_words(&mut text, "\nrows ")?;
    push_number(alloc, &mut text, problem.active().len())?;
    push_words(&mut text, "\nconfigurations ")?;
    push_number(alloc, &mut text, problem.passive().len())?;
    push_words(&mut text, "\n")?;
    Ok(text)
}

// The sizes of the last problem of a certificate, and the verdict on the certificate.
fn judged(alloc: Global, certificate: &Certificate) -> Result<Output, NoMemory>
    ensures { IfOk result (λ output. outcome_of output ≡ behind (sizes_text (last_problem certificate.now)) (verdict_outcome (verdict_of certificate.now))) }
{
    let mut text = sizes(alloc, certificate.last())?;
    let verdict = verdict_output(alloc, check(certificate))?;
    text.extend_from_slice(verdict.text.as_slice())?;
    Ok(Output {
        answer: verdict.answer,
        text,
    })
}

// The sizes of the derived problem, and the verdict on the certificate of the step to it.
#[tactic(auto, unfolding(crate::specs::Making::one_step_outcome))]
fn one_step_output(alloc: Global, problem: &Problem) -> Result<Output, NoMemory>
    ensures { IfOk result (λ output. outcome_of output ≡ one_step_outcome problem.now) }
{
    match one_step(alloc, problem) {
        Ok(certificate) => judged(alloc, &certificate),
        Err(StepFault::Limit(limit)) => limit_output(alloc, 1, limit),
        Err(StepFault::NoMemory) => Err(NoMemory),
    }
}

#[tactic(auto, unfolding(crate::specs::Making::making_outcome))]
fn making_output(alloc: Global, making: Making) -> Result<Output, NoMemory>
    requires { IsMaking making }
    ensures { IfOk result (λ output. outcome_of output ≡ making_outcome making) }
{
    match making {
        Making::OfFamily(kind, active, passive, number) => {
            let problem = family_problem(alloc, kind, active, passive, number)?;
            Ok(done(print_problem(alloc, &problem)?))
        }
        Making::OneStep(colours) => {
            let problem = family_problem(alloc, Family::Colouring, 3, 2, colours)?;
            one_step_output(alloc, &problem)
        }
    }
}

/// The output of a command that reads nothing.
pub fn make(alloc: Global, making: Making) -> Result<Output, NoMemory>
    requires { IsMaking making }
    ensures output { IfOk result (λ output. outcome_of output ≡ making_outcome making) }
    ensures says { IfOk result (λ output. MaySay (status_of output.answer) (judges (Command.Makes making))) }
{
    making_output(alloc, making)
}
