// The commands that read a problem text.
ghost use Rattle.std.specs.Prelude.{◌≡◌, ◌≤◌, ◌<◌, ◌++◌, ℕ, List, [], length, IfOk, IsErrOf};
ghost use Rattle.re_problem.specs.NamedProblems.{unnamed};
ghost use Rattle.re_problem.specs.TextReading.{ReadGives};
ghost use Rattle.re_problem.specs.Zero.{zero_place};
ghost use Rattle.re_words.specs.Command.{IsReading, judges};
ghost use Rattle.re_words.specs.Found.{SearchIsAccepted};
ghost use Rattle.re_frame.specs.Outcomes.{outcome_of};
ghost use Rattle.re_words.specs.Reading.{fit_outcome, problem_outcome, reading_outcome};

use crate::command::{Command, Reading};
use crate::counting::rounds_output;
use crate::searching::search_output;
use crate::working::{diagram_output, merge_output, steps_output, trim_output, universal_output};
use re_frame::{Answer, Answering, Output, fault_output};
use re_io::MAX_BYTES;
use re_labels::NoMemory;
use re_problem::{Problem, TextFault, print_active, print_problem, read_problem, zero_round};
use std::alloc::Global;

// The answer `yes` with the active configuration at this place.
fn yes_output(alloc: Global, problem: &Problem, place: usize) -> Result<Output, NoMemory>
    requires { place < length problem.now.active.configs }
    ensures { IfOk result (λ output. outcome_of output ≡ fit_outcome problem.now (Some place)) }
{
    let mut text = String::from_str(alloc, "yes: ")?.into_bytes();
    let config = print_active(alloc, problem, place)?;
    text.extend_from_slice(config.as_slice())?;
    text.push(b'\n')?;
    Ok(Output {
        answer: Answer::Done,
        text,
    })
}

fn zero_output(alloc: Global, problem: &Problem) -> Result<Output, NoMemory>
    ensures { IfOk result (λ output. outcome_of output ≡ fit_outcome problem.now (zero_place (unnamed problem.now))) }
{
    match zero_round(problem) {
        Some(place) => yes_output(alloc, problem, place),
        None => Ok(Output {
            answer: Answer::No,
            text: String::from_str(alloc, "no\n")?.into_bytes(),
        }),
    }
}

fn problem_output(alloc: Global, reading: Reading, problem: &Problem) -> Result<Output, NoMemory>
    requires { IsReading reading }
    ensures output { IfOk result (λ output. outcome_of output ≡ problem_outcome reading problem.now) }
    ensures accepted { IfOk result (λ output. output.answer ≡ Answer.Done → SearchIsAccepted reading output.text.items) }
{
    match reading {
        Reading::Read => Ok(Output {
            answer: Answer::Done,
            text: print_problem(alloc, problem)?,
        }),
        Reading::Zero => zero_output(alloc, problem),
        Reading::Diagram(side) => diagram_output(alloc, problem, side),
        Reading::Universal => universal_output(alloc, problem),
        Reading::Merge => merge_output(alloc, problem),
        Reading::Trim => trim_output(alloc, problem),
        Reading::Step(steps) => steps_output(alloc, problem, steps),
        Reading::Rounds(most) => rounds_output(alloc, problem, most),
        Reading::Search(kind, steps, changes) => {
            search_output(alloc, kind, steps, changes, problem)
        }
    }
}

// The problem of a text, which is let go then.
fn problem_of(alloc: Global, text: Vec<u8>) -> Result<Problem, TextFault>
    requires { length text.items ≤ MAX_BYTES }
    ensures { ReadGives text.items result }
{
    read_problem(alloc, text.as_slice())
}

#[tactic(auto, unfolding(crate::specs::Reading::reading_outcome))]
fn text_output(alloc: Global, reading: Reading, text: Vec<u8>) -> Result<Output, NoMemory>
    requires within { length text.items ≤ MAX_BYTES }
    requires reading { IsReading reading }
    ensures output { IfOk result (λ output. outcome_of output ≡ reading_outcome reading text.items) }
    ensures accepted { IfOk result (λ output. output.answer ≡ Answer.Done → SearchIsAccepted reading output.text.items) }
{
    match problem_of(alloc, text) {
        Ok(problem) => problem_output(alloc, reading, &problem),
        Err(TextFault::Bad(fault)) => Ok(fault_output(alloc, fault)?),
        Err(TextFault::NoMemory) => Err(NoMemory),
    }
}

impl Answering for Reading {
    ghost use Rattle.re_words.specs.Command.{IsReading, judges};
    ghost use Rattle.re_words.specs.Found.{SearchIsAccepted};
    ghost use Rattle.re_words.specs.Reading.{reading_outcome};
    ghost use Rattle.re_words.specs.declared.command.Command.TheVariants.{Reads};

    ghost fits = { IsReading };

    ghost outcome = { reading_outcome };

    ghost worth = { SearchIsAccepted };

    ghost judging = { λ reading. judges (Reads reading) };

    fn answer(&self, alloc: Global, text: Vec<u8>) -> Result<Output, NoMemory> {
        text_output(alloc, *self, text)
    }
}
