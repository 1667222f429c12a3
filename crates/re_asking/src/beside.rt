//! A word with an input problem behind it that has a name.
ghost use Rattle.re_asking.specs.Beside.{AreDegreesOf, GivesDegrees, MayGiveBeside, MayGiveIn, alone_fault, degrees_line, ended, first_problem, front_fault, input_named, is_ended, text_beside};
ghost use Rattle.re_frame.specs.Answers.{MayAnswer};
ghost use Rattle.re_frame.specs.Outcomes.{outcome_of, refused as refused_with, status_of};
ghost use Rattle.re_frame.specs.Runs.{MaySay};
ghost use Rattle.re_inputs.specs.NamedInputs.{fits as fits_in, input_of};
ghost use Rattle.re_io.specs.declared.read.TheConstants.{MAX_BYTES};
ghost use Rattle.re_problem.specs.NamedProblems.{NamedProblem};
ghost use Rattle.std.specs.Prelude.{◌≡◌, ◌≤◌, IfOk, OnOk, length, true};

use crate::beside_words::NamedInput;
use re_chains::{at_line, cut_at, read_chain, read_problem_at};
use re_frame::{Finding, Output, begun, fault_output, push_number, push_words, refused, too_long};
use re_inputs::{fits, input};
use re_io::MAX_BYTES;
use re_labels::NoMemory;
use re_problem::{InputFault, Problem, TextFault, push_problem};
use std::alloc::Global;

// The name of the line in front of an input problem.
const GIVEN: &[u8] = b"given";

/// What a word reads in front of an input problem.
#[derive(Clone, Copy, Debug, PartialEq, Eq)]
pub enum FrontText {
    /// A problem text.
    Problem,
    /// A certificate text, or a problem text.
    Chain,
}

/// A word, and the name of an input problem: the word is given the text with a line `== given` and the text of this input problem behind
/// it, in the degrees of the text's first problem.
#[derive(Clone, Copy, Debug, PartialEq, Eq)]
pub struct Beside<F> {
    /// The word.
    pub word: F,
    /// What it reads in front of an input problem.
    pub front: FrontText,
    /// The input problem.
    pub input: NamedInput,
}

/// The degrees of a problem.
#[derive(Clone, Copy)]
struct Degrees {
    active: u8,
    passive: u8,
}

fn degrees_of(problem: &Problem) -> Degrees
    ensures { AreDegreesOf result problem.now }
{
    Degrees {
        active: problem.active().degree(),
        passive: problem.passive().degree(),
    }
}

// The degrees of the first problem of a text without an input problem.
fn read_alone(alloc: Global, front: FrontText, text: &[u8]) -> Result<Degrees, TextFault>
    requires { length text.now ≤ MAX_BYTES }
    ensures { GivesDegrees (alone_fault front text.now) (first_problem front text.now) result }
{
    match front {
        FrontText::Problem => match read_problem_at(alloc, 0, 1, text) {
            Ok(problem) => Ok(degrees_of(&problem)),
            Err(fault) => Err(fault),
        },
        FrontText::Chain => match read_chain(alloc, text) {
            Ok(chain) => Ok(degrees_of(chain.first())),
            Err(fault) => Err(fault),
        },
    }
}

// The same, where a line `== given` in it isn't expected.
#[tactic(auto, unfolding(crate::specs::Beside::front_fault))]
fn read_front(alloc: Global, front: FrontText, text: &[u8]) -> Result<Degrees, TextFault>
    requires { length text.now ≤ MAX_BYTES }
    ensures { GivesDegrees (front_fault front text.now) (first_problem front text.now) result }
{
    let Some(cut) = cut_at(GIVEN, text) else {
        return read_alone(alloc, front, text);
    };
    let number = cut.number - 1;
    match read_alone(alloc, front, cut.front) {
        Ok(_) => Err(TextFault::Bad(InputFault::BadSection(number))),
        Err(TextFault::Bad(fault)) => Err(TextFault::Bad(at_line(number, fault))),
        Err(TextFault::NoMemory) => Err(TextFault::NoMemory),
    }
}

fn is_ended(text: &[u8]) -> bool
    ensures { result ≡ is_ended text.now }
{
    match text.last() {
        Some(byte) => *byte == b'\n',
        None => true,
    }
}

// Ends the last line of the text.
fn end(text: &mut Vec<u8>) -> Result<(), NoMemory>
    ensures { OnOk result (text.new.items ≡ ended text.old.items) }
{
    if !is_ended(text.as_slice()) {
        text.push(b'\n')?;
    }
    Ok(())
}

// Puts the line `== given` and the input problem behind the text.
fn put_beside(text: &mut Vec<u8>, input: &Problem) -> Result<(), NoMemory>
    ensures { OnOk result (text.new.items ≡ text_beside input.now text.old.items) }
{
    end(text)?;
    push_words(text, "== given\n")?;
    push_problem(text, input)
}

// The line where there is no such input problem.
fn degrees_output(alloc: Global, degrees: Degrees) -> Result<Output, NoMemory>
    ensures { IfOk result (λ output. outcome_of output ≡ refused_with (degrees_line degrees.active degrees.passive)) }
{
    let mut text = begun(alloc, "no: not an input in degrees ")?;
    push_number(alloc, &mut text, degrees.active as usize)?;
    push_words(&mut text, " and ")?;
    push_number(alloc, &mut text, degrees.passive as usize)?;
    push_words(&mut text, "\n")?;
    Ok(refused(text))
}

// What the word gives to a text of this problem, with the input problem behind it.
fn longer_output<F: Finding>(
    alloc: Global,
    beside: &Beside<F>,
    input: &Problem,
    text: Vec<u8>,
) -> Result<Output, NoMemory>
    requires { F.fits beside.now.word }
    ensures output { IfOk result (λ output. MayAnswer (F.may beside.now.word) (text_beside input.now text.items) (outcome_of output)) }
    ensures says { IfOk result (λ output. MaySay (status_of output.answer) true) }
{
    let mut text = text;
    put_beside(&mut text, input)?;
    if text.len() <= MAX_BYTES {
        beside.word.find(alloc, text)
    } else {
        Ok(too_long(alloc)?)
    }
}

// What it gives in these degrees.
fn degrees_answer<F: Finding>(
    alloc: Global,
    beside: &Beside<F>,
    degrees: Degrees,
    text: Vec<u8>,
) -> Result<Output, NoMemory>
    requires { F.fits beside.now.word }
    ensures output { IfOk result (λ output. (problem : NamedProblem) → AreDegreesOf degrees problem →
        MayGiveIn (fits_in beside.now.input.kind problem.active.degree problem.passive.degree beside.now.input.number)
        (F.may beside.now.word) beside.now.input problem text.items (outcome_of output)) }
    ensures says { IfOk result (λ output. MaySay (status_of output.answer) true) }
{
    let NamedInput { kind, number } = beside.input;
    if !fits(kind, degrees.active as u32, degrees.passive as u32, number) {
        return degrees_output(alloc, degrees);
    }
    let given = input(alloc, kind, degrees.active, degrees.passive, number as u8)?;
    longer_output(alloc, beside, &given, text)
}

impl<F: Finding> Finding for Beside<F> {
    ghost use Rattle.re_asking.specs.Beside.{MayGiveBeside};
    ghost use Rattle.std.specs.Prelude.{true};

    ghost fits = { λ beside. F.fits beside.word };

    ghost may = { λ beside bytes outcome. MayGiveBeside (F.may beside.word) beside.front beside.input bytes outcome };

    ghost judging = { λ _. true };

    fn find(&self, alloc: Global, text: Vec<u8>) -> Result<Output, NoMemory> {
        match read_front(alloc, self.front, text.as_slice()) {
            Ok(degrees) => degrees_answer(alloc, self, degrees, text),
            Err(TextFault::Bad(fault)) => Ok(fault_output(alloc, fault)?),
            Err(TextFault::NoMemory) => Err(NoMemory),
        }
    }
}
