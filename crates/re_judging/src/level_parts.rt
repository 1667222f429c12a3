//! Parts of evidence that hold a number of levels of labels.
ghost use Rattle.re_judging.specs.PartAnswers.{PartMeans};
ghost use Rattle.re_judging.specs.PartVerdicts.{IsLength, IsLengthOf, IsLevelled, front_fault, levels_fact, levels_line, levels_of, number_in};
ghost use Rattle.re_flexible.specs.Lengths.{IsFlexibility};
ghost use Rattle.re_frame.specs.Outcomes.{outcome_of, refused as refused_with};
ghost use Rattle.re_problem.specs.NamedProblems.{unnamed};
ghost use Rattle.re_problem.specs.ProblemTexts.{lines_of};
ghost use Rattle.re_chains.specs.TwoTexts.{has_line};
ghost use Rattle.std.specs.Prelude.{◌≡◌, ◌≤◌, IfOk, codes, length, true};

use crate::types::{Fact, Judged, Part};
use re_chains::{cut_at, read_problem_at};
use re_flexible::{Flexibility, flexibility_of};
use re_frame::{Output, begun, fault_output, push_number, push_words, refused};
use re_io::MAX_BYTES;
use re_labels::NoMemory;
use re_problem::{InputFault, Problem, TextFault, cut_line, read_number};
use std::alloc::Global;

/// The name of the line in front of the number.
pub(crate) const LENGTH: &[u8] = b"length";

/// The number of the one line.
pub(crate) fn number_in(text: &[u8]) -> Option<u32>
    ensures { result ≡ number_in (lines_of text.now) }
{
    if text.is_empty() {
        return None;
    }
    let (line, behind) = cut_line(text);
    if behind.is_empty() {
        read_number(line)
    } else {
        let (_other, _rest) = cut_line(behind);
        None
    }
}

// How many levels there are, where they have an end.
fn levels_of(flexibility: &Flexibility) -> Option<u32>
    ensures { result ≡ levels_of flexibility.now }
{
    match flexibility {
        Flexibility::Flexible(_) => None,
        Flexibility::Length(count) => Some(u32::from(*count)),
        Flexibility::NoSolution => Some(0),
    }
}

// What they say of the problem.
fn levels_fact(flexibility: &Flexibility) -> Fact
    ensures { result ≡ levels_fact flexibility.now }
{
    match flexibility {
        Flexibility::Flexible(_) => Fact::Flexible,
        Flexibility::Length(count) => Fact::Length(*count),
        Flexibility::NoSolution => Fact::NoSolution,
    }
}

// The refusal where there are so many others.
fn levels_output(alloc: Global, levels: Option<u32>) -> Result<Output, NoMemory>
    ensures { IfOk result (λ output. outcome_of output ≡ refused_with (levels_line levels)) }
{
    match levels {
        None => Ok(refused(begun(alloc, "no: a set of labels is flexible\n")?)),
        Some(count) => {
            let mut text = begun(alloc, "no: length ")?;
            push_number(alloc, &mut text, count as usize)?;
            push_words(&mut text, "\n")?;
            Ok(refused(text))
        }
    }
}

// What comes of a problem and a number, where it has these levels.
fn levelled(
    alloc: Global,
    problem: Problem,
    number: u32,
    flexibility: &Flexibility,
) -> Result<Judged, NoMemory>
    requires { IsFlexibility (unnamed problem) flexibility.now }
    ensures answer { IfOk result (IsLevelled number flexibility.now problem) }
    ensures means { IfOk result PartMeans }
{
    let _names = problem.names();
    let levels = levels_of(flexibility);
    if levels == Some(number) {
        Ok(Judged::Holds(Part {
            problem,
            fact: levels_fact(flexibility),
        }))
    } else {
        Ok(Judged::Refused(levels_output(alloc, levels)?))
    }
}

// What comes of a problem and a number, if any, behind which this line stands.
fn length_of(
    alloc: Global,
    problem: Problem,
    number: Option<u32>,
    line: u32,
) -> Result<Judged, NoMemory>
    ensures answer { IfOk result (IsLengthOf number line problem) }
    ensures means { IfOk result PartMeans }
{
    match number {
        None => Ok(Judged::Refused(fault_output(alloc, InputFault::BadEntry(line))?)),
        Some(number) => {
            let flexibility = flexibility_of(&problem);
            levelled(alloc, problem, number, &flexibility)
        }
    }
}

/// What comes of the text of a problem and a number of levels of labels.
pub(crate) fn length_part(alloc: Global, text: &[u8]) -> Result<Judged, NoMemory>
    requires few { length text.now ≤ MAX_BYTES }
    requires has { has_line (codes "length") text.now ≡ true }
    ensures answer { IfOk result (IsLength (front_fault (codes "length") text.now) text.now) }
    ensures means { IfOk result PartMeans }
{
    let Some(cut) = cut_at(LENGTH, text) else {
        unreachable!();
    };
    match read_problem_at(alloc, 0, 1, cut.front) {
        Ok(problem) => length_of(alloc, problem, number_in(cut.behind), cut.number),
        Err(TextFault::Bad(fault)) => Ok(Judged::Refused(fault_output(alloc, fault)?)),
        Err(TextFault::NoMemory) => Err(NoMemory),
    }
}
