//! What `rounds` answers to a text.
ghost use Rattle.re_settings.specs.InputProblems.{IsOf};
ghost use Rattle.re_settings.specs.declared.inputs.InputFault.{InputFault as Fault};
ghost use Rattle.re_frame.specs.Outcomes.{outcome_of};
ghost use Rattle.re_given_words.specs.Counting.{IsBeside, IsCountedLine};
ghost use Rattle.re_given_words.specs.RoundsTexts.{MayCount, MayCountBeside, RoundsGives, beside_fault};
ghost use Rattle.re_io.specs.declared.read.TheConstants.{MAX_BYTES};
ghost use Rattle.re_problem.specs.NamedProblems.{unnamed};
ghost use Rattle.std.specs.Prelude.{◌≡◌, ◌≤◌, IfOk, IfSome, None, Some, length, option_map};

use crate::counting::{MAX_AHEAD, RoundsTexts, count, counted_output};
use re_chains::{has_line, read_problem_at};
use re_frame::{Output, fault_output};
use re_labels::NoMemory;
use re_problem::{Problem, TextFault};
use re_settings::{GIVEN, GivenTexts, input_fault, input_fault_output, read_given};
use std::alloc::Global;

// The problem and the input problem, if any, that a text writes. `Bad` comes exactly where the text has a fault, with its first one.
fn read_rounds(alloc: Global, text: &[u8]) -> Result<RoundsTexts, TextFault>
    requires { length text.now ≤ MAX_BYTES }
    ensures { RoundsGives text.now result }
{
    if has_line(GIVEN, text) {
        return match read_given(alloc, text) {
            Ok(GivenTexts { problem, input }) => Ok(RoundsTexts {
                problem,
                input: Some(input),
            }),
            Err(fault) => Err(fault),
        };
    }
    match read_problem_at(alloc, 0, 1, text) {
        Ok(problem) => Ok(RoundsTexts {
            problem,
            input: None,
        }),
        Err(fault) => Err(fault),
    }
}

// The line of what is counted, and what it means.
fn count_output(alloc: Global, texts: &RoundsTexts, most: u8) -> Result<Output, NoMemory>
    requires beside { IsBeside (unnamed texts.now.problem) (option_map unnamed texts.now.input) }
    requires most { most ≤ 64 }
    ensures { IfOk result (λ output. IsCountedLine texts.now.problem texts.now.input most (outcome_of output)) }
{
    let _names = texts.problem.names();
    let counted = count(alloc, texts, most, MAX_AHEAD)?;
    counted_output(alloc, counted)
}

// What is given to a problem and an input problem.
fn input_output(
    alloc: Global,
    texts: &RoundsTexts,
    input: &Problem,
    most: u8,
) -> Result<Output, NoMemory>
    requires input { texts.now.input ≡ Some input.now }
    requires most { most ≤ 64 }
    ensures { IfOk result (λ output. MayCountBeside (beside_fault texts.now.problem texts.now.input) texts.now.problem texts.now.input most (outcome_of output)) }
{
    match input_fault(&texts.problem, input) {
        Some(fault) => input_fault_output(alloc, input, fault),
        None => count_output(alloc, texts, most),
    }
}

// What is given to a problem and an input problem, if any.
fn beside_output(alloc: Global, texts: &RoundsTexts, most: u8) -> Result<Output, NoMemory>
    requires { most ≤ 64 }
    ensures { IfOk result (λ output. MayCountBeside (beside_fault texts.now.problem texts.now.input) texts.now.problem texts.now.input most (outcome_of output)) }
{
    match &texts.input {
        Some(input) => input_output(alloc, texts, input, most),
        None => count_output(alloc, texts, most),
    }
}

/// What `rounds` gives to a text.
pub(crate) fn rounds_output(alloc: Global, most: u8, text: &[u8]) -> Result<Output, NoMemory>
    requires most { most ≤ 64 }
    requires few { length text.now ≤ MAX_BYTES }
    ensures { IfOk result (λ output. MayCount most text.now (outcome_of output)) }
{
    match read_rounds(alloc, text) {
        Ok(texts) => beside_output(alloc, &texts, most),
        Err(TextFault::Bad(fault)) => Ok(fault_output(alloc, fault)?),
        Err(TextFault::NoMemory) => Err(NoMemory),
    }
}
