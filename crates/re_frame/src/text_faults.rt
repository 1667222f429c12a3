// The lines of faults of texts.
ghost use Rattle.std.specs.Prelude.{◌≡◌, string_bytes, IfOk};
ghost use Rattle.re_frame.specs.Outcomes.{outcome_of, status_of};
ghost use Rattle.re_frame.specs.TextFaults.{fault_line, fault_outcome, fault_status};

use crate::output::Output;
use crate::status::Answer;
use re_problem::InputFault;
use std::alloc::{AllocError, Global};

fn line_of(alloc: Global, fault: InputFault) -> Result<String, AllocError>
    ensures { IfOk result (λ text. string_bytes text ≡ fault_line fault) }
{
    match fault {
        InputFault::BadByte(byte) => format!(in alloc; "input: byte {byte}: not allowed\n"),
        InputFault::BadItem(line) => format!(in alloc; "input: line {line}: not a list of items\n"),
        InputFault::WrongDegree(line) => format!(in alloc; "input: line {line}: wrong degree\n"),
        InputFault::MissingBlock(line) => {
            format!(in alloc; "input: line {line}: a block is missing\n")
        }
        InputFault::ExtraBlock(line) => format!(in alloc; "input: line {line}: a third block\n"),
        InputFault::DegreeOutOfRange(degree) => {
            format!(in alloc; "input: degree {degree} is not from 2 to 6\n")
        }
        InputFault::TooManyLabels(line) => {
            format!(in alloc; "limit: line {line}: more than 128 labels\n")
        }
        InputFault::TooManyConfigurations(line) => {
            format!(in alloc; "limit: line {line}: more than 1048576 configurations\n")
        }
        InputFault::BadSection(line) => {
            format!(in alloc; "input: line {line}: section not expected\n")
        }
        InputFault::BadEntry(line) => format!(in alloc; "input: line {line}: bad entry\n"),
        InputFault::BadBack(line) => {
            format!(in alloc; "input: line {line}: back is not before the last problem\n")
        }
        InputFault::TooManySteps(line) => {
            format!(in alloc; "limit: line {line}: more than 64 steps\n")
        }
        InputFault::TooManyRows(line) => {
            format!(in alloc; "limit: line {line}: more than 1024 rows\n")
        }
        InputFault::TooManyViews(line) => {
            format!(in alloc; "limit: line {line}: more than 65536 views\n")
        }
        InputFault::TooManyNodes(line) => {
            format!(in alloc; "limit: line {line}: more than 4096 nodes\n")
        }
        InputFault::EarlyEnd => String::from_str(alloc, "input: ends too early\n"),
    }
}

fn answer_to(fault: InputFault) -> Answer
    ensures { status_of result ≡ fault_status fault }
{
    match fault {
        InputFault::TooManyLabels(_)
        | InputFault::TooManyConfigurations(_)
        | InputFault::TooManySteps(_)
        | InputFault::TooManyRows(_)
        | InputFault::TooManyViews(_)
        | InputFault::TooManyNodes(_) => Answer::Limit,
        _ => Answer::BadInput,
    }
}

/// The line of the fault of a text. One that passes a limit isn't bad.
pub fn fault_output(alloc: Global, fault: InputFault) -> Result<Output, AllocError>
    ensures { IfOk result (λ output. outcome_of output ≡ fault_outcome fault) }
{
    Ok(Output {
        answer: answer_to(fault),
        text: line_of(alloc, fault)?.into_bytes(),
    })
}
