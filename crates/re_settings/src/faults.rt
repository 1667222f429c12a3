//! The output where a text writes no input problem.
ghost use Rattle.re_settings.specs.InputProblems.{IsOf};
ghost use Rattle.re_frame.specs.Outcomes.{outcome_of, refused as refused_with};
ghost use Rattle.re_settings.specs.InputFaults.{fault_line};
ghost use Rattle.std.specs.Prelude.{◌≡◌, IfOk};

use crate::InputFault;
use re_frame::{Output, begun, push_words, refused};
use re_labels::NoMemory;
use re_problem::{Problem, push_label};
use std::alloc::Global;

// The line of a label that stands on one side alone.
fn one_side_output(alloc: Global, input: &Problem, label: u8) -> Result<Output, NoMemory>
    requires { IsOf input.now (InputFault.OneSide label) }
    ensures { IfOk result (λ output. outcome_of output ≡ refused_with (fault_line input.now (InputFault.OneSide label))) }
{
    let mut text = begun(alloc, "no: not an input: ")?;
    push_label(&mut text, input.names().name(label))?;
    push_words(&mut text, "\n")?;
    Ok(refused(text))
}

/// The output where the text behind `== given` writes no input problem, with this fault that `re_settings::input_fault` names.
pub fn input_fault_output(
    alloc: Global,
    input: &Problem,
    fault: InputFault,
) -> Result<Output, NoMemory>
    requires { IsOf input.now fault }
    ensures { IfOk result (λ output. outcome_of output ≡ refused_with (fault_line input.now fault)) }
{
    match fault {
        InputFault::Degrees => Ok(refused(begun(alloc, "no: not an input: degrees\n")?)),
        InputFault::Empty => Ok(refused(begun(alloc, "no: not an input: empty\n")?)),
        InputFault::OneSide(label) => one_side_output(alloc, input, label),
    }
}
