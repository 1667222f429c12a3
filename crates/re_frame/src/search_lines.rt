// The lines of searches without success, and of chains that a word has no answer for.
ghost use Rattle.std.specs.Prelude.{◌≡◌, IfOk, Some};
ghost use Rattle.re_frame.specs.Outcomes.{outcome_of, refused as refused_with};
ghost use Rattle.re_frame.specs.SearchLines.{not_found_line, not_lower_line, not_upper_line, solvable_line};
ghost use Rattle.re_problem.specs.NamedProblems.{unnamed};
ghost use Rattle.re_problem.specs.Zero.{zero_place};

use crate::output::{Output, refused};
use crate::text::{begun, push_number, push_words};
use re_labels::NoMemory;
use re_problem::{Problem, print_active};
use std::alloc::Global;

/// The output for a problem that the configuration at this place shows to be solvable without communication.
pub fn solvable_output(alloc: Global, problem: &Problem, place: usize) -> Result<Output, NoMemory>
    requires { zero_place (unnamed problem.now) ≡ Some place }
    ensures { IfOk result (λ output. outcome_of output ≡ refused_with (solvable_line problem.now place)) }
{
    let mut text = begun(alloc, "not found: solvable without communication: ")?;
    let config = print_active(alloc, problem, place)?;
    text.extend_from_slice(config.as_slice())?;
    push_words(&mut text, "\n")?;
    Ok(refused(text))
}

/// The output of a search without success, with the counts of the nodes that were looked at and of those that were cut off.
pub fn not_found_output(alloc: Global, nodes: u32, cut: u32) -> Result<Output, NoMemory>
    ensures { IfOk result (λ output. outcome_of output ≡ refused_with (not_found_line nodes cut)) }
{
    let mut text = begun(alloc, "not found: nodes ")?;
    push_number(alloc, &mut text, nodes as usize)?;
    push_words(&mut text, ", cut ")?;
    push_number(alloc, &mut text, cut as usize)?;
    push_words(&mut text, "\n")?;
    Ok(refused(text))
}

/// The output for a chain that isn't of kind lower.
pub fn not_lower_output(alloc: Global) -> Result<Output, NoMemory>
    ensures { IfOk result (λ output. outcome_of output ≡ refused_with not_lower_line) }
{
    Ok(refused(begun(alloc, "no: not a lower chain\n")?))
}

/// The output for a chain that isn't of kind upper.
pub fn not_upper_output(alloc: Global) -> Result<Output, NoMemory>
    ensures { IfOk result (λ output. outcome_of output ≡ refused_with not_upper_line) }
{
    Ok(refused(begun(alloc, "no: not an upper chain\n")?))
}
