//! A problem, printed and read.
ghost use Rattle.re_texts.specs.CanonicalLines.{IsWithinLimits};
ghost use Rattle.re_io.specs.declared.read.TheConstants.{MAX_BYTES};
ghost use Rattle.re_problem.specs.CanonicalTexts.{canonical};
ghost use Rattle.re_problem.specs.NamedProblems.{IsNamedProblem};
ghost use Rattle.re_problem.specs.ProblemTexts.{first_fault, lines_of, problem_of};
ghost use Rattle.std.specs.Prelude.{◌≡◌, ◌<◌, ◌≤◌, IfOk, MatchOption, None, length};

use re_io::MAX_BYTES;
use re_labels::NoMemory;
use re_problem::{Problem, TextFault, print_problem, read_problem};
use std::alloc::Global;

/// That a problem has no more configurations than constraints may have.
pub fn limits(problem: &Problem)
    ensures named { IsNamedProblem problem.now }
    ensures within { IsWithinLimits problem.now }
{
    let _active = problem.active().len();
    let _passive = problem.passive().len();
}

// The canonical text of a problem, which has no fault and is read as the problem.
fn readable(alloc: Global, problem: &Problem) -> Result<Vec<u8>, NoMemory>
    ensures text { IfOk result (λ text. text.items ≡ canonical problem.now) }
    ensures right { IfOk result (λ text. first_fault 0 1 (lines_of text.items) ≡ None) }
    ensures read { IfOk result (λ text. problem_of (lines_of text.items) ≡ problem.now) }
{
    limits(problem);
    let text = print_problem(alloc, problem)?;
    Ok(text)
}

/// The problem that the canonical text of this one writes, which is this one: its names, its configurations and its degrees; or None
/// exactly where that text has more than `MAX_BYTES` bytes and so can't be read. It prints the problem and reads the text, and costs
/// what the two cost.
pub fn read_problem_back(alloc: Global, problem: &Problem) -> Result<Option<Problem>, NoMemory>
    ensures { IfOk result (λ read. MatchOption read (MAX_BYTES < length (canonical problem.now)) (λ again. (length (canonical problem.now) ≤ MAX_BYTES) × (again ≡ problem.now))) }
{
    let text = readable(alloc, problem)?;
    if text.len() > MAX_BYTES {
        return Ok(None);
    }
    match read_problem(alloc, &text) {
        Ok(read) => Ok(Some(read)),
        Err(TextFault::NoMemory) => Err(NoMemory),
        Err(TextFault::Bad(_)) => unreachable!(),
    }
}
