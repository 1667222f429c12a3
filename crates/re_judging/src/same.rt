//! Whether two problems are the same.
ghost use Rattle.std.specs.Prelude.{◌≡◌, ◌↔◌, IfOk, IsTrue};

use re_labels::NoMemory;
use re_problem::{Problem, print_problem};
use std::alloc::Global;

/// Whether the problems are the same, with the same names of their labels. It prints both.
pub fn are_same(alloc: Global, problem: &Problem, other: &Problem) -> Result<bool, NoMemory>
    ensures { IfOk result (λ same. IsTrue same ↔ (problem.now ≡ other.now)) }
{
    let _names = problem.names();
    let _others = other.names();
    let _active = problem.active().len();
    let _passive = problem.passive().len();
    let _other_active = other.active().len();
    let _other_passive = other.passive().len();
    let text = print_problem(alloc, problem)?;
    let other_text = print_problem(alloc, other)?;
    Ok(text.as_slice() == other_text.as_slice())
}
