//! Texts of a problem and an input problem.
ghost use Rattle.re_settings.specs.GivenTexts.{GivenGives, GivenRefuses};
ghost use Rattle.re_io.specs.declared.read.TheConstants.{MAX_BYTES};
ghost use Rattle.re_chains.specs.TwoTexts.{has_line};
ghost use Rattle.std.specs.Prelude.{◌≡◌, ◌≤◌, codes, false, length};

use re_chains::{cut_at, read_problem_at};
use re_problem::{InputFault, Problem, TextFault};
use std::alloc::Global;

/// The name of the line in front of an input problem.
pub const GIVEN: &[u8] = b"given";

/// A problem, and the problem behind it of which a solution is given.
#[derive(Drop)]
pub struct GivenTexts {
    /// The problem in front of the line.
    pub problem: Problem,
    /// The problem behind it; whether it is an input problem of the first one isn't asked.
    pub input: Problem,
}

// The fault of a text without the line.
#[tactic(auto, unfolding(crate::specs::GivenTexts::given_fault))]
fn end_fault(alloc: Global, text: &[u8]) -> TextFault
    requires few { length text.now ≤ MAX_BYTES }
    requires none { has_line (codes "given") text.now ≡ false }
    ensures { GivenRefuses text.now result }
{
    match read_problem_at(alloc, 0, 1, text) {
        Ok(_) => TextFault::Bad(InputFault::EarlyEnd),
        Err(fault) => fault,
    }
}

/// The problem and the input problem that a text writes, with a line `== given` between them. `Bad` comes exactly where the text has a
/// fault, with its first one; a section line in front of that line is one, so a certificate is none of these texts.
pub fn read_given(alloc: Global, text: &[u8]) -> Result<GivenTexts, TextFault>
    requires { length text.now ≤ MAX_BYTES }
    ensures { GivenGives text.now result }
{
    let Some(cut) = cut_at(GIVEN, text) else {
        return Err(end_fault(alloc, text));
    };
    let problem = match read_problem_at(alloc, 0, 1, cut.front) {
        Ok(problem) => problem,
        Err(fault) => return Err(fault),
    };
    match read_problem_at(alloc, cut.byte, cut.number, cut.behind) {
        Ok(input) => Ok(GivenTexts { problem, input }),
        Err(fault) => Err(fault),
    }
}
