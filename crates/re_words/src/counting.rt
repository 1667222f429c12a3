// The command `rounds`.
ghost use Rattle.re_words.specs.Counting.{rounds_line, rounds_outcome};
ghost use Rattle.re_frame.specs.Outcomes.{outcome_of};
ghost use Rattle.std.specs.Prelude.{◌≡◌, IfOk, string_bytes};

use re_frame::{Output, done};
use re_labels::NoMemory;
use re_limits::limit_output;
use re_problem::Problem;
use re_search::types::Rounds;
use re_search::{RoundsFault, rounds};
use std::alloc::{AllocError, Global};

fn line_of(alloc: Global, answer: Rounds) -> Result<String, AllocError>
    ensures { IfOk result (λ text. string_bytes text ≡ rounds_line answer) }
{
    match answer {
        Rounds::Exactly(number) => format!(in alloc; "exactly {number}\n"),
        Rounds::MoreThan(number) => format!(in alloc; "more than {number}\n"),
    }
}

/// The number of rounds, where it is no more than so many, or the first limit on the way.
#[tactic(auto, unfolding(crate::specs::Counting::rounds_outcome))]
pub(crate) fn rounds_output(alloc: Global, problem: &Problem, most: u8) -> Result<Output, NoMemory>
    ensures { IfOk result (λ output. outcome_of output ≡ rounds_outcome most problem.now) }
{
    match rounds(alloc, problem, most) {
        Ok(answer) => Ok(done(line_of(alloc, answer)?.into_bytes())),
        Err(RoundsFault::StepLimit { step, limit }) => limit_output(alloc, step, limit),
        Err(RoundsFault::NoMemory) => Err(NoMemory),
    }
}
