//! The lines of the word.
ghost use Rattle.re_closure.specs.declared.types.ClosureLimit.TheVariants.{Configurations, Labels, Rows, Steps};
ghost use Rattle.re_closure.specs.Closures.{AreNamed};
ghost use Rattle.re_closure.specs.ClosureWords.{closure_line, limit_line};
ghost use Rattle.re_frame.specs.Outcomes.{limit as limited_by, outcome_of, refused as refused_with};
ghost use Rattle.std.specs.Prelude.{◌≡◌, ◌++◌, IfOk};

use crate::ClosureLimit;
use crate::said_sets::push_sets;
use re_cert::MAX_STEPS;
use re_frame::{Output, begun, limit_of, limited, push_number, push_words, refused};
use re_labels::{LabelSet, NoMemory};
use re_problem::Problem;
use std::alloc::Global;

/// The line for a problem whose closure is solvable without communication, as the configuration with these sets as labels shows.
pub(crate) fn solvable_closure(
    alloc: Global,
    problem: &Problem,
    sets: &[LabelSet],
) -> Result<Output, NoMemory>
    requires { AreNamed problem.now sets.now }
    ensures { IfOk result (λ output. outcome_of output ≡ refused_with (closure_line problem.now sets.now)) }
{
    let mut text = begun(alloc, "not found: solvable without communication: ")?;
    push_sets(alloc, &mut text, problem.names(), sets)?;
    push_words(&mut text, "\n")?;
    Ok(refused(text))
}

// The line for more labels than a problem may have.
fn labels_line(alloc: Global, count: usize) -> Result<Vec<u8>, NoMemory>
    ensures { IfOk result (λ text. text.items ≡ limit_line (Labels count)) }
{
    let mut text = begun(alloc, "limit: closure: more than 128 labels: ")?;
    push_number(alloc, &mut text, count)?;
    push_words(&mut text, "\n")?;
    Ok(text)
}

/// The output for a limit that the closure passes.
pub(crate) fn limit_output(alloc: Global, limit: ClosureLimit) -> Result<Output, NoMemory>
    ensures { IfOk result (λ output. outcome_of output ≡ limited_by (limit_line limit)) }
{
    let text = match limit {
        ClosureLimit::Rows => begun(alloc, "limit: closure: more than 1024 rows\n")?,
        ClosureLimit::Combinations => {
            begun(alloc, "limit: closure: more than 1048576 combinations\n")?
        }
        ClosureLimit::Labels(count) => labels_line(alloc, count)?,
        ClosureLimit::Configurations => {
            begun(alloc, "limit: closure: more than 1048576 configurations\n")?
        }
        ClosureLimit::Steps => return limit_of(alloc, MAX_STEPS, "steps"),
    };
    Ok(limited(text))
}
