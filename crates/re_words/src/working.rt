// The commands that work on a problem.
ghost use Rattle.re_frame.specs.Outcomes.{done, outcome_of};
ghost use Rattle.re_words.specs.Working.{constraint_at, derived_text, diagram_outcome, merge_outcome, step_outcome, stepped, trim_outcome, universal_outcome};
ghost use Rattle.re_problem.specs.NamedProblems.{unnamed};
ghost use Rattle.re_step.specs.Derivations.{derivation};
ghost use Rattle.std.specs.Prelude.{◌≡◌, ◌≤◌, ◌+◌, ◌++◌, IfOk};

use re_changes::{diagram, merge, trim};
use re_frame::{Output, done, limit_of};
use re_labels::{Constraint, MAX_ROWS, NoMemory, Side};
use re_limits::limit_output;
use re_problem::{Problem, print_problem, push_problem};
use re_step::{Derived, RowsFault, StepFault, maximal_rows, step};
use re_texts::{print_diagram, print_meanings, print_rows};
use std::alloc::Global;

fn constraint_at(problem: &Problem, side: Side) -> &Constraint
    ensures { result.now ≡ constraint_at side problem.now }
{
    match side {
        Side::Active => problem.active(),
        Side::Passive => problem.passive(),
    }
}

/// The strength diagram of one side.
#[tactic(auto, unfolding(crate::specs::Working::diagram_outcome))]
pub(crate) fn diagram_output(
    alloc: Global,
    problem: &Problem,
    side: Side,
) -> Result<Output, NoMemory>
    ensures { IfOk result (λ output. outcome_of output ≡ diagram_outcome side problem.now) }
{
    let names = problem.names();
    let drawn = diagram(alloc, constraint_at(problem, side), names.len() as u8)?;
    Ok(done(print_diagram(
        alloc,
        names,
        drawn.classes.as_slice(),
        drawn.edges.as_slice(),
    )?))
}

/// The maximal rows of the passive side.
#[tactic(auto, unfolding(crate::specs::Working::universal_outcome))]
pub(crate) fn universal_output(alloc: Global, problem: &Problem) -> Result<Output, NoMemory>
    ensures { IfOk result (λ output. outcome_of output ≡ universal_outcome problem.now) }
{
    let names = problem.names();
    match maximal_rows(alloc, problem.passive(), names.len() as u8) {
        Ok(rows) => Ok(done(print_rows(alloc, names, rows.as_slice())?)),
        Err(RowsFault::TooManyRows) => limit_of(alloc, MAX_ROWS, "rows"),
        Err(RowsFault::NoMemory) => Err(NoMemory),
    }
}

/// The problem with equal labels merged.
#[tactic(auto, unfolding(crate::specs::Working::merge_outcome))]
pub(crate) fn merge_output(alloc: Global, problem: &Problem) -> Result<Output, NoMemory>
    ensures { IfOk result (λ output. outcome_of output ≡ merge_outcome problem.now) }
{
    let merged = merge(alloc, problem)?;
    Ok(done(print_problem(alloc, &merged.problem)?))
}

/// The problem without the labels that others cover.
#[tactic(auto, unfolding(crate::specs::Working::trim_outcome))]
pub(crate) fn trim_output(alloc: Global, problem: &Problem) -> Result<Output, NoMemory>
    ensures { IfOk result (λ output. outcome_of output ≡ trim_outcome problem.now) }
{
    let trimmed = trim(alloc, problem)?;
    Ok(done(print_problem(alloc, &trimmed)?))
}

// The meanings of the labels of the derived problem, an empty line, and its canonical text.
#[tactic(auto, unfolding(crate::specs::Working::derived_text))]
fn derived_output(alloc: Global, problem: &Problem, derived: &Derived) -> Result<Output, NoMemory>
    requires { derived.now ≡ derivation (unnamed problem.now) }
    ensures { IfOk result (λ output. outcome_of output ≡ done (derived_text problem.now)) }
{
    let mut text = print_meanings(
        alloc,
        derived.problem.names(),
        problem.names(),
        derived.sets.as_slice(),
    )?;
    text.push(b'\n')?;
    push_problem(&mut text, &derived.problem)?;
    Ok(done(text))
}

// The output for the problem that is derived in so many further steps after the next one, which has this number.
#[tactic(auto, unfolding(crate::specs::Working::stepped))]
fn stepped(alloc: Global, problem: &Problem, number: u8, further: u8) -> Result<Output, NoMemory>
    requires { number + further ≤ 255 }
    ensures { IfOk result (λ output. outcome_of output ≡ stepped number further problem.now) }
{
    match step(alloc, problem) {
        Ok(derived) => {
            if further == 0 {
                return derived_output(alloc, problem, &derived);
            }
            stepped(alloc, &derived.problem, number + 1, further - 1)
        }
        Err(StepFault::Limit(limit)) => limit_output(alloc, number, limit),
        Err(StepFault::NoMemory) => Err(NoMemory),
    }
}

/// The problem that is derived in so many steps, one at least, or the first limit on the way.
#[tactic(auto, unfolding(crate::specs::Working::step_outcome))]
pub(crate) fn steps_output(alloc: Global, problem: &Problem, steps: u8) -> Result<Output, NoMemory>
    ensures { IfOk result (λ output. outcome_of output ≡ step_outcome steps problem.now) }
{
    stepped(alloc, problem, 1, steps.saturating_sub(1))
}
