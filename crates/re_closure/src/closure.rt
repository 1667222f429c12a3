//! The closure of a problem, and the problem between.
ghost use Rattle.re_closure.specs.Closed.{Computes, IsClosureOf, IsSide, SidePasses};
ghost use Rattle.re_closure.specs.Limits.{PassesLimit};
ghost use Rattle.re_closure.specs.Sides.{family_of};
ghost use Rattle.re_labels.specs.declared.TheConstants.{MAX_ROWS};
ghost use Rattle.re_closure_laws.specs.Closures.{AreClosure};
ghost use Rattle.re_closure_laws.specs.Lines.{AreApart, IsFamily};
ghost use Rattle.re_problem.specs.NamedProblems.{IsNamedProblem, unnamed};
ghost use Rattle.re_step.specs.LabelNames.{label_names};
ghost use Rattle.re_closure.specs.ProblemFamilies.{active_family, passive_family};
ghost use Rattle.std.specs.Prelude.{◌≡◌, ◌≤◌, Err, IfOk, length};

use crate::constraints::{below_of, topmost_of};
use crate::families::{Families, all_others, closure_families};
use crate::line::SetLine;
use crate::occurring::map_of;
use crate::rows::maximal_of;
use crate::sets::all_within;
use crate::topmost::LinesFault;
use crate::types::{ClosureFault, ClosureLimit, StepMap};
use re_labels::{Constraint, LabelSet, MAX_LABELS, NoMemory};
use re_problem::Problem;
use re_step::{AllowedFault, names_of};
use std::alloc::Global;

/// One side of a closure.
#[derive(Drop)]
pub(crate) struct Side {
    /// The lines that no other dominates, as configurations.
    topmost: Constraint,
    /// All configurations below them.
    below: Constraint,
    /// The maximal rows of these, and where their sets go.
    map: StepMap,
}

/// The closure of a problem, with what its labels stand for.
#[derive(Drop)]
pub(crate) struct Closure {
    /// The right-closed sets that its labels stand for, in the order of their numbers.
    pub(crate) sets: Vec<LabelSet>,
    /// The closure: as active configurations those of the closed active constraint that no other dominates, as passive ones the whole
    /// closed passive constraint.
    pub(crate) closed: Problem,
    /// The problem between, with the sides exchanged: as active configurations those of the closed passive constraint that no other
    /// dominates, as passive ones the whole closed active constraint.
    pub(crate) between: Problem,
    /// The map of the step from the problem between to the closure.
    pub(crate) out: StepMap,
    /// The map of the step back.
    pub(crate) back: StepMap,
}

// The side of these lines.
fn side_of(
    alloc: Global,
    degree: u8,
    lines: &[SetLine],
    sets: &[LabelSet],
) -> Result<Side, ClosureFault>
    requires family { IsFamily (family_of degree lines.now sets.now) }
    requires apart { AreApart lines.now }
    requires few { length sets.now ≤ MAX_LABELS }
    requires few_lines { length lines.now ≤ MAX_ROWS }
    ensures side { IfOk result (IsSide (family_of degree lines.now sets.now)) }
    ensures limit { (passed : ClosureLimit) → result ≡ Err (ClosureFault.Limit passed) → SidePasses (family_of degree lines.now sets.now) passed }
{
    let topmost = topmost_of(alloc, degree, lines, sets)?;
    let below = match below_of(alloc, &topmost, lines, sets) {
        Ok(below) => below,
        Err(AllowedFault::TooManyConfigurations) => {
            return Err(ClosureFault::Limit(ClosureLimit::Configurations));
        }
        Err(AllowedFault::NoMemory) => return Err(ClosureFault::NoMemory),
    };
    let within = all_within(alloc, sets)?;
    let rows = maximal_of(alloc, degree, lines, sets)?;
    let map = map_of(alloc, &below, sets.len() as u8, within.as_slice(), rows)?;
    Ok(Side {
        topmost,
        below,
        map,
    })
}

// The problem of these constraints, which is one with the names of so many labels.
fn named(
    alloc: Global,
    active: Constraint,
    passive: Constraint,
    labels: u8,
) -> Result<Problem, NoMemory>
    requires labels { labels ≤ MAX_LABELS }
    requires named { IsNamedProblem (record { names = label_names labels; active = active; passive = passive }) }
    ensures { IfOk result (λ problem. problem ≡ record { names = label_names labels; active = active; passive = passive }) }
{
    let names = names_of(alloc, labels)?;
    match Problem::build(active, passive, names) {
        Some(problem) => Ok(problem),
        None => unreachable!(),
    }
}

// The closure of these families, with at most `MAX_LABELS` labels.
fn closure_with(
    alloc: Global,
    problem: &Problem,
    families: Families,
) -> Result<Closure, ClosureFault>
    requires closure { AreClosure (unnamed problem.now) (active_family problem.now families) (passive_family problem.now families) }
    requires few { length families.sets.items ≤ MAX_LABELS }
    requires few_passive { length families.passive.items ≤ MAX_ROWS }
    requires few_active { length families.active.items ≤ MAX_ROWS }
    ensures closure { IfOk result (Computes (unnamed problem.now) (active_family problem.now families) (passive_family problem.now families)) }
    ensures limit { (passed : ClosureLimit) → result ≡ Err (ClosureFault.Limit passed) → PassesLimit (unnamed problem.now) passed }
{
    let degrees = problem.degrees();
    let labels = families.sets.len() as u8;
    let sets = families.sets.as_slice();
    let left = all_others(alloc, problem.names().len() as u8, sets)?;
    let passive = side_of(alloc, degrees.passive, families.passive.as_slice(), sets)?;
    let active = side_of(
        alloc,
        degrees.active,
        families.active.as_slice(),
        left.as_slice(),
    )?;
    let closed = named(alloc, active.topmost, passive.below, labels)?;
    let between = named(alloc, passive.topmost, active.below, labels)?;
    Ok(Closure {
        sets: families.sets,
        closed,
        between,
        out: active.map,
        back: passive.map,
    })
}

/// The closure of the problem, or the first limit that it passes.
pub(crate) fn closure_of(alloc: Global, problem: &Problem) -> Result<Closure, ClosureFault>
    ensures closure { IfOk result (IsClosureOf (unnamed problem.now)) }
    ensures limit { (passed : ClosureLimit) → result ≡ Err (ClosureFault.Limit passed) → PassesLimit (unnamed problem.now) passed }
{
    let families = match closure_families(alloc, problem) {
        Ok(families) => families,
        Err(LinesFault::TooManyLines) => return Err(ClosureFault::Limit(ClosureLimit::Rows)),
        Err(LinesFault::TooManyCombinations) => {
            return Err(ClosureFault::Limit(ClosureLimit::Combinations));
        }
        Err(LinesFault::NoMemory) => return Err(ClosureFault::NoMemory),
    };
    let labels = families.sets.len();
    if labels > MAX_LABELS as usize {
        return Err(ClosureFault::Limit(ClosureLimit::Labels(labels)));
    }
    closure_with(alloc, problem, families)
}
