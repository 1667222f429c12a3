//! Certificates of a chain, a step to the problem between, and the steps to a closure and back.
ghost use Rattle.re_cert.specs.Bounds.{is_bound};
ghost use Rattle.re_closure.specs.Closed.{made_bound};
ghost use Rattle.re_check.specs.StepClauses.{HasRowSets};
ghost use Rattle.re_labels.specs.Lists.{count_from};
ghost use Rattle.std.specs.Prelude.{◌≡◌, IfOk, map, true};

use crate::closure::Closure;
use crate::stepping::step_with;
use re_cert::{Certificate, Kind, Step};
use re_chains::copied_steps;
use re_labels::NoMemory;
use std::alloc::Global;

// The renaming of so many labels that changes none.
fn identity(alloc: Global, labels: u8) -> Result<Vec<(u8, u8)>, NoMemory>
    ensures { IfOk result (λ pairs. pairs.items ≡ map (λ label. (label, label)) (count_from 0 labels)) }
{
    let mut pairs = Vec::new(alloc);
    for label in 0..labels {
        pairs.push((label, label))?;
    }
    Ok(pairs)
}

// The steps of the chain, behind them the step to the problem between, and those to the closure and back.
fn steps_by(
    alloc: Global,
    by_rows: bool,
    chain: &Certificate,
    first: Step,
    closure: Closure,
) -> Result<Vec<Step>, NoMemory>
    requires out { HasRowSets closure.out.rows.items closure.out.entries.items }
    requires back { HasRowSets closure.back.rows.items closure.back.entries.items }
    ensures { IfOk result (λ steps. steps.items ≡ (made_bound by_rows chain.now first closure).steps) }
{
    let mut steps = copied_steps(alloc, chain.steps())?;
    steps.push(first)?;
    let out = step_with(alloc, closure.closed, closure.out, by_rows)?;
    steps.push(out)?;
    let back = step_with(alloc, closure.between, closure.back, by_rows)?;
    steps.push(back)?;
    Ok(steps)
}

/// The certificate that goes on from the chain by the step to the problem between, to the closure, and back.
pub(crate) fn certificate_by(
    alloc: Global,
    by_rows: bool,
    chain: &Certificate,
    first: Step,
    closure: Closure,
) -> Result<Certificate, NoMemory>
    requires out { HasRowSets closure.out.rows.items closure.out.entries.items }
    requires back { HasRowSets closure.back.rows.items closure.back.entries.items }
    requires fits { is_bound (made_bound by_rows chain.now first closure) ≡ true }
    ensures { IfOk result (λ made. made ≡ made_bound by_rows chain.now first closure) }
{
    let back = chain.steps().len() as u8 + 1;
    let start = chain.first().copy()?;
    let renaming = identity(alloc, closure.between.names().len() as u8)?;
    let steps = steps_by(alloc, by_rows, chain, first, closure)?;
    match Certificate::build(Kind::Fixed, back, start, steps, renaming) {
        Some(certificate) => Ok(certificate),
        None => unreachable!(),
    }
}
