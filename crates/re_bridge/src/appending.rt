//! A step behind the steps of a chain, with the maps of all in one form.
ghost use Rattle.re_bridge.specs.Bridged.{in_one_form};
ghost use Rattle.re_cert.specs.Bounds.{has_row_maps as have_row_maps, is_by_row as is_map_by_row, last_problem, one_form, step_fits};
ghost use Rattle.re_chains.specs.Chains.{IsSound, chain_kind, chain_with};
ghost use Rattle.re_shaping.specs.RowForms.{step_by_rows as rows_of_step};
ghost use Rattle.re_check.specs.Clauses.{step_fault};
ghost use Rattle.std.specs.Prelude.{◌≡◌, ◌<◌, ◌||◌, ◌++◌, ◌∷◌, [], IfOk, None, length, true};

use re_cert::{Certificate, Kind, MAX_STEPS, Step, is_by_row};
use re_chains::{LowerChain, copied_step, copied_steps, have_row_maps};
use re_labels::NoMemory;
use re_problem::Problem;
use re_shaping::by_rows;
use std::alloc::Global;

// Whether some step of the chain has a map by rows, or this step.
fn has_row_maps(chain: &Certificate, step: &Step) -> bool
    ensures { result ≡ (have_row_maps chain.now.steps || is_map_by_row step.now.map) }
{
    have_row_maps(chain.steps()) || is_by_row(step)
}

// The chain of this one step.
fn single(alloc: Global, before: &Problem, step: Step) -> Result<Certificate, NoMemory>
    requires fits { step_fits Kind.Lower before.now step ≡ true }
    ensures { IfOk result (λ chain. chain ≡ chain_with Kind.Lower before.now (step ∷ [])) }
{
    let first = before.copy()?;
    let mut steps = Vec::new(alloc);
    steps.push(step)?;
    match Certificate::build(Kind::Lower, 0, first, steps, Vec::new(alloc)) {
        Some(chain) => Ok(chain),
        None => unreachable!(),
    }
}

// The step with its map by rows.
fn in_rows(alloc: Global, before: &Problem, step: Step) -> Result<Step, NoMemory>
    requires fits { step_fits Kind.Lower before.now step ≡ true }
    requires meets { step_fault before.now step ≡ None }
    ensures { IfOk result (λ s. s ≡ rows_of_step step) }
{
    let chain = single(alloc, before, step)?;
    let written = by_rows(alloc, &chain)?;
    match written.steps().first() {
        Some(step) => copied_step(alloc, step),
        None => unreachable!(),
    }
}

/// The chain of this kind with this step more, which fits its last problem and meets its clauses, and whose map has the form of the
/// others. It copies the steps.
pub fn appended(
    alloc: Global,
    kind: Kind,
    chain: &Certificate,
    step: Step,
) -> Result<Certificate, NoMemory>
    requires kind { chain.now.kind ≡ kind }
    requires open { chain_kind kind ≡ kind }
    requires sound { IsSound chain.now }
    requires room { length chain.now.steps < MAX_STEPS }
    requires fits { step_fits kind (last_problem chain.now) step ≡ true }
    requires meets { step_fault (last_problem chain.now) step ≡ None }
    requires form { one_form (chain.now.steps ++ step ∷ []) ≡ true }
    ensures chain { IfOk result (λ longer. longer ≡ chain_with kind chain.now.first (chain.now.steps ++ step ∷ [])) }
    ensures sound { IfOk result (λ longer. IsSound longer) }
{
    let _kind = chain.kind();
    let first = chain.first().copy()?;
    let mut steps = copied_steps(alloc, chain.steps())?;
    steps.push(step)?;
    match Certificate::build(kind, 0, first, steps, Vec::new(alloc)) {
        Some(longer) => Ok(longer),
        None => unreachable!(),
    }
}

/// The chain of kind lower with this step more, which fits its last problem and meets its clauses, and with the maps of all steps in one
/// form: where some map is by rows, the others are written by rows. It copies the steps.
pub(crate) fn with_step(
    alloc: Global,
    chain: &LowerChain,
    step: Step,
) -> Result<Certificate, NoMemory>
    requires room { length chain.now.certificate.steps < MAX_STEPS }
    requires fits { step_fits Kind.Lower (last_problem chain.now.certificate) step ≡ true }
    requires meets { step_fault (last_problem chain.now.certificate) step ≡ None }
    ensures chain { IfOk result (λ longer. longer ≡ chain_with Kind.Lower chain.now.certificate.first (in_one_form (chain.now.certificate.steps ++ step ∷ []))) }
    ensures sound { IfOk result (λ longer. IsSound longer) }
{
    let chain = &chain.certificate;
    let _kind = chain.kind();
    if has_row_maps(chain, &step) {
        let rows = by_rows(alloc, chain)?;
        let step = in_rows(alloc, chain.last(), step)?;
        return appended(alloc, Kind::Lower, &rows, step);
    }
    appended(alloc, Kind::Lower, chain, step)
}
