//! A chain of kind lower led on to a given problem.
ghost use Rattle.re_bridge.specs.Bridges.{bridge_of, cut_off, has_many_rows};
ghost use Rattle.re_bridge.specs.Bridged.{IsBridged, in_one_form};
ghost use Rattle.re_cert.specs.Bounds.{last_problem, step_fits, step_with};
ghost use Rattle.re_chains.specs.Chains.{IsSoundChain, chain_with};
ghost use Rattle.re_check.specs.Clauses.{step_fault};
ghost use Rattle.std.specs.Prelude.{◌≡◌, ◌<◌, ◌++◌, ◌∷◌, [], Err, IfOk, None, false, length, true};

use crate::appending::with_step;
use crate::finding::{BridgeFault, find_bridge};
use re_cert::{Certificate, Kind, MAX_STEPS, Step, StepParts};
use re_chains::{LowerChain, over_problems};
use re_labels::NoMemory;
use re_problem::Problem;
use std::alloc::Global;

// The chain with the step to the next problem that has these parts.
fn over(
    alloc: Global,
    chain: &LowerChain,
    next: &Problem,
    parts: StepParts,
) -> Result<Certificate, NoMemory>
    requires room { length chain.now.certificate.steps < MAX_STEPS }
    requires fits { step_fits Kind.Lower (last_problem chain.now.certificate) (step_with next.now parts) ≡ true }
    requires meets { step_fault (last_problem chain.now.certificate) (step_with next.now parts) ≡ None }
    ensures chain { IfOk result (λ longer. longer ≡ chain_with Kind.Lower chain.now.certificate.first (in_one_form (chain.now.certificate.steps ++ step_with next.now parts ∷ []))) }
    ensures sound { IfOk result IsSoundChain }
{
    let next = next.copy()?;
    let longer = with_step(alloc, chain, Step { next, parts })?;
    over_problems(&longer);
    let _kind = longer.kind();
    Ok(longer)
}

/// The chain with one step more, to the next problem, by the map that `find_bridge` finds from its last problem: by sets,
/// else by rows. The maps of all its steps have one form: where some are by rows, the others are written by rows. None exactly where
/// there is no such map. The chain has fewer than `re_cert::MAX_STEPS` steps; with the step it is sound, too.
/// `TooManyTries` and `TooManyRows` come as `find_bridge` tells. Beside what that costs, the steps are copied.
pub fn bridge(
    alloc: Global,
    chain: &LowerChain,
    next: &Problem,
    tries: u32,
) -> Result<Option<Certificate>, BridgeFault>
    requires { length chain.now.certificate.steps < MAX_STEPS }
    ensures bridged { IfOk result (IsBridged chain.now.certificate next.now tries) }
    ensures few { IfOk result (λ _. has_many_rows (last_problem chain.now.certificate) next.now ≡ false) }
    ensures tries { result ≡ Err BridgeFault.TooManyTries → (bridge_of (last_problem chain.now.certificate) next.now tries ≡ cut_off) × (has_many_rows (last_problem chain.now.certificate) next.now ≡ false) }
    ensures rows { result ≡ Err BridgeFault.TooManyRows → has_many_rows (last_problem chain.now.certificate) next.now ≡ true }
{
    let last = chain.certificate.last();
    let _last = last.names();
    let _next = next.names();
    match find_bridge(alloc, last, next, tries)? {
        Some(parts) => Ok(Some(over(alloc, chain, next, parts)?)),
        None => Ok(None),
    }
}
