//! A chain of kind upper led on to a given problem.
ghost use Rattle.re_bridge_words.specs.UpperBridged.{IsUpperBridged, upper_bridged, upper_walk};
ghost use Rattle.re_cert.specs.Bounds.{last_problem, one_form, step_fits, step_with};
ghost use Rattle.re_chains.specs.Chains.{IsSoundChain, chain_with};
ghost use Rattle.re_check.specs.Clauses.{step_fault};
ghost use Rattle.re_settings.specs.Fits.{entries_of};
ghost use Rattle.re_labels.specs.declared.TheConstants.{MAX_LABELS};
ghost use Rattle.re_problem.specs.NamedProblems.{unnamed};
ghost use Rattle.re_problem.specs.Steps.{IsUpperStep};
ghost use Rattle.re_walks.specs.Walking.{cut};
ghost use Rattle.std.specs.Prelude.{◌≡◌, ◌<◌, ◌≤◌, ◌++◌, ◌∷◌, [], Err, IfOk, None, length, true};

use re_bridge::appended;
use re_cert::{Certificate, Kind, MAX_STEPS, SetEntry, Step, StepParts};
use re_chains::{UpperChain, over_problems};
use re_check::{are_exchanged, upper_step_law};
use re_labels::{LabelSet, NoMemory};
use re_problem::Problem;
use re_settings::{FitFault, find_upper};
use std::alloc::Global;

// Each set with the label that is its place.
fn entries_of(alloc: Global, sets: &[LabelSet]) -> Result<Vec<SetEntry>, NoMemory>
    requires { length sets.now ≤ MAX_LABELS }
    ensures { IfOk result (λ entries. entries.items ≡ entries_of sets.now) }
{
    let count = sets.len() as u8;
    let mut entries = Vec::new(alloc);
    for label in 0..count {
        entries.push(SetEntry {
            set: sets[label as usize],
            label,
        })?;
    }
    Ok(entries)
}

// The chain with the step to the next problem by these sets.
fn over(
    alloc: Global,
    chain: &UpperChain,
    next: &Problem,
    sets: &[LabelSet],
) -> Result<Certificate, NoMemory>
    requires room { length chain.now.certificate.steps < MAX_STEPS }
    requires few { length sets.now ≤ MAX_LABELS }
    requires leads { IsUpperStep (unnamed (last_problem chain.now.certificate)) (unnamed next.now) (entries_of sets.now) }
    ensures chain { IfOk result (λ longer. longer ≡ upper_bridged chain.now.certificate next.now sets.now) }
    ensures sound { IfOk result IsSoundChain }
{
    let chain = &chain.certificate;
    upper_step_law();
    let _kind = chain.kind();
    let map = entries_of(alloc, sets)?;
    let next = next.copy()?;
    let parts = StepParts::Upper { map };
    let longer = appended(alloc, Kind::Upper, chain, Step { next, parts })?;
    over_problems(&longer);
    let _kind = longer.kind();
    Ok(longer)
}

/// The chain with one step more, to the next problem, by the sets that `find_upper` of `re_settings` finds for its labels. None exactly where no
/// upper step leads there from the last problem of the chain. The chain has fewer than `re_cert::MAX_STEPS` steps;
/// with the step it is sound, too. `TooManyTries` comes as `find_upper` tells. Beside what that costs, the steps are copied.
pub fn bridge_upper(
    alloc: Global,
    chain: &UpperChain,
    next: &Problem,
    tries: u32,
) -> Result<Option<Certificate>, FitFault>
    requires { length chain.now.certificate.steps < MAX_STEPS }
    ensures bridged { IfOk result (IsUpperBridged chain.now.certificate next.now tries) }
    ensures tries { result ≡ Err FitFault.TooManyTries → upper_walk (last_problem chain.now.certificate) next.now tries ≡ cut }
{
    let last = chain.certificate.last();
    let _next = next.names();
    if !are_exchanged(last, next) {
        return Ok(None);
    }
    match find_upper(alloc, last, next, tries)? {
        Some(sets) => Ok(Some(over(alloc, chain, next, sets.as_slice())?)),
        None => Ok(None),
    }
}
