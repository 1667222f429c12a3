//! One derived step more.
ghost use Rattle.re_cert.specs.Bounds.{has_row_maps as have_row_maps, is_lower, map_of};
ghost use Rattle.re_chains.specs.Chains.{IsSound, IsSoundChain};
ghost use Rattle.re_shaping.specs.RowForms.{map_by_rows, step_by_rows as rows_of_step};
ghost use Rattle.re_shaping.specs.declared.stepping.ChainStepFault.{ChainStepFault as WhyNoStep};
ghost use Rattle.re_shaping.specs.Stepped.{derived_step as step_of_problem, next_step, own_entries as entries_of_sets, stepped, stepping_fault};
ghost use Rattle.re_check.specs.StepClauses.{HasRowSets};
ghost use Rattle.re_problem.specs.NamedProblems.{unnamed};
ghost use Rattle.re_problem.specs.Steps.LowerMap.{by_set};
ghost use Rattle.re_step.specs.Derivations.{derivation, step_limit};
ghost use Rattle.re_step.specs.declared.derivation.StepLimit.{StepLimit as Passed};
ghost use Rattle.std.specs.Prelude.{◌≡◌, ◌≤◌, Err, IfOk, None, Some, if◌then◌else◌, length};

use crate::building::built;
use crate::row_form::row_form;
use re_cert::{Certificate, Kind, LowerMap, MAX_STEPS, SetEntry, Step, StepParts, has_lower_steps};
use re_chains::{LowerChain, chain_kind, copied_steps, have_row_maps, over_problems};
use re_labels::{LabelSet, MAX_LABELS, NoMemory, Row};
use re_problem::Problem;
use re_step::{Derived, StepFault, StepLimit, step as derive};
use std::alloc::Global;

/// Why a chain has no step more.
#[derive(Clone, Copy, Debug, PartialEq, Eq)]
pub enum ChainStepFault {
    /// It has `re_cert::MAX_STEPS` steps already.
    TooManySteps,
    /// The derived problem of its last problem passes this limit, the first one in the order of `StepLimit`.
    Limit(StepLimit),
    /// There was no memory.
    NoMemory,
}

impl From<NoMemory> for ChainStepFault {
    ghost use Rattle.re_shaping.specs.declared.stepping.ChainStepFault.TheVariants.{NoMemory as no_memory};

    ghost from_gives = { λ _ e. e ≡ no_memory };

    fn from(_: NoMemory) -> Self {
        ChainStepFault::NoMemory
    }
}

impl From<StepFault> for ChainStepFault {
    ghost use Rattle.re_shaping.specs.Stepped.{fault_of_step};

    ghost from_gives = { λ fault e. e ≡ fault_of_step fault };

    fn from(fault: StepFault) -> Self {
        match fault {
            StepFault::Limit(limit) => ChainStepFault::Limit(limit),
            StepFault::NoMemory => ChainStepFault::NoMemory,
        }
    }
}

// Each set with its own label, which is its place.
fn own_entries(alloc: Global, sets: &[LabelSet]) -> Result<Vec<SetEntry>, NoMemory>
    requires { length sets.now ≤ MAX_LABELS }
    ensures { IfOk result (λ entries. entries.items ≡ entries_of_sets 0 sets.now) }
{
    let mut entries = Vec::new(alloc);
    for (place, set) in sets.iter().enumerate() {
        entries.push(SetEntry {
            set: *set,
            label: place as u8,
        })?;
    }
    Ok(entries)
}

/// The map of a lower step with these rows and entries, which have the sets of the rows: by rows where that is asked. A set of a row then
/// takes about log n comparisons, where n sets have entries.
pub fn lower_map(
    alloc: Global,
    by_row: bool,
    rows: &[Row],
    entries: Vec<SetEntry>,
) -> Result<LowerMap, NoMemory>
    requires { HasRowSets rows.now entries.items }
    ensures { IfOk result (λ map. map_of map ≡ (if by_row then map_by_rows rows.now (by_set entries.items) else by_set entries.items)) }
{
    if by_row {
        let images = row_form(alloc, rows, entries.as_slice())?;
        Ok(LowerMap::ByRow(images))
    } else {
        Ok(LowerMap::BySet(entries))
    }
}

// The step from the problem to this derived problem.
fn step_to_derived(
    alloc: Global,
    kind: Kind,
    by_row: bool,
    problem: &Problem,
    derived: Derived,
) -> Result<Step, NoMemory>
    requires derived { derived ≡ derivation (unnamed problem.now) }
    requires limit { step_limit (unnamed problem.now) ≡ None }
    ensures { IfOk result (λ s. s ≡ (if by_row then rows_of_step (step_of_problem (is_lower kind) problem.now) else step_of_problem (is_lower kind) problem.now)) }
{
    let Derived {
        problem: next,
        sets,
        rows,
    } = derived;
    let entries = own_entries(alloc, sets.as_slice())?;
    if has_lower_steps(kind) {
        let map = lower_map(alloc, by_row, rows.as_slice(), entries)?;
        let parts = StepParts::Lower { rows, map };
        Ok(Step { next, parts })
    } else {
        let parts = StepParts::Upper { map: entries };
        Ok(Step { next, parts })
    }
}

// The chain with this step more.
fn with_step(alloc: Global, certificate: &Certificate, step: Step) -> Result<Certificate, NoMemory>
    requires step { step ≡ next_step certificate.now }
    requires room { stepping_fault certificate.now ≡ None }
    ensures stepped { IfOk result (λ chain. chain ≡ stepped certificate.now) }
    ensures sound { IsSound certificate.now → IfOk result (λ chain. IsSoundChain chain) }
{
    over_problems(certificate);
    let mut steps = copied_steps(alloc, certificate.steps())?;
    steps.push(step)?;
    let first = certificate.first().copy()?;
    let kind = chain_kind(certificate.kind());
    Ok(built(kind, 0, first, steps, Vec::new(alloc)))
}

/// The chain with one step more, to the derived problem of its last problem: a lower step has the maximal rows, and sends each set to
/// its own label; an upper step sends each label to its set. Where the maps of the chain are by rows, so is this one. A certificate of a
/// fixed point stands for that of the lower bound with its steps. A sound chain stays sound.
///
/// It is refused where there are `re_cert::MAX_STEPS` steps already, and else with the limit that the derived problem passes. The cost
/// is that of `re_step::step`, and of a copy of the steps.
pub fn step(alloc: Global, certificate: &Certificate) -> Result<Certificate, ChainStepFault>
    ensures stepped { IfOk result (λ chain. chain ≡ stepped certificate.now) }
    ensures sound { IsSound certificate.now → IfOk result (λ chain. IsSoundChain chain) }
    ensures none { IfOk result (λ _. stepping_fault certificate.now ≡ None) }
    ensures many { result ≡ Err ChainStepFault.TooManySteps → stepping_fault certificate.now ≡ Some ChainStepFault.TooManySteps }
    ensures limit { (limit : Passed) → result ≡ Err (ChainStepFault.Limit limit) → stepping_fault certificate.now ≡ Some (ChainStepFault.Limit limit) }
{
    if certificate.steps().len() >= MAX_STEPS {
        return Err(ChainStepFault::TooManySteps);
    }
    let last = certificate.last();
    let derived = derive(alloc, last)?;
    let by_row = have_row_maps(certificate.steps());
    let step = step_to_derived(alloc, certificate.kind(), by_row, last, derived)?;
    Ok(with_step(alloc, certificate, step)?)
}

/// The same of a chain of kind lower.
pub fn step_lower(alloc: Global, chain: &LowerChain) -> Result<LowerChain, ChainStepFault>
    ensures stepped { IfOk result (λ next. next.certificate ≡ stepped chain.now.certificate) }
    ensures none { IfOk result (λ _. stepping_fault chain.now.certificate ≡ None) }
    ensures stop { (fault : WhyNoStep) → result ≡ Err fault → (fault ≡ ChainStepFault.NoMemory → ⊥) → stepping_fault chain.now.certificate ≡ Some fault }
{
    match step(alloc, &chain.certificate) {
        Ok(next) => Ok(LowerChain::new(next)),
        Err(fault) => Err(fault),
    }
}
