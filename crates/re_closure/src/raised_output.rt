//! What the word gives to a chain with a diagram.
ghost use Rattle.re_cert.specs.Bounds.{is_bound, last_problem};
ghost use Rattle.re_cert.specs.declared.certificate.Kind.TheVariants.{Lower};
ghost use Rattle.re_shaping.specs.Relaxing.{relaxed_limit};
ghost use Rattle.re_chains.specs.Chains.{chain_with};
ghost use Rattle.re_shaping.specs.declared.stepping.ChainStepFault.TheVariants as why;
ghost use Rattle.re_shaping.specs.declared.stepping.ChainStepFault.{ChainStepFault as WhyNoStep};
ghost use Rattle.re_closure.specs.Closures.{HasRoom};
ghost use Rattle.re_closure.specs.ClosureWords.{MayFindRaisedWithin};
ghost use Rattle.re_closure.specs.DiagramTexts.{AreEdges};
ghost use Rattle.re_closure.specs.Diagrams.{raised};
ghost use Rattle.re_closure.specs.RaisedClosures.{raised_chain, step_to_raised};
ghost use Rattle.re_frame.specs.Outcomes.{outcome_of};
ghost use Rattle.re_labels.specs.Lists.{count_from};
ghost use Rattle.re_labels.specs.declared.TheConstants.{MAX_LABELS};
ghost use Rattle.re_labels.specs.declared.constraint_table.TheConstants.{MAX_CONFIGURATIONS};
ghost use Rattle.std.specs.Prelude.{◌≡◌, ◌≤◌, ◌∷◌, ◌++◌, [], Err, IfOk, None, Some, length, option_map, true};

use crate::answering::stop_output;
use crate::diagrams::raised;
use crate::going_on::closure_output;
use crate::limit_lines::{limit_output, solvable_closure};
use crate::raising::find_raised;
use crate::types::{Closing, ClosureFault};
use arrayvec::ArrayVec;
use re_cert::{Certificate, Kind, Step};
use re_chains::{LowerChain, certificate_output, copied_steps, over_problems};
use re_frame::{Output, solvable_output};
use re_labels::NoMemory;
use re_problem::Problem;
use re_settings::Setting;
use re_shaping::{ChainStepFault, by_rows, relaxed_step};
use re_step::StepFault;
use std::alloc::Global;

// All labels below this number.
fn all_labels(labels: u8) -> ArrayVec<u8, 128>
    requires { labels ≤ MAX_LABELS }
    ensures { result.items ≡ count_from 0 labels }
{
    let mut all = ArrayVec::new();
    for label in 0..labels {
        all.push(label);
    }
    all
}

// The step from a problem to the derived problem of the one that the edges raise, which has few passive configurations.
fn derived_step(
    alloc: Global,
    problem: &Problem,
    edges: &[(u8, u8)],
) -> Result<Step, ChainStepFault>
    requires edges { AreEdges (length problem.now.names) edges.now }
    requires few { length (raised edges.now problem.now).passive.configs ≤ MAX_CONFIGURATIONS }
    ensures step { IfOk result (λ s. s ≡ step_to_raised edges.now problem.now) }
    ensures none { IfOk result (λ _. relaxed_limit problem.now (raised edges.now problem.now) ≡ None) }
    ensures stop { (fault : WhyNoStep) → result ≡ Err fault → (fault ≡ ChainStepFault.NoMemory → ⊥) →
        option_map why.Limit (relaxed_limit problem.now (raised edges.now problem.now)) ≡ Some fault }
{
    let raised = match raised(alloc, problem, edges) {
        Ok(raised) => raised,
        Err(ClosureFault::Limit(_)) => unreachable!(),
        Err(ClosureFault::NoMemory) => return Err(ChainStepFault::NoMemory),
    };
    let labels = all_labels(problem.names().len() as u8);
    match relaxed_step(alloc, problem, &raised, labels.as_slice()) {
        Ok(step) => Ok(step),
        Err(StepFault::Limit(limit)) => Err(ChainStepFault::Limit(limit)),
        Err(StepFault::NoMemory) => Err(ChainStepFault::NoMemory),
    }
}

// The chain with this step more.
fn with_step(alloc: Global, chain: &Certificate, step: Step) -> Result<Certificate, NoMemory>
    requires { is_bound (chain_with Lower chain.now.first (chain.now.steps ++ step ∷ [])) ≡ true }
    ensures { IfOk result (λ next. next ≡ chain_with Lower chain.now.first (chain.now.steps ++ step ∷ [])) }
{
    let first = chain.first().copy()?;
    let mut steps = copied_steps(alloc, chain.steps())?;
    steps.push(step)?;
    match Certificate::build(Kind::Lower, 0, first, steps, Vec::new(alloc)) {
        Some(next) => Ok(next),
        None => unreachable!(),
    }
}

// The chain, its maps by rows, with the step to the derived problem of the raised problem.
fn next_raised(
    alloc: Global,
    chain: &LowerChain,
    edges: &[(u8, u8)],
) -> Result<LowerChain, ChainStepFault>
    requires room { HasRoom chain.now.certificate }
    requires edges { AreEdges (length (last_problem chain.now.certificate).names) edges.now }
    requires few { length (raised edges.now (last_problem chain.now.certificate)).passive.configs ≤ MAX_CONFIGURATIONS }
    ensures chain { IfOk result (λ next. next.certificate ≡ raised_chain edges.now chain.now.certificate) }
    ensures none { IfOk result (λ _. relaxed_limit (last_problem chain.now.certificate) (raised edges.now (last_problem chain.now.certificate)) ≡ None) }
    ensures stop { (fault : WhyNoStep) → result ≡ Err fault → (fault ≡ ChainStepFault.NoMemory → ⊥) →
        option_map why.Limit (relaxed_limit (last_problem chain.now.certificate) (raised edges.now (last_problem chain.now.certificate))) ≡ Some fault }
{
    let chain = &chain.certificate;
    over_problems(chain);
    let _steps = chain.steps();
    let step = match derived_step(alloc, chain.last(), edges) {
        Ok(step) => step,
        Err(fault) => return Err(fault),
    };
    let Ok(written) = by_rows(alloc, chain) else {
        return Err(ChainStepFault::NoMemory);
    };
    match with_step(alloc, &written, step) {
        Ok(next) => Ok(LowerChain::new(next)),
        Err(NoMemory) => Err(ChainStepFault::NoMemory),
    }
}

/// What the word gives to a chain of kind lower with a diagram of its last problem: the fixed point of the closure of the problem that
/// the diagram raises, or where that is solvable without communication, what it gives without a diagram, with one step less, to the
/// chain with the step to the derived problem of the raised problem.
pub(crate) fn raised_output(
    alloc: Global,
    chain: &LowerChain,
    edges: &[(u8, u8)],
    more: u8,
) -> Result<Output, NoMemory>
    requires { AreEdges (length (last_problem chain.now.certificate).names) edges.now }
    ensures { IfOk result (λ output. MayFindRaisedWithin more edges.now chain.now.certificate (outcome_of output)) }
{
    let sets = match find_raised(alloc, chain, edges) {
        Ok(Closing::Found(certificate)) => return certificate_output(alloc, &certificate),
        Ok(Closing::Solvable(place)) => {
            return solvable_output(alloc, chain.certificate.last(), place);
        }
        Ok(Closing::SolvableClosure(sets)) => sets,
        Err(ClosureFault::Limit(limit)) => return limit_output(alloc, limit),
        Err(ClosureFault::NoMemory) => return Err(NoMemory),
    };
    if more == 0 {
        return solvable_closure(alloc, chain.certificate.last(), sets.as_slice());
    }
    match next_raised(alloc, chain, edges) {
        Ok(next) => closure_output(alloc, &Setting::Alone, &next, more - 1),
        Err(fault) => stop_output(alloc, chain.certificate.steps().len() as u8 + 1, fault),
    }
}
