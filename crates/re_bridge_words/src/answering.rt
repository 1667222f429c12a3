//! What the word `bridge` answers.
ghost use Rattle.re_bridge.specs.Bridges.{has_many_rows};
ghost use Rattle.re_bridge_words.specs.BridgeWords.{BridgeWorth, IsBridgedText, IsLongerText, bridge_outcome, kind_outcome, sound_outcome, text_outcome, upper_outcome};
ghost use Rattle.re_bridge_words.specs.Laws.{NoLonger, NoWorth};
ghost use Rattle.re_cert.specs.Bounds.{last_problem};
ghost use Rattle.re_cert.specs.declared.certificate.Kind.TheVariants.{Fixed};
ghost use Rattle.re_cert.specs.declared.certificate.TheConstants.{MAX_STEPS};
ghost use Rattle.re_chains.specs.Chains.{chain_of};
ghost use Rattle.re_chains.specs.HeldBounds.{held_bound};
ghost use Rattle.re_frame.specs.Outcomes.{outcome_of, refused as refused_with};
ghost use Rattle.re_frame.specs.declared.status.Status.TheVariants.{Done};
ghost use Rattle.re_io.specs.declared.read.TheConstants.{MAX_BYTES};
ghost use Rattle.std.specs.Prelude.{◌≡◌, ◌<◌, ◌≤◌, IfOk, codes, length};

use crate::{bridge_upper, no_law, no_upper_law};
use re_bridge::{BridgeFault, bridge};
use re_cert::{Certificate, Kind, MAX_STEPS};
use re_chains::{
    Chain, LowerChain, UpperChain, certificate_output, chain, judged_chain, next_number, read_two,
};
use re_frame::{Output, begun, fault_output, limit_of, refused, verdict_output};
use re_labels::NoMemory;
use re_limits::limit_output;
use re_problem::{Problem, TextFault};
use re_settings::FitFault;
use re_step::StepLimit;
use std::alloc::Global;

// The name of the line between the chain and the problem.
const TO: &[u8] = b"to";

/// The most tries of each walk: of `bridge` over maps by sets, over maps by rows, and over the sets of an upper step, and of `reduce` over the maps to so many labels.
pub const MAX_TRIES: u32 = 1_000_000;

// What the word gives to a chain of kind lower that has room for a step.
fn found_output(alloc: Global, chain: &LowerChain, to: &Problem) -> Result<Output, NoMemory>
    requires { length chain.now.certificate.steps < MAX_STEPS }
    ensures output { IfOk result (λ output. outcome_of output ≡ bridge_outcome to.now chain.now.certificate) }
    ensures text { IfOk result (λ output. (outcome_of output).status ≡ Done → IsLongerText Kind.Lower to.now chain.now.certificate output.text.items) }
{
    match bridge(alloc, chain, to, MAX_TRIES) {
        Ok(Some(longer)) => certificate_output(alloc, &longer),
        Ok(None) => Ok(refused(begun(alloc, "no\n")?)),
        Err(BridgeFault::TooManyTries) => limit_of(alloc, MAX_TRIES as usize, "tries"),
        Err(BridgeFault::TooManyRows) => {
            limit_output(alloc, next_number(&chain.certificate), StepLimit::Rows)
        }
        Err(BridgeFault::NoMemory) => Err(NoMemory),
    }
}

// What the word gives to a chain of kind lower.
fn lower_output(alloc: Global, chain: &LowerChain, to: &Problem) -> Result<Output, NoMemory>
    ensures output { IfOk result (λ output. outcome_of output ≡ bridge_outcome to.now chain.now.certificate) }
    ensures text { IfOk result (λ output. (outcome_of output).status ≡ Done → IsLongerText Kind.Lower to.now chain.now.certificate output.text.items) }
{
    if chain.certificate.steps().len() < MAX_STEPS {
        found_output(alloc, chain, to)
    } else {
        limit_of(alloc, MAX_STEPS, "steps")
    }
}

// What the word gives to a chain of kind upper that has room for a step.
fn found_upper_output(alloc: Global, chain: &UpperChain, to: &Problem) -> Result<Output, NoMemory>
    requires { length chain.now.certificate.steps < MAX_STEPS }
    ensures output { IfOk result (λ output. outcome_of output ≡ upper_outcome to.now chain.now.certificate) }
    ensures text { IfOk result (λ output. (outcome_of output).status ≡ Done → IsLongerText Kind.Upper to.now chain.now.certificate output.text.items) }
{
    match bridge_upper(alloc, chain, to, MAX_TRIES) {
        Ok(Some(longer)) => certificate_output(alloc, &longer),
        Ok(None) => Ok(refused(begun(alloc, "no\n")?)),
        Err(FitFault::TooManyTries) => limit_of(alloc, MAX_TRIES as usize, "tries"),
        Err(FitFault::NoMemory) => Err(NoMemory),
    }
}

// What the word gives to a chain of kind upper.
fn upper_output(alloc: Global, chain: &UpperChain, to: &Problem) -> Result<Output, NoMemory>
    ensures output { IfOk result (λ output. outcome_of output ≡ upper_outcome to.now chain.now.certificate) }
    ensures text { IfOk result (λ output. (outcome_of output).status ≡ Done → IsLongerText Kind.Upper to.now chain.now.certificate output.text.items) }
{
    if chain.certificate.steps().len() < MAX_STEPS {
        found_upper_output(alloc, chain, to)
    } else {
        limit_of(alloc, MAX_STEPS, "steps")
    }
}

// What the word gives to a chain.
fn chain_output(alloc: Global, chain: &Chain, to: &Problem) -> Result<Output, NoMemory>
    ensures output { IfOk result (λ output. outcome_of output ≡ kind_outcome (held_bound chain.now).kind to.now (held_bound chain.now)) }
    ensures text { IfOk result (λ output. (outcome_of output).status ≡ Done → IsBridgedText to.now (held_bound chain.now) output.text.items) }
{
    match chain {
        Chain::Lower(chain) => lower_output(alloc, chain, to),
        Chain::Upper(chain) => upper_output(alloc, chain, to),
    }
}

// What the word gives to the chain of these steps.
fn sound_output(alloc: Global, chain: Certificate, to: &Problem) -> Result<Output, NoMemory>
    requires { chain.kind ≡ Fixed → ⊥ }
    ensures output { IfOk result (λ output. outcome_of output ≡ sound_outcome to.now chain) }
    ensures text { IfOk result (λ output. (outcome_of output).status ≡ Done → IsBridgedText to.now chain output.text.items) }
{
    match judged_chain(chain) {
        Ok(chain) => chain_output(alloc, &chain, to),
        Err(verdict) => Ok(verdict_output(alloc, verdict)?),
    }
}

// The chain that a bound stands for, in its own memory where that isn't a fixed point.
fn as_chain(alloc: Global, bound: Certificate) -> Result<Certificate, NoMemory>
    ensures { IfOk result (λ chain. chain ≡ chain_of bound) }
{
    match bound.kind() {
        Kind::Fixed => chain(alloc, &bound),
        _ => Ok(bound),
    }
}

// What the word gives to the chain that a bound stands for.
fn bound_output(alloc: Global, bound: Certificate, to: &Problem) -> Result<Output, NoMemory>
    ensures output { IfOk result (λ output. outcome_of output ≡ sound_outcome to.now (chain_of bound)) }
    ensures text { IfOk result (λ output. (outcome_of output).status ≡ Done → IsBridgedText to.now (chain_of bound) output.text.items) }
    ensures no { IfOk result (λ output. outcome_of output ≡ refused_with (codes "no\n") → NoLonger to.now (chain_of bound)) }
{
    let chain = as_chain(alloc, bound)?;
    no_law();
    no_upper_law();
    let last = chain.last();
    let _last = last.names();
    let _to = to.names();
    sound_output(alloc, chain, to)
}

/// What the word gives to a text.
#[tactic(auto, unfolding(crate::specs::BridgeWords::text_outcome))]
pub(crate) fn text_output(alloc: Global, text: &[u8]) -> Result<Output, NoMemory>
    requires { length text.now ≤ MAX_BYTES }
    ensures output { IfOk result (λ output. outcome_of output ≡ text_outcome text.now) }
    ensures text { IfOk result (λ output. (outcome_of output).status ≡ Done → BridgeWorth text.now output.text.items) }
    ensures no { IfOk result (λ output. outcome_of output ≡ refused_with (codes "no\n") → NoWorth text.now) }
{
    match read_two(alloc, TO, text) {
        Ok(texts) => bound_output(alloc, texts.bound, &texts.problem),
        Err(TextFault::Bad(fault)) => Ok(fault_output(alloc, fault)?),
        Err(TextFault::NoMemory) => Err(NoMemory),
    }
}
