//! Two labels of the last problem become one.
ghost use Rattle.re_shaping.specs.Chains.{HasLabelsBelow};
ghost use Rattle.re_cert.specs.Bounds.{is_bound};
ghost use Rattle.re_shaping.specs.Merging.{first_merged, merge_limit, merge_numbers, merge_refusal, merged, merged_label, merged_problem, merged_step};
ghost use Rattle.re_shaping.specs.Relaxing.{relaxed_limit};
ghost use Rattle.re_shaping.specs.declared.refusal.Refusal.{Refusal};
ghost use Rattle.re_chains.specs.Chains.{chain_with};
ghost use Rattle.re_changes.specs.Renumbering.{number_among};
ghost use Rattle.re_problem.specs.ItemSteps.{is_nil};
ghost use Rattle.re_labels.specs.Lists.{count_from};
ghost use Rattle.re_step.specs.declared.derivation.StepLimit.{StepLimit as Passed};
ghost use Rattle.std.specs.Prelude.{◌≡◌, ◌≢◌, ◌<◌, ◌≤◌, ◌∷◌, [], Err, IfOk, None, Some, false, length, map, true};

use crate::last_step::with_last;
use crate::merge_law;
use crate::refusal::{MergeFault, Refusal};
use crate::relaxing::relaxed_step;
use crate::sending::step_along;
use arrayvec::ArrayVec;
use re_cert::{Certificate, Kind, Step};
use re_chains::{LowerChain, chain_kind, over_problems};
use re_changes::{all_but, number_among, renumbered};
use re_labels::{MAX_LABELS, NoMemory};
use re_problem::Problem;
use re_step::StepFault;
use std::alloc::Global;

// What a label becomes where one label becomes another.
fn merged_label(from: u8, to: u8, label: u8) -> u8
    ensures { result ≡ merged_label from to label }
{
    if label == from { to } else { label }
}

// The new numbers of all labels below this number, where these stay.
fn numbers_among(stay: &[u8], from: u8, to: u8, labels: u8) -> ArrayVec<u8, 128>
    requires stay { length stay.now ≤ MAX_LABELS }
    requires labels { labels ≤ MAX_LABELS }
    ensures { result.items ≡ map (λ label. number_among stay.now (merged_label from to label)) (count_from 0 labels) }
{
    let mut numbers = ArrayVec::new();
    for label in 0..labels {
        numbers.push(number_among(stay, merged_label(from, to, label)));
    }
    numbers
}

// The new number of each label of the problem.
fn merge_numbers(problem: &Problem, from: u8, to: u8) -> ArrayVec<u8, 128>
    ensures { result.items ≡ merge_numbers from to problem.now }
{
    let labels = problem.names().len() as u8;
    let stay = all_but(from, labels);
    numbers_among(stay.as_slice(), from, to, labels)
}

// The problem with the one label in place of the other, where these are the new numbers.
fn merged_problem(
    alloc: Global,
    problem: &Problem,
    from: u8,
    to: u8,
    numbers: &[u8],
) -> Result<Problem, NoMemory>
    requires from { from < length problem.now.names }
    requires to { to < length problem.now.names }
    requires apart { from ≢ to }
    requires numbers { numbers.now ≡ merge_numbers from to problem.now }
    ensures { IfOk result (λ merged. merged ≡ merged_problem from to problem.now) }
{
    let names = problem.names();
    let stay = all_but(from, names.len() as u8);
    renumbered(
        alloc,
        names,
        problem.active(),
        problem.passive(),
        stay.as_slice(),
        numbers,
    )
}

// The step to that problem, its map sent along.
fn merged_step(alloc: Global, step: &Step, from: u8, to: u8) -> Result<Step, NoMemory>
    requires from { from < length step.now.next.names }
    requires to { to < length step.now.next.names }
    requires apart { from ≢ to }
    requires below { HasLabelsBelow (length step.now.next.names) step.now.map }
    ensures { IfOk result (λ merged. merged ≡ merged_step from to step.now) }
{
    let numbers = merge_numbers(step.next(), from, to);
    let next = merged_problem(alloc, step.next(), from, to, numbers.as_slice())?;
    step_along(alloc, step, next, numbers.as_slice())
}

// Why the one label can't become the other.
fn merge_refusal(certificate: &Certificate, from: u8, to: u8) -> Option<Refusal>
    ensures { result ≡ merge_refusal from to certificate.now }
{
    if certificate.kind() == Kind::Upper {
        return Some(Refusal::NotLower);
    }
    let labels = certificate.last().names().len();
    if from as usize >= labels {
        return Some(Refusal::NotALabel(from));
    }
    if to as usize >= labels {
        return Some(Refusal::NotALabel(to));
    }
    if from == to {
        return Some(Refusal::Same);
    }
    None
}

// The chain with the one label in place of the other in its last problem, where it has a step.
fn merged_last(
    alloc: Global,
    certificate: &Certificate,
    from: u8,
    to: u8,
) -> Result<Certificate, NoMemory>
    requires may { merge_refusal from to certificate.now ≡ None }
    requires some { is_nil certificate.now.steps ≡ false }
    ensures { IfOk result (λ chain. chain ≡ merged from to certificate.now) }
{
    over_problems(certificate);
    let steps = certificate.steps();
    let last = merged_step(alloc, &steps[steps.len() - 1], from, to)?;
    with_last(alloc, certificate, last)
}

/// The step from the problem to the derived problem of the one in which `from` has become `to`, with the limit that it passes first if any: of
/// the maximal rows of the problem, or one of the derived problem. Its cost is that of `relaxed_step`.
pub fn first_merged(alloc: Global, problem: &Problem, from: u8, to: u8) -> Result<Step, StepFault>
    requires from { from < length problem.now.names }
    requires to { to < length problem.now.names }
    requires apart { from ≢ to }
    ensures step { IfOk result (λ s. s ≡ first_merged from to problem.now) }
    ensures none { IfOk result (λ _. relaxed_limit problem.now (merged_problem from to problem.now) ≡ None) }
    ensures limit { (limit : Passed) → result ≡ Err (StepFault.Limit limit) → relaxed_limit problem.now (merged_problem from to problem.now) ≡ Some limit }
{
    let numbers = merge_numbers(problem, from, to);
    let merged = merged_problem(alloc, problem, from, to, numbers.as_slice())?;
    relaxed_step(alloc, problem, &merged, numbers.as_slice())
}

// The chain of one step from this first problem.
fn begun(alloc: Global, kind: Kind, first: &Problem, step: Step) -> Result<Certificate, NoMemory>
    requires { is_bound (chain_with kind first.now (step ∷ [])) ≡ true }
    ensures { IfOk result (λ chain. chain ≡ chain_with kind first.now (step ∷ [])) }
{
    let first = first.copy()?;
    let mut steps = Vec::new(alloc);
    steps.push(step)?;
    match Certificate::build(chain_kind(kind), 0, first, steps, Vec::new(alloc)) {
        Some(chain) => Ok(chain),
        None => unreachable!(),
    }
}

// The chain with a step to the derived problem of the merged first problem, where it has none.
fn merged_first(
    alloc: Global,
    certificate: &Certificate,
    from: u8,
    to: u8,
) -> Result<Certificate, StepFault>
    requires may { merge_refusal from to certificate.now ≡ None }
    requires none { is_nil certificate.now.steps ≡ true }
    ensures merged { IfOk result (λ chain. chain ≡ merged from to certificate.now) }
    ensures none { IfOk result (λ _. merge_limit from to certificate.now ≡ None) }
    ensures limit { (limit : Passed) → result ≡ Err (StepFault.Limit limit) → merge_limit from to certificate.now ≡ Some limit }
{
    over_problems(certificate);
    let step = first_merged(alloc, certificate.first(), from, to)?;
    Ok(begun(alloc, certificate.kind(), certificate.first(), step)?)
}

/// The chain in whose last problem `from` has become `to`: the label `from` is no more, the other labels keep their names, and the map
/// of the last step is sent along. A chain without steps gets one, from its first problem to the derived problem of the one in which `from`
/// has become `to`: each maximal row goes, place by place, to the first maximal row of that problem that dominates its image. A fixed point
/// is taken as the lower bound with its steps.
///
/// It is refused, in this order, where the chain isn't lower, where `from` or `to` is no label of the last problem, and where they are the
/// same. Without a step comes the limit then that the new one passes: of the maximal rows of the first problem, or one of the derived
/// problem. It sorts the images of the configurations of the last problem, and copies the rest; without a step it costs what `relaxed_step` costs.
pub fn merge(
    alloc: Global,
    certificate: &Certificate,
    from: u8,
    to: u8,
) -> Result<Certificate, MergeFault>
    ensures merged { IfOk result (λ chain. chain ≡ merged from to certificate.now) }
    ensures may { IfOk result (λ _. merge_refusal from to certificate.now ≡ None) }
    ensures within { IfOk result (λ _. merge_limit from to certificate.now ≡ None) }
    ensures refused { (refusal : Refusal) → result ≡ Err (MergeFault.Refused refusal) → merge_refusal from to certificate.now ≡ Some refusal }
    ensures limit { (limit : Passed) → result ≡ Err (MergeFault.Limit limit) → (merge_refusal from to certificate.now ≡ None) × (merge_limit from to certificate.now ≡ Some limit) }
{
    if let Some(refusal) = merge_refusal(certificate, from, to) {
        return Err(MergeFault::Refused(refusal));
    }
    if !certificate.steps().is_empty() {
        return match merged_last(alloc, certificate, from, to) {
            Ok(merged) => Ok(merged),
            Err(NoMemory) => Err(MergeFault::NoMemory),
        };
    }
    match merged_first(alloc, certificate, from, to) {
        Ok(merged) => Ok(merged),
        Err(StepFault::Limit(limit)) => Err(MergeFault::Limit(limit)),
        Err(StepFault::NoMemory) => Err(MergeFault::NoMemory),
    }
}

/// The same of a chain of kind lower.
pub fn merge_lower(
    alloc: Global,
    chain: &LowerChain,
    from: u8,
    to: u8,
) -> Result<LowerChain, MergeFault>
    ensures merged { IfOk result (λ made. made.certificate ≡ merged from to chain.now.certificate) }
    ensures may { IfOk result (λ _. merge_refusal from to chain.now.certificate ≡ None) }
    ensures within { IfOk result (λ _. merge_limit from to chain.now.certificate ≡ None) }
    ensures refused { (refusal : Refusal) → result ≡ Err (MergeFault.Refused refusal) → merge_refusal from to chain.now.certificate ≡ Some refusal }
    ensures limit { (limit : Passed) → result ≡ Err (MergeFault.Limit limit) → (merge_refusal from to chain.now.certificate ≡ None) × (merge_limit from to chain.now.certificate ≡ Some limit) }
{
    let certificate = &chain.certificate;
    let _kind = certificate.kind();
    over_problems(certificate);
    merge_law();
    match merge(alloc, certificate, from, to) {
        Ok(made) => Ok(LowerChain::new(made)),
        Err(fault) => Err(fault),
    }
}
