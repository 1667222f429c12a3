//! A label of the last problem goes.
ghost use Rattle.re_shaping.specs.Chains.{HasLabelsBelow};
ghost use Rattle.re_shaping.specs.Dropping.{drop_refusal, dropped, dropped_step, entries_left};
ghost use Rattle.re_shaping.specs.declared.refusal.Refusal.{Refusal};
ghost use Rattle.std.specs.List.{AllByRecursion};
ghost use Rattle.std.specs.Prelude.{◌≡◌, ◌<◌, Err, IfOk, None, Some, false, length, slice_index_or};

use crate::last_step::with_last;
use crate::refusal::{ChainFault, Refusal};
use re_cert::{Certificate, Kind, SetEntry, Step, StepParts};
use re_chains::over_problems;
use re_changes::{Change, Changed};
use re_labels::NoMemory;
use std::alloc::Global;

// The entries of the labels that are left, where these are what the labels have become.
fn entries_left(
    alloc: Global,
    entries: &[SetEntry],
    images: &[Option<u8>],
) -> Result<Vec<SetEntry>, NoMemory>
    requires { AllByRecursion (λ entry. entry.label < length images.now) entries.now }
    ensures { IfOk result (λ left. left.items ≡ entries_left (λ label. slice_index_or images.now label None) entries.now) }
{
    let mut left = Vec::new(alloc);
    for entry in entries {
        match images[entry.label as usize] {
            Some(label) => left.push(SetEntry {
                set: entry.set,
                label,
            })?,
            None => {}
        }
    }
    Ok(left)
}

// The step to the problem without the label.
fn dropped_step(alloc: Global, step: &Step, label: u8) -> Result<Step, NoMemory>
    requires upper { step.now.lower ≡ false }
    requires label { label < length step.now.next.names }
    requires below { HasLabelsBelow (length step.now.next.names) step.now.map }
    ensures { IfOk result (λ dropped. dropped ≡ dropped_step label step.now) }
{
    let before = Changed::unchanged(step.next().copy()?);
    let after = before.changed(alloc, Change::LeaveOut(label))?;
    let next = after.problem().copy()?;
    match &step.parts {
        StepParts::Lower { .. } => unreachable!(),
        StepParts::Upper { map } => {
            let map = entries_left(alloc, map.as_slice(), after.images())?;
            let parts = StepParts::Upper { map };
            Ok(Step { next, parts })
        }
    }
}

// Why the label can't go.
fn drop_refusal(certificate: &Certificate, label: u8) -> Option<Refusal>
    ensures { result ≡ drop_refusal label certificate.now }
{
    if certificate.kind() != Kind::Upper {
        return Some(Refusal::NotUpper);
    }
    if certificate.steps().is_empty() {
        return Some(Refusal::NoStep);
    }
    let labels = certificate.last().names().len();
    if label as usize >= labels {
        return Some(Refusal::NotALabel(label));
    }
    None
}

// The same where it isn't refused.
fn dropped(alloc: Global, certificate: &Certificate, label: u8) -> Result<Certificate, NoMemory>
    requires { drop_refusal label certificate.now ≡ None }
    ensures { IfOk result (λ chain. chain ≡ dropped label certificate.now) }
{
    over_problems(certificate);
    let steps = certificate.steps();
    let last = dropped_step(alloc, &steps[steps.len() - 1], label)?;
    with_last(alloc, certificate, last)
}

/// The chain whose last problem lacks the label and each configuration with it; labels that then stand in no configuration go too, and
/// the entries of all these in the map of the last step. A constraint of which no configuration is left is empty.
///
/// It is refused, in this order, where the chain isn't upper, has no step, and where this is no label of the last problem. It sorts the
/// images of the configurations of the last problem, and copies the rest.
pub fn drop_label(
    alloc: Global,
    certificate: &Certificate,
    label: u8,
) -> Result<Certificate, ChainFault>
    ensures dropped { IfOk result (λ chain. chain ≡ dropped label certificate.now) }
    ensures may { IfOk result (λ _. drop_refusal label certificate.now ≡ None) }
    ensures refused { (refusal : Refusal) → result ≡ Err (ChainFault.Refused refusal) → drop_refusal label certificate.now ≡ Some refusal }
{
    if let Some(refusal) = drop_refusal(certificate, label) {
        return Err(ChainFault::Refused(refusal));
    }
    let dropped = dropped(alloc, certificate, label)?;
    Ok(dropped)
}
