//! A label of the last problem gets another name.
ghost use Rattle.re_chains.specs.Chains.{chain_with};
ghost use Rattle.re_shaping.specs.Chains.{HasLabelsBelow};
ghost use Rattle.re_shaping.specs.Naming.{by_label, is_taken, name_numbers, name_refusal, named, named_problem, named_step, names_with};
ghost use Rattle.re_shaping.specs.declared.refusal.Refusal.{Refusal};
ghost use Rattle.re_labels.specs.Lists.{place_of, same_list};
ghost use Rattle.re_labels.specs.ListSets.{list_set};
ghost use Rattle.std.specs.List.{list_any};
ghost use Rattle.std.specs.Prelude.{◌≡◌, ◌<◌, ◌&&◌, [], Err, IfOk, None, Some, false, length, map, not, slice_index_or, slice_set};

use crate::last_step::with_last;
use crate::refusal::{ChainFault, Refusal};
use crate::sending::{sent_entries, step_along};
use arrayvec::ArrayVec;
use re_cert::{Certificate, SetEntry, Step, StepParts};
use re_chains::{chain_kind, over_problems};
use re_labels::{Name, Names, NamesFault, NoMemory};
use re_problem::Problem;
use std::alloc::Global;

// The name of a label, where one label has another name.
fn name_with(names: &Names, label: u8, name: &Name, other: u8) -> Name
    requires { other < length names.now }
    ensures { result ≡ slice_index_or (slice_set names.now label name.now) other [] }
{
    if other == label {
        name.copy()
    } else {
        names.name(other).copy()
    }
}

// The names in their order, where one label has another name.
fn names_with(alloc: Global, names: &Names, label: u8, name: &Name) -> Result<Names, NoMemory>
    requires { label < length names.now }
    ensures { IfOk result (λ renamed. renamed ≡ list_set (slice_set names.now label name.now)) }
{
    let mut renamed = Names::new(alloc);
    for other in 0..names.len() as u8 {
        match renamed.insert(name_with(names, label, name, other)) {
            Ok(_) => {}
            Err(NamesFault::NoMemory) => return Err(NoMemory),
            Err(NamesFault::TooMany) => unreachable!(),
        }
    }
    Ok(renamed)
}

// The new number of each label of the problem, where these are the names in their order.
fn name_numbers(renamed: &Names, names: &Names, label: u8, name: &Name) -> ArrayVec<u8, 128>
    requires label { label < length names.now }
    requires renamed { renamed.now ≡ list_set (slice_set names.now label name.now) }
    ensures { result.items ≡ map (place_of (list_set (slice_set names.now label name.now))) (slice_set names.now label name.now) }
{
    let mut numbers = ArrayVec::new();
    for other in 0..names.len() as u8 {
        match renamed.find(&name_with(names, label, name, other)) {
            Some(number) => numbers.push(number),
            None => unreachable!(),
        }
    }
    numbers
}

// The problem with the name for the label, where these are the names in their order and the new numbers.
fn named_problem(
    problem: &Problem,
    label: u8,
    name: &Name,
    renamed: Names,
    numbers: &[u8],
) -> Result<Problem, NoMemory>
    requires label { label < length problem.now.names }
    requires free { is_taken label name.now problem.now ≡ false }
    requires renamed { renamed ≡ list_set (names_with label name.now problem.now) }
    requires numbers { numbers.now ≡ name_numbers label name.now problem.now }
    ensures { IfOk result (λ named. named ≡ named_problem label name.now problem.now) }
{
    let _label = label;
    let _text = name.text();
    let active = problem.active().image(numbers)?;
    let passive = problem.passive().image(numbers)?;
    match Problem::build(active, passive, renamed) {
        Some(named) => Ok(named),
        None => unreachable!(),
    }
}

// The entries in the order of their labels, which are below this number.
fn by_label(alloc: Global, entries: &[SetEntry], labels: u8) -> Result<Vec<SetEntry>, NoMemory>
    ensures { IfOk result (λ ordered. ordered.items ≡ by_label labels entries.now) }
{
    let mut ordered = Vec::new(alloc);
    for label in 0..labels {
        for entry in entries {
            if entry.label == label {
                ordered.push(*entry)?;
            }
        }
    }
    Ok(ordered)
}

// The step to the problem with the name for the label.
fn named_step(alloc: Global, step: &Step, label: u8, name: &Name) -> Result<Step, NoMemory>
    requires label { label < length step.now.next.names }
    requires free { is_taken label name.now step.now.next ≡ false }
    requires below { HasLabelsBelow (length step.now.next.names) step.now.map }
    ensures { IfOk result (λ named. named ≡ named_step label name.now step.now) }
{
    let names = step.next().names();
    let renamed = names_with(alloc, names, label, name)?;
    let numbers = name_numbers(&renamed, names, label, name);
    let next = named_problem(step.next(), label, name, renamed, numbers.as_slice())?;
    match &step.parts {
        StepParts::Lower { .. } => step_along(alloc, step, next, numbers.as_slice()),
        StepParts::Upper { map } => {
            let sent = sent_entries(alloc, map.as_slice(), numbers.as_slice())?;
            let map = by_label(alloc, sent.as_slice(), names.len() as u8)?;
            let parts = StepParts::Upper { map };
            Ok(Step { next, parts })
        }
    }
}

// Whether the name is that of another label.
fn is_taken(names: &Names, label: u8, name: &Name) -> bool
    requires { label < length names.now }
    ensures { result ≡ (list_any (same_list name.now) names.now && not (same_list name.now (slice_index_or names.now label []))) }
{
    let _count = names.len();
    match names.find(name) {
        Some(other) => other != label,
        None => false,
    }
}

// Why the label can't have the name.
fn name_refusal(certificate: &Certificate, label: u8, name: &Name) -> Option<Refusal>
    ensures { result ≡ name_refusal label name.now certificate.now }
{
    let names = certificate.last().names();
    if label as usize >= names.len() {
        return Some(Refusal::NotALabel(label));
    }
    if is_taken(names, label, name) {
        return Some(Refusal::Taken);
    }
    None
}

// The chain without a step from the problem with the name for the label.
fn named_first(
    alloc: Global,
    certificate: &Certificate,
    label: u8,
    name: &Name,
) -> Result<Certificate, NoMemory>
    requires label { label < length certificate.now.first.names }
    requires free { is_taken label name.now certificate.now.first ≡ false }
    ensures { IfOk result (λ chain. chain ≡ chain_with certificate.now.kind (named_problem label name.now certificate.now.first) []) }
{
    let first = certificate.first();
    let names = first.names();
    let renamed = names_with(alloc, names, label, name)?;
    let numbers = name_numbers(&renamed, names, label, name);
    let named = named_problem(first, label, name, renamed, numbers.as_slice())?;
    let kind = chain_kind(certificate.kind());
    match Certificate::build(kind, 0, named, Vec::new(alloc), Vec::new(alloc)) {
        Some(chain) => Ok(chain),
        None => unreachable!(),
    }
}

// The same where it isn't refused.
fn named(
    alloc: Global,
    certificate: &Certificate,
    label: u8,
    name: &Name,
) -> Result<Certificate, NoMemory>
    requires { name_refusal label name.now certificate.now ≡ None }
    ensures { IfOk result (λ chain. chain ≡ named label name.now certificate.now) }
{
    over_problems(certificate);
    let _text = name.text();
    let steps = certificate.steps();
    if steps.is_empty() {
        return named_first(alloc, certificate, label, name);
    }
    let last = named_step(alloc, &steps[steps.len() - 1], label, name)?;
    with_last(alloc, certificate, last)
}

/// The chain in whose last problem the label has this name. Labels are numbered by the order of their names, so the last problem and the
/// map of the last step are put in their new order; without a step this is done to the first problem alone. A label may get the name that
/// it has. A fixed point is taken as the lower bound with its steps.
///
/// It is refused, in this order, where this is no label of the last problem, and where the name is that of another label. It sorts the
/// images of the configurations of the last problem, and copies the rest.
pub fn name_label(
    alloc: Global,
    certificate: &Certificate,
    label: u8,
    name: &Name,
) -> Result<Certificate, ChainFault>
    ensures named { IfOk result (λ chain. chain ≡ named label name.now certificate.now) }
    ensures may { IfOk result (λ _. name_refusal label name.now certificate.now ≡ None) }
    ensures refused { (refusal : Refusal) → result ≡ Err (ChainFault.Refused refusal) → name_refusal label name.now certificate.now ≡ Some refusal }
{
    if let Some(refusal) = name_refusal(certificate, label, name) {
        return Err(ChainFault::Refused(refusal));
    }
    let named = named(alloc, certificate, label, name)?;
    Ok(named)
}
