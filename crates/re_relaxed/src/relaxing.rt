//! Relaxations of problems by partitions of their labels, and the steps to their derived problems.
ghost use Rattle.re_labels.specs.Configs.{image_at};
ghost use Rattle.re_problem.specs.NamedProblems.{unnamed};
ghost use Rattle.re_problem.specs.Steps.{IsRelaxed};
ghost use Rattle.std.specs.List.{AllByRecursion};
ghost use Rattle.std.specs.Prelude.{◌≡◌, ◌<◌, IsTrue, length};

use crate::classes::merge_at;
use arrayvec::ArrayVec;
use re_cert::{Kind, Step};
use re_chains::{LowerChain, chain as copied_chain};
use re_changes::{Change, Changed};
use re_labels::{MAX_LABELS, NoMemory};
use re_problem::{LabelMap, MapVerdict, Problem, relaxes, relaxes_law};
use re_shaping::{Extension, MergeFault, are_below, extended, merge_lower, relaxed_step};
use re_step::StepFault;
use std::alloc::Global;

// The merge of two labels more, the lower one first.
fn merged(alloc: Global, made: Changed, low: u8, high: u8) -> Result<Changed, NoMemory> {
    if low < high && (high as usize) < made.problem().names().len() {
        return made.changed(alloc, Change::Merge(low, high));
    }
    Ok(made)
}

/// What the problem becomes where the labels of each class become one.
pub(crate) fn relaxation(
    alloc: Global,
    problem: &Problem,
    classes: &[u8],
) -> Result<Changed, NoMemory> {
    let mut made = Changed::unchanged(problem.copy()?);
    for place in (0..classes.len()).rev() {
        if let Some((low, high)) = merge_at(classes, place) {
            made = merged(alloc, made, low, high)?;
        }
    }
    Ok(made)
}

/// The same chain in memory of its own.
pub(crate) fn copied(alloc: Global, chain: &LowerChain) -> Result<LowerChain, NoMemory> {
    let copied = copied_chain(alloc, &chain.certificate)?;
    Ok(LowerChain::new(copied))
}

/// The chain in whose last problem the labels of each class have become one, if it has a step.
pub(crate) fn merged_chain(
    alloc: Global,
    chain: &LowerChain,
    classes: &[u8],
) -> Result<Option<LowerChain>, NoMemory> {
    let mut made = copied(alloc, chain)?;
    for place in (0..classes.len()).rev() {
        if let Some((low, high)) = merge_at(classes, place) {
            made = match merge_lower(alloc, &made, high, low) {
                Ok(next) => next,
                Err(MergeFault::NoMemory) => return Err(NoMemory),
                Err(_) => return Ok(None),
            };
        }
    }
    Ok(Some(made))
}

// The labels that those of the problem have become.
fn map_of(relaxed: &Changed) -> Option<LabelMap> {
    let mut images: ArrayVec<u8, 128> = ArrayVec::new();
    for image in relaxed.images() {
        images.try_push(image.unwrap_or(0)).ok()?;
    }
    LabelMap::new(images.as_slice())
}

// Whether the second problem is a relaxation of the first by the map.
fn is_relaxed(problem: &Problem, relaxed: &Problem, map: &LabelMap) -> bool
    requires count { length map.now ≡ length problem.now.names }
    requires below { AllByRecursion (λ image. image < length relaxed.now.names) map.now }
    ensures { IsTrue result → IsRelaxed (unnamed problem.now) (unnamed relaxed.now) (image_at map.now) }
{
    relaxes_law();
    match relaxes(problem, relaxed, map) {
        MapVerdict::Yes => true,
        _ => false,
    }
}

// The step to the derived problem of the relaxation, if it passes no limit.
fn step_by(
    alloc: Global,
    problem: &Problem,
    relaxed: &Problem,
    images: &[u8],
) -> Result<Option<Step>, NoMemory>
    requires count { length images.now ≡ length problem.now.names }
    requires below { AllByRecursion (λ image. image < length relaxed.now.names) images.now }
    requires relaxed { IsRelaxed (unnamed problem.now) (unnamed relaxed.now) (image_at images.now) }
{
    match relaxed_step(alloc, problem, relaxed, images) {
        Ok(step) => Ok(Some(step)),
        Err(StepFault::Limit(_)) => Ok(None),
        Err(StepFault::NoMemory) => Err(NoMemory),
    }
}

/// The step to the derived problem of a relaxation, where it is one by the map and the step passes no limit.
pub(crate) fn step_where_relaxed(
    alloc: Global,
    problem: &Problem,
    relaxed: &Problem,
    map: &LabelMap,
) -> Result<Option<Step>, NoMemory> {
    let images = map.images();
    if images.len() != problem.names().len() || !are_below(images, relaxed.names().len()) {
        return Ok(None);
    }
    if !is_relaxed(problem, relaxed, map) {
        return Ok(None);
    }
    step_by(alloc, problem, relaxed, images)
}

/// The chain with the step to the derived problem of a relaxation of its last problem, if it passes no limit and this problem isn't solvable without
/// communication.
pub(crate) fn relaxed_chain(
    alloc: Global,
    chain: &LowerChain,
    relaxed: &Changed,
) -> Result<Option<LowerChain>, NoMemory> {
    let Some(map) = map_of(relaxed) else {
        return Ok(None);
    };
    let Some(step) = step_where_relaxed(alloc, chain.certificate.last(), relaxed.problem(), &map)?
    else {
        return Ok(None);
    };
    let mut steps = Vec::new(alloc);
    steps.push(step)?;
    let extension = Extension {
        kind: Kind::Lower,
        back: 0,
        steps,
        renaming: Vec::new(alloc),
    };
    match extended(alloc, &chain.certificate, extension, 1, MAX_LABELS)? {
        Some(longer) => Ok(Some(LowerChain::new(longer))),
        None => Ok(None),
    }
}
