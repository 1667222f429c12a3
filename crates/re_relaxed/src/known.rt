//! The fixed points of the library: the problems of each, from any of which it is taken over.
use crate::closing::{closed_within, next_chain};
use crate::into::map_into;
use crate::library::Member;
use crate::members::member_problem;
use crate::relaxing::step_where_relaxed;
use crate::returning::closed_by;
use crate::types::Tried;
use arrayvec::ArrayVec;
use re_cert::{Certificate, Kind, LowerMap, RowImage, SetEntry, Step, StepParts};
use re_chains::{
    Chain, LowerChain, chain as copied_chain, copied_rows, copied_step, have_row_maps,
    judged_chain, problem_chain,
};
use re_labels::{MAX_LABELS, NoMemory};
use re_problem::{LabelMap, Problem};
use re_shaping::{Extension, by_rows, joined};
use std::alloc::Global;

/// How many derived problems come before the closure of a problem of the library.
const MAX_FURTHER: u8 = 2;

/// The steps of a fixed point from a problem of the library, the number of the problem to which it comes back, under its own names, and the label of the
/// problem behind its first step for each label of the derived problem.
#[derive(Drop)]
pub(crate) struct Known {
    chain: Certificate,
    back: usize,
    labels: Vec<u8>,
}

impl Known {
    /// How many problems there are, one behind the other.
    pub(crate) fn len(&self) -> usize {
        self.chain.steps().len()
    }

    /// The problem of this number.
    pub(crate) fn problem(&self, number: usize) -> Option<&Problem> {
        if number == 0 {
            return Some(self.chain.first());
        }
        let step = self.chain.steps().get(number - 1)?;
        Some(step.next())
    }
}

// The steps of a fixed point with maps by rows, if they meet their clauses.
fn in_rows(alloc: Global, steps: &Certificate) -> Result<Option<Certificate>, NoMemory> {
    let steps = copied_chain(alloc, steps)?;
    match judged_chain(steps) {
        Ok(Chain::Lower(chain)) => Ok(Some(by_rows(alloc, &chain.certificate)?)),
        Ok(Chain::Upper(_)) | Err(_) => Ok(None),
    }
}

// The entries of the map of a step, if it is by sets.
fn entries_of(step: &Step) -> &[SetEntry] {
    match &step.parts {
        StepParts::Lower {
            map: LowerMap::BySet(entries),
            ..
        } => entries.as_slice(),
        _ => &[],
    }
}

// The label that the entries have for the set for which the others have this label.
fn label_for(entries: &[SetEntry], others: &[SetEntry], label: u8) -> Option<u8> {
    let other = others.iter().find(|entry| entry.label == label)?;
    let entry = entries.iter().find(|entry| entry.set == other.set)?;
    Some(entry.label)
}

// For each label of the derived problem the label of the problem behind the first step of the chain, if both steps are by sets.
fn labels_behind(
    alloc: Global,
    chain: &Certificate,
    derived: &LowerChain,
) -> Result<Vec<u8>, NoMemory> {
    let mut labels = Vec::new(alloc);
    let [first, ..] = chain.steps() else {
        return Ok(labels);
    };
    let [step, ..] = derived.certificate.steps() else {
        return Ok(labels);
    };
    for label in 0..step.next().names().len() as u8 {
        match label_for(entries_of(first), entries_of(step), label) {
            Some(label) => labels.push(label)?,
            None => return Ok(labels),
        }
    }
    Ok(labels)
}

// The same where the derived problem passes no limit, and else none.
fn labels_of(alloc: Global, chain: &Certificate) -> Result<Vec<u8>, NoMemory> {
    let start = problem_chain(alloc, chain.first().copy()?);
    match next_chain(alloc, &start, MAX_LABELS as usize)? {
        Some(derived) => labels_behind(alloc, chain, &derived),
        None => Ok(Vec::new(alloc)),
    }
}

// The fixed point of these steps.
fn known_by(alloc: Global, chain: Certificate, back: usize) -> Result<Known, NoMemory> {
    let labels = labels_of(alloc, &chain)?;
    Ok(Known {
        chain,
        back,
        labels,
    })
}

// The fixed point behind a problem, by a closure.
fn known_behind(alloc: Global, problem: Problem) -> Result<Option<Known>, NoMemory> {
    let start = problem_chain(alloc, problem);
    let Tried::Found(certificate) = closed_within(alloc, &start, MAX_FURTHER)? else {
        return Ok(None);
    };
    let back = certificate.back() as usize;
    let chain = copied_chain(alloc, &certificate)?;
    Ok(Some(known_by(alloc, chain, back)?))
}

/// The fixed point behind the problem of the library with these degrees, if there is one.
pub(crate) fn known_of(
    alloc: Global,
    member: Member,
    active: u8,
    passive: u8,
) -> Result<Option<Known>, NoMemory> {
    match member_problem(alloc, member, active, passive)? {
        Some(problem) => known_behind(alloc, problem),
        None => Ok(None),
    }
}

// Puts the steps from this number on, before that one, behind the others.
fn push_steps(
    alloc: Global,
    put: &mut Vec<Step>,
    steps: &[Step],
    from: usize,
    before: usize,
) -> Result<(), NoMemory> {
    for (number, step) in steps.iter().enumerate() {
        if from <= number && number < before {
            put.push(copied_step(alloc, step)?)?;
        }
    }
    Ok(())
}

// The chain, whose last problem has this number, up to the problem to which the fixed point comes back, if that comes later.
fn led_on(
    alloc: Global,
    chain: &Certificate,
    steps: &[Step],
    number: usize,
    back: usize,
) -> Result<Option<Certificate>, NoMemory> {
    let mut more = Vec::new(alloc);
    push_steps(alloc, &mut more, steps, number, back)?;
    let extension = Extension {
        kind: Kind::Lower,
        back: 0,
        steps: more,
        renaming: Vec::new(alloc),
    };
    joined(alloc, chain, extension)
}

// The chain, whose last problem has this number, with the steps of the fixed point behind it, once round.
fn gone_round(
    alloc: Global,
    chain: &Certificate,
    steps: &[Step],
    number: usize,
    back: usize,
) -> Result<Tried, NoMemory> {
    let Some(front) = led_on(alloc, chain, steps, number, back)? else {
        return Ok(Tried::Missing);
    };
    let mut round = Vec::new(alloc);
    push_steps(alloc, &mut round, steps, number.max(back), steps.len())?;
    push_steps(alloc, &mut round, steps, back, number)?;
    closed_by(alloc, &front, round)
}

/// The fixed point that goes on from the chain, whose last problem is the one of this number; where some map is by rows, all are, and there is none if
/// the maps of the chain that it goes on from have to stay by sets.
pub(crate) fn taken_over(
    alloc: Global,
    chain: &LowerChain,
    known: &Known,
    number: usize,
    by_sets: bool,
) -> Result<Tried, NoMemory> {
    let chain = &chain.certificate;
    let steps = &known.chain;
    if !have_row_maps(chain.steps()) && !have_row_maps(steps.steps()) {
        return gone_round(alloc, chain, steps.steps(), number, known.back);
    }
    if by_sets {
        return Ok(Tried::Missing);
    }
    let Some(steps) = in_rows(alloc, steps)? else {
        return Ok(Tried::Missing);
    };
    let chain = by_rows(alloc, chain)?;
    gone_round(alloc, &chain, steps.steps(), number, known.back)
}

// The image with the label of the problem behind the first step for each of its labels.
fn image_by(labels: &[u8], image: &RowImage) -> Option<RowImage> {
    let mut sent: ArrayVec<u8, 6> = ArrayVec::new();
    for label in image.labels() {
        let label = labels.get(*label as usize)?;
        sent.try_push(*label).ok()?;
    }
    RowImage::new(sent.as_slice())
}

// The same of all images.
fn images_by(
    alloc: Global,
    labels: &[u8],
    images: &[RowImage],
) -> Result<Option<Vec<RowImage>>, NoMemory> {
    let mut sent = Vec::new(alloc);
    for image in images {
        let Some(image) = image_by(labels, image) else {
            return Ok(None);
        };
        sent.push(image)?;
    }
    Ok(Some(sent))
}

// The step by rows to the derived problem of the fixed point's first one, sent to the problem behind its first step.
fn sent_step(alloc: Global, known: &Known, step: &Step) -> Result<Option<Step>, NoMemory> {
    let Some(next) = known.problem(1) else {
        return Ok(None);
    };
    let StepParts::Lower {
        rows,
        map: LowerMap::ByRow(images),
    } = &step.parts
    else {
        return Ok(None);
    };
    let Some(images) = images_by(alloc, known.labels.as_slice(), images.as_slice())? else {
        return Ok(None);
    };
    let parts = StepParts::Lower {
        rows: copied_rows(alloc, rows.as_slice())?,
        map: LowerMap::ByRow(images),
    };
    let next = next.copy()?;
    Ok(Some(Step { next, parts }))
}

// The chain with this step behind its own, all maps by rows.
fn with_rows(
    alloc: Global,
    chain: &LowerChain,
    step: Step,
) -> Result<Option<Certificate>, NoMemory> {
    let mut steps = Vec::new(alloc);
    steps.push(step)?;
    let extension = Extension {
        kind: Kind::Lower,
        back: 0,
        steps,
        renaming: Vec::new(alloc),
    };
    let rows = by_rows(alloc, &chain.certificate)?;
    joined(alloc, &rows, extension)
}

// The chain, whose last problem is the one behind the first step of the fixed point, with its steps behind it, all maps by rows.
fn gone_on(alloc: Global, chain: &Certificate, known: &Known) -> Result<Tried, NoMemory> {
    match in_rows(alloc, &known.chain)? {
        Some(steps) => gone_round(alloc, chain, steps.steps(), 1, known.back),
        None => Ok(Tried::Missing),
    }
}

// The step to the problem behind the first step of the fixed point, if the chain's last problem relaxes to its first one by the map.
fn step_over(
    alloc: Global,
    chain: &LowerChain,
    known: &Known,
    map: &LabelMap,
) -> Result<Option<Step>, NoMemory> {
    let first = known.chain.first();
    let last = chain.certificate.last();
    match step_where_relaxed(alloc, last, first, map)? {
        Some(step) => sent_step(alloc, known, &step),
        None => Ok(None),
    }
}

// What the fixed point comes to by this map.
fn over_by(
    alloc: Global,
    chain: &LowerChain,
    known: &Known,
    map: &LabelMap,
) -> Result<Tried, NoMemory> {
    let Some(step) = step_over(alloc, chain, known, map)? else {
        return Ok(Tried::Missing);
    };
    match with_rows(alloc, chain, step)? {
        Some(longer) => gone_on(alloc, &longer, known),
        None => Ok(Tried::Missing),
    }
}

/// The fixed point that goes on from the chain, whose last problem relaxes to the first one of the known fixed point, if a map of the labels is found with
/// so many tries. All maps are by rows.
pub(crate) fn relaxed_over(
    alloc: Global,
    chain: &LowerChain,
    known: &Known,
    tries: u32,
) -> Result<Tried, NoMemory> {
    match map_into(alloc, chain.certificate.last(), known.chain.first(), tries)? {
        Some(map) => over_by(alloc, chain, known, &map),
        None => Ok(Tried::Missing),
    }
}
