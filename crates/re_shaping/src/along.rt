//! The step from a problem to what merges have made of its derived problem.
ghost use Rattle.re_cert.specs.Bounds.{has_row_maps as have_row_maps, last_problem, map_of, next_problems};
ghost use Rattle.re_shaping.specs.Along.{image_left, label_left, map_along, step_found, steps_along};
ghost use Rattle.re_problem.specs.ProblemTexts.{last_or};
ghost use Rattle.re_search.specs.Nodes.{entries_of};
ghost use Rattle.std.specs.Prelude.{◌≡◌, ◌++◌, IfOk, OnOk, map, true};

use arrayvec::ArrayVec;
use re_cert::{Certificate, LowerMap, RowImage, SetEntry, Step, StepParts};
use re_chains::have_row_maps;
use re_labels::{LabelSet, NoMemory, Row};
use re_problem::Problem;
use re_step::{Derived, StepFault, place_of, step};
use std::alloc::Global;

/// A problem on a path: what changes have made of the derived problem of the problem before it, and for each label of that derived
/// problem the label that it has become, if it is left.
#[derive(Drop)]
pub struct Stop {
    /// The problem.
    pub problem: Problem,
    /// The labels that those of the derived problem have become.
    pub images: Vec<Option<u8>>,
}

/// What the label at this place has become, and 0 where there is none, or it is not left.
pub(crate) fn image_left(images: &[Option<u8>], place: usize) -> u8
    ensures { result ≡ image_left images.now place }
{
    if place >= images.len() {
        return 0;
    }
    match images[place] {
        Some(image) => image,
        None => 0,
    }
}

// The label that the set has become, and 0 where it is none of the sets, or is not left.
fn label_left(sets: &[LabelSet], images: &[Option<u8>], set: LabelSet) -> u8
    ensures { result ≡ label_left sets.now images.now set }
{
    image_left(images, place_of(sets, set))
}

// The image of a row.
fn row_image(sets: &[LabelSet], images: &[Option<u8>], row: &Row) -> RowImage
    ensures { result ≡ map (label_left sets.now images.now) row.now }
{
    let mut labels: ArrayVec<u8, 6> = ArrayVec::new();
    for set in row.sets() {
        labels.push(label_left(sets, images, *set));
    }
    match RowImage::new(labels.as_slice()) {
        Some(image) => image,
        None => unreachable!(),
    }
}

// The images of the rows.
fn row_images(
    alloc: Global,
    sets: &[LabelSet],
    images: &[Option<u8>],
    rows: &[Row],
) -> Result<Vec<RowImage>, NoMemory>
    ensures { IfOk result (λ all. all.items ≡ map (map (label_left sets.now images.now)) rows.now) }
{
    let mut all = Vec::new(alloc);
    for row in rows {
        all.push(row_image(sets, images, row))?;
    }
    Ok(all)
}

// Appends the entries of the sets whose label is left.
fn push_entries(
    entries: &mut Vec<SetEntry>,
    sets: &[LabelSet],
    images: &[Option<u8>],
) -> Result<(), NoMemory>
    ensures { OnOk result (entries.new.items ≡ entries.old.items ++ entries_of sets.now images.now) }
{
    let [set, sets @ ..] = sets else {
        return Ok(());
    };
    let [image, images @ ..] = images else {
        return Ok(());
    };
    match image {
        Some(label) => {
            entries.push(SetEntry {
                set: *set,
                label: *label,
            })?;
            push_entries(entries, sets, images)
        }
        None => push_entries(entries, sets, images),
    }
}

// The map to the labels that the sets have become.
fn map_along(
    alloc: Global,
    sets: &[LabelSet],
    rows: &[Row],
    images: &[Option<u8>],
    by_rows: bool,
) -> Result<LowerMap, NoMemory>
    ensures { IfOk result (λ made. map_of made ≡ map_along by_rows sets.now rows.now images.now) }
{
    if by_rows {
        let images = row_images(alloc, sets, images, rows)?;
        return Ok(LowerMap::ByRow(images));
    }
    let mut entries = Vec::new(alloc);
    push_entries(&mut entries, sets, images)?;
    Ok(LowerMap::BySet(entries))
}

// The step to the next problem of a path, if the derived problem passes no limit.
fn step_to(
    alloc: Global,
    before: &Problem,
    stop: Stop,
    by_rows: bool,
) -> Result<Option<Step>, NoMemory>
    ensures { IfOk result (λ found. found ≡ step_found by_rows before.now stop) }
{
    let Stop { problem, images } = stop;
    let derived = match step(alloc, before) {
        Ok(derived) => derived,
        Err(StepFault::Limit(_)) => return Ok(None),
        Err(StepFault::NoMemory) => return Err(NoMemory),
    };
    let Derived { sets, rows, .. } = derived;
    let map = map_along(
        alloc,
        sets.as_slice(),
        rows.as_slice(),
        images.as_slice(),
        by_rows,
    )?;
    let parts = StepParts::Lower { rows, map };
    Ok(Some(Step {
        next: problem,
        parts,
    }))
}

// The problem behind the steps.
fn end_of<'a>(first: &'a Problem, steps: &'a [Step]) -> &'a Problem
    ensures { result.now ≡ last_or first.now (next_problems steps.now) }
{
    if steps.is_empty() {
        first
    } else {
        steps[steps.len() - 1].next()
    }
}

/// Appends the steps along a path from the problem behind the steps that are there, with their maps by rows where that is asked.
pub(crate) fn push_along(
    alloc: Global,
    steps: &mut Vec<Step>,
    first: &Problem,
    path: Vec<Stop>,
    by_rows: bool,
) -> Result<(), NoMemory>
    ensures { OnOk result (steps.new.items ≡ steps.old.items ++ steps_along by_rows (last_or first.now (next_problems steps.old.items)) path.items) }
{
    for stop in path {
        let before = end_of(first, steps.as_slice());
        let next = step_to(alloc, before, stop, by_rows)?;
        if let Some(step) = next {
            steps.push(step)?;
        }
    }
    Ok(())
}

/// The steps along a path from the chain's last problem, each with the maximal rows of the problem before it. Their maps, to the labels
/// that the sets have become, are by rows where those of the chain are. A stop to which no step leads, since the derived problem before it
/// passes a limit, is passed over. It derives each problem anew. Whether the steps meet their clauses, `extended` finds out.
pub fn steps_along(
    alloc: Global,
    chain: &Certificate,
    path: Vec<Stop>,
) -> Result<Vec<Step>, NoMemory>
    ensures { IfOk result (λ steps. steps.items ≡ steps_along (have_row_maps chain.now.steps) (last_problem chain.now) path.items) }
{
    let by_rows = have_row_maps(chain.steps());
    let mut steps: Vec<Step> = Vec::new(alloc);
    push_along(alloc, &mut steps, chain.last(), path, by_rows)?;
    Ok(steps)
}
