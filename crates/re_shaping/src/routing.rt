//! The steps of a route, which may begin with a merge.
ghost use Rattle.re_cert.specs.Bounds.{has_row_maps as have_row_maps, is_by_row as is_map_by_row, last_problem};
ghost use Rattle.re_shaping.specs.Chains.{step_along};
ghost use Rattle.re_shaping.specs.Along.{image_left};
ghost use Rattle.re_shaping.specs.Routes.{are_by_row, are_two, first_step, has_few_rows, merge_step, merge_steps, route_steps, takes_merges};
ghost use Rattle.std.specs.Prelude.{◌≡◌, IfOk, map, true};

use crate::along::{Stop, image_left, push_along, steps_along};
use crate::merging::first_merged;
use arrayvec::ArrayVec;
use re_cert::{Certificate, LowerMap, RowImage, Step, StepParts, is_by_row};
use re_labels::{MAX_ROWS, NoMemory};
use re_problem::Problem;
use re_step::{RowsFault, StepFault, maximal_rows};
use std::alloc::Global;

/// A way behind a chain's last problem.
#[derive(Drop)]
pub struct Route {
    /// Two labels of that problem, if the way begins with a merge of them: the first one becomes the second, and the first stop is what
    /// changes have made of the derived problem of the problem in which it has.
    pub merge: Option<(u8, u8)>,
    /// The stops.
    pub stops: Vec<Stop>,
}

// The image of a row, with the labels that its labels have become.
fn image_sent(image: &RowImage, images: &[Option<u8>]) -> RowImage
    ensures { result ≡ map (image_left images.now) image.now }
{
    let mut labels: ArrayVec<u8, 6> = ArrayVec::new();
    for label in image.labels() {
        labels.push(image_left(images, *label as usize));
    }
    match RowImage::new(labels.as_slice()) {
        Some(image) => image,
        None => unreachable!(),
    }
}

// The images of rows, with the labels that their labels have become.
fn images_sent(
    alloc: Global,
    rows: &[RowImage],
    images: &[Option<u8>],
) -> Result<Vec<RowImage>, NoMemory>
    ensures { IfOk result (λ sent. sent.items ≡ map (map (image_left images.now)) rows.now) }
{
    let mut sent = Vec::new(alloc);
    for row in rows {
        sent.push(image_sent(row, images))?;
    }
    Ok(sent)
}

// The lower step to another problem, with the labels that the labels of its map by rows have become.
fn sent(alloc: Global, step: Step, next: Problem, images: &[Option<u8>]) -> Result<Step, NoMemory>
    requires lower { step.lower ≡ true }
    requires by_row { is_map_by_row step.map ≡ true }
    ensures { IfOk result (λ sent. sent ≡ step_along (image_left images.now) next step) }
{
    let Step { parts, .. } = step;
    let (rows, map) = match parts {
        StepParts::Lower { rows, map } => (rows, map),
        StepParts::Upper { .. } => unreachable!(),
    };
    let tops = match map {
        LowerMap::ByRow(tops) => tops,
        LowerMap::BySet(_) => unreachable!(),
    };
    let map = LowerMap::ByRow(images_sent(alloc, tops.as_slice(), images)?);
    let parts = StepParts::Lower { rows, map };
    Ok(Step { next, parts })
}

// Whether these are two labels of the problem.
fn are_two(problem: &Problem, merge: (u8, u8)) -> bool
    ensures { result ≡ are_two merge problem.now }
{
    let (from, to) = merge;
    let labels = problem.names().len();
    (from as usize) < labels && (to as usize) < labels && from != to
}

// The first step of a route that begins with a merge of two labels, if it passes no limit.
fn merge_step(
    alloc: Global,
    before: &Problem,
    merge: (u8, u8),
    stop: Stop,
) -> Result<Option<Step>, NoMemory>
    requires { are_two merge before.now ≡ true }
    ensures { IfOk result (λ found. found ≡ merge_step merge before.now stop) }
{
    let (from, to) = merge;
    let Stop { problem, images } = stop;
    let step = match first_merged(alloc, before, from, to) {
        Ok(step) => step,
        Err(StepFault::Limit(_)) => return Ok(None),
        Err(StepFault::NoMemory) => return Err(NoMemory),
    };
    Ok(Some(sent(alloc, step, problem, images.as_slice())?))
}

// The same where they are two labels of the problem.
fn first_step(
    alloc: Global,
    before: &Problem,
    merge: (u8, u8),
    stop: Stop,
) -> Result<Option<Step>, NoMemory>
    ensures { IfOk result (λ found. found ≡ first_step merge before.now stop) }
{
    if are_two(before, merge) {
        merge_step(alloc, before, merge, stop)
    } else {
        Ok(None)
    }
}

// The steps of a route that begins with a merge of these labels.
fn merge_steps(
    alloc: Global,
    before: &Problem,
    merge: (u8, u8),
    stops: Vec<Stop>,
) -> Result<Vec<Step>, NoMemory>
    ensures { IfOk result (λ steps. steps.items ≡ merge_steps merge before.now stops.items) }
{
    let mut stops = stops;
    let mut steps: Vec<Step> = Vec::new(alloc);
    if stops.is_empty() {
        return Ok(steps);
    }
    let stop = stops.remove(0);
    let Some(step) = first_step(alloc, before, merge, stop)? else {
        return Ok(steps);
    };
    steps.push(step)?;
    push_along(alloc, &mut steps, before, stops, true)?;
    Ok(steps)
}

// Whether all steps have maps by rows.
fn are_by_row(steps: &[Step]) -> bool
    ensures { result ≡ are_by_row steps.now }
{
    steps.iter().all(|step| is_by_row(step))
}

// Whether the problem has no more maximal rows than a step may have.
fn has_few_rows(alloc: Global, problem: &Problem) -> Result<bool, NoMemory>
    ensures { IfOk result (λ few. few ≡ has_few_rows problem.now) }
{
    let labels = problem.names().len() as u8;
    let rows = match maximal_rows(alloc, problem.passive(), labels) {
        Ok(rows) => rows,
        Err(RowsFault::TooManyRows) => return Ok(false),
        Err(RowsFault::NoMemory) => return Err(NoMemory),
    };
    Ok(rows.len() <= MAX_ROWS)
}

/// Whether a route that begins with a merge can have steps behind the chain: none of the chain's has a map by sets, and its last problem has no
/// more maximal rows than a step may have. It costs what these cost.
pub fn takes_merges(alloc: Global, chain: &Certificate) -> Result<bool, NoMemory>
    ensures { IfOk result (λ takes. takes ≡ takes_merges chain.now) }
{
    if are_by_row(chain.steps()) {
        has_few_rows(alloc, chain.last())
    } else {
        Ok(false)
    }
}

/// The steps of a route from the chain's last problem. Without a merge they are those of `steps_along`. With one, the first step is that of
/// `re_shaping::first_merged`, sent along to the first stop, and those behind it are as in `steps_along`, with all maps by rows; there are none
/// where these aren't two labels of the problem, or the first step passes a limit. It derives each problem anew. Whether the steps meet
/// their clauses, and go with those of the chain, `extended` finds out.
pub fn route_steps(alloc: Global, chain: &Certificate, route: Route) -> Result<Vec<Step>, NoMemory>
    ensures { IfOk result (λ steps. steps.items ≡ route_steps (have_row_maps chain.now.steps) (last_problem chain.now) route) }
{
    let Route { merge, stops } = route;
    match merge {
        Some(merge) => merge_steps(alloc, chain.last(), merge, stops),
        None => steps_along(alloc, chain, stops),
    }
}
