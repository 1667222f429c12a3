//! Maps whose labels are sent along.
ghost use Rattle.re_cert.specs.Bounds.{map_of};
ghost use Rattle.re_shaping.specs.Chains.{HasLabelsBelow, entry_sent, sent_along, step_along};
ghost use Rattle.re_labels.specs.Configs.{image_at};
ghost use Rattle.std.specs.List.{AllByRecursion};
ghost use Rattle.std.specs.Prelude.{◌≡◌, ◌<◌, IfOk, length, map};

use arrayvec::ArrayVec;
use re_cert::{LowerMap, RowImage, SetEntry, Step, StepParts};
use re_chains::copied_rows;
use re_labels::NoMemory;
use re_problem::Problem;
use std::alloc::Global;

/// The entries with the images of their labels.
pub(crate) fn sent_entries(
    alloc: Global,
    entries: &[SetEntry],
    images: &[u8],
) -> Result<Vec<SetEntry>, NoMemory>
    requires { AllByRecursion (λ entry. entry.label < length images.now) entries.now }
    ensures { IfOk result (λ sent. sent.items ≡ map (entry_sent (image_at images.now)) entries.now) }
{
    let mut sent = Vec::new(alloc);
    for entry in entries {
        sent.push(SetEntry {
            set: entry.set,
            label: images[entry.label as usize],
        })?;
    }
    Ok(sent)
}

// The image of a row with the images of its labels.
fn sent_image(image: &RowImage, images: &[u8]) -> RowImage
    requires { AllByRecursion (λ label. label < length images.now) image.now }
    ensures { result ≡ map (image_at images.now) image.now }
{
    let mut sent: ArrayVec<u8, 6> = ArrayVec::new();
    for label in image.labels() {
        sent.push(images[*label as usize]);
    }
    match RowImage::new(sent.as_slice()) {
        Some(sent) => sent,
        None => unreachable!(),
    }
}

// The images of rows with the images of their labels.
fn sent_images(alloc: Global, rows: &[RowImage], images: &[u8]) -> Result<Vec<RowImage>, NoMemory>
    requires { AllByRecursion (AllByRecursion (λ label. label < length images.now)) rows.now }
    ensures { IfOk result (λ sent. sent.items ≡ map (map (image_at images.now)) rows.now) }
{
    let mut sent = Vec::new(alloc);
    for row in rows {
        sent.push(sent_image(row, images))?;
    }
    Ok(sent)
}

// The map with the images of its labels.
fn sent_map(alloc: Global, map: &LowerMap, images: &[u8]) -> Result<LowerMap, NoMemory>
    requires { HasLabelsBelow (length images.now) (map_of map.now) }
    ensures { IfOk result (λ sent. map_of sent ≡ sent_along (image_at images.now) (map_of map.now)) }
{
    match map {
        LowerMap::BySet(entries) => {
            let entries = sent_entries(alloc, entries.as_slice(), images)?;
            Ok(LowerMap::BySet(entries))
        }
        LowerMap::ByRow(rows) => {
            let rows = sent_images(alloc, rows.as_slice(), images)?;
            Ok(LowerMap::ByRow(rows))
        }
    }
}

/// The step to another problem, with the images of the labels of its map.
pub(crate) fn step_along(
    alloc: Global,
    step: &Step,
    next: Problem,
    images: &[u8],
) -> Result<Step, NoMemory>
    requires { HasLabelsBelow (length images.now) step.now.map }
    ensures { IfOk result (λ sent. sent ≡ step_along (image_at images.now) next step.now) }
{
    match &step.parts {
        StepParts::Lower { rows, map } => {
            let rows = copied_rows(alloc, rows.as_slice())?;
            let map = sent_map(alloc, map, images)?;
            let parts = StepParts::Lower { rows, map };
            Ok(Step { next, parts })
        }
        StepParts::Upper { map } => {
            let map = sent_entries(alloc, map.as_slice(), images)?;
            let parts = StepParts::Upper { map };
            Ok(Step { next, parts })
        }
    }
}
