//! Maps by sets, written by rows.
ghost use Rattle.re_cert.specs.Bounds.{map_of};
ghost use Rattle.re_chains.specs.Chains.{IsSound, IsSoundChain};
ghost use Rattle.re_shaping.specs.RowForms.{HasSets, HasStepSets, by_rows as bound_by_rows, map_by_rows as rows_of_map, row_form as rows_of_entries, step_by_rows as rows_of_step};
ghost use Rattle.re_check.specs.StepClauses.{HasRowSets};
ghost use Rattle.re_labels.specs.Lists.{IsRising};
ghost use Rattle.re_labels.specs.Sets.{number};
ghost use Rattle.re_problem.specs.Steps.{entry_sets, label_of};
ghost use Rattle.std.specs.List.{AllByRecursion};
ghost use Rattle.std.specs.Prelude.{◌≡◌, ◌<◌, ℕ, IfOk, List, Contains, map};

use crate::building::{built, copied_pairs};
use arrayvec::ArrayVec;
use re_cert::{Certificate, LowerMap, RowImage, SetEntry, Step, StepParts};
use re_chains::{copied_entries, copied_images, copied_rows, over_problems};
use re_check::place_for;
use re_labels::{LabelSet, NoMemory, Row};
use std::alloc::Global;

// The label of the entry for the set.
fn label_for(entries: &[SetEntry], set: LabelSet) -> u8
    requires ascends { IsRising (λ s t. number s < number t) (entry_sets entries.now) }
    requires held { Contains (entry_sets entries.now) set }
    ensures { result ≡ label_of entries.now set }
{
    match place_for(entries, set) {
        Some(place) => {
            let entry = &entries[place];
            entry.label
        }
        None => unreachable!(),
    }
}

// The image of the row: for each of its sets the label of its entry.
fn image_of(entries: &[SetEntry], row: &Row) -> RowImage
    requires ascends { IsRising (λ s t. number s < number t) (entry_sets entries.now) }
    requires held { (set : List ℕ) → Contains row.now set → Contains (entry_sets entries.now) set }
    ensures { result ≡ map (label_of entries.now) row.now }
{
    let mut labels: ArrayVec<u8, 6> = ArrayVec::new();
    for set in row.sets() {
        labels.push(label_for(entries, *set));
    }
    match RowImage::new(labels.as_slice()) {
        Some(image) => image,
        None => unreachable!(),
    }
}

/// The images of the rows by the entries, which have the sets of the rows. With n entries a set takes about log n comparisons.
pub(crate) fn row_form(
    alloc: Global,
    rows: &[Row],
    entries: &[SetEntry],
) -> Result<Vec<RowImage>, NoMemory>
    requires { HasRowSets rows.now entries.now }
    ensures { IfOk result (λ images. images.items ≡ rows_of_entries rows.now entries.now) }
{
    let mut images = Vec::new(alloc);
    for row in rows {
        images.push(image_of(entries, row))?;
    }
    Ok(images)
}

// The map written by rows.
fn map_by_rows(alloc: Global, rows: &[Row], map: &LowerMap) -> Result<LowerMap, NoMemory>
    requires { HasSets rows.now (map_of map.now) }
    ensures { IfOk result (λ images. map_of images ≡ rows_of_map rows.now (map_of map.now)) }
{
    match map {
        LowerMap::BySet(entries) => {
            let images = row_form(alloc, rows, entries.as_slice())?;
            Ok(LowerMap::ByRow(images))
        }
        LowerMap::ByRow(images) => {
            let images = copied_images(alloc, images.as_slice())?;
            Ok(LowerMap::ByRow(images))
        }
    }
}

// The step with its map by rows, where it is a lower one.
fn step_by_rows(alloc: Global, step: &Step) -> Result<Step, NoMemory>
    requires { HasStepSets step.now }
    ensures { IfOk result (λ s. s ≡ rows_of_step step.now) }
{
    let next = step.next().copy()?;
    match &step.parts {
        StepParts::Lower { rows, map } => {
            let map = map_by_rows(alloc, rows.as_slice(), map)?;
            let rows = copied_rows(alloc, rows.as_slice())?;
            let parts = StepParts::Lower { rows, map };
            Ok(Step { next, parts })
        }
        StepParts::Upper { map } => {
            let map = copied_entries(alloc, map.as_slice())?;
            let parts = StepParts::Upper { map };
            Ok(Step { next, parts })
        }
    }
}

// The steps with their maps by rows.
fn steps_by_rows(alloc: Global, steps: &[Step]) -> Result<Vec<Step>, NoMemory>
    requires { AllByRecursion HasStepSets steps.now }
    ensures { IfOk result (λ written. written.items ≡ map rows_of_step steps.now) }
{
    let mut written = Vec::new(alloc);
    for step in steps {
        written.push(step_by_rows(alloc, step)?)?;
    }
    Ok(written)
}

/// The same certificate with the maps of its lower steps by rows: the image of each row has the labels of its sets. Each step has to meet
/// its clauses, and then does so by rows. With n sets in a map a set of a row takes about log n comparisons.
pub fn by_rows(alloc: Global, certificate: &Certificate) -> Result<Certificate, NoMemory>
    requires { IsSound certificate.now }
    ensures written { IfOk result (λ written. written ≡ bound_by_rows certificate.now) }
    ensures sound { IfOk result (λ written. IsSoundChain written) }
{
    over_problems(certificate);
    let steps = steps_by_rows(alloc, certificate.steps())?;
    let first = certificate.first().copy()?;
    let renaming = copied_pairs(alloc, certificate.renaming())?;
    let back = certificate.back();
    Ok(built(certificate.kind(), back, first, steps, renaming))
}
