//! A certificate in order.
ghost use Rattle.re_cert.specs.Bounds.{map_of};
ghost use Rattle.re_shaping.specs.Tidied.{map_in_order, step_in_order, tidied};
ghost use Rattle.std.specs.Prelude.{◌≡◌, IfOk, map, true};

use crate::lists::{images_in_order, sort_by_label, sort_by_set, sort_pairs, sort_rows};
use re_cert::{Certificate, LowerMap, Step, StepParts};
use re_chains::{copied_entries, copied_rows};
use re_labels::{NoMemory, Row};
use std::alloc::Global;

// The map of a lower step in order.
fn lower_map(alloc: Global, rows: &[Row], map: &LowerMap) -> Result<LowerMap, NoMemory>
    ensures { IfOk result (λ tidied. map_of tidied ≡ map_in_order true rows.now (map_of map.now)) }
{
    match map {
        LowerMap::BySet(entries) => {
            let mut entries = copied_entries(alloc, entries.as_slice())?;
            sort_by_set(&mut entries)?;
            Ok(LowerMap::BySet(entries))
        }
        LowerMap::ByRow(images) => {
            let images = images_in_order(alloc, rows, images.as_slice())?;
            Ok(LowerMap::ByRow(images))
        }
    }
}

// The step with its rows and its map in order.
fn tidied_step(alloc: Global, step: &Step) -> Result<Step, NoMemory>
    ensures { IfOk result (λ tidied. tidied ≡ step_in_order step.now) }
{
    let next = step.next.copy()?;
    match &step.parts {
        StepParts::Lower { rows, map } => {
            let map = lower_map(alloc, rows.as_slice(), map)?;
            let mut rows = copied_rows(alloc, rows.as_slice())?;
            sort_rows(&mut rows)?;
            let parts = StepParts::Lower { rows, map };
            Ok(Step { next, parts })
        }
        StepParts::Upper { map } => {
            let mut map = copied_entries(alloc, map.as_slice())?;
            sort_by_label(&mut map)?;
            let parts = StepParts::Upper { map };
            Ok(Step { next, parts })
        }
    }
}

// The steps, each with its rows and its map in order.
fn tidied_steps(alloc: Global, steps: &[Step]) -> Result<Vec<Step>, NoMemory>
    ensures { IfOk result (λ tidied. tidied.items ≡ map step_in_order steps.now) }
{
    let mut tidied = Vec::new(alloc);
    for step in steps {
        tidied.push(tidied_step(alloc, step)?)?;
    }
    Ok(tidied)
}

// The pairs of the renaming in order.
fn tidied_renaming(alloc: Global, certificate: &Certificate) -> Result<Vec<(u8, u8)>, NoMemory>
    ensures { IfOk result (λ pairs. pairs.items ≡ (tidied certificate.now).renaming) }
{
    let mut pairs = Vec::from_slice(alloc, certificate.renaming())?;
    sort_pairs(&mut pairs)?;
    Ok(pairs)
}

/// The same certificate with its lists in order: the rows of each step ascending, the entries of a map by their sets in a lower step and
/// by their labels in an upper one, the images of a map by rows with their rows, the pairs of a renaming by their first labels. Nothing is
/// judged and nothing left out. With n elements in a list it takes about n log n comparisons.
pub fn tidy(alloc: Global, certificate: &Certificate) -> Result<Certificate, NoMemory>
    ensures { IfOk result (λ tidy. tidy ≡ tidied certificate.now) }
{
    let first = certificate.first().copy()?;
    let steps = tidied_steps(alloc, certificate.steps())?;
    let renaming = tidied_renaming(alloc, certificate)?;
    match Certificate::build(
        certificate.kind(),
        certificate.back(),
        first,
        steps,
        renaming,
    ) {
        Some(tidied) => Ok(tidied),
        None => unreachable!(),
    }
}
