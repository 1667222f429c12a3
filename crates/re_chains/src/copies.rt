//! Copies of the parts of a certificate, and the chain that it stands for.
ghost use Rattle.re_cert.specs.Bounds.{is_bound, map_of};
ghost use Rattle.re_chains.specs.Chains.{chain_kind, chain_of, chain_with};
ghost use Rattle.std.specs.Prelude.{◌≡◌, IfOk, true};

use re_cert::{Certificate, Kind, LowerMap, RowImage, SetEntry, Step, StepParts};
use re_labels::{NoMemory, Row};
use std::alloc::Global;

/// The same rows.
pub fn copied_rows(alloc: Global, rows: &[Row]) -> Result<Vec<Row>, NoMemory>
    ensures { IfOk result (λ copied. copied.items ≡ rows.now) }
{
    let mut copied = Vec::new(alloc);
    for row in rows {
        copied.push(row.copy())?;
    }
    Ok(copied)
}

/// The same entries.
pub fn copied_entries(alloc: Global, entries: &[SetEntry]) -> Result<Vec<SetEntry>, NoMemory>
    ensures { IfOk result (λ copied. copied.items ≡ entries.now) }
{
    let mut copied = Vec::new(alloc);
    for entry in entries {
        copied.push(*entry)?;
    }
    Ok(copied)
}

/// The same image. It takes no memory.
pub fn copied_image(image: &RowImage) -> RowImage
    ensures { result ≡ image.now }
{
    match RowImage::new(image.labels()) {
        Some(copied) => copied,
        None => unreachable!(),
    }
}

/// The same images.
pub fn copied_images(alloc: Global, images: &[RowImage]) -> Result<Vec<RowImage>, NoMemory>
    ensures { IfOk result (λ copied. copied.items ≡ images.now) }
{
    let mut copied = Vec::new(alloc);
    for image in images {
        copied.push(copied_image(image))?;
    }
    Ok(copied)
}

/// The same map.
pub fn copied_map(alloc: Global, map: &LowerMap) -> Result<LowerMap, NoMemory>
    ensures { IfOk result (λ copied. map_of copied ≡ map_of map.now) }
{
    match map {
        LowerMap::BySet(entries) => {
            let entries = copied_entries(alloc, entries.as_slice())?;
            Ok(LowerMap::BySet(entries))
        }
        LowerMap::ByRow(images) => {
            let images = copied_images(alloc, images.as_slice())?;
            Ok(LowerMap::ByRow(images))
        }
    }
}

/// The same step in memory of its own.
pub fn copied_step(alloc: Global, step: &Step) -> Result<Step, NoMemory>
    ensures { IfOk result (λ copied. copied ≡ step.now) }
{
    let next = step.next.copy()?;
    match &step.parts {
        StepParts::Lower { rows, map } => {
            let rows = copied_rows(alloc, rows.as_slice())?;
            let map = copied_map(alloc, map)?;
            let parts = StepParts::Lower { rows, map };
            Ok(Step { next, parts })
        }
        StepParts::Upper { map } => {
            let map = copied_entries(alloc, map.as_slice())?;
            let parts = StepParts::Upper { map };
            Ok(Step { next, parts })
        }
    }
}

/// The same steps in memory of their own.
pub fn copied_steps(alloc: Global, steps: &[Step]) -> Result<Vec<Step>, NoMemory>
    ensures { IfOk result (λ copied. copied.items ≡ steps.now) }
{
    let mut copied = Vec::new(alloc);
    for step in steps {
        copied.push(copied_step(alloc, step)?)?;
    }
    Ok(copied)
}

/// The kind of the chain that a certificate of this kind stands for: a fixed point stands for the lower bound with its steps.
pub fn chain_kind(kind: Kind) -> Kind
    ensures { result ≡ chain_kind kind }
{
    match kind {
        Kind::Upper => Kind::Upper,
        Kind::Lower | Kind::Fixed => Kind::Lower,
    }
}

/// The chain that a certificate stands for: the same first problem and steps, and a fixed point as the lower bound with its steps.
pub fn chain(alloc: Global, certificate: &Certificate) -> Result<Certificate, NoMemory>
    ensures { IfOk result (λ chain. chain ≡ chain_of certificate.now) }
{
    let kind = chain_kind(certificate.kind());
    let first = certificate.first().copy()?;
    let steps = copied_steps(alloc, certificate.steps())?;
    match Certificate::build(kind, 0, first, steps, Vec::new(alloc)) {
        Some(chain) => Ok(chain),
        None => unreachable!(),
    }
}
