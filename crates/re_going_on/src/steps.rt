//! Upper steps to what labels that are left out have left of derived problems.
use re_cert::{SetEntry, Step, StepParts};
use re_labels::{LabelSet, NoMemory};
use re_problem::Problem;
use std::alloc::Global;

// The entries of the labels that are left, each with its set.
fn entries_of(
    alloc: Global,
    sets: &[LabelSet],
    images: &[Option<u8>],
) -> Result<Vec<SetEntry>, NoMemory> {
    let mut entries = Vec::new(alloc);
    for (set, image) in sets.iter().zip(images) {
        if let Some(label) = image {
            entries.push(SetEntry {
                set: *set,
                label: *label,
            })?;
        }
    }
    Ok(entries)
}

/// The step to the problem, where the labels with these sets have become these.
pub(crate) fn upper_step(
    alloc: Global,
    next: Problem,
    sets: &[LabelSet],
    images: &[Option<u8>],
) -> Result<Step, NoMemory> {
    let map = entries_of(alloc, sets, images)?;
    let parts = StepParts::Upper { map };
    Ok(Step { next, parts })
}
