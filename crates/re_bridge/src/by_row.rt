//! Whether labels for the places of the first rows begin a map by rows.
ghost use Rattle.re_bridge.specs.Bridges.{images_for, passes_by_row, rows_of};
ghost use Rattle.re_check.specs.Clauses.{are_exchanged, keep_allowed_by_row, keep_images};
ghost use Rattle.std.specs.List.{AllByRecursion};
ghost use Rattle.std.specs.Prelude.{◌≡◌, ◌<◌, ◌≤◌, ◌++◌, ◌-◌, IfOk, IsTrue, length, replicate, true, ◌&&◌};

use re_cert::RowImage;
use re_check::{keep_images, keeps_allowed_by_row};
use re_labels::{Constraint, MAX_LABELS, NoMemory, Row};
use re_problem::Problem;
use re_walks::is_begun;
use std::alloc::Global;

/// The images of the rows all of whose places have labels.
pub(crate) fn images_for(
    alloc: Global,
    degree: u8,
    labels: &[u8],
) -> Result<Vec<RowImage>, NoMemory>
    requires least { 2 ≤ degree }
    requires most { degree ≤ 6 }
    ensures { IfOk result (λ images. images.items ≡ images_for degree labels.now) }
{
    let degree = degree as usize;
    let mut images = Vec::new(alloc);
    for row in 0..labels.len() / degree {
        let from = row * degree;
        match RowImage::new(&labels[from..from + degree]) {
            Some(image) => images.push(image)?,
            None => unreachable!(),
        }
    }
    Ok(images)
}

// Whether for each multiset of the sets from which some choice is active before each choice of a label that each of them becomes by
// rows is a configuration.
fn keep_allowed_by_row(
    before: &Problem,
    passive: &Constraint,
    rows: &[Row],
    images: &[RowImage],
) -> bool
    requires degree { passive.now.degree ≡ before.now.active.degree }
    requires rows { rows.now ≡ rows_of before.now }
    requires below { AllByRecursion (AllByRecursion (λ label. label < MAX_LABELS)) images.now }
    ensures { result ≡ keep_allowed_by_row (length before.now.names) before.now.active passive.now rows.now images.now }
{
    keeps_allowed_by_row(rows, images, before.active(), passive)
}

// Whether the images are configurations, and so is each choice of a label that the sets of an allowed multiset become.
fn keeps_all(before: &Problem, next: &Problem, rows: &[Row], images: &[RowImage]) -> bool
    requires exchanged { are_exchanged before.now next.now ≡ true }
    requires rows { rows.now ≡ rows_of before.now }
    ensures { result ≡ (keep_images next.now.active images.now && keep_allowed_by_row (length before.now.names) before.now.active next.now.passive rows.now images.now) }
{
    keep_images(next.active(), images) && keep_allowed_by_row(before, next.passive(), rows, images)
}

/// Whether the labels begin a map by rows: where the last image isn't whole, whether its labels begin a configuration; where it is,
/// whether the images are configurations, and each choice of a label that the sets of an allowed multiset become. It makes the images,
/// and costs what `keeps_images` and `keeps_allowed_by_row` of `re_check` cost.
pub(crate) fn passes_by_row(
    alloc: Global,
    before: &Problem,
    next: &Problem,
    rows: &[Row],
    labels: &[u8],
) -> Result<bool, NoMemory>
    requires exchanged { are_exchanged before.now next.now ≡ true }
    requires rows { rows.now ≡ rows_of before.now }
    requires labels { AllByRecursion (λ label. label < MAX_LABELS) labels.now }
    ensures { IfOk result (λ passes. passes ≡ passes_by_row before.now next.now labels.now) }
{
    let degree = next.active().degree();
    let whole = labels.len() / degree as usize * degree as usize;
    if whole != labels.len() {
        let n = next.names().len() as u8;
        return Ok(is_begun(next.active(), n, &labels[whole..]));
    }
    let images = images_for(alloc, degree, labels)?;
    Ok(keeps_all(before, next, rows, images.as_slice()))
}
