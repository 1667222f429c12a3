//! The lists of a certificate in order. Each sort takes about n log n comparisons; elements of which none is before the other stay in
//! their order.
ghost use Rattle.re_shaping.specs.Orders.{in_order};
ghost use Rattle.re_boxes.specs.Ordering.{is_row_before};
ghost use Rattle.re_shaping.specs.Tidied.{first_row_before, images_in_order, label_before, pair_before, set_before};
ghost use Rattle.std.specs.List.{zip};
ghost use Rattle.std.specs.Prelude.{◌≡◌, ◌++◌, IfOk, List, ℕ, OnOk, drop, length, map};

use re_boxes::row_order;
use re_cert::{RowImage, SetEntry};
use re_chains::copied_image;
use re_labels::{NoMemory, Row};
use std::alloc::Global;

/// Puts the rows in order.
pub(crate) fn sort_rows(rows: &mut Vec<Row>) -> Result<(), NoMemory>
    ensures { OnOk result (rows.new.items ≡ in_order is_row_before rows.old.items) }
{
    rows.sort_by(|row, other| row_order(row, other))?;
    Ok(())
}

/// Puts the entries in the order of their sets.
pub(crate) fn sort_by_set(entries: &mut Vec<SetEntry>) -> Result<(), NoMemory>
    ensures { OnOk result (entries.new.items ≡ in_order set_before entries.old.items) }
{
    entries.sort_by_key(|entry| entry.set)?;
    Ok(())
}

/// Puts the entries in the order of their labels.
pub(crate) fn sort_by_label(entries: &mut Vec<SetEntry>) -> Result<(), NoMemory>
    ensures { OnOk result (entries.new.items ≡ in_order label_before entries.old.items) }
{
    entries.sort_by_key(|entry| entry.label)?;
    Ok(())
}

/// Puts the pairs in the order of their first labels.
pub(crate) fn sort_pairs(pairs: &mut Vec<(u8, u8)>) -> Result<(), NoMemory>
    ensures { OnOk result (pairs.new.items ≡ in_order pair_before pairs.old.items) }
{
    pairs.sort_by_key(|pair| pair.0)?;
    Ok(())
}

// Puts the pairs of a row and its image in the order of the rows.
fn sort_by_row(pairs: &mut Vec<(Row, RowImage)>) -> Result<(), NoMemory>
    ensures { OnOk result (pairs.new.items ≡ in_order first_row_before pairs.old.items) }
{
    pairs.sort_by(|pair, other| row_order(&pair.0, &other.0))?;
    Ok(())
}

// Appends each row with its image, as far as there are both.
fn push_with_rows(
    pairs: &mut Vec<(Row, RowImage)>,
    rows: &[Row],
    images: &[RowImage],
) -> Result<(), NoMemory>
    ensures { OnOk result (pairs.new.items ≡ pairs.old.items ++ zip rows.now images.now) }
{
    let [row, rows @ ..] = rows else {
        return Ok(());
    };
    let [image, images @ ..] = images else {
        return Ok(());
    };
    pairs.push((row.copy(), copied_image(image)))?;
    push_with_rows(pairs, rows, images)
}

// Appends the images of the pairs.
fn push_seconds(images: &mut Vec<RowImage>, pairs: &[(Row, RowImage)]) -> Result<(), NoMemory>
    ensures { OnOk result (images.new.items ≡ images.old.items ++ map (λ (pair : List (List ℕ) × List ℕ). pair.1) pairs.now) }
{
    for pair in pairs {
        images.push(copied_image(&pair.1))?;
    }
    Ok(())
}

// Appends the images.
fn push_images(images: &mut Vec<RowImage>, more: &[RowImage]) -> Result<(), NoMemory>
    ensures { OnOk result (images.new.items ≡ images.old.items ++ more.now) }
{
    for image in more {
        images.push(copied_image(image))?;
    }
    Ok(())
}

// What is left of the images behind so many.
fn behind(images: &[RowImage], rows: usize) -> &[RowImage]
    ensures { result.now ≡ drop rows images.now }
{
    if rows < images.len() {
        &images[rows..]
    } else {
        &[]
    }
}

/// The images in the order of their rows, and behind them those that have no row.
pub(crate) fn images_in_order(
    alloc: Global,
    rows: &[Row],
    images: &[RowImage],
) -> Result<Vec<RowImage>, NoMemory>
    ensures { IfOk result (λ sorted. sorted.items ≡ images_in_order rows.now images.now) }
{
    let mut pairs = Vec::new(alloc);
    push_with_rows(&mut pairs, rows, images)?;
    sort_by_row(&mut pairs)?;
    let mut sorted = Vec::new(alloc);
    push_seconds(&mut sorted, pairs.as_slice())?;
    push_images(&mut sorted, behind(images, rows.len()))?;
    Ok(sorted)
}
