// The lines of the sections of a certificate that no other text has: entries of maps, pairs of renamings, and the header.
ghost use Rattle.re_texts.specs.CertificateLines.{entry_text, header_text, image_text, pair_text};
ghost use Rattle.re_texts.specs.SetTexts.{named_text};
ghost use Rattle.std.specs.Io.{StartsWith};
ghost use Rattle.std.specs.List.{AllByRecursion};
ghost use Rattle.std.specs.Prelude.{◌≡◌, ◌<◌, ◌++◌, OnOk, codes, false, flat_map, length, true};

use crate::sets::push_set;
use re_cert::{Kind, RowImage, SetEntry};
use re_labels::{Names, NoMemory};
use re_problem::push_label;

fn push_all(text: &mut Vec<u8>, more: &str) -> Result<(), NoMemory>
    ensures text { OnOk result (text.new.items ≡ text.old.items ++ more.now) }
    ensures grown { StartsWith text.new.items text.old.items }
{
    Ok(text.extend_from_slice(more.as_bytes())?)
}

fn push_space(text: &mut Vec<u8>) -> Result<(), NoMemory>
    ensures text { OnOk result (text.new.items ≡ text.old.items ++ codes " ") }
    ensures grown { StartsWith text.new.items text.old.items }
{
    push_all(text, " ")
}

fn push_named(text: &mut Vec<u8>, names: &Names, label: u8) -> Result<(), NoMemory>
    requires { label < length names.now }
    ensures text { OnOk result (text.new.items ≡ text.old.items ++ named_text names.now label) }
    ensures grown { StartsWith text.new.items text.old.items }
{
    push_label(text, names.name(label))
}

/// Appends an entry of a map from sets of labels of the problem before a step to labels of the next one: in a lower step the set as
/// a group, a space and the label; in an upper step the label, a space and the set. After an error the text may have grown.
pub fn push_entry(
    text: &mut Vec<u8>,
    lower: bool,
    before: &Names,
    next: &Names,
    entry: &SetEntry,
) -> Result<(), NoMemory>
    requires set { AllByRecursion (λ label. label < length before.now) entry.now.set }
    requires label { entry.now.label < length next.now }
    ensures text { OnOk result (text.new.items ≡ text.old.items ++ entry_text lower before.now next.now entry.now) }
    ensures grown { StartsWith text.new.items text.old.items }
{
    if lower {
        push_set(text, before, entry.set)?;
        push_space(text)?;
        push_named(text, next, entry.label)
    } else {
        push_named(text, next, entry.label)?;
        push_space(text)?;
        push_set(text, before, entry.set)
    }
}

/// Appends a pair of a renaming: a label of the last problem, a space, and a label of the problem to which it goes back. After an
/// error the text may have grown.
pub fn push_pair(
    text: &mut Vec<u8>,
    last: &Names,
    target: &Names,
    pair: (u8, u8),
) -> Result<(), NoMemory>
    requires last { pair.0 < length last.now }
    requires target { pair.1 < length target.now }
    ensures text { OnOk result (text.new.items ≡ text.old.items ++ pair_text last.now target.now pair) }
    ensures grown { StartsWith text.new.items text.old.items }
{
    push_named(text, last, pair.0)?;
    push_space(text)?;
    push_named(text, target, pair.1)
}

// Appends the labels, each behind a space.
fn push_others(text: &mut Vec<u8>, names: &Names, labels: &[u8]) -> Result<(), NoMemory>
    requires { AllByRecursion (λ label. label < length names.now) labels.now }
    ensures text { OnOk result (text.new.items ≡ text.old.items ++ flat_map (λ label. codes " " ++ named_text names.now label) labels.now) }
    ensures grown { StartsWith text.new.items text.old.items }
{
    for label in labels {
        push_space(text)?;
        push_named(text, names, *label)?;
    }
    Ok(())
}

/// Appends the image of a row: its labels, of the next problem, with one space between. After an error the text may have grown.
pub fn push_image(text: &mut Vec<u8>, next: &Names, image: &RowImage) -> Result<(), NoMemory>
    requires { AllByRecursion (λ label. label < length next.now) image.now }
    ensures text { OnOk result (text.new.items ≡ text.old.items ++ image_text next.now image.now) }
    ensures grown { StartsWith text.new.items text.old.items }
{
    let labels = image.labels();
    push_named(text, next, labels[0])?;
    push_others(text, next, &labels[1..])
}

/// Appends the header of a certificate of the kind, without a line feed, of version 2 where its maps are by rows; at a fixed point
/// with the number of the problem to which it goes back. After an error the text may have grown.
pub fn push_header(text: &mut Vec<u8>, by_row: bool, kind: Kind, back: u8) -> Result<(), NoMemory>
    ensures text { OnOk result (text.new.items ≡ text.old.items ++ header_text by_row kind back) }
    ensures grown { StartsWith text.new.items text.old.items }
{
    if by_row {
        push_second_header(text, kind, back)
    } else {
        push_first_header(text, kind, back)
    }
}

// Appends the header of version 1.
fn push_first_header(text: &mut Vec<u8>, kind: Kind, back: u8) -> Result<(), NoMemory>
    ensures text { OnOk result (text.new.items ≡ text.old.items ++ header_text false kind back) }
    ensures grown { StartsWith text.new.items text.old.items }
{
    match kind {
        Kind::Lower => push_all(text, "== certificate 1 lower"),
        Kind::Upper => push_all(text, "== certificate 1 upper"),
        Kind::Fixed => {
            let alloc = *text.allocator();
            let header = format!(in alloc; "== certificate 1 fixed {back}")?;
            push_all(text, header.as_str())
        }
    }
}

// Appends the header of version 2.
fn push_second_header(text: &mut Vec<u8>, kind: Kind, back: u8) -> Result<(), NoMemory>
    ensures text { OnOk result (text.new.items ≡ text.old.items ++ header_text true kind back) }
    ensures grown { StartsWith text.new.items text.old.items }
{
    match kind {
        Kind::Lower => push_all(text, "== certificate 2 lower"),
        Kind::Upper => push_all(text, "== certificate 2 upper"),
        Kind::Fixed => {
            let alloc = *text.allocator();
            let header = format!(in alloc; "== certificate 2 fixed {back}")?;
            push_all(text, header.as_str())
        }
    }
}
