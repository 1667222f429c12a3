// Items along a line.
ghost use Rattle.std.specs.Char.{is_ascii_alphanumeric};
ghost use Rattle.std.specs.Prelude.{◌≡◌, ◌≤◌, ◌<◌, length, drop, slice_index_or, slice_range, IfSome, position, ◌==◌, ◌&&◌, not};
ghost use Rattle.std.specs.Option.{option_map};
ghost use Rattle.re_problem.specs.Bytes.{is_blank as is_blank_byte};
ghost use Rattle.re_problem.specs.Items.{empty_degree, group_with, is_inside as is_inside_behind, item_of, item_with, label_item, labels_of, power_of as power_of_text};
ghost use Rattle.re_problem.specs.Shapes.{shape_of};
ghost use Rattle.re_problem.specs.ItemSteps.{first_word, step_at};

use crate::bytes::{is_blank, skip_blanks};
use crate::labels::count_labels;
use crate::numerals::read_number;

/// An item on a line: its first place and the place behind it, whether it is a group, whether it is an empty group, and the power
/// that is written.
#[derive(Clone, Copy, Debug, PartialEq, Eq)]
pub struct Item {
    pub from: usize,
    pub to: usize,
    pub group: bool,
    pub empty: bool,
    pub power: Option<u8>,
}

/// What stands on a line from a place on: an item, nothing but blanks, or something that is no item.
#[derive(Clone, Copy, Debug, PartialEq, Eq)]
pub enum ItemStep {
    Item(Item),
    End,
    Bad,
}

/// An item without its place and its labels.
#[derive(Clone, Copy, Debug, PartialEq, Eq)]
pub(crate) struct Shape {
    pub(crate) group: bool,
    pub(crate) empty: bool,
    pub(crate) power: Option<u8>,
}

// Whether a word ends before this byte.
fn ends_word(byte: u8, inside: bool) -> bool
    ensures { result ≡ (is_blank_byte byte && not inside) }
{
    is_blank(byte) && !inside
}

// Whether what follows this byte stands inside brackets.
fn is_inside(byte: u8, inside: bool) -> bool
    ensures { result ≡ is_inside_behind inside byte }
{
    if byte == b'[' {
        true
    } else if byte == b']' {
        false
    } else {
        inside
    }
}

// Where the word ends that begins at this place.
fn word_end(line: &[u8], from: usize) -> usize
    requires { from ≤ length line.now }
    ensures from { from ≤ result }
    ensures within { result ≤ length line.now }
    ensures word { slice_range line.now from result ≡ first_word (drop from line.now) }
{
    let mut inside = false;
    let mut to = from;
    'bytes: while to < line.len() {
        if ends_word(line[to], inside) {
            return to;
        }
        inside = is_inside(line[to], inside);
        to += 1;
    }
    to
}

// A power from 1 to 99.
fn read_power(text: &[u8]) -> Option<u8>
    ensures { result ≡ power_of_text text.now }
{
    let power = read_number(text)?;
    if 1 <= power && power <= 99 {
        Some(power as u8)
    } else {
        None
    }
}

// The shape of a group whose text begins behind the open bracket, with this power.
fn group_shape(text: &[u8], power: Option<u8>) -> Option<Shape>
    ensures { result ≡ option_map shape_of (group_with power text.now) }
{
    if text.is_empty() {
        return None;
    }
    let last = text.len() - 1;
    if text[last] != b']' {
        return None;
    }
    match count_labels(&text[..last]) {
        None => None,
        Some(count) => Some(Shape {
            group: true,
            empty: count == 0,
            power,
        }),
    }
}

// The shape of one label, with this power.
fn label_shape(text: &[u8], power: Option<u8>) -> Option<Shape>
    ensures { result ≡ option_map shape_of (label_item power (labels_of text.now)) }
{
    match count_labels(text) {
        None => None,
        Some(count) => {
            if count != 1 {
                return None;
            }
            Some(Shape {
                group: false,
                empty: false,
                power,
            })
        }
    }
}

// The shape of a group or label, with this power.
fn shape_with(base: &[u8], power: Option<u8>) -> Option<Shape>
    ensures { result ≡ option_map shape_of (item_with power base.now) }
{
    if base.is_empty() {
        return None;
    }
    if base[0] == b'[' {
        return group_shape(&base[1..], power);
    }
    label_shape(base, power)
}

pub(crate) fn caret_place(word: &[u8]) -> Option<usize>
    ensures place { result ≡ position (λ b. b == 94) word.now }
    ensures within { IfSome result (λ at. at < length word.now) }
{
    word.iter().position(|byte| *byte == b'^')
}

// Whether the word is one letter or digit.
fn is_letter(word: &[u8]) -> bool
    ensures { result ≡ (length word.now == 1 && is_ascii_alphanumeric (slice_index_or word.now 0 0)) }
{
    match word {
        [byte] => byte.is_ascii_alphanumeric(),
        _ => false,
    }
}

// The shape of the item that a word writes. Most words are one letter or digit.
fn read_shape(word: &[u8]) -> Option<Shape>
    ensures { result ≡ option_map shape_of (item_of word.now) }
{
    if is_letter(word) {
        return Some(Shape {
            group: false,
            empty: false,
            power: None,
        });
    }
    match caret_place(word) {
        None => shape_with(word, None),
        Some(at) => match read_power(&word[at + 1..]) {
            None => None,
            Some(power) => shape_with(&word[..at], Some(power)),
        },
    }
}

/// What stands on the line from this place on, behind blanks: `End` exactly where nothing follows, `Item` exactly where an item
/// stands there, or an empty group with or without a power, with a blank or the end of the line behind it; else `Bad`. It passes
/// the item's bytes three times.
pub fn next_item(line: &[u8], at: usize) -> ItemStep
    requires { at ≤ length line.now }
    ensures { result ≡ step_at line.now at }
{
    let from = skip_blanks(line, at);
    let to = word_end(line, from);
    if from == to {
        return ItemStep::End;
    }
    match read_shape(&line[from..to]) {
        None => ItemStep::Bad,
        Some(shape) => ItemStep::Item(Item {
            from,
            to,
            group: shape.group,
            empty: shape.empty,
            power: shape.power,
        }),
    }
}

/// The degree d from 1 to 99 where the line is `%d` with optional blanks at both ends, which writes the empty constraint of this
/// degree; None exactly at every other line.
pub fn read_empty_degree(line: &[u8]) -> Option<u8>
    ensures { result ≡ empty_degree line.now }
{
    let from = skip_blanks(line, 0);
    let to = word_end(line, from);
    if from == to {
        return None;
    }
    if skip_blanks(line, to) != line.len() {
        return None;
    }
    if line[from] != b'%' {
        return None;
    }
    read_power(&line[from + 1..to])
}
