//! Lines behind a certificate: section lines, the side of node 0, and lines of three numbers.
ghost use Rattle.re_net.specs.RunLines.{is_deliveries, is_plain as is_plain_byte, root_on, section_named, section_of, side_named, strange_byte, three_on};
ghost use Rattle.std.specs.Prelude.{◌≡◌};

use re_labels::Side;
use re_problem::{begins_section, is_empty_line, next_word, read_number, section_name};

const TREE: &[u8] = b"tree";

const DELIVERIES: &[u8] = b"deliveries";

const LAST: &[u8] = b"== deliveries";

const ACTIVE: &[u8] = b"active";

const PASSIVE: &[u8] = b"passive";

/// The section that a section line begins behind a certificate.
#[derive(Clone, Copy, Debug, PartialEq, Eq)]
pub(crate) enum Section {
    Tree,
    Deliveries,
    Other,
}

// The section of this name.
fn section_by_name(name: &[u8]) -> Section
    ensures { result ≡ section_named name.now }
{
    if name == TREE {
        return Section::Tree;
    }
    if name == DELIVERIES {
        return Section::Deliveries;
    }
    Section::Other
}

/// The section that a line begins: `== tree` or `== deliveries`, with any blanks between and behind the words.
pub(crate) fn read_section(line: &[u8]) -> Section
    ensures { result ≡ section_of line.now }
{
    if !begins_section(line) {
        return Section::Other;
    }
    match section_name(line) {
        Some(name) => section_by_name(name),
        None => Section::Other,
    }
}

/// Whether the line is `== deliveries` with optional blanks behind it.
pub(crate) fn is_deliveries_line(line: &[u8]) -> bool
    ensures { result ≡ is_deliveries line.now }
{
    line.len() >= 13 && &line[..13] == LAST && is_empty_line(&line[13..])
}

// A letter, a digit or a blank.
fn is_plain(byte: u8) -> bool
    ensures { result ≡ is_plain_byte byte }
{
    byte.is_ascii_alphanumeric() || byte == b' ' || byte == b'\t' || byte == b'\r'
}

/// The place of the first byte that is no letter, no digit and no blank.
pub(crate) fn first_strange_byte(line: &[u8]) -> Option<usize>
    ensures { result ≡ strange_byte line.now }
{
    line.iter().position(|byte| !is_plain(*byte))
}

// The side that a word names.
fn side_by_name(word: &[u8]) -> Option<Side>
    ensures { result ≡ side_named word.now }
{
    if word == ACTIVE {
        return Some(Side::Active);
    }
    if word == PASSIVE {
        return Some(Side::Passive);
    }
    None
}

/// The side on a line of one word that names it, or None exactly where the line is none.
pub(crate) fn read_root(line: &[u8]) -> Option<Side>
    ensures { result ≡ root_on line.now }
{
    let Some((word, rest)) = next_word(line) else {
        return None;
    };
    let None = next_word(rest) else {
        return None;
    };
    side_by_name(word)
}

/// The three numbers on a line of three numbers, or None exactly where the line is none.
pub(crate) fn read_three(line: &[u8]) -> Option<(u32, u32, u32)>
    ensures { result ≡ three_on line.now }
{
    let Some((first, rest)) = next_word(line) else {
        return None;
    };
    let Some((second, rest)) = next_word(rest) else {
        return None;
    };
    let Some((third, rest)) = next_word(rest) else {
        return None;
    };
    let None = next_word(rest) else {
        return None;
    };
    let first = read_number(first)?;
    let second = read_number(second)?;
    let third = read_number(third)?;
    Some((first, second, third))
}
