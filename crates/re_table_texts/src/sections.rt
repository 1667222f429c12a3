//! The section lines of the text of a table.
ghost use Rattle.re_problem.specs.SectionLines.{words_of};
ghost use Rattle.re_table_texts.specs.SectionLines.{radius_section, section_named, section_of};
ghost use Rattle.std.specs.Prelude.{◌≡◌, ◌≤◌, length};

use crate::MAX_RADIUS;
use re_problem::{begins_section, next_word, read_number};

const MARK: &[u8] = b"==";

const PROBLEM: &[u8] = b"problem";

const NEXT: &[u8] = b"next";

const TABLE: &[u8] = b"table";

/// The section that a section line begins, that of a table with its radius.
#[derive(Clone, Copy, Debug, PartialEq, Eq)]
pub(crate) enum Section {
    Problem,
    Next,
    Table(u8),
    Other,
}

// The section of a table of the radius that the word writes.
fn radius_section(word: &[u8]) -> Section
    ensures { result ≡ radius_section word.now }
{
    let Some(radius) = read_number(word) else {
        return Section::Other;
    };
    if radius > MAX_RADIUS as u32 {
        return Section::Other;
    }
    Section::Table(radius as u8)
}

// The section of this name, which these words follow.
fn section_by_name(name: &[u8], rest: &[u8]) -> Section
    ensures { result ≡ section_named name.now (words_of rest.now) }
{
    let Some((word, rest)) = next_word(rest) else {
        if name == PROBLEM {
            return Section::Problem;
        }
        if name == NEXT {
            return Section::Next;
        }
        return Section::Other;
    };
    let None = next_word(rest) else {
        return Section::Other;
    };
    if name == TABLE {
        radius_section(word)
    } else {
        Section::Other
    }
}

/// The section that a line begins: `== problem`, `== next` or `== table T`, with any blanks between and behind the words.
pub(crate) fn read_section(line: &[u8]) -> Section
    ensures section { result ≡ section_of line.now }
    ensures long { result ≡ Section.Problem → 2 ≤ length line.now }
{
    if !begins_section(line) {
        return Section::Other;
    }
    let Some((mark, rest)) = next_word(line) else {
        return Section::Other;
    };
    let Some((name, rest)) = next_word(rest) else {
        return Section::Other;
    };
    if mark == MARK {
        section_by_name(name, rest)
    } else {
        Section::Other
    }
}
