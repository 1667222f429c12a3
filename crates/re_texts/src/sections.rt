//! Section lines of texts: lines that begin with `==`, judged as lists of words.
ghost use Rattle.re_texts.specs.SectionLines.{section_named, section_of};
ghost use Rattle.std.specs.Prelude.{◌≡◌, ◌≤◌, length};

use re_problem::{begins_section, section_name};

const FROM: &[u8] = b"from";

const TO: &[u8] = b"to";

const MAP: &[u8] = b"map";

/// The section that a section line begins.
#[derive(Clone, Copy, Debug, PartialEq, Eq)]
pub(crate) enum Section {
    From,
    To,
    Map,
    Other,
}

// The section of this name.
fn section_by_name(name: &[u8]) -> Section
    ensures { result ≡ section_named name.now }
{
    if name == FROM {
        return Section::From;
    }
    if name == TO {
        return Section::To;
    }
    if name == MAP {
        return Section::Map;
    }
    Section::Other
}

/// The section that a line begins: `== from` and so on, with any blanks between and behind the words.
pub(crate) fn read_section(line: &[u8]) -> Section
    ensures section { result ≡ section_of line.now }
    ensures long { result ≡ Section.From → 2 ≤ length line.now }
{
    if !begins_section(line) {
        return Section::Other;
    }
    match section_name(line) {
        Some(name) => section_by_name(name),
        None => Section::Other,
    }
}
