//! Texts cut at a line that names what follows.
ghost use Rattle.re_io.specs.declared.read.TheConstants.{MAX_BYTES};
ghost use Rattle.re_chains.specs.TwoTexts.{CutGives, has_line, is_line};
ghost use Rattle.std.specs.Prelude.{◌≡◌, ◌≤◌, length};

use re_problem::{begins_section, cut_line, section_name};

/// The parts of a text that has such a line.
#[derive(Clone, Copy)]
pub struct Cut<'a> {
    /// What stands in front of the line.
    pub front: &'a [u8],
    /// What stands behind it.
    pub behind: &'a [u8],
    /// Where that begins.
    pub byte: usize,
    /// The number of its first line.
    pub number: u32,
}

// Whether the line is `==` and this name.
fn is_line(name: &[u8], line: &[u8]) -> bool
    ensures { result ≡ is_line name.now line.now }
{
    if !begins_section(line) {
        return false;
    }
    match section_name(line) {
        Some(other) => other == name,
        None => false,
    }
}

/// The text, cut at its first line of this name, or None exactly where it has none.
pub fn cut_at<'a>(name: &[u8], text: &'a [u8]) -> Option<Cut<'a>>
    requires { length text.now ≤ MAX_BYTES }
    ensures { CutGives name.now text.now result }
{
    let mut byte: usize = 0;
    let mut number: u32 = 1;
    let mut rest = text;
    'lines: while !rest.is_empty() {
        let (line, behind) = cut_line(rest);
        if is_line(name, line) {
            return Some(Cut {
                front: &text[..byte],
                behind,
                byte: byte + line.len() + 1,
                number: number + 1,
            });
        }
        byte += line.len() + 1;
        number += 1;
        rest = behind;
    }
    None
}

/// Whether the text has a line of this name.
pub fn has_line(name: &[u8], text: &[u8]) -> bool
    requires { length text.now ≤ MAX_BYTES }
    ensures { result ≡ has_line name.now text.now }
{
    cut_at(name, text).is_some()
}
