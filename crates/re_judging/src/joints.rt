//! Texts of several parts, joined by lines `=====`.
ghost use Rattle.re_judging.specs.Joints.{behind_joint, first_part, is_joint, joint_at};
ghost use Rattle.std.specs.Prelude.{◌≡◌, ◌≤◌, IfSome, length, take};

use re_io::MAX_BYTES;
use re_problem::cut_line;

// Whether the line stands between two parts.
fn is_joint(line: &[u8]) -> bool
    ensures { result ≡ is_joint line.now }
{
    line == b"=====".as_slice()
}

/// The byte at which the first line begins that stands between two parts, or None exactly where there is none.
pub fn joint_at(text: &[u8]) -> Option<usize>
    requires { length text.now ≤ MAX_BYTES }
    ensures joint { result ≡ joint_at text.now }
    ensures within { IfSome result (λ at. at ≤ length text.now) }
{
    let mut byte: usize = 0;
    let mut rest = text;
    'lines: while !rest.is_empty() {
        let (line, behind) = cut_line(rest);
        if is_joint(line) {
            return Some(byte);
        }
        byte += line.len() + 1;
        rest = behind;
    }
    None
}

// So many first bytes.
fn first_bytes(text: &[u8], count: usize) -> &[u8]
    requires { count ≤ length text.now }
    ensures bytes { result.now ≡ take count text.now }
    ensures few { length result.now ≤ length text.now }
{
    &text[..count]
}

/// The text of the first part.
pub fn first_part(text: &[u8]) -> &[u8]
    requires { length text.now ≤ MAX_BYTES }
    ensures part { result.now ≡ first_part text.now }
    ensures few { length result.now ≤ length text.now }
{
    match joint_at(text) {
        Some(at) => first_bytes(text, at),
        None => text,
    }
}

/// What stands behind the line that begins at this byte.
pub fn behind_joint(text: &[u8], at: usize) -> &[u8]
    requires few { length text.now ≤ MAX_BYTES }
    requires at { at ≤ length text.now }
    ensures bytes { result.now ≡ behind_joint at text.now }
    ensures few { length result.now ≤ length text.now }
{
    let from = at + 6;
    if from <= text.len() {
        &text[from..]
    } else {
        &text[text.len()..]
    }
}
