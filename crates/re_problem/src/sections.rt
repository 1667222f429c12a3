//! Section lines of texts: lines that begin with `==`, judged as lists of words.
ghost use Rattle.re_problem.specs.Bytes.{is_blank as is_blank_byte};
ghost use Rattle.re_problem.specs.SectionLines.{is_section, section_name, words_of};
ghost use Rattle.std.specs.Prelude.{◌≡◌, ◌<◌, ◌≤◌, ◌∷◌, [], length, position, not, true, IfSome, MatchOption, None, Some};

const MARK: &[u8] = b"==";

/// Whether the line is a section line: its first two bytes are `==`.
pub fn begins_section(line: &[u8]) -> bool
    ensures test { result ≡ is_section line.now }
    ensures long { result ≡ true → 2 ≤ length line.now }
{
    line.len() >= 2 && line[0] == b'=' && line[1] == b'='
}

// A space, a tab or a carriage return.
fn is_blank(byte: u8) -> bool
    ensures { result ≡ is_blank_byte byte }
{
    byte == b' ' || byte == b'\t' || byte == b'\r'
}

// The place of the first byte that is no blank.
fn word_place(line: &[u8]) -> Option<usize>
    ensures place { result ≡ position (λ b. not (is_blank_byte b)) line.now }
    ensures within { IfSome result (λ place. place < length line.now) }
{
    line.iter().position(|byte| !is_blank(*byte))
}

// The place of the first blank.
fn blank_place(line: &[u8]) -> Option<usize>
    ensures place { result ≡ position is_blank_byte line.now }
    ensures within { IfSome result (λ place. place < length line.now) }
{
    line.iter().position(|byte| is_blank(*byte))
}

/// The first word of a line and what follows it, or None exactly where there is no word: words are separated by spaces, tabs and
/// carriage returns.
pub fn next_word(line: &[u8]) -> Option<(&[u8], &[u8])>
    ensures { MatchOption result (words_of line.now ≡ []) (λ r. words_of line.now ≡ r.0.now ∷ words_of r.1.now) }
{
    let Some(from) = word_place(line) else {
        return None;
    };
    let line = &line[from..];
    match blank_place(line) {
        Some(to) => Some((&line[..to], &line[to + 1..])),
        None => Some((line, &line[line.len()..])),
    }
}

/// The name in a line of two words, the mark `==` and a name, or None exactly where the line has other words.
pub fn section_name(line: &[u8]) -> Option<&[u8]>
    ensures { MatchOption result (section_name line.now ≡ None) (λ name. section_name line.now ≡ Some name.now) }
{
    let Some((mark, rest)) = next_word(line) else {
        return None;
    };
    let Some((name, rest)) = next_word(rest) else {
        return None;
    };
    let None = next_word(rest) else {
        return None;
    };
    if mark == MARK { Some(name) } else { None }
}
