// The bytes of a line.
ghost use Rattle.std.specs.Prelude.{◌≡◌, ◌≤◌, length};
ghost use Rattle.re_problem.specs.Bytes.{bad_byte, behind_blanks, is_empty_line as is_blank_line, is_allowed as is_allowed_byte, is_blank as is_blank_byte, is_sign as is_sign_byte};

/// Whether the byte is a blank: a space, a tab or a carriage return.
pub(crate) fn is_blank(byte: u8) -> bool
    ensures { result ≡ is_blank_byte byte }
{
    byte == b' ' || byte == b'\t' || byte == b'\r'
}

fn is_sign(byte: u8) -> bool
    ensures { result ≡ is_sign_byte byte }
{
    byte == b'(' || byte == b')' || byte == b'[' || byte == b']' || byte == b'^' || byte == b'%'
}

fn is_allowed(byte: u8) -> bool
    ensures { result ≡ is_allowed_byte byte }
{
    byte.is_ascii_alphanumeric() || byte == b'_' || is_sign(byte) || is_blank(byte)
}

/// The place of the first byte that a line of items may not have, or None exactly where it may have each: letters, digits, `_`,
/// `(`, `)`, `[`, `]`, `^`, `%` and blanks. It passes the line once.
pub fn first_bad_byte(line: &[u8]) -> Option<usize>
    ensures { result ≡ bad_byte line.now }
{
    line.iter().position(|byte| !is_allowed(*byte))
}

/// Whether the line is of blanks alone: of spaces, tabs and carriage returns.
pub fn is_empty_line(line: &[u8]) -> bool
    ensures { result ≡ is_blank_line line.now }
{
    line.iter().all(|byte| is_blank(*byte))
}

/// The first place from this one on where no blank stands, or the end of the text.
pub(crate) fn skip_blanks(text: &[u8], at: usize) -> usize
    requires { at ≤ length text.now }
    ensures place { result ≡ behind_blanks text.now at }
    ensures from { at ≤ result }
    ensures within { result ≤ length text.now }
{
    let mut place = at;
    'blanks: while place < text.len() && is_blank(text[place]) {
        place += 1;
    }
    place
}
