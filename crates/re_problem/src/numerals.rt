// Numbers in decimal.
ghost use Rattle.std.specs.Prelude.{◌≡◌, ◌≤◌, ◌<◌, length, IsTrue};
ghost use Rattle.std.specs.Char.{is_ascii_digit};
ghost use Rattle.std.specs.List.{list_all};
ghost use Rattle.re_problem.specs.Numerals.{continued, is_numeral as is_numeral_text, number_of};

// How many digits a number may have.
const MAX_DIGITS: usize = 9;

fn are_digits(text: &[u8]) -> bool
    ensures { result ≡ list_all is_ascii_digit text.now }
{
    text.iter().all(|byte| byte.is_ascii_digit())
}

fn is_numeral(text: &[u8]) -> bool
    ensures { result ≡ is_numeral_text text.now }
{
    let Some(first) = text.first() else {
        return false;
    };
    if text.len() > MAX_DIGITS {
        return false;
    }
    are_digits(text) && (text.len() == 1 || *first != b'0')
}

fn value_of(digits: &[u8]) -> u32
    requires few { length digits.now ≤ 9 }
    requires digits { IsTrue (list_all is_ascii_digit digits.now) }
    ensures { result ≡ continued 0 digits.now }
{
    let mut value = 0;
    for digit in digits {
        value = 10 * value + u32::from(*digit - b'0');
    }
    value
}

/// The number that the text writes in decimal, or None exactly where it is no number of at most 9 digits: digits alone, without
/// a sign and without a leading zero but in `0` itself.
pub fn read_number(text: &[u8]) -> Option<u32>
    ensures { result ≡ number_of text.now }
{
    if is_numeral(text) {
        Some(value_of(text))
    } else {
        None
    }
}
