//! Lines of help: those of a word, and those whose words another word is near to.
ghost use Rattle.re_asking.specs.NearWords.{asked, ends_word, has_line_of, is_nearest, is_of, line_word, near_words, own_lines};
ghost use Rattle.re_distances.specs.Distances.{distance};
ghost use Rattle.re_problem.specs.ProblemTexts.{lines_of};
ghost use Rattle.std.specs.List.{flat_map, list_all, position_or_len};
ghost use Rattle.std.specs.Prelude.{◌≡◌, ◌≤◌, ◌<◌, ◌+◌, ◌^◌, ◌++◌, IfOk, OnOk, filter, length, nat_le, take};

use re_distances::distance;
use re_labels::NoMemory;
use re_problem::cut_line;
use std::alloc::Global;

/// How many words are named that another one is near to.
const MOST_NEAR: usize = 3;

fn ends_word(byte: u8) -> bool
    ensures { result ≡ ends_word byte }
{
    byte == b' ' || byte == b',' || byte == b':'
}

// How many bytes stand in front of what ends the word of a line.
fn word_length(line: &[u8]) -> usize
    ensures length { result ≡ position_or_len ends_word line.now }
    ensures within { result ≤ length line.now }
{
    let mut at: usize = 0;
    let mut rest = line;
    'bytes: while let [byte, others @ ..] = rest {
        if ends_word(*byte) {
            return at;
        }
        at += 1;
        rest = others;
    }
    at
}

// The word that a line is of.
fn line_word(line: &[u8]) -> &[u8]
    ensures word { result.now ≡ line_word line.now }
    ensures within { length result.now ≤ length line.now }
{
    line.split_at(word_length(line)).0
}

/// Puts the lines of the text that are of this word.
pub fn push_own_lines(out: &mut Vec<u8>, word: &[u8], text: &[u8]) -> Result<(), NoMemory>
    ensures { OnOk result (out.new.items ≡ out.old.items ++ own_lines word.now text.now) }
{
    let mut rest = text;
    'lines: while !rest.is_empty() {
        let (line, behind) = cut_line(rest);
        if line_word(line) == word {
            out.extend_from_slice(line)?;
            out.push(b'\n')?;
        }
        rest = behind;
    }
    Ok(())
}

/// Whether a line of the text is of this word.
pub fn has_own_line(word: &[u8], text: &[u8]) -> bool
    ensures { result ≡ has_line_of word.now text.now }
{
    let mut rest = text;
    'lines: while !rest.is_empty() {
        let (line, behind) = cut_line(rest);
        if line_word(line) == word {
            return true;
        }
        rest = behind;
    }
    false
}

// Whether a word that is so far from the word of a line is no nearer to that of another line of the text.
fn is_least(alloc: Global, word: &[u8], number: usize, text: &[u8]) -> Result<bool, NoMemory>
    requires { length word.now + length text.now < 2 ^ 64 }
    ensures { IfOk result (λ least. least ≡ list_all (λ other. nat_le number (distance word.now (line_word other))) (lines_of text.now)) }
{
    let mut rest = text;
    'lines: while !rest.is_empty() {
        let (line, behind) = cut_line(rest);
        if distance(alloc, word, line_word(line))? < number {
            return Ok(false);
        }
        rest = behind;
    }
    Ok(true)
}

/// Puts the words of the lines of the text, at most three, that this word is nearest to, each with a question mark and a blank. It takes time
/// as the length of the word and the square of that of the text, whose lines are to be of short words.
pub fn push_near_words(
    alloc: Global,
    out: &mut Vec<u8>,
    word: &[u8],
    text: &[u8],
) -> Result<(), NoMemory>
    requires { length word.now + length text.now < 2 ^ 64 }
    ensures { OnOk result (out.new.items ≡ out.old.items ++ near_words word.now text.now) }
{
    let mut rest = text;
    let mut left = MOST_NEAR;
    'lines: while !rest.is_empty() && 0 < left {
        let (line, behind) = cut_line(rest);
        let own = line_word(line);
        let number = distance(alloc, word, own)?;
        if is_least(alloc, word, number, text)? {
            out.extend_from_slice(own)?;
            out.extend_from_slice(b"? ")?;
            left -= 1;
        }
        rest = behind;
    }
    Ok(())
}
