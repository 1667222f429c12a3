// Texts that are cut at a place, or of which the byte there is replaced by another, at each place or at some: each is answered by the one
// line of a fault, of a limit or of a verdict, or as the reading of an undamaged text.
use crate::answers::answer;
use crate::devices::SURE;
use std::alloc::{AllocError, Global};

// The exit codes.
const DONE: u8 = 0;

const NO: u8 = 1;

const BAD_INPUT: u8 = 3;

const LIMIT: u8 = 4;

// What stands in place of a byte.
const OTHERS: [u8; 7] = [b'*', b'=', b'^', b'\n', b'A', b'z', 0];

// Whether the text is one line that begins so.
fn is_line(text: &[u8], begin: &[u8]) -> bool {
    text.starts_with(begin)
        && text.iter().filter(|byte| **byte == b'\n').count() == 1
        && text.ends_with(b"\n")
}

fn is_done(alloc: Global, word: &str, text: &[u8]) -> Result<bool, AllocError> {
    let again = answer(alloc, word, text, &SURE)?;
    Ok(again.code == DONE)
}

fn is_read_as_itself(alloc: Global, text: &[u8]) -> Result<bool, AllocError> {
    let again = answer(alloc, "read", text, &SURE)?;
    Ok(again.code == DONE && again.text.as_slice() == text)
}

// Whether the text is what the word writes of a text without a fault: a problem or a table that is read again, or lines of nodes.
fn is_read_again(alloc: Global, word: &str, text: &[u8]) -> Result<bool, AllocError> {
    match word {
        "read" => is_read_as_itself(alloc, text),
        "faster" | "slower" | "extract" => is_done(alloc, "table", text),
        "run" => Ok(text.starts_with(b"node 0 round ") && text.ends_with(b"\n")),
        _ => Ok(false),
    }
}

// Whether this is what may be answered.
fn may_be(alloc: Global, word: &str, code: u8, text: &[u8]) -> Result<bool, AllocError> {
    match code {
        BAD_INPUT => Ok(is_line(text, b"input: ")),
        LIMIT => Ok(is_line(text, b"limit: ")),
        NO => Ok(is_line(text, b"")),
        DONE if is_line(text, b"") => Ok(true),
        DONE => is_read_again(alloc, word, text),
        _ => Ok(false),
    }
}

// Whether the input is answered as it may be.
fn is_answered(alloc: Global, word: &str, input: &[u8]) -> Result<bool, AllocError> {
    let answered = answer(alloc, word, input, &SURE)?;
    may_be(alloc, word, answered.code, answered.text.as_slice())
}

// The input with another byte at this place.
fn replaced(alloc: Global, input: &[u8], place: usize, other: u8) -> Result<Vec<u8>, AllocError> {
    let mut bytes = Vec::from_slice(alloc, input)?;
    if let Some(byte) = bytes.as_mut_slice().get_mut(place) {
        *byte = other;
    }
    Ok(bytes)
}

// Whether the input is answered as it may be with each other byte at this place.
fn are_others_answered(
    alloc: Global,
    word: &str,
    input: &[u8],
    place: usize,
) -> Result<bool, AllocError> {
    for other in OTHERS {
        if !is_answered(alloc, word, &replaced(alloc, input, place, other)?)? {
            return Ok(false);
        }
    }
    Ok(true)
}

fn is_damage_answered(
    alloc: Global,
    word: &str,
    input: &[u8],
    place: usize,
) -> Result<bool, AllocError> {
    let front = input.get(..place).unwrap_or(input);
    Ok(is_answered(alloc, word, front)? && are_others_answered(alloc, word, input, place)?)
}

// Whether the input is answered as it may be where it is damaged, at places that are so many apart.
pub(crate) fn each_damage(
    alloc: Global,
    word: &str,
    input: &[u8],
    apart: usize,
) -> Result<bool, AllocError> {
    for place in 0..input.len() {
        if place.checked_rem(apart) == Some(0) && !is_damage_answered(alloc, word, input, place)? {
            return Ok(false);
        }
    }
    Ok(true)
}

fn is_fault(alloc: Global, word: &str, input: &[u8], line: &[u8]) -> Result<bool, AllocError> {
    let answered = answer(alloc, word, input, &SURE)?;
    Ok(answered.code == BAD_INPUT && answered.text.as_slice().starts_with(line))
}

// Whether each front that lacks two bytes or more is answered as one that ends too early.
pub(crate) fn each_front(alloc: Global, word: &str, input: &[u8]) -> Result<bool, AllocError> {
    for length in 0..input.len().saturating_sub(1) {
        let front = input.get(..length).unwrap_or(input);
        if !is_fault(alloc, word, front, b"input: ends too early\n")? {
            return Ok(false);
        }
    }
    Ok(true)
}

// Whether a star at each place is answered by the line of a fault.
pub(crate) fn each_star(alloc: Global, word: &str, input: &[u8]) -> Result<bool, AllocError> {
    for place in 0..input.len() {
        if !is_fault(
            alloc,
            word,
            &replaced(alloc, input, place, b'*')?,
            b"input: ",
        )? {
            return Ok(false);
        }
    }
    Ok(true)
}
