// Sources whose calls fail one after another, and sinks that fail behind each number of bytes.
use crate::answers::{Answered, answer};
use crate::devices::{Devices, SURE, failing_put, failing_read};
use std::alloc::{AllocError, Global};

// A read fault, and a write fault.
const READ_FAULT: u8 = 5;

const WRITE_FAULT: u8 = 6;

fn is_same(one: &Answered, other: &Answered) -> bool {
    one.code == other.code && one.text.as_slice() == other.text.as_slice()
}

fn is_answered(
    alloc: Global,
    line: &str,
    input: &[u8],
    devices: &Devices,
    wanted: &Answered,
) -> Result<bool, AllocError> {
    Ok(is_same(&answer(alloc, line, input, devices)?, wanted))
}

fn is_read_fault(alloc: Global, line: &str, input: &[u8], call: u32) -> Result<bool, AllocError> {
    let found = answer(alloc, line, input, &failing_read(call))?;
    Ok(found.code == READ_FAULT && found.text.is_empty())
}

// Whether each failing call is answered by a read fault with nothing written. With pieces of one byte an input is read by one call more
// than it has bytes; a call behind those isn't made, and changes nothing.
pub(crate) fn each_read(alloc: Global, line: &str, input: &[u8]) -> Result<bool, AllocError> {
    let mut call = 0u32;
    for _ in 0..input.len().saturating_add(1) {
        call = call.saturating_add(1);
        if !is_read_fault(alloc, line, input, call)? {
            return Ok(false);
        }
    }
    let sure = answer(alloc, line, input, &SURE)?;
    is_answered(
        alloc,
        line,
        input,
        &failing_read(call.saturating_add(1)),
        &sure,
    )
}

fn is_write_fault(
    alloc: Global,
    line: &str,
    input: &[u8],
    text: &[u8],
    taken: usize,
) -> Result<bool, AllocError> {
    let found = answer(alloc, line, input, &failing_put(1, taken))?;
    let written = text.get(..taken).unwrap_or(text);
    Ok(found.code == WRITE_FAULT && found.text.as_slice() == written)
}

// Whether a write that fails behind each number of bytes is answered by a write fault with just these bytes written. A sink that would
// take more takes the whole text; the second call isn't made, and changes nothing.
pub(crate) fn each_write(alloc: Global, line: &str, input: &[u8]) -> Result<bool, AllocError> {
    let sure = answer(alloc, line, input, &SURE)?;
    for taken in 0..sure.text.len().saturating_add(2) {
        if !is_write_fault(alloc, line, input, sure.text.as_slice(), taken)? {
            return Ok(false);
        }
    }
    is_answered(alloc, line, input, &failing_put(2, 0), &sure)
}
