// The reading of a whole input.
ghost use Rattle.std.specs.Io.KnownBytes.{Consumes};
ghost use Rattle.std.specs.Prelude.{◌≡◌, ◌<◌, ◌≤◌, ◌↔◌, ℕ, List, [], length, IfOk, IsErrOf};
ghost use Rattle.re_io.specs.Faults.{Rose};
ghost use Rattle.re_io.specs.declared.read.LineFault.TheVariants.{NoMemory};

use crate::{Failed, Source};
use std::alloc::{AllocError, Global};

/// The most bytes that an input may have.
pub const MAX_BYTES: usize = 16_777_216;

// How many bytes one read asks for.
const PIECE: usize = 16_384;

/// Why an input was not read: the source failed, it gave more than `MAX_BYTES` bytes, or there was no memory.
#[derive(Clone, Copy, Debug, PartialEq, Eq)]
pub enum LineFault {
    ReadFault,
    InputTooLong,
    NoMemory,
}

impl From<AllocError> for LineFault {
    ghost from_gives = { λ _ e. e ≡ NoMemory };

    fn from(_: AllocError) -> Self {
        LineFault::NoMemory
    }
}

/// All bytes that the source gives up to its end. After an `Err` the source has been read in part.
///
/// `InputTooLong` comes exactly where more than `MAX_BYTES` bytes were taken, so after each other `Err` no more were, and
/// `ReadFault` only where the source failed in this call.
pub fn read_all<S: Source>(alloc: Global, source: &mut S) -> Result<Vec<u8>, LineFault>
    ensures all { IfOk result (λ all. (bytes : List ℕ) → S.left source.old ≡ Some bytes →
        (all.items ≡ bytes) × (S.left source.new ≡ Some [])) }
    ensures takes { (bytes : List ℕ) × Consumes (S.left source.old) (S.left source.new) bytes
        × (IsErrOf result LineFault.InputTooLong ↔ (MAX_BYTES < length bytes)) }
    ensures limit { IfOk result (λ all. length all.items ≤ MAX_BYTES) }
    ensures too_long { IsErrOf result LineFault.InputTooLong → (bytes : List ℕ) → S.left source.old ≡ Some bytes →
        MAX_BYTES < length bytes }
    ensures fault { IsErrOf result LineFault.ReadFault → Rose (S.faults source.old) (S.faults source.new) }
    ensures later { S.faults source.old ≤ S.faults source.new }
{
    let mut all = Vec::new(alloc);
    let mut buffer = [0; PIECE];
    'pieces: loop {
        let count = match source.read(&mut buffer) {
            Ok(count) => count,
            Err(Failed) => return Err(LineFault::ReadFault),
        };
        if count == 0 {
            return Ok(all);
        }
        if all.len() + count > MAX_BYTES {
            return Err(LineFault::InputTooLong);
        }
        all.extend_from_slice(&buffer[..count])?;
    }
}
