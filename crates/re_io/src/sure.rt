// A source and a sink in memory that never fail.
ghost use Rattle.std.specs.Io.{ReadsAtMost};
ghost use Rattle.std.specs.Io.KnownBytes.{ReadConsumes};
ghost use Rattle.std.specs.Prelude.{◌≡◌, ◌≤◌, ◌<◌, ◌++◌, [], Some, IfOk, length, take, drop, min};
ghost use Rattle.re_io.specs.Faults.{HasCause};

use crate::{Failed, Sink, SinkFault, Source};
use std::alloc::Global;
use std::marker::Model;

/// Bytes in memory, given in pieces. It never fails.
#[derive(Drop)]
pub struct SureSource {
    bytes: Vec<u8>,
    at: usize,
    piece: usize,
}

impl Model for SureSource {
    ghost use Rattle.std.specs.Prelude.{◌≤◌, drop, length};
    ghost use Rattle.re_io.specs.Sure.{SureInput};

    ghost Value = { SureInput };

    ghost view = { λ a. record { left = drop a.at a.bytes.items; piece = a.piece } };

    ghost invariant = { λ a. (1 ≤ a.piece) × (a.at ≤ length a.bytes.items) };
}

impl SureSource {
    /// These bytes, of which a read gives at most `piece`.
    pub fn new(bytes: Vec<u8>, piece: usize) -> SureSource
        requires { 1 ≤ piece }
        ensures left { result.left ≡ bytes.items }
        ensures piece { result.piece ≡ piece }
    {
        SureSource {
            bytes,
            at: 0,
            piece,
        }
    }
}

// Copies the front of the bytes into the front of the buffer, at most `piece` of them.
fn copy_front(bytes: &[u8], piece: usize, buf: &mut [u8]) -> usize
    ensures count { result ≡ min (min (length bytes.now) piece) (length buf.old) }
    ensures front { take result buf.new ≡ take result bytes.now }
{
    let count = bytes.len().min(piece).min(buf.len());
    buf[..count].copy_from_slice(&bytes[..count]);
    count
}

// Gives the next bytes of a source in memory, at most `piece` of them, and steps past them.
pub(crate) fn give(bytes: &[u8], at: &mut usize, piece: usize, buf: &mut [u8]) -> usize
    requires inside { at.old ≤ length bytes.now }
    requires piece { 1 ≤ piece }
    ensures bound { result ≤ length buf.new }
    ensures piece { result ≤ piece }
    ensures inside { at.new ≤ length bytes.now }
    ensures given { drop at.old bytes.now ≡ take result buf.new ++ drop at.new bytes.now }
    ensures end { result ≡ 0 → 0 < length buf.new → drop at.new bytes.now ≡ [] }
{
    let count = copy_front(&bytes[*at..], piece, buf);
    *at += count;
    count
}

impl Source for SureSource {
    ghost use Rattle.std.specs.Prelude.{Some};

    ghost left = { λ s. Some s.left };

    ghost faults = { λ _. 0 };

    fn read(&mut self, buf: &mut [u8]) -> Result<usize, Failed>
        ensures bound { ReadsAtMost result buf.new }
        ensures bytes { ReadConsumes (Some self.old.left) (Some self.new.left) result buf.new }
        ensures cause { HasCause 0 0 result }
        ensures piece { IfOk result (λ count. count ≤ self.old.piece) }
        ensures same { self.new.piece ≡ self.old.piece }
    {
        Ok(give(&self.bytes, &mut self.at, self.piece, buf))
    }
}

/// A sink in memory that never fails but for want of memory.
#[derive(Drop)]
pub struct SureSink {
    bytes: Vec<u8>,
}

impl Model for SureSink {
    ghost use Rattle.std.specs.Prelude.{ℕ, List};

    ghost Value = { List ℕ };

    ghost view = { λ a. a.bytes.items };
}

impl SureSink {
    /// A sink with nothing written.
    pub fn new(alloc: Global) -> SureSink
        ensures { result ≡ [] }
    {
        SureSink {
            bytes: Vec::new(alloc),
        }
    }

    /// The bytes written so far.
    pub fn written(&self) -> &[u8]
        ensures { result.now ≡ self.now }
    {
        &self.bytes
    }
}

impl Sink for SureSink {
    ghost use Rattle.std.specs.Prelude.{Some};

    ghost written = { λ s. Some s };

    ghost faults = { λ _. 0 };

    fn put(&mut self, piece: &[u8]) -> Result<(), SinkFault> {
        match self.bytes.extend_from_slice(piece) {
            Ok(()) => Ok(()),
            Err(_) => Err(SinkFault::NoMemory),
        }
    }
}
