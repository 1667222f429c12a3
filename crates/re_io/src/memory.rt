// A source and a sink in memory that fail at chosen calls.
ghost use Rattle.std.specs.Prelude.{◌≡◌, ◌≤◌, ◌↔◌, ◌++◌, [], Some, None, take, IsOk, IsErr, IfOk, IsErrOf, IsTrue, Contains, MatchOption};
ghost use Rattle.std.specs.Io.{ReadsAtMost};
ghost use Rattle.std.specs.Io.KnownBytes.{ReadConsumes};
ghost use Rattle.re_io.specs.Faults.{HasCause};
ghost use Rattle.re_io.specs.Sink.{PutAppends, HasPutCause};
ghost use Rattle.re_io.specs.Memory.{next_count, failing_call};

use crate::sure::give;
use crate::{Failed, Sink, SinkFault, Source};
use std::alloc::Global;
use std::marker::Model;

/// Bytes in memory, given in pieces. The calls of `read` whose numbers, counted from 1, were named answer `Failed`.
#[derive(Drop)]
pub struct MemSource {
    bytes: Vec<u8>,
    at: usize,
    piece: usize,
    failing: Vec<u32>,
    calls: u64,
    faults: u64,
}

impl Model for MemSource {
    ghost use Rattle.std.specs.Prelude.{◌≤◌, drop, length};
    ghost use Rattle.re_io.specs.Memory.{MemInput};

    ghost Value = { MemInput };

    ghost view = { λ a. record {
      left = drop a.at a.bytes.items;
      piece = a.piece;
      failing = a.failing.items;
      calls = a.calls;
      faults = a.faults;
    } };

    ghost invariant = { λ a. (1 ≤ a.piece) × (a.at ≤ length a.bytes.items) };
}

impl MemSource {
    /// These bytes, of which a read gives at most `piece`, with these failing calls.
    pub fn new(bytes: Vec<u8>, piece: usize, failing: Vec<u32>) -> MemSource
        requires { 1 ≤ piece }
        ensures { result ≡ record { left = bytes.items; piece = piece; failing = failing.items; calls = 0; faults = 0 } }
    {
        MemSource {
            bytes,
            at: 0,
            piece,
            failing,
            calls: 0,
            faults: 0,
        }
    }
}

// Is the call with this number one of those that fail?
fn is_failing(failing: &[u32], call: u64) -> bool
    ensures { IsTrue result ↔ Contains failing.now call }
{
    failing.iter().any(|number| u64::from(*number) == call)
}

impl Source for MemSource {
    ghost left = { λ s. Some s.left };

    ghost faults = { λ s. s.faults };

    fn read(&mut self, buf: &mut [u8]) -> Result<usize, Failed>
        ensures bound { ReadsAtMost result buf.new }
        ensures bytes { ReadConsumes (Some self.old.left) (Some self.new.left) result buf.new }
        ensures cause { HasCause self.old.faults self.new.faults result }
        ensures piece { IfOk result (λ count. count ≤ self.old.piece) }
        ensures failed { IsErr result ↔ Contains self.old.failing self.new.calls }
        ensures calls { self.new.calls ≡ next_count self.old.calls }
        ensures same { (self.new.piece ≡ self.old.piece) × (self.new.failing ≡ self.old.failing) }
    {
        self.calls = self.calls.saturating_add(1);
        if is_failing(&self.failing, self.calls) {
            self.faults = self.faults.saturating_add(1);
            return Err(Failed);
        }
        Ok(give(&self.bytes, &mut self.at, self.piece, buf))
    }
}

/// A call of `put` that fails, by its number counted from 1, and how many bytes of its piece it takes.
#[derive(Clone, Copy, Debug, PartialEq, Eq)]
pub struct FailAt {
    pub call: u32,
    pub taken: usize,
}

/// A sink in memory. The calls of `put` that were named take a prefix of the piece and answer `Failed`.
#[derive(Drop)]
pub struct MemSink {
    bytes: Vec<u8>,
    failing: Vec<FailAt>,
    calls: u64,
    faults: u64,
}

impl Model for MemSink {
    ghost use Rattle.re_io.specs.Memory.{MemOutput};

    ghost Value = { MemOutput };

    ghost view = { λ a. record {
      written = a.bytes.items;
      failing = a.failing.items;
      calls = a.calls;
      faults = a.faults;
    } };
}

impl MemSink {
    /// A sink with nothing written and these failing calls. Where two entries name one call, the first counts.
    pub fn new(alloc: Global, failing: Vec<FailAt>) -> MemSink
        ensures { result ≡ record { written = []; failing = failing.items; calls = 0; faults = 0 } }
    {
        MemSink {
            bytes: Vec::new(alloc),
            failing,
            calls: 0,
            faults: 0,
        }
    }

    /// The bytes written so far.
    pub fn written(&self) -> &[u8]
        ensures { result.now ≡ self.now.written }
    {
        &self.bytes
    }
}

// How many bytes the call with this number takes, where it is one of those that fail.
fn taken_at(failing: &[FailAt], call: u64) -> Option<usize>
    ensures { result ≡ failing_call failing.now call }
{
    failing
        .iter()
        .find(|entry| u64::from(entry.call) == call)
        .map(|entry| entry.taken)
}

impl Sink for MemSink {
    ghost written = { λ s. Some s.written };

    ghost faults = { λ s. s.faults };

    fn put(&mut self, piece: &[u8]) -> Result<(), SinkFault>
        ensures bytes { PutAppends (Some self.old.written) (Some self.new.written) result piece.now }
        ensures cause { HasPutCause self.old.faults self.new.faults result }
        ensures fails { MatchOption (failing_call self.old.failing self.new.calls)
            (IsErrOf result SinkFault.Failed → ⊥)
            (λ taken. IsErrOf result SinkFault.Failed → self.new.written ≡ self.old.written ++ take taken piece.now) }
        ensures ok { IsOk result → failing_call self.old.failing self.new.calls ≡ None }
        ensures calls { self.new.calls ≡ next_count self.old.calls }
        ensures same { self.new.failing ≡ self.old.failing }
    {
        self.calls = self.calls.saturating_add(1);
        let taken = taken_at(&self.failing, self.calls);
        let count = piece.len().min(taken.unwrap_or(piece.len()));
        if self.bytes.extend_from_slice(&piece[..count]).is_err() {
            return Err(SinkFault::NoMemory);
        }
        if taken.is_some() {
            self.faults = self.faults.saturating_add(1);
            return Err(SinkFault::Failed);
        }
        Ok(())
    }
}
