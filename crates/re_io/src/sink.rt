// What takes bytes.
ghost use Rattle.std.specs.Prelude.{ℕ, List, Option};
ghost use Rattle.re_io.specs.Sink.{PutAppends, HasPutCause};

/// Why a piece was refused: the sink failed and took a prefix of the piece, or there was no memory and it took nothing.
#[derive(Clone, Copy, Debug, PartialEq, Eq)]
pub enum SinkFault {
    Failed,
    NoMemory,
}

pub trait Sink {
    /// The bytes written, where the sink tells them.
    ghost written: { Self → Option (List ℕ) };

    /// How often a piece was refused because the sink failed. It never falls.
    ghost faults: { Self → ℕ };

    /// Appends the piece.
    fn put(&mut self, piece: &[u8]) -> Result<(), SinkFault>
        ensures bytes { PutAppends (written self.old) (written self.new) result piece.now }
        ensures cause { HasPutCause (faults self.old) (faults self.new) result };
}
