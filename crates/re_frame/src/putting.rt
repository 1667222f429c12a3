// The putting of a text.
ghost use Rattle.std.specs.Prelude.{◌≡◌, ◌≤◌, []};
ghost use Rattle.std.specs.Io.KnownBytes.{Keeps};
ghost use Rattle.re_io.specs.Faults.{Rose};
ghost use Rattle.re_frame.specs.Outcomes.{IsAnswer, outcome_of};
ghost use Rattle.re_frame.specs.Runs.{Answers, StopsWithin};

use crate::output::Output;
use crate::status::Status;
use re_io::{Sink, SinkFault};

/// Puts the whole text of an output with one call, unless it is empty.
pub fn put_output<K: Sink>(output: &Output, sink: &mut K) -> Status
    ensures answer { IsAnswer result → Answers result (K.written sink.old) (K.written sink.new) (outcome_of output.now) }
    ensures write_fault { result ≡ Status.WriteFault → Rose (K.faults sink.old) (K.faults sink.new) }
    ensures not_put { output.now.text.items ≡ [] → sink.new ≡ sink.old }
    ensures partly { result ≡ Status.WriteFault → StopsWithin (K.written sink.old) (K.written sink.new) (outcome_of output.now).text }
    ensures no_memory { result ≡ Status.NoMemory → Keeps (K.written sink.old) (K.written sink.new) }
    ensures no_read_fault { result ≡ Status.ReadFault → ⊥ }
    ensures later { K.faults sink.old ≤ K.faults sink.new }
{
    if output.text.is_empty() {
        return output.answer.status();
    }
    match sink.put(output.text.as_slice()) {
        Ok(()) => output.answer.status(),
        Err(SinkFault::Failed) => Status::WriteFault,
        Err(SinkFault::NoMemory) => Status::NoMemory,
    }
}
