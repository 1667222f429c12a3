// The tool over a source and a sink in memory, which cannot fail.
ghost use Rattle.std.specs.Prelude.{◌≡◌, ◌≢◌, ◌≤◌, ◌++◌, [], IsFalse, IsTrue, Some, length, map, string_bytes};
ghost use Rattle.re_explore.specs.Expected.{IsExpected, reads_input, tells_ahead};
ghost use Rattle.re_explore.specs.Telling.{KeepsOrStops};
ghost use Rattle.re_frame.specs.Outcomes.{Outcome};

use crate::{Status, run};
use re_io::{MAX_BYTES, SureSink, SureSource};
use std::alloc::Global;

/// `run` where nothing can fail: the answer is one of the words and the bytes, unless there is no memory, and never a read or write
/// fault; a command that reads leaves nothing of an input of at most `MAX_BYTES` bytes.
pub fn run_sure(
    alloc: Global,
    words: &[String],
    source: &mut SureSource,
    sink: &mut SureSink,
) -> Status
    ensures answer { result ≢ Status.NoMemory → (outcome : Outcome) × IsExpected (map string_bytes words.now) source.old.left outcome
        × (result ≡ outcome.status) × (sink.new ≡ sink.old ++ outcome.text) }
    ensures emptied { result ≢ Status.NoMemory → IsTrue (reads_input (map string_bytes words.now)) → length source.old.left ≤ MAX_BYTES →
        source.new.left ≡ [] }
    ensures not_read { IsFalse (reads_input (map string_bytes words.now)) → source.new ≡ source.old }
    ensures no_memory { result ≡ Status.NoMemory → IsFalse (tells_ahead (map string_bytes words.now)) → sink.new ≡ sink.old }
    ensures partly { result ≡ Status.NoMemory → KeepsOrStops (map string_bytes words.now) source.old.left (Some sink.old) (Some sink.new) }
    ensures no_fault { (result ≢ Status.ReadFault) × (result ≢ Status.WriteFault) }
{
    run(alloc, words, source, sink)
}
