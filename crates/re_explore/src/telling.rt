// What is told piece by piece: what is claimed is put as soon as nothing changes it, before more is looked for.
ghost use Rattle.std.specs.Prelude.{◌≡◌, ◌≤◌, ◌⊎◌, ℕ, List, [], Option, Some, false, length, IfOk, IsErrOf};
ghost use Rattle.std.specs.Io.KnownBytes.{Keeps};
ghost use Rattle.re_explore.specs.Expected.{IsExpected, Says};
ghost use Rattle.re_explore.specs.Commands.{is_telling};
ghost use Rattle.re_explore.specs.Telling.{KeepsOrStops, MayTellInput, MayTellOf, SaysTelling, StopsAtLine};
ghost use Rattle.re_explore.specs.declared.command.Command.{Command};
ghost use Rattle.re_frame.specs.Outcomes.{IsAnswer, Outcome};
ghost use Rattle.re_frame.specs.Runs.{Answers, StopsWithin, TakesInput};
ghost use Rattle.re_io.specs.Faults.{Rose};
ghost use Rattle.re_io.specs.Sink.{AppendsPrefix};
ghost use Rattle.re_settle.specs.Answers.{by_claim};
ghost use Rattle.re_settle.specs.Pieces.{IsClaim, IsSure, MayFollow, Says as SaysWhole, told};
ghost use Rattle.re_settle.specs.Words.{IsSettleWord};

use re_frame::{OutputFault, Status, put_output, too_long};
use re_io::{LineFault, MAX_BYTES, Sink, SinkFault, Source, read_all};
use re_labels::NoMemory;
use re_settle::{Claimed, SettleWord, Telling, tell};
use std::alloc::Global;

/// Reads the whole input of `settle`, and tells what is claimed.
pub(crate) fn tell_input<S: Source>(
    alloc: Global,
    word: SettleWord,
    source: &mut S,
) -> Result<Telling, OutputFault>
    requires { IsSettleWord word }
    ensures told { IfOk result (λ telling. (bytes : List ℕ) → S.left source.old ≡ Some bytes → MayTellInput word bytes telling) }
    ensures says { IfOk result SaysWhole }
    ensures sure { IfOk result IsSure }
    ensures emptied { IfOk result (λ _. (bytes : List ℕ) → S.left source.old ≡ Some bytes →
        length bytes ≤ MAX_BYTES → S.left source.new ≡ Some []) }
    ensures fault { IsErrOf result OutputFault.ReadFault → Rose (S.faults source.old) (S.faults source.new) }
    ensures within { IsErrOf result OutputFault.ReadFault → TakesInput (S.left source.old) (S.left source.new) }
    ensures later { S.faults source.old ≤ S.faults source.new }
{
    let bytes = match read_all(alloc, source) {
        Ok(bytes) => bytes,
        Err(LineFault::ReadFault) => return Err(OutputFault::ReadFault),
        Err(LineFault::InputTooLong) => return Ok(Telling::Whole(too_long(alloc)?)),
        Err(LineFault::NoMemory) => return Err(OutputFault::NoMemory),
    };
    Ok(tell(alloc, word, bytes)?)
}

// Puts what is found behind what is claimed.
fn put_rest<K: Sink>(alloc: Global, claimed: &Claimed, sink: &mut K) -> Status
    requires { IsClaim claimed.now }
    ensures answer { IsAnswer result → (rest : List ℕ) × MayFollow claimed.now rest
        × Answers result (K.written sink.old) (K.written sink.new) (by_claim claimed.now.classified.settled rest) }
    ensures partly { result ≡ Status.WriteFault → (rest : List ℕ) × MayFollow claimed.now rest
        × AppendsPrefix (K.written sink.old) (K.written sink.new) rest }
    ensures write_fault { result ≡ Status.WriteFault → Rose (K.faults sink.old) (K.faults sink.new) }
    ensures no_memory { result ≡ Status.NoMemory → Keeps (K.written sink.old) (K.written sink.new) }
    ensures no_read_fault { result ≡ Status.ReadFault → ⊥ }
    ensures later { K.faults sink.old ≤ K.faults sink.new }
{
    match claimed.rest(alloc) {
        Ok(rest) => put_output(&rest, sink),
        Err(NoMemory) => Status::NoMemory,
    }
}

// Puts the lines of what is claimed, and then the rest.
fn put_claims<K: Sink>(alloc: Global, claimed: &Claimed, sink: &mut K) -> Status
    requires { IsClaim claimed.now }
    ensures answer { IsAnswer result → (rest : List ℕ) × MayFollow claimed.now rest
        × Answers result (K.written sink.old) (K.written sink.new) (told claimed.now rest) }
    ensures partly { result ≡ Status.WriteFault → (rest : List ℕ) × MayFollow claimed.now rest
        × StopsWithin (K.written sink.old) (K.written sink.new) (told claimed.now rest).text }
    ensures no_memory { result ≡ Status.NoMemory → Keeps (K.written sink.old) (K.written sink.new)
        ⊎ ((rest : List ℕ) × MayFollow claimed.now rest × StopsAtLine (K.written sink.old) (K.written sink.new) (told claimed.now rest).text) }
    ensures write_fault { result ≡ Status.WriteFault → Rose (K.faults sink.old) (K.faults sink.new) }
    ensures no_read_fault { result ≡ Status.ReadFault → ⊥ }
    ensures later { K.faults sink.old ≤ K.faults sink.new }
{
    let front = match claimed.front(alloc) {
        Ok(front) => front,
        Err(NoMemory) => return Status::NoMemory,
    };
    match sink.put(front.as_slice()) {
        Ok(()) => put_rest(alloc, claimed, sink),
        Err(SinkFault::Failed) => Status::WriteFault,
        Err(SinkFault::NoMemory) => Status::NoMemory,
    }
}

/// Puts what is told: a whole output with one call, and what is claimed before more is looked for.
pub(crate) fn put_telling<K: Sink>(alloc: Global, telling: &Telling, sink: &mut K) -> Status
    requires { IsSure telling.now }
    ensures answer { IsAnswer result → (words : List (List ℕ)) (bytes : List ℕ) → MayTellOf words bytes telling.now →
        (outcome : Outcome) × IsExpected words bytes outcome × Answers result (K.written sink.old) (K.written sink.new) outcome }
    ensures says { IsAnswer result → (command : Option Command) → SaysTelling telling.now command → Says result command }
    ensures partly { result ≡ Status.WriteFault → (words : List (List ℕ)) (bytes : List ℕ) → MayTellOf words bytes telling.now →
        (outcome : Outcome) × IsExpected words bytes outcome × StopsWithin (K.written sink.old) (K.written sink.new) outcome.text }
    ensures no_memory { result ≡ Status.NoMemory → (words : List (List ℕ)) (bytes : List ℕ) → MayTellOf words bytes telling.now →
        KeepsOrStops words bytes (K.written sink.old) (K.written sink.new) }
    ensures nothing { result ≡ Status.NoMemory → (command : Option Command) → SaysTelling telling.now command → is_telling command ≡ false →
        Keeps (K.written sink.old) (K.written sink.new) }
    ensures write_fault { result ≡ Status.WriteFault → Rose (K.faults sink.old) (K.faults sink.new) }
    ensures no_read_fault { result ≡ Status.ReadFault → ⊥ }
    ensures later { K.faults sink.old ≤ K.faults sink.new }
{
    match telling {
        Telling::Whole(output) => put_output(output, sink),
        Telling::Claims(claimed) => put_claims(alloc, claimed, sink),
    }
}
