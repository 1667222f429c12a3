// The whole program.
ghost use Rattle.std.specs.Prelude.{◌≡◌, ◌≤◌, ◌↔◌, List, ℕ, [], None, map, length, string_bytes, IsTrue, IsFalse, IfOk, IsOk, IsErrOf};
ghost use Rattle.std.specs.Io.KnownBytes.{Appends, Keeps};
ghost use Rattle.re_io.specs.Faults.{Rose};
ghost use Rattle.re_explore.specs.Commands.{command_of, is_judging};
ghost use Rattle.re_explore.specs.Expected.{IsExpected, Says, reads_input, tells_ahead};
ghost use Rattle.re_explore.specs.Telling.{KeepsOrStops, MayTellOf, SaysTelling};
ghost use Rattle.re_explore.specs.Worth.{TextWorth};
ghost use Rattle.re_settle.specs.Pieces.{IsSure};
ghost use Rattle.re_frame.specs.Outcomes.{IsAnswer, Outcome, outcome_of, status_of};
ghost use Rattle.re_frame.specs.Runs.{Answers, StopsWithin, TakesInput, Tells};

use crate::command::{Command, bad_words, command_from, help, help_on};
use crate::telling::{put_telling, tell_input};
use crate::text_words::TextWord;
use re_frame::{Output, OutputFault, Status, answer_input, find_input};
use re_inputs::input_output;
use re_io::{MAX_BYTES, Sink, Source};
use re_judging::Judge;
use re_settle::Telling;
use re_why::Why;
use std::alloc::Global;

// The whole output for the words, from the source where the command reads.
fn output_from<S: Source>(
    alloc: Global,
    words: &[String],
    source: &mut S,
) -> Result<Output, OutputFault>
    ensures output { IfOk result (λ output. (bytes : List ℕ) → Tells (reads_input (map string_bytes words.now)) (S.left source.old) bytes →
        IsExpected (map string_bytes words.now) bytes (outcome_of output)) }
    ensures says { IfOk result (λ output. Says (status_of output.answer) (command_of (map string_bytes words.now))) }
    ensures read_fault { IsErrOf result OutputFault.ReadFault →
        IsTrue (reads_input (map string_bytes words.now)) × Rose (S.faults source.old) (S.faults source.new) }
    ensures read_within { IsErrOf result OutputFault.ReadFault → TakesInput (S.left source.old) (S.left source.new) }
    ensures emptied { IsOk result → IsTrue (reads_input (map string_bytes words.now)) →
        (bytes : List ℕ) → S.left source.old ≡ Some bytes → length bytes ≤ MAX_BYTES → S.left source.new ≡ Some [] }
    ensures not_read { IsFalse (reads_input (map string_bytes words.now)) → source.new ≡ source.old }
    ensures later { S.faults source.old ≤ S.faults source.new }
{
    match command_from(words) {
        None => Ok(bad_words(alloc, words)?),
        Some(Command::Help) => Ok(help(alloc)?),
        Some(Command::HelpOn) => Ok(help_on(alloc, words)?),
        Some(Command::Chains(word)) => find_input(alloc, &word, source),
        Some(Command::Explains) => answer_input(alloc, &Why, source),
        Some(Command::Reads(word)) => find_input(alloc, &word, source),
        Some(Command::Beside(beside)) => find_input(alloc, &beside, source),
        Some(Command::Relaxes(word)) => find_input(alloc, &word, source),
        Some(Command::Describes(word)) => find_input(alloc, &word, source),
        Some(Command::Judges) => find_input(alloc, &Judge, source),
        Some(Command::Shows(word)) => find_input(alloc, &word, source),
        Some(Command::Forests(word)) => find_input(alloc, &word, source),
        Some(Command::Inputs(word)) => Ok(input_output(alloc, word)?),
    }
}

// What is told for the words, from the source where the command reads.
fn telling_from<S: Source>(
    alloc: Global,
    words: &[String],
    source: &mut S,
) -> Result<Telling, OutputFault>
    ensures told { IfOk result (λ telling. (bytes : List ℕ) → Tells (reads_input (map string_bytes words.now)) (S.left source.old) bytes →
        MayTellOf (map string_bytes words.now) bytes telling) }
    ensures says { IfOk result (λ telling. SaysTelling telling (command_of (map string_bytes words.now))) }
    ensures sure { IfOk result IsSure }
    ensures read_fault { IsErrOf result OutputFault.ReadFault →
        IsTrue (reads_input (map string_bytes words.now)) × Rose (S.faults source.old) (S.faults source.new) }
    ensures read_within { IsErrOf result OutputFault.ReadFault → TakesInput (S.left source.old) (S.left source.new) }
    ensures emptied { IsOk result → IsTrue (reads_input (map string_bytes words.now)) →
        (bytes : List ℕ) → S.left source.old ≡ Some bytes → length bytes ≤ MAX_BYTES → S.left source.new ≡ Some [] }
    ensures not_read { IsFalse (reads_input (map string_bytes words.now)) → source.new ≡ source.old }
    ensures later { S.faults source.old ≤ S.faults source.new }
{
    match command_from(words) {
        Some(Command::Reads(TextWord::Settles(word))) => tell_input(alloc, word, source),
        _ => match output_from(alloc, words, source) {
            Ok(output) => Ok(Telling::Whole(output)),
            Err(fault) => Err(fault),
        },
    }
}

/// Does what the words ask: reads the source where the command reads, and puts the whole text with one call; that of `settle` with two, the first
/// as soon as nothing changes what is claimed.
pub fn run<S: Source, K: Sink>(
    alloc: Global,
    words: &[String],
    source: &mut S,
    sink: &mut K,
) -> Status
    // Done, No, BadWords, BadInput and Limit come as the words and the bytes say, with exactly the text of that outcome.
    ensures answer { IsAnswer result → (bytes : List ℕ) → Tells (reads_input (map string_bytes words.now)) (S.left source.old) bytes →
        (outcome : Outcome) × IsExpected (map string_bytes words.now) bytes outcome × Answers result (K.written sink.old) (K.written sink.new) outcome }

    // Whatever the source tells: BadWords exactly where the words are no command, and No only to a command that judges.
    ensures bad_words { IsAnswer result → (result ≡ Status.BadWords ↔ command_of (map string_bytes words.now) ≡ None) }
    ensures no { result ≡ Status.No → IsTrue (is_judging (command_of (map string_bytes words.now))) }

    // The other three, each with its cause and what it leaves.
    ensures read_fault { result ≡ Status.ReadFault →
        IsTrue (reads_input (map string_bytes words.now)) × Rose (S.faults source.old) (S.faults source.new) }
    ensures read_within { result ≡ Status.ReadFault → TakesInput (S.left source.old) (S.left source.new) }
    ensures write_fault { result ≡ Status.WriteFault → Rose (K.faults sink.old) (K.faults sink.new) }
    ensures partly { result ≡ Status.WriteFault → (bytes : List ℕ) → Tells (reads_input (map string_bytes words.now)) (S.left source.old) bytes →
        (outcome : Outcome) × IsExpected (map string_bytes words.now) bytes outcome × StopsWithin (K.written sink.old) (K.written sink.new) outcome.text }
    ensures read_nothing_written { result ≡ Status.ReadFault → sink.new ≡ sink.old }
    ensures memory_nothing_written { result ≡ Status.NoMemory → IsFalse (tells_ahead (map string_bytes words.now)) →
        Keeps (K.written sink.old) (K.written sink.new) }
    ensures memory_partly { result ≡ Status.NoMemory → (bytes : List ℕ) → Tells (reads_input (map string_bytes words.now)) (S.left source.old) bytes →
        KeepsOrStops (map string_bytes words.now) bytes (K.written sink.old) (K.written sink.new) }

    // What is written with Done by the words that make certificates: it is read again as the certificate that was made, which is a sound
    // chain or, where it was searched for, one that goes on from the given chain and that `check` accepts, or that `given` accepts behind a
    // line `== given`.
    ensures text_worth { result ≡ Status.Done → (bytes : List ℕ) → Tells (reads_input (map string_bytes words.now)) (S.left source.old) bytes →
        (text : List ℕ) × Appends (K.written sink.old) (K.written sink.new) text × TextWorth (command_of (map string_bytes words.now)) bytes text }

    // What is left of the input.
    ensures emptied { IsAnswer result → IsTrue (reads_input (map string_bytes words.now)) →
        (bytes : List ℕ) → S.left source.old ≡ Some bytes → length bytes ≤ MAX_BYTES → S.left source.new ≡ Some [] }
    ensures not_read { IsFalse (reads_input (map string_bytes words.now)) → source.new ≡ source.old }

    // The counts of faults don't fall.
    ensures source_later { S.faults source.old ≤ S.faults source.new }
    ensures sink_later { K.faults sink.old ≤ K.faults sink.new }
{
    match telling_from(alloc, words, source) {
        Ok(telling) => put_telling(alloc, &telling, sink),
        Err(OutputFault::ReadFault) => Status::ReadFault,
        Err(OutputFault::NoMemory) => Status::NoMemory,
    }
}
