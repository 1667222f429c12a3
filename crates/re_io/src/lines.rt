// The lines of a source, one after another.
ghost use Rattle.std.specs.Io.KnownBytes.{IsAtEnd};
ghost use Rattle.std.specs.Prelude.{◌≡◌, ◌==◌, ◌<◌, ◌≤◌, ◌↔◌, ◌++◌, ◌∷◌, [], ℕ, List, false, true, Contains, IfOk, IfSome, IsErrOf, OnOk, MatchOption, MatchResult, is_none, length, position, take, drop, if◌then◌else◌, None, ◌+◌};
ghost use Rattle.re_io.specs.Faults.{Rose};
ghost use Rattle.re_io.specs.LineReading.{GivesLine, GivesPart, IsFirstLine, Refills, Takes, line_bytes};

use crate::read::{LineFault, MAX_BYTES};
use crate::{Failed, Source};
use std::alloc::{AllocError, Global};
use std::marker::Model;

// How many bytes one read asks for.
const PIECE: usize = 4_096;

/// A line without its line feed, and whether the line feed was there. Only the last line of an input may lack it.
#[derive(Drop)]
pub struct Line {
    pub text: Vec<u8>,
    pub ended: bool,
}

impl Model for Line {
    ghost use Rattle.re_io.specs.LineReading.{LineText};

    ghost Value = { LineText };

    ghost view = { λ a. record { text = a.text.items; ended = a.ended } };
}

/// Why the rest of an input was not passed over: the source failed, or it gave more than `MAX_BYTES` bytes.
#[derive(Clone, Copy, Debug, PartialEq, Eq)]
pub enum SkipFault {
    ReadFault,
    InputTooLong,
}

/// A reader of lines over a source that is passed to each call, the same at all of them. It takes at most 4,096 bytes ahead.
/// Contracts see how many bytes it has taken over all its calls, those of them that it hasn't given yet, and whether it is stopped.
#[derive(Drop)]
pub struct Lines {
    alloc: Global,
    buffer: [u8; PIECE],
    at: usize,
    end: usize,
    taken: usize,
    stopped: bool,
}

impl Model for Lines {
    ghost use Rattle.std.specs.Prelude.{◌≡◌, ◌-◌, ◌≤◌, false, take, drop};
    ghost use Rattle.re_io.specs.LineReading.{LinesHeld};
    ghost use Rattle.re_io.specs.declared.lines.TheConstants.{PIECE};
    ghost use Rattle.re_io.specs.declared.read.TheConstants.{MAX_BYTES};

    ghost Value = { LinesHeld };

    ghost view = { λ a. record { taken = a.taken; pending = drop a.at (take a.end a.buffer); stopped = a.stopped } };

    ghost invariant = { λ a. (a.at ≤ a.end) × (a.end ≤ PIECE) × (a.stopped ≡ false → a.taken ≤ MAX_BYTES) };
}

/// The place of the first line feed.
pub fn feed_place(bytes: &[u8]) -> Option<usize>
    ensures place { result ≡ position (λ byte. byte == 10) bytes.now }
    ensures within { IfSome result (λ place. place < length bytes.now) }
{
    bytes.iter().position(|byte| *byte == b'\n')
}

/// The first line of a text, what stands behind it, and whether its line feed was there.
pub fn cut_line(text: &[u8]) -> (&[u8], &[u8], bool)
    requires { 0 < length text.now }
    ensures first { IsFirstLine text.now (record { text = result.0.now; ended = result.2 }) result.1.now None }
    ensures filled { 0 < length (line_bytes (record { text = result.0.now; ended = result.2 })) }
    ensures size { length (line_bytes (record { text = result.0.now; ended = result.2 })) + length result.1.now ≡ length text.now }
    ensures whole { length result.0.now ≤ length (line_bytes (record { text = result.0.now; ended = result.2 })) }
{
    match feed_place(text) {
        Some(at) => (&text[..at], &text[at + 1..], true),
        None => (text, &text[text.len()..], false),
    }
}

impl Lines {
    /// A reader that has taken nothing.
    pub fn new(alloc: Global) -> Lines
        ensures { result ≡ record { taken = 0; pending = []; stopped = false } }
    {
        Lines {
            alloc,
            buffer: [0; PIECE],
            at: 0,
            end: 0,
            taken: 0,
            stopped: false,
        }
    }

    /// Whether nothing more is to be read: the end was met, or a call refused.
    pub fn stopped(&self) -> bool
        ensures { result ≡ self.now.stopped }
    {
        self.stopped
    }

    // Moves the pending bytes up to the first line feed behind the text, or all of them, and tells whether the line feed was there.
    fn give(&mut self, text: &mut Vec<u8>) -> Result<bool, AllocError>
        ensures given { IfOk result (λ found. GivesPart self.old.pending text.old.items found text.new.items self.new.pending) }
        ensures same { (self.new.taken ≡ self.old.taken) × (self.new.stopped ≡ self.old.stopped) }
    {
        let pending = &self.buffer[..self.end][self.at..];
        match feed_place(pending) {
            Some(place) => {
                text.extend_from_slice(&pending[..place])?;
                self.at += place + 1;
                Ok(true)
            }
            None => {
                text.extend_from_slice(pending)?;
                self.at = self.end;
                Ok(false)
            }
        }
    }

    // Takes the next piece of the source in place of the pending bytes, and tells whether there was one.
    fn refill<S: Source>(&mut self, source: &mut S) -> Result<bool, SkipFault>
        requires few { self.old.taken ≤ MAX_BYTES }
        requires stopped { self.old.stopped ≡ true }
        ensures takes { (bytes : List ℕ) × Takes self.old self.new (S.left source.old) (S.left source.new) bytes
            × IfOk result (λ more. Refills more bytes self.new.pending (S.left source.new)) }
        ensures too_long { IsErrOf result SkipFault.InputTooLong ↔ (MAX_BYTES < self.new.taken) }
        ensures fault { IsErrOf result SkipFault.ReadFault → Rose (S.faults source.old) (S.faults source.new) }
        ensures later { S.faults source.old ≤ S.faults source.new }
        ensures few { OnOk result (self.new.taken ≤ MAX_BYTES) }
        ensures same { self.new.stopped ≡ true }
    {
        let count = match source.read(&mut self.buffer) {
            Ok(count) => count,
            Err(Failed) => return Err(SkipFault::ReadFault),
        };
        self.at = 0;
        self.end = count;
        self.taken += count;
        if self.taken > MAX_BYTES {
            return Err(SkipFault::InputTooLong);
        }
        Ok(count > 0)
    }

    /// The next line of the input, or None at its end. The input of a call is the bytes that were taken and not yet given, followed by
    /// what the source still gives. A last piece without a line feed is a line where it isn't empty. After None and after each
    /// refusal the reader is stopped.
    ///
    /// `InputTooLong` comes exactly where more than `MAX_BYTES` bytes were taken over all calls, and `ReadFault` only where the
    /// source failed in this call.
    pub fn next_line<S: Source>(&mut self, source: &mut S) -> Result<Option<Line>, LineFault>
        requires { self.old.stopped ≡ false }
        ensures takes { (bytes : List ℕ) × Takes self.old self.new (S.left source.old) (S.left source.new) bytes
            × IfOk result (λ line. GivesLine (self.old.pending ++ bytes) line self.new.pending (S.left source.new)) }
        ensures too_long { IsErrOf result LineFault.InputTooLong ↔ (MAX_BYTES < self.new.taken) }
        ensures fault { IsErrOf result LineFault.ReadFault → Rose (S.faults source.old) (S.faults source.new) }
        ensures later { S.faults source.old ≤ S.faults source.new }
        ensures stopped { MatchResult result (λ line. self.new.stopped ≡ is_none line) (λ _. self.new.stopped ≡ true) }
    {
        self.stopped = true;
        let mut text = Vec::new(self.alloc);
        'pieces: loop {
            if self.give(&mut text)? {
                self.stopped = false;
                return Ok(Some(Line { text, ended: true }));
            }
            match self.refill(source) {
                Ok(true) => {}
                Ok(false) => break,
                Err(SkipFault::ReadFault) => return Err(LineFault::ReadFault),
                Err(SkipFault::InputTooLong) => return Err(LineFault::InputTooLong),
            }
        }
        if text.as_slice().is_empty() {
            return Ok(None);
        }
        self.stopped = false;
        Ok(Some(Line { text, ended: false }))
    }

    /// Reads the source to its end and gives nothing. It takes no memory. Afterwards the reader is stopped. The causes of a refusal
    /// are those of `next_line`.
    pub fn skip_rest<S: Source>(&mut self, source: &mut S) -> Result<(), SkipFault>
        requires { self.old.stopped ≡ false }
        ensures takes { (bytes : List ℕ) × Takes self.old self.new (S.left source.old) (S.left source.new) bytes
            × OnOk result ((self.new.pending ≡ []) × IsAtEnd (S.left source.new)) }
        ensures too_long { IsErrOf result SkipFault.InputTooLong ↔ (MAX_BYTES < self.new.taken) }
        ensures fault { IsErrOf result SkipFault.ReadFault → Rose (S.faults source.old) (S.faults source.new) }
        ensures later { S.faults source.old ≤ S.faults source.new }
        ensures stopped { self.new.stopped ≡ true }
    {
        self.stopped = true;
        'pieces: loop {
            match self.refill(source) {
                Ok(true) => {}
                Ok(false) => return Ok(()),
                Err(fault) => return Err(fault),
            }
        }
    }
}
