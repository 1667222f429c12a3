//! Sources and sinks by themselves: pieces of each size, limits, and calls that fail.
ghost use Rattle.std.specs.Prelude.{◌≤◌};

use re_io::*;
use std::alloc::{AllocError, Global};
use std::fs::{File, OpenOptions};
use std::test::Fail;

// So many line feeds, given in pieces of this size; the call of this number fails, if any.
fn line_feeds(
    alloc: Global,
    length: usize,
    piece: usize,
    failing: u32,
) -> Result<MemSource, AllocError>
    requires { 1 ≤ piece }
{
    let failing = vec![in alloc; failing]?;
    Ok(MemSource::new(vec![in alloc; 10u8; length]?, piece, failing))
}

// This text, in the same way.
fn text_of(alloc: Global, text: &[u8], piece: usize, failing: u32) -> Result<MemSource, AllocError>
    requires { 1 ≤ piece }
{
    let failing = vec![in alloc; failing]?;
    Ok(MemSource::new(Vec::from_slice(alloc, text)?, piece, failing))
}

// Why the whole input isn't read, if it isn't.
fn fault_of<S: Source>(alloc: Global, source: &mut S) -> Option<LineFault> {
    read_all(alloc, source).err()
}

// Whether the input of so many line feeds has this fault, if any, where the call of this number fails.
fn has_fault(alloc: Global, length: usize, failing: u32, fault: Option<LineFault>) -> bool {
    match line_feeds(alloc, length, 1, failing) {
        Ok(mut source) => fault_of(alloc, &mut source) == fault,
        Err(_) => false,
    }
}

#[test]
fn the_limit_is_met_from_pieces_of_one_byte(rt: HostRuntime) {
    for (length, failing, fault) in [
        (MAX_BYTES, 0, None),
        (MAX_BYTES + 1, 16_777_217, Some(LineFault::ReadFault)),
        (MAX_BYTES + 1, 16_777_218, Some(LineFault::InputTooLong)),
    ] {
        assert!(rt; has_fault(rt.alloc(), length, failing, fault));
    }
}

// Adds a line with a sign for its end: `;` for a line feed, and `!` where it lacks.
fn add_line(all: &mut Vec<u8>, line: &Line) -> Result<(), AllocError> {
    all.extend_from_slice(&line.text)?;
    all.push(if line.ended { b';' } else { b'!' })?;
    Ok(())
}

// Adds the next line, if there is one.
fn add_next(lines: &mut Lines, source: &mut MemSource, all: &mut Vec<u8>) -> Result<(), LineFault> {
    if lines.stopped() {
        return Ok(());
    }
    match lines.next_line(source)? {
        None => Ok(()),
        Some(line) => Ok(add_line(all, &line)?),
    }
}

fn add_lines(
    lines: &mut Lines,
    source: &mut MemSource,
    all: &mut Vec<u8>,
) -> Result<(), LineFault> {
    for _ in 0..8 {
        add_next(lines, source, all)?;
    }
    Ok(())
}

// The first lines one after another, each with the sign for its end.
fn all_lines(alloc: Global, source: &mut MemSource) -> Result<Vec<u8>, LineFault> {
    let mut all = Vec::new(alloc);
    let mut lines = Lines::new(alloc);
    add_lines(&mut lines, source, &mut all)?;
    Ok(all)
}

fn are_lines(alloc: Global, source: &mut MemSource, expected: &[u8]) -> bool {
    match all_lines(alloc, source) {
        Ok(all) => all.as_slice() == expected,
        Err(_) => false,
    }
}

fn gives_lines(alloc: Global, text: &[u8], piece: usize, expected: &[u8]) -> bool
    requires { 1 ≤ piece }
{
    match text_of(alloc, text, piece, 0) {
        Ok(mut source) => are_lines(alloc, &mut source, expected),
        Err(_) => false,
    }
}

#[test]
fn lines_are_the_same_from_pieces_of_each_size(rt: HostRuntime) {
    for (text, expected) in [
        (b"".as_slice(), b"".as_slice()),
        (b"\n\n", b";;"),
        (b"one\n\r\ntwo", b"one;\r;two!"),
        (b"one\ntwo\n", b"one;two;"),
    ] {
        assert!(rt; gives_lines(rt.alloc(), text, 1, expected));
        assert!(rt; gives_lines(rt.alloc(), text, 4, expected));
        assert!(rt; gives_lines(rt.alloc(), text, 4_096, expected));
    }
}

// Whether there is one more line, and reading hasn't stopped with it.
fn is_line<S: Source>(lines: &mut Lines, source: &mut S) -> bool {
    !lines.stopped() && matches!(lines.next_line(source), Ok(Some(_)))
}

// Whether the read of one more line fails.
fn is_failing(lines: &mut Lines, source: &mut MemSource) -> bool {
    !lines.stopped() && matches!(lines.next_line(source), Err(LineFault::ReadFault))
}

// Whether the second read fails, and no line is behind it.
fn is_stopped(alloc: Global, source: &mut MemSource) -> bool {
    let mut lines = Lines::new(alloc);
    is_line(&mut lines, source) && is_failing(&mut lines, source) && lines.stopped()
}

fn second_read_fails(alloc: Global) -> bool {
    match text_of(alloc, b"one\ntwo\n", 4, 2) {
        Ok(mut source) => is_stopped(alloc, &mut source),
        Err(_) => false,
    }
}

#[test]
fn a_failing_read_stops_the_lines(rt: HostRuntime) {
    assert!(rt; second_read_fails(rt.alloc()));
}

// Whether this comes of passing over the rest behind a first line.
fn is_skipped(alloc: Global, source: &mut MemSource, want: Result<(), SkipFault>) -> bool {
    let mut lines = Lines::new(alloc);
    is_line(&mut lines, source) && !lines.stopped() && lines.skip_rest(source) == want
}

fn are_skipped(alloc: Global, length: usize, want: Result<(), SkipFault>) -> bool {
    match line_feeds(alloc, length, 4_096, 0) {
        Ok(mut source) => is_skipped(alloc, &mut source, want),
        Err(_) => false,
    }
}

#[test]
fn lines_have_the_limit_of_a_whole_input(rt: HostRuntime) {
    assert!(rt; are_skipped(rt.alloc(), MAX_BYTES, Ok(())));
    assert!(rt; are_skipped(rt.alloc(), MAX_BYTES + 1, Err(SkipFault::InputTooLong)));
}

// Whether the second of four reads of two bytes fails, and takes none of the three there are.
fn fails_once(source: &mut MemSource) -> bool {
    let mut buf = [0u8; 4];
    source.read(&mut buf) == Ok(2)
        && source.read(&mut buf) == Err(Failed)
        && source.read(&mut buf) == Ok(1)
        && buf[0] == b'c'
        && source.read(&mut buf) == Ok(0)
}

fn second_call_fails(alloc: Global) -> bool {
    match text_of(alloc, b"abc", 2, 2) {
        Ok(mut source) => fails_once(&mut source),
        Err(_) => false,
    }
}

#[test]
fn a_failing_call_of_a_source_takes_no_byte(rt: HostRuntime) {
    assert!(rt; second_call_fails(rt.alloc()));
}

// Whether the second of three writes fails behind one byte.
fn takes_a_prefix(sink: &mut MemSink) -> bool {
    sink.put(b"abc") == Ok(())
        && sink.put(b"def") == Err(SinkFault::Failed)
        && sink.put(b"g") == Ok(())
        && sink.written() == b"abcdg".as_slice()
}

#[test]
fn a_failing_call_of_a_sink_takes_a_prefix(rt: HostRuntime) -> Result<(), Fail> {
    let alloc = rt.alloc();
    let failing = vec![in alloc; FailAt { call: 2, taken: 1 }, FailAt { call: 2, taken: 2 }]?;
    let mut sink = MemSink::new(alloc, failing);
    assert!(rt; takes_a_prefix(&mut sink));
    Ok(())
}

fn is_put(alloc: Global, bytes: &[u8]) -> bool {
    StdSink::new(Vec::new(alloc)).put(bytes) == Ok(())
}

// Writes what is read, both in memory and by std.
fn is_passed_on(alloc: Global) -> bool {
    let mut source = StdSource::new(b"some bytes".as_slice());
    match read_all(alloc, &mut source) {
        Ok(bytes) => is_put(alloc, bytes.as_slice()),
        Err(_) => false,
    }
}

#[test]
fn std_in_memory_is_adapted(rt: HostRuntime) {
    assert!(rt; is_passed_on(rt.alloc()));
}

#[test]
fn real_sources_are_adapted(rt: HostRuntime) -> Result<(), Fail> {
    for (path, expected) in [
        ("/dev/null", None),
        ("/dev/zero", Some(LineFault::InputTooLong)),
        ("/", Some(LineFault::ReadFault)),
    ] {
        let mut source = StdSource::new(File::open(&rt, path)?);
        assert!(rt; fault_of(rt.alloc(), &mut source) == expected);
    }
    Ok(())
}

#[test]
fn real_sinks_are_adapted(rt: HostRuntime) -> Result<(), Fail> {
    for (path, expected) in [("/dev/null", Ok(())), ("/dev/full", Err(SinkFault::Failed))] {
        let mut sink = StdSink::new(OpenOptions::new().write(true).open(&rt, path)?);
        assert!(rt; sink.put(b"some bytes") == expected);
    }
    Ok(())
}
