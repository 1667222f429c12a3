//! The reading of a bound and a problem.
ghost use Rattle.re_io.specs.declared.read.TheConstants.{MAX_BYTES};
ghost use Rattle.re_problem.specs.ProblemTexts.{lines_of};
ghost use Rattle.re_problem.specs.TextReading.{IsFed};
ghost use Rattle.re_chains.specs.TwoTexts.{ChainReadGives, ProblemGives, ReadGives, ReadRefuses, SectionRefuses, at_line, has_line};
ghost use Rattle.std.specs.Prelude.{◌≡◌, ◌<◌, ◌≤◌, ◌+◌, false, length, true};

use crate::chain_text::{read_bound, read_chain};
use crate::cutting::cut_at;
use re_cert::Certificate;
use re_problem::{InputFault, Problem, TextFault, TextReader, begins_section, cut_line};
use std::alloc::Global;

/// A bound, and the problem behind it.
#[derive(Drop)]
pub struct TwoTexts {
    pub bound: Certificate,
    pub problem: Problem,
}

/// The fault of the text in front of a line of this number: where it ends too early, that line isn't expected.
pub fn at_line(number: u32, fault: InputFault) -> InputFault
    ensures { result ≡ at_line number fault }
{
    match fault {
        InputFault::EarlyEnd => InputFault::BadSection(number),
        _ => fault,
    }
}

// The fault where a section line of this number stands behind the lines that were read.
fn section_fault(reader: TextReader, number: u32) -> TextFault
    requires { IsFed reader }
    ensures { SectionRefuses reader number result }
{
    match reader.finish() {
        Ok(_) => {}
        Err(fault) => return fault,
    }
    TextFault::Bad(InputFault::BadSection(number))
}

/// The problem of the lines up to the end of the text, of which the first stands at this byte and has this number. `Bad` comes exactly where they
/// have a fault, with the first one; a section line among them is one.
pub fn read_problem_at(
    alloc: Global,
    byte: usize,
    number: u32,
    text: &[u8],
) -> Result<Problem, TextFault>
    requires counted { number ≤ byte + 1 }
    requires first { 1 ≤ number }
    requires within { 0 < length text.now → byte + length text.now ≤ MAX_BYTES }
    ensures { ProblemGives byte number (lines_of text.now) result }
{
    if text.is_empty() {
        return Err(TextFault::Bad(InputFault::MissingBlock(number)));
    }
    let mut reader = TextReader::new(alloc, byte as u32, number);
    let mut current = number;
    let mut rest = text;
    'lines: while !rest.is_empty() {
        let (line, behind) = cut_line(rest);
        if begins_section(line) {
            return Err(section_fault(reader, current));
        }
        match reader.feed(line) {
            Ok(()) => {}
            Err(fault) => return Err(fault),
        }
        current += 1;
        rest = behind;
    }
    reader.finish()
}

// The fault of a text without the line.
#[tactic(auto, unfolding(crate::specs::TwoTexts::two_fault))]
fn end_fault(alloc: Global, name: &[u8], text: &[u8]) -> TextFault
    requires few { length text.now ≤ MAX_BYTES }
    requires none { has_line name.now text.now ≡ false }
    ensures { ReadRefuses name.now text.now result }
{
    match read_bound(alloc, text) {
        Ok(_) => TextFault::Bad(InputFault::EarlyEnd),
        Err(fault) => fault,
    }
}

/// The bound and the problem that a text writes, with a line `==` and the name between them. `Bad` comes exactly where the text has a
/// fault, with its first one.
pub fn read_two(alloc: Global, name: &[u8], text: &[u8]) -> Result<TwoTexts, TextFault>
    requires { length text.now ≤ MAX_BYTES }
    ensures { ReadGives name.now text.now result }
{
    let Some(cut) = cut_at(name, text) else {
        return Err(end_fault(alloc, name, text));
    };
    let bound = match read_bound(alloc, cut.front) {
        Ok(bound) => bound,
        Err(TextFault::Bad(fault)) => return Err(TextFault::Bad(at_line(cut.number - 1, fault))),
        Err(TextFault::NoMemory) => return Err(TextFault::NoMemory),
    };
    match read_problem_at(alloc, cut.byte, cut.number, cut.behind) {
        Ok(problem) => Ok(TwoTexts { bound, problem }),
        Err(fault) => Err(fault),
    }
}

/// The chain and the problem that a text with a line `==` and the name writes: as `read_two`, with the chain that `read_chain` of
/// `re_chains` reads in front of the line.
pub fn read_chain_two(alloc: Global, name: &[u8], text: &[u8]) -> Result<TwoTexts, TextFault>
    requires few { length text.now ≤ MAX_BYTES }
    requires has { has_line name.now text.now ≡ true }
    ensures { ChainReadGives name.now text.now result }
{
    let Some(cut) = cut_at(name, text) else {
        unreachable!();
    };
    let bound = match read_chain(alloc, cut.front) {
        Ok(chain) => chain,
        Err(TextFault::Bad(fault)) => return Err(TextFault::Bad(at_line(cut.number - 1, fault))),
        Err(TextFault::NoMemory) => return Err(TextFault::NoMemory),
    };
    match read_problem_at(alloc, cut.byte, cut.number, cut.behind) {
        Ok(problem) => Ok(TwoTexts { bound, problem }),
        Err(fault) => Err(fault),
    }
}
