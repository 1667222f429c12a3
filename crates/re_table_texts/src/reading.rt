//! The lines of the text of a table, one after another.
ghost use Rattle.re_cert.specs.Entries.{label_items};
ghost use Rattle.re_io.specs.declared.read.TheConstants.{MAX_BYTES};
ghost use Rattle.re_algo.specs.Counting.{view_count};
ghost use Rattle.re_problem.specs.TextReading.{IsRefused, Reads};
ghost use Rattle.re_table_texts.specs.Reading.{Gives, Holds, HoldsTable, IsAt, IsBegun, owner_in};
ghost use Rattle.re_table_texts.specs.SectionLines.{section_of};
ghost use Rattle.re_table_texts.specs.TableTexts.{State, are_all, ended, judged, judged_start, judged_table, judged_text, may_stand, next_begins, table_begins, takes_items, text_ends};
ghost use Rattle.re_table_texts.specs.TableTexts.State.{InTable};
ghost use Rattle.std.specs.Prelude.{◌≡◌, ◌≤◌, ◌<◌, ◌+◌, ◌↔◌, [], IfOk, IsSome, List, MatchResult, Some, ℕ, length, true};

use crate::sections::{Section, read_section};
use crate::table_texts::{TableForm, TableInput};
use re_algo::{Table, view_count};
use re_cert::{has_labels, line_labels};
use re_io::MAX_BYTES;
use re_labels::{PortLabels, Side};
use re_problem::{
    InputFault, Problem, TextFault, TextReader, begins_section, first_bad_byte, is_empty_line,
};
use re_texts::text_behind;
use std::alloc::Global;

/// A table that is begun: the problem of the text before the last one, if any, that of the last one, the radius, how many views there
/// are, and the answers of the first ones.
#[derive(Drop)]
pub(crate) struct TableRead {
    first: Option<Problem>,
    owner: Problem,
    radius: u8,
    count: u32,
    answers: Vec<PortLabels>,
}

/// What was read behind some lines: nothing, a problem perhaps and lines of a problem text, or the problems and the first answers.
#[derive(Drop)]
pub(crate) enum Place {
    Start,
    Text(Option<Problem>, TextReader),
    Table(TableRead),
}

// A line before the first section line.
fn start_line(
    alloc: Global,
    form: TableForm,
    byte: u32,
    number: u32,
    line: &[u8],
) -> Result<Place, TextFault>
    requires counted { number ≤ byte + 1 }
    requires within { byte + length line.now ≤ MAX_BYTES }
    ensures { Holds form (judged_start byte number line.now) (byte + length line.now + 1) result }
{
    if is_empty_line(line) {
        return Ok(Place::Start);
    }
    match read_section(line) {
        Section::Problem => Ok(Place::Text(None, text_behind(alloc, byte, number, line))),
        _ => Err(TextFault::Bad(InputFault::BadSection(number))),
    }
}

// Whether all problems have come that stand before the table.
fn are_all(form: TableForm, first: &Option<Problem>) -> bool
    ensures { result ≡ are_all form first.now }
{
    match form {
        TableForm::Slower => first.is_some(),
        _ => true,
    }
}

// Whether the radius may stand.
fn may_stand(form: TableForm, radius: u8) -> bool
    ensures { result ≡ may_stand form radius }
{
    match form {
        TableForm::Faster => radius >= 1,
        _ => true,
    }
}

// How many views a table has whose section line stands behind the problems.
fn table_count(
    form: TableForm,
    first: &Option<Problem>,
    owner: &Problem,
    radius: u8,
    number: u32,
) -> Result<u32, TextFault>
    ensures { MatchResult result
        (λ count. (are_all form first.now ≡ true) × (may_stand form radius ≡ true)
        × (Some count ≡ view_count owner.now.active.degree owner.now.passive.degree radius))
        (λ fault. IsRefused (table_begins form number first.now owner.now radius) fault) }
{
    if !are_all(form, first) {
        return Err(TextFault::Bad(InputFault::BadSection(number)));
    }
    if !may_stand(form, radius) {
        return Err(TextFault::Bad(InputFault::BadSection(number)));
    }
    match view_count(owner.degrees(), Side::Active, radius) {
        Some(count) => Ok(count),
        None => Err(TextFault::Bad(InputFault::TooManyViews(number))),
    }
}

// The section line of a table behind the problems.
fn begin_table(
    alloc: Global,
    form: TableForm,
    first: Option<Problem>,
    owner: Problem,
    radius: u8,
    number: u32,
) -> Result<Place, TextFault>
    requires { IsSome first → form ≡ TableForm.Slower }
    ensures { (byte : ℕ) → Holds form (table_begins form number first owner radius) byte result }
{
    match table_count(form, &first, &owner, radius, number) {
        Ok(count) => Ok(Place::Table(TableRead {
            first,
            owner,
            radius,
            count,
            answers: Vec::new(alloc),
        })),
        Err(fault) => Err(fault),
    }
}

// The section line of the next problem behind the first one.
fn begin_next(
    alloc: Global,
    form: TableForm,
    first: Option<Problem>,
    problem: Problem,
    byte: u32,
    number: u32,
    line: &[u8],
) -> Result<Place, TextFault>
    requires long { 2 ≤ length line.now }
    requires counted { number ≤ byte + 1 }
    requires within { byte + length line.now ≤ MAX_BYTES }
    ensures { Holds form (next_begins form (byte + length line.now + 1) number first problem) (byte + length line.now + 1) result }
{
    if first.is_some() {
        return Err(TextFault::Bad(InputFault::BadSection(number)));
    }
    match form {
        TableForm::Slower => Ok(Place::Text(Some(problem), text_behind(alloc, byte, number, line))),
        _ => Err(TextFault::Bad(InputFault::BadSection(number))),
    }
}

// The section line behind the text of a problem.
fn end_text(
    alloc: Global,
    form: TableForm,
    first: Option<Problem>,
    problem: Problem,
    byte: u32,
    number: u32,
    line: &[u8],
) -> Result<Place, TextFault>
    requires first { IsSome first → form ≡ TableForm.Slower }
    requires long { 2 ≤ length line.now }
    requires counted { number ≤ byte + 1 }
    requires within { byte + length line.now ≤ MAX_BYTES }
    ensures { Holds form (text_ends form (byte + length line.now + 1) number first problem (section_of line.now)) (byte + length line.now + 1) result }
{
    match read_section(line) {
        Section::Next => begin_next(alloc, form, first, problem, byte, number, line),
        Section::Table(radius) => begin_table(alloc, form, first, problem, radius, number),
        _ => Err(TextFault::Bad(InputFault::BadSection(number))),
    }
}

// A line in the text of a problem, or behind it.
fn text_line(
    alloc: Global,
    form: TableForm,
    first: Option<Problem>,
    text: TextReader,
    byte: u32,
    number: u32,
    line: &[u8],
) -> Result<Place, TextFault>
    requires first { IsSome first → form ≡ TableForm.Slower }
    requires counted { number ≤ byte + 1 }
    requires within { byte + length line.now ≤ MAX_BYTES }
    requires at { (text_byte : ℕ) × (text_line : ℕ) × (lines : List (List ℕ)) × Reads text text_byte text_line lines byte }
    ensures { (text_byte text_line : ℕ) (lines : List (List ℕ)) → Reads text text_byte text_line lines byte
        → Holds form (judged_text form byte number first text_byte text_line lines line.now) (byte + length line.now + 1) result }
{
    if !begins_section(line) {
        let mut text = text;
        match text.feed(line) {
            Ok(()) => return Ok(Place::Text(first, text)),
            Err(fault) => return Err(fault),
        }
    }
    let problem = match text.finish() {
        Ok(problem) => problem,
        Err(fault) => return Err(fault),
    };
    end_text(alloc, form, first, problem, byte, number, line)
}

// A line of labels.
fn add_answer(
    form: TableForm,
    read: &mut TableRead,
    number: u32,
    line: &[u8],
) -> Result<(), TextFault>
    requires items { IsSome (label_items line.now) }
    requires begun { IsBegun form read.old }
    ensures { HoldsTable form (takes_items number read.old.first read.old.owner read.old.radius read.old.answers.items (label_items line.now)) result read.new }
{
    let names = read.owner.names();
    let Some(labels) = line_labels(line, names, read.owner.degrees().active) else {
        return Err(TextFault::Bad(InputFault::BadEntry(number)));
    };
    if read.answers.len() >= read.count as usize {
        return Err(TextFault::Bad(InputFault::BadEntry(number)));
    }
    let Some(labels) = PortLabels::new(labels.as_slice()) else {
        unreachable!();
    };
    if let Err(_) = read.answers.push(labels) {
        return Err(TextFault::NoMemory);
    }
    Ok(())
}

// Takes a line of the table in.
fn take_line(
    form: TableForm,
    read: &mut TableRead,
    byte: u32,
    number: u32,
    line: &[u8],
) -> Result<(), TextFault>
    requires within { byte + length line.now ≤ MAX_BYTES }
    requires begun { IsBegun form read.old }
    ensures { HoldsTable form (judged_table byte number read.old.first read.old.owner read.old.radius read.old.answers.items line.now) result read.new }
{
    if begins_section(line) {
        return Err(TextFault::Bad(InputFault::BadSection(number)));
    }
    if is_empty_line(line) {
        return Ok(());
    }
    if let Some(place) = first_bad_byte(line) {
        return Err(TextFault::Bad(InputFault::BadByte(byte + place as u32)));
    }
    if !has_labels(line) {
        return Err(TextFault::Bad(InputFault::BadItem(number)));
    }
    add_answer(form, read, number, line)
}

// A line of the table.
fn table_line(
    form: TableForm,
    read: TableRead,
    byte: u32,
    number: u32,
    line: &[u8],
) -> Result<Place, TextFault>
    requires within { byte + length line.now ≤ MAX_BYTES }
    requires begun { IsBegun form read }
    ensures { Holds form (judged_table byte number read.first read.owner read.radius read.answers.items line.now) (byte + length line.now + 1) result }
{
    let mut read = read;
    match take_line(form, &mut read, byte, number, line) {
        Ok(()) => Ok(Place::Table(read)),
        Err(fault) => Err(fault),
    }
}

/// What is held behind one more line, which stands at this byte and has this number.
pub(crate) fn judge(
    alloc: Global,
    form: TableForm,
    place: Place,
    byte: u32,
    number: u32,
    line: &[u8],
) -> Result<Place, TextFault>
    requires counted { number ≤ byte + 1 }
    requires within { byte + length line.now ≤ MAX_BYTES }
    requires at { (s : State) × IsAt form place s byte }
    ensures { (s : State) → IsAt form place s byte → Holds form (judged form byte number s line.now) (byte + length line.now + 1) result }
{
    match place {
        Place::Start => start_line(alloc, form, byte, number, line),
        Place::Text(first, text) => text_line(alloc, form, first, text, byte, number, line),
        Place::Table(read) => table_line(form, read, byte, number, line),
    }
}

// What was read where each view has its answer.
fn whole_input(form: TableForm, read: TableRead, number: u32) -> Result<TableInput, TextFault>
    requires begun { IsBegun form read }
    ensures gives { Gives (ended number (InTable read.first read.owner read.radius read.answers.items)) result }
    ensures next { IfOk result (λ input. IsSome input.next ↔ (form ≡ TableForm.Slower)) }
    ensures rounds { IfOk result (λ input. may_stand form input.table.radius ≡ true) }
    ensures active { IfOk result (λ input. input.table.degrees.active ≡ (owner_in input).active.degree) }
    ensures passive { IfOk result (λ input. input.table.degrees.passive ≡ (owner_in input).passive.degree) }
{
    let TableRead {
        first,
        owner,
        radius,
        count,
        answers,
    } = read;
    if answers.len() != count as usize {
        return Err(TextFault::Bad(InputFault::BadEntry(number)));
    }
    let Some(table) = Table::build(owner.degrees(), radius, answers) else {
        unreachable!();
    };
    match first {
        None => Ok(TableInput {
            problem: owner,
            next: None,
            table,
        }),
        Some(problem) => Ok(TableInput {
            problem,
            next: Some(owner),
            table,
        }),
    }
}

/// What was read at the end of the lines, where the next one would have this number.
pub(crate) fn end_lines(form: TableForm, place: Place, number: u32) -> Result<TableInput, TextFault>
    requires at { (s : State) × (byte : ℕ) × IsAt form place s byte }
    ensures gives { (s : State) (byte : ℕ) → IsAt form place s byte → Gives (ended number s) result }
    ensures next { IfOk result (λ input. IsSome input.next ↔ (form ≡ TableForm.Slower)) }
    ensures rounds { IfOk result (λ input. may_stand form input.table.radius ≡ true) }
    ensures active { IfOk result (λ input. input.table.degrees.active ≡ (owner_in input).active.degree) }
    ensures passive { IfOk result (λ input. input.table.degrees.passive ≡ (owner_in input).passive.degree) }
{
    let Place::Table(read) = place else {
        return Err(TextFault::Bad(InputFault::EarlyEnd));
    };
    whole_input(form, read, number)
}
