//! The lines of the input of a map, one after another.
ghost use Rattle.re_io.specs.declared.read.TheConstants.{MAX_BYTES};
ghost use Rattle.re_texts.specs.Entries.{source, target};
ghost use Rattle.re_texts.specs.MapTexts.{State, ended, judged, judged_from, judged_map, judged_start, judged_to, takes_entry};
ghost use Rattle.re_texts.specs.Reading.{EndGives, Holds, HoldsMap, IsAt};
ghost use Rattle.re_problem.specs.TextReading.{Reads};
ghost use Rattle.re_problem.specs.Readings.{ReadsItem};
ghost use Rattle.re_problem.specs.Items.{ItemText};
ghost use Rattle.re_problem.specs.ItemSteps.{StandsOn};
ghost use Rattle.std.specs.Prelude.{◌≡◌, ◌≤◌, ◌<◌, ◌+◌, [], List, ℕ, Some, length};

use crate::entries::{MapKind, has_group, is_next, read_image};
use crate::sections::{Section, read_section};
use arrayvec::ArrayVec;
use re_io::MAX_BYTES;
use re_labels::{LabelSet, MAX_LABELS, Names};
use re_problem::{
    InputFault, Item, Problem, TextFault, TextReader, begins_section, first_bad_byte,
    is_empty_line, read_pair,
};
use std::alloc::Global;

/// Two problems, and the images of the first labels of the one, each as a set of labels of the other.
#[derive(Drop)]
pub(crate) struct MapRead {
    pub(crate) from: Problem,
    pub(crate) to: Problem,
    pub(crate) images: ArrayVec<LabelSet, 128>,
}

/// What was read behind some lines: nothing, lines of the first problem's text, the first problem and lines of the second one's text,
/// or both problems and the first entries.
#[derive(Drop)]
pub(crate) enum Place {
    Start,
    From(TextReader),
    To(Problem, TextReader),
    Map(MapRead),
}

/// A reader of the problem text behind a section line, which begins at the byte `byte` and is the line `number`.
pub fn text_behind(alloc: Global, byte: u32, number: u32, line: &[u8]) -> TextReader
    requires long { 2 ≤ length line.now }
    requires counted { number ≤ byte + 1 }
    requires within { byte + length line.now ≤ MAX_BYTES }
    ensures { Reads result (byte + length line.now + 1) (number + 1) [] (byte + length line.now + 1) }
{
    let end = byte + line.len() as u32;
    // behind the last line of the longest input nothing follows
    if end as usize == MAX_BYTES {
        return TextReader::new(alloc, end, number + 1);
    }
    TextReader::new(alloc, end + 1, number + 1)
}

// A line before the first section line.
fn start_line(alloc: Global, byte: u32, number: u32, line: &[u8]) -> Result<Place, TextFault>
    requires counted { number ≤ byte + 1 }
    requires within { byte + length line.now ≤ MAX_BYTES }
    ensures { Holds (judged_start byte number line.now) (byte + length line.now + 1) result }
{
    if is_empty_line(line) {
        return Ok(Place::Start);
    }
    match read_section(line) {
        Section::From => Ok(Place::From(text_behind(alloc, byte, number, line))),
        _ => Err(TextFault::Bad(InputFault::BadSection(number))),
    }
}

// A line in the text of the first problem, or behind it.
fn from_line(
    alloc: Global,
    text: TextReader,
    byte: u32,
    number: u32,
    line: &[u8],
) -> Result<Place, TextFault>
    requires counted { number ≤ byte + 1 }
    requires within { byte + length line.now ≤ MAX_BYTES }
    requires at { (text_byte : ℕ) × (text_line : ℕ) × (lines : List (List ℕ)) × Reads text text_byte text_line lines byte }
    ensures { (text_byte text_line : ℕ) (lines : List (List ℕ)) → Reads text text_byte text_line lines byte
        → Holds (judged_from byte number text_byte text_line lines line.now) (byte + length line.now + 1) result }
{
    if !begins_section(line) {
        let mut text = text;
        match text.feed(line) {
            Ok(()) => return Ok(Place::From(text)),
            Err(fault) => return Err(fault),
        }
    }
    let from = match text.finish() {
        Ok(from) => from,
        Err(fault) => return Err(fault),
    };
    match read_section(line) {
        Section::To => Ok(Place::To(from, text_behind(alloc, byte, number, line))),
        _ => Err(TextFault::Bad(InputFault::BadSection(number))),
    }
}

// A line in the text of the second problem, or behind it.
fn to_line(
    from: Problem,
    text: TextReader,
    byte: u32,
    number: u32,
    line: &[u8],
) -> Result<Place, TextFault>
    requires within { byte + length line.now ≤ MAX_BYTES }
    requires at { (text_byte : ℕ) × (text_line : ℕ) × (lines : List (List ℕ)) × Reads text text_byte text_line lines byte }
    ensures { (text_byte text_line : ℕ) (lines : List (List ℕ)) → Reads text text_byte text_line lines byte
        → Holds (judged_to number from text_byte text_line lines line.now) (byte + length line.now + 1) result }
{
    if !begins_section(line) {
        let mut text = text;
        match text.feed(line) {
            Ok(()) => return Ok(Place::To(from, text)),
            Err(fault) => return Err(fault),
        }
    }
    let to = match text.finish() {
        Ok(to) => to,
        Err(fault) => return Err(fault),
    };
    match read_section(line) {
        Section::Map => Ok(Place::Map(MapRead {
            from,
            to,
            images: ArrayVec::new(),
        })),
        _ => Err(TextFault::Bad(InputFault::BadSection(number))),
    }
}

// The names of the labels that have images.
fn source_names(kind: MapKind, read: &MapRead) -> &Names
    ensures names { result.now ≡ (source kind read.now.from read.now.to).names }
    ensures few { length result.now ≤ MAX_LABELS }
{
    match kind {
        MapKind::Labels => read.from.names(),
        MapKind::Sets => read.to.names(),
    }
}

// The names of the labels of the images.
fn target_names(kind: MapKind, read: &MapRead) -> &Names
    ensures names { result.now ≡ (target kind read.now.from read.now.to).names }
    ensures few { length result.now ≤ MAX_LABELS }
{
    match kind {
        MapKind::Labels => read.to.names(),
        MapKind::Sets => read.from.names(),
    }
}

// An entry: the label whose turn it is, and its image.
fn add_entry(
    kind: MapKind,
    read: &mut MapRead,
    number: u32,
    line: &[u8],
    left: &Item,
    right: &Item,
) -> Result<(), TextFault>
    requires left { StandsOn left.now line.now }
    requires right { StandsOn right.now line.now }
    ensures { (a b : ItemText) → ReadsItem line.now left.now a → ReadsItem line.now right.now b
        → HoldsMap (takes_entry kind read.old.from read.old.to read.old.images.items number (record { left = a; right = b })) result read.new }
{
    if !is_next(line, left, source_names(kind, read), read.images.len()) {
        return Err(TextFault::Bad(InputFault::BadEntry(number)));
    }
    let Some(image) = read_image(kind, line, right, target_names(kind, read)) else {
        return Err(TextFault::Bad(InputFault::BadEntry(number)));
    };
    read.images.push(image);
    Ok(())
}

// Takes a line of the map in.
fn take_line(
    kind: MapKind,
    read: &mut MapRead,
    byte: u32,
    number: u32,
    line: &[u8],
) -> Result<(), TextFault>
    requires within { byte + length line.now ≤ MAX_BYTES }
    ensures { HoldsMap (judged_map kind byte number read.old.from read.old.to read.old.images.items line.now) result read.new }
{
    if begins_section(line) {
        return Err(TextFault::Bad(InputFault::BadSection(number)));
    }
    if is_empty_line(line) {
        return Ok(());
    }
    if let Some(place) = first_bad_byte(line) {
        return Err(TextFault::Bad(InputFault::BadByte(byte + place as u32)));
    }
    let Some((left, right)) = read_pair(line) else {
        return Err(TextFault::Bad(InputFault::BadItem(number)));
    };
    if has_group(kind, &left, &right) {
        return Err(TextFault::Bad(InputFault::BadItem(number)));
    }
    add_entry(kind, read, number, line, &left, &right)
}

// A line of the map.
fn map_line(
    kind: MapKind,
    read: MapRead,
    byte: u32,
    number: u32,
    line: &[u8],
) -> Result<Place, TextFault>
    requires within { byte + length line.now ≤ MAX_BYTES }
    ensures { Holds (judged_map kind byte number read.from read.to read.images.items line.now) (byte + length line.now + 1) result }
{
    let mut read = read;
    match take_line(kind, &mut read, byte, number, line) {
        Ok(()) => Ok(Place::Map(read)),
        Err(fault) => Err(fault),
    }
}

/// What is held behind one more line, which stands at this byte and has this number.
pub(crate) fn judge(
    alloc: Global,
    kind: MapKind,
    place: Place,
    byte: u32,
    number: u32,
    line: &[u8],
) -> Result<Place, TextFault>
    requires counted { number ≤ byte + 1 }
    requires within { byte + length line.now ≤ MAX_BYTES }
    requires at { (s : State) × IsAt place s byte }
    ensures { (s : State) → IsAt place s byte → Holds (judged kind byte number s line.now) (byte + length line.now + 1) result }
{
    match place {
        Place::Start => start_line(alloc, byte, number, line),
        Place::From(text) => from_line(alloc, text, byte, number, line),
        Place::To(from, text) => to_line(from, text, byte, number, line),
        Place::Map(read) => map_line(kind, read, byte, number, line),
    }
}

/// What was read at the end of the lines, where the next one would have this number.
pub(crate) fn end_lines(kind: MapKind, place: Place, number: u32) -> Result<MapRead, TextFault>
    ensures { (s : State) (byte : ℕ) → IsAt place s byte → EndGives (ended kind number s) result }
{
    let Place::Map(read) = place else {
        return Err(TextFault::Bad(InputFault::EarlyEnd));
    };
    if read.images.len() != source_names(kind, &read).len() {
        return Err(TextFault::Bad(InputFault::BadEntry(number)));
    }
    Ok(read)
}
