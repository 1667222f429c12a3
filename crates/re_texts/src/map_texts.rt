//! The inputs of maps, read as a whole.
ghost use Rattle.re_labels.specs.Rows.{singles};
ghost use Rattle.re_io.specs.declared.read.TheConstants.{MAX_BYTES};
ghost use Rattle.re_labels.specs.Sets.{IsLabelSet};
ghost use Rattle.re_labels.specs.declared.TheConstants.{MAX_LABELS};
ghost use Rattle.re_texts.specs.MapTexts.{map_text};
ghost use Rattle.re_texts.specs.Reading.{EndGives, LabelsGive, SetsGive};
ghost use Rattle.std.specs.List.{AllByRecursion};
ghost use Rattle.std.specs.Prelude.{◌≡◌, ◌==◌, ◌≤◌, ◌<◌, ◌+◌, IfOk, length};

use crate::entries::MapKind;
use crate::reading::{MapRead, Place, end_lines, judge};
use arrayvec::ArrayVec;
use re_labels::LabelSet;
use re_problem::{LabelMap, Problem, SetMap, TextFault, cut_line};
use std::alloc::Global;

/// Two problems, and a label of `to` for each label of `from`.
#[derive(Drop)]
pub struct LabelMapInput {
    pub from: Problem,
    pub to: Problem,
    pub map: LabelMap,
}

/// Two problems, and a set of labels of `from` for each label of `to`.
#[derive(Drop)]
pub struct SetMapInput {
    pub from: Problem,
    pub to: Problem,
    pub map: SetMap,
}

// What a text writes.
fn read_map(alloc: Global, kind: MapKind, text: &[u8]) -> Result<MapRead, TextFault>
    requires { length text.now ≤ MAX_BYTES }
    ensures { EndGives (map_text kind text.now) result }
{
    let mut place = Place::Start;
    let mut byte: u32 = 0;
    let mut number: u32 = 1;
    let mut rest = text;
    'lines: while !rest.is_empty() {
        let (line, behind) = cut_line(rest);
        place = match judge(alloc, kind, place, byte, number, line) {
            Ok(next) => next,
            Err(fault) => return Err(fault),
        };
        byte += line.len() as u32 + 1;
        number += 1;
        rest = behind;
    }
    end_lines(kind, place, number)
}

// The labels of sets of one label each.
fn labels_of(sets: &[LabelSet]) -> ArrayVec<u8, 128>
    requires few { length sets.now ≤ MAX_LABELS }
    requires single { AllByRecursion (λ set. length set ≡ 1) sets.now }
    ensures { singles result.items ≡ sets.now }
{
    let mut labels: ArrayVec<u8, 128> = ArrayVec::new();
    for set in sets {
        let Some(label) = set.first() else {
            unreachable!();
        };
        labels.push(label);
    }
    labels
}

/// The two problems of an input, and the map of labels that stands behind them: what `relax` and `rename` read. `Bad` comes exactly
/// where the text has a fault, with its first one. There is an image for each label of `from`, and each is a label of `to`.
///
/// The text has the sections `== from` and `== to`, each with a problem text, and `== map` with the entries up to its end: for each
/// label of `from` in order a line of this label and a label of `to`. A section line is one whose first two bytes are `==`, and its
/// words are separated by blanks. Before the first one, and among the entries, empty lines are passed over. Bytes count from 0 and
/// lines from 1 in the whole text; the last line needs no line feed.
///
/// A line of a problem text is at fault as `read_problem` has it, and a section line behind a problem text that lacks its passive
/// block is `MissingBlock` first. Any other line where a section line is due, and any other section line, is `BadSection`. An entry
/// is `BadByte`, else `BadItem` where it isn't two labels without power, else `BadEntry` where its first label isn't the one whose
/// turn it is, or its second one is unknown. At the end it is `BadEntry` where labels lack their images, with the number of the line
/// that would come next, and `EarlyEnd` where `== map` hasn't come.
pub fn read_label_map(alloc: Global, text: &[u8]) -> Result<LabelMapInput, TextFault>
    requires { length text.now ≤ MAX_BYTES }
    ensures gives { LabelsGive text.now result }
    ensures images { IfOk result (λ input. length input.map ≡ length input.from.names) }
    ensures labels { IfOk result (λ input. AllByRecursion (λ image. image < length input.to.names) input.map) }
{
    let MapRead { from, to, images } = read_map(alloc, MapKind::Labels, text)?;
    let labels = labels_of(images.as_slice());
    let Some(map) = LabelMap::new(labels.as_slice()) else {
        unreachable!();
    };
    Ok(LabelMapInput { from, to, map })
}

/// The two problems of an input, and the map of sets that stands behind them: what `restrict` reads. `Bad` comes exactly where the
/// text has a fault, with its first one. There is a set for each label of `to`, of labels of `from`; it may be empty.
///
/// The text is as `read_label_map` has it, but its entries are for each label of `to` in order a line of this label and a set of
/// labels of `from`: a group, which may be empty, or a label, which is the set of it alone.
pub fn read_set_map(alloc: Global, text: &[u8]) -> Result<SetMapInput, TextFault>
    requires { length text.now ≤ MAX_BYTES }
    ensures gives { SetsGive text.now result }
    ensures images { IfOk result (λ input. length input.map ≡ length input.to.names) }
    ensures labels { IfOk result (λ input. AllByRecursion (IsLabelSet (length input.from.names)) input.map) }
{
    let MapRead { from, to, images } = read_map(alloc, MapKind::Sets, text)?;
    let Some(map) = SetMap::new(images.as_slice()) else {
        unreachable!();
    };
    Ok(SetMapInput { from, to, map })
}
