//! The lines of a diagram.
ghost use Rattle.re_closure.specs.DiagramTexts.{AreEdgesOf, EdgeGives, EdgesRefuse, TakesLine, edge_held};
ghost use Rattle.re_io.specs.declared.read.TheConstants.{MAX_BYTES};
ghost use Rattle.re_problem.specs.Items.{ItemText};
ghost use Rattle.re_problem.specs.ItemSteps.{StandsOn};
ghost use Rattle.re_problem.specs.ProblemTexts.{lines_of};
ghost use Rattle.re_problem.specs.Readings.{ReadsItem};
ghost use Rattle.std.specs.Prelude.{◌≡◌, ◌<◌, ◌≤◌, ◌+◌, IfErr, IfOk, IfSome, length};

use re_labels::Names;
use re_problem::{
    InputFault, Item, TextFault, begins_section, cut_line, first_bad_byte, is_empty_line,
    read_label, read_pair,
};
use std::alloc::Global;

// The edge between the labels of two items, or None exactly where one of them isn't known.
fn held_edge(line: &[u8], low: &Item, high: &Item, names: &Names) -> Option<(u8, u8)>
    requires low { StandsOn low.now line.now }
    requires high { StandsOn high.now line.now }
    ensures edge { (a b : ItemText) → ReadsItem line.now low.now a → ReadsItem line.now high.now b →
        result ≡ edge_held names.now (record { left = a; right = b }) }
    ensures below { IfSome result (λ edge. (edge.0 < length names.now) × (edge.1 < length names.now)) }
{
    let low = read_label(line, low, names)?;
    let high = read_label(line, high, names)?;
    Some((low, high))
}

// The edge of a line that stands at this byte and has this number, if it isn't empty.
fn read_edge(
    names: &Names,
    byte: usize,
    number: u32,
    line: &[u8],
) -> Result<Option<(u8, u8)>, InputFault>
    requires { byte + length line.now ≤ MAX_BYTES }
    ensures { EdgeGives names.now byte number line.now result }
{
    if begins_section(line) {
        return Err(InputFault::BadSection(number));
    }
    if is_empty_line(line) {
        return Ok(None);
    }
    if let Some(place) = first_bad_byte(line) {
        return Err(InputFault::BadByte((byte + place) as u32));
    }
    let Some((low, high)) = read_pair(line) else {
        return Err(InputFault::BadItem(number));
    };
    if low.group || high.group {
        return Err(InputFault::BadItem(number));
    }
    match held_edge(line, &low, &high, names) {
        Some(edge) => Ok(Some(edge)),
        None => Err(InputFault::BadEntry(number)),
    }
}

// Takes the edge of a line in, which stands at this byte and has this number.
fn take_line(
    edges: &mut Vec<(u8, u8)>,
    names: &Names,
    byte: usize,
    number: u32,
    line: &[u8],
) -> Result<(), TextFault>
    requires { byte + length line.now ≤ MAX_BYTES }
    ensures { TakesLine names.now byte number line.now edges.old.items edges.new.items result }
{
    match read_edge(names, byte, number, line) {
        Ok(None) => Ok(()),
        Ok(Some(edge)) => match edges.push(edge) {
            Ok(()) => Ok(()),
            Err(_) => Err(TextFault::NoMemory),
        },
        Err(fault) => Err(TextFault::Bad(fault)),
    }
}

/// The edges of the lines up to the end of the text, of which the first stands at this byte and has this number: on each that isn't empty
/// two labels, the lower one first. `Bad` comes exactly where they have a fault, with the first one: of each line it is a section line, or
/// has a byte that isn't allowed, or isn't two labels without power, or a label isn't among the names.
pub(crate) fn read_edges(
    alloc: Global,
    names: &Names,
    byte: usize,
    number: u32,
    text: &[u8],
) -> Result<Vec<(u8, u8)>, TextFault>
    requires counted { number ≤ byte + 1 }
    requires within { 0 < length text.now → byte + length text.now ≤ MAX_BYTES }
    ensures edges { IfOk result (λ edges. AreEdgesOf names.now byte number (lines_of text.now) edges.items) }
    ensures fault { IfErr result (EdgesRefuse names.now byte number (lines_of text.now)) }
{
    let mut edges = Vec::new(alloc);
    let mut at = byte;
    let mut current = number;
    let mut rest = text;
    'lines: while !rest.is_empty() {
        let (line, behind) = cut_line(rest);
        match take_line(&mut edges, names, at, current, line) {
            Ok(()) => {}
            Err(fault) => return Err(fault),
        }
        at += line.len() + 1;
        current += 1;
        rest = behind;
    }
    Ok(edges)
}
