//! The text of a graph, put behind another one.
ghost use Rattle.re_graph.specs.GraphTexts.{end_text, graph_text, line_text, lines_text, others_text};
ghost use Rattle.std.specs.Prelude.{◌≡◌, ◌++◌, ◌+◌, ◌<◌, ◌∷◌, [], IfOk, OnOk, string_bytes};

use crate::{Graph, PassiveEnds};
use re_cover::GraphEnd;
use re_labels::NoMemory;
use std::alloc::{AllocError, Global};

// An end as text.
fn end_words(alloc: Global, here: GraphEnd) -> Result<String, AllocError>
    ensures { IfOk result (λ text. string_bytes text ≡ end_text here) }
{
    let node = here.node as usize + 1;
    let port = here.port;
    format!(in alloc; "{node}.{port}")
}

// Appends an end.
fn push_end(alloc: Global, text: &mut Vec<u8>, here: GraphEnd) -> Result<(), NoMemory>
    ensures { OnOk result (text.new.items ≡ text.old.items ++ end_text here) }
{
    let words = end_words(alloc, here)?;
    Ok(text.extend_from_slice(words.as_bytes())?)
}

// Appends further ends, each behind a blank.
fn push_others(alloc: Global, text: &mut Vec<u8>, ends: &[GraphEnd]) -> Result<(), NoMemory>
    ensures { OnOk result (text.new.items ≡ text.old.items ++ others_text ends.now) }
{
    let [here, others @ ..] = ends else {
        return Ok(());
    };
    text.push(b' ')?;
    push_end(alloc, text, *here)?;
    push_others(alloc, text, others)
}

// Appends the ends at a passive node.
fn push_ends(alloc: Global, text: &mut Vec<u8>, ends: &[GraphEnd]) -> Result<(), NoMemory>
    ensures { OnOk result (text.new.items ≡ text.old.items ++ line_text ends.now) }
{
    let [here, others @ ..] = ends else {
        return Ok(());
    };
    push_end(alloc, text, *here)?;
    push_others(alloc, text, others)
}

// Appends a line for each passive node.
fn push_lines(alloc: Global, text: &mut Vec<u8>, passive: &[PassiveEnds]) -> Result<(), NoMemory>
    ensures { OnOk result (text.new.items ≡ text.old.items ++ lines_text passive.now) }
{
    let [ends, others @ ..] = passive else {
        return Ok(());
    };
    push_ends(alloc, text, ends.ends())?;
    text.push(b'\n')?;
    push_lines(alloc, text, others)
}

/// Appends the lines of a graph: one for each passive node, with its ends in the order of its ports, and a blank between.
pub fn push_graph(alloc: Global, text: &mut Vec<u8>, graph: &Graph) -> Result<(), NoMemory>
    ensures { OnOk result (text.new.items ≡ text.old.items ++ graph_text graph.now) }
{
    push_lines(alloc, text, graph.passive())
}
