//! Pictures of finite graphs for LaTeX, drawn by TikZ.
ghost use Rattle.re_describe.specs.Pictures.{active_drawing, end_drawing, ends_drawing, middle, passive_drawing, passive_drawings, picture, weight, weights};
ghost use Rattle.re_labels.specs.Lists.{count_from};
ghost use Rattle.std.specs.Prelude.{◌≡◌, ◌≤◌, ◌<◌, ◌+◌, ◌∷◌, ◌++◌, IfOk, OnOk, flat_map, length};

use crate::pieces::{push_between, push_count};
use re_cover::GraphEnd;
use re_frame::{begun, push_words};
use re_graph::{Graph, PassiveEnds};
use re_labels::NoMemory;
use std::alloc::Global;

// Appends an active node, of so many.
fn push_active(text: &mut Vec<u8>, nodes: usize, node: usize) -> Result<(), NoMemory>
    requires { node < nodes }
    ensures { OnOk result (text.new.items ≡ text.old.items ++ active_drawing nodes node) }
{
    push_count(text, "\\node[circle, draw] (", node + 1)?;
    push_count(text, ") at (360*", node)?;
    push_count(text, "/", nodes)?;
    push_between(text, ":4) {", node + 1, "};\n")
}

// Appends so many active nodes.
fn push_nodes(text: &mut Vec<u8>, nodes: u8) -> Result<(), NoMemory>
    ensures { OnOk result (text.new.items ≡ text.old.items ++ flat_map (active_drawing nodes) (count_from 0 nodes)) }
{
    for node in 0..nodes {
        push_active(text, nodes as usize, node as usize)?;
    }
    Ok(())
}

// Appends the active node of an end, as heavy as the others.
fn push_weight(text: &mut Vec<u8>, here: GraphEnd) -> Result<(), NoMemory>
    ensures { OnOk result (text.new.items ≡ text.old.items ++ weight here) }
{
    push_count(text, "", here.node as usize + 1)?;
    push_words(text, "=1")
}

// Appends one behind another one.
fn push_other_weight(text: &mut Vec<u8>, here: GraphEnd) -> Result<(), NoMemory>
    ensures { OnOk result (text.new.items ≡ text.old.items ++ 44 ∷ weight here) }
{
    push_between(text, ",", here.node as usize + 1, "=1")
}

// Appends those of further ends.
fn push_other_weights(text: &mut Vec<u8>, ends: &[GraphEnd]) -> Result<(), NoMemory>
    ensures { OnOk result (text.new.items ≡ text.old.items ++ flat_map (λ other. 44 ∷ weight other) ends.now) }
{
    for other in ends {
        push_other_weight(text, *other)?;
    }
    Ok(())
}

// Appends those of all ends.
fn push_weights(text: &mut Vec<u8>, ends: &[GraphEnd]) -> Result<(), NoMemory>
    ensures { OnOk result (text.new.items ≡ text.old.items ++ weights ends.now) }
{
    let [here, others @ ..] = ends else {
        return push_words(text, "");
    };
    push_weight(text, *here)?;
    push_other_weights(text, others)
}

// Appends that a passive node stands in the middle of its ends.
fn push_middle(text: &mut Vec<u8>, ends: &[GraphEnd]) -> Result<(), NoMemory>
    ensures { OnOk result (text.new.items ≡ text.old.items ++ middle ends.now) }
{
    push_words(text, ") at (barycentric cs:")?;
    push_weights(text, ends)?;
    push_words(text, ") {};\n")
}

// Appends a passive node, of so many.
fn push_passive(
    text: &mut Vec<u8>,
    places: usize,
    place: usize,
    ends: &[GraphEnd],
) -> Result<(), NoMemory>
    requires { place < places }
    ensures { OnOk result (text.new.items ≡ text.old.items ++ passive_drawing places place ends.now) }
{
    push_count(
        text,
        "\\node[rectangle, draw, inner sep=2pt, shift={(360*",
        place,
    )?;
    push_count(text, "/", places)?;
    push_count(text, ":1.6)}] (p", place + 1)?;
    push_middle(text, ends)
}

// Appends the line to the end at a port of the passive node.
fn push_line(
    text: &mut Vec<u8>,
    places: usize,
    place: usize,
    port: usize,
    here: GraphEnd,
) -> Result<(), NoMemory>
    requires few { place < places }
    requires ports { port ≤ 6 }
    ensures { OnOk result (text.new.items ≡ text.old.items ++ end_drawing place port here) }
{
    push_count(text, "\\draw (p", place + 1)?;
    push_count(text, ") to[bend left=50*", port)?;
    push_count(text, "-25] node[port, near start] {", port + 1)?;
    push_count(text, "} node[port, near end] {", here.port as usize)?;
    push_between(text, "} (", here.node as usize + 1, ");\n")
}

// Appends the lines to these ends, from the port with this number on.
fn push_lines(
    text: &mut Vec<u8>,
    places: usize,
    place: usize,
    port: usize,
    ends: &[GraphEnd],
) -> Result<(), NoMemory>
    requires few { place < places }
    requires ports { port + length ends.now ≤ 6 }
    ensures { OnOk result (text.new.items ≡ text.old.items ++ ends_drawing place port ends.now) }
{
    let [here, others @ ..] = ends else {
        return push_words(text, "");
    };
    push_line(text, places, place, port, *here)?;
    push_lines(text, places, place, port + 1, others)
}

// Appends a passive node with its lines.
fn push_joined(
    text: &mut Vec<u8>,
    places: usize,
    place: usize,
    ends: &PassiveEnds,
) -> Result<(), NoMemory>
    requires { place < places }
    ensures { OnOk result (text.new.items ≡ text.old.items ++ (passive_drawing places place ends.now ++ ends_drawing place 0 ends.now)) }
{
    push_passive(text, places, place, ends.ends())?;
    push_lines(text, places, place, 0, ends.ends())
}

// Appends passive nodes with their lines, from this place on.
fn push_all(
    text: &mut Vec<u8>,
    places: usize,
    place: usize,
    passive: &[PassiveEnds],
) -> Result<(), NoMemory>
    requires { place + length passive.now ≤ places }
    ensures { OnOk result (text.new.items ≡ text.old.items ++ passive_drawings places place passive.now) }
{
    let [ends, others @ ..] = passive else {
        return push_words(text, "");
    };
    push_joined(text, places, place, ends)?;
    push_all(text, places, place + 1, others)
}

/// The picture of a graph.
pub(crate) fn picture(alloc: Global, graph: &Graph) -> Result<Vec<u8>, NoMemory>
    ensures { IfOk result (λ text. text.items ≡ picture graph.now) }
{
    let passive = graph.passive();
    let mut text = begun(
        alloc,
        "% The package tikz draws this.\n\\begin{center}\n\\begin{tikzpicture}[font=\\scriptsize, port/.style={fill=white, inner sep=1pt}]\n",
    )?;
    push_nodes(&mut text, graph.nodes())?;
    push_all(&mut text, passive.len(), 0, passive)?;
    push_words(&mut text, "\\end{tikzpicture}\n\\end{center}\n")?;
    Ok(text)
}
