//! A finite graph in a report: what stands behind the ports of its nodes.
ghost use Rattle.re_cover.specs.Graphs.{same_end};
ghost use Rattle.re_describe.specs.GraphLines.{before_port, behind, node_line, nodes_text, other_ends, port_text, title_of};
ghost use Rattle.re_graph.specs.GraphTexts.{end_text};
ghost use Rattle.re_labels.specs.Lists.{count_from};
ghost use Rattle.std.specs.Prelude.{◌≡◌, ◌+◌, ◌∷◌, [], ◌++◌, IfOk, OnOk, flat_map, if◌then◌else◌, string_bytes};

use crate::pieces::{push_between, push_count};
use re_cover::GraphEnd;
use re_frame::push_words;
use re_graph::{Graph, PassiveEnds, has_end};
use re_labels::NoMemory;
use std::alloc::{AllocError, Global};

// Whether the two ends are equal.
fn is_same(here: GraphEnd, other: GraphEnd) -> bool
    ensures { result ≡ same_end here other }
{
    here.node == other.node && here.port == other.port
}

// An end as text.
fn end_words(alloc: Global, here: GraphEnd) -> Result<String, AllocError>
    ensures { IfOk result (λ text. string_bytes text ≡ end_text here) }
{
    let node = here.node as usize + 1;
    let port = here.port;
    format!(in alloc; "{node}.{port}")
}

// Appends an end behind a blank.
fn push_end(text: &mut Vec<u8>, here: GraphEnd) -> Result<(), NoMemory>
    ensures { OnOk result (text.new.items ≡ text.old.items ++ 32 ∷ end_text here) }
{
    let alloc = *text.allocator();
    let words = end_words(alloc, here)?;
    text.push(b' ')?;
    Ok(text.extend_from_slice(words.as_bytes())?)
}

// Appends the other end, unless it is this one.
fn push_other(text: &mut Vec<u8>, other: GraphEnd, here: GraphEnd) -> Result<(), NoMemory>
    ensures { OnOk result (text.new.items ≡ text.old.items ++ (if same_end other here then [] else 32 ∷ end_text other)) }
{
    if is_same(other, here) {
        return push_words(text, "");
    }
    push_end(text, other)
}

// Appends the ends of a passive node but this one.
fn push_others(text: &mut Vec<u8>, ends: &[GraphEnd], here: GraphEnd) -> Result<(), NoMemory>
    ensures { OnOk result (text.new.items ≡ text.old.items ++ other_ends ends.now here) }
{
    for other in ends {
        push_other(text, *other, here)?;
    }
    Ok(())
}

// Appends what stands behind an end.
fn push_behind(text: &mut Vec<u8>, passive: &[PassiveEnds], here: GraphEnd) -> Result<(), NoMemory>
    ensures { OnOk result (text.new.items ≡ text.old.items ++ behind passive.now here) }
{
    let [ends, others @ ..] = passive else {
        return push_words(text, "");
    };
    if has_end(ends.ends(), here) {
        return push_others(text, ends.ends(), here);
    }
    push_behind(text, others, here)
}

// What stands in front of a port.
fn before_port(port: usize) -> &'static str
    ensures { result.now ≡ before_port port }
{
    if port == 1 { ": port " } else { ", port " }
}

// Appends a port of a node, and what stands behind it.
fn push_port(
    text: &mut Vec<u8>,
    passive: &[PassiveEnds],
    node: u8,
    port: u8,
) -> Result<(), NoMemory>
    ensures { OnOk result (text.new.items ≡ text.old.items ++ port_text passive.now node port) }
{
    push_between(text, before_port(port as usize), port as usize, " to")?;
    push_behind(text, passive, GraphEnd { node, port })
}

// Appends all ports of a node of this degree.
fn push_ports(
    text: &mut Vec<u8>,
    passive: &[PassiveEnds],
    degree: u8,
    node: u8,
) -> Result<(), NoMemory>
    ensures { OnOk result (text.new.items ≡ text.old.items ++ flat_map (λ place. port_text passive.now node (place + 1)) (count_from 0 degree)) }
{
    for place in 0..degree {
        push_port(text, passive, node, place + 1)?;
    }
    Ok(())
}

// Appends a node with its ports, as a line that stands as it is.
fn push_node(
    text: &mut Vec<u8>,
    passive: &[PassiveEnds],
    degree: u8,
    node: u8,
) -> Result<(), NoMemory>
    ensures { OnOk result (text.new.items ≡ text.old.items ++ node_line passive.now degree node) }
{
    push_count(text, "    node ", node as usize + 1)?;
    push_ports(text, passive, degree, node)?;
    push_words(text, "\n")
}

// Appends so many nodes.
fn push_nodes(
    text: &mut Vec<u8>,
    passive: &[PassiveEnds],
    degree: u8,
    nodes: u8,
) -> Result<(), NoMemory>
    ensures { OnOk result (text.new.items ≡ text.old.items ++ flat_map (node_line passive.now degree) (count_from 0 nodes)) }
{
    for node in 0..nodes {
        push_node(text, passive, degree, node)?;
    }
    Ok(())
}

// Appends the numbers of a graph.
fn push_title(text: &mut Vec<u8>, nodes: usize, passive: usize) -> Result<(), NoMemory>
    ensures { OnOk result (text.new.items ≡ text.old.items ++ title_of nodes passive) }
{
    push_count(text, "\n## Finite graph\n\n- active nodes: ", nodes)?;
    push_between(
        text,
        "\n- passive nodes: ",
        passive,
        "\n\nThe active nodes, and behind each of their ports the other ends of its passive node, where `2.1` is port 1 of node 2:\n\n",
    )
}

/// The graph: its numbers, and its active nodes.
pub(crate) fn nodes_text(alloc: Global, graph: &Graph) -> Result<Vec<u8>, NoMemory>
    ensures { IfOk result (λ text. text.items ≡ nodes_text graph.now) }
{
    let passive = graph.passive();
    let mut text = Vec::new(alloc);
    push_title(&mut text, graph.nodes() as usize, passive.len())?;
    push_nodes(&mut text, passive, graph.degrees().active, graph.nodes())?;
    Ok(text)
}
