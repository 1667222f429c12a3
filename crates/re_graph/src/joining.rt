//! New gadgets of old ones.
use crate::gadgets::{Allowed, Gadget, Made, View, node_of, other_way, strand_of, views};
use crate::multisets::{Multiset, filled, looped};
use crate::relations::{chained, joined, reached};
use re_labels::{LabelSet, NoMemory, Side};
use std::alloc::Global;

/// A gadget with its number.
#[derive(Clone, Copy)]
pub(crate) struct Numbered<'a> {
    pub place: usize,
    pub gadget: &'a Gadget,
}

/// A node with three or more free ends.
#[derive(Clone, Copy)]
pub(crate) struct NodeEnds<'a> {
    pub place: usize,
    pub nodes: u8,
    pub side: Side,
    pub ends: u8,
    pub multisets: &'a [Multiset],
}

/// The node of this number; nothing where the gadget has two free ends or fewer.
pub(crate) fn node_ends(one: Numbered<'_>) -> Option<NodeEnds<'_>> {
    let Allowed::Node(side, ends, multisets) = &one.gadget.allowed else {
        return None;
    };
    Some(NodeEnds {
        place: one.place,
        nodes: one.gadget.nodes,
        side: *side,
        ends: *ends,
        multisets: multisets.as_slice(),
    })
}

// Appends a strand, whose left end is at an active node where one of them is.
fn push_strand(
    alloc: Global,
    made: &mut Vec<Gadget>,
    sides: (Side, Side),
    rows: Vec<LabelSet>,
    nodes: u8,
    how: Made,
) -> Result<(), NoMemory> {
    let allowed = strand_of(alloc, sides.0, sides.1, rows)?;
    Ok(made.push(Gadget {
        allowed,
        nodes,
        made: how,
    })?)
}

// Appends the two strands in series, where the right end of the first fits the left end of the second.
fn push_chain(
    alloc: Global,
    made: &mut Vec<Gadget>,
    nodes: u8,
    first: View<'_>,
    second: View<'_>,
) -> Result<(), NoMemory> {
    if first.right == second.left {
        return Ok(());
    }
    if first.left == Side::Passive && second.right == Side::Active {
        let rows = chained(alloc, second.columns, first.columns)?;
        let how = Made::Chained(other_way(second.turn), other_way(first.turn));
        return push_strand(alloc, made, (second.right, first.left), rows, nodes, how);
    }
    let rows = chained(alloc, first.rows, second.rows)?;
    let how = Made::Chained(first.turn, second.turn);
    push_strand(alloc, made, (first.left, second.right), rows, nodes, how)
}

// Appends a strand in series with one of the two views.
fn push_chains_with(
    alloc: Global,
    made: &mut Vec<Gadget>,
    nodes: u8,
    first: View<'_>,
    second: (View<'_>, View<'_>),
) -> Result<(), NoMemory> {
    push_chain(alloc, made, nodes, first, second.0)?;
    push_chain(alloc, made, nodes, first, second.1)
}

// Appends the tail that a strand with a tail at its right end is.
fn push_end(
    made: &mut Vec<Gadget>,
    nodes: u8,
    strand: View<'_>,
    tail: usize,
    side: Side,
    set: LabelSet,
) -> Result<(), NoMemory> {
    if strand.right == side {
        return Ok(());
    }
    Ok(made.push(Gadget {
        allowed: Allowed::Tail(strand.left, reached(strand.columns, set)),
        nodes,
        made: Made::Ended(strand.turn, tail),
    })?)
}

/// Appends what two strands make in series, or a strand and a tail, in all ways.
pub(crate) fn push_series(
    alloc: Global,
    made: &mut Vec<Gadget>,
    first: Numbered<'_>,
    second: Numbered<'_>,
) -> Result<(), NoMemory> {
    let nodes = first.gadget.nodes.saturating_add(second.gadget.nodes);
    let Some(ways) = views(first.place, first.gadget) else {
        return Ok(());
    };
    if let Allowed::Tail(side, set) = &second.gadget.allowed {
        push_end(made, nodes, ways.0, second.place, *side, *set)?;
        return push_end(made, nodes, ways.1, second.place, *side, *set);
    }
    let Some(others) = views(second.place, second.gadget) else {
        return Ok(());
    };
    push_chains_with(alloc, made, nodes, ways.0, others)?;
    push_chains_with(alloc, made, nodes, ways.1, others)
}

// Appends the node, of which one end leads to the tail.
fn push_filled(
    alloc: Global,
    made: &mut Vec<Gadget>,
    labels: u8,
    node: NodeEnds<'_>,
    tail: Numbered<'_>,
    set: LabelSet,
) -> Result<(), NoMemory> {
    if node.ends < 3 || node.ends > 6 {
        return Ok(());
    }
    let left = filled(alloc, node.multisets, node.ends, set)?;
    let allowed = node_of(alloc, labels, node.side, node.ends - 1, left)?;
    Ok(made.push(Gadget {
        allowed,
        nodes: node.nodes.saturating_add(tail.gadget.nodes),
        made: Made::Filled(node.place, tail.place),
    })?)
}

// Appends the node, of which the strand joins two ends.
fn push_looped(
    alloc: Global,
    made: &mut Vec<Gadget>,
    labels: u8,
    node: NodeEnds<'_>,
    strand: Numbered<'_>,
    rows: &[LabelSet],
) -> Result<(), NoMemory> {
    if node.ends < 3 || node.ends > 6 {
        return Ok(());
    }
    let left = looped(alloc, node.multisets, node.ends, rows)?;
    let allowed = node_of(alloc, labels, node.side, node.ends - 2, left)?;
    Ok(made.push(Gadget {
        allowed,
        nodes: node.nodes.saturating_add(strand.gadget.nodes),
        made: Made::Looped(node.place, strand.place),
    })?)
}

/// Appends what a node makes with a tail at one of its ends, or with a strand between two of them.
pub(crate) fn push_at_node(
    alloc: Global,
    made: &mut Vec<Gadget>,
    labels: u8,
    node: NodeEnds<'_>,
    other: Numbered<'_>,
) -> Result<(), NoMemory> {
    match &other.gadget.allowed {
        Allowed::Tail(side, set) if *side != node.side => {
            push_filled(alloc, made, labels, node, other, *set)
        }
        Allowed::Strand(left, right, rows, _) if *left != node.side && *right != node.side => {
            push_looped(alloc, made, labels, node, other, rows.as_slice())
        }
        _ => Ok(()),
    }
}

// Whether the strand leads from the left node to the right one.
fn leads(strand: View<'_>, left: Side, right: Side) -> bool {
    strand.left != left && strand.right != right
}

// Appends the two nodes of three ends, joined by two strands, the first one seen from this end.
fn push_parallel(
    alloc: Global,
    made: &mut Vec<Gadget>,
    ends: (NodeEnds<'_>, NodeEnds<'_>),
    nodes: u8,
    first: View<'_>,
    second: View<'_>,
) -> Result<(), NoMemory> {
    let (left, right) = ends;
    if !leads(first, left.side, right.side) || !leads(second, left.side, right.side) {
        return Ok(());
    }
    let rows = joined(
        alloc,
        left.multisets,
        right.multisets,
        first.rows,
        second.rows,
    )?;
    let how = Made::Joined(left.place, right.place, first.turn, second.turn);
    push_strand(alloc, made, (left.side, right.side), rows, nodes, how)
}

// The same for both views of the second strand.
fn push_parallels_with(
    alloc: Global,
    made: &mut Vec<Gadget>,
    ends: (NodeEnds<'_>, NodeEnds<'_>),
    nodes: u8,
    first: View<'_>,
    second: (View<'_>, View<'_>),
) -> Result<(), NoMemory> {
    push_parallel(alloc, made, ends, nodes, first, second.0)?;
    push_parallel(alloc, made, ends, nodes, first, second.1)
}

/// Appends what two strands make in parallel between two nodes of three ends, in all ways.
pub(crate) fn push_parallels(
    alloc: Global,
    made: &mut Vec<Gadget>,
    ends: (NodeEnds<'_>, NodeEnds<'_>),
    nodes: u8,
    first: Numbered<'_>,
    second: Numbered<'_>,
) -> Result<(), NoMemory> {
    let (Some(ways), Some(others)) = (
        views(first.place, first.gadget),
        views(second.place, second.gadget),
    ) else {
        return Ok(());
    };
    push_parallels_with(alloc, made, ends, nodes, ways.0, others)?;
    push_parallels_with(alloc, made, ends, nodes, ways.1, others)
}
