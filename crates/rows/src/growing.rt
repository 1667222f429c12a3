// Trees for the word `run`: paths, and trees that are grown level by level, with messages over all their edges.
use std::alloc::{AllocError, Global};

// The ports of active nodes of a tree that is grown level by level, and those of its passive ones.
const ACTIVE_PORTS: u32 = 3;

const PASSIVE_PORTS: u32 = 2;

// Where a node is joined by its port 1: the node there, and its port.
#[derive(Clone, Copy, Drop)]
struct Join {
    to: u32,
    port: u32,
}

// The joins of a path of so many nodes, each node behind the one before it.
fn path(alloc: Global, nodes: u32) -> Result<Vec<Join>, AllocError> {
    let mut joins = Vec::new(alloc);
    for to in 0..nodes.saturating_sub(1) {
        let port = if to == 0 { 1 } else { 2 };
        joins.push(Join { to, port })?;
    }
    Ok(joins)
}

// The joins of a tree of so many nodes that is grown level by level from an active node.
fn levels(alloc: Global, nodes: u32) -> Result<Vec<Join>, AllocError> {
    let mut joins = Vec::new(alloc);
    let mut to = 0u32;
    let mut port = 1u32;
    let mut most = ACTIVE_PORTS;
    let mut level_end = 1u32;
    for node in 1..nodes {
        joins.push(Join { to, port })?;
        if port < most {
            port = port.saturating_add(1);
        } else {
            to = to.saturating_add(1);
            port = 2;
            if to == level_end {
                most = if most == ACTIVE_PORTS {
                    PASSIVE_PORTS
                } else {
                    ACTIVE_PORTS
                };
                level_end = node.saturating_add(1);
            }
        }
    }
    Ok(joins)
}

fn add(alloc: Global, text: &mut Vec<u8>, a: u32, b: u32, c: u32) -> Result<(), AllocError> {
    let line = format!(in alloc; "{a} {b} {c}\n")?;
    text.extend_from_slice(line.as_bytes())?;
    Ok(())
}

fn add_joins(alloc: Global, text: &mut Vec<u8>, joins: &[Join]) -> Result<(), AllocError> {
    for join in joins {
        add(alloc, text, join.to, join.port, 1)?;
    }
    Ok(())
}

// The messages of this number over each edge, from both ends.
fn add_messages(
    alloc: Global,
    text: &mut Vec<u8>,
    joins: &[Join],
    number: u32,
) -> Result<(), AllocError> {
    let mut node = 0u32;
    for join in joins {
        node = node.saturating_add(1);
        add(alloc, text, node, 1, number)?;
        add(alloc, text, join.to, join.port, number)?;
    }
    Ok(())
}

// The lines of a path of so many nodes behind its first one.
pub(crate) fn add_path(alloc: Global, text: &mut Vec<u8>, nodes: u32) -> Result<(), AllocError> {
    let joins = path(alloc, nodes)?;
    add_joins(alloc, text, joins.as_slice())
}

// The lines of a tree of so many nodes behind its first one, and of all messages over its edges: those of number 0, then those of number 1.
pub(crate) fn add_levels(alloc: Global, text: &mut Vec<u8>, nodes: u32) -> Result<(), AllocError> {
    let joins = levels(alloc, nodes)?;
    add_joins(alloc, text, joins.as_slice())?;
    text.extend_from_slice(b"== deliveries\n")?;
    add_messages(alloc, text, joins.as_slice(), 0)?;
    add_messages(alloc, text, joins.as_slice(), 1)
}
