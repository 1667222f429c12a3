//! The graph that is made of gadgets.
ghost use Rattle.std.specs.Prelude.{◌≡◌, ◌≤◌, IfOk, IfSome};

use crate::gadgets::{Gadget, Made, Turn};
use crate::{Graph, GraphEnd, PassiveEnds};
use arrayvec::ArrayVec;
use re_labels::{Degrees, NoMemory, Side};
use std::alloc::Global;

/// The most gadgets that a graph of 64 active nodes is made of, each counted as often as it stands in it.
const MAX_PARTS: u32 = 1024;

// The numbers of the edges at free ends.
type Edges = ArrayVec<u16, 8>;

// A gadget that is to be written, with the edges at its free ends.
#[derive(Drop)]
struct Part {
    place: usize,
    edges: Edges,
}

// A graph as far as it is written: the edges at the nodes of each side, in the order of the nodes and their ports, how many edges there are, and what
// is still to be written.
#[derive(Drop)]
struct Draft {
    parts: Vec<Part>,
    active: Vec<u16>,
    passive: Vec<u16>,
    edges: u16,
}

// These edges.
fn edges_of(edges: &[u16]) -> Edges {
    let mut held = ArrayVec::new();
    for edge in edges {
        if held.len() < 8 {
            held.push(*edge);
        }
    }
    held
}

impl Draft {
    // A new edge.
    fn edge(&mut self) -> u16 {
        self.edges = self.edges.saturating_add(1);
        self.edges
    }

    // Asks for a gadget.
    fn ask(&mut self, place: usize, edges: &[u16]) -> Result<(), NoMemory> {
        let edges = edges_of(edges);
        Ok(self.parts.push(Part { place, edges })?)
    }

    // Asks for a gadget with these edges, and one more or two.
    fn ask_with(&mut self, place: usize, edges: &[u16], more: &[u16]) -> Result<(), NoMemory> {
        let mut held = edges_of(edges);
        for edge in more {
            if held.len() < 8 {
                held.push(*edge);
            }
        }
        Ok(self.parts.push(Part { place, edges: held })?)
    }

    // Asks for a strand from the first edge to the second one.
    fn ask_strand(&mut self, turn: Turn, from: u16, to: u16) -> Result<(), NoMemory> {
        if turn.reversed {
            self.ask(turn.place, &[to, from])
        } else {
            self.ask(turn.place, &[from, to])
        }
    }

    // Writes a node.
    fn put(&mut self, side: Side, edges: &[u16]) -> Result<(), NoMemory> {
        match side {
            Side::Active => Ok(self.active.extend_from_slice(edges)?),
            Side::Passive => Ok(self.passive.extend_from_slice(edges)?),
        }
    }

    // Asks for two nodes of three ends and the strands between them.
    fn ask_joined(
        &mut self,
        nodes: (usize, usize),
        strands: (Turn, Turn),
        from: u16,
        to: u16,
    ) -> Result<(), NoMemory> {
        let (first, second, third, fourth) = (self.edge(), self.edge(), self.edge(), self.edge());
        self.ask_strand(strands.1, third, fourth)?;
        self.ask_strand(strands.0, first, second)?;
        self.ask(nodes.1, &[to, second, fourth])?;
        self.ask(nodes.0, &[from, first, third])
    }

    // Asks for what a gadget of one node or of a strand is made of.
    fn open(&mut self, made: Made, edges: &[u16], from: u16, to: u16) -> Result<(), NoMemory> {
        let edge = self.edge();
        match made {
            Made::Filled(node, tail) => {
                self.ask(tail, &[edge])?;
                self.ask_with(node, edges, &[edge])
            }
            Made::Looped(node, strand) => {
                let other = self.edge();
                self.ask(strand, &[edge, other])?;
                self.ask_with(node, edges, &[edge, other])
            }
            Made::Chained(first, second) => {
                self.ask_strand(second, edge, to)?;
                self.ask_strand(first, from, edge)
            }
            Made::Ended(strand, tail) => {
                self.ask(tail, &[edge])?;
                self.ask_strand(strand, from, edge)
            }
            Made::Ring(strand) => self.ask(strand, &[edge, edge]),
            Made::Met(first, second) => {
                self.ask(second, &[edge])?;
                self.ask(first, &[edge])
            }
            _ => Ok(()),
        }
    }

    // Writes what is made so, with these edges at its free ends.
    fn write(&mut self, made: Made, edges: &[u16]) -> Result<(), NoMemory> {
        let from = edges.first().copied().unwrap_or(0);
        let to = edges.get(1).copied().unwrap_or(0);
        match made {
            Made::Node(side) => self.put(side, edges),
            Made::Joined(left, right, first, second) => {
                self.ask_joined((left, right), (first, second), from, to)
            }
            _ => self.open(made, edges, from, to),
        }
    }
}

// The graph as edges.
fn drafted(alloc: Global, gadgets: &[Gadget], made: Made) -> Result<Draft, NoMemory> {
    let mut draft = Draft {
        parts: Vec::new(alloc),
        active: Vec::new(alloc),
        passive: Vec::new(alloc),
        edges: 0,
    };
    draft.write(made, &[])?;
    for _part in 0..MAX_PARTS {
        let Some(part) = draft.parts.pop() else {
            break;
        };
        if let Some(gadget) = gadgets.get(part.place) {
            draft.write(gadget.made, part.edges.as_slice())?;
        }
    }
    Ok(draft)
}

// The place of an edge among these.
fn place_of(edges: &[u16], edge: u16) -> usize {
    match edges.iter().position(|other| *other == edge) {
        Some(place) => place,
        None => edges.len(),
    }
}

// The places of the edges of a passive node among those of active nodes, in ascending order.
fn places_at(active: &[u16], edges: &[u16]) -> ArrayVec<usize, 6> {
    let mut places = ArrayVec::new();
    for edge in edges {
        if places.len() < 6 {
            places.push(place_of(active, *edge));
        }
    }
    places.as_mut_slice().sort_unstable();
    places
}

// The ends at these places, where nodes have this degree.
fn ends_at(degree: usize, places: &[usize]) -> Option<PassiveEnds>
    requires { 1 ≤ degree }
{
    let mut ends: ArrayVec<GraphEnd, 6> = ArrayVec::new();
    for place in places {
        let node = (*place / degree).min(255) as u8;
        let port = (*place % degree).min(254) as u8 + 1;
        if ends.len() < 6 {
            ends.push(GraphEnd { node, port });
        }
    }
    PassiveEnds::new(ends.as_slice())
}

// The edges of the passive node that has the edge.
fn edges_with(passive: &[u16], degree: usize, edge: u16) -> &[u16]
    requires { 1 ≤ degree }
{
    let number = place_of(passive, edge) / degree;
    let from = number.saturating_mul(degree);
    let to = from.saturating_add(degree);
    match passive.get(from..to) {
        Some(edges) => edges,
        None => &passive[..0],
    }
}

// The ends at each passive node, in the order of the first ones.
fn all_ends(
    alloc: Global,
    degrees: Degrees,
    active: &[u16],
    passive: &[u16],
) -> Result<Vec<PassiveEnds>, NoMemory>
    requires active { 2 ≤ degrees.active }
    requires passive { 2 ≤ degrees.passive }
{
    let mut ends = Vec::new(alloc);
    for (place, edge) in active.iter().enumerate() {
        let edges = edges_with(passive, degrees.passive as usize, *edge);
        let places = places_at(active, edges);
        if places.as_slice().first() == Some(&place) {
            if let Some(held) = ends_at(degrees.active as usize, places.as_slice()) {
                ends.push(held)?;
            }
        }
    }
    Ok(ends)
}

/// The graph that is made so of these gadgets, where it is one: active nodes are numbered as they are written, and passive nodes stand in the order
/// of the first of their ends.
pub(crate) fn graph_made(
    alloc: Global,
    degrees: Degrees,
    gadgets: &[Gadget],
    made: Made,
) -> Result<Option<Graph>, NoMemory>
    requires active { 2 ≤ degrees.active }
    requires passive { 2 ≤ degrees.passive }
    ensures degrees { IfOk result (λ graph. IfSome graph (λ graph. (graph.active_degree ≡ degrees.active) × (graph.passive_degree ≡ degrees.passive))) }
{
    let draft = drafted(alloc, gadgets, made)?;
    let active = draft.active.as_slice();
    let nodes = (active.len() / degrees.active as usize).min(255) as u8;
    let ends = all_ends(alloc, degrees, active, draft.passive.as_slice())?;
    Ok(Graph::build(degrees, nodes, ends))
}
