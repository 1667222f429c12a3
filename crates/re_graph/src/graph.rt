//! Graphs, each end of an active node at one port of one passive node.
ghost use Rattle.re_cover.specs.Graphs.{IsGraph};
ghost use Rattle.re_graph.specs.Building.{graph_of};
ghost use Rattle.std.specs.Prelude.{◌≡◌, ◌≤◌, IfSome, Some, None, length, nat_le, if◌then◌else◌};
ghost use Rattle.std.specs.List.{AllByRecursion};

use crate::standing::{all_ends, nodes_once, nodes_stand};
use arrayvec::ArrayVec;
use re_cover::GraphEnd;
use re_labels::Degrees;
use std::marker::Model;

/// How many active nodes a graph may have.
pub const MAX_NODES: u8 = 64;

/// How many passive nodes a graph may have: each has two ends or more, and an active node has six or fewer.
pub const MAX_PASSIVE: usize = 192;

/// The ends of active nodes at the ports of a passive node, at most 6 of them, that of port 1 first. Contracts see it as their list.
#[derive(Drop, Debug)]
pub struct PassiveEnds {
    held: ArrayVec<GraphEnd, 6>,
}

impl Model for PassiveEnds {
    ghost use Rattle.re_cover.specs.declared.ends.GraphEnd.{GraphEnd};
    ghost use Rattle.std.specs.Prelude.{List, ◌≤◌, length};

    ghost Value = { List GraphEnd };

    ghost view = { λ p. p.held.items };

    ghost invariant = { λ p. length p.held.items ≤ 6 };
}

impl PassiveEnds {
    /// These ends by port, or None exactly where there are more than 6.
    pub fn new(ends: &[GraphEnd]) -> Option<PassiveEnds>
        ensures { result ≡ (if nat_le (length ends.now) 6 then Some ends.now else None) }
    {
        if ends.len() > 6 {
            return None;
        }
        let mut held = ArrayVec::new();
        for end in ends {
            held.push(*end);
        }
        Some(PassiveEnds { held })
    }

    /// The ends, that of port 1 first.
    pub fn ends(&self) -> &[GraphEnd]
        ensures ends { result.now ≡ self.now }
        ensures few { length self.now ≤ 6 }
    {
        self.held.as_slice()
    }
}

/// A graph: its degrees, how many active nodes it has, and for each passive node the ends at its ports. Each end of an active node stands at
/// one port of one passive node.
#[derive(Drop)]
pub struct Graph {
    degrees: Degrees,
    nodes: u8,
    passive: Vec<PassiveEnds>,
}

impl Model for Graph {
    ghost use Rattle.re_cover.specs.Graphs.{IsGraph, PortGraph};
    ghost use Rattle.re_graph.specs.Building.{is_graph};
    ghost use Rattle.std.specs.Prelude.{◌≡◌, true};

    ghost Value = { PortGraph };

    ghost view = { λ g. record { active_degree = g.degrees.active; passive_degree = g.degrees.passive; nodes = g.nodes; passive = g.passive.items } };

    ghost invariant = { λ g. is_graph (record { active_degree = g.degrees.active; passive_degree = g.degrees.passive; nodes = g.nodes; passive = g.passive.items }) ≡ true };
}

impl Graph {
    /// The graph of these degrees, so many active nodes, and the ends at each passive node. None exactly where it is none: where a degree isn't from
    /// 2 to 6, there are more than `MAX_NODES` active or `MAX_PASSIVE` passive nodes, a passive node has another number of ends than its degree,
    /// an end is none of an active node, or an end of an active node doesn't stand at exactly one port.
    pub fn build(degrees: Degrees, nodes: u8, passive: Vec<PassiveEnds>) -> Option<Graph>
        ensures graph { result ≡ graph_of (record { active_degree = degrees.active; passive_degree = degrees.passive; nodes = nodes; passive = passive.items }) }
        ensures degrees { IfSome result (λ graph. (graph.active_degree ≡ degrees.active) × (graph.passive_degree ≡ degrees.passive)) }
        ensures nodes { IfSome result (λ graph. graph.nodes ≡ nodes) }
    {
        if degrees.active < 2 || degrees.active > 6 {
            return None;
        }
        if degrees.passive < 2 || degrees.passive > 6 {
            return None;
        }
        if nodes > MAX_NODES || passive.len() > MAX_PASSIVE {
            return None;
        }
        let held = passive.as_slice();
        if !all_ends(nodes, degrees.active, degrees.passive, held) {
            return None;
        }
        if !nodes_stand(held, degrees.active, nodes) {
            return None;
        }
        if !nodes_once(held, 0, held) {
            return None;
        }
        Some(Graph {
            degrees,
            nodes,
            passive,
        })
    }

    /// Its degrees.
    pub fn degrees(&self) -> Degrees
        ensures degrees { result ≡ record { active = self.now.active_degree; passive = self.now.passive_degree } }
    {
        self.degrees
    }

    /// How many active nodes it has.
    pub fn nodes(&self) -> u8
        ensures nodes { result ≡ self.now.nodes }
    {
        self.nodes
    }

    /// The ends at each passive node.
    pub fn passive(&self) -> &[PassiveEnds]
        ensures passive { result.now ≡ self.now.passive }
        ensures graph { IsGraph self.now }
    {
        self.passive.as_slice()
    }
}
