//! A walk over the configurations of a constraint in ascending order, along the leaves of its prefix tree.
ghost use Rattle.re_labels.specs.LeafWalks.{IsEnd, IsWay};
ghost use Rattle.re_labels.specs.PrefixTrees.{IsPrefixTree, held_configs, node_at};
ghost use Rattle.std.specs.Iterator.{YieldsFirstRef, item_count};
ghost use Rattle.std.specs.Prelude.{◌≡◌, ◌<◌, ◌≤◌, ◌+◌, ◌^◌, ℕ, length, slice_index_or, []};

use crate::Config;
use crate::prefix_tree::{Kind, Node, first_of, leaf_count};
use std::marker::Model;

// The way down a prefix tree to one of its leaves: the number of the leaf in their order, and the places of the nodes on the way,
// the root first.
#[derive(Clone, Copy, Debug)]
pub(crate) struct Way {
    number: usize,
    places: [u32; 7],
}

/// The configurations of a constraint that are left on a walk, in ascending order; contracts see it as their list. It takes no
/// memory. A step goes up to the last node with a sibling and down to the first leaf behind it, so that a whole walk passes each
/// node twice.
#[derive(Drop)]
pub struct Configurations<'a> {
    nodes: &'a [Node],
    degree: usize,
    end: usize,
    way: Way,
}

impl<'a> Model for Configurations<'a> {
    ghost use Rattle.re_labels.specs.LeafWalks.{IsWay};
    ghost use Rattle.re_labels.specs.PrefixTrees.{held_configs};
    ghost use Rattle.std.specs.Prelude.{◌≡◌, ◌<◌, ◌≤◌, List, ℕ, drop, length};

    ghost Value = { List (List ℕ) };

    ghost view = { λ c. drop c.way.number (held_configs c.nodes.now) };

    ghost invariant = { λ c. (c.end ≡ length (held_configs c.nodes.now)) × (c.degree ≤ 6) × (c.way.number ≤ c.end)
        × (c.way.number < c.end → IsWay c.degree c.degree c.nodes.now c.way) };
}

// On from the node at this depth along first children, down to a leaf.
fn go_down(nodes: &[Node], degree: usize, way: &mut Way, depth: usize)
    requires six { degree ≤ 6 }
    requires depth { depth ≤ degree }
    requires way { IsWay degree depth nodes.now way.old }
    requires some { way.old.number < length (held_configs nodes.now) }
    ensures way { IsWay degree degree nodes.now way.new }
    ensures number { way.new.number ≡ way.old.number }
{
    for level in depth..degree {
        let first = first_of(&nodes[way.places[level] as usize].kind);
        way.places[level + 1] = first;
    }
}

// The depth of the last node on the way of a leaf that has a sibling, where another leaf comes.
fn turn_of(nodes: &[Node], degree: usize, way: &Way) -> usize
    requires six { degree ≤ 6 }
    requires way { IsWay degree degree nodes.now way.now }
    requires more { way.now.number + 1 < length (held_configs nodes.now) }
    ensures low { 0 < result }
    ensures high { result ≤ degree }
    ensures end { IsEnd degree result nodes.now way.now }
    ensures sibling { 0 < (node_at nodes.now (slice_index_or way.now.places result 0)).next }
{
    let mut depth = degree;
    'up: while nodes[way.places[depth] as usize].next == 0 {
        depth -= 1;
    }
    depth
}

// On to the next leaf, where another one comes.
fn go_on(nodes: &[Node], degree: usize, way: &mut Way)
    requires six { degree ≤ 6 }
    requires way { IsWay degree degree nodes.now way.old }
    requires more { way.old.number + 1 < length (held_configs nodes.now) }
    requires few { length (held_configs nodes.now) < 2 ^ 64 }
    ensures way { IsWay degree degree nodes.now way.new }
    ensures number { way.new.number ≡ way.old.number + 1 }
{
    let depth = turn_of(nodes, degree, way);
    way.number += 1;
    way.places[depth] = nodes[way.places[depth] as usize].next;
    go_down(nodes, degree, way, depth);
}

// The configuration at the leaf of a way.
fn config_at<'a>(nodes: &'a [Node], degree: usize, way: &Way) -> &'a Config
    requires six { degree ≤ 6 }
    requires way { IsWay degree degree nodes.now way.now }
    ensures { result.now ≡ slice_index_or (held_configs nodes.now) way.now.number [] }
{
    match &nodes[way.places[degree] as usize].kind {
        Kind::Leaf(config) => config,
        Kind::Inner { .. } => unreachable!(),
    }
}

/// The walk over the configurations of all leaves.
pub(crate) fn walk_of(nodes: &[Node], degree: u8) -> Configurations<'_>
    requires tree { IsPrefixTree degree nodes.now }
    requires six { degree ≤ 6 }
    ensures { result ≡ held_configs nodes.now }
{
    let end = leaf_count(nodes);
    let mut way = Way {
        number: 0,
        places: [0; 7],
    };
    if end > 0 {
        go_down(nodes, degree as usize, &mut way, 0);
    }
    Configurations {
        nodes,
        degree: degree as usize,
        end,
        way,
    }
}

impl<'a> Iterator for Configurations<'a> {
    type Item = &'a Config;

    ghost next_gives = { YieldsFirstRef (λ rest. rest) };

    ghost remaining = { item_count (λ rest. rest) };

    fn next(&mut self) -> Option<&'a Config> {
        if self.way.number == self.end {
            return None;
        }
        let config = config_at(self.nodes, self.degree, &self.way);
        if self.way.number + 1 == self.end {
            self.way.number += 1;
        } else {
            go_on(self.nodes, self.degree, &mut self.way);
        }
        Some(config)
    }
}
