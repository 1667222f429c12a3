//! Finite trees that are built by joining one node after another to node 0.
ghost use Rattle.re_net.specs.FiniteTrees.{CanJoin, IsFiniteTree, IsNumbered, most_ports, neighbour, node_count, side_of, with_join};
ghost use Rattle.re_net.specs.HeldTrees.{AreFirst};
ghost use Rattle.std.specs.Prelude.{◌≡◌, ◌≤◌, ◌<◌, ◌↔◌, [], IfOk, IfSome, IsErrOf, IsTrue, OnErr, OnOk};

use crate::joins::{Join, Neighbour, Node};
use re_labels::{Degrees, NoMemory, Side};
use std::alloc::Global;
use std::marker::Model;

/// The most nodes that a tree holds.
pub const MAX_NODES: u32 = 4_096;

/// Why a node could not be joined.
#[derive(Clone, Copy, Debug, PartialEq, Eq)]
pub enum JoinFault {
    /// There is no such node, or a port is 0, above the degree of its side, or taken.
    NoPlace,
    /// `MAX_NODES` nodes are held.
    TooManyNodes,
    /// There was no memory for one more.
    NoMemory,
}

/// A finite tree: its nodes are numbered from 0 in the order in which they were joined, and neighbours are
/// of different sides. Contracts see the degrees, the side of node 0, and the list of the joins.
#[derive(Drop)]
pub struct Tree {
    degrees: Degrees,
    root: Side,
    joins: Vec<Join>,
    nodes: Vec<Node>,
}

impl Model for Tree {
    ghost use Rattle.re_net.specs.FiniteTrees.{FiniteTree};
    ghost use Rattle.re_net.specs.HeldTrees.{IsHeld};

    ghost Value = { FiniteTree };

    ghost view = { λ t. record { degrees = t.degrees; root = t.root; joins = t.joins.items } };

    ghost invariant = { λ t. IsHeld (record { degrees = t.degrees; root = t.root; joins = t.joins.items }) t.nodes.items };
}

// Whether no port is taken above one that is free.
fn are_first(over: &[Option<Neighbour>; 6]) -> bool
    ensures { IsTrue result ↔ AreFirst over.now }
{
    for index in 0..5usize {
        if over[index + 1].is_some() && over[index].is_none() {
            return false;
        }
    }
    true
}

impl Tree {
    /// Node 0 alone, on the side `root`. The degrees are from 2 to 6. It takes memory for one node.
    pub fn new(alloc: Global, degrees: Degrees, root: Side) -> Result<Tree, NoMemory>
        requires active { (2 ≤ degrees.active) × (degrees.active ≤ 6) }
        requires passive { (2 ≤ degrees.passive) × (degrees.passive ≤ 6) }
        ensures alone { IfOk result (λ tree. tree ≡ record { degrees = degrees; root = root; joins = [] }) }
    {
        let mut nodes = Vec::new(alloc);
        nodes.push(Node {
            side: root,
            over: [None; 6],
        })?;
        Ok(Tree {
            degrees,
            root,
            joins: Vec::new(alloc),
            nodes,
        })
    }

    /// How many nodes there are: the numbers below are nodes. It costs the same for every tree.
    pub fn len(&self) -> u32
        ensures len { result ≡ node_count self.now }
        ensures tree { IsFiniteTree self.now }
    {
        self.nodes.len() as u32
    }

    /// What it allocates with.
    pub(crate) fn alloc(&self) -> Global {
        *self.nodes.allocator()
    }

    /// The degrees of the two sides: the most edges that a node may have.
    pub fn degrees(&self) -> Degrees
        ensures { result ≡ self.now.degrees }
    {
        self.degrees
    }

    /// The side of a node, which costs one look at it.
    pub fn side(&self, node: u32) -> Side
        requires { node < node_count self.now }
        ensures { result ≡ side_of self.now node }
    {
        self.nodes[node as usize].side
    }

    /// The neighbour over a port of a node, or None exactly where no port of that number is taken. It costs one look at the node.
    pub fn neighbour(&self, node: u32, port: u8) -> Option<Neighbour>
        requires { node < node_count self.now }
        ensures over { result ≡ neighbour self.now node port }
        ensures node { IfSome result (λ one. one.node < node_count self.now) }
        ensures port { IfSome result (λ _. (1 ≤ port) × (port ≤ 6)) }
    {
        let here = &self.nodes[node as usize];
        if port == 0 || port > 6 {
            return None;
        }
        here.over[port as usize - 1]
    }

    /// The degree of a node's side: how many ports it may have.
    pub(crate) fn most_ports(&self, node: u32) -> u8
        requires { node < node_count self.now }
        ensures most { result ≡ most_ports self.now node }
        ensures few { result ≤ 6 }
    {
        let here = &self.nodes[node as usize];
        self.degrees.of(here.side)
    }

    /// Whether at each node the ports that are taken are those from 1 to their number. It looks at each port
    /// of each node.
    pub fn numbered(&self) -> bool
        ensures { IsTrue result ↔ IsNumbered self.now }
    {
        for node in &self.nodes {
            if !are_first(&node.over) {
                return false;
            }
        }
        true
    }

    /// Whether a new node may be joined there.
    fn can_join(&self, to: u32, port: u8, own: u8) -> bool
        ensures { IsTrue result ↔ CanJoin self.now (record { to = to; port = port; own = own }) }
    {
        if to as usize >= self.nodes.len() {
            return false;
        }
        let here = &self.nodes[to as usize];
        let most = self.degrees.of(here.side);
        let own_most = self.degrees.of(here.side.other());
        1 <= port
            && port <= most
            && 1 <= own
            && own <= own_most
            && self.neighbour(to, port).is_none()
    }

    /// Joins one more node, of the other side, by its port `own` at port `port` of node `to`. NoPlace comes
    /// exactly where no node can be joined there, TooManyNodes exactly where one can and `MAX_NODES` are held.
    /// After an error the tree is the same. It costs a look at the node and one more node, whatever the tree.
    pub fn join(&mut self, to: u32, port: u8, own: u8) -> Result<(), JoinFault>
        ensures joined { OnOk result (self.new ≡ with_join self.old (record { to = to; port = port; own = own })) }
        ensures no_place { IsErrOf result JoinFault.NoPlace ↔ (CanJoin self.old (record { to = to; port = port; own = own }) → ⊥) }
        ensures too_many { IsErrOf result JoinFault.TooManyNodes ↔ (CanJoin self.old (record { to = to; port = port; own = own }) × (node_count self.old ≡ MAX_NODES)) }
        ensures err { OnErr result (self.new ≡ self.old) }
    {
        if !self.can_join(to, port, own) {
            return Err(JoinFault::NoPlace);
        }
        let count = self.nodes.len();
        if count >= MAX_NODES as usize {
            return Err(JoinFault::TooManyNodes);
        }
        let edge = count as u32;
        if let Err(_) = self.joins.push(Join { to, port, own }) {
            return Err(JoinFault::NoMemory);
        }
        let side = self.nodes[to as usize].side.other();
        let mut over = [None; 6];
        over[own as usize - 1] = Some(Neighbour {
            node: to,
            port,
            edge,
        });
        if let Err(_) = self.nodes.push(Node { side, over }) {
            self.joins.pop();
            return Err(JoinFault::NoMemory);
        }
        let here = &mut self.nodes[to as usize];
        here.over[port as usize - 1] = Some(Neighbour {
            node: edge,
            port: own,
            edge,
        });
        Ok(())
    }
}
