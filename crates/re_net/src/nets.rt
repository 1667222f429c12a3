//! Nets: finite trees whose nodes pass messages.
ghost use Rattle.re_net.specs.FiniteTrees.{IsNumbered, neighbour, node_count, surroundings, unmarked};
ghost use Rattle.re_net.specs.Nets.{AreHistories, IsNet, NetState, message_cmp, with_message};
ghost use Rattle.re_net.specs.Rounds.{is_delivered, round};
ghost use Rattle.re_pool.specs.Pools.{Keeps, tree_at};
ghost use Rattle.std.specs.List.Sorted.{IsStrictlySortedBy};
ghost use Rattle.std.specs.Prelude.{◌≡◌, ◌≤◌, ◌<◌, [], IfOk, IsSome, OnErr, OnOk, length, slice_index_or, ℕ};

use crate::deliveries::Deliveries;
use crate::history::History;
use crate::messages::Message;
use crate::moving::advanced;
use crate::trees::Tree;
use re_labels::NoMemory;
use re_pool::{NodeId, Pool, Shape};
use std::alloc::Global;
use std::marker::Model;

/// How many rounds the nodes of a net may stand at, at most.
pub const MAX_ROUNDS: u8 = 64;

/// A finite tree whose nodes pass messages over its edges. One delivery of one message is the step, and each node stands at the round
/// that the messages delivered allow, with its views up to that round in a pool. Contracts see the tree, the most rounds, the messages
/// delivered in ascending order, and the pool.
#[derive(Drop)]
pub struct Net {
    tree: Tree,
    bound: u8,
    delivered: Deliveries,
    pub(crate) pool: Pool,
    histories: Vec<History>,
}

impl Model for Net {
    ghost use Rattle.re_net.specs.Marks.{IsHeldNet};
    ghost use Rattle.re_net.specs.Nets.{NetState};

    ghost Value = { NetState };

    ghost view = { λ n. record { tree = n.tree; bound = n.bound; delivered = n.delivered.messages; pool = n.pool } };

    ghost invariant = { λ n. IsHeldNet (record { tree = n.tree; bound = n.bound; delivered = n.delivered.messages; pool = n.pool }) n.delivered n.histories.items };
}

// The history of round 0 for each node: the view that shows nothing.
fn first_histories(alloc: Global, tree: &Tree, pool: &mut Pool) -> Result<Vec<History>, NoMemory>
    ensures views { IfOk result (λ all. AreHistories tree.now pool.new all.items) }
    ensures first { IfOk result (λ all. (v : ℕ) → v < node_count tree.now → length (slice_index_or all.items v []) ≡ 1) }
{
    let leaf = pool.intern(Shape::Leaf)?;
    let mut all = Vec::new(alloc);
    for _ in 0..tree.len() {
        let mut history = History::new(alloc);
        history.push(leaf)?;
        all.push(history)?;
    }
    Ok(all)
}

// The histories with which the nodes begin, while nothing is delivered.
fn starting_histories(
    alloc: Global,
    tree: &Tree,
    bound: u8,
    delivered: &Deliveries,
    pool: &mut Pool,
) -> Result<Vec<History>, NoMemory>
    requires numbered { IsNumbered tree.now }
    requires few { bound ≤ MAX_ROUNDS }
    requires none { delivered.now.messages ≡ [] }
    ensures { IfOk result (λ histories. IsNet (record { tree = tree.now; bound = bound; delivered = []; pool = pool.new }) histories.items) }
{
    let first = first_histories(alloc, tree, pool)?;
    let mut histories = Vec::new(alloc);
    for node in 0..tree.len() {
        let history = advanced(tree, bound, delivered, pool, first.as_slice(), node)?;
        histories.push(history)?;
    }
    Ok(histories)
}

impl Net {
    /// The net of a numbered tree in which nothing is delivered. Each node stands at round 0, or at the bound where it has no neighbour. The
    /// bound is at most `MAX_ROUNDS`.
    ///
    /// It looks at the ports of each node. For the messages it takes as many bytes as there are nodes, times the bound: in a tree of two nodes
    /// a byte for each message that there can be, in a large one half a byte. NoMemory comes where there was none for these, for a node's
    /// list of views or for the pool.
    pub fn new(alloc: Global, tree: Tree, bound: u8) -> Result<Net, NoMemory>
        requires numbered { IsNumbered tree }
        requires few { bound ≤ MAX_ROUNDS }
        ensures tree { IfOk result (λ net. net.tree ≡ tree) }
        ensures bound { IfOk result (λ net. net.bound ≡ bound) }
        ensures delivered { IfOk result (λ net. net.delivered ≡ []) }
    {
        let mut pool = Pool::new(alloc);
        let delivered = Deliveries::new(alloc, tree.len(), bound)?;
        let histories = starting_histories(alloc, &tree, bound, &delivered, &mut pool)?;
        Ok(Net {
            tree,
            bound,
            delivered,
            pool,
            histories,
        })
    }

    /// The tree, which is numbered.
    pub fn tree(&self) -> &Tree
        ensures tree { result.now ≡ self.now.tree }
        ensures numbered { IsNumbered self.now.tree }
    {
        &self.tree
    }

    /// The most rounds, at most `MAX_ROUNDS`.
    pub fn bound(&self) -> u8
        ensures bound { result ≡ self.now.bound }
        ensures few { result ≤ MAX_ROUNDS }
    {
        self.bound
    }

    /// The pool in which the nodes' views stand.
    pub fn pool(&self) -> &Pool
        ensures { result.now ≡ self.now.pool }
    {
        &self.pool
    }

    /// The round at which a node stands: the greatest up to the bound such that each neighbour has delivered all its messages with a smaller
    /// number over the shared edge. It costs one look at the node.
    pub fn round(&self, node: u32) -> u8
        requires { node < node_count self.now.tree }
        ensures round { result ≡ round self.now.tree self.now.bound self.now.delivered node }
        ensures most { result ≤ self.now.bound }
    {
        let history = &self.histories[node as usize];
        (history.len() - 1) as u8
    }

    /// The view that a node holds: the number in the pool of its surroundings of the radius of its round. It costs one look at the node.
    pub fn view(&self, node: u32) -> NodeId
        requires { node < node_count self.now.tree }
        ensures held { result < length self.now.pool }
        ensures view { tree_at self.now.pool result ≡ surroundings self.now.tree unmarked node (round self.now.tree self.now.bound self.now.delivered node) }
    {
        let history = &self.histories[node as usize];
        history.at(history.len() - 1)
    }

    /// Whether message number `number` of node `from` over its port is delivered. It costs one look at a byte.
    pub fn delivered(&self, from: u32, port: u8, number: u8) -> bool
        ensures delivered { result ≡ is_delivered self.now.delivered from port number }
        ensures ordered { IsStrictlySortedBy message_cmp self.now.delivered }
    {
        self.delivered.contains(Message { from, port, number })
    }

    /// Delivers a message of a node over one of its ports, with a number below the bound and at most the node's round. The neighbour there
    /// then moves on as far as it has heard. A message that was delivered before changes nothing. After an error rounds, views and the
    /// messages delivered are the same.
    ///
    /// It costs a look at one byte for each port of that neighbour, as many looks and nodes of the pool for each round by which it moves on,
    /// and a copy of the numbers of its views, at most 65. The message itself is one bit that `new` made room for, so NoMemory comes only
    /// where there was none for this copy or for the pool.
    pub fn deliver(&mut self, from: u32, port: u8, number: u8) -> Result<(), NoMemory>
        requires node { from < node_count self.old.tree }
        requires port { IsSome (neighbour self.old.tree from port) }
        requires number { number < self.old.bound }
        requires sent { number ≤ round self.old.tree self.old.bound self.old.delivered from }
        ensures tree { self.new.tree ≡ self.old.tree }
        ensures bound { self.new.bound ≡ self.old.bound }
        ensures delivered { OnOk result (self.new.delivered ≡ with_message self.old.delivered (record { from = from; port = port; number = number })) }
        ensures err { OnErr result (self.new.delivered ≡ self.old.delivered) }
        ensures keeps { Keeps self.old.pool self.new.pool }
    {
        let message = Message { from, port, number };
        let to = match self.tree.neighbour(from, port) {
            Some(one) => one.node,
            None => unreachable!(),
        };
        let is_new = self.delivered.insert(message);
        match advanced(
            &self.tree,
            self.bound,
            &self.delivered,
            &mut self.pool,
            self.histories.as_slice(),
            to,
        ) {
            Ok(history) => {
                self.histories[to as usize] = history;
                Ok(())
            }
            Err(fault) => {
                if is_new {
                    self.delivered.remove(message);
                }
                Err(fault)
            }
        }
    }
}
