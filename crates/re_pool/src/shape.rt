//! The shapes of nodes, whose links point to other nodes by number.
ghost use Rattle.std.specs.Prelude.{◌≡◌};

use arrayvec::ArrayVec;
use std::marker::Model;

/// The number of a node in a pool. Contracts see the number.
#[derive(Clone, Copy, Debug, Default, PartialEq, Eq, Hash)]
pub struct NodeId(usize);

impl Model for NodeId {
    ghost use Rattle.std.specs.Prelude.{ℕ};

    ghost Value = { ℕ };

    ghost view = { λ id. id.0 };

    ghost inverse = { λ n. record { 0 = n } };
}

impl NodeId {
    // The node at a place of a pool.
    pub(crate) fn at(place: usize) -> NodeId
        ensures { result ≡ place }
    {
        NodeId(place)
    }

    // Its place.
    pub(crate) fn place(self) -> usize
        ensures { result ≡ self }
    {
        self.0
    }
}

/// What a node shows at one of its ports: the number from 1 that the neighbour gives to the edge, and the node that stands for the
/// branch behind it.
#[derive(Clone, Copy, Debug, Default, PartialEq, Eq, Hash)]
pub struct Link {
    /// The neighbour's number of the edge.
    pub back: u8,
    /// The node of the branch.
    pub below: NodeId,
}

/// What a node shows: nothing, or its links, in order.
#[derive(Debug, Drop, PartialEq, Eq, Hash)]
pub enum Shape {
    /// Nothing is seen.
    Leaf,
    /// The links, one for each port that is seen.
    Node(ArrayVec<Link, 6>),
}
