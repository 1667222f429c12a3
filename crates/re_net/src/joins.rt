//! How a finite tree is built, and what a node of it sees over a port.
use re_labels::Side;

/// One node more: its port `own` is joined at port `port` of node `to`.
#[derive(Clone, Copy, Debug)]
pub struct Join {
    /// The node to which it is joined.
    pub to: u32,
    /// The port of that node.
    pub port: u8,
    /// The new node's port.
    pub own: u8,
}

/// The neighbour over a port of a node: its number, its own port of the edge, and the number of the edge,
/// which is that of the node that was joined by it.
#[derive(Clone, Copy, Debug)]
pub struct Neighbour {
    /// The neighbour.
    pub node: u32,
    /// The neighbour's port of the edge.
    pub port: u8,
    /// The edge.
    pub edge: u32,
}

/// A node as it is held: its side, and the neighbour over each port from 1 to 6.
#[derive(Clone, Copy, Debug)]
pub(crate) struct Node {
    pub(crate) side: Side,
    pub(crate) over: [Option<Neighbour>; 6],
}
