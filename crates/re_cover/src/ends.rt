//! Ends of nodes.

/// A node, where nodes count from 0, with one of its ports, which count from 1.
#[derive(Clone, Copy, Debug, Default, PartialEq, Eq)]
pub struct GraphEnd {
    /// The number of the node.
    pub node: u8,
    /// The number of the port.
    pub port: u8,
}
