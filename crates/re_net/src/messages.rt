//! Messages between neighbours.

/// Message number `number` of node `from` over its port. Messages are in the order of these three.
#[derive(Clone, Copy, Debug, PartialEq, Eq, PartialOrd, Ord)]
pub struct Message {
    /// The node that sends it.
    pub from: u32,
    /// The port over which it goes.
    pub port: u8,
    /// Its number, from 0.
    pub number: u8,
}
