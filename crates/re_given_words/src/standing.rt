//! Sets of labels at the ports of a node.
use re_labels::LabelSet;

/// A set of labels that stands at a port of an active node. Ports count from 0.
#[derive(Clone, Copy)]
pub struct Standing {
    pub port: u8,
    pub set: LabelSet,
}
