//! Whether two graphs, and labels at their nodes, are the same.
ghost use Rattle.std.specs.Prelude.{◌≡◌, IsTrue};

use re_cover::GraphEnd;
use re_graph::{Graph, PassiveEnds};
use re_labels::PortLabels;

// Whether the two ends are the same.
fn is_same_end(here: &GraphEnd, other: &GraphEnd) -> bool
    ensures { IsTrue result → here.now ≡ other.now }
{
    here.node == other.node && here.port == other.port
}

// Whether the ends are the same.
fn are_same_ends(ends: &[GraphEnd], others: &[GraphEnd]) -> bool
    ensures { IsTrue result → ends.now ≡ others.now }
{
    let [here, rest @ ..] = ends else {
        return others.is_empty();
    };
    let [other, more @ ..] = others else {
        return false;
    };
    is_same_end(here, other) && are_same_ends(rest, more)
}

// Whether the passive nodes have the same ends.
fn are_same_nodes(passive: &[PassiveEnds], others: &[PassiveEnds]) -> bool
    ensures { IsTrue result → passive.now ≡ others.now }
{
    let [node, rest @ ..] = passive else {
        return others.is_empty();
    };
    let [other, more @ ..] = others else {
        return false;
    };
    are_same_ends(node.ends(), other.ends()) && are_same_nodes(rest, more)
}

/// Whether the graphs are the same.
pub(crate) fn are_same_graphs(graph: &Graph, other: &Graph) -> bool
    ensures { IsTrue result → graph.now ≡ other.now }
{
    let degrees = graph.degrees();
    let others = other.degrees();
    if degrees.active != others.active || degrees.passive != others.passive {
        return false;
    }
    if graph.nodes() != other.nodes() {
        return false;
    }
    are_same_nodes(graph.passive(), other.passive())
}

// Whether a node has the same labels.
fn has_same_labels(own: &[u8], other: &[u8]) -> bool
    ensures { IsTrue result → own.now ≡ other.now }
{
    own == other
}

/// Whether the nodes have the same labels.
pub(crate) fn are_same_labels(labels: &[PortLabels], others: &[PortLabels]) -> bool
    ensures { IsTrue result → labels.now ≡ others.now }
{
    let [own, rest @ ..] = labels else {
        return others.is_empty();
    };
    let [other, more @ ..] = others else {
        return false;
    };
    has_same_labels(own.labels(), other.labels()) && are_same_labels(rest, more)
}
