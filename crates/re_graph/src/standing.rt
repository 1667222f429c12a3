//! Where ends stand, and the tests that make a graph.
ghost use Rattle.re_cover.specs.Graphs.{place_among, same_end, standing_from};
ghost use Rattle.re_graph.specs.Building.{are_ends, ends_once, is_end_of, nodes_once, nodes_stand, ports_stand, stands};
ghost use Rattle.std.specs.List.{list_all, list_any};
ghost use Rattle.std.specs.Prelude.{◌≡◌, ◌≤◌, ◌+◌, length};

use crate::graph::PassiveEnds;
use re_cover::GraphEnd;

// Whether the two ends are equal.
fn same_end(here: GraphEnd, other: GraphEnd) -> bool
    ensures { result ≡ same_end here other }
{
    here.node == other.node && here.port == other.port
}

/// Whether the end is among these.
pub fn has_end(ends: &[GraphEnd], here: GraphEnd) -> bool
    ensures { result ≡ list_any (λ other. same_end other here) ends.now }
{
    let [other, others @ ..] = ends else {
        return false;
    };
    if same_end(*other, here) {
        return true;
    }
    has_end(others, here)
}

// The place of the first end among these that is equal.
fn place_among(ends: &[GraphEnd], here: GraphEnd) -> u8
    requires few { length ends.now ≤ 6 }
    ensures place { result ≡ place_among ends.now here }
    ensures within { result ≤ length ends.now }
{
    let [other, others @ ..] = ends else {
        return 0;
    };
    if same_end(*other, here) {
        return 0;
    }
    place_among(others, here) + 1
}

// The port of the first passive node at which the end stands, where passive nodes count on from this number.
fn standing_from(number: u8, passive: &[PassiveEnds], here: GraphEnd) -> GraphEnd
    requires few { number + length passive.now ≤ 255 }
    ensures { result ≡ standing_from number passive.now here }
{
    let [ends, others @ ..] = passive else {
        return GraphEnd { node: 0, port: 0 };
    };
    if has_end(ends.ends(), here) {
        return GraphEnd {
            node: number,
            port: place_among(ends.ends(), here) + 1,
        };
    }
    standing_from(number + 1, others, here)
}

/// Whether the end is one of some passive node.
pub fn stands(passive: &[PassiveEnds], here: GraphEnd) -> bool
    ensures { result ≡ stands passive.now here }
{
    let [ends, others @ ..] = passive else {
        return false;
    };
    if has_end(ends.ends(), here) {
        return true;
    }
    stands(others, here)
}

// Whether the first ports of a node stand somewhere.
fn ports_stand(passive: &[PassiveEnds], node: u8, ports: u8) -> bool
    ensures { result ≡ ports_stand passive.now node ports }
{
    if ports == 0 {
        return true;
    }
    if !stands(passive, GraphEnd { node, port: ports }) {
        return false;
    }
    ports_stand(passive, node, ports - 1)
}

/// Whether all ports of the first nodes stand somewhere.
pub(crate) fn nodes_stand(passive: &[PassiveEnds], degree: u8, nodes: u8) -> bool
    ensures { result ≡ nodes_stand passive.now degree nodes }
{
    if nodes == 0 {
        return true;
    }
    if !ports_stand(passive, nodes - 1, degree) {
        return false;
    }
    nodes_stand(passive, degree, nodes - 1)
}

// Whether the ends from this port of the node on stand nowhere before it.
fn ends_once(passive: &[PassiveEnds], node: u8, port: u8, ends: &[GraphEnd]) -> bool
    requires few { length passive.now ≤ 255 }
    requires ports { port + length ends.now ≤ 255 }
    ensures { result ≡ ends_once passive.now node port ends.now }
{
    let [here, others @ ..] = ends else {
        return true;
    };
    if !same_end(standing_from(0, passive, *here), GraphEnd { node, port }) {
        return false;
    }
    ends_once(passive, node, port + 1, others)
}

/// The same of the ends of the nodes from this one on.
pub(crate) fn nodes_once(passive: &[PassiveEnds], node: u8, nodes: &[PassiveEnds]) -> bool
    requires few { length passive.now ≤ 255 }
    requires nodes { node + length nodes.now ≤ 255 }
    ensures { result ≡ nodes_once passive.now node nodes.now }
{
    let [ends, others @ ..] = nodes else {
        return true;
    };
    if !ends_once(passive, node, 1, ends.ends()) {
        return false;
    }
    nodes_once(passive, node + 1, others)
}

// Whether the end is one of so many nodes of this degree.
fn is_end_of(nodes: u8, degree: u8, here: GraphEnd) -> bool
    ensures { result ≡ is_end_of nodes degree here }
{
    here.node < nodes && 1 <= here.port && here.port <= degree
}

// Whether all these ends are.
fn are_ends_of(nodes: u8, degree: u8, ends: &[GraphEnd]) -> bool
    ensures { result ≡ list_all (is_end_of nodes degree) ends.now }
{
    let [here, others @ ..] = ends else {
        return true;
    };
    if !is_end_of(nodes, degree, *here) {
        return false;
    }
    are_ends_of(nodes, degree, others)
}

/// Whether each of these passive nodes has so many ends, all of active nodes.
pub(crate) fn all_ends(nodes: u8, degree: u8, passive_degree: u8, passive: &[PassiveEnds]) -> bool
    ensures { result ≡ list_all (are_ends nodes degree passive_degree) passive.now }
{
    let [ends, others @ ..] = passive else {
        return true;
    };
    if ends.ends().len() != passive_degree as usize {
        return false;
    }
    if !are_ends_of(nodes, degree, ends.ends()) {
        return false;
    }
    all_ends(nodes, degree, passive_degree, others)
}
