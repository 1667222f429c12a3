//! Whether labels of all nodes are a solution.
ghost use Rattle.re_cover.specs.Graphs.{IsSolution, label_at as label_there};
ghost use Rattle.re_graph.specs.Judging.{IsJudged, labels_fault as fault_of};
ghost use Rattle.re_problem.specs.NamedProblems.{unnamed};
ghost use Rattle.re_labels.specs.Constraints.{has_config as holds};
ghost use Rattle.std.specs.List.{position};
ghost use Rattle.std.specs.Prelude.{◌≡◌, ◌≤◌, ◌<◌, ◌==◌, IfSome, length, map, not, slice_index};

use crate::graph::{Graph, PassiveEnds};
use crate::passing::is_config;
use arrayvec::ArrayVec;
use re_choice::are_labels;
use re_cover::GraphEnd;
use re_labels::{Constraint, PortLabels};
use re_problem::Problem;

/// The first node whose labels show that they are no solution. Nodes count from 1.
#[derive(Clone, Copy, Debug, PartialEq, Eq)]
pub enum LabelsFault {
    /// The labels of this active node are no configuration.
    Active(usize),
    /// Those of all active nodes are, and the ones at the ends of this passive node aren't.
    Passive(usize),
}

// Whether there are as many labels as the degree.
fn has_count(constraint: &Constraint, labels: &[u8]) -> bool
    ensures { result ≡ (length labels.now == constraint.now.degree) }
{
    labels.len() == constraint.degree() as usize
}

// Whether the multiset of the labels is a configuration.
fn has_config(constraint: &Constraint, labels: &[u8]) -> bool
    ensures { result ≡ holds constraint.now labels.now }
{
    let _degree = constraint.degree();
    if !has_count(constraint, labels) {
        return false;
    }
    if !are_labels(labels) {
        return false;
    }
    is_config(constraint, labels)
}

// The label at this place, and 0 where there is none.
fn label_in(labels: &[u8], place: usize) -> u8
    ensures { result ≡ slice_index labels.now place }
{
    if place < labels.len() {
        labels[place]
    } else {
        0
    }
}

// The label at an end, where each node has these.
fn label_at(nodes: &[PortLabels], here: GraphEnd) -> u8
    ensures { result ≡ label_there nodes.now here }
{
    let node = here.node as usize;
    if node < nodes.len() {
        label_in(nodes[node].labels(), (here.port as usize).saturating_sub(1))
    } else {
        0
    }
}

// The labels at these ends.
fn labels_at(nodes: &[PortLabels], ends: &[GraphEnd]) -> ArrayVec<u8, 6>
    requires { length ends.now ≤ 6 }
    ensures { result.items ≡ map (label_there nodes.now) ends.now }
{
    let mut held = ArrayVec::new();
    for here in ends {
        held.push(label_at(nodes, *here));
    }
    held
}

// Whether the labels at the ends of a passive node are a configuration.
fn is_kept(passive: &Constraint, nodes: &[PortLabels], ends: &PassiveEnds) -> bool
    ensures { result ≡ holds passive.now (map (label_there nodes.now) ends.now) }
{
    let held = labels_at(nodes, ends.ends());
    has_config(passive, held.as_slice())
}

// The place of the first active node whose labels are no configuration.
fn first_active(active: &Constraint, nodes: &[PortLabels]) -> Option<usize>
    ensures place { result ≡ position (λ labels. not (holds active.now labels)) nodes.now }
    ensures within { IfSome result (λ place. place < length nodes.now) }
{
    nodes
        .iter()
        .position(|labels| !has_config(active, labels.labels()))
}

// The place of the first of these passive nodes at whose ends the labels are none.
fn first_passive(passive: &Constraint, nodes: &[PortLabels], ends: &[PassiveEnds]) -> Option<usize>
    ensures place { result ≡ position (λ ends. not (holds passive.now (map (label_there nodes.now) ends))) ends.now }
    ensures within { IfSome result (λ place. place < length ends.now) }
{
    ends.iter().position(|here| !is_kept(passive, nodes, here))
}

// The first fault of the labels.
fn first_fault(problem: &Problem, graph: &Graph, nodes: &[PortLabels]) -> Option<LabelsFault>
    ensures { result ≡ fault_of (unnamed problem.now) graph.now nodes.now }
{
    if let Some(node) = first_active(problem.active(), nodes) {
        return Some(LabelsFault::Active(node + 1));
    }
    match first_passive(problem.passive(), nodes, graph.passive()) {
        Some(node) => Some(LabelsFault::Passive(node + 1)),
        None => None,
    }
}

/// The first node whose labels show that these, for each active node in the order of its ports, are no solution on the graph. None exactly where they are
/// one. It takes no memory, and goes over all nodes once.
pub fn labels_fault(problem: &Problem, graph: &Graph, nodes: &[PortLabels]) -> Option<LabelsFault>
    requires { length nodes.now ≡ graph.now.nodes }
    ensures fault { result ≡ fault_of (unnamed problem.now) graph.now nodes.now }
    ensures judged { IsJudged (unnamed problem.now) graph.now nodes.now result }
{
    first_fault(problem, graph, nodes)
}
