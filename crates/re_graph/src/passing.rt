//! Whether labels of the first ends may begin a solution.
ghost use Rattle.re_graph.specs.Solving.{are_active, are_kept, have_labels, is_kept, labels_at, passes_on, place_of};
ghost use Rattle.re_problem.specs.NamedProblems.{unnamed};
ghost use Rattle.re_labels.specs.Constraints.{has_config};
ghost use Rattle.std.specs.List.{AllByRecursion};
ghost use Rattle.std.specs.Prelude.{◌≡◌, ◌<◌, ◌≤◌, length, true};

use crate::graph::{Graph, PassiveEnds};
use arrayvec::ArrayVec;
use re_cover::GraphEnd;
use re_labels::{Config, Constraint, MAX_LABELS};
use re_problem::Problem;
use re_walks::is_begun;

/// Whether these labels are a configuration.
pub(crate) fn is_config(constraint: &Constraint, labels: &[u8]) -> bool
    requires count { length labels.now ≡ constraint.now.degree }
    requires labels { AllByRecursion (λ label. label < MAX_LABELS) labels.now }
    ensures { result ≡ has_config constraint.now labels.now }
{
    let _degree = constraint.degree();
    constraint.contains(&Config::from_labels(labels))
}

// Whether the labels of the nodes that have all theirs are configurations, and those behind them begin one.
fn are_active(active: &Constraint, n: u8, nodes: u8, labels: &[u8]) -> bool
    requires n { n ≤ MAX_LABELS }
    requires labels { AllByRecursion (λ label. label < MAX_LABELS) labels.now }
    ensures { result ≡ are_active active.now n nodes labels.now }
{
    if nodes == 0 {
        return true;
    }
    let degree = active.degree() as usize;
    if labels.len() < degree {
        return is_begun(active, n, labels);
    }
    if !is_config(active, &labels[..degree]) {
        return false;
    }
    are_active(active, n, nodes - 1, &labels[degree..])
}

// The place of an end among the labels of all nodes.
fn place_of(degree: u8, here: GraphEnd) -> usize
    ensures { result ≡ place_of degree here }
{
    here.node as usize * degree as usize + (here.port as usize).saturating_sub(1)
}

// Whether all these ends have labels.
fn have_labels(degree: u8, count: usize, ends: &[GraphEnd]) -> bool
    ensures { result ≡ have_labels degree count ends.now }
{
    let [here, others @ ..] = ends else {
        return true;
    };
    if place_of(degree, *here) >= count {
        return false;
    }
    have_labels(degree, count, others)
}

// Their labels.
fn labels_at(degree: u8, labels: &[u8], ends: &[GraphEnd]) -> ArrayVec<u8, 6>
    requires few { length ends.now ≤ 6 }
    requires labels { AllByRecursion (λ label. label < MAX_LABELS) labels.now }
    requires held { have_labels degree (length labels.now) ends.now ≡ true }
    ensures labels { result.items ≡ labels_at degree labels.now ends.now }
    ensures below { AllByRecursion (λ label. label < MAX_LABELS) result.items }
{
    let mut held = ArrayVec::new();
    for here in ends {
        let place = place_of(degree, *here);
        if place < labels.len() {
            held.push(labels[place]);
        }
    }
    held
}

// Whether the labels at a passive node all of whose ends have labels are a configuration.
fn is_kept(passive: &Constraint, degree: u8, labels: &[u8], ends: &[GraphEnd]) -> bool
    requires count { length ends.now ≡ passive.now.degree }
    requires labels { AllByRecursion (λ label. label < MAX_LABELS) labels.now }
    ensures { result ≡ is_kept passive.now degree labels.now ends.now }
{
    let _degree = passive.degree();
    if !have_labels(degree, labels.len(), ends) {
        return true;
    }
    let held = labels_at(degree, labels, ends);
    is_config(passive, held.as_slice())
}

// The same of all passive nodes.
fn are_kept(passive: &Constraint, degree: u8, labels: &[u8], nodes: &[PassiveEnds]) -> bool
    requires count { AllByRecursion (λ ends. length ends ≡ passive.now.degree) nodes.now }
    requires labels { AllByRecursion (λ label. label < MAX_LABELS) labels.now }
    ensures { result ≡ are_kept passive.now degree labels.now nodes.now }
{
    let [ends, others @ ..] = nodes else {
        return true;
    };
    if !is_kept(passive, degree, labels, ends.ends()) {
        return false;
    }
    are_kept(passive, degree, labels, others)
}

/// Whether labels of the first ends may begin a solution: those of nodes that have all theirs are configurations, and so are those at passive nodes all of
/// whose ends have labels. It takes no memory, and goes over all nodes.
pub(crate) fn passes_on(problem: &Problem, graph: &Graph, labels: &[u8]) -> bool
    requires active { graph.now.active_degree ≡ problem.now.active.degree }
    requires passive { graph.now.passive_degree ≡ problem.now.passive.degree }
    requires labels { AllByRecursion (λ label. label < MAX_LABELS) labels.now }
    ensures { result ≡ passes_on (unnamed problem.now) graph.now labels.now }
{
    let n = problem.names().len() as u8;
    let degree = problem.active().degree();
    if !are_active(problem.active(), n, graph.nodes(), labels) {
        return false;
    }
    are_kept(problem.passive(), degree, labels, graph.passive())
}
