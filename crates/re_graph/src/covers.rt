//! Graphs that show that no number of rounds solves a problem, alone or given an input problem.
ghost use Rattle.re_given.specs.Inputs.{IsInput};
ghost use Rattle.re_graph.specs.Solving.{AreSolution, IsCover};
ghost use Rattle.re_problem.specs.NamedProblems.{unnamed};
ghost use Rattle.std.specs.Prelude.{◌≡◌, IfOk, IfSome, IsTrue};

use crate::graph::Graph;
use crate::solving::{SolveFault, solve};
use re_labels::NoMemory;
use re_problem::Problem;
use std::alloc::Global;

/// A graph on which a problem has no solution, with a solution of the input problem on it, where one is given.
#[derive(Drop)]
pub struct Cover {
    /// The graph.
    pub graph: Graph,
    /// The labels of the solution of the input problem, node by node and port by port; none where no input problem is given.
    pub labels: Vec<u8>,
}

// The first solution of the input problem on the graph, where the tries lead to one.
fn solution_on(
    alloc: Global,
    input: &Problem,
    graph: &Graph,
    tries: u32,
) -> Result<Option<Vec<u8>>, NoMemory>
    requires active { graph.now.active_degree ≡ input.now.active.degree }
    requires passive { graph.now.passive_degree ≡ input.now.passive.degree }
    ensures { IfOk result (λ labels. IfSome labels (λ labels. AreSolution (unnamed input.now) graph.now labels.items)) }
{
    match solve(alloc, input, graph, tries) {
        Ok(Some(labels)) => Ok(Some(labels)),
        Ok(None) => Ok(None),
        Err(SolveFault::TooManyTries) => Ok(None),
        Err(SolveFault::NoMemory) => Err(NoMemory),
    }
}

// The same where an input problem is given, and else no labels.
fn labels_on(
    alloc: Global,
    problem: &Problem,
    input: Option<&Problem>,
    graph: &Graph,
    tries: u32,
) -> Result<Option<Vec<u8>>, NoMemory>
    requires active { graph.now.active_degree ≡ problem.now.active.degree }
    requires passive { graph.now.passive_degree ≡ problem.now.passive.degree }
    requires input { IfSome input (λ input. IsInput (unnamed problem.now) (unnamed input.now)) }
    ensures { IfOk result (λ labels. IfSome labels (λ labels. IfSome input.entry (λ input. AreSolution (unnamed input.now) graph.now labels.items))) }
{
    match input {
        Some(input) => solution_on(alloc, input, graph, tries),
        None => Ok(Some(Vec::new(alloc))),
    }
}

// Whether the tries show that the problem has no solution on the graph.
fn has_none(alloc: Global, problem: &Problem, graph: &Graph, tries: u32) -> Result<bool, NoMemory>
    requires active { graph.now.active_degree ≡ problem.now.active.degree }
    requires passive { graph.now.passive_degree ≡ problem.now.passive.degree }
    ensures { IfOk result (λ none. IsTrue none → IsCover (unnamed problem.now) graph.now) }
{
    let _graph = graph.passive();
    match solve(alloc, problem, graph, tries) {
        Ok(None) => Ok(true),
        Ok(Some(_)) => Ok(false),
        Err(SolveFault::TooManyTries) => Ok(false),
        Err(SolveFault::NoMemory) => Err(NoMemory),
    }
}

/// The graph, where the problem has no solution on it and the input problem, if any, has one, which stands beside it then. So many tries are made for
/// each; where they don't suffice, nothing is known, and none is given.
pub fn cover_of(
    alloc: Global,
    problem: &Problem,
    input: Option<&Problem>,
    graph: Graph,
    tries: u32,
) -> Result<Option<Cover>, NoMemory>
    requires active { graph.active_degree ≡ problem.now.active.degree }
    requires passive { graph.passive_degree ≡ problem.now.passive.degree }
    requires input { IfSome input (λ input. IsInput (unnamed problem.now) (unnamed input.now)) }
    ensures cover { IfOk result (λ cover. IfSome cover (λ cover. IsCover (unnamed problem.now) cover.graph)) }
    ensures given { IfOk result (λ cover. IfSome cover (λ cover. IfSome input.entry (λ input. AreSolution (unnamed input.now) cover.graph cover.labels.items))) }
    ensures same { IfOk result (λ cover. IfSome cover (λ cover. cover.graph ≡ graph)) }
{
    let Some(labels) = labels_on(alloc, problem, input, &graph, tries)? else {
        return Ok(None);
    };
    if has_none(alloc, problem, &graph, tries)? {
        Ok(Some(Cover { graph, labels }))
    } else {
        Ok(None)
    }
}
