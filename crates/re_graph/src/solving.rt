//! The search for a solution on a graph.
ghost use Rattle.re_graph.specs.Solving.{IsAnswer, passes_on, solution_walk};
ghost use Rattle.re_laws.specs.Algorithms.{Solvable};
ghost use Rattle.re_problem.specs.NamedProblems.{unnamed};
ghost use Rattle.re_walks.specs.Walking.{cut, found, nowhere};
ghost use Rattle.std.specs.List.{AllByRecursion};
ghost use Rattle.std.specs.Prelude.{◌≡◌, ◌<◌, ◌*◌, Err, IfOk, IfNone, IfSome, MatchOption, ℕ, option_map, length};

use crate::graph::Graph;
use crate::passing::passes_on;
use re_labels::{MAX_LABELS, NoMemory};
use re_problem::Problem;
use re_walks::follow;
use std::alloc::Global;

/// Why it isn't known whether there is a solution.
#[derive(Clone, Copy, Debug, PartialEq, Eq)]
pub enum SolveFault {
    /// The walk doesn't come to an end with so many tries.
    TooManyTries,
    /// There was no memory.
    NoMemory,
}

impl From<NoMemory> for SolveFault {
    ghost use Rattle.re_graph.specs.declared.solving.SolveFault.TheVariants.{NoMemory as no_memory};

    ghost from_gives = { λ _ e. e ≡ no_memory };

    fn from(_: NoMemory) -> Self {
        SolveFault::NoMemory
    }
}

// The first labels of all ends that pass.
fn first_labels(
    alloc: Global,
    problem: &Problem,
    graph: &Graph,
    tries: u32,
) -> Result<Option<Vec<u8>>, SolveFault>
    requires active { graph.now.active_degree ≡ problem.now.active.degree }
    requires passive { graph.now.passive_degree ≡ problem.now.passive.degree }
    ensures walked { IfOk result (λ labels. MatchOption labels (solution_walk (unnamed problem.now) graph.now tries ≡ nowhere) (λ labels. solution_walk (unnamed problem.now) graph.now tries ≡ found labels.items)) }
    ensures low { IfOk result (λ labels. IfSome labels (λ labels. AllByRecursion (λ label. label < length problem.now.names) labels.items)) }
    ensures count { IfOk result (λ labels. IfSome labels (λ labels. length labels.items ≡ graph.now.nodes * problem.now.active.degree)) }
    ensures cut { result ≡ Err SolveFault.TooManyTries → solution_walk (unnamed problem.now) graph.now tries ≡ cut }
{
    let n = problem.names().len() as u8;
    let places = graph.nodes() as usize * problem.active().degree() as usize;
    let mut labels = Vec::new(alloc);
    for _try in 0..tries {
        let passes = passes_on(problem, graph, labels.as_slice());
        if passes && labels.len() == places {
            return Ok(Some(labels));
        }
        if !follow(&mut labels, n, passes)? {
            return Ok(None);
        }
    }
    Err(SolveFault::TooManyTries)
}

/// The first solution of the problem on the graph, in the lexicographic order of its labels, node by node and port by port, written one behind the
/// other. None exactly where there is no solution, and then no number of rounds solves the problem.
///
/// A walk gives a label to one end after the other, and goes back as soon as the labels of some node are no configuration, or begin none. Each list
/// of labels that is tested is a try, and goes over all nodes. `TooManyTries` comes exactly where the walk needs more than `tries`.
pub fn solve(
    alloc: Global,
    problem: &Problem,
    graph: &Graph,
    tries: u32,
) -> Result<Option<Vec<u8>>, SolveFault>
    requires active { graph.now.active_degree ≡ problem.now.active.degree }
    requires passive { graph.now.passive_degree ≡ problem.now.passive.degree }
    ensures walked { IfOk result (λ labels. MatchOption labels (solution_walk (unnamed problem.now) graph.now tries ≡ nowhere) (λ labels. solution_walk (unnamed problem.now) graph.now tries ≡ found labels.items)) }
    ensures answer { IfOk result (λ labels. MatchOption labels (IsAnswer (unnamed problem.now) graph.now None) (λ labels. IsAnswer (unnamed problem.now) graph.now (Some labels.items))) }
    ensures means { IfOk result (λ labels. IfNone labels ((T : ℕ) → Solvable (unnamed problem.now) T → ⊥)) }
    ensures low { IfOk result (λ labels. IfSome labels (λ labels. AllByRecursion (λ label. label < length problem.now.names) labels.items)) }
    ensures count { IfOk result (λ labels. IfSome labels (λ labels. length labels.items ≡ graph.now.nodes * problem.now.active.degree)) }
    ensures tries { result ≡ Err SolveFault.TooManyTries → solution_walk (unnamed problem.now) graph.now tries ≡ cut }
{
    let _problem = problem.names();
    let _graph = graph.passive();
    first_labels(alloc, problem, graph, tries)
}
