//! The search for a graph without a solution.
ghost use Rattle.re_given.specs.Given.{SolvableGiven};
ghost use Rattle.re_given.specs.Inputs.{IsInput};
ghost use Rattle.re_graph.specs.Solving.{AreSolution, IsCover};
ghost use Rattle.re_laws.specs.Algorithms.{Solvable};
ghost use Rattle.re_problem.specs.NamedProblems.{unnamed};
ghost use Rattle.std.specs.Prelude.{◌≡◌, ◌≤◌, ◌+◌, IfOk, IfSome, ℕ, length};

use crate::covers::{Cover, cover_of};
use crate::graph::{Graph, PassiveEnds};
use arrayvec::ArrayVec;
use re_cover::{GraphEnd, no_solution_given_law};
use re_labels::{Degrees, NoMemory};
use re_problem::Problem;
use re_walks::follow;
use std::alloc::Global;

/// How many lists of nodes are looked at for each number of nodes.
pub const MAX_LISTS: u32 = 1_000_000;

/// How many tries are made on each graph.
pub const MAX_TRIES: u32 = 100_000;

/// What a search came to: a graph, and how many graphs were looked at.
#[derive(Drop)]
pub struct Found {
    /// The graph, where one was found.
    pub graph: Option<Graph>,
    /// How many graphs were looked at.
    pub graphs: u32,
}

/// What a search given an input problem came to: a graph with a solution of the input problem, and how many graphs were looked at.
#[derive(Drop)]
pub struct FoundCover {
    /// The graph and the solution, where one was found.
    pub cover: Option<Cover>,
    /// How many graphs were looked at.
    pub graphs: u32,
}

// How often the node is in the list, where at most 255 are counted.
fn count_of(list: &[u8], node: u8) -> u8 {
    let mut count = 0u8;
    for other in list {
        if *other == node && count < u8::MAX {
            count += 1;
        }
    }
    count
}

// The number of nodes that the list has, where they come in order.
fn seen_in(list: &[u8]) -> u8 {
    let mut seen = 0u8;
    for node in list {
        if *node == seen && seen < u8::MAX {
            seen += 1;
        }
    }
    seen
}

// The first of so many nodes that is less often in the list than its degree.
fn first_free(list: &[u8], seen: u8, degree: u8) -> u8 {
    for node in 0..seen {
        if count_of(list, node) < degree {
            return node;
        }
    }
    seen
}

// Whether the first list isn't behind the second in lexicographic order, as far as they are long.
fn is_in_order(list: &[u8], other: &[u8]) -> bool {
    for (node, next) in list.iter().zip(other) {
        if *node != *next {
            return *node < *next;
        }
    }
    true
}

// Whether the last passive node comes behind the one before it.
fn goes_behind(list: &[u8], passive_degree: usize) -> bool {
    if passive_degree > list.len() {
        return true;
    }
    let from = list.len() - passive_degree;
    if passive_degree > from {
        return true;
    }
    is_in_order(&list[from - passive_degree..from], &list[from..])
}

// Whether the last node of the list may stand behind the others: the list has the nodes at the ends of one passive node after the other,
// and each connected graph comes so for some numbers of its nodes.
fn goes_on(list: &[u8], degrees: Degrees) -> bool
    requires { 2 ≤ degrees.passive }
{
    let [before @ .., node] = list else {
        return true;
    };
    let seen = seen_in(before);
    if *node > seen || count_of(before, *node) >= degrees.active {
        return false;
    }
    let [.., last] = before else {
        return true;
    };
    let degree = degrees.passive as usize;
    if before.len() % degree == 0 {
        return *node < seen && *node == first_free(before, seen, degrees.active);
    }
    if *node < *last {
        return false;
    }
    !list.len().is_multiple_of(degree) || goes_behind(list, degree)
}

// The ends at the passive node of this number, where each node gives its ports in order.
fn ends_at(list: &[u8], from: usize, to: usize) -> Option<PassiveEnds>
    requires from { from ≤ to }
    requires most { to ≤ from + 6 }
    requires within { to ≤ length list.now }
{
    let mut ends: ArrayVec<GraphEnd, 6> = ArrayVec::new();
    for place in from..to {
        let node = list[place];
        let port = count_of(&list[..place], node).saturating_add(1);
        if ends.len() < 6 {
            ends.push(GraphEnd { node, port });
        }
    }
    PassiveEnds::new(ends.as_slice())
}

// The graph of a list.
fn graph_for(
    alloc: Global,
    degrees: Degrees,
    nodes: u8,
    list: &[u8],
) -> Result<Option<Graph>, NoMemory>
    requires least { 2 ≤ degrees.passive }
    requires most { degrees.passive ≤ 6 }
    ensures degrees { IfOk result (λ graph. IfSome graph (λ graph. (graph.active_degree ≡ degrees.active) × (graph.passive_degree ≡ degrees.passive))) }
    ensures nodes { IfOk result (λ graph. IfSome graph (λ graph. graph.nodes ≡ nodes)) }
{
    let degree = degrees.passive as usize;
    let mut passive = Vec::new(alloc);
    for number in 0..list.len() / degree {
        let from = number * degree;
        if let Some(ends) = ends_at(list, from, from + degree) {
            passive.push(ends)?;
        }
    }
    Ok(Graph::build(degrees, nodes, passive))
}

// The graph of the list, where the problem has no solution on it, and the input problem, if any, has one.
fn cover_for(
    alloc: Global,
    problem: &Problem,
    input: Option<&Problem>,
    nodes: u8,
    list: &[u8],
) -> Result<Option<Cover>, NoMemory>
    requires { IfSome input (λ input. IsInput (unnamed problem.now) (unnamed input.now)) }
    ensures cover { IfOk result (λ cover. IfSome cover (λ cover. IsCover (unnamed problem.now) cover.graph)) }
    ensures given { IfOk result (λ cover. IfSome cover (λ cover. IfSome input.entry (λ input. AreSolution (unnamed input.now) cover.graph cover.labels.items))) }
    ensures nodes { IfOk result (λ cover. IfSome cover (λ cover. cover.graph.nodes ≡ nodes)) }
{
    let degrees = problem.degrees();
    let Some(graph) = graph_for(alloc, degrees, nodes, list)? else {
        return Ok(None);
    };
    cover_of(alloc, problem, input, graph, MAX_TRIES)
}

// The first graph with so many active nodes.
fn find_with(
    alloc: Global,
    problem: &Problem,
    input: Option<&Problem>,
    nodes: u8,
    before: u32,
) -> Result<FoundCover, NoMemory>
    requires few { nodes ≤ 8 }
    requires input { IfSome input (λ input. IsInput (unnamed problem.now) (unnamed input.now)) }
    ensures cover { IfOk result (λ found. IfSome found.cover (λ cover. IsCover (unnamed problem.now) cover.graph)) }
    ensures given { IfOk result (λ found. IfSome found.cover (λ cover. IfSome input.entry (λ input. AreSolution (unnamed input.now) cover.graph cover.labels.items))) }
    ensures nodes { IfOk result (λ found. IfSome found.cover (λ cover. cover.graph.nodes ≡ nodes)) }
{
    let degrees = problem.degrees();
    let places = nodes as usize * degrees.active as usize;
    let mut graphs = before;
    let mut list = Vec::new(alloc);
    for _list in 0..MAX_LISTS {
        let mut passes = goes_on(list.as_slice(), degrees);
        if passes && list.len() >= places {
            graphs = graphs.saturating_add(1);
            let cover = cover_for(alloc, problem, input, nodes, list.as_slice())?;
            if cover.is_some() {
                return Ok(FoundCover { cover, graphs });
            }
            passes = false;
        }
        if !follow(&mut list, nodes, passes)? {
            return Ok(FoundCover {
                cover: None,
                graphs,
            });
        }
    }
    Ok(FoundCover {
        cover: None,
        graphs,
    })
}

// The first graph of at most so many active nodes.
fn find_any(
    alloc: Global,
    problem: &Problem,
    input: Option<&Problem>,
    most: u8,
) -> Result<FoundCover, NoMemory>
    requires few { most ≤ 8 }
    requires input { IfSome input (λ input. IsInput (unnamed problem.now) (unnamed input.now)) }
    ensures cover { IfOk result (λ found. IfSome found.cover (λ cover. IsCover (unnamed problem.now) cover.graph)) }
    ensures given { IfOk result (λ found. IfSome found.cover (λ cover. IfSome input.entry (λ input. AreSolution (unnamed input.now) cover.graph cover.labels.items))) }
    ensures few { IfOk result (λ found. IfSome found.cover (λ cover. cover.graph.nodes ≤ most)) }
{
    let degrees = problem.degrees();
    let mut graphs = 0;
    for nodes in 1..most + 1 {
        let places = nodes as usize * degrees.active as usize;
        if degrees.passive > 0 && places % degrees.passive as usize == 0 {
            let found = find_with(alloc, problem, input, nodes, graphs)?;
            if found.cover.is_some() {
                return Ok(found);
            }
            graphs = found.graphs;
        }
    }
    Ok(FoundCover {
        cover: None,
        graphs,
    })
}

// The same without an input problem.
fn find_alone(alloc: Global, problem: &Problem, most: u8) -> Result<Found, NoMemory>
    requires { most ≤ 8 }
    ensures cover { IfOk result (λ found. IfSome found.graph (IsCover (unnamed problem.now))) }
    ensures few { IfOk result (λ found. IfSome found.graph (λ graph. graph.nodes ≤ most)) }
{
    let FoundCover { cover, graphs } = find_any(alloc, problem, None, most)?;
    match cover {
        Some(cover) => Ok(Found {
            graph: Some(cover.graph),
            graphs,
        }),
        None => Ok(Found {
            graph: None,
            graphs,
        }),
    }
}

/// A graph of at most so many active nodes on which the problem has no solution, so that no number of rounds solves it. Graphs with fewer nodes come
/// first; with one number of nodes each connected graph comes, for some numbers of its nodes and one order of the ports, since these change no solution,
/// as far as `MAX_LISTS` lists lead. `MAX_TRIES` tries are made on each. Where none is found, nothing is known.
pub fn find_cover(alloc: Global, problem: &Problem, most: u8) -> Result<Found, NoMemory>
    requires { most ≤ 8 }
    ensures found { IfOk result (λ found. IfSome found.graph (IsCover (unnamed problem.now))) }
    ensures few { IfOk result (λ found. IfSome found.graph (λ graph. graph.nodes ≤ most)) }
    ensures means { IfOk result (λ found. IfSome found.graph (λ _. (T : ℕ) → Solvable (unnamed problem.now) T → ⊥)) }
{
    find_alone(alloc, problem, most)
}

/// A graph of at most so many active nodes on which the problem has no solution and the input problem has one, so that no number of rounds solves
/// the problem given the input problem. Graphs come as in `find_cover`; on each, `MAX_TRIES` tries are made for the first solution of the input
/// problem, and where there is one as many for one of the problem. Where no graph is found, nothing is known.
pub fn find_cover_given(
    alloc: Global,
    problem: &Problem,
    input: &Problem,
    most: u8,
) -> Result<FoundCover, NoMemory>
    requires few { most ≤ 8 }
    requires input { IsInput (unnamed problem.now) (unnamed input.now) }
    ensures found { IfOk result (λ found. IfSome found.cover (λ cover. IsCover (unnamed problem.now) cover.graph)) }
    ensures given { IfOk result (λ found. IfSome found.cover (λ cover. AreSolution (unnamed input.now) cover.graph cover.labels.items)) }
    ensures few { IfOk result (λ found. IfSome found.cover (λ cover. cover.graph.nodes ≤ most)) }
    ensures means { IfOk result (λ found. IfSome found.cover (λ _. (T : ℕ) → SolvableGiven (unnamed problem.now) (unnamed input.now) T → ⊥)) }
{
    no_solution_given_law();
    find_any(alloc, problem, Some(input), most)
}
