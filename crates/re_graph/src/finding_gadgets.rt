//! The search for a graph without a solution among those that gadgets make.
ghost use Rattle.re_given.specs.Given.{SolvableGiven};
ghost use Rattle.re_given.specs.Inputs.{IsInput};
ghost use Rattle.re_graph.specs.Solving.{AreSolution, IsCover};
ghost use Rattle.re_laws.specs.Algorithms.{Solvable};
ghost use Rattle.re_problem.specs.NamedProblems.{unnamed};
ghost use Rattle.std.specs.Prelude.{◌≡◌, ◌≤◌, IfOk, IfSome, ℕ};

use crate::gadgets::{Allowed, Gadget, Made};
use crate::relations::loops;
use crate::searching::{MAX_MADE, Search};
use crate::writing::graph_made;
use crate::{Cover, Found, FoundCover, cover_of};
use re_cover::no_solution_given_law;
use re_labels::{LabelSet, NoMemory, Side};
use re_problem::Problem;
use std::alloc::Global;

/// How many tries are made on each graph.
pub const MAX_TRIES: u32 = 500_000;

/// How many graphs are looked at.
pub const MAX_GRAPHS: u32 = 4;

// The labels that stand where the ends of the strand are joined, where they can be.
fn labels_of_ring(gadget: &Gadget) -> Option<LabelSet> {
    match &gadget.allowed {
        Allowed::Strand(Side::Active, Side::Passive, rows, _) => Some(loops(rows.as_slice())),
        _ => None,
    }
}

// The side and the labels of a tail.
fn tail_of(gadget: &Gadget) -> Option<(Side, LabelSet)> {
    match &gadget.allowed {
        Allowed::Tail(side, set) => Some((*side, *set)),
        _ => None,
    }
}

// Whether the labels that stand somewhere show a graph: none of the problem's own ones, and some others, if there is an input problem.
fn are_wanted(own: LabelSet, is_given: bool, labels: LabelSet) -> bool {
    labels.meet(own).is_empty() && (!is_given || !labels.is_empty())
}

impl Search {
    // Notes the graphs of the tail and each kept one that are wanted, by the labels where they meet.
    fn meet_all(&mut self, place: usize) -> Result<(), NoMemory> {
        let (own, is_given) = (self.own, self.is_given);
        let gadgets = self.gadgets.as_slice();
        let Some(gadget) = gadgets.get(place) else {
            return Ok(());
        };
        let Some((side, set)) = tail_of(gadget) else {
            return Ok(());
        };
        for other in self.kept.as_slice() {
            let Some(second) = gadgets.get(*other) else {
                continue;
            };
            if let Some((across, all)) = tail_of(second) {
                if across != side && are_wanted(own, is_given, set.meet(all)) {
                    let nodes = gadget.nodes.saturating_add(second.nodes);
                    self.graphs.push((nodes, Made::Met(place, *other)))?;
                }
            }
        }
        Ok(())
    }

    // Keeps the gadget, where it has so many active nodes and isn't needless, and joins it to all that are kept. The answer is the graph of a strand
    // that is wanted, by the labels where its ends meet.
    fn visit(&mut self, place: usize, nodes: u8) -> Result<Option<Made>, NoMemory> {
        let Some(gadget) = self.gadgets.as_slice().get(place) else {
            return Ok(None);
        };
        if gadget.nodes != nodes || self.is_needless(&gadget.allowed) {
            return Ok(None);
        }
        if let Some(labels) = labels_of_ring(gadget) {
            if are_wanted(self.own, self.is_given, labels) {
                return Ok(Some(Made::Ring(place)));
            }
        }
        self.kept.push(place)?;
        self.meet_all(place)?;
        self.pair_all(place)?;
        self.parallel_all(place)?;
        Ok(None)
    }
}

// How far a search goes: how many active nodes a graph has, how many tries are made on each, and how many steps before.
#[derive(Clone, Copy)]
struct Bounds {
    most: u8,
    tries: u32,
    steps: usize,
}

// The graph, where it has no more nodes, the problem has no solution on it, and the input problem, if any, has one.
fn cover_made(
    alloc: Global,
    problem: &Problem,
    input: Option<&Problem>,
    gadgets: &[Gadget],
    made: Made,
    bounds: Bounds,
) -> Result<Option<Cover>, NoMemory>
    requires { IfSome input (λ input. IsInput (unnamed problem.now) (unnamed input.now)) }
    ensures cover { IfOk result (λ cover. IfSome cover (λ cover. IsCover (unnamed problem.now) cover.graph)) }
    ensures given { IfOk result (λ cover. IfSome cover (λ cover. IfSome input.entry (λ input. AreSolution (unnamed input.now) cover.graph cover.labels.items))) }
    ensures few { IfOk result (λ cover. IfSome cover (λ cover. cover.graph.nodes ≤ bounds.most)) }
{
    let degrees = problem.degrees();
    let Some(graph) = graph_made(alloc, degrees, gadgets, made)? else {
        return Ok(None);
    };
    if graph.nodes() > bounds.most {
        return Ok(None);
    }
    cover_of(alloc, problem, input, graph, bounds.tries)
}

// The same, unless enough graphs were looked at; it is counted.
fn looked_at(
    alloc: Global,
    problem: &Problem,
    input: Option<&Problem>,
    gadgets: &[Gadget],
    made: Made,
    bounds: Bounds,
    graphs: &mut u32,
) -> Result<Option<Cover>, NoMemory>
    requires { IfSome input (λ input. IsInput (unnamed problem.now) (unnamed input.now)) }
    ensures cover { IfOk result (λ cover. IfSome cover (λ cover. IsCover (unnamed problem.now) cover.graph)) }
    ensures given { IfOk result (λ cover. IfSome cover (λ cover. IfSome input.entry (λ input. AreSolution (unnamed input.now) cover.graph cover.labels.items))) }
    ensures few { IfOk result (λ cover. IfSome cover (λ cover. cover.graph.nodes ≤ bounds.most)) }
{
    if *graphs >= MAX_GRAPHS {
        return Ok(None);
    }
    *graphs += 1;
    cover_made(alloc, problem, input, gadgets, made, bounds)
}

// The first graph of so many active nodes that two tails make.
fn find_met(
    alloc: Global,
    problem: &Problem,
    input: Option<&Problem>,
    search: &Search,
    nodes: u8,
    bounds: Bounds,
    graphs: &mut u32,
) -> Result<Option<Cover>, NoMemory>
    requires { IfSome input (λ input. IsInput (unnamed problem.now) (unnamed input.now)) }
    ensures cover { IfOk result (λ cover. IfSome cover (λ cover. IsCover (unnamed problem.now) cover.graph)) }
    ensures given { IfOk result (λ cover. IfSome cover (λ cover. IfSome input.entry (λ input. AreSolution (unnamed input.now) cover.graph cover.labels.items))) }
    ensures few { IfOk result (λ cover. IfSome cover (λ cover. cover.graph.nodes ≤ bounds.most)) }
{
    for (count, made) in search.graphs.as_slice() {
        if *count == nodes {
            let gadgets = search.gadgets.as_slice();
            let found = looked_at(alloc, problem, input, gadgets, *made, bounds, graphs)?;
            if found.is_some() {
                return Ok(found);
            }
        }
    }
    Ok(None)
}

// The first graph of so many active nodes that a strand makes; all gadgets with so many are visited.
fn find_ring(
    alloc: Global,
    problem: &Problem,
    input: Option<&Problem>,
    search: &mut Search,
    nodes: u8,
    bounds: Bounds,
    graphs: &mut u32,
) -> Result<Option<Cover>, NoMemory>
    requires { IfSome input (λ input. IsInput (unnamed problem.now) (unnamed input.now)) }
    ensures cover { IfOk result (λ cover. IfSome cover (λ cover. IsCover (unnamed problem.now) cover.graph)) }
    ensures given { IfOk result (λ cover. IfSome cover (λ cover. IfSome input.entry (λ input. AreSolution (unnamed input.now) cover.graph cover.labels.items))) }
    ensures few { IfOk result (λ cover. IfSome cover (λ cover. cover.graph.nodes ≤ bounds.most)) }
{
    for place in 0..MAX_MADE {
        if search.is_spent() || place >= search.gadgets.len() {
            break;
        }
        if let Some(made) = search.visit(place, nodes)? {
            let gadgets = search.gadgets.as_slice();
            let found = looked_at(alloc, problem, input, gadgets, made, bounds, graphs)?;
            if found.is_some() {
                return Ok(found);
            }
        }
    }
    Ok(None)
}

// The first graph within these bounds; active nodes are counted up.
fn find_any(
    alloc: Global,
    problem: &Problem,
    input: Option<&Problem>,
    bounds: Bounds,
    graphs: &mut u32,
) -> Result<Option<Cover>, NoMemory>
    requires few { bounds.most ≤ 64 }
    requires input { IfSome input (λ input. IsInput (unnamed problem.now) (unnamed input.now)) }
    ensures cover { IfOk result (λ cover. IfSome cover (λ cover. IsCover (unnamed problem.now) cover.graph)) }
    ensures given { IfOk result (λ cover. IfSome cover (λ cover. IfSome input.entry (λ input. AreSolution (unnamed input.now) cover.graph cover.labels.items))) }
    ensures few { IfOk result (λ cover. IfSome cover (λ cover. cover.graph.nodes ≤ bounds.most)) }
{
    let mut search = Search::new(alloc, problem, input, bounds.steps)?;
    for nodes in 0..bounds.most + 1 {
        let found = find_met(alloc, problem, input, &search, nodes, bounds, graphs)?;
        if found.is_some() {
            return Ok(found);
        }
        let found = find_ring(alloc, problem, input, &mut search, nodes, bounds, graphs)?;
        if found.is_some() {
            return Ok(found);
        }
    }
    Ok(None)
}

// The bounds with so many nodes and steps.
fn bounds_with(most: u8, steps: usize) -> Bounds
    ensures { result.most ≡ most }
{
    Bounds {
        most,
        tries: steps.min(MAX_TRIES as usize) as u32,
        steps,
    }
}

// The first graph, without an input problem.
fn find_alone(alloc: Global, problem: &Problem, bounds: Bounds) -> Result<Found, NoMemory>
    requires { bounds.most ≤ 64 }
    ensures cover { IfOk result (λ found. IfSome found.graph (IsCover (unnamed problem.now))) }
    ensures few { IfOk result (λ found. IfSome found.graph (λ graph. graph.nodes ≤ bounds.most)) }
{
    let mut graphs = 0;
    match find_any(alloc, problem, None, bounds, &mut graphs)? {
        Some(cover) => Ok(Found {
            graph: Some(cover.graph),
            graphs,
        }),
        None => Ok(Found {
            graph: None,
            graphs,
        }),
    }
}

// The first graph, given an input problem.
fn find_given(
    alloc: Global,
    problem: &Problem,
    input: &Problem,
    bounds: Bounds,
) -> Result<FoundCover, NoMemory>
    requires few { bounds.most ≤ 64 }
    requires input { IsInput (unnamed problem.now) (unnamed input.now) }
    ensures cover { IfOk result (λ found. IfSome found.cover (λ cover. IsCover (unnamed problem.now) cover.graph)) }
    ensures given { IfOk result (λ found. IfSome found.cover (λ cover. AreSolution (unnamed input.now) cover.graph cover.labels.items)) }
    ensures few { IfOk result (λ found. IfSome found.cover (λ cover. cover.graph.nodes ≤ bounds.most)) }
{
    let mut graphs = 0;
    let cover = find_any(alloc, problem, Some(input), bounds, &mut graphs)?;
    Ok(FoundCover { cover, graphs })
}

/// A graph of at most so many active nodes, made of gadgets, on which the problem has no solution, so that no number of rounds solves it.
///
/// A gadget is a part of a graph with free ends, and allows some labels there. The search begins with a node of each side, and joins each gadget to
/// each one that it has kept: two with two free ends or fewer in series, a node with more to one with one end, or with two by both; and two such
/// nodes with three ends by two gadgets in parallel. Those with fewer active nodes come first, and of one number of nodes those that were made first.
/// One that allows all that a kept one does is left out. So each series-parallel graph is looked at where nodes have degree 3 at most, or one that
/// takes its place, as far as `MAX_KEPT`, `MAX_MADE` and so many steps lead; what comes before a graph doesn't depend on `most`, nor on `steps`. As many
/// tries as steps, and `MAX_TRIES` at most, are made on each of the first `MAX_GRAPHS` graphs that allow no labels. Where none is found, nothing is known.
pub fn find_gadgets(
    alloc: Global,
    problem: &Problem,
    most: u8,
    steps: usize,
) -> Result<Found, NoMemory>
    requires { most ≤ 64 }
    ensures found { IfOk result (λ found. IfSome found.graph (IsCover (unnamed problem.now))) }
    ensures few { IfOk result (λ found. IfSome found.graph (λ graph. graph.nodes ≤ most)) }
    ensures means { IfOk result (λ found. IfSome found.graph (λ _. (T : ℕ) → Solvable (unnamed problem.now) T → ⊥)) }
{
    find_alone(alloc, problem, bounds_with(most, steps))
}

/// A graph of at most so many active nodes, made of gadgets, on which the problem has no solution and the input problem has one, so that no number of
/// rounds solves the problem given the input problem.
///
/// It goes as `find_gadgets`, where a gadget allows labels of the problem, or else of the input problem. One that allows all that a kept one does of
/// the problem, and no more of the input problem, is left out, and so is one that allows none of the input problem. It makes no step where both
/// problems have more than 128 labels. Where no graph is found, nothing is known.
pub fn find_gadgets_given(
    alloc: Global,
    problem: &Problem,
    input: &Problem,
    most: u8,
    steps: usize,
) -> Result<FoundCover, NoMemory>
    requires few { most ≤ 64 }
    requires input { IsInput (unnamed problem.now) (unnamed input.now) }
    ensures found { IfOk result (λ found. IfSome found.cover (λ cover. IsCover (unnamed problem.now) cover.graph)) }
    ensures given { IfOk result (λ found. IfSome found.cover (λ cover. AreSolution (unnamed input.now) cover.graph cover.labels.items)) }
    ensures few { IfOk result (λ found. IfSome found.cover (λ cover. cover.graph.nodes ≤ most)) }
    ensures means { IfOk result (λ found. IfSome found.cover (λ _. (T : ℕ) → SolvableGiven (unnamed problem.now) (unnamed input.now) T → ⊥)) }
{
    no_solution_given_law();
    find_given(alloc, problem, input, bounds_with(most, steps))
}
