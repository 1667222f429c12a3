//! What `cover` answers.
ghost use Rattle.re_frame.specs.Outcomes.{outcome_of, refused as refused_with};
ghost use Rattle.re_graph.specs.Solving.{IsCover};
ghost use Rattle.re_graph_words.specs.GraphWords.{MayCover, cover_text};
ghost use Rattle.re_graph_words.specs.NotFound.{not_found_line};
ghost use Rattle.re_laws.specs.Algorithms.{Solvable};
ghost use Rattle.re_problem.specs.NamedProblems.{unnamed};
ghost use Rattle.std.specs.Prelude.{◌≡◌, ◌≤◌, ℕ, IfOk, IfSome};

use crate::solving::solve_output;
use re_frame::{Answer, Output, begun, done, push_number, push_words, refused, too_long};
use re_graph::{Found, Graph, MAX_STEPS, find_cover, find_gadgets, push_graph};
use re_io::MAX_BYTES;
use re_labels::NoMemory;
use re_problem::{Problem, push_problem};
use std::alloc::Global;

/// The most active nodes of a graph that is found by listing graphs.
pub(crate) const MAX_LISTED: u8 = 8;

/// The output where no graph was found.
pub(crate) fn not_found(alloc: Global, graphs: u32) -> Result<Output, NoMemory>
    ensures { IfOk result (λ output. outcome_of output ≡ refused_with (not_found_line graphs)) }
{
    let mut text = begun(alloc, "not found: graphs ")?;
    push_number(alloc, &mut text, graphs as usize)?;
    push_words(&mut text, "\n")?;
    Ok(refused(text))
}

// The text of a problem and a graph.
fn cover_bytes(alloc: Global, problem: &Problem, graph: &Graph) -> Result<Vec<u8>, NoMemory>
    ensures { IfOk result (λ text. text.items ≡ cover_text problem.now graph.now) }
{
    let mut text = Vec::new(alloc);
    push_problem(&mut text, problem)?;
    push_words(&mut text, "== graph\n")?;
    push_graph(alloc, &mut text, graph)?;
    Ok(text)
}

// The output with a graph, once `solve` says no to its text.
fn found_output(
    alloc: Global,
    problem: &Problem,
    graph: &Graph,
    most: u8,
    graphs: u32,
) -> Result<Output, NoMemory>
    requires cover { IsCover (unnamed problem.now) graph.now }
    requires few { graph.now.nodes ≤ most }
    requires never { (T : ℕ) → Solvable (unnamed problem.now) T → ⊥ }
    ensures { IfOk result (λ output. MayCover problem.now most (outcome_of output)) }
{
    let text = cover_bytes(alloc, problem, graph)?;
    if text.len() > MAX_BYTES {
        return Ok(too_long(alloc)?);
    }
    let shown = solve_output(alloc, text.as_slice())?;
    match shown.answer {
        Answer::No => Ok(done(text)),
        _ => not_found(alloc, graphs),
    }
}

// The first graph of at most so many active nodes: of those with at most 8 that are listed, and then of those that gadgets make.
fn found_graph(alloc: Global, problem: &Problem, most: u8) -> Result<Found, NoMemory>
    requires { most ≤ 64 }
    ensures found { IfOk result (λ found. IfSome found.graph (IsCover (unnamed problem.now))) }
    ensures few { IfOk result (λ found. IfSome found.graph (λ graph. graph.nodes ≤ most)) }
    ensures means { IfOk result (λ found. IfSome found.graph (λ _. (T : ℕ) → Solvable (unnamed problem.now) T → ⊥)) }
{
    let listed = find_cover(alloc, problem, most.min(MAX_LISTED))?;
    if listed.graph.is_some() {
        return Ok(listed);
    }
    let Found { graph, graphs } = find_gadgets(alloc, problem, most, MAX_STEPS)?;
    Ok(Found {
        graph,
        graphs: graphs.saturating_add(listed.graphs),
    })
}

/// What `cover` gives to a problem.
pub(crate) fn cover_output(alloc: Global, problem: &Problem, most: u8) -> Result<Output, NoMemory>
    requires { most ≤ 64 }
    ensures { IfOk result (λ output. MayCover problem.now most (outcome_of output)) }
{
    let found = found_graph(alloc, problem, most)?;
    match &found.graph {
        Some(graph) => found_output(alloc, problem, graph, most, found.graphs),
        None => not_found(alloc, found.graphs),
    }
}
