//! What `solve` answers.
ghost use Rattle.re_frame.specs.Outcomes.{done as done_with, outcome_of};
ghost use Rattle.re_graph.specs.Solving.{labels_of, solution_walk};
ghost use Rattle.re_graph_words.specs.GraphInputs.{graph_input};
ghost use Rattle.re_graph_words.specs.SolveWords.{AnswerMeans, IsSolved, ReadMeans, none_line, read_outcome, solve_outcome};
ghost use Rattle.re_graph_words.specs.Solutions.{node_lines, solution_outcome, walked_with};
ghost use Rattle.re_chains.specs.TwoTexts.{has_line as has_given};
ghost use Rattle.re_io.specs.declared.read.TheConstants.{MAX_BYTES};
ghost use Rattle.re_problem.specs.NamedProblems.{unnamed};
ghost use Rattle.re_walks.specs.Walking.{found};
ghost use Rattle.std.specs.List.{AllByRecursion};
ghost use Rattle.re_texts.specs.CertificateLines.{image_text};
ghost use Rattle.std.specs.Prelude.{◌≡◌, ◌<◌, ◌≤◌, ◌*◌, ◌++◌, IfOk, OnOk, codes, drop, length, take};

use crate::faults::{ReadFault, graph_fault_output};
use crate::given_solving::given_output;
use crate::texts::{GraphText, read_graph_text};
use re_cert::RowImage;
use re_chains::has_line;
use re_frame::{Output, begun, done, limit_of, refused};
use re_graph::{Graph, SolveFault, solve};
use re_labels::{Names, NoMemory};
use re_problem::Problem;
use re_settings::GIVEN;
use re_texts::push_image;
use std::alloc::Global;

/// The most tries of a search for a solution.
pub const MAX_TRIES: u32 = 1_000_000;

// Appends the line of a node with these labels.
fn push_node(text: &mut Vec<u8>, names: &Names, labels: &[u8]) -> Result<(), NoMemory>
    requires least { 2 ≤ length labels.now }
    requires most { length labels.now ≤ 6 }
    requires named { AllByRecursion (λ label. label < length names.now) labels.now }
    ensures { OnOk result (text.new.items ≡ text.old.items ++ (image_text names.now labels.now ++ codes "\n")) }
{
    let Some(image) = RowImage::new(labels) else {
        unreachable!();
    };
    push_image(text, names, &image)?;
    Ok(text.push(b'\n')?)
}

// The first labels, as many as are counted.
fn first_labels(labels: &[u8], count: u8) -> &[u8]
    requires { count ≤ length labels.now }
    ensures { result.now ≡ take count labels.now }
{
    &labels[..count as usize]
}

// The labels behind them.
fn other_labels(labels: &[u8], count: u8) -> &[u8]
    requires { count ≤ length labels.now }
    ensures { result.now ≡ drop count labels.now }
{
    &labels[count as usize..]
}

/// Appends the lines of so many nodes of this degree, whose labels stand one behind the other.
pub(crate) fn push_nodes(
    text: &mut Vec<u8>,
    names: &Names,
    degree: u8,
    nodes: u8,
    labels: &[u8],
) -> Result<(), NoMemory>
    requires least { 2 ≤ degree }
    requires most { degree ≤ 6 }
    requires count { length labels.now ≡ nodes * degree }
    requires named { AllByRecursion (λ label. label < length names.now) labels.now }
    ensures { OnOk result (text.new.items ≡ text.old.items ++ node_lines names.now (labels_of degree nodes labels.now)) }
{
    if nodes == 0 {
        return Ok(());
    }
    push_node(text, names, first_labels(labels, degree))?;
    push_nodes(text, names, degree, nodes - 1, other_labels(labels, degree))
}

// The output with a solution.
fn found_output(
    alloc: Global,
    none: &str,
    problem: &Problem,
    graph: &Graph,
    labels: &[u8],
) -> Result<Output, NoMemory>
    requires count { length labels.now ≡ graph.now.nodes * problem.now.active.degree }
    requires named { AllByRecursion (λ label. label < length problem.now.names) labels.now }
    ensures { IfOk result (λ output. outcome_of output ≡ walked_with none.now problem.now graph.now (found labels.now)) }
{
    let degree = problem.active().degree();
    let mut text = begun(alloc, "yes:\n")?;
    push_nodes(&mut text, problem.names(), degree, graph.nodes(), labels)?;
    Ok(done(text))
}

/// What is given to a problem and a graph, with this line where there is no solution.
pub(crate) fn solution_output(
    alloc: Global,
    none: &str,
    problem: &Problem,
    graph: &Graph,
) -> Result<Output, NoMemory>
    requires active { graph.now.active_degree ≡ problem.now.active.degree }
    requires passive { graph.now.passive_degree ≡ problem.now.passive.degree }
    ensures { IfOk result (λ output. outcome_of output ≡ solution_outcome none.now problem.now graph.now) }
{
    match solve(alloc, problem, graph, MAX_TRIES) {
        Ok(Some(labels)) => found_output(alloc, none, problem, graph, labels.as_slice()),
        Ok(None) => Ok(refused(begun(alloc, none)?)),
        Err(SolveFault::TooManyTries) => limit_of(alloc, MAX_TRIES as usize, "tries"),
        Err(SolveFault::NoMemory) => Err(NoMemory),
    }
}

// What is given to a problem and a graph, and what it means.
fn judged_output(alloc: Global, problem: &Problem, graph: &Graph) -> Result<Output, NoMemory>
    requires active { graph.now.active_degree ≡ problem.now.active.degree }
    requires passive { graph.now.passive_degree ≡ problem.now.passive.degree }
    ensures answer { IfOk result (λ output. outcome_of output ≡ solution_outcome none_line problem.now graph.now) }
    ensures means { IfOk result (λ output. AnswerMeans problem.now graph.now (outcome_of output)) }
{
    let _problem = problem.names();
    let _graph = graph.passive();
    solution_output(
        alloc,
        "no: no solution on this graph, so not solvable in any number of rounds\n",
        problem,
        graph,
    )
}

// What `solve` gives to a text of a problem and a graph.
fn graph_output(alloc: Global, text: &[u8]) -> Result<Output, NoMemory>
    requires { length text.now ≤ MAX_BYTES }
    ensures answer { IfOk result (λ output. outcome_of output ≡ read_outcome (graph_input text.now)) }
    ensures means { IfOk result (λ output. ReadMeans (graph_input text.now) (outcome_of output)) }
{
    match read_graph_text(alloc, text) {
        Ok(GraphText { problem, graph }) => judged_output(alloc, &problem, &graph),
        Err(ReadFault::Bad(fault)) => graph_fault_output(alloc, fault),
        Err(ReadFault::NoMemory) => Err(NoMemory),
    }
}

/// What `solve` gives to a text.
pub(crate) fn solve_output(alloc: Global, text: &[u8]) -> Result<Output, NoMemory>
    requires { length text.now ≤ MAX_BYTES }
    ensures { IfOk result (λ output. IsSolved text.now (outcome_of output)) }
{
    if has_line(GIVEN, text) {
        given_output(alloc, text)
    } else {
        graph_output(alloc, text)
    }
}
