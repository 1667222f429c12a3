//! What `cover` answers where an input problem is given.
ghost use Rattle.re_settings.specs.InputProblems.{input_fault as fault_of};
ghost use Rattle.re_frame.specs.Outcomes.{outcome_of, refused as refused_with};
ghost use Rattle.re_given.specs.Given.{SolvableGiven};
ghost use Rattle.re_given.specs.Inputs.{IsInput};
ghost use Rattle.re_settings.specs.GivenTexts.{given_fault, given_input, given_problem};
ghost use Rattle.re_graph.specs.Solving.{AreSolution, IsCover};
ghost use Rattle.re_graph.specs.Solving.{IsGivenCover};
ghost use Rattle.re_graph_words.specs.GivenCovers.{MayCoverBeside, MayCoverGiven, MayCoverGivenRead, given_cover_text};
ghost use Rattle.re_graph_words.specs.GivenSolutions.{given_none_line};
ghost use Rattle.re_graph_words.specs.SolveWords.{solve_outcome};
ghost use Rattle.re_io.specs.declared.read.TheConstants.{MAX_BYTES};
ghost use Rattle.re_problem.specs.NamedProblems.{unnamed};
ghost use Rattle.std.specs.List.{AllByRecursion};
ghost use Rattle.std.specs.Prelude.{◌≡◌, ◌≤◌, ◌<◌, ◌*◌, ℕ, IfOk, IfSome, IsTrue, length};

use crate::covering::{MAX_LISTED, not_found};
use crate::given_solving::NO_SOLUTION;
use crate::solving::{push_nodes, solve_output};
use re_frame::{Answer, Output, done, fault_output, push_words, too_long};
use re_graph::{
    Cover, FoundCover, Graph, MAX_STEPS, find_cover_given, find_gadgets_given, push_graph,
};
use re_io::MAX_BYTES;
use re_labels::NoMemory;
use re_problem::{Problem, TextFault, push_problem};
use re_settings::{input_fault, input_fault_output, read_given};
use std::alloc::Global;

// The text of a problem, an input problem, and a graph with labels.
fn cover_bytes(
    alloc: Global,
    problem: &Problem,
    input: &Problem,
    graph: &Graph,
    labels: &[u8],
) -> Result<Vec<u8>, NoMemory>
    requires count { length labels.now ≡ graph.now.nodes * input.now.active.degree }
    requires named { AllByRecursion (λ label. label < length input.now.names) labels.now }
    ensures { IfOk result (λ text. text.items ≡ given_cover_text problem.now input.now graph.now labels.now) }
{
    let mut text = Vec::new(alloc);
    push_problem(&mut text, problem)?;
    push_words(&mut text, "== given\n")?;
    push_problem(&mut text, input)?;
    push_words(&mut text, "== graph\n")?;
    push_graph(alloc, &mut text, graph)?;
    push_words(&mut text, "== labels\n")?;
    let degree = input.active().degree();
    push_nodes(&mut text, input.names(), degree, graph.nodes(), labels)?;
    Ok(text)
}

// Whether the output says that there is no solution.
fn says_none(output: &Output) -> bool
    ensures { IsTrue result → outcome_of output.now ≡ refused_with given_none_line }
{
    match output.answer {
        Answer::No => output.text.as_slice() == NO_SOLUTION.as_bytes(),
        _ => false,
    }
}

// Whether `solve` says so to the text.
fn is_refuted(alloc: Global, text: &[u8]) -> Result<bool, NoMemory>
    requires { length text.now ≤ MAX_BYTES }
    ensures { IfOk result (λ none. IsTrue none → solve_outcome text.now ≡ refused_with given_none_line) }
{
    let shown = solve_output(alloc, text)?;
    Ok(says_none(&shown))
}

// The output with a graph and labels, once `solve` says to the text that there is no solution.
fn found_output(
    alloc: Global,
    problem: &Problem,
    input: &Problem,
    cover: &Cover,
    most: u8,
    graphs: u32,
) -> Result<Output, NoMemory>
    requires cover { IsCover (unnamed problem.now) cover.now.graph }
    requires given { AreSolution (unnamed input.now) cover.now.graph cover.now.labels.items }
    requires few { cover.now.graph.nodes ≤ most }
    requires never { (T : ℕ) → SolvableGiven (unnamed problem.now) (unnamed input.now) T → ⊥ }
    ensures { IfOk result (λ output. MayCoverGiven problem.now input.now most (outcome_of output)) }
{
    let text = cover_bytes(alloc, problem, input, &cover.graph, cover.labels.as_slice())?;
    if text.len() > MAX_BYTES {
        return Ok(too_long(alloc)?);
    }
    if is_refuted(alloc, text.as_slice())? {
        Ok(done(text))
    } else {
        not_found(alloc, graphs)
    }
}

// The first graph of at most so many active nodes: of those with at most 8 that are listed, and then of those that gadgets make.
fn found_cover(
    alloc: Global,
    problem: &Problem,
    input: &Problem,
    most: u8,
) -> Result<FoundCover, NoMemory>
    requires few { most ≤ 64 }
    requires input { IsInput (unnamed problem.now) (unnamed input.now) }
    ensures found { IfOk result (λ found. IfSome found.cover (λ cover. IsCover (unnamed problem.now) cover.graph)) }
    ensures given { IfOk result (λ found. IfSome found.cover (λ cover. AreSolution (unnamed input.now) cover.graph cover.labels.items)) }
    ensures few { IfOk result (λ found. IfSome found.cover (λ cover. cover.graph.nodes ≤ most)) }
    ensures means { IfOk result (λ found. IfSome found.cover (λ _. (T : ℕ) → SolvableGiven (unnamed problem.now) (unnamed input.now) T → ⊥)) }
{
    let listed = find_cover_given(alloc, problem, input, most.min(MAX_LISTED))?;
    if listed.cover.is_some() {
        return Ok(listed);
    }
    let FoundCover { cover, graphs } = find_gadgets_given(alloc, problem, input, most, MAX_STEPS)?;
    Ok(FoundCover {
        cover,
        graphs: graphs.saturating_add(listed.graphs),
    })
}

// What `cover` gives to a problem and an input problem of it.
fn input_output(
    alloc: Global,
    problem: &Problem,
    input: &Problem,
    most: u8,
) -> Result<Output, NoMemory>
    requires few { most ≤ 64 }
    requires input { IsInput (unnamed problem.now) (unnamed input.now) }
    ensures { IfOk result (λ output. MayCoverGiven problem.now input.now most (outcome_of output)) }
{
    let found = found_cover(alloc, problem, input, most)?;
    match &found.cover {
        Some(cover) => found_output(alloc, problem, input, cover, most, found.graphs),
        None => not_found(alloc, found.graphs),
    }
}

// What `cover` gives to a problem and a problem behind it.
fn beside_output(
    alloc: Global,
    problem: &Problem,
    input: &Problem,
    most: u8,
) -> Result<Output, NoMemory>
    requires { most ≤ 64 }
    ensures { IfOk result (λ output. MayCoverBeside (fault_of problem.now input.now) problem.now input.now most (outcome_of output)) }
{
    match input_fault(problem, input) {
        Some(fault) => input_fault_output(alloc, input, fault),
        None => input_output(alloc, problem, input, most),
    }
}

/// What `cover` gives to a text with a line `== given`.
pub(crate) fn given_cover_output(alloc: Global, most: u8, text: &[u8]) -> Result<Output, NoMemory>
    requires most { most ≤ 64 }
    requires few { length text.now ≤ MAX_BYTES }
    ensures { IfOk result (λ output. MayCoverGivenRead (given_fault text.now) (given_problem text.now) (given_input text.now) most (outcome_of output)) }
{
    match read_given(alloc, text) {
        Ok(texts) => beside_output(alloc, &texts.problem, &texts.input, most),
        Err(TextFault::Bad(fault)) => Ok(fault_output(alloc, fault)?),
        Err(TextFault::NoMemory) => Err(NoMemory),
    }
}
