//! Parts of evidence that hold a graph on which a problem has no solution.
ghost use Rattle.re_chains.specs.TwoTexts.{has_line as has_given};
ghost use Rattle.re_judging.specs.PartAnswers.{PartMeans};
ghost use Rattle.re_judging.specs.PartVerdicts.{IsGraphBy, IsLabelledGraph, IsOnGraph, IsPlainGraph};
ghost use Rattle.re_frame.specs.Outcomes.{outcome_of, refused};
ghost use Rattle.re_graph_words.specs.GivenInputs.{labelled_input};
ghost use Rattle.re_graph_words.specs.GraphInputs.{graph_input};
ghost use Rattle.re_graph_words.specs.SolveWords.{IsSolved, ReadLabelledMeans, ReadMeans, read_labelled_outcome};
ghost use Rattle.re_laws.specs.Algorithms.{Solvable};
ghost use Rattle.re_problem.specs.NamedProblems.{unnamed};
ghost use Rattle.std.specs.Prelude.{◌≡◌, ◌↔◌, ◌≤◌, ℕ, IfOk, IsTrue, codes, length};

use crate::types::{Fact, Judged, Part};
use re_chains::has_line;
use re_frame::{Answer, Finding, Output};
use re_graph_words::{
    GraphText, GraphWord, LabelledGraph, ReadFault, read_graph_text, read_labelled,
};
use re_io::MAX_BYTES;
use re_labels::NoMemory;
use re_problem::Problem;
use re_settings::{GIVEN, input_fault};
use std::alloc::Global;

/// The line where there is no solution.
const NONE: &str = "no: no solution on this graph, so not solvable in any number of rounds\n";

/// The line where there is none given an input problem.
const GIVEN_NONE: &str =
    "no: no solution on this graph, so not solvable in any number of rounds given that input\n";

/// What `solve` answers to the text.
pub(crate) fn solved(alloc: Global, text: &[u8]) -> Result<Output, NoMemory>
    requires { length text.now ≤ MAX_BYTES }
    ensures { IfOk result (λ output. IsSolved text.now (outcome_of output)) }
{
    let mut copy = Vec::new(alloc);
    copy.extend_from_slice(text)?;
    GraphWord::Solve.find(alloc, copy)
}

// Whether the output is No with this line.
fn is_line(output: &Output, line: &str) -> bool
    ensures { IsTrue result ↔ (outcome_of output.now ≡ refused line.now) }
{
    output.answer == Answer::No && output.text.as_slice() == line.as_bytes()
}

// What the output says of the problem.
fn on_graph(line: &str, output: Output, problem: Problem) -> Judged
    requires { outcome_of output ≡ refused line.now → (T : ℕ) → Solvable (unnamed problem) T → ⊥ }
    ensures answer { IsOnGraph line.now (outcome_of output) problem result }
    ensures means { PartMeans result }
{
    let _names = problem.names();
    if is_line(&output, line) {
        Judged::Holds(Part {
            problem,
            fact: Fact::Never,
        })
    } else {
        Judged::Refused(output)
    }
}

// What comes of a problem and a graph to which `solve` answers this.
fn plain_part(alloc: Global, text: &[u8], output: Output) -> Result<Judged, NoMemory>
    requires few { length text.now ≤ MAX_BYTES }
    requires means { ReadMeans (graph_input text.now) (outcome_of output) }
    ensures answer { IfOk result (IsPlainGraph (graph_input text.now) (outcome_of output)) }
    ensures means { IfOk result PartMeans }
{
    match read_graph_text(alloc, text) {
        Ok(GraphText { problem, graph }) => {
            let _graph = graph;
            Ok(on_graph(NONE, output, problem))
        }
        Err(ReadFault::Bad(_)) => Ok(Judged::Refused(output)),
        Err(ReadFault::NoMemory) => Err(NoMemory),
    }
}

// What comes of a problem, an input problem and a graph with labels, to which `solve` answers this.
fn labelled_part(alloc: Global, text: &[u8], output: Output) -> Result<Judged, NoMemory>
    requires few { length text.now ≤ MAX_BYTES }
    requires answer { outcome_of output ≡ read_labelled_outcome (labelled_input text.now) }
    requires means { ReadLabelledMeans (labelled_input text.now) (outcome_of output) }
    ensures answer { IfOk result (IsLabelledGraph (labelled_input text.now) (outcome_of output)) }
    ensures means { IfOk result PartMeans }
{
    match read_labelled(alloc, text) {
        Ok(LabelledGraph { given, labels }) => {
            let _labels = labels;
            let _fault = input_fault(&given.problem, &given.input);
            Ok(on_graph(GIVEN_NONE, output, given.problem))
        }
        Err(ReadFault::Bad(_)) => Ok(Judged::Refused(output)),
        Err(ReadFault::NoMemory) => Err(NoMemory),
    }
}

/// What comes of the text of a problem and a graph, or of these with an input problem and labels.
pub(crate) fn graph_part(alloc: Global, text: &[u8]) -> Result<Judged, NoMemory>
    requires { length text.now ≤ MAX_BYTES }
    ensures answer { IfOk result (IsGraphBy (has_given (codes "given") text.now) text.now) }
    ensures means { IfOk result PartMeans }
{
    let output = solved(alloc, text)?;
    if has_line(GIVEN, text) {
        labelled_part(alloc, text, output)
    } else {
        plain_part(alloc, text, output)
    }
}
