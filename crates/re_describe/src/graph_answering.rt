//! What `describe` answers to a problem and a graph.
ghost use Rattle.re_chains.specs.TwoTexts.{has_line};
ghost use Rattle.re_describe.specs.DescribeWords.{IsGraphReport, ReportsGraph, drawing, drawn, is_no, withheld};
ghost use Rattle.re_frame.specs.Outcomes.{outcome_of, status_of};
ghost use Rattle.re_graph_words.specs.GraphInputs.{graph_input};
ghost use Rattle.re_graph_words.specs.GraphWords.{MayGive};
ghost use Rattle.re_graph_words.specs.SolveWords.{ReadMeans, read_outcome};
ghost use Rattle.re_graph_words.specs.declared.words.GraphWord.TheVariants.{Solve};
ghost use Rattle.re_laws.specs.Algorithms.{Solvable};
ghost use Rattle.re_problem.specs.NamedProblems.{unnamed};
ghost use Rattle.std.specs.Prelude.{◌≡◌, ◌≤◌, ℕ, IfOk, codes, false, length};

use crate::answering::in_form;
use crate::graph_reporting::{graph_back, graph_front};
use crate::groups::copied;
use crate::pictures::picture;
use crate::words::ReportForm;
use re_frame::{Answer, Finding, Output, done};
use re_graph::Graph;
use re_graph_words::{GraphWord, ReadFault, read_graph_text};
use re_io::MAX_BYTES;
use re_labels::NoMemory;
use re_problem::Problem;
use std::alloc::Global;

/// What `solve` answers to a text.
pub(crate) fn solved(alloc: Global, text: &[u8]) -> Result<Output, NoMemory>
    requires { length text.now ≤ MAX_BYTES }
    ensures { IfOk result (λ output. MayGive Solve text.now (outcome_of output)) }
{
    let bytes = copied(alloc, text)?;
    GraphWord::Solve.find(alloc, bytes)
}

/// What it answers to a text without an input problem.
pub(crate) fn solved_alone(alloc: Global, text: &[u8]) -> Result<Output, NoMemory>
    requires short { length text.now ≤ MAX_BYTES }
    requires alone { has_line (codes "given") text.now ≡ false }
    ensures answer { IfOk result (λ output. outcome_of output ≡ read_outcome (graph_input text.now)) }
    ensures means { IfOk result (λ output. ReadMeans (graph_input text.now) (outcome_of output)) }
{
    solved(alloc, text)
}

/// Whether the answer is No.
pub(crate) fn is_no(answer: Answer) -> bool
    ensures { result ≡ is_no (status_of answer) }
{
    match answer {
        Answer::Done => false,
        Answer::No => true,
        Answer::BadWords => false,
        Answer::BadInput => false,
        Answer::Limit => false,
    }
}

/// What is answered where `solve` doesn't say that there is no solution.
pub(crate) fn withheld(solved: Output) -> Output
    ensures { outcome_of result ≡ withheld (outcome_of solved) }
{
    let answer = match solved.answer {
        Answer::Done => Answer::No,
        answer => answer,
    };
    Output {
        answer,
        text: solved.text,
    }
}

// The picture of a graph in this form, nothing in Markdown.
fn drawing(alloc: Global, form: ReportForm, graph: &Graph) -> Result<Vec<u8>, NoMemory>
    ensures { IfOk result (λ text. text.items ≡ drawing form graph.now) }
{
    match form {
        ReportForm::Markdown => Ok(Vec::new(alloc)),
        ReportForm::Latex => picture(alloc, graph),
    }
}

/// The report in this form, with what stands in front of the place of a picture and behind it.
pub(crate) fn in_drawn_form(
    alloc: Global,
    form: ReportForm,
    graph: &Graph,
    front: Vec<u8>,
    back: Vec<u8>,
) -> Result<Vec<u8>, NoMemory>
    ensures { IfOk result (λ text. text.items ≡ drawn form graph.now front.items back.items) }
{
    let middle = drawing(alloc, form, graph)?;
    let last = in_form(alloc, form, back)?;
    let mut text = in_form(alloc, form, front)?;
    text.extend_from_slice(middle.as_slice())?;
    text.extend_from_slice(last.as_slice())?;
    Ok(text)
}

// The report on a problem and a graph without a solution.
fn graph_report(
    alloc: Global,
    form: ReportForm,
    problem: &Problem,
    graph: &Graph,
) -> Result<Output, NoMemory>
    requires { (T : ℕ) → Solvable (unnamed problem.now) T → ⊥ }
    ensures { IfOk result (λ output. IsGraphReport form problem.now graph.now (outcome_of output)) }
{
    let front = graph_front(alloc, problem, graph)?;
    let back = graph_back(alloc, problem, graph)?;
    Ok(done(in_drawn_form(alloc, form, graph, front, back)?))
}

/// What is given to a text with a line `== graph`, and without an input problem.
pub(crate) fn graph_output(alloc: Global, form: ReportForm, text: &[u8]) -> Result<Output, NoMemory>
    requires short { length text.now ≤ MAX_BYTES }
    requires alone { has_line (codes "given") text.now ≡ false }
    ensures { IfOk result (λ output. ReportsGraph form (graph_input text.now) (outcome_of output)) }
{
    let told = solved_alone(alloc, text)?;
    match read_graph_text(alloc, text) {
        Ok(read) => {
            if is_no(told.answer) {
                graph_report(alloc, form, &read.problem, &read.graph)
            } else {
                Ok(withheld(told))
            }
        }
        Err(ReadFault::Bad(_)) => Ok(told),
        Err(ReadFault::NoMemory) => Err(NoMemory),
    }
}
