//! What `describe` answers to a problem and a graph with a solution of an input problem.
ghost use Rattle.re_chains.specs.TwoTexts.{has_line};
ghost use Rattle.re_describe.specs.DescribeWords.{IsLabelledReport, ReportsLabelled, is_given_no, told_no};
ghost use Rattle.re_frame.specs.Outcomes.{outcome_of, status_of};
ghost use Rattle.re_given.specs.Given.{SolvableGiven};
ghost use Rattle.re_graph_words.specs.GivenInputs.{labelled_input};
ghost use Rattle.re_graph_words.specs.GivenSolutions.{labelled_outcome};
ghost use Rattle.re_graph_words.specs.SolveWords.{ReadLabelledMeans, read_labelled_outcome};
ghost use Rattle.re_problem.specs.NamedProblems.{unnamed};
ghost use Rattle.std.specs.Prelude.{◌≡◌, ◌≤◌, ℕ, IfOk, codes, length, true};

use crate::graph_answering::{in_drawn_form, is_no, solved, withheld};
use crate::labelled_reporting::{labelled_back, labelled_front};
use crate::words::ReportForm;
use re_frame::{Answer, Output, done};
use re_graph::{LabelsFault, labels_fault};
use re_graph_words::{GivenGraph, ReadFault, read_labelled};
use re_io::MAX_BYTES;
use re_labels::{NoMemory, PortLabels};
use re_settings::{InputFault, input_fault};
use std::alloc::Global;

/// What `solve` answers to a text with an input problem.
pub(crate) fn solved_given(alloc: Global, text: &[u8]) -> Result<Output, NoMemory>
    requires short { length text.now ≤ MAX_BYTES }
    requires given { has_line (codes "given") text.now ≡ true }
    ensures answer { IfOk result (λ output. outcome_of output ≡ read_labelled_outcome (labelled_input text.now)) }
    ensures means { IfOk result (λ output. ReadLabelledMeans (labelled_input text.now) (outcome_of output)) }
{
    solved(alloc, text)
}

// Whether it is said that there is no solution, where these are the faults.
fn is_given_no(fault: Option<InputFault>, labels: Option<LabelsFault>, answer: Answer) -> bool
    ensures { result ≡ is_given_no fault labels (status_of answer) }
{
    match (fault, labels) {
        (None, None) => is_no(answer),
        _ => false,
    }
}

// The same of two problems, a graph and labels.
fn told_no(given: &GivenGraph, labels: &[PortLabels], told: &Output) -> bool
    requires count { length labels.now ≡ given.now.graph.nodes }
    requires told { outcome_of told.now ≡ labelled_outcome (record { given = given.now; labels = labels.now }) }
    ensures { result ≡ told_no (record { given = given.now; labels = labels.now }) }
{
    is_given_no(
        input_fault(&given.problem, &given.input),
        labels_fault(&given.input, &given.graph, labels),
        told.answer,
    )
}

// The report on them, where there is no solution.
fn labelled_report(
    alloc: Global,
    form: ReportForm,
    given: &GivenGraph,
    labels: &[PortLabels],
) -> Result<Output, NoMemory>
    requires { (T : ℕ) → SolvableGiven (unnamed given.now.problem) (unnamed given.now.input) T → ⊥ }
    ensures { IfOk result (λ output. IsLabelledReport form (record { given = given.now; labels = labels.now }) (outcome_of output)) }
{
    let front = labelled_front(alloc, given, labels)?;
    let back = labelled_back(alloc, given, labels)?;
    Ok(done(in_drawn_form(alloc, form, &given.graph, front, back)?))
}

/// What is given to a text with a line `== given` and one `== graph`.
pub(crate) fn labelled_output(
    alloc: Global,
    form: ReportForm,
    text: &[u8],
) -> Result<Output, NoMemory>
    requires short { length text.now ≤ MAX_BYTES }
    requires given { has_line (codes "given") text.now ≡ true }
    ensures { IfOk result (λ output. ReportsLabelled form (labelled_input text.now) (outcome_of output)) }
{
    let told = solved_given(alloc, text)?;
    match read_labelled(alloc, text) {
        Ok(read) => {
            let labels = read.labels.as_slice();
            if told_no(&read.given, labels, &told) {
                labelled_report(alloc, form, &read.given, labels)
            } else {
                Ok(withheld(told))
            }
        }
        Err(ReadFault::Bad(_)) => Ok(told),
        Err(ReadFault::NoMemory) => Err(NoMemory),
    }
}
