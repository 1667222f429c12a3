//! What `solve` answers where an input problem is given.
ghost use Rattle.re_frame.specs.Outcomes.{outcome_of, refused as refused_with};
ghost use Rattle.re_graph.specs.Judging.{labels_fault as fault_of};
ghost use Rattle.re_graph_words.specs.GivenInputs.{labelled_input};
ghost use Rattle.re_graph_words.specs.GivenSolutions.{GivenMeans, given_none_line, labelled_outcome, labels_line, or_labels_fault};
ghost use Rattle.re_graph_words.specs.SolveWords.{ReadLabelledMeans, read_labelled_outcome};
ghost use Rattle.re_graph_words.specs.Solutions.{solution_outcome};
ghost use Rattle.re_io.specs.declared.read.TheConstants.{MAX_BYTES};
ghost use Rattle.re_problem.specs.NamedProblems.{unnamed};
ghost use Rattle.std.specs.Fmt.{decimal};
ghost use Rattle.std.specs.Prelude.{◌≡◌, ◌≤◌, ◌++◌, IfOk, codes, length};

use crate::faults::{ReadFault, graph_fault_output};
use crate::given_texts::{GivenGraph, LabelledGraph, read_labelled};
use crate::solving::solution_output;
use re_cover::no_solution_given_law;
use re_frame::{Output, begun, push_number, push_words, refused};
use re_graph::{LabelsFault, labels_fault};
use re_labels::{NoMemory, PortLabels};
use re_settings::{input_fault, input_fault_output};
use std::alloc::Global;

/// The line where there is no solution.
pub(crate) const NO_SOLUTION: &str =
    "no: no solution on this graph, so not solvable in any number of rounds given that input\n";

// The output of a line with the number of a node.
fn node_output(alloc: Global, words: &str, node: usize) -> Result<Output, NoMemory>
    ensures { IfOk result (λ output. outcome_of output ≡ refused_with (words.now ++ decimal node ++ codes "\n")) }
{
    let mut text = begun(alloc, words)?;
    push_number(alloc, &mut text, node)?;
    push_words(&mut text, "\n")?;
    Ok(refused(text))
}

// The output where the labels are no solution.
fn labels_output(alloc: Global, fault: LabelsFault) -> Result<Output, NoMemory>
    ensures { IfOk result (λ output. outcome_of output ≡ refused_with (labels_line fault)) }
{
    match fault {
        LabelsFault::Active(node) => {
            node_output(alloc, "no: not a solution of the input: active node ", node)
        }
        LabelsFault::Passive(node) => {
            node_output(
                alloc,
                "no: not a solution of the input: passive node ",
                node,
            )
        }
    }
}

// What is given to an input problem, and labels.
fn checked_output(
    alloc: Global,
    given: &GivenGraph,
    labels: &[PortLabels],
) -> Result<Output, NoMemory>
    requires active { given.now.graph.active_degree ≡ given.now.problem.active.degree }
    requires passive { given.now.graph.passive_degree ≡ given.now.problem.passive.degree }
    requires count { length labels.now ≡ given.now.graph.nodes }
    ensures { IfOk result (λ output. outcome_of output ≡ or_labels_fault (fault_of (unnamed given.now.input) given.now.graph labels.now) (solution_outcome given_none_line given.now.problem given.now.graph)) }
{
    match labels_fault(&given.input, &given.graph, labels) {
        Some(fault) => labels_output(alloc, fault),
        None => solution_output(alloc, NO_SOLUTION, &given.problem, &given.graph),
    }
}

// What is given to both problems, a graph and labels.
fn labelled_output(
    alloc: Global,
    given: &GivenGraph,
    labels: &[PortLabels],
) -> Result<Output, NoMemory>
    requires active { given.now.graph.active_degree ≡ given.now.problem.active.degree }
    requires passive { given.now.graph.passive_degree ≡ given.now.problem.passive.degree }
    requires count { length labels.now ≡ given.now.graph.nodes }
    ensures { IfOk result (λ output. outcome_of output ≡ labelled_outcome (record { given = given.now; labels = labels.now })) }
{
    match input_fault(&given.problem, &given.input) {
        Some(fault) => input_fault_output(alloc, &given.input, fault),
        None => checked_output(alloc, given, labels),
    }
}

// The same, and what it means.
fn meant_output(
    alloc: Global,
    given: &GivenGraph,
    labels: &[PortLabels],
) -> Result<Output, NoMemory>
    requires active { given.now.graph.active_degree ≡ given.now.problem.active.degree }
    requires passive { given.now.graph.passive_degree ≡ given.now.problem.passive.degree }
    requires count { length labels.now ≡ given.now.graph.nodes }
    ensures answer { IfOk result (λ output. outcome_of output ≡ labelled_outcome (record { given = given.now; labels = labels.now })) }
    ensures means { IfOk result (λ output. GivenMeans (record { given = given.now; labels = labels.now }) (outcome_of output)) }
{
    no_solution_given_law();
    let _problem = given.problem.names();
    let _graph = given.graph.passive();
    let _fault = input_fault(&given.problem, &given.input);
    let _labels = labels_fault(&given.input, &given.graph, labels);
    labelled_output(alloc, given, labels)
}

/// What `solve` gives to a text with a line `== given`.
pub(crate) fn given_output(alloc: Global, text: &[u8]) -> Result<Output, NoMemory>
    requires { length text.now ≤ MAX_BYTES }
    ensures answer { IfOk result (λ output. outcome_of output ≡ read_labelled_outcome (labelled_input text.now)) }
    ensures means { IfOk result (λ output. ReadLabelledMeans (labelled_input text.now) (outcome_of output)) }
{
    match read_labelled(alloc, text) {
        Ok(LabelledGraph { given, labels }) => meant_output(alloc, &given, labels.as_slice()),
        Err(ReadFault::Bad(fault)) => graph_fault_output(alloc, fault),
        Err(ReadFault::NoMemory) => Err(NoMemory),
    }
}
