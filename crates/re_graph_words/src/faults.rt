//! What is wrong with the text of a graph.
ghost use Rattle.re_frame.specs.Outcomes.{outcome_of, status_of};
ghost use Rattle.re_graph_words.specs.Faults.{graph_fault_line, graph_fault_outcome, graph_fault_status};
ghost use Rattle.std.specs.Prelude.{◌≡◌, IfOk, string_bytes};

use re_frame::{Answer, Output, fault_output};
use re_labels::NoMemory;
use re_problem::InputFault;
use std::alloc::{AllocError, Global};

/// Why the text of a problem and a graph was refused, and at which line, from 1.
#[derive(Clone, Copy, Debug, PartialEq, Eq)]
pub enum GraphFault {
    /// The problem's text has this fault, or a section line stands where none may, or a line has another number of ends than a passive node.
    Text(InputFault),
    /// The line is no list of ends.
    NotEnds(u32),
    /// The line has an end that no active node has: its node or its port is 0, or its port is above the active degree.
    NoSuchEnd(u32),
    /// The line has an end that stands before.
    EndTwice(u32),
    /// The lines end, and an end of an active node stands on none of them; this is the line that would come next.
    EndMissing(u32),
    /// The line has an end of a node past `MAX_NODES`.
    TooManyNodes(u32),
}

/// Why no problem and graph were read from a text.
#[derive(Clone, Copy, Debug, PartialEq, Eq)]
pub enum ReadFault {
    /// Its first fault.
    Bad(GraphFault),
    /// There was no memory.
    NoMemory,
}

// The line of a fault of the lines of a graph.
fn line_of(alloc: Global, fault: GraphFault) -> Result<String, AllocError>
    ensures { IfOk result (λ text. string_bytes text ≡ graph_fault_line fault) }
{
    match fault {
        GraphFault::NotEnds(line) => format!(in alloc; "input: line {line}: not a list of ends\n"),
        GraphFault::NoSuchEnd(line) => format!(in alloc; "input: line {line}: no such end\n"),
        GraphFault::EndTwice(line) => format!(in alloc;
            "input: line {line}: an end stands twice\n"
        ),
        GraphFault::EndMissing(line) => format!(in alloc;
            "input: line {line}: an end is missing\n"
        ),
        GraphFault::TooManyNodes(line) => format!(in alloc;
            "limit: line {line}: more than 64 nodes\n"
        ),
        GraphFault::Text(_) => String::from_str(alloc, ""),
    }
}

fn answer_to(fault: GraphFault) -> Answer
    ensures { status_of result ≡ graph_fault_status fault }
{
    match fault {
        GraphFault::TooManyNodes(_) => Answer::Limit,
        _ => Answer::BadInput,
    }
}

/// The line of the fault. One that passes a limit isn't bad.
pub(crate) fn graph_fault_output(alloc: Global, fault: GraphFault) -> Result<Output, NoMemory>
    ensures { IfOk result (λ output. outcome_of output ≡ graph_fault_outcome fault) }
{
    if let GraphFault::Text(fault) = fault {
        return Ok(fault_output(alloc, fault)?);
    }
    Ok(Output {
        answer: answer_to(fault),
        text: line_of(alloc, fault)?.into_bytes(),
    })
}
