//! What a report on a bound given an input problem says in words.
ghost use Rattle.re_describe.specs.GivenHeads.{given_check_text, given_claim, given_exit_code, given_graph_claim, given_model, indented, lines_block};
ghost use Rattle.std.specs.Prelude.{◌≡◌, ◌==◌, ◌≤◌, ◌-◌, ◌∷◌, [], ◌++◌, IfOk, OnOk, codes, if◌then◌else◌, length, take, true};

use crate::heads::{push_fewer, push_rounds};
use crate::pieces::{push_between, push_count};
use re_cert::Kind;
use re_frame::{begun, push_words};
use re_labels::NoMemory;
use std::alloc::Global;

// Appends a byte, a line feed with four blanks behind it.
fn push_indented_byte(text: &mut Vec<u8>, byte: u8) -> Result<(), NoMemory>
    ensures { OnOk result (text.new.items ≡ text.old.items ++ (if byte == 10 then codes "\n    " else byte ∷ [])) }
{
    if byte == b'\n' {
        return push_words(text, "\n    ");
    }
    Ok(text.push(byte)?)
}

// Appends lines, each but the first behind four blanks.
fn push_indented(text: &mut Vec<u8>, lines: &[u8]) -> Result<(), NoMemory>
    ensures { OnOk result (text.new.items ≡ text.old.items ++ indented lines.now) }
{
    for byte in lines {
        push_indented_byte(text, *byte)?;
    }
    Ok(())
}

// The lines without their last byte.
fn without_last(lines: &[u8]) -> &[u8]
    ensures { result.now ≡ take (length lines.now - 1) lines.now }
{
    let count = lines.len().saturating_sub(1);
    &lines[..count]
}

/// Appends lines of which the last ends with a line feed, as a block that stands as it is.
pub(crate) fn push_lines_block(text: &mut Vec<u8>, lines: &[u8]) -> Result<(), NoMemory>
    ensures { OnOk result (text.new.items ≡ text.old.items ++ lines_block lines.now) }
{
    push_words(text, "\n    ")?;
    push_indented(text, without_last(lines))?;
    push_words(text, "\n")
}

// What a bound of this kind, with so many steps, says that holds.
fn push_held(text: &mut Vec<u8>, kind: Kind, steps: usize) -> Result<(), NoMemory>
    ensures { OnOk result (text.new.items ≡ text.old.items ++ given_claim true kind steps) }
{
    match kind {
        Kind::Lower => push_fewer(
            text,
            "\nGiven a solution of the input problem, no deterministic port-numbering algorithm solves problem 0 in ",
            steps,
            ".\n",
        ),
        Kind::Upper => push_rounds(
            text,
            "\nGiven a solution of the input problem, a deterministic port-numbering algorithm solves problem 0 in ",
            steps,
            ".\n",
        ),
        Kind::Fixed => push_words(
            text,
            "\nGiven a solution of the input problem, no deterministic port-numbering algorithm solves problem 0 in any number of rounds.\n",
        ),
    }
}

// What is said of the first problem of such a bound.
fn push_claim(text: &mut Vec<u8>, holds: bool, kind: Kind, steps: usize) -> Result<(), NoMemory>
    ensures { OnOk result (text.new.items ≡ text.old.items ++ given_claim holds kind steps) }
{
    if holds {
        return push_held(text, kind, steps);
    }
    push_words(
        text,
        "\nThe check fails, so of problem 0 nothing follows from this certificate but what a line `holds:` above says, where there is one. Where a line `yes` stands above, the problem with the number of that step is solvable in 0 rounds given the input labels: each edge gets a label of the set that stands behind its input label.\n",
    )
}

/// What is said of the first problem of a bound of this kind, with so many steps, where it holds given the input problem, or doesn't.
pub(crate) fn given_claim(
    alloc: Global,
    holds: bool,
    kind: Kind,
    steps: usize,
) -> Result<Vec<u8>, NoMemory>
    ensures { IfOk result (λ text. text.items ≡ given_claim holds kind steps) }
{
    let mut text = Vec::new(alloc);
    push_claim(&mut text, holds, kind, steps)?;
    Ok(text)
}

// Appends where algorithms run, what a node knows, and what a round is.
fn push_given_model(text: &mut Vec<u8>, active: u8, passive: u8) -> Result<(), NoMemory>
    ensures { OnOk result (text.new.items ≡ text.old.items ++ given_model active passive) }
{
    push_count(
        text,
        "\nThe algorithms run on the infinite biregular tree with port numbers whose active nodes have degree ",
        active as usize,
    )?;
    push_between(
        text,
        " and whose passive nodes have degree ",
        passive as usize,
        ", without identifiers or random bits. Each edge has an input label. The input labels are a solution of the input problem, and an algorithm has to work with each solution. After $T$ rounds a node knows the port numbers at the nodes up to distance $T$, and the input labels of all edges of these nodes. A round is one hop of this tree.\n",
    )
}

/// Where algorithms run, what a node knows, and what a round is.
pub(crate) fn given_model(alloc: Global, active: u8, passive: u8) -> Result<Vec<u8>, NoMemory>
    ensures { IfOk result (λ text. text.items ≡ given_model active passive) }
{
    let mut text = Vec::new(alloc);
    push_given_model(&mut text, active, passive)?;
    Ok(text)
}

// What such a bound says in rounds of the graph whose edges the passive nodes are.
fn push_held_graph(text: &mut Vec<u8>, kind: Kind, steps: usize) -> Result<(), NoMemory>
    requires { steps ≤ 64 }
    ensures { OnOk result (text.new.items ≡ text.old.items ++ given_graph_claim true kind steps) }
{
    match kind {
        Kind::Lower => push_fewer(
            text,
            "\nThe passive nodes are the edges of a graph, and two hops are one round of the graph. Given a solution of the input problem, problem 0 isn't solvable in ",
            steps / 2,
            " of the graph.\n",
        ),
        Kind::Upper => push_rounds(
            text,
            "\nThe passive nodes are the edges of a graph, and two hops are one round of the graph. Given a solution of the input problem, problem 0 is solvable in ",
            (steps + 1) / 2,
            " of the graph, where each edge numbers its two ends, so that the graph comes with an orientation.\n",
        ),
        Kind::Fixed => push_words(
            text,
            "\nThe passive nodes are the edges of a graph, and two hops are one round of the graph. Given a solution of the input problem, problem 0 isn't solvable in any number of rounds of the graph.\n",
        ),
    }
}

// The claim of such a bound in rounds of the graph.
fn push_graph_claim(
    text: &mut Vec<u8>,
    holds: bool,
    kind: Kind,
    steps: usize,
) -> Result<(), NoMemory>
    requires { steps ≤ 64 }
    ensures { OnOk result (text.new.items ≡ text.old.items ++ given_graph_claim holds kind steps) }
{
    if holds {
        return push_held_graph(text, kind, steps);
    }
    push_words(
        text,
        "\nThe passive nodes are the edges of a graph, and two hops are one round of the graph.\n",
    )
}

/// The claim in rounds of the graph whose edges the passive nodes are.
pub(crate) fn given_graph_claim(
    alloc: Global,
    holds: bool,
    kind: Kind,
    steps: usize,
) -> Result<Vec<u8>, NoMemory>
    requires { steps ≤ 64 }
    ensures { IfOk result (λ text. text.items ≡ given_graph_claim holds kind steps) }
{
    let mut text = Vec::new(alloc);
    push_graph_claim(&mut text, holds, kind, steps)?;
    Ok(text)
}

// The exit code of `given`.
fn given_exit_code(holds: bool) -> &'static str
    ensures { result.now ≡ given_exit_code holds }
{
    if holds { "0" } else { "1" }
}

/// How to check a bound given an input problem.
pub(crate) fn given_check_text(alloc: Global, holds: bool) -> Result<Vec<u8>, NoMemory>
    ensures { IfOk result (λ text. text.items ≡ given_check_text holds) }
{
    let mut text = begun(
        alloc,
        "\n## How to check it\n\nThat problem 0 and the input problem are those that are meant is for the reader to see. Each step can be checked by hand, by the clauses that docs/DEFINITIONS.md of the repository `re` states; and all of it by `explore given < FILE`, where FILE holds the certificate, or problem 0 alone for the lower bound without steps, then a line `== given` and the input problem. This prints the lines at the top of this report and ends with exit status ",
    )?;
    push_words(&mut text, given_exit_code(holds))?;
    push_words(
        &mut text,
        ". That what it accepts holds given each solution of the input problem is proved of its source by machine (`re_settings::answer_law`).\n",
    )?;
    Ok(text)
}
