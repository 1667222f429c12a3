//! The whole report on a graph without a solution, block by block.
ghost use Rattle.re_cert.specs.declared.certificate.Kind.TheVariants.{Fixed};
ghost use Rattle.re_check.specs.declared.verdict.Verdict.TheVariants.{Accepted};
ghost use Rattle.re_describe.specs.GivenHeads.{lines_block};
ghost use Rattle.re_describe.specs.GraphReports.{SaysGraph, WritesGraph, graph_back_blocks, graph_check_text, graph_front_blocks, graph_notation_text, why_text};
ghost use Rattle.re_describe.specs.Heads.{problem_text};
ghost use Rattle.re_describe.specs.Reports.{SaysRows};
ghost use Rattle.re_graph.specs.GraphTexts.{graph_text};
ghost use Rattle.std.specs.Prelude.{◌≡◌, ◌++◌, IfOk, codes};

use crate::given_heads::push_lines_block;
use crate::graph_blocks::{GraphBlock, back_blocks, front_blocks};
use crate::graph_lines::nodes_text;
use crate::problems::{constraint_text, push_problem};
use crate::reporting::{claim_text, graph_text, model_text};
use re_cert::Kind;
use re_check::Verdict;
use re_frame::begun;
use re_graph::{Graph, push_graph};
use re_labels::NoMemory;
use re_problem::Problem;
use std::alloc::Global;

// What no number of rounds says.
fn never() -> Verdict
    ensures { result ≡ Accepted Fixed 0 }
{
    Verdict::Accepted {
        kind: Kind::Fixed,
        steps: 0,
    }
}

/// How constraints are written.
pub(crate) fn graph_notation_text(alloc: Global) -> Result<Vec<u8>, NoMemory>
    ensures { IfOk result (λ text. text.items ≡ graph_notation_text) }
{
    begun(
        alloc,
        "\n## Notation\n\nA line of a constraint is a row of sets of labels, one for each edge of a node; `[AB]` is the set of `A` and `B`, and `A^2` stands for `A A`. Each choice of one label of each set is a configuration, and the lines of a constraint have all its configurations and no others.\n",
    )
}

/// The problem.
pub(crate) fn problem_block(alloc: Global, problem: &Problem) -> Result<Vec<u8>, NoMemory>
    ensures { IfOk result (λ text. text.items ≡ problem_text 0 problem.now) }
{
    let mut text = Vec::new(alloc);
    push_problem(&mut text, 0, problem)?;
    Ok(text)
}

/// Its active constraint.
pub(crate) fn active_block(alloc: Global, problem: &Problem) -> Result<Vec<u8>, NoMemory>
    ensures { IfOk result (λ text. SaysRows (codes "\nActive constraint") problem.now.names problem.now.active text.items) }
{
    let names = problem.names();
    let _labels = names.len();
    constraint_text(alloc, "\nActive constraint", names, problem.active())
}

/// The passive one.
pub(crate) fn passive_block(alloc: Global, problem: &Problem) -> Result<Vec<u8>, NoMemory>
    ensures { IfOk result (λ text. SaysRows (codes "\nPassive constraint") problem.now.names problem.now.passive text.items) }
{
    let names = problem.names();
    let _labels = names.len();
    constraint_text(alloc, "\nPassive constraint", names, problem.passive())
}

// The lines of the graph.
fn graph_bytes(alloc: Global, graph: &Graph) -> Result<Vec<u8>, NoMemory>
    ensures { IfOk result (λ text. text.items ≡ graph_text graph.now) }
{
    let mut text = Vec::new(alloc);
    push_graph(alloc, &mut text, graph)?;
    Ok(text)
}

// Its passive nodes.
fn ends_block(alloc: Global, graph: &Graph) -> Result<Vec<u8>, NoMemory>
    ensures { IfOk result (λ text. text.items ≡ codes "\nThe passive nodes, each with the ends at its ports, in order:\n" ++ lines_block (graph_text graph.now)) }
{
    let lines = graph_bytes(alloc, graph)?;
    let mut text = begun(
        alloc,
        "\nThe passive nodes, each with the ends at its ports, in order:\n",
    )?;
    push_lines_block(&mut text, lines.as_slice())?;
    Ok(text)
}

// Why no number of rounds is enough.
fn why_text(alloc: Global) -> Result<Vec<u8>, NoMemory>
    ensures { IfOk result (λ text. text.items ≡ why_text) }
{
    begun(
        alloc,
        "\n## Why\n\nA solution on the finite graph is a label for each port of each active node: those at an active node are a configuration of the active constraint, and those at the ends of a passive node one of the passive constraint, also where some of these ends are of the same active node. Suppose that an algorithm solves problem 0 in some number of rounds. With suitable port numbers the tree unfolds each connected part of the finite graph: each node of the tree stands over a node of the graph, and nodes over the same one see the same, however far they see, so they put out the same labels. These labels are a solution on the finite graph (`re_cover::graph_law`). But it has none, as a search through all labels shows; so no number of rounds is enough (`re_cover::no_solution_law`). Where nodes have identifiers or random bits, nodes over the same one may differ, and nothing is said of that here.\n",
    )
}

// How to check it.
fn graph_check_text(alloc: Global) -> Result<Vec<u8>, NoMemory>
    ensures { IfOk result (λ text. text.items ≡ graph_check_text) }
{
    begun(
        alloc,
        "\n## How to check it\n\nThat problem 0 is the problem that is meant is for the reader to see, and that each port of each active node stands once at the passive nodes. What has to be believed, or made again, is the search that found no solution on the finite graph. Any program can make it again, or `explore solve < FILE`, where FILE holds the problem, a line `== graph` and the lines of the passive nodes. This prints the line at the top of this report and ends with exit status 1. That it prints this line only where there is no solution, and no number of rounds is enough, is proved of its source by machine.\n",
    )
}

/// What a block says of a problem and a graph.
pub(crate) fn said_graph(
    alloc: Global,
    problem: &Problem,
    graph: &Graph,
    block: GraphBlock,
) -> Result<Vec<u8>, NoMemory>
    ensures { IfOk result (λ text. SaysGraph problem.now graph.now block text.items) }
{
    match block {
        GraphBlock::Title => begun(alloc, "# Report on a finite graph without a solution\n"),
        GraphBlock::Line => begun(
            alloc,
            "\n    no: no solution on this graph, so not solvable in any number of rounds\n",
        ),
        GraphBlock::Claim => claim_text(alloc, never()),
        GraphBlock::Model => {
            let degrees = problem.degrees();
            model_text(alloc, degrees.active, degrees.passive)
        }
        GraphBlock::Edges => graph_text(alloc, never()),
        GraphBlock::Notation => graph_notation_text(alloc),
        GraphBlock::Problem => problem_block(alloc, problem),
        GraphBlock::Active => active_block(alloc, problem),
        GraphBlock::Passive => passive_block(alloc, problem),
        GraphBlock::Nodes => nodes_text(alloc, graph),
        GraphBlock::Ends => ends_block(alloc, graph),
        GraphBlock::Why => why_text(alloc),
        GraphBlock::Check => graph_check_text(alloc),
    }
}

/// What the blocks say of a problem and a graph, in Markdown, one behind the other.
pub fn graph_markdown(
    alloc: Global,
    problem: &Problem,
    graph: &Graph,
    blocks: &[GraphBlock],
) -> Result<Vec<u8>, NoMemory>
    ensures { IfOk result (λ text. WritesGraph problem.now graph.now blocks.now text.items) }
{
    let mut text = Vec::new(alloc);
    for block in blocks {
        let words = said_graph(alloc, problem, graph, *block)?;
        text.extend_from_slice(words.as_slice())?;
    }
    Ok(text)
}

/// What the report says in front of the place of a picture.
pub(crate) fn graph_front(
    alloc: Global,
    problem: &Problem,
    graph: &Graph,
) -> Result<Vec<u8>, NoMemory>
    ensures { IfOk result (λ text. WritesGraph problem.now graph.now (graph_front_blocks problem.now.passive.degree) text.items) }
{
    let blocks = front_blocks(alloc, problem.degrees().passive)?;
    graph_markdown(alloc, problem, graph, blocks.as_slice())
}

/// What it says behind it.
pub(crate) fn graph_back(
    alloc: Global,
    problem: &Problem,
    graph: &Graph,
) -> Result<Vec<u8>, NoMemory>
    ensures { IfOk result (λ text. WritesGraph problem.now graph.now graph_back_blocks text.items) }
{
    let blocks = back_blocks(alloc)?;
    graph_markdown(alloc, problem, graph, blocks.as_slice())
}
