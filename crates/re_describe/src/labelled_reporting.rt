//! The whole report on a graph with a solution of an input problem, block by block.
ghost use Rattle.re_describe.specs.LabelledReports.{SaysLabelled, WritesLabelled, labelled_back_blocks, labelled_check_text, labelled_front_blocks, labelled_why_text, labels_line};
ghost use Rattle.std.specs.Prelude.{◌≡◌, ◌++◌, IfOk, OnOk, codes, flat_map};

use crate::given_heads::{given_claim, given_graph_claim, given_model};
use crate::given_reporting::{input_active, input_passive};
use crate::graph_reporting::said_graph;
use crate::input_names::input_text;
use crate::labelled_blocks::{LabelledBlock, labelled_back_blocks, labelled_front_blocks};
use crate::pieces::push_image;
use re_cert::Kind;
use re_frame::{begun, push_words};
use re_graph_words::GivenGraph;
use re_labels::{Names, NoMemory, PortLabels};
use std::alloc::Global;

// Appends the input labels of a node, as a line that stands as it is.
fn push_labels_line(text: &mut Vec<u8>, names: &Names, own: &[u8]) -> Result<(), NoMemory>
    ensures { OnOk result (text.new.items ≡ text.old.items ++ labels_line names.now own.now) }
{
    push_words(text, "   ")?;
    push_image(text, names, &[], own)?;
    push_words(text, "\n")
}

// Appends those of all nodes.
fn push_labels(text: &mut Vec<u8>, names: &Names, labels: &[PortLabels]) -> Result<(), NoMemory>
    ensures { OnOk result (text.new.items ≡ text.old.items ++ flat_map (labels_line names.now) labels.now) }
{
    for own in labels {
        push_labels_line(text, names, own.labels())?;
    }
    Ok(())
}

// The input labels.
fn labels_block(alloc: Global, names: &Names, labels: &[PortLabels]) -> Result<Vec<u8>, NoMemory>
    ensures { IfOk result (λ text. text.items
        ≡ codes "\nThe input labels at the active nodes, a line for each node, in the order of its ports:\n\n" ++ flat_map (labels_line names.now) labels.now) }
{
    let mut text = begun(
        alloc,
        "\nThe input labels at the active nodes, a line for each node, in the order of its ports:\n\n",
    )?;
    push_labels(&mut text, names, labels)?;
    Ok(text)
}

// Why no number of rounds is enough.
fn why_text(alloc: Global) -> Result<Vec<u8>, NoMemory>
    ensures { IfOk result (λ text. text.items ≡ labelled_why_text) }
{
    begun(
        alloc,
        "\n## Why\n\nA solution on the finite graph is a label for each port of each active node: those at an active node are a configuration of the active constraint, and those at the ends of a passive node one of the passive constraint, also where some of these ends are of the same active node. The input labels are such a solution of the input problem. Suppose that an algorithm solves problem 0 in some number of rounds given a solution of the input problem. With suitable port numbers the tree unfolds each connected part of the finite graph: each node of the tree stands over a node of the graph, and its edges have the input labels of that node's, which are a solution of the input problem on the tree, too. So nodes over the same one see the same, however far they see, and put out the same labels. These labels are a solution of problem 0 on the finite graph (`re_cover::given_graph_law`). But it has none, as a search through all labels shows; so no number of rounds is enough given a solution of the input problem (`re_cover::no_solution_given_law`). Where nodes have identifiers or random bits, nodes over the same one may differ, and nothing is said of that here.\n",
    )
}

// How to check it.
fn check_text(alloc: Global) -> Result<Vec<u8>, NoMemory>
    ensures { IfOk result (λ text. text.items ≡ labelled_check_text) }
{
    begun(
        alloc,
        "\n## How to check it\n\nThat problem 0 and the input problem are those that are meant is for the reader to see, that each port of each active node stands once at the passive nodes, and that the input labels are a solution of the input problem on the finite graph. What has to be believed, or made again, is the search that found no solution of problem 0 on it. Any program can make it again, or `explore solve < FILE`, where FILE holds the problem, a line `== given`, the input problem, a line `== graph`, the lines of the passive nodes, a line `== labels` and the lines of the input labels. This prints the line at the top of this report and ends with exit status 1. That it prints this line only where there is no solution, and no number of rounds is enough given a solution of the input problem, is proved of its source by machine.\n",
    )
}

// What a block says of the two problems, the graph and the labels.
fn said_labelled(
    alloc: Global,
    given: &GivenGraph,
    labels: &[PortLabels],
    block: LabelledBlock,
) -> Result<Vec<u8>, NoMemory>
    ensures { IfOk result (λ text. SaysLabelled (record { given = given.now; labels = labels.now }) block text.items) }
{
    let degrees = given.problem.degrees();
    match block {
        LabelledBlock::Title => begun(
            alloc,
            "# Report on a finite graph without a solution, given a solution of an input problem\n",
        ),
        LabelledBlock::Line => begun(
            alloc,
            "\n    no: no solution on this graph, so not solvable in any number of rounds given that input\n",
        ),
        LabelledBlock::Claim => given_claim(alloc, true, Kind::Fixed, 0),
        LabelledBlock::Model => given_model(alloc, degrees.active, degrees.passive),
        LabelledBlock::Edges => given_graph_claim(alloc, true, Kind::Fixed, 0),
        LabelledBlock::Input => input_text(alloc, &given.input),
        LabelledBlock::InputActive => input_active(alloc, &given.input),
        LabelledBlock::InputPassive => input_passive(alloc, &given.input),
        LabelledBlock::Of(block) => said_graph(alloc, &given.problem, &given.graph, block),
        LabelledBlock::Labels => labels_block(alloc, given.input.names(), labels),
        LabelledBlock::Why => why_text(alloc),
        LabelledBlock::Check => check_text(alloc),
    }
}

/// What the blocks say of the two problems, the graph and the labels, in Markdown, one behind the other.
pub fn labelled_markdown(
    alloc: Global,
    given: &GivenGraph,
    labels: &[PortLabels],
    blocks: &[LabelledBlock],
) -> Result<Vec<u8>, NoMemory>
    ensures { IfOk result (λ text. WritesLabelled (record { given = given.now; labels = labels.now }) blocks.now text.items) }
{
    let mut text = Vec::new(alloc);
    for block in blocks {
        let words = said_labelled(alloc, given, labels, *block)?;
        text.extend_from_slice(words.as_slice())?;
    }
    Ok(text)
}

/// What the report says in front of the place of a picture.
pub(crate) fn labelled_front(
    alloc: Global,
    given: &GivenGraph,
    labels: &[PortLabels],
) -> Result<Vec<u8>, NoMemory>
    ensures { IfOk result (λ text. WritesLabelled (record { given = given.now; labels = labels.now }) (labelled_front_blocks given.now.problem.passive.degree) text.items) }
{
    let blocks = labelled_front_blocks(alloc, given.problem.degrees().passive)?;
    labelled_markdown(alloc, given, labels, blocks.as_slice())
}

/// What it says behind it.
pub(crate) fn labelled_back(
    alloc: Global,
    given: &GivenGraph,
    labels: &[PortLabels],
) -> Result<Vec<u8>, NoMemory>
    ensures { IfOk result (λ text. WritesLabelled (record { given = given.now; labels = labels.now }) labelled_back_blocks text.items) }
{
    let blocks = labelled_back_blocks(alloc)?;
    labelled_markdown(alloc, given, labels, blocks.as_slice())
}
