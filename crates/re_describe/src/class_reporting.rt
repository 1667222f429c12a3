//! The whole report on evidence, block by block.
ghost use Rattle.re_describe.specs.ClassReports.{IsClassMarkdown, SaysClass, class_check_text, forests_text};
ghost use Rattle.re_describe.specs.GivenHeads.{lines_block};
ghost use Rattle.re_describe.specs.Writing.{WritesBy};
ghost use Rattle.re_frame.specs.Outcomes.{outcome_of};
ghost use Rattle.std.specs.Prelude.{◌≡◌, ◌≤◌, IfOk, length};

use crate::class_blocks::{ClassBlock, class_blocks};
use crate::class_parts::said_parts;
use crate::given_heads::push_lines_block;
use crate::graph_reporting::{active_block, graph_notation_text, passive_block, problem_block};
use crate::reporting::model_text;
use re_frame::{Output, begun};
use re_io::MAX_BYTES;
use re_labels::NoMemory;
use re_problem::Problem;
use std::alloc::Global;

// The lines of `judge`.
fn lines_text(alloc: Global, told: &Output) -> Result<Vec<u8>, NoMemory>
    ensures { IfOk result (λ text. text.items ≡ lines_block told.now.text.items) }
{
    let mut text = Vec::new(alloc);
    push_lines_block(&mut text, told.text.as_slice())?;
    Ok(text)
}

// Where algorithms with identifiers run.
fn forests_text(alloc: Global) -> Result<Vec<u8>, NoMemory>
    ensures { IfOk result (λ text. text.items ≡ forests_text) }
{
    begun(
        alloc,
        "\nWhat is said with identifiers is said of finite forests of $N$ nodes, whose identifiers are the numbers below $N$, as $N$ grows; nodes that lack neighbours may have any labels. Numbers of rounds are those on the tree: on forests one round more may be needed, and one fewer may be enough.\n",
    )
}

// How to check it.
fn class_check_text(alloc: Global) -> Result<Vec<u8>, NoMemory>
    ensures { IfOk result (λ text. text.items ≡ class_check_text) }
{
    begun(
        alloc,
        "\n## How to check it\n\nThat problem 0 is the problem that is meant is for the reader to see. The parts are judged by `explore judge < FILE`, where FILE holds them, with a line `=====` between two of them: it prints the lines at the top of this report and ends with exit status 0. `explore describe` gives a report on each part that is a certificate or a graph. That `explore judge` takes a part only where it shows what is said here, and prints only lines that are true of problem 0, is proved of its source by machine (`re_judging::judge_law`).\n",
    )
}

/// What a block says of evidence on this problem, of which `judge` answers this.
pub(crate) fn said_class(
    alloc: Global,
    bytes: &[u8],
    problem: &Problem,
    told: &Output,
    block: ClassBlock,
) -> Result<Vec<u8>, NoMemory>
    requires { length bytes.now ≤ MAX_BYTES }
    ensures { IfOk result (λ text. SaysClass bytes.now problem.now (outcome_of told.now) block text.items) }
{
    match block {
        ClassBlock::Title => begun(alloc, "# Report on evidence\n"),
        ClassBlock::Lines => lines_text(alloc, told),
        ClassBlock::Model => {
            let degrees = problem.degrees();
            model_text(alloc, degrees.active, degrees.passive)
        }
        ClassBlock::Forests => forests_text(alloc),
        ClassBlock::Notation => graph_notation_text(alloc),
        ClassBlock::Problem => problem_block(alloc, problem),
        ClassBlock::Active => active_block(alloc, problem),
        ClassBlock::Passive => passive_block(alloc, problem),
        ClassBlock::Parts => said_parts(alloc, 15, 1, bytes),
        ClassBlock::Check => class_check_text(alloc),
    }
}

/// What the blocks say of the evidence, in Markdown, one behind the other.
pub fn class_markdown(
    alloc: Global,
    bytes: &[u8],
    problem: &Problem,
    told: &Output,
    blocks: &[ClassBlock],
) -> Result<Vec<u8>, NoMemory>
    requires { length bytes.now ≤ MAX_BYTES }
    ensures { IfOk result (λ text. WritesBy (SaysClass bytes.now problem.now (outcome_of told.now)) blocks.now text.items) }
{
    let mut text = Vec::new(alloc);
    for block in blocks {
        let words = said_class(alloc, bytes, problem, told, *block)?;
        text.extend_from_slice(words.as_slice())?;
    }
    Ok(text)
}

/// The report on the evidence, in Markdown.
pub(crate) fn class_report(
    alloc: Global,
    bytes: &[u8],
    problem: &Problem,
    told: &Output,
) -> Result<Vec<u8>, NoMemory>
    requires { length bytes.now ≤ MAX_BYTES }
    ensures { IfOk result (λ text. IsClassMarkdown bytes.now problem.now (outcome_of told.now) text.items) }
{
    let blocks = class_blocks(alloc)?;
    class_markdown(alloc, bytes, problem, told, blocks.as_slice())
}
