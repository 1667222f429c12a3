//! The blocks of a report on a graph with a solution of an input problem on which a problem has none.
ghost use Rattle.re_describe.specs.LabelledReports.{labelled_back_blocks, labelled_edge_blocks, labelled_front_blocks};
ghost use Rattle.re_describe.specs.declared.labelled_blocks.LabelledBlock.TheVariants as labelled;
ghost use Rattle.std.specs.Prelude.{◌≡◌, ◌++◌, IfOk, OnOk, map};

use crate::graph_blocks::{GraphBlock, push_subject};
use re_labels::NoMemory;
use std::alloc::Global;

/// A block of a report on a graph with a solution of an input problem on which a problem has none.
#[derive(Clone, Copy, Debug, PartialEq, Eq)]
pub enum LabelledBlock {
    /// The title.
    Title,
    /// The line of `solve`.
    Line,
    /// What that says of the problem.
    Claim,
    /// Where algorithms run, what a node knows, and what a round is.
    Model,
    /// The claim in rounds of the graph whose edges the passive nodes are.
    Edges,
    /// The input problem: its title, what a solution is where it has a name, and its numbers.
    Input,
    /// Its active constraint, in few rows.
    InputActive,
    /// Its passive constraint, in few rows.
    InputPassive,
    /// A block of a report on the problem and the graph.
    Of(GraphBlock),
    /// The labels of the input problem on the graph.
    Labels,
    /// Why no number of rounds is enough.
    Why,
    /// How to check it.
    Check,
}

fn push_edges(blocks: &mut Vec<LabelledBlock>, passive: u8) -> Result<(), NoMemory>
    ensures { OnOk result (blocks.new.items ≡ blocks.old.items ++ labelled_edge_blocks passive) }
{
    if passive == 2 {
        return Ok(blocks.push(LabelledBlock::Edges)?);
    }
    Ok(())
}

// Each of these blocks, as one of this report.
fn push_of(blocks: &mut Vec<LabelledBlock>, others: &[GraphBlock]) -> Result<(), NoMemory>
    ensures { OnOk result (blocks.new.items ≡ blocks.old.items ++ map labelled.Of others.now) }
{
    for block in others {
        blocks.push(LabelledBlock::Of(*block))?;
    }
    Ok(())
}

/// What stands in front of the place of a picture, where passive nodes have this degree.
pub(crate) fn labelled_front_blocks(
    alloc: Global,
    passive: u8,
) -> Result<Vec<LabelledBlock>, NoMemory>
    ensures { IfOk result (λ blocks. blocks.items ≡ labelled_front_blocks passive) }
{
    let mut subject = Vec::new(alloc);
    push_subject(&mut subject)?;
    let mut blocks = Vec::new(alloc);
    blocks.push(LabelledBlock::Title)?;
    blocks.push(LabelledBlock::Line)?;
    blocks.push(LabelledBlock::Claim)?;
    blocks.push(LabelledBlock::Model)?;
    push_edges(&mut blocks, passive)?;
    blocks.push(LabelledBlock::Input)?;
    blocks.push(LabelledBlock::InputActive)?;
    blocks.push(LabelledBlock::InputPassive)?;
    push_of(&mut blocks, subject.as_slice())?;
    blocks.push(LabelledBlock::Labels)?;
    Ok(blocks)
}

/// What stands behind it.
pub(crate) fn labelled_back_blocks(alloc: Global) -> Result<Vec<LabelledBlock>, NoMemory>
    ensures { IfOk result (λ blocks. blocks.items ≡ labelled_back_blocks) }
{
    let mut blocks = Vec::new(alloc);
    blocks.push(LabelledBlock::Why)?;
    blocks.push(LabelledBlock::Check)?;
    Ok(blocks)
}
