//! The blocks of a report on a graph without a solution.
ghost use Rattle.re_describe.specs.GraphReports.{edge_blocks, graph_back_blocks, graph_front_blocks, subject_blocks};
ghost use Rattle.std.specs.Prelude.{◌≡◌, ◌++◌, IfOk, OnOk};

use re_labels::NoMemory;
use std::alloc::Global;

/// A block of a report on a graph on which a problem has no solution.
#[derive(Clone, Copy, Debug, PartialEq, Eq)]
pub enum GraphBlock {
    /// The title.
    Title,
    /// The line of `solve`.
    Line,
    /// What that says of the problem.
    Claim,
    /// Where algorithms run, and what a round is.
    Model,
    /// The claim in rounds of the graph whose edges the passive nodes are.
    Edges,
    /// How constraints are written.
    Notation,
    /// The problem: its title, and its numbers.
    Problem,
    /// Its active constraint, in few rows.
    Active,
    /// Its passive constraint, in few rows.
    Passive,
    /// The graph: its numbers, and what stands behind the ports of its active nodes.
    Nodes,
    /// The ends of active nodes at its passive nodes.
    Ends,
    /// Why no number of rounds is enough.
    Why,
    /// How to check it.
    Check,
}

/// The blocks of the problem and the graph.
pub(crate) fn push_subject(blocks: &mut Vec<GraphBlock>) -> Result<(), NoMemory>
    ensures { OnOk result (blocks.new.items ≡ blocks.old.items ++ subject_blocks) }
{
    blocks.push(GraphBlock::Notation)?;
    blocks.push(GraphBlock::Problem)?;
    blocks.push(GraphBlock::Active)?;
    blocks.push(GraphBlock::Passive)?;
    blocks.push(GraphBlock::Nodes)?;
    Ok(blocks.push(GraphBlock::Ends)?)
}

fn push_edges(blocks: &mut Vec<GraphBlock>, passive: u8) -> Result<(), NoMemory>
    ensures { OnOk result (blocks.new.items ≡ blocks.old.items ++ edge_blocks passive) }
{
    if passive == 2 {
        return Ok(blocks.push(GraphBlock::Edges)?);
    }
    Ok(())
}

/// What stands in front of the place of a picture: the title, the line of `solve`, the claim, the model, the problem and the graph, where
/// passive nodes have this degree.
pub(crate) fn front_blocks(alloc: Global, passive: u8) -> Result<Vec<GraphBlock>, NoMemory>
    ensures { IfOk result (λ blocks. blocks.items ≡ graph_front_blocks passive) }
{
    let mut blocks = Vec::new(alloc);
    blocks.push(GraphBlock::Title)?;
    blocks.push(GraphBlock::Line)?;
    blocks.push(GraphBlock::Claim)?;
    blocks.push(GraphBlock::Model)?;
    push_edges(&mut blocks, passive)?;
    push_subject(&mut blocks)?;
    Ok(blocks)
}

/// What stands behind it: why this follows, and how to check it.
pub(crate) fn back_blocks(alloc: Global) -> Result<Vec<GraphBlock>, NoMemory>
    ensures { IfOk result (λ blocks. blocks.items ≡ graph_back_blocks) }
{
    let mut blocks = Vec::new(alloc);
    blocks.push(GraphBlock::Why)?;
    blocks.push(GraphBlock::Check)?;
    Ok(blocks)
}
