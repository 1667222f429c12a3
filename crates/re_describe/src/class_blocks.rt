//! The blocks of a report on evidence.
ghost use Rattle.re_describe.specs.ClassReports.{class_blocks};
ghost use Rattle.std.specs.Prelude.{◌≡◌, IfOk};

use re_labels::NoMemory;
use std::alloc::Global;

/// A block of a report on evidence of several parts.
#[derive(Clone, Copy, Debug, PartialEq, Eq)]
pub enum ClassBlock {
    /// The title.
    Title,
    /// The lines of `judge`.
    Lines,
    /// Where algorithms run, and what a round is.
    Model,
    /// Where algorithms with identifiers run.
    Forests,
    /// How constraints are written.
    Notation,
    /// The problem: its title, and its numbers.
    Problem,
    /// Its active constraint, in few rows.
    Active,
    /// Its passive constraint, in few rows.
    Passive,
    /// The parts, and what each of them shows.
    Parts,
    /// How to check it.
    Check,
}

/// All of them, in order.
pub(crate) fn class_blocks(alloc: Global) -> Result<Vec<ClassBlock>, NoMemory>
    ensures { IfOk result (λ blocks. blocks.items ≡ class_blocks) }
{
    let mut blocks = Vec::new(alloc);
    blocks.push(ClassBlock::Title)?;
    blocks.push(ClassBlock::Lines)?;
    blocks.push(ClassBlock::Model)?;
    blocks.push(ClassBlock::Forests)?;
    blocks.push(ClassBlock::Notation)?;
    blocks.push(ClassBlock::Problem)?;
    blocks.push(ClassBlock::Active)?;
    blocks.push(ClassBlock::Passive)?;
    blocks.push(ClassBlock::Parts)?;
    blocks.push(ClassBlock::Check)?;
    Ok(blocks)
}
