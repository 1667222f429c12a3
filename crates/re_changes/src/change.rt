//! Changes of a problem that leave it fewer labels.
ghost use Rattle.re_changes.specs.Changes.{IsChange, all_changes, all_left_out, all_merges, changed_by, unchanged};
ghost use Rattle.std.specs.Prelude.{◌≡◌, ◌≤◌, IfOk, length};

use crate::changing::{left_out, merged};
use arrayvec::ArrayVec;
use re_labels::{MAX_LABELS, NoMemory};
use re_problem::Problem;
use std::alloc::Global;
use std::marker::Model;

/// A change that leaves a problem fewer labels.
#[derive(Clone, Copy, Debug, PartialEq, Eq)]
pub enum Change {
    /// The first label, the lower one, comes in place of the second one in every configuration.
    Merge(u8, u8),
    /// The configurations that hold the label go, and with them each label that stands in no configuration any more.
    LeaveOut(u8),
}

/// What changes one after another have made of a problem. Contracts see the problem that is left, and for each label of the
/// first problem the label that it has become, if it is left.
#[derive(Drop)]
pub struct Changed {
    pub(crate) problem: Problem,
    pub(crate) images: ArrayVec<Option<u8>, 128>,
}

impl Model for Changed {
    ghost use Rattle.re_changes.specs.Changes.{Changed as Outcome};

    ghost Value = { Outcome };

    ghost view = { λ c. record { problem = c.problem; images = c.images.items } };
}

// All pairs of labels below the number, the lower one first, in order.
fn all_merges(alloc: Global, labels: u8) -> Result<Vec<Change>, NoMemory>
    ensures { IfOk result (λ changes. changes.items ≡ all_merges labels) }
{
    let mut changes = Vec::new(alloc);
    for low in 0..labels {
        for high in low + 1..labels {
            changes.push(Change::Merge(low, high))?;
        }
    }
    Ok(changes)
}

// Each label below the number.
fn all_left_out(alloc: Global, labels: u8) -> Result<Vec<Change>, NoMemory>
    ensures { IfOk result (λ changes. changes.items ≡ all_left_out labels) }
{
    let mut changes = Vec::new(alloc);
    for label in 0..labels {
        changes.push(Change::LeaveOut(label))?;
    }
    Ok(changes)
}

/// The changes of a problem of so many labels, in order: its merges, or its labels to leave out.
pub fn changes_of(alloc: Global, merges: bool, labels: u8) -> Result<Vec<Change>, NoMemory>
    ensures { IfOk result (λ changes. changes.items ≡ all_changes merges labels) }
{
    if merges {
        all_merges(alloc, labels)
    } else {
        all_left_out(alloc, labels)
    }
}

impl Changed {
    /// What no change makes of a problem.
    pub fn unchanged(problem: Problem) -> Changed
        ensures { result ≡ unchanged problem }
    {
        let mut images = ArrayVec::new();
        for label in 0..problem.names().len() as u8 {
            images.push(Some(label));
        }
        Changed { problem, images }
    }

    /// The problem that is left.
    pub fn problem(&self) -> &Problem
        ensures { result.now ≡ self.now.problem }
    {
        &self.problem
    }

    /// For each label of the first problem the label that it has become, if it is left.
    pub fn images(&self) -> &[Option<u8>]
        ensures images { result.now ≡ self.now.images }
        ensures few { length self.now.images ≤ MAX_LABELS }
    {
        self.images.as_slice()
    }

    /// What one change more makes. It sorts the images of all configurations.
    pub fn changed(&self, alloc: Global, change: Change) -> Result<Changed, NoMemory>
        requires { IsChange (length self.now.problem.names) change }
        ensures { IfOk result (λ next. next ≡ changed_by change self.now) }
    {
        match change {
            Change::Merge(low, high) => merged(alloc, self, low, high),
            Change::LeaveOut(label) => left_out(alloc, self, label),
        }
    }
}
