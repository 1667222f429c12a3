//! What the calls of this crate answer.
ghost use Rattle.std.specs.Prelude.{◌≡◌};

use re_cert::{Certificate, SetEntry};
use re_labels::{LabelSet, NoMemory, Row};
use std::alloc::AllocError;

/// What the closure of the last problem of a chain comes to.
#[derive(Drop)]
pub enum Closing {
    /// The certificate that goes on from the chain to the closure and back.
    Found(Certificate),
    /// The last problem is solvable without communication: the place of its first active configuration that shows it.
    Solvable(usize),
    /// The closure is solvable without communication: the right-closed sets of the labels of its first active configuration that shows
    /// it. This says nothing of the problem.
    SolvableClosure(Vec<LabelSet>),
}

/// The rows of a step, and the label of the next problem to which each of their sets goes.
#[derive(Drop)]
pub(crate) struct StepMap {
    /// The maximal rows, in order.
    pub(crate) rows: Vec<Row>,
    /// For each of their sets its label, in the order of the numbers of the sets.
    pub(crate) entries: Vec<SetEntry>,
}

/// What the closure of a problem has too many of, in the order in which it is told, but `Steps`, which comes first.
#[derive(Clone, Copy, Debug, PartialEq, Eq)]
pub enum ClosureLimit {
    /// More than `re_labels::MAX_ROWS` lines of one side, of which none dominates another, that come together on the way to the closure; with a
    /// diagram also so many maximal rows of the last problem, told before all of the closure.
    Rows,
    /// More than `re_closure::MAX_COMBINATIONS` combinations of lines of one side that wait, or have to be looked at, on the way.
    Combinations,
    /// More than `re_labels::MAX_LABELS` labels, and how many.
    Labels(usize),
    /// More than `re_labels::MAX_CONFIGURATIONS` configurations of one side; with a diagram also so many passive ones of the raised problem, told
    /// before its rows.
    Configurations,
    /// More than `re_cert::MAX_STEPS` steps, with those of the chain.
    Steps,
}

/// Why there is no answer.
#[derive(Clone, Copy, Debug, PartialEq, Eq)]
pub enum ClosureFault {
    /// The closure passes this limit.
    Limit(ClosureLimit),
    /// There was no memory.
    NoMemory,
}

impl From<NoMemory> for ClosureFault {
    ghost use Rattle.re_closure.specs.declared.types.ClosureFault.TheVariants.{NoMemory as no_memory};

    ghost from_gives = { λ _ e. e ≡ no_memory };

    fn from(_: NoMemory) -> Self {
        ClosureFault::NoMemory
    }
}

impl From<AllocError> for ClosureFault {
    ghost use Rattle.re_closure.specs.declared.types.ClosureFault.TheVariants.{NoMemory as no_memory};

    ghost from_gives = { λ _ e. e ≡ no_memory };

    fn from(_: AllocError) -> Self {
        ClosureFault::NoMemory
    }
}
