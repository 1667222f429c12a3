//! Why the last problem of a chain can't be shaped so.
ghost use Rattle.std.specs.Prelude.{◌≡◌};

use re_labels::NoMemory;
use re_step::StepLimit;

/// Why a change of the last problem of a chain is refused.
#[derive(Clone, Copy, Debug, PartialEq, Eq)]
pub enum Refusal {
    /// The chain isn't of lower steps.
    NotLower,
    /// The chain isn't of upper steps.
    NotUpper,
    /// The chain has no step.
    NoStep,
    /// This is no label of the last problem.
    NotALabel(u8),
    /// The two labels are one.
    Same,
    /// The name is that of another label.
    Taken,
}

/// Why a change of a chain gives none.
#[derive(Clone, Copy, Debug, PartialEq, Eq)]
pub enum ChainFault {
    /// It is refused.
    Refused(Refusal),
    /// There was no memory.
    NoMemory,
}

impl From<NoMemory> for ChainFault {
    ghost use Rattle.re_shaping.specs.declared.refusal.ChainFault.TheVariants.{NoMemory as no_memory};

    ghost from_gives = { λ _ e. e ≡ no_memory };

    fn from(_: NoMemory) -> Self {
        ChainFault::NoMemory
    }
}

/// Why labels of a chain aren't merged.
#[derive(Clone, Copy, Debug, PartialEq, Eq)]
pub enum MergeFault {
    /// It is refused.
    Refused(Refusal),
    /// The step to the derived problem of the merged first problem passes this limit.
    Limit(StepLimit),
    /// There was no memory.
    NoMemory,
}
