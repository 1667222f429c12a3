//! Why a search stops, and its tries.
use re_labels::NoMemory;
use std::alloc::{AllocError, AllocFailed};

/// Why a search stops before it tells.
#[derive(Clone, Copy, Debug, PartialEq, Eq)]
pub(crate) enum TryFault {
    /// It has no try left.
    TooMany,
    /// There was no memory.
    NoMemory,
}

impl From<NoMemory> for TryFault {
    fn from(_: NoMemory) -> TryFault {
        TryFault::NoMemory
    }
}

impl From<AllocError> for TryFault {
    fn from(_: AllocError) -> TryFault {
        TryFault::NoMemory
    }
}

impl<T: Drop> From<AllocFailed<T>> for TryFault {
    fn from(_: AllocFailed<T>) -> TryFault {
        TryFault::NoMemory
    }
}

/// Takes one of the tries.
pub(crate) fn spend(tries: &mut usize) -> Result<(), TryFault> {
    if *tries == 0 {
        return Err(TryFault::TooMany);
    }
    *tries -= 1;
    Ok(())
}
