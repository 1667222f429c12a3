//! The problems of an inner beam.
use re_changes::Changed;

/// A problem of an inner beam: what changes have made of a derived problem, the number that tells it from others, and its rank: those of
/// the least ranks stay.
#[derive(Drop)]
pub(crate) struct State {
    /// What changes have made.
    pub made: Changed,
    /// The number that tells it from others.
    pub mark: u64,
    /// The rank.
    pub rank: u64,
}

/// Whether one of the problems has this number.
pub(crate) fn has_mark(states: &[State], mark: u64) -> bool {
    for state in states {
        if state.mark == mark {
            return true;
        }
    }
    false
}
