//! What the searches come to.
use re_cert::Certificate;

/// The most relaxations that may be looked at.
pub const MAX_RELAXATIONS: u32 = 1_000_000;

/// What the search for a fixed point behind relaxations comes to.
#[derive(Drop)]
pub enum Relaxed {
    /// The certificate of a fixed point, which goes on from the given chain.
    Found(Certificate),
    /// The chain's last problem is solvable without communication: the place of its first active configuration that shows it.
    Solvable(usize),
    /// There is none among the relaxations that were looked at: how many these were, and how many of them passed a limit.
    NotFound {
        /// How many relaxations.
        nodes: u32,
        /// How many passed a limit.
        cut: u32,
    },
    /// None was found among the most relaxations that may be looked at.
    TooMany,
}

/// What one relaxation comes to.
#[derive(Drop)]
pub(crate) enum Tried {
    /// A certificate of kind fixed that begins with the chain.
    Found(Certificate),
    /// The closure is solvable without communication, so that a derived problem more may have another one.
    Open,
    /// A limit was passed.
    Cut,
    /// There is none.
    Missing,
}
