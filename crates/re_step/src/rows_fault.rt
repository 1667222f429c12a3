//! The maximal rows of a constraint: the label sets that a half step of round elimination makes.

/// Why the maximal rows of a constraint were not listed.
#[derive(Clone, Copy, Debug, PartialEq, Eq)]
pub enum RowsFault {
    /// There are more than `re_labels::MAX_ROWS`.
    TooManyRows,
    /// There was no memory for the list.
    NoMemory,
}
