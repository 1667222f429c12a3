//! What is found of a map between two problems.
use re_labels::{Config, Side};

/// Whether a map is what it is claimed to be, and else its first violation.
#[derive(Drop, Debug, PartialEq, Eq)]
pub enum MapVerdict {
    /// There is no violation.
    Yes,
    /// The degrees of the two problems don't fit.
    Degrees,
    /// The first label whose set is empty.
    Empty(u8),
    /// The first label that has the image of a lower label.
    Twice(u8),
    /// The first active configuration whose image isn't as it must be.
    Active(Config),
    /// The first passive configuration whose image isn't as it must be.
    Passive(Config),
    /// The first side, active before passive, on which the other problem has more configurations.
    Count(Side),
}
