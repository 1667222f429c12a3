//! Levels of labels of a problem, each flexible within the one below it: how many there are, or a flexible set, which gives them without end. And the
//! greatest trimmed set.
#![tactic(auto)]

ghost use Rattle.re_flexible.specs.Lengths.{EndlessLaw, FewLevelsLaw, OneFirstLaw};

mod levels;
mod tables;
mod together;
mod trimming;
mod walking;

pub use levels::{Flexibility, find_flexible, flexibility_of, is_flexible};
pub use trimming::trimmed;

/// A flexible set gives any number of levels, and no other problem has more levels than labels.
pub fn endless_law()
    ensures { EndlessLaw }
{}

/// There is no level exactly where no trimmed set has a label, and one exactly where some has and there aren't two.
pub fn few_levels_law()
    ensures { FewLevelsLaw }
{}

/// Only one set is the greatest flexible one with the least of all labels that flexible sets have.
pub fn one_first_law()
    ensures { OneFirstLaw }
{}
