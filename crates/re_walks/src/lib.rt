//! Walks over lists of labels: what a walk comes to, the list to try next, labels that begin a configuration, and the entries of the first sets.
#![tactic(auto)]

mod begun;
mod entries;
mod following;

ghost use Rattle.re_walks.specs.Laws.{WalkLaw};

pub use begun::is_begun;
pub use entries::entries_for;
pub use following::follow;

/// A walk finds the first assignment in lexicographic order that passes, or tells that none passes, where the beginnings of each one
/// that passes do, too.
pub fn walk_law()
    ensures { WalkLaw }
{}
