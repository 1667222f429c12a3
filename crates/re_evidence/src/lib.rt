//! What a claim on the number of rounds and a class say of a problem, and the words for them: with port numbers alone, given an input problem, and with
//! unique identifiers, also on finite forests. Two hops are one round of the graph whose edges the passive nodes are.
#![tactic(auto)]

mod claims;
mod colours;
mod lines;
mod types;

ghost use Rattle.re_evidence.specs.Colours.{OneConditionLaw};
ghost use Rattle.re_evidence.specs.GraphRounds.{GraphLaw, GraphRoundsLaw};

pub use claims::{bounded_class, is_final, most_of, within};
pub use colours::{colouring_of, few_colours};
pub use lines::{alone_text, push_claim, push_class, push_counted};
pub use types::{Claim, Class, Least, Most, Order};

/// What a claim in hops says in rounds of the graph whose edges the passive nodes are, two hops each: a problem that takes exactly k hops takes
/// exactly the half of k, rounded up; what isn't solvable in k or fewer hops isn't in the half of k or fewer, rounded down. So it is with port numbers
/// alone, and given an input problem.
pub fn graph_rounds_law()
    ensures { GraphRoundsLaw }
{}

/// What a verdict says in rounds of the graph whose edges the passive nodes are, as reports say it: two hops are one round. What isn't solvable in
/// k or fewer hops isn't in the half of k or fewer rounds, rounded down; what is solvable in k hops is in the half of k, rounded up.
pub fn graph_law()
    ensures { GraphLaw }
{}

/// To be solvable given few colours of the active nodes is the one condition: what is solvable given few colours of the passive nodes, which are edges
/// where they have two ends, or given both, is so too.
pub fn one_condition_law()
    ensures { OneConditionLaw }
{}
