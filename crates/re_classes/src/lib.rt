//! Classes of problems, with identifiers and with random strings, and what identifiers help in few rounds: laws alone, no code.
#![tactic(auto)]

mod few_rounds;
mod random;

ghost use Rattle.re_classes.specs.Examples.{PathColouringLaw, SinklessClassLaw};
ghost use Rattle.re_classes.specs.Laws.{AboveLogStarLaw, BelowLogStarLaw, ConstantLaw, MoreThanConstantLaw, OrderLogStarLaw};
ghost use Rattle.re_classes.specs.Laws.{ApartLaw, NothingBetweenLaw, WeakerLaw};

pub use few_rounds::{
    any_identifiers_law, beyond_local_law, beyond_ports_law, coloured_gap_law,
    coloured_pairs_gap_law, few_labels_law, gap_law, graph_gap_law, identifiers_no_use_law,
    no_solution_local_law, one_number_law, ports_are_enough_law, tower_law, unavoidable_gap_law,
    unavoidable_rounds_law,
};
pub use random::{
    certain_identified_law, certain_law, derandomised_identified_law, derandomised_law,
    drawn_colour_law, fewer_names_law, identified_constant_law, identified_gap_law,
    identified_randomness_law, randomised_constant_law, randomised_gap_law,
    randomised_identified_law, randomised_law, sinkless_random_law, unnoticed_names_law,
};

/// A problem takes a constant number of rounds with unique identifiers exactly where some number is enough with port numbers alone.
pub fn constant_law()
    ensures { ConstantLaw }
{}

/// And more than any constant exactly where none is.
pub fn more_than_constant_law()
    ensures { MoreThanConstantLaw }
{}

/// It then takes at least log* N rounds, less a constant.
pub fn above_log_star_law()
    ensures { AboveLogStarLaw }
{}

/// What is solvable given a proper colouring with one colour more than a node has neighbours takes at most the order of log* N rounds.
pub fn below_log_star_law()
    ensures { BelowLogStarLaw }
{}

/// What is solvable given so few colours, but in no number of rounds with port numbers alone, takes the order of log* N rounds.
pub fn order_log_star_law()
    ensures { OrderLogStarLaw }
{}

/// Nothing lies between: what doesn't take a constant number of rounds takes more than any constant, and at least log* N rounds, less a constant.
pub fn nothing_between_law()
    ensures { NothingBetweenLaw }
{}

/// What takes the order of log N rounds at least takes log* N less a constant at least, what takes so many takes more than any constant, and what
/// takes a constant number takes the order of log* N at most.
pub fn weaker_law()
    ensures { WeakerLaw }
{}

/// No problem takes a constant number of rounds and more than any constant, nor at most the order of log* N rounds and at least that of log N.
pub fn apart_law()
    ensures { ApartLaw }
{}

/// To colour the nodes of paths properly with 3 colours takes the order of log* N rounds: no number of rounds is enough with port numbers alone,
/// since a node both of whose edges lead to one passive node can't be coloured.
pub fn path_colouring_law()
    ensures { PathColouringLaw }
{}

/// The relaxation of sinkless orientation (`I I O` / `I I`, `I O`) takes at least the order of log N rounds.
pub fn sinkless_class_law()
    ensures { SinklessClassLaw }
{}
