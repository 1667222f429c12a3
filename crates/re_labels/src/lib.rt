//! Labels: sides of a tree, sets and names of labels; configurations of labels, rows of sets, and the orders of their places;
//! constraints, their good rows, and the laws of the maximal ones.
#![tactic(auto)]

ghost use Rattle.re_labels.specs.Closure.{ClosureLaw, DominationLaw};
ghost use Rattle.re_labels.specs.Laws.{AllowedLaw, MaxSetsLaw, MaximalLaw, StrengthOrderLaw, TestLaw, UpSetLaw};

mod branches;
mod choosing;
mod configuration;
mod configuration_laws;
mod configurations;
mod constraint_table;
mod domination;
mod drawing;
mod good_rows;
mod label_set;
mod listing;
mod memory;
mod name_list;
mod naming;
mod permutations;
mod places;
mod port_labels;
mod prefix_tree;
mod set_laws;
mod set_row;
mod sides;
mod strength;

pub use branches::Branches;
pub use choosing::Choices;
pub use configuration::Config;
pub use configuration_laws::{
    all_rows_law, multisets_law, placements_law, row_law, sorted_law, support_law,
};
pub use configurations::Configurations;
pub use constraint_table::{Constraint, InsertFault, MAX_CONFIGURATIONS};
pub use label_set::LabelSet;
pub use listing::{Multisets, Picks};
pub use memory::NoMemory;
pub use name_list::{Names, NamesFault};
pub use naming::{Name, is_name};
pub use permutations::{Placement, Placements};
pub use places::{factorial, order_at};
pub use port_labels::PortLabels;
pub use prefix_tree::{Node, Trail};
pub use set_laws::{list_set_law, number_law, set_law};
pub use set_row::Row;
pub use sides::{Degrees, Side};

/// How many labels a problem may have: each label is a number below it.
pub const MAX_LABELS: u8 = 128;

/// How many bytes a name may have.
pub const MAX_NAME_BYTES: usize = 16;

/// How many rows a list of rows may have.
pub const MAX_ROWS: usize = 1024;

/// The tests of a constraint are the facts.
pub fn test_law()
    ensures { TestLaw }
{}

/// The list of the maximal rows has exactly the good rows that no other good row dominates.
pub fn maximal_law()
    ensures { MaximalLaw }
{}

/// The list of their sets has exactly the sets that occur in them.
pub fn max_sets_law()
    ensures { MaxSetsLaw }
{}

/// The allowed multisets of sets are all listed.
pub fn allowed_law()
    ensures { AllowedLaw }
{}

/// Each good row is dominated by a maximal one.
pub fn domination_law()
    ensures { DominationLaw }
{}

/// A list of rows is the list of the maximal rows exactly where it is closed.
pub fn closure_law()
    ensures { ClosureLaw }
{}

/// Each label is at least as strong as itself, and what is at least as strong as a label is so as any weaker one.
pub fn strength_order_law()
    ensures { StrengthOrderLaw }
{}

/// The test of strength is the fact, and an up-set has exactly the labels that are at least as strong.
pub fn up_set_law()
    ensures { UpSetLaw }
{}
