//! The clauses of the steps of certificates that speak of the entries of their maps, each with an exact test that takes no memory.

ghost use Rattle.re_check.specs.EntryLaws.{KeepsAllowedByRowLaw, KeepsAllowedLaw, RowSetsLaw};

/// The sets that occur in the maximal rows are their sets, in order.
pub fn row_sets_law()
    ensures { RowSetsLaw }
{}

/// The images of the allowed multisets are configurations exactly where all choices of labels over the configurations are.
pub fn keeps_allowed_law()
    ensures { KeepsAllowedLaw }
{}

/// What the sets of the allowed multisets become by rows is configurations exactly where all choices of labels over the configurations are.
pub fn keeps_allowed_by_row_law()
    ensures { KeepsAllowedByRowLaw }
{}
