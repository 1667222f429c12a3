//! The strength diagram of a constraint, and problems with fewer labels: equal ones merged, covered ones left out.

ghost use Rattle.re_changes.specs.Laws.{ClassLaw, EdgeLaw, MergeRoundsLaw, MergedLaw, TrimRoundsLaw, TrimmedLaw};

/// Two labels are in one class of a diagram exactly where each is at least as strong as the other.
pub fn class_law()
    ensures { ClassLaw }
{}

/// An edge of a diagram leads from a class to a stronger one exactly where no label is strictly between them.
pub fn edge_law()
    ensures { EdgeLaw }
{}

/// Two labels are merged exactly where each covers the other.
pub fn merged_law()
    ensures { MergedLaw }
{}

/// No label of a trimmed problem covers another one.
pub fn trimmed_law()
    ensures { TrimmedLaw }
{}

/// A problem is solvable in T rounds exactly where it is so with equal labels merged.
pub fn merge_rounds_law()
    ensures { MergeRoundsLaw }
{}

/// A problem is solvable in T rounds exactly where it is so without the labels that others cover.
pub fn trim_rounds_law()
    ensures { TrimRoundsLaw }
{}
