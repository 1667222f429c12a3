//! Local algorithms on finite forests with unique identifiers: laws alone, no code.

ghost use Rattle.re_forests.specs.Flexible.{TurningLaw};
ghost use Rattle.re_forests.specs.LabelLaws.{LabelsLaw, OrderLogLaw, FastPathsLaw, PathsLogStarLaw, TwoColouredPathsLaw, WholePathsLaw};
ghost use Rattle.re_forests.specs.Trimmed.{AllSeenLaw, LinearLaw, NoSolutionLaw};
ghost use Rattle.re_forests.specs.TrimmedSets.{FullSurroundingsLaw, SolvedOrNotLaw, StillSolvedLaw, TrimmedOnForestsLaw, TrimmedSetLaw};

/// A set is flexible where a label turns with which each of its labels is joined; and then each label turns and is joined with each one.
pub fn turning_law()
    ensures { TurningLaw }
{}

/// Where a set of labels is flexible, labels are found from layers, each layer's in a constant number of rounds.
pub fn labels_law()
    ensures { LabelsLaw }
{}

/// A problem with a flexible set of labels takes at most the order of log N rounds on forests with N identifiers.
pub fn order_log_law()
    ensures { OrderLogLaw }
{}

/// A problem that hasn't two levels of labels takes at least the order of N rounds.
pub fn linear_law()
    ensures { LinearLaw }
{}

/// A problem with a trimmed set that isn't empty takes at most the order of N rounds.
pub fn all_seen_law()
    ensures { AllSeenLaw }
{}

/// Where no trimmed set has a label, enough nodes have no solution.
pub fn no_solution_law()
    ensures { NoSolutionLaw }
{}

/// A problem is solved in the order of N rounds, or enough nodes have no solution.
pub fn solved_or_not_law()
    ensures { SolvedOrNotLaw }
{}

/// The greatest trimmed set is trimmed, each trimmed set is a part of it, and what is left is a problem.
pub fn trimmed_set_law()
    ensures { TrimmedSetLaw }
{}

/// Around nodes with full surroundings each solution has labels of the greatest trimmed set alone.
pub fn full_surroundings_law()
    ensures { FullSurroundingsLaw }
{}

/// What solves the trimmed problem solves the problem.
pub fn still_solved_law()
    ensures { StillSolvedLaw }
{}

/// What solves a problem with enough identifiers solves the trimmed problem.
pub fn trimmed_on_forests_law()
    ensures { TrimmedOnForestsLaw }
{}

/// On paths a problem with a flexible set of labels takes at most the order of log* N rounds.
pub fn paths_log_star_law()
    ensures { PathsLogStarLaw }
{}

/// On paths, a problem that is solved in fewer than the order of N rounds has a flexible set of labels.
pub fn fast_paths_law()
    ensures { FastPathsLaw }
{}

/// On paths, what has a trimmed set that isn't empty takes at most N rounds.
pub fn whole_paths_law()
    ensures { WholePathsLaw }
{}

/// 2-colouring of paths takes at most N rounds, and at least the order of N.
pub fn two_coloured_paths_law()
    ensures { TwoColouredPathsLaw }
{}
