//! The classes of problems by the number of rounds that local algorithms take on finite forests, what decides them, and that they are apart: laws alone,
//! no code.

ghost use Rattle.re_forests.specs.WorkedProblems.{SinklessLaw, ThreeColoursLaw, TwoColoursLaw};
ghost use Rattle.re_forests.specs.ClassLaws.{AboveLaw, AboveLinearLaw, ApartLaw, BelowLaw, BelowLinearLaw, BelowLogLaw, BelowLogStarLaw, ConstantLaw};
ghost use Rattle.re_forests.specs.ClassLaws.{NeverLaw, NothingBetweenLaw, PathsLaw, WeakerLaw};

/// A problem takes a constant number of rounds on forests exactly where some number is enough with port numbers alone.
pub fn constant_law()
    ensures { ConstantLaw }
{}

/// What doesn't take a constant number of rounds takes at least log* N, less a constant.
pub fn nothing_between_law()
    ensures { NothingBetweenLaw }
{}

/// Bounds below for local algorithms that see the identifiers of active nodes alone are such bounds on forests.
pub fn above_law()
    ensures { AboveLaw }
{}

/// And so is the bound above of log* N.
pub fn below_law()
    ensures { BelowLaw }
{}

/// What is solvable given few colours takes at most the order of log* N rounds.
pub fn below_log_star_law()
    ensures { BelowLogStarLaw }
{}

/// A problem with a flexible set of labels takes at most the order of log N rounds.
pub fn below_log_law()
    ensures { BelowLogLaw }
{}

/// A problem with a trimmed set that isn't empty takes at most the order of N rounds.
pub fn below_linear_law()
    ensures { BelowLinearLaw }
{}

/// A problem that hasn't two levels of labels takes at least the order of N rounds.
pub fn above_linear_law()
    ensures { AboveLinearLaw }
{}

/// A problem without a trimmed set that has a label has no solution.
pub fn never_law()
    ensures { NeverLaw }
{}

/// On paths a problem with a flexible set takes at most the order of log* N rounds, and one without at least the order of N.
pub fn paths_law()
    ensures { PathsLaw }
{}

/// No problem takes a constant number of rounds and the order of log* N at least, nor the order of log* N at most and that of log N at least, nor the
/// order of log N at most and that of N at least, nor has a bound above and no solution.
pub fn apart_law()
    ensures { ApartLaw }
{}

/// Each bound gives the next weaker one: above from constant to the order of N, and below from no solution to the order of log* N.
pub fn weaker_law()
    ensures { WeakerLaw }
{}

/// To colour the nodes of paths properly with 3 colours takes the order of log* N rounds.
pub fn three_colours_law()
    ensures { ThreeColoursLaw }
{}

/// The relaxation of sinkless orientation (`I I O` / `I I`, `I O`) takes the order of log N rounds.
pub fn sinkless_law()
    ensures { SinklessLaw }
{}

/// 2-colouring of paths takes the order of N rounds.
pub fn two_colours_law()
    ensures { TwoColoursLaw }
{}
