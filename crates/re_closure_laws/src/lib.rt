//! Why closed lists of lines give fixed points: laws alone, no code.
#![tactic(auto)]

ghost use Rattle.re_closure_laws.specs.Laws.{ClosureBoundLaw, ClosureExistsLaw, ClosureFamiliesLaw, ClosureUniqueLaw, FirstStepLaw, FixedLaw, GeneratedLaw, MarkedLaw, MaximalLinesLaw, StepLaw, ZeroLinesLaw};

/// The maximal rows over labels that stand for sets are those of the lines.
pub fn maximal_lines_law()
    ensures { MaximalLinesLaw }
{}

/// From the problem of two closed lists of lines a lower step leads to that of the lists the other way round.
pub fn step_law()
    ensures { StepLaw }
{}

/// A lower step leads from a problem to that of two closed lists which hold the up-sets of its configurations.
pub fn first_step_law()
    ensures { FirstStepLaw }
{}

/// A problem is solvable in no number of rounds, where that of such lists is not solvable without communication.
pub fn fixed_law()
    ensures { FixedLaw }
{}

/// Either way round, the problem of two closed lists is solvable without communication where the other one is.
pub fn zero_lines_law()
    ensures { ZeroLinesLaw }
{}

/// What comes from some lines by combinations is dominated by a closed list that dominates them.
pub fn generated_law()
    ensures { GeneratedLaw }
{}

/// A mark in each set of lines may be left out.
pub fn marked_law()
    ensures { MarkedLaw }
{}

/// Each problem has a closure.
pub fn closure_exists_law()
    ensures { ClosureExistsLaw }
{}

/// All closures of a problem have one problem.
pub fn closure_unique_law()
    ensures { ClosureUniqueLaw }
{}

/// The closure of a problem is of two closed lists of lines that go with it.
pub fn closure_families_law()
    ensures { ClosureFamiliesLaw }
{}

/// From a problem lower steps lead to its closure and back, whatever the problem is.
pub fn closure_bound_law()
    ensures { ClosureBoundLaw }
{}
