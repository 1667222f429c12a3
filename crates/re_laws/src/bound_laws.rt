//! What a bound means: algorithms of T rounds as tables, and the laws of round elimination.

ghost use Rattle.re_laws.specs.Extracted.{ExtractLaw};
ghost use Rattle.re_laws.specs.Laws.{CoverLaw, FastLaw, FixedPointLaw, LowerBoundLaw, LowerStepRoundsLaw, MappingLaw, MoreRoundsLaw, RelaxationLaw, RenamingRoundsLaw, RoundsLaw, SlowLaw, SpeedupLaw, TableLaw, UpperBoundLaw, UpperStepRoundsLaw, ZeroLaw};

/// A problem is solvable in 0 rounds exactly where it is Zero.
pub fn zero_law()
    ensures { ZeroLaw }
{}

/// A problem is solvable in one more round than its derived problem.
pub fn speedup_law()
    ensures { SpeedupLaw }
{}

/// A problem is solvable in k rounds exactly where its k-th derived problem is Zero.
pub fn rounds_law()
    ensures { RoundsLaw }
{}

/// More rounds do no harm.
pub fn more_rounds_law()
    ensures { MoreRoundsLaw }
{}

/// What solves a problem solves its relaxations.
pub fn relaxation_law()
    ensures { RelaxationLaw }
{}

/// What solves a problem solves its relaxations by maps of configurations.
pub fn mapping_law()
    ensures { MappingLaw }
{}

/// A function on views that solves a problem gives a table that solves it, since there are finitely many views of a radius.
pub fn table_law()
    ensures { TableLaw }
{}

/// A problem under other labels is solvable in exactly as many rounds.
pub fn renaming_rounds_law()
    ensures { RenamingRoundsLaw }
{}

/// What solves the derived problem solves each problem to which a lower step leads.
pub fn lower_step_rounds_law()
    ensures { LowerStepRoundsLaw }
{}

/// Where an upper step leads to a problem that is solvable in T rounds, T + 1 rounds solve the problem before it.
pub fn upper_step_rounds_law()
    ensures { UpperStepRoundsLaw }
{}

/// The construction for one round more solves the problem before an upper step.
pub fn slow_law()
    ensures { SlowLaw }
{}

/// The construction for one round less solves the derived problem.
pub fn fast_law()
    ensures { FastLaw }
{}

/// Lower steps give a lower bound.
pub fn lower_bound_law()
    ensures { LowerBoundLaw }
{}

/// Upper steps give an upper bound.
pub fn upper_bound_law()
    ensures { UpperBoundLaw }
{}

/// Lower steps that come back exclude every number of rounds.
pub fn fixed_point_law()
    ensures { FixedPointLaw }
{}

/// Leaving out a label that another one covers changes no solvability.
pub fn cover_law()
    ensures { CoverLaw }
{}

/// The algorithm that a chain of upper steps to a problem that is Zero gives solves the first problem, in as many rounds as there are
/// steps.
pub fn extract_law()
    ensures { ExtractLaw }
{}
