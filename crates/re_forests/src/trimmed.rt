//! Trimmed problems with port numbers alone: laws alone, no code.

ghost use Rattle.re_forests.specs.TrimmedWithPorts.{NothingLeftLaw, TrimmedProblemLaw};

/// Where no trimmed set has a label, no number of rounds solves the problem.
pub fn nothing_left_law()
    ensures { NothingLeftLaw }
{}

/// The configurations with labels outside the greatest trimmed set are of no use: without them as many rounds solve the problem.
pub fn trimmed_problem_law()
    ensures { TrimmedProblemLaw }
{}
