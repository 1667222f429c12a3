//! The gap on finite forests: no problem takes more than the order of log* N rounds and less than that of log N: laws alone, no code.
#![tactic(auto)]

ghost use Rattle.re_gap.specs.Laws.{AboveLogOnViewsLaw, BetweenLogsLaw, FlexibleLaw, GapLaw, NotFlexibleLaw};

/// What is solved in T rounds with some N that is at least C ^ (T + 1), for one constant C, takes at most the order of log* N rounds and has a
/// flexible set of labels.
pub fn gap_law()
    ensures { GapLaw }
{}

/// What has no flexible set of labels takes at least the order of log N rounds.
pub fn not_flexible_law()
    ensures { NotFlexibleLaw }
{}

/// What takes at most the order of log* N rounds has a flexible set of labels.
pub fn flexible_law()
    ensures { FlexibleLaw }
{}

/// What doesn't take at most the order of log* N rounds takes at least that of log N.
pub fn between_logs_law()
    ensures { BetweenLogsLaw }
{}

/// What takes at least the order of log N rounds on forests does so on infinite trees, where active nodes alone have identifiers.
pub fn above_log_on_views_law()
    ensures { AboveLogOnViewsLaw }
{}
