//! Local algorithms on finite forests, and those that see the identifiers of active nodes alone: a bound below for these is one for those. Laws alone, no
//! code.

ghost use Rattle.re_forests.specs.ToViews.{AboveLogOnForestsLaw, AboveLogStarOnForestsLaw, FewerOnForestsLaw, LinkLaw, MoreThanConstantOnForestsLaw};

/// What is solved in T rounds on forests with (a + 1) N identifiers is solved in T + 1 rounds where active nodes have identifiers below N.
pub fn link_law()
    ensures { LinkLaw }
{}

/// More identifiers make it no easier on forests.
pub fn fewer_on_forests_law()
    ensures { FewerOnForestsLaw }
{}

/// What takes more than constantly many rounds does so on forests.
pub fn more_than_constant_on_forests_law()
    ensures { MoreThanConstantOnForestsLaw }
{}

/// What takes at least log* N rounds, but for a constant, does so on forests.
pub fn above_log_star_on_forests_law()
    ensures { AboveLogStarOnForestsLaw }
{}

/// What takes at least the order of log N rounds does so on forests.
pub fn above_log_on_forests_law()
    ensures { AboveLogOnForestsLaw }
{}
