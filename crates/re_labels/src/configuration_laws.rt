//! What the lists and tests of configurations and rows mean.
ghost use Rattle.re_labels.specs.ConfigurationLaws.{AllRowsLaw, MultisetsLaw, PlacementsLaw, RowLaw, SortedLaw, SupportLaw};

/// The ascending list of some numbers stands for their multiset.
pub fn sorted_law()
    ensures { SortedLaw }
{}

/// The support of a configuration has exactly its labels.
pub fn support_law()
    ensures { SupportLaw }
{}

/// The multisets of numbers are all listed.
pub fn multisets_law()
    ensures { MultisetsLaw }
{}

/// The placements are the orders of the places, once and in lexicographic order.
pub fn placements_law()
    ensures { PlacementsLaw }
{}

/// The choices are all listed, and the test of domination is the fact.
pub fn row_law()
    ensures { RowLaw }
{}

/// The rows are all listed.
pub fn all_rows_law()
    ensures { AllRowsLaw }
{}
