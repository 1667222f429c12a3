//! Randomised algorithms, and what lower bounds for algorithms with unique identifiers say of them: laws alone, no code.

ghost use Rattle.re_classes.specs.Chances.{DrawnColourLaw};
ghost use Rattle.re_classes.specs.GapLaws.{IdentifiedConstantLaw, IdentifiedGapLaw, RandomisedConstantLaw, RandomisedGapLaw};
ghost use Rattle.re_classes.specs.RandomLaws.{CertainLaw, CertainIdentifiedLaw, DerandomisedLaw, DerandomisedIdentifiedLaw, FewerNamesLaw, IdentifiedRandomnessLaw};
ghost use Rattle.re_classes.specs.RandomLaws.{RandomisedLaw, RandomisedIdentifiedLaw, SinklessRandomLaw, UnnoticedNamesLaw};

/// An algorithm that solves a problem whatever the strings are fails with a probability below 1 / q for any q: a test of the definition.
pub fn certain_law()
    ensures { CertainLaw }
{}

/// The algorithm in which each node outputs the one of c colours that it drew fails with a probability below 1 / q to colour the nodes properly
/// exactly where q < c, since the two ends of an edge draw one colour with probability 1 / c: a test of the definition.
pub fn drawn_colour_law()
    ensures { DrawnColourLaw }
{}

/// A randomised algorithm that fails rarely enough is a deterministic one (Chang, Kopelowitz and Pettie): of all ways to fix a string for each
/// identifier some one fails nowhere, since each of the views with identifiers fails for fewer than the q-th part of them, and there are no more
/// than q such views.
pub fn derandomised_law()
    ensures { DerandomisedLaw }
{}

/// Where no local algorithm of T rounds solves a problem with C^(T + 1) identifiers or more, each randomised algorithm of T rounds fails at some
/// node, for some port numbering, with a probability of at least 1 / q, if q is at least 2^(D^(T + 1)): a bound of the order of log n gives
/// one of the order of log log n.
pub fn randomised_law()
    ensures { RandomisedLaw }
{}

/// So it is for the relaxation of sinkless orientation (`I I O` / `I I`, `I O`).
pub fn sinkless_random_law()
    ensures { SinklessRandomLaw }
{}

/// A randomised algorithm without identifiers is one that takes no notice of them: it fails as rarely where nodes have them too.
pub fn unnoticed_names_law()
    ensures { UnnoticedNamesLaw }
{}

/// A local algorithm that takes no notice of strings fails with a probability below 1 / q for any q.
pub fn certain_identified_law()
    ensures { CertainIdentifiedLaw }
{}

/// A randomised algorithm that sees identifiers too and fails rarely enough is a deterministic one.
pub fn derandomised_identified_law()
    ensures { DerandomisedIdentifiedLaw }
{}

/// So with N identifiers a randomised algorithm that fails so rarely is there exactly where a deterministic one is.
pub fn identified_randomness_law()
    ensures { IdentifiedRandomnessLaw }
{}

/// One that fails rarely with more identifiers does so with fewer.
pub fn fewer_names_law()
    ensures { FewerNamesLaw }
{}

/// Where no local algorithm of T rounds solves a problem with C^(T + 1) identifiers or more, each randomised algorithm of T rounds that sees
/// identifiers below N fails at some node, for some port numbering and some different identifiers, with a probability of at least 1 / q, if N is
/// at least C^(T + 1) and q at least 2^(D^(T + 1)).
pub fn randomised_identified_law()
    ensures { RandomisedIdentifiedLaw }
{}

/// For each problem and number T of rounds there is a number q such that a randomised algorithm of T rounds that fails with a probability below
/// 1 / q at each node is there only where T rounds solve the problem with port numbers alone.
pub fn randomised_constant_law()
    ensures { RandomisedConstantLaw }
{}

/// A tower of T and a constant of twos is such a number (Grunau, Rozhoň and Brandt): below log* of the inverse of the
/// probability of failure, less a constant, randomness is of no use.
pub fn randomised_gap_law()
    ensures { RandomisedGapLaw }
{}

/// So it is where nodes have identifiers too, if there are enough of them.
pub fn identified_constant_law()
    ensures { IdentifiedConstantLaw }
{}

/// A tower of T and a constant of twos is enough.
pub fn identified_gap_law()
    ensures { IdentifiedGapLaw }
{}
