//! What unique identifiers help in a fixed number of rounds, or in fewer than log* N less a constant: nothing. Laws alone, no code.

ghost use Rattle.re_classes.specs.FewRoundsLaws.{BeyondPortsLaw, ColouredGapLaw, ColouredPairsGapLaw, OneNumberLaw, FewLabelsLaw, GapLaw, GraphGapLaw, TowerLaw, UnavoidableGapLaw, UnavoidableRoundsLaw};
ghost use Rattle.re_classes.specs.FixedRoundsLaws.{AnyIdentifiersLaw, BeyondLocalLaw, NoSolutionLocalLaw, IdentifiersNoUseLaw, PortsAreEnoughLaw};

/// For each problem and number of rounds there is a number of identifiers such that what a local algorithm solves with so many, an algorithm
/// solves with port numbers alone: by Ramsey's theorem only the order of identifiers matters (Naor and Stockmeyer), and port numbers give the tree
/// such an order (Göös, Hirvonen and Suomela have one from ports with an orientation).
pub fn identifiers_no_use_law()
    ensures { IdentifiersNoUseLaw }
{}

/// Port numbers are enough where they are: a local algorithm need take no notice of the identifiers.
pub fn ports_are_enough_law()
    ensures { PortsAreEnoughLaw }
{}

/// So T rounds solve a problem with port numbers alone exactly where they do with different identifiers, however many of these there are.
pub fn any_identifiers_law()
    ensures { AnyIdentifiersLaw }
{}

/// From some number of identifiers on no local algorithm of T rounds solves a problem, exactly where none does with port numbers alone.
pub fn beyond_local_law()
    ensures { BeyondLocalLaw }
{}

/// Where some finite graph has no solution, the problem is beyond local algorithms of any number of rounds.
pub fn no_solution_local_law()
    ensures { NoSolutionLocalLaw }
{}

/// Each number is at most the tower of as many twos, so that each problem has a tower of twos as large as its number of labels.
pub fn tower_law()
    ensures { TowerLaw }
{}

/// Each derivation puts at most one more two under the number of labels.
pub fn few_labels_law()
    ensures { FewLabelsLaw }
{}

/// An input problem that, exchanged T times, is unavoidable for lists of a tower of T + h twos of labels is of no use in T rounds.
pub fn unavoidable_rounds_law()
    ensures { UnavoidableRoundsLaw }
{}

/// What T rounds solve given an input problem that is unavoidable for lists of a tower of T + h + 1 twos of labels takes at most T + 1 rounds
/// without it.
pub fn unavoidable_gap_law()
    ensures { UnavoidableGapLaw }
{}

/// A proper colouring with more than p - 1 times as many colours saves at most one round of T.
pub fn coloured_gap_law()
    ensures { ColouredGapLaw }
{}

/// Where passive nodes are edges, one with more than a tower of T + h + 1 twos of colours is of no use in T rounds.
pub fn coloured_pairs_gap_law()
    ensures { ColouredPairsGapLaw }
{}

/// The gap, where a problem has at most a tower of h twos of labels: with identifiers below N a local algorithm of T rounds solves what T rounds solve
/// without them, and no more, if N is at least a tower of T + h + 6 twos, as where T is less than log* N - h - 6 (Chang and Pettie; Grunau, Rozhoň
/// and Brandt, who show it for randomised algorithms too).
pub fn gap_law()
    ensures { GapLaw }
{}

/// So what T rounds solve with one such number of identifiers they solve with any number of them.
pub fn one_number_law()
    ensures { OneNumberLaw }
{}

/// And what no number of rounds solves without identifiers takes at least log* N - h - 6 rounds with them.
pub fn beyond_ports_law()
    ensures { BeyondPortsLaw }
{}

/// Such is each problem that has no solution on some finite graph.
pub fn graph_gap_law()
    ensures { GraphGapLaw }
{}
