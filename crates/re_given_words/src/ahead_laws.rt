//! Whether a problem is solvable in one, two or three rounds, told from its own labels, without its derived problem.

ghost use Rattle.re_given_words.specs.Laws.{OneRoundLaw, ThreeRoundsLaw, TwoRoundsLaw};

/// A problem is solvable in one round exactly where some row of sets of its labels, good for passive nodes, shows it: each multiset of
/// its sets, drawn with repetition, has an active choice.
pub fn one_round_law()
    ensures { OneRoundLaw }
{}

/// A problem is solvable in two rounds exactly where some sets of its labels at the ports of an active node show it: each multiset of
/// ports has a choice of sets that is good for passive nodes, and each choice of a set at each port has an active choice.
pub fn two_rounds_law()
    ensures { TwoRoundsLaw }
{}

/// A problem is solvable in three rounds only where some rows of sets of its labels show it, one for each way in which the types of its
/// active neighbours meet at a passive node: each row is good for passive nodes, and each choice of a set at each place of a type has an
/// active choice.
pub fn three_rounds_law()
    ensures { ThreeRoundsLaw }
{}
