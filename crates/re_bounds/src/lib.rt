//! What certificates say where a solution of an input problem is given: laws alone, no code.
#![tactic(auto)]

ghost use Rattle.re_bounds.specs.GivenBounds.{BesideLaw, ColouredBoundLaw, EvenBoundLaw, FixedBoundLaw, OddBoundLaw, UpperBoundLaw, ValidGivenLaw};
ghost use Rattle.re_bounds.specs.OnlyUnavoidable.{OnlyUnavoidableLaw};

/// A bound that is valid given an input problem of its first problem says what bounds of its kind say, given the input problem.
pub fn valid_given_law()
    ensures { ValidGivenLaw }
{}

/// The verdict on a certificate is right given each input problem that is unavoidable for lists of its problems' labels, at a lower bound with
/// one round less.
pub fn beside_law()
    ensures { BesideLaw }
{}

/// So it is given a proper colouring with more than (p - 1) n colours, where a and p are the degrees of the first problem, and no problem
/// has more than n labels.
pub fn coloured_bound_law()
    ensures { ColouredBoundLaw }
{}

/// What is accepted as an upper bound is one given any input problem.
pub fn upper_bound_law()
    ensures { UpperBoundLaw }
{}

/// What is accepted as a lower bound of an even number of steps is one given each input problem that is unavoidable for lists of its last
/// problem's labels.
pub fn even_bound_law()
    ensures { EvenBoundLaw }
{}

/// And one of an odd number of steps, where passive nodes are edges, given a proper colouring with more than 2^n colours, n being the number of
/// its last problem's labels.
pub fn odd_bound_law()
    ensures { OddBoundLaw }
{}

/// What is accepted as a fixed point is one given each input problem that is unavoidable for lists of the labels of one problem behind an even
/// number of steps, from that on to which it goes back.
pub fn fixed_bound_law()
    ensures { FixedBoundLaw }
{}

/// An input problem helps no problem of n labels in 0 rounds exactly where it is unavoidable for lists of n labels.
pub fn only_unavoidable_law()
    ensures { OnlyUnavoidableLaw }
{}
