//! Few colours, and so bounds above for local algorithms, in order log* N rounds of N identifiers: laws alone, no code.

ghost use Rattle.re_local.specs.FewColoursLaws.{FewColoursLaw, FewColoursLocalLaw, LogarithmicColoursLaw, OneColourLessLaw};

/// In one hop a proper colouring loses its last colour, where there are more left than a node has neighbours.
pub fn one_colour_less_law()
    ensures { OneColourLessLaw }
{}

/// In one hop a proper colouring with colours of b bits gives one with (2 b)^d colours, where d = a (p - 1) is the number of a node's neighbours (a simple
/// form of Linial's colour reduction).
pub fn logarithmic_colours_law()
    ensures { LogarithmicColoursLaw }
{}

/// A proper colouring with N colours gives one with one more than a node has neighbours in order log* N hops (Linial).
pub fn few_colours_law()
    ensures { FewColoursLaw }
{}

/// What is solvable in k hops given a proper colouring with so few colours has a local algorithm, one with unique identifiers, of 2 log* N + k + K
/// rounds, where identifiers are below N and K depends on the degrees alone.
pub fn few_colours_local_law()
    ensures { FewColoursLocalLaw }
{}
