//! Upper bounds on finite forests from those on infinite trees: laws alone, no code.

ghost use Rattle.re_forests.specs.FromViews.{ColouredOnForestsLaw, FewColoursOnForestsLaw, GivenOnForestsLaw, LocalOnForestsLaw, PortsOnForestsLaw};

/// What is solvable in k rounds on infinite trees with ports alone takes at most one round more on forests.
pub fn ports_on_forests_law()
    ensures { PortsOnForestsLaw }
{}

/// What is solvable in k rounds given a proper colouring with c colours takes at most r + k + 2 rounds on forests, where r rounds give c colours that differ
/// at active nodes with a common neighbour.
pub fn given_on_forests_law()
    ensures { GivenOnForestsLaw }
{}

/// The same where r rounds give c colours that differ within two hops.
pub fn coloured_on_forests_law()
    ensures { ColouredOnForestsLaw }
{}

/// What is solvable in k rounds given a proper colouring with one more colour than an active node has others around its neighbours takes 2 log* N + k + K
/// rounds on forests with N identifiers, where K depends on the degrees alone.
pub fn few_colours_on_forests_law()
    ensures { FewColoursOnForestsLaw }
{}

/// What is solvable in k rounds on infinite trees by a local algorithm with unique identifiers takes at most k + 2 rounds on forests with fewer identifiers.
pub fn local_on_forests_law()
    ensures { LocalOnForestsLaw }
{}
