// What inputs change at worked problems.
ghost use Rattle.re_given.specs.Examples.{OrientationGivenLaw, SinklessColouredLaw, SinklessEdgeColouredLaw};

/// Where an orientation is given, it is solved in 0 rounds, which it isn't without.
pub fn orientation_given_law()
    ensures { OrientationGivenLaw }
{}

/// No number of rounds solves the relaxation of sinkless orientation (`I I O` / `I I`, `I O`) given a proper colouring of the nodes with 2
/// colours or more.
pub fn sinkless_coloured_law()
    ensures { SinklessColouredLaw }
{}

/// No number of rounds solves it given a proper colouring of the edges with 3 colours.
pub fn sinkless_edge_coloured_law()
    ensures { SinklessEdgeColouredLaw }
{}
