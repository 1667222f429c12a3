//! Finite forests, and the colours and layers that local algorithms find in them: laws alone, no code.
#![tactic(auto)]

ghost use Rattle.re_layers.specs.Laws.{ColoursLaw, FarColoursLaw, LayersLaw, PathLayersLaw};

/// Constantly many colours that differ within d hops are found in the order of log N rounds.
pub fn colours_law()
    ensures { ColoursLaw }
{}

/// Constantly many colours that differ within d hops are found in the order of log* N rounds.
pub fn far_colours_law()
    ensures { FarColoursLaw }
{}

/// Layers, of which there are of the order of log N, are found in as many rounds (rake and compress).
pub fn layers_law()
    ensures { LayersLaw }
{}

/// On paths constantly many layers are found in the order of log* N rounds.
pub fn path_layers_law()
    ensures { PathLayersLaw }
{}
