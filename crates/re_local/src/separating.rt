//! Hypergraphs without short closed walks that few colours don't colour properly; and of them hypergraphs of identifiers on whose
//! trees all identifiers that a node of so many rounds sees are different: laws alone, no code.

ghost use Rattle.re_local.specs.Hypergraphs.{SparseLaw};
ghost use Rattle.re_local.specs.SeparatingLaws.{SeparatingLaw, SinklessUniqueLaw, VirtualSeparatingLaw, WholeBoundLaw};

/// For all r, m and g there is a hypergraph, each of whose edges has r different points, without closed walks of up to g steps, such that each
/// colouring of its points with m colours has an edge of one colour (Erdős and Hajnal). It has no more than `hypergraph_base r m ^ (g + 1)` points: its edges are
/// chosen one after another, each of points far from one another, so that it lies in many of the large sets of points that hold no edge yet.
pub fn sparse_law()
    ensures { SparseLaw }
{}

/// For each number of ports from 1 on, passive degree, number of labels and of rounds there is a hypergraph of identifiers that separates: on each
/// edge of a hypergraph without short closed walks lies a set of identifiers for each list of ports, and identifiers that stand around no passive node
/// with one of their ports are left out (Brandt, Chang, Grebík, Grunau, Rozhoň and Vidnyánszky use graphs of identifiers so). It has no more than
/// `identifier_base a p n ^ (T + 1)` identifiers.
pub fn separating_law()
    ensures { SeparatingLaw }
{}

/// With `identifier_base 3 2 2 ^ (T + 1)` identifiers or more no local algorithm of T rounds solves the relaxation of sinkless orientation
/// (`I I O` / `I I`, `I O`).
pub fn sinkless_unique_law()
    ensures { SinklessUniqueLaw }
{}

/// For each number of ports, virtual ports, passive degree, number of labels and of rounds some hypergraph of such identifiers separates.
pub fn virtual_separating_law()
    ensures { VirtualSeparatingLaw }
{}

/// Lower steps exclude a local algorithm of as many rounds.
pub fn whole_bound_law()
    ensures { WholeBoundLaw }
{}
