//! Unique identifiers: algorithms that see them, what separates identifiers from port numbers, and what few colours give.
#![tactic(auto)]

mod few_colours;
mod separating;

ghost use Rattle.re_local.specs.Examples.{SinklessLocalLaw};
ghost use Rattle.re_local.specs.Laws.{ColouredLocalLaw, CompleteLaw, CompleteLimitLaw, ComposedLocalLaw, FewerIdentifiersLaw, FewerRoundsLaw, FixedPointLocalLaw, IdentifiersInputLaw, IdentifiersLaw, LabelledLaw, LocalGivenLaw, MoreRoundsLocalLaw, ShorterBoundLocalLaw, VirtualGivenLaw, VirtualInputLaw, VirtualUnavoidableLaw};
ghost use Rattle.re_local.specs.Shown.{LinearRoomLaw, LogarithmicRoomLaw, NoRoomLaw, NodesSeenLaw};

pub use few_colours::{
    few_colours_law, few_colours_local_law, logarithmic_colours_law, one_colour_less_law,
};
pub use separating::{
    separating_law, sinkless_unique_law, sparse_law, virtual_separating_law, whole_bound_law,
};

/// What a local algorithm solves is solved where the labels of identifiers are known too.
pub fn labelled_law()
    ensures { LabelledLaw }
{}

/// Identifiers are a proper colouring, so what is solvable given one has a local algorithm.
pub fn coloured_local_law()
    ensures { ColouredLocalLaw }
{}

/// Where an input problem has a local algorithm of S rounds, what is solvable in T rounds given it has one of S + T + 1.
pub fn composed_local_law()
    ensures { ComposedLocalLaw }
{}

/// More identifiers make it no easier.
pub fn fewer_identifiers_law()
    ensures { FewerIdentifiersLaw }
{}

/// Identifiers are unavoidable for lists below n where, however they get such lists, those with some one list are joined by each p ports.
pub fn identifiers_law()
    ensures { IdentifiersLaw }
{}

/// Identifiers, of which there is one, are an input problem where each label of one stands around some passive node.
pub fn identifiers_input_law()
    ensures { IdentifiersInputLaw }
{}

/// Where the trees of a hypergraph of identifiers show different ones, a local algorithm solves a problem given the identifiers.
pub fn local_given_law()
    ensures { LocalGivenLaw }
{}

/// Lower steps that come back exclude a local algorithm of as many rounds as there is a hypergraph of identifiers for.
pub fn fixed_point_local_law()
    ensures { FixedPointLocalLaw }
{}

/// With one round less, lower steps exclude a local algorithm of as many rounds as there is a hypergraph of identifiers for.
pub fn shorter_bound_local_law()
    ensures { ShorterBoundLocalLaw }
{}

/// A hypergraph of identifiers for some rounds is one for fewer.
pub fn fewer_rounds_law()
    ensures { FewerRoundsLaw }
{}

/// For 0 rounds the hypergraph that joins all different identifiers will do, where there are more than p - 1 of them for each list.
pub fn complete_law()
    ensures { CompleteLaw }
{}

/// From one round on it won't: two neighbours of a node may be one identifier.
pub fn complete_limit_law()
    ensures { CompleteLimitLaw }
{}

/// No local algorithm of as many rounds as there is a hypergraph of identifiers for solves the relaxation of sinkless orientation (`I I O` / `I I`,
/// `I O`); none of 0 rounds does with more than 8 identifiers.
pub fn sinkless_local_law()
    ensures { SinklessLocalLaw }
{}

/// More rounds do no harm.
pub fn more_rounds_local_law()
    ensures { MoreRoundsLocalLaw }
{}

/// The view of an active node after T rounds shows `nodes_seen` active nodes.
pub fn nodes_seen_law()
    ensures { NodesSeenLaw }
{}

/// Where a node sees more nodes in T rounds, `nodes_seen`, than there are identifiers, no view has them all different: nothing is asked of an
/// algorithm, and every problem counts as solved in T rounds. So the model tells the rounds that a problem takes only up to there.
pub fn no_room_law()
    ensures { NoRoomLaw }
{}

/// So it is from about 2 log N / log q rounds on, where q = (a - 1) (p - 1).
pub fn logarithmic_room_law()
    ensures { LogarithmicRoomLaw }
{}

/// And from N rounds on, also where q = 1.
pub fn linear_room_law()
    ensures { LinearRoomLaw }
{}

/// Identifiers, of which there is one, are an input problem where they have ports enough, and each label of one stands around some passive node.
pub fn virtual_input_law()
    ensures { VirtualInputLaw }
{}

/// Where the trees of a hypergraph of such identifiers show different ones, a local algorithm solves a problem given them.
pub fn virtual_given_law()
    ensures { VirtualGivenLaw }
{}

/// With their sides exchanged they are unavoidable for lists below n, where they have more than (a - 1) 2^n ports and alike ones are joined.
pub fn virtual_unavoidable_law()
    ensures { VirtualUnavoidableLaw }
{}
