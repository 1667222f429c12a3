//! The laws of finite trees and of rounds on them.
ghost use Rattle.re_net.specs.Laws.{AroundLaw, CutSurroundingsLaw, DeliveriesLaw, DeliveryLaw, EdgeLaw, FullAroundLaw, FullLaw, GrowingLaw, MoreMessagesLaw, RoundLaw, SurroundingsLaw};

/// In a numbered tree a node's surroundings, seen from the neighbour over a port, are the neighbour's surroundings of a radius less by one.
pub fn surroundings_law<E>()
    ensures { SurroundingsLaw E }
{}

/// Surroundings, cut to a smaller radius, are those of this radius.
pub fn cut_surroundings_law<E>()
    ensures { CutSurroundingsLaw E }
{}

/// In a numbered tree a node's surroundings of a radius more are put together from the contents of its neighbours' messages.
pub fn growing_law()
    ensures { GrowingLaw }
{}

/// An edge is seen from both of its ends, which are of different sides.
pub fn edge_law()
    ensures { EdgeLaw }
{}

/// Full surroundings are a view of the node's side.
pub fn full_law<E>()
    ensures { FullLaw E }
{}

/// A node with as many edges as its side allows, all of whose neighbours have full surroundings, has full surroundings of a radius more.
pub fn full_around_law()
    ensures { FullAroundLaw }
{}

/// A node has come to a round exactly where it is within the bound and each neighbour has delivered its messages with a smaller number
/// over the shared edge.
pub fn round_law()
    ensures { RoundLaw }
{}

/// With more messages no node stands at an earlier round.
pub fn more_messages_law()
    ensures { MoreMessagesLaw }
{}

/// A delivery adds its message and no other, and moves no node but the one that the message comes to.
pub fn delivery_law()
    ensures { DeliveryLaw }
{}

/// The messages delivered one after another are those of the list, so each node stands at the round of the list, in whatever order
/// and however often they came.
pub fn deliveries_law()
    ensures { DeliveriesLaw }
{}

/// Around a node of a numbered tree with as many edges as its side allows, the labels that its neighbours give to the shared edges by their
/// surroundings are those that the node finds in its own surroundings of a radius more.
pub fn around_law()
    ensures { AroundLaw }
{}
