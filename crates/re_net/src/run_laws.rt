//! The laws of inputs of `run`, and of runs.
ghost use Rattle.re_net.specs.Runs.{LegalLaw, PassiveLaw};
ghost use Rattle.re_net.specs.TreeTests.{JoinLaw, MessageLaw, NumberedLaw};

/// The test of a join holds exactly where a node may be joined there.
pub fn join_law()
    ensures { JoinLaw }
{}

/// The test of a finite tree holds exactly where at each node the ports taken are those from 1 to their number.
pub fn numbered_law()
    ensures { NumberedLaw }
{}

/// The test of a message holds exactly where it is one of the tree, with a number below the bound.
pub fn message_law()
    ensures { MessageLaw }
{}

/// Deliveries of messages of a tree have none that isn't legal exactly where the list of their messages is legal.
pub fn legal_law()
    ensures { LegalLaw }
{}

/// A passive node with as many edges as its side allows, all of whose neighbours output what an algorithm gives that solves a problem,
/// gets a passive configuration of the problem.
pub fn passive_law()
    ensures { PassiveLaw }
{}
