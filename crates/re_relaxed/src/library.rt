//! The library: problems that have names, with fixed points behind them.
ghost use Rattle.re_relaxed.specs.Library.{member_name, member_named};
ghost use Rattle.std.specs.Prelude.{◌≡◌};
ghost use Rattle.std.specs.Str.{bytes_eq};

/// A problem of the library, in each pair of degrees in which there is one.
#[derive(Clone, Copy, Debug, PartialEq, Eq)]
pub enum Member {
    /// An edge leads out of each active node, and exactly one edge of a passive node out of its active node.
    SinklessOrientation,
    /// The same with the sides exchanged: exactly one edge leads out of each active node, and an edge of each passive node out of its active node.
    SinklessExchanged,
    /// An edge leads out of each active node and another one into it, and exactly one edge of a passive node out of its active node.
    NoSinksNoSources,
    /// One edge of an active node is matched, and of the edges of a passive node all are or none is.
    PerfectMatching,
    /// Passive nodes have one of 2 colours, and the edges of an active node both.
    WeakSplitting,
    /// Active nodes have one of 2 colours, and the edges of a passive node of degree 3 or more both.
    HypergraphTwoColouring,
    /// Active nodes have one of 2 colours, on a graph; edges between nodes of one colour are oriented, and of those k lead out of a node, where 2 k + 2 is the
    /// degree, or it less one.
    ArbdefectiveTwoColouring,
    /// The same with 3 colours, where 3 k + 3 is the degree.
    ArbdefectiveThreeColouring,
    /// Active nodes of degree 4 or more have one of 2 colours, on a graph; one neighbour of a node may have its colour.
    DefectiveTwoColouring,
    /// Active nodes of degree 6 have one of 2 colours, on a graph; two neighbours of a node may have its colour.
    TwiceDefectiveTwoColouring,
    /// Active nodes have one of 2 colours, and those around a passive node different ones.
    TwoColouring,
    /// The same with 3 colours.
    ThreeColouring,
    /// The same with 4 colours.
    FourColouring,
    /// The same with 5 colours, around passive nodes of degree 2 to 4.
    FiveColouring,
}

const MEMBERS: [Member; 14] = [
    Member::SinklessOrientation,
    Member::SinklessExchanged,
    Member::NoSinksNoSources,
    Member::PerfectMatching,
    Member::WeakSplitting,
    Member::HypergraphTwoColouring,
    Member::ArbdefectiveTwoColouring,
    Member::ArbdefectiveThreeColouring,
    Member::DefectiveTwoColouring,
    Member::TwiceDefectiveTwoColouring,
    Member::TwoColouring,
    Member::ThreeColouring,
    Member::FourColouring,
    Member::FiveColouring,
];

/// The name of a problem of the library.
pub fn member_name(member: Member) -> &'static str
    ensures { result.now ≡ member_name member }
{
    match member {
        Member::SinklessOrientation => "sinkless-orientation",
        Member::SinklessExchanged => "sinkless-orientation-exchanged",
        Member::NoSinksNoSources => "no-sinks-no-sources",
        Member::PerfectMatching => "perfect-matching",
        Member::WeakSplitting => "weak-splitting",
        Member::HypergraphTwoColouring => "hypergraph-2-colouring",
        Member::ArbdefectiveTwoColouring => "arbdefective-2-colouring",
        Member::ArbdefectiveThreeColouring => "arbdefective-3-colouring",
        Member::DefectiveTwoColouring => "defective-2-colouring",
        Member::TwiceDefectiveTwoColouring => "defective-2-colouring-2",
        Member::TwoColouring => "2-colouring",
        Member::ThreeColouring => "3-colouring",
        Member::FourColouring => "4-colouring",
        Member::FiveColouring => "5-colouring",
    }
}

fn is_named(member: Member, name: &str) -> bool
    ensures { result ≡ bytes_eq (member_name member) name.now }
{
    member_name(member) == name
}

/// The problem of the library of this name. None exactly where there is none.
pub fn member_named(name: &str) -> Option<Member>
    ensures { result ≡ member_named name.now }
{
    MEMBERS
        .iter()
        .copied()
        .find(|member| is_named(*member, name))
}

/// All problems of the library, in its order.
pub(crate) fn members() -> &'static [Member] {
    &MEMBERS
}
