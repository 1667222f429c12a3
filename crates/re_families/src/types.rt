//! Which families there are, and what may be wrong with their parameters.
ghost use Rattle.std.specs.Prelude.{◌≡◌};

use re_labels::NoMemory;

/// A family of problems.
#[derive(Clone, Copy, Debug, PartialEq, Eq)]
pub enum Family {
    /// Colourings by so many colours: all edges of an active node have one colour, and those of a passive node have different ones.
    Colouring,
    /// Matchings, perfect ones where the passive degree is 2: an active node has one matched edge, and of the edges of a passive node all
    /// are matched or none is.
    Matching,
    /// Orientations without sinks (Brandt and others, STOC 2016): an active node has an edge that leads out of it, and of the edges of a
    /// passive node exactly one leads out of its active node.
    Orientation,
    /// Maximal independent sets in the encoding of Balliu and others (FOCS 2019): a passive node is an edge, and an active node is one of
    /// the set or points to a neighbour in the set.
    Mis,
}

/// Why there is no such problem.
#[derive(Clone, Copy, Debug, PartialEq, Eq)]
pub enum FamilyFault {
    /// A parameter has this value, and is out of its range: the first one in the order active degree, passive degree, number.
    OutOfRange(u8),
    /// There was no memory.
    NoMemory,
}

impl From<NoMemory> for FamilyFault {
    ghost use Rattle.re_families.specs.declared.types.FamilyFault.TheVariants.{NoMemory as no_memory};

    ghost from_gives = { λ _ e. e ≡ no_memory };

    fn from(_: NoMemory) -> Self {
        FamilyFault::NoMemory
    }
}
