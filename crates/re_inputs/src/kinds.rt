//! Which input problems there are, and their parameters.
ghost use Rattle.re_families.specs.Families.{is_degree};
ghost use Rattle.re_inputs.specs.NamedInputs.{fits};
ghost use Rattle.std.specs.Prelude.{◌≡◌};

/// A kind of input problems.
#[derive(Clone, Copy, Debug, PartialEq, Eq)]
pub enum InputKind {
    /// A proper colouring with so many colours: all edges of an active node have its colour, and those of a passive node different ones.
    Colouring,
    /// A proper colouring of the passive nodes, of edges where these have two ends, with so many colours, or for 0 with as many as the active
    /// degree: the edges of an active node have different colours, and those of a passive node one, which is its own.
    Edges,
    /// The two sides of a bipartite graph whose edges are the passive nodes.
    Sides,
    /// An orientation: exactly one edge of each passive node leads out of its active node.
    Orientation,
    /// An orientation by which edges lead into each active node and out of it.
    Both,
    /// One label, which says nothing.
    Nothing,
}

fn is_degree(degree: u32) -> bool
    ensures { result ≡ is_degree degree }
{
    2 <= degree && degree <= 6
}

/// Whether there is the input problem of this kind with these degrees and this number: both degrees are from 2 to 6, and the passive one is
/// 2 for `Sides`; the number is that of the colours, for `Colouring` from the passive degree to 16, and for `Edges` from the active degree to
/// 16, or 0; it is 0 for each other kind.
pub fn fits(kind: InputKind, active: u32, passive: u32, number: u32) -> bool
    ensures { result ≡ fits kind active passive number }
{
    let degrees = is_degree(active) && is_degree(passive);
    match kind {
        InputKind::Colouring => degrees && passive <= number && number <= 16,
        InputKind::Edges => degrees && (number == 0 || active <= number && number <= 16),
        InputKind::Sides => degrees && passive == 2 && number == 0,
        _ => degrees && number == 0,
    }
}
