//! Proper colourings with few colours.
ghost use Rattle.re_evidence.specs.Colours.{FindsColouring, IsColouringOf, few_colours, input_kind};
ghost use Rattle.std.specs.Prelude.{◌≡◌, IfOk, IfSome};

use re_inputs::{InputKind, fits, input};
use re_labels::{NoMemory, Side};
use re_problem::Problem;
use std::alloc::Global;

/// One colour more than a node of the side meets others of it.
pub fn few_colours(problem: &Problem, side: Side) -> u8
    ensures { result ≡ few_colours side problem.now.active.degree problem.now.passive.degree }
{
    let active = problem.active().degree();
    let passive = problem.passive().degree();
    match side {
        Side::Active => active * (passive - 1) + 1,
        Side::Passive => passive * (active - 1) + 1,
    }
}

// What input problem a proper colouring of the side is.
fn input_kind(side: Side) -> InputKind
    ensures { result ≡ input_kind side }
{
    match side {
        Side::Active => InputKind::Colouring,
        Side::Passive => InputKind::Edges,
    }
}

/// The proper colouring of the side with so many colours, with the names that `input` gives it, or None exactly where `input` has none.
pub fn colouring_of(
    alloc: Global,
    problem: &Problem,
    side: Side,
    colours: u8,
) -> Result<Option<Problem>, NoMemory>
    requires { colours ≡ few_colours side problem.now.active.degree problem.now.passive.degree }
    ensures colouring { IfOk result (λ found. IfSome found (IsColouringOf problem.now side colours)) }
    ensures named { IfOk result (FindsColouring side problem.now) }
{
    let _names = problem.names();
    let active = problem.active().degree();
    let passive = problem.passive().degree();
    let kind = input_kind(side);
    if !fits(
        kind,
        u32::from(active),
        u32::from(passive),
        u32::from(colours),
    ) {
        return Ok(None);
    }
    Ok(Some(input(alloc, kind, active, passive, colours)?))
}
