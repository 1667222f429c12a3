//! Numbers of rounds that are enough given a proper colouring of one side with few colours.
ghost use Rattle.re_evidence.specs.Colours.{IsColouringOf, few_colours};
ghost use Rattle.re_settle.specs.Coloured.{IsColoured};
ghost use Rattle.std.specs.Prelude.{◌≡◌, IfOk, IfSome};

use crate::bounds::upper_chain;
use crate::finders::shortest_given;
use crate::measures::{coloured_steps, doublings, greatest_degree, is_small, shortest_labels};
use crate::texts::has_given_text;
use crate::types::{Coloured, ColouredWay};
use re_evidence::{colouring_of, few_colours};
use re_given_words::{Counted, RoundsTexts, count_within};
use re_going_on::Shortest;
use re_labels::{NoMemory, Side};
use re_problem::Problem;
use std::alloc::Global;

/// Up to how many rounds are counted given colours.
const COLOURED_ROUNDS: u8 = 8;

/// Up to how many labels problems have from which steps are taken given colours of nodes, before dearer ways.
const NODES_LABELS: u8 = 16;

/// Up to how many they have given colours of edges.
const EDGES_LABELS: u8 = 8;

/// Up to how many they have given colours of nodes behind dearer ways.
const LATE_LABELS: u8 = 24;

/// Up to how many configurations the colouring of edges has given which few labels are kept.
const EDGES_SIZE: usize = 64;

/// Up to how many configurations a problem has of which few labels are kept given colours.
const SHORTEST_SIZE: usize = 8;

// A number of rounds of at most `COLOURED_ROUNDS` that is enough given a proper colouring of the side with one colour more than a node of it meets
// others, found by steps to problems of at most so many labels.
fn counted_way(
    alloc: Global,
    problem: &Problem,
    side: Side,
    labels: u8,
    times: u8,
) -> Result<Option<Coloured>, NoMemory>
    ensures { IfOk result (λ found. IfSome found (IsColoured times problem.now)) }
{
    let _names = problem.names();
    let _times = times;
    let colours = few_colours(problem, side);
    let Some(input) = colouring_of(alloc, problem, side, colours)? else {
        return Ok(None);
    };
    let texts = RoundsTexts {
        problem: problem.copy()?,
        input: Some(input),
    };
    match count_within(alloc, &texts, COLOURED_ROUNDS, labels)? {
        Some(Counted::Exactly(_)) => Ok(Some(Coloured {
            side,
            colours,
            way: ColouredWay::Rounds(COLOURED_ROUNDS),
        })),
        _ => Ok(None),
    }
}

// The shortest upper bound that is found with few labels, given this proper colouring of the side.
fn shortest_way(
    alloc: Global,
    problem: &Problem,
    side: Side,
    colours: u8,
    input: &Problem,
    times: u8,
) -> Result<Option<Coloured>, NoMemory>
    requires colours { colours ≡ few_colours side problem.now.active.degree problem.now.passive.degree }
    requires input { IsColouringOf problem.now side colours input.now }
    ensures { IfOk result (λ found. IfSome found (IsColoured times problem.now)) }
{
    let doublings = doublings(times);
    let steps = coloured_steps(doublings);
    let labels = shortest_labels(greatest_degree(problem), doublings);
    let chain = upper_chain(alloc, problem.copy()?);
    let Shortest::Found(certificate) = shortest_given(alloc, &chain, input, steps, labels)? else {
        return Ok(None);
    };
    let has = has_given_text(alloc, &certificate, input)?;
    if !has {
        return Ok(None);
    }
    Ok(Some(Coloured {
        side,
        colours,
        way: ColouredWay::Shortest(steps, labels),
    }))
}

// The same of a proper colouring of the side with one colour more than a node of it meets others, where the problem is small.
fn shortened_way(
    alloc: Global,
    problem: &Problem,
    side: Side,
    times: u8,
) -> Result<Option<Coloured>, NoMemory>
    ensures { IfOk result (λ found. IfSome found (IsColoured times problem.now)) }
{
    if !is_small(problem, SHORTEST_SIZE, times) {
        return Ok(None);
    }
    let colours = few_colours(problem, side);
    match colouring_of(alloc, problem, side, colours)? {
        Some(input) => {
            if side == Side::Passive && !is_small(&input, EDGES_SIZE, times) {
                return Ok(None);
            }
            shortest_way(alloc, problem, side, colours, &input, times)
        }
        None => Ok(None),
    }
}

/// The first words that show that some number of rounds is enough given few colours of nodes, or of edges, of those that cost little.
pub(crate) fn soon_coloured(
    alloc: Global,
    problem: &Problem,
    times: u8,
) -> Result<Option<Coloured>, NoMemory>
    ensures { IfOk result (λ found. IfSome found (IsColoured times problem.now)) }
{
    match counted_way(alloc, problem, Side::Active, NODES_LABELS, times)? {
        Some(coloured) => Ok(Some(coloured)),
        None => counted_way(alloc, problem, Side::Passive, EDGES_LABELS, times),
    }
}

/// The same of those that cost more.
pub(crate) fn late_coloured(
    alloc: Global,
    problem: &Problem,
    times: u8,
) -> Result<Option<Coloured>, NoMemory>
    ensures { IfOk result (λ found. IfSome found (IsColoured times problem.now)) }
{
    if let Some(coloured) = shortened_way(alloc, problem, Side::Active, times)? {
        return Ok(Some(coloured));
    }
    if let Some(coloured) = counted_way(alloc, problem, Side::Active, LATE_LABELS, times)? {
        return Ok(Some(coloured));
    }
    shortened_way(alloc, problem, Side::Passive, times)
}
