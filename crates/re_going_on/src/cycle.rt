//! The certificate of the cycle.
ghost use Rattle.re_cert.specs.declared.certificate.Kind.TheVariants.{Fixed};
ghost use Rattle.re_going_on.specs.CycleAnswers.{Answers, IsFailure};
ghost use Rattle.std.specs.Prelude.{◌≡◌, IfOk, IfSome};

use crate::cycle_nodes::{Graph, Return};
use crate::cycle_walking::{Left, Walk, Walked};
use re_cert::{Certificate, Kind, MAX_STEPS, Step};
use re_chains::LowerChain;
use re_given_words::extended_in;
use re_labels::{MAX_LABELS, NoMemory};
use re_problem::LabelMap;
use re_settings::Setting;
use re_shaping::{Extension, route_steps, takes_merges};
use std::alloc::Global;

/// What the search comes to.
#[derive(Drop)]
pub enum Cycle {
    /// The certificate of a fixed point, which goes on from the given chain.
    Found(Certificate),
    /// None was found. That says nothing of the problem.
    NotFound {
        /// How many problems were looked at.
        nodes: u32,
        /// How many times the derived problem of one passed a limit, a renaming of two was given up, or merges of the chain's last problem
        /// couldn't be looked at.
        cut: u32,
    },
    /// None was found among the most problems that may be looked at.
    TooMany,
}

// How far a search goes: how many further steps, how many merges in each, over how many problems.
#[derive(Clone, Copy)]
struct Size {
    steps: u8,
    merges: u8,
    nodes: u32,
}

// Each label with its image.
fn pairs_of(alloc: Global, map: &LabelMap) -> Result<Vec<(u8, u8)>, NoMemory> {
    let mut pairs = Vec::new(alloc);
    for (label, image) in (0..MAX_LABELS).zip(map.images()) {
        pairs.push((label, *image))?;
    }
    Ok(pairs)
}

// Each of so many labels with itself.
fn own_pairs(alloc: Global, labels: usize) -> Result<Vec<(u8, u8)>, NoMemory> {
    let mut pairs = Vec::new(alloc);
    for label in 0..labels.min(MAX_LABELS as usize) as u8 {
        pairs.push((label, label))?;
    }
    Ok(pairs)
}

// The fixed point that comes back to the problem of this number, with these steps and this renaming.
fn fixed(number: usize, steps: Vec<Step>, renaming: Vec<(u8, u8)>) -> Extension
    ensures { result.kind ≡ Fixed }
{
    Extension {
        kind: Kind::Fixed,
        back: number.min(MAX_STEPS) as u8,
        steps,
        renaming,
    }
}

// What a search comes to: what makes a fixed point behind the chain, if a way back was found; whether there were too many problems; how many
// were looked at, and how many limits were passed, or renamings given up.
#[derive(Drop)]
struct Searched {
    way: Option<Extension>,
    full: bool,
    nodes: u32,
    cut: u32,
}

impl Searched {
    // The answer where there is no fixed point.
    fn failed(&self) -> Cycle
        ensures { IsFailure result }
    {
        if self.full {
            Cycle::TooMany
        } else {
            Cycle::NotFound {
                nodes: self.nodes,
                cut: self.cut,
            }
        }
    }
}

// What makes the fixed point along the walk.
fn along(
    alloc: Global,
    chain: &Certificate,
    graph: &Graph,
    walk: &Return,
) -> Result<Extension, NoMemory>
    ensures { IfOk result (λ way. way.kind ≡ Fixed) }
{
    let (number, labels) = graph.back_of(walk);
    let more = route_steps(alloc, chain, graph.route(walk)?)?;
    Ok(fixed(number, more, own_pairs(alloc, labels)?))
}

// What makes a fixed point of the chain, whose last problem is an earlier one.
fn at_once(alloc: Global, number: usize, map: &LabelMap) -> Result<Extension, NoMemory>
    ensures { IfOk result (λ way. way.kind ≡ Fixed) }
{
    Ok(fixed(number, Vec::new(alloc), pairs_of(alloc, map)?))
}

// What makes the fixed point where the walk found a way back.
fn way_of(
    alloc: Global,
    chain: &Certificate,
    graph: &Graph,
    walked: &Walked,
) -> Result<Option<Extension>, NoMemory>
    ensures { IfOk result (λ found. IfSome found (λ way. way.kind ≡ Fixed)) }
{
    match walked {
        Walked::Start(number, map) => Ok(Some(at_once(alloc, *number, map)?)),
        Walked::Back(walk) => Ok(Some(along(alloc, chain, graph, walk)?)),
        Walked::Ended | Walked::Full => Ok(None),
    }
}

// What is found behind the chain; one of the merges of the first step may be of labels of the chain's last problem, where that is asked. Where it can't
// be, though merges are asked for, it counts as cut once.
fn look_behind(
    alloc: Global,
    setting: &Setting,
    chain: &Certificate,
    size: Size,
    begins: bool,
) -> Result<Searched, NoMemory>
    ensures { IfOk result (λ found. IfSome found.way (λ way. way.kind ≡ Fixed)) }
{
    let before = chain.steps().len().min(MAX_STEPS);
    let room = MAX_STEPS.saturating_sub(before);
    let depth = (room.min(MAX_STEPS) as u8).min(size.steps);
    let mut walk = Walk {
        alloc,
        graph: Graph::of_chain(alloc, chain)?,
        left: Left {
            setting,
            steps: before as u8,
        },
        most: size.nodes as usize,
        merges: size.merges,
        begins,
        limits: 0,
    };
    let walked = walk.walk(depth)?;
    let once = !begins && size.merges > 0 && !takes_merges(alloc, chain)?;
    let cut = walk.limits.saturating_add(walk.graph.given_up());
    Ok(Searched {
        way: way_of(alloc, chain, &walk.graph, &walked)?,
        full: matches!(walked, Walked::Full),
        nodes: walk.graph.len().min(u32::MAX as usize) as u32,
        cut: cut.saturating_add(u32::from(once)),
    })
}

// The answer by what is found.
fn answer_of(
    alloc: Global,
    setting: &Setting,
    chain: &Certificate,
    steps: u8,
    found: Searched,
) -> Result<Cycle, NoMemory>
    requires { IfSome found.way (λ way. way.kind ≡ Fixed) }
    ensures { IfOk result (Answers setting.now steps chain.now) }
{
    let failed = found.failed();
    let Some(way) = found.way else {
        return Ok(failed);
    };
    match extended_in(alloc, setting, chain, way, steps, MAX_LABELS)? {
        Some(certificate) => Ok(Cycle::Found(certificate)),
        None => Ok(failed),
    }
}

// Whether it is searched once more behind this answer.
fn goes_on(
    alloc: Global,
    chain: &Certificate,
    merges: u8,
    answer: &Cycle,
) -> Result<bool, NoMemory> {
    match answer {
        Cycle::NotFound { .. } => Ok(merges > 0 && takes_merges(alloc, chain)?),
        _ => Ok(false),
    }
}

/// Searches for a fixed point that goes on from a chain of kind lower: with at most so many further steps, each to what at most so many merges
/// have made of a derived problem, looking at so many problems at most. Where there is none, it searches once more, where one of the merges of
/// the first step may be of labels of the chain's last problem itself; only where `takes_merges` holds of the chain. What is found is taken in
/// the setting, and shows that no algorithm solves the chain's first problem there in any number of rounds. The walk leaves out what is solvable
/// without communication, and given an input problem what `ends_after` of `re_settings` knows to be solvable in 0 rounds given it, exchanged
/// as often as there are steps; the chain's own last problem isn't asked.
///
/// The crate's page says in what order the problems are looked at, and what is kept of them.
pub fn find_cycle(
    alloc: Global,
    setting: &Setting,
    chain: &LowerChain,
    steps: u8,
    merges: u8,
    nodes: u32,
) -> Result<Cycle, NoMemory>
    ensures { IfOk result (Answers setting.now steps chain.now.certificate) }
{
    let chain = &chain.certificate;
    let size = Size {
        steps,
        merges,
        nodes,
    };
    let found = look_behind(alloc, setting, chain, size, false)?;
    let answer = answer_of(alloc, setting, chain, steps, found)?;
    if goes_on(alloc, chain, merges, &answer)? {
        let found = look_behind(alloc, setting, chain, size, true)?;
        return answer_of(alloc, setting, chain, steps, found);
    }
    Ok(answer)
}
