//! The search through a library of fixed points.
ghost use Rattle.re_relaxed.specs.Answers.{Answers};
ghost use Rattle.std.specs.Prelude.{IfOk};

use crate::closing::next_chain;
use crate::finding::{answer_of, found_of};
use crate::known::{Known, known_of, relaxed_over, taken_over};
use crate::library::{Member, members};
use crate::relaxing::copied;
use crate::types::{MAX_RELAXATIONS, Relaxed, Tried};
use crate::walk::Walk;
use re_bridge::{BridgeFault, bridge};
use re_cert::{Certificate, MAX_STEPS};
use re_chains::LowerChain;
use re_check::are_exchanged;
use re_labels::NoMemory;
use re_problem::{Problem, zero_round};
use re_shaping::takes_merges;
use std::alloc::Global;

/// How many derived problems come before the step to a problem of the library.
const MAX_BEHIND: u8 = 2;

/// How many labels each of these has at most.
const MAX_BEFORE: usize = 32;

/// How many configurations of one side a problem of a fixed point has at most that a step leads to.
const MAX_REACHED: usize = 100_000;

/// How many times fewer tries a step is searched for with behind each of these.
const FEWER: u32 = 10;

/// With how many tries the word searches for a step from the chain's last problem.
pub const MAX_TRIES: u32 = 200_000;

// A chain that is led on, whether its maps have to stay by sets, and with how many tries a step is searched for.
#[derive(Drop)]
struct Before {
    chain: LowerChain,
    by_sets: bool,
    tries: u32,
}

// Whether the problem has few configurations.
fn is_small(problem: &Problem) -> bool {
    problem.active().len() <= MAX_REACHED && problem.passive().len() <= MAX_REACHED
}

// What the fixed point comes to by a step to its problem of this number.
fn through_problem(
    alloc: Global,
    before: &Before,
    known: &Known,
    number: usize,
) -> Result<Tried, NoMemory> {
    let Some(problem) = known.problem(number) else {
        return Ok(Tried::Missing);
    };
    if before.chain.certificate.steps().len() >= MAX_STEPS {
        return Ok(Tried::Missing);
    }
    match bridge(alloc, &before.chain, problem, before.tries) {
        Ok(Some(longer)) => {
            let chain = LowerChain::new(longer);
            taken_over(alloc, &chain, known, number, before.by_sets)
        }
        Ok(None) => Ok(Tried::Missing),
        Err(BridgeFault::NoMemory) => Err(NoMemory),
        Err(_) => Ok(Tried::Cut),
    }
}

// Whether a step to the problem of this number is looked at.
fn is_near(before: &Before, known: &Known, number: usize) -> bool {
    match known.problem(number) {
        Some(problem) => {
            is_small(problem) && are_exchanged(before.chain.certificate.last(), problem)
        }
        None => false,
    }
}

// Whether a map of the labels to the fixed point's first problem is looked for.
fn may_relax(before: &Before, known: &Known) -> bool {
    match known.problem(0) {
        Some(first) => !before.by_sets
            && before.chain.certificate.last().degrees() == first.degrees(),
        None => false,
    }
}

// What is found where the last problem relaxes to the first one of the fixed point.
fn through_relaxation(
    alloc: Global,
    before: &Before,
    known: &Known,
    walk: &mut Walk,
) -> Result<Option<Certificate>, NoMemory> {
    if !may_relax(before, known) || !walk.takes_one() {
        return Ok(None);
    }
    let tried = relaxed_over(alloc, &before.chain, known, before.tries)?;
    Ok(found_of(walk, tried))
}

// What is found by a step to a problem of the fixed point.
fn through_steps(
    alloc: Global,
    before: &Before,
    known: &Known,
    walk: &mut Walk,
) -> Result<Option<Certificate>, NoMemory> {
    for number in 0..known.len() {
        if !is_near(before, known, number) {
            continue;
        }
        if !walk.takes_one() {
            return Ok(None);
        }
        let tried = through_problem(alloc, before, known, number)?;
        if let Some(found) = found_of(walk, tried) {
            return Ok(Some(found));
        }
    }
    Ok(None)
}

// What is found through the fixed point.
fn through_known(
    alloc: Global,
    before: &Before,
    known: &Known,
    walk: &mut Walk,
) -> Result<Option<Certificate>, NoMemory> {
    let found = through_relaxation(alloc, before, known, walk)?;
    if found.is_some() || walk.is_full() {
        return Ok(found);
    }
    through_steps(alloc, before, known, walk)
}

// What is found through the fixed point of the library's problem with these degrees, which is kept.
fn through_first(
    alloc: Global,
    before: &Before,
    member: Member,
    degrees: (u8, u8),
    kept: &mut Vec<Known>,
    walk: &mut Walk,
) -> Result<Option<Certificate>, NoMemory> {
    let Some(known) = known_of(alloc, member, degrees.0, degrees.1)? else {
        return Ok(None);
    };
    let found = through_known(alloc, before, &known, walk)?;
    kept.push(known)?;
    Ok(found)
}

// What is found through the fixed points of a problem of the library, with the degrees of the chain's last problem and with these exchanged.
fn through_member(
    alloc: Global,
    before: &Before,
    member: Member,
    kept: &mut Vec<Known>,
    walk: &mut Walk,
) -> Result<Option<Certificate>, NoMemory> {
    let active = before.chain.certificate.last().active().degree();
    let passive = before.chain.certificate.last().passive().degree();
    let found = through_first(alloc, before, member, (active, passive), kept, walk)?;
    if found.is_some() || active == passive {
        return Ok(found);
    }
    through_first(alloc, before, member, (passive, active), kept, walk)
}

// What is found through the problem of the library that is asked for, or through the first that leads to something.
fn through_asked(
    alloc: Global,
    before: &Before,
    asked: Option<Member>,
    kept: &mut Vec<Known>,
    walk: &mut Walk,
) -> Result<Option<Certificate>, NoMemory> {
    if let Some(member) = asked {
        return through_member(alloc, before, member, kept, walk);
    }
    for member in members() {
        let found = through_member(alloc, before, *member, kept, walk)?;
        if found.is_some() {
            return Ok(found);
        }
    }
    Ok(None)
}

// What is found through one of these fixed points.
fn through_kept(
    alloc: Global,
    before: &Before,
    kept: &[Known],
    walk: &mut Walk,
) -> Result<Option<Certificate>, NoMemory> {
    for known in kept {
        let found = through_known(alloc, before, known, walk)?;
        if found.is_some() {
            return Ok(found);
        }
    }
    Ok(None)
}

// What is found through one of these behind at most so many derived problems, from one on.
fn through_behind(
    alloc: Global,
    before: &Before,
    kept: &[Known],
    more: u8,
    walk: &mut Walk,
) -> Result<Option<Certificate>, NoMemory> {
    if more == 0 {
        return Ok(None);
    }
    let Some(chain) = next_chain(alloc, &before.chain, MAX_BEFORE)? else {
        walk.pass();
        return Ok(None);
    };
    let next = Before {
        chain,
        by_sets: before.by_sets,
        tries: before.tries / FEWER,
    };
    let found = through_kept(alloc, &next, kept, walk)?;
    if found.is_some() {
        return Ok(found);
    }
    through_behind(alloc, &next, kept, more - 1, walk)
}

// The first that is found at all.
fn through_library(
    alloc: Global,
    chain: &LowerChain,
    asked: Option<Member>,
    tries: u32,
    walk: &mut Walk,
) -> Result<Option<Certificate>, NoMemory> {
    let by_sets = !takes_merges(alloc, &chain.certificate)?;
    let before = Before {
        chain: copied(alloc, chain)?,
        by_sets,
        tries,
    };
    let mut kept = Vec::new(alloc);
    let found = through_asked(alloc, &before, asked, &mut kept, walk)?;
    if found.is_some() {
        return Ok(found);
    }
    through_behind(alloc, &before, kept.as_slice(), MAX_BEHIND, walk)
}

/// Searches for a fixed point that goes on from a chain through the library, or through the problem of it that is asked for. What is found is accepted
/// by `check`, and shows that no algorithm solves the chain's first problem in any number of rounds. The answer is `Solvable` exactly where the
/// chain's last problem is solvable without communication.
///
/// The crate's page says which steps are looked at, and in what order. The library has 14 problems, so at most 28 fixed points, each of at most 5 problems;
/// a map of the labels is searched for with at most `tries` tries, a map by sets and one by rows, too, behind one derived problem with a tenth of them, and
/// behind two with a hundredth. Beside this it costs two derived problems and the closures of the library's problems, the dearest of which is that of colouring
/// with 5 colours in degree 5, with 135,810 configurations.
pub fn find_through(
    alloc: Global,
    chain: &LowerChain,
    asked: Option<Member>,
    tries: u32,
) -> Result<Relaxed, NoMemory>
    ensures { IfOk result (Answers chain.now.certificate) }
{
    if let Some(place) = zero_round(chain.certificate.last()) {
        return Ok(Relaxed::Solvable(place));
    }
    let mut walk = Walk::new(alloc, MAX_RELAXATIONS);
    let found = through_library(alloc, chain, asked, tries, &mut walk)?;
    answer_of(alloc, &chain.certificate, &walk, found)
}
