//! The search.
ghost use Rattle.re_cert.specs.Bounds.{last_problem};
ghost use Rattle.re_cert.specs.declared.certificate.Kind.TheVariants.{Fixed};
ghost use Rattle.re_shaping.specs.Extensions.{GoesOn};
ghost use Rattle.re_problem.specs.NamedProblems.{unnamed};
ghost use Rattle.re_problem.specs.Zero.{zero_place};
ghost use Rattle.re_relaxed.specs.Answers.{Answers};
ghost use Rattle.std.specs.Prelude.{◌≡◌, IfOk, IfSome, None};

use crate::classes::{has_classes, next_classes, one_class};
use crate::closing::{closed_behind, closed_raised};
use crate::relaxing::relaxation;
use crate::returning::{chain_behind, returned};
use crate::types::{Relaxed, Tried};
use crate::walk::Walk;
use re_cert::{Certificate, Kind, MAX_STEPS};
use re_chains::{LowerChain, copied_step};
use re_labels::{MAX_LABELS, NoMemory};
use re_problem::zero_round;
use re_shaping::{Extension, extended, takes_merges};
use std::alloc::Global;

/// Up to how many labels a problem has whose relaxations are looked at.
const MAX_TRIED: usize = 8;

/// At least as many partitions as so many labels have.
const MAX_PARTITIONS: u32 = 5_000;

/// What is asked of a relaxation.
#[derive(Clone, Copy)]
enum Way {
    /// Whether a closure behind its derived problem is a fixed point.
    Closure,
    /// Whether it comes back to itself, where it is one of the chain's last problem itself.
    Return,
    /// The same where it is one of a derived problem.
    ReturnBehind,
}

/// What is found, and the count of limits.
pub(crate) fn found_of(walk: &mut Walk, tried: Tried) -> Option<Certificate> {
    match tried {
        Tried::Found(certificate) => Some(certificate),
        Tried::Cut => {
            walk.pass();
            None
        }
        Tried::Open | Tried::Missing => None,
    }
}

// What the relaxation of the chain's last problem by these classes comes to.
fn found_by(
    alloc: Global,
    chain: &LowerChain,
    way: Way,
    classes: &[u8],
    walk: &mut Walk,
) -> Result<Option<Certificate>, NoMemory> {
    let relaxed = relaxation(alloc, chain.certificate.last(), classes)?;
    if !walk.takes(relaxed.problem())? {
        return Ok(None);
    }
    let tried = match way {
        Way::Closure => closed_behind(alloc, chain, &relaxed)?,
        Way::Return => returned(alloc, chain, false, classes, &relaxed)?,
        Way::ReturnBehind => returned(alloc, chain, true, classes, &relaxed)?,
    };
    Ok(found_of(walk, tried))
}

// The first that is found of those by so many classes.
fn found_among(
    alloc: Global,
    chain: &LowerChain,
    way: Way,
    count: u8,
    walk: &mut Walk,
) -> Result<Option<Certificate>, NoMemory> {
    let mut classes = one_class(alloc, chain.certificate.last().names().len())?;
    for _ in 0..MAX_PARTITIONS {
        if has_classes(classes.as_slice(), count) {
            let found = found_by(alloc, chain, way, classes.as_slice(), walk)?;
            if found.is_some() || walk.is_full() {
                return Ok(found);
            }
        }
        let Some(next) = next_classes(alloc, classes.as_slice(), count)? else {
            return Ok(None);
        };
        classes = next;
    }
    Ok(None)
}

// The first that is found of those by 2 classes, and then by 3.
fn found_closed(
    alloc: Global,
    chain: &LowerChain,
    walk: &mut Walk,
) -> Result<Option<Certificate>, NoMemory> {
    walk.begin();
    for count in 2..4 {
        let found = found_among(alloc, chain, Way::Closure, count, walk)?;
        if found.is_some() || walk.is_full() {
            return Ok(found);
        }
    }
    Ok(None)
}

// The first that is found of those of a problem that come back, by all partitions of its labels, those into most classes first.
fn found_returning(
    alloc: Global,
    chain: &LowerChain,
    way: Way,
    walk: &mut Walk,
) -> Result<Option<Certificate>, NoMemory> {
    let labels = chain.certificate.last().names().len();
    if labels > MAX_TRIED {
        return Ok(None);
    }
    walk.begin();
    for count in (2..MAX_TRIED as u8 + 1).rev() {
        let found = found_among(alloc, chain, way, count, walk)?;
        if found.is_some() || walk.is_full() {
            return Ok(found);
        }
    }
    Ok(None)
}

// The same behind so many steps.
fn found_behind(
    alloc: Global,
    chain: &LowerChain,
    steps: u8,
    walk: &mut Walk,
) -> Result<Option<Certificate>, NoMemory> {
    match chain_behind(alloc, chain, steps)? {
        Some(longer) => found_returning(alloc, &longer, Way::ReturnBehind, walk),
        None => {
            walk.pass();
            Ok(None)
        }
    }
}

// The first that is found behind diagrams in which this label may stand for another one.
fn found_raised_to(
    alloc: Global,
    chain: &LowerChain,
    high: u8,
    walk: &mut Walk,
) -> Result<Option<Certificate>, NoMemory> {
    for low in 0..MAX_TRIED as u8 {
        if low == high || low as usize >= chain.certificate.last().names().len() {
            continue;
        }
        if !walk.takes_one() {
            return Ok(None);
        }
        let tried = closed_raised(alloc, chain, low, high)?;
        if let Some(found) = found_of(walk, tried) {
            return Ok(Some(found));
        }
    }
    Ok(None)
}

// The first that is found behind diagrams of one edge.
fn found_raised(
    alloc: Global,
    chain: &LowerChain,
    walk: &mut Walk,
) -> Result<Option<Certificate>, NoMemory> {
    for high in 0..MAX_TRIED as u8 {
        if high as usize >= chain.certificate.last().names().len() {
            return Ok(None);
        }
        let found = found_raised_to(alloc, chain, high, walk)?;
        if found.is_some() || walk.is_full() {
            return Ok(found);
        }
    }
    Ok(None)
}

// The first that is found behind relaxations of the chain's last problem, which has few labels.
fn found_near(
    alloc: Global,
    chain: &LowerChain,
    walk: &mut Walk,
) -> Result<Option<Certificate>, NoMemory> {
    if chain.certificate.last().names().len() > MAX_TRIED {
        return Ok(None);
    }
    let found = found_closed(alloc, chain, walk)?;
    if found.is_some() || walk.is_full() {
        return Ok(found);
    }
    let found = found_raised(alloc, chain, walk)?;
    if found.is_some() || walk.is_full() {
        return Ok(found);
    }
    found_returning(alloc, chain, Way::Return, walk)
}

// The first that is found at all.
fn searched(
    alloc: Global,
    chain: &LowerChain,
    walk: &mut Walk,
) -> Result<Option<Certificate>, NoMemory> {
    if !takes_merges(alloc, &chain.certificate)? {
        return Ok(None);
    }
    let found = found_near(alloc, chain, walk)?;
    if found.is_some() || walk.is_full() {
        return Ok(found);
    }
    let found = found_behind(alloc, chain, 2, walk)?;
    if found.is_some() || walk.is_full() {
        return Ok(found);
    }
    found_behind(alloc, chain, 4, walk)
}

// What the certificate has behind the chain.
fn behind(alloc: Global, chain: &Certificate, found: &Certificate) -> Result<Extension, NoMemory>
    ensures { IfOk result (λ extension. extension.kind ≡ Fixed) }
{
    let mut steps = Vec::new(alloc);
    for step in found.steps().iter().skip(chain.steps().len()) {
        steps.push(copied_step(alloc, step)?)?;
    }
    Ok(Extension {
        kind: Kind::Fixed,
        back: found.back(),
        steps,
        renaming: Vec::from_slice(alloc, found.renaming())?,
    })
}

// The certificate, where it goes on from the chain.
fn judged(
    alloc: Global,
    chain: &Certificate,
    found: &Certificate,
) -> Result<Option<Certificate>, NoMemory>
    ensures { IfOk result (λ found. IfSome found (GoesOn Fixed MAX_STEPS MAX_LABELS chain.now)) }
{
    let extension = behind(alloc, chain, found)?;
    extended(alloc, chain, extension, MAX_STEPS as u8, MAX_LABELS)
}

/// What the search came to.
pub(crate) fn answer_of(
    alloc: Global,
    chain: &Certificate,
    walk: &Walk,
    found: Option<Certificate>,
) -> Result<Relaxed, NoMemory>
    requires { zero_place (unnamed (last_problem chain.now)) ≡ None }
    ensures { IfOk result (Answers chain.now) }
{
    if let Some(found) = found {
        if let Some(certificate) = judged(alloc, chain, &found)? {
            return Ok(Relaxed::Found(certificate));
        }
    }
    if walk.is_full() {
        return Ok(Relaxed::TooMany);
    }
    Ok(Relaxed::NotFound {
        nodes: walk.nodes(),
        cut: walk.cut(),
    })
}

/// Searches for a fixed point that goes on from a chain behind a relaxation, looking at so many relaxations at most; only where `takes_merges`
/// holds of the chain. What is found is accepted by `check`, and shows that no algorithm solves the chain's first problem in any number of rounds.
/// The answer is `Solvable` exactly where the chain's last problem is solvable without communication.
///
/// The crate's page says which relaxations are looked at, in what order, and what is asked of them.
pub fn find_relaxed(alloc: Global, chain: &LowerChain, nodes: u32) -> Result<Relaxed, NoMemory>
    ensures { IfOk result (Answers chain.now.certificate) }
{
    if let Some(place) = zero_round(chain.certificate.last()) {
        return Ok(Relaxed::Solvable(place));
    }
    let mut walk = Walk::new(alloc, nodes);
    let found = searched(alloc, chain, &mut walk)?;
    answer_of(alloc, &chain.certificate, &walk, found)
}
