//! The search for multisets with which a problem is greedy.
ghost use Rattle.re_greedy.specs.Findings.{IsFinding, IsRefused, IsSearched, IsWhole};
ghost use Rattle.re_greedy.specs.Partials.{AreAdded, IsPart, IsUniverse};
ghost use Rattle.re_problem.specs.NamedProblems.{unnamed};
ghost use Rattle.std.specs.Prelude.{◌≡◌, ◌<◌, ◌≤◌, ◌↔◌, ◌++◌, ◌∷◌, [], Contains, IfOk, IfSome, IsTrue, ℕ, List, length, slice_index_or};

use crate::answering::{Reply, reply_to};
use crate::partials::Partial;
use re_labels::{Constraint, NoMemory};
use re_problem::Problem;
use std::alloc::Global;

/// At most so many multisets are looked at.
pub const MAX_MULTISETS: usize = 1024;

/// At most so many of them are taken away one after another.
const MAX_DEPTH: u32 = 300;

/// Whether a problem is greedy.
#[derive(Drop)]
pub enum Greediness {
    /// It is with these multisets.
    Greedy(Vec<Partial>),
    /// It is with none.
    NotGreedy,
    /// The limits weren't enough.
    Unknown,
}

/// How much a search may do: what it has left.
#[derive(Drop, Debug)]
pub struct Work {
    /// So many lists of multisets may be tried.
    pub lists: u32,
    /// So many multisets of what an active node may see may be tried.
    pub tries: u32,
}

/// Whether the multiset is one of the list.
pub(crate) fn has_member(members: &[Partial], labels: &[u8]) -> bool
    ensures { IsTrue result ↔ Contains members.now labels.now }
{
    for member in members {
        if member.labels() == labels {
            return true;
        }
    }
    false
}

// The list without the multiset.
fn without_member(
    alloc: Global,
    members: &[Partial],
    gone: &Partial,
) -> Result<Vec<Partial>, NoMemory>
    ensures { IfOk result (λ left. (labels : List ℕ) → Contains left.items labels ↔ (Contains members.now labels × (labels ≡ gone.now → ⊥))) }
{
    let mut left = Vec::new(alloc);
    for member in members {
        if member.labels() == gone.labels() {
            continue;
        }
        left.push(member.copy())?;
    }
    Ok(left)
}

// The list with the multiset behind it.
fn with_member(alloc: Global, members: &[Partial], last: &Partial) -> Result<Vec<Partial>, NoMemory>
    ensures { IfOk result (λ all. all.items ≡ members.now ++ last.now ∷ []) }
{
    let mut all = copied(alloc, members)?;
    all.push(last.copy())?;
    Ok(all)
}

// The same list.
fn copied(alloc: Global, members: &[Partial]) -> Result<Vec<Partial>, NoMemory>
    ensures { IfOk result (λ all. all.items ≡ members.now) }
{
    let mut all = Vec::new(alloc);
    for member in members {
        all.push(member.copy())?;
    }
    Ok(all)
}

// Searches the lists without one of these multisets that have all that are to be kept.
#[cycle(searching)]
fn search_without(
    alloc: Global,
    problem: &Problem,
    members: &[Partial],
    kept: &[Partial],
    around: &[Partial],
    depth: u32,
    work: &mut Work,
) -> Result<Greediness, NoMemory>
    requires whole { IsWhole (unnamed problem.now) members.now kept.now }
    requires around { IsPart around.now members.now }
    requires depth { 0 < depth }
    requires few { length around.now ≤ 6 }
    ensures { IfOk result (IsRefused (unnamed problem.now) members.now kept.now around.now) }
{
    let [first, others @ ..] = around else {
        return Ok(Greediness::NotGreedy);
    };
    if has_member(kept, first.labels()) {
        return search_without(alloc, problem, members, kept, others, depth, work);
    }
    let left = without_member(alloc, members, first)?;
    match search(alloc, problem, left.as_slice(), kept, depth - 1, work)? {
        Greediness::NotGreedy => {}
        answer => return Ok(answer),
    }
    let more = with_member(alloc, kept, first)?;
    search_without(
        alloc,
        problem,
        members,
        more.as_slice(),
        others,
        depth,
        work,
    )
}

// Searches the lists of these multisets that have all that are to be kept.
#[cycle(searching)]
fn search(
    alloc: Global,
    problem: &Problem,
    members: &[Partial],
    kept: &[Partial],
    depth: u32,
    work: &mut Work,
) -> Result<Greediness, NoMemory>
    requires { IsWhole (unnamed problem.now) members.now kept.now }
    ensures { IfOk result (IsSearched (unnamed problem.now) members.now kept.now) }
{
    let _degree = problem.active().degree();
    if depth == 0 || work.lists == 0 {
        return Ok(Greediness::Unknown);
    }
    work.lists -= 1;
    match reply_to(alloc, problem, members, &mut work.tries)? {
        Reply::Stuck(around) => {
            search_without(
                alloc,
                problem,
                members,
                kept,
                around.as_slice(),
                depth,
                work,
            )
        }
        Reply::Answered => Ok(Greediness::Greedy(copied(alloc, members)?)),
        Reply::Limit => Ok(Greediness::Unknown),
    }
}

// The multiset at this place.
fn copy_at(members: &[Partial], place: usize) -> Partial
    requires { place < length members.now }
    ensures { result ≡ slice_index_or members.now place [] }
{
    members[place].copy()
}

// Adds what is left of the multiset without one of its labels, for each of them; false where that would be too many.
fn add_parts(all: &mut Vec<Partial>, labels: &Partial, degree: u8) -> Result<bool, NoMemory>
    requires few { length labels.now ≤ degree }
    ensures { IfOk result (λ added. IsTrue added → AreAdded degree all.old.items labels.now (length labels.now) all.new.items) }
{
    for place in 0..labels.labels().len() {
        let part = labels.without(place);
        if !has_member(all.as_slice(), part.labels()) {
            if all.len() >= MAX_MULTISETS {
                return Ok(false);
            }
            all.push(part)?;
        }
    }
    Ok(true)
}

// The passive configurations and all that is left of them when labels are taken away, or None where these are too many.
fn universe(alloc: Global, passive: &Constraint) -> Result<Option<Vec<Partial>>, NoMemory>
    ensures { IfOk result (λ answer. IfSome answer (λ all. IsUniverse passive.now all.items)) }
{
    if passive.len() > MAX_MULTISETS {
        return Ok(None);
    }
    let mut all = Vec::new(alloc);
    for config in passive.configs() {
        all.push(Partial::of_config(config))?;
    }
    for place in 0..MAX_MULTISETS {
        if place >= all.len() {
            return Ok(Some(all));
        }
        let labels = copy_at(all.as_slice(), place);
        if !add_parts(&mut all, &labels, passive.degree())? {
            return Ok(None);
        }
    }
    Ok(None)
}

// Searches the lists of these multisets.
fn search_all(
    alloc: Global,
    problem: &Problem,
    all: &[Partial],
    work: &mut Work,
) -> Result<Greediness, NoMemory>
    requires { IsUniverse problem.now.passive all.now }
    ensures { IfOk result (IsFinding (unnamed problem.now)) }
{
    let _degrees = problem.degrees();
    if !has_member(all, &[]) {
        return Ok(Greediness::NotGreedy);
    }
    let kept = with_member(alloc, &[], &Partial::from_labels(&[]))?;
    search(alloc, problem, all, kept.as_slice(), MAX_DEPTH, work)
}

/// A list of multisets with which the problem is greedy; `NotGreedy` only where there is none, and `Unknown` where the work is done or `MAX_MULTISETS` or
/// `MAX_DEPTH` weren't enough before that is known. It begins with the passive configurations and all that is left of them when labels are taken away. Where
/// active nodes can't answer what they may see, one of the multisets that they see isn't in any list: it tries the lists without the first of them, then
/// those with it and without the second, and so on.
pub fn find_greedy(
    alloc: Global,
    problem: &Problem,
    work: &mut Work,
) -> Result<Greediness, NoMemory>
    ensures { IfOk result (IsFinding (unnamed problem.now)) }
{
    match universe(alloc, problem.passive())? {
        Some(all) => search_all(alloc, problem, all.as_slice(), work),
        None => Ok(Greediness::Unknown),
    }
}
