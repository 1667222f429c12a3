//! Whether active nodes can answer all that they may see.
ghost use Rattle.re_greedy.specs.Findings.{IsReply, IsTried};
ghost use Rattle.re_labels.specs.Rows.{placed};
ghost use Rattle.re_labels.specs.GoodRows.{is_allowed};
ghost use Rattle.re_problem.specs.NamedProblems.{unnamed};
ghost use Rattle.std.specs.List.{AllByRecursion};
ghost use Rattle.std.specs.Prelude.{◌≡◌, ◌<◌, ◌^◌, IfOk, length};

use crate::joining::hardest_of;
use crate::partials::Partial;
use arrayvec::ArrayVec;
use re_labels::{Constraint, LabelSet, Multisets, NoMemory, Picks, Row};
use re_problem::Problem;
use std::alloc::Global;

/// What comes of trying.
#[derive(Drop)]
pub(crate) enum Tried {
    /// These places can't be answered.
    Stuck(Picks),
    /// All can.
    Answered,
    /// So many tries weren't enough.
    Limit,
}

/// Whether an active node can answer all that it may see.
#[derive(Drop)]
pub enum Reply {
    /// It can't answer these multisets around its passive nodes.
    Stuck(Vec<Partial>),
    /// It can.
    Answered,
    /// So many tries weren't enough.
    Limit,
}

// Whether some choice of one label of each set at these places is a configuration.
fn allows_at(constraint: &Constraint, joining: &[LabelSet], places: &[u16]) -> bool
    requires degree { length places.now ≡ constraint.now.degree }
    requires known { AllByRecursion (λ place. place < length joining.now) places.now }
    ensures { result ≡ is_allowed constraint.now (placed joining.now places.now) }
{
    let _degree = constraint.degree();
    let mut sets: ArrayVec<LabelSet, 6> = ArrayVec::new();
    for place in places {
        let set = joining[*place as usize];
        let _count = set.count();
        sets.push(set);
    }
    match Row::from_sets(sets.as_slice()) {
        Some(row) => constraint.allows(&row),
        None => false,
    }
}

// The first multiset of places from whose sets no choice is a configuration.
fn first_stuck(constraint: &Constraint, joining: &[LabelSet], tries: &mut u32) -> Tried
    requires { length joining.now < 2 ^ 16 }
    ensures { IsTried constraint.now joining.now tries.old result }
{
    for picks in Multisets::new(constraint.degree() as usize, joining.len() as u16) {
        if *tries == 0 {
            return Tried::Limit;
        }
        *tries -= 1;
        if !allows_at(constraint, joining, picks.numbers()) {
            return Tried::Stuck(picks);
        }
    }
    Tried::Answered
}

// The multisets at these places.
fn around_of(alloc: Global, chosen: &[Partial], places: &[u16]) -> Result<Vec<Partial>, NoMemory>
    requires { AllByRecursion (λ place. place < length chosen.now) places.now }
    ensures { IfOk result (λ around. around.items ≡ placed chosen.now places.now) }
{
    let mut around = Vec::new(alloc);
    for place in places {
        around.push(chosen[*place as usize].copy())?;
    }
    Ok(around)
}

/// Whether an active node can answer whatever it sees around its passive nodes, where each of these shows one of the multisets that wants one more label
/// and has to show one again. It tries the multisets of the hardest of these: the number of tries goes down by one for each. `Limit` where there are more of
/// them than tries, or where the hardest ones are more than 1000.
pub fn reply_to(
    alloc: Global,
    problem: &Problem,
    members: &[Partial],
    tries: &mut u32,
) -> Result<Reply, NoMemory>
    ensures { IfOk result (IsReply (unnamed problem.now) members.now tries.old) }
{
    let hardest = hardest_of(alloc, members, problem.passive().degree())?;
    if hardest.joining.len() > 1000 {
        return Ok(Reply::Limit);
    }
    match first_stuck(problem.active(), hardest.joining.as_slice(), tries) {
        Tried::Stuck(picks) => Ok(Reply::Stuck(around_of(
            alloc,
            hardest.chosen.as_slice(),
            picks.numbers(),
        )?)),
        Tried::Answered => Ok(Reply::Answered),
        Tried::Limit => Ok(Reply::Limit),
    }
}
