//! Whether a list of multisets shows that a problem is greedy.
ghost use Rattle.re_greedy.specs.Findings.{IsListVerdict, RefusedListLaw};
ghost use Rattle.re_greedy.specs.Partials.{IsFirstWrong, IsRight};
ghost use Rattle.re_problem.specs.NamedProblems.{unnamed};
ghost use Rattle.std.specs.Prelude.{◌≡◌, ◌↔◌, Contains, IfOk, IsTrue, length};

use crate::answering::{Reply, reply_to};
use crate::finding::has_member;
use crate::partials::Partial;
use re_labels::{Config, Constraint, NoMemory};
use re_problem::Problem;
use std::alloc::Global;

/// Whether a list shows it, and else what fails first.
#[derive(Drop)]
pub enum ListVerdict {
    /// It does.
    Greedy,
    /// The empty multiset isn't in it.
    NoEmpty,
    /// This multiset of it has as many labels as a passive node has neighbours, and is no passive configuration.
    NotPassive(Partial),
    /// An active node may see these multisets of it around its passive nodes, and can't answer them.
    Stuck(Vec<Partial>),
    /// So many tries weren't enough.
    Limit,
}

// Whether the labels are one of the configurations.
fn is_config(constraint: &Constraint, labels: &Partial) -> bool
    requires { length labels.now ≡ constraint.now.degree }
    ensures { IsTrue result ↔ Contains constraint.now.configs labels.now }
{
    let _degree = constraint.degree();
    constraint.contains(&Config::from_labels(labels.labels()))
}

// Whether the multiset is a passive configuration, where it is as large as one.
fn is_right(passive: &Constraint, labels: &Partial) -> bool
    ensures { IsTrue result ↔ IsRight passive.now labels.now }
{
    if labels.labels().len() != passive.degree() as usize {
        return true;
    }
    is_config(passive, labels)
}

// The first of the multisets that is as large as a passive configuration, and none.
fn first_wrong(passive: &Constraint, members: &[Partial]) -> Option<Partial>
    ensures { IsFirstWrong passive.now members.now result }
{
    for member in members {
        if !is_right(passive, member) {
            return Some(member.copy());
        }
    }
    None
}

/// Whether the problem is greedy with these multisets, and else what fails first: the empty one isn't there; the first that is as large as a passive
/// configuration and isn't one; what an active node may see and can't answer. It takes as many tries as `reply_to`.
pub fn judge_list(
    alloc: Global,
    problem: &Problem,
    members: &[Partial],
    tries: &mut u32,
) -> Result<ListVerdict, NoMemory>
    ensures { IfOk result (IsListVerdict (unnamed problem.now) members.now tries.old) }
{
    if !has_member(members, &[]) {
        return Ok(ListVerdict::NoEmpty);
    }
    if let Some(labels) = first_wrong(problem.passive(), members) {
        return Ok(ListVerdict::NotPassive(labels));
    }
    match reply_to(alloc, problem, members, tries)? {
        Reply::Stuck(around) => Ok(ListVerdict::Stuck(around)),
        Reply::Answered => Ok(ListVerdict::Greedy),
        Reply::Limit => Ok(ListVerdict::Limit),
    }
}

/// What a refusal names isn't so where the problem is greedy with these multisets.
pub fn refused_list_law()
    ensures { RefusedListLaw }
{}
