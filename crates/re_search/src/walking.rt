//! The walk over a search tree, with one path in memory.
ghost use Rattle.re_cert.specs.Bounds.{BoundStep, is_lower};
ghost use Rattle.re_cert.specs.declared.certificate.TheConstants.{MAX_STEPS};
ghost use Rattle.re_changes.specs.Changes.{Changed as Outcome, changed_times};
ghost use Rattle.re_problem.specs.NamedProblems.{NamedProblem, unnamed};
ghost use Rattle.re_search.specs.Walking.{IsLevel, Visits, Walks, below_made, node_at};
ghost use Rattle.re_step.specs.Derivations.{derivation};
ghost use Rattle.re_search.specs.Nodes.{behind, child, goes_on, is_zero, preorder, steps_from, succeeds};
ghost use Rattle.std.specs.Prelude.{◌≡◌, ◌<◌, ◌≤◌, ℕ, IsTrue, List, false, true, ◌+◌, ◌++◌, ◌∷◌, ◌&&◌, ◌||◌, [], OnOk, flat_map, length, map, nat_lt, not, suc};

use crate::counting::is_zero;
use crate::derivations::Derivations;
use crate::returning::way_back;
use crate::steps::{Level, end_of, problem_behind, step_to};
use crate::types::FindFault;
use re_cert::{Kind, Step, has_lower_steps};
use re_changes::{Changed, changes_of};
use re_labels::{MAX_LABELS, NoMemory};
use re_problem::Problem;
use re_step::{Derived, StepFault};
use std::alloc::Global;

/// The most nodes of a search.
pub const MAX_NODES: u32 = 20_000;

/// How many nodes a search has come to, and at how many of them the derived problem passed a limit.
#[derive(Clone, Copy)]
pub(crate) struct Count {
    pub(crate) nodes: u32,
    pub(crate) cut: u32,
}

/// How a walk over some nodes ends.
#[derive(Clone, Copy)]
pub(crate) enum Walked {
    /// At a success, to which the path leads.
    Found,
    /// Behind the last of them, with no success.
    Passed(Count),
}

/// What is searched: the kind of bound, the most changes of a derived problem, and the first problem.
#[derive(Clone, Copy)]
pub(crate) struct Tree<'a> {
    pub(crate) alloc: Global,
    pub(crate) kind: Kind,
    pub(crate) most: u8,
    pub(crate) first: &'a Problem,
}

/// What is found at a node.
pub(crate) enum Visited {
    /// It is a success.
    Success,
    /// It is none, and has no children.
    Leaf,
    /// It has no children because its derived problem passes a limit.
    Cut,
    /// It has children, which are made of its derived problem.
    Inner(Derived),
}

// Whether the node at the end of the path is a success.
fn succeeds(tree: &Tree, path: &[Step], left: u8, zero: bool) -> bool
    requires short { length path.now ≤ MAX_STEPS }
    requires zero { zero ≡ is_zero (node_at tree.now.first.now path.now left).problem }
    ensures { result ≡ succeeds tree.now.kind tree.now.first.now (node_at tree.now.first.now path.now left) }
{
    match tree.kind {
        Kind::Lower => left == 0 && !zero,
        Kind::Upper => left == 0 && zero,
        Kind::Fixed => !zero && way_back(tree.first, path).is_some(),
    }
}

// Whether the node may have children.
fn goes_on(kind: Kind, left: u8, zero: bool) -> bool
    ensures { result ≡ (nat_lt 0 left && (not (is_lower kind) || not zero)) }
{
    left > 0 && (!has_lower_steps(kind) || !zero)
}

// What is found at the node at the end of the path.
fn visit(
    tree: &Tree,
    derivations: &mut Derivations,
    path: &[Step],
    left: u8,
) -> Result<Visited, FindFault>
    requires { length path.now + left ≤ MAX_STEPS }
    ensures { Visits tree.now.kind tree.now.first.now (node_at tree.now.first.now path.now left) result }
{
    let problem = end_of(tree.first, path);
    let zero = is_zero(problem);
    if succeeds(tree, path, left, zero) {
        return Ok(Visited::Success);
    }
    if !goes_on(tree.kind, left, zero) {
        return Ok(Visited::Leaf);
    }
    match derivations.derive(problem) {
        Ok(derived) => Ok(Visited::Inner(derived)),
        Err(StepFault::Limit(_)) => Ok(Visited::Cut),
        Err(StepFault::NoMemory) => Err(FindFault::NoMemory),
    }
}

/// Walks over the node at the end of the path and those below it, in preorder, up to the first success. Behind the walk the path is
/// what it was, or leads to the success. The derived problem of a node is computed once, or copied where an equal problem was derived
/// lately; one path is held.
#[cycle(walk)]
pub(crate) fn walk(
    tree: &Tree,
    derivations: &mut Derivations,
    path: &mut Vec<Step>,
    left: u8,
    count: Count,
) -> Result<Walked, FindFault>
    requires most { tree.now.most ≤ 8 }
    requires short { length path.old.items + left ≤ MAX_STEPS }
    requires nodes { count.nodes ≤ MAX_NODES }
    requires cut { count.cut ≤ count.nodes }
    ensures { Walks tree.now.kind tree.now.first.now count (preorder tree.now.kind tree.now.most left (node_at tree.now.first.now path.old.items left)) path.old.items path.new.items result }
{
    if count.nodes >= MAX_NODES {
        return Err(FindFault::TooManyNodes);
    }
    let nodes = count.nodes + 1;
    match visit(tree, derivations, path.as_slice(), left) {
        Ok(Visited::Success) => Ok(Walked::Found),
        Ok(Visited::Leaf) => Ok(Walked::Passed(Count {
            nodes,
            cut: count.cut,
        })),
        Ok(Visited::Cut) => Ok(Walked::Passed(Count {
            nodes,
            cut: count.cut + 1,
        })),
        Ok(Visited::Inner(derived)) => walk_children(
            tree,
            derivations,
            path,
            left - 1,
            derived,
            Count {
                nodes,
                cut: count.cut,
            },
        ),
        Err(fault) => Err(fault),
    }
}

// Walks over the children of the node at the end of the path, which are made of this derived problem, and those below them.
#[cycle(walk)]
fn walk_children(
    tree: &Tree,
    derivations: &mut Derivations,
    path: &mut Vec<Step>,
    left: u8,
    derived: Derived,
    count: Count,
) -> Result<Walked, FindFault>
    requires most { tree.now.most ≤ 8 }
    requires short { length path.old.items + suc left ≤ MAX_STEPS }
    requires nodes { count.nodes ≤ MAX_NODES }
    requires cut { count.cut ≤ count.nodes }
    requires derived { derived ≡ derivation (unnamed (node_at tree.now.first.now path.old.items (suc left)).problem) }
    ensures { let node = node_at tree.now.first.now path.old.items (suc left) in
        Walks tree.now.kind tree.now.first.now count (flat_map (preorder tree.now.kind tree.now.most left) (map (child node) (steps_from tree.now.kind tree.now.most node.problem))) path.old.items path.new.items result }
{
    let Derived {
        problem,
        sets,
        rows,
    } = derived;
    let level = Level { rows, sets };
    let start = Changed::unchanged(problem);
    let mut count = count;
    for changes in 0..tree.most + 1 {
        match walk_changed(
            tree,
            derivations,
            path,
            left,
            &level,
            &start,
            changes,
            count,
        ) {
            Ok(Walked::Passed(next)) => count = next,
            Ok(Walked::Found) => return Ok(Walked::Found),
            Err(fault) => return Err(fault),
        }
    }
    Ok(Walked::Passed(count))
}

// Walks over the children that this many changes more make, and those below them.
#[cycle(walk)]
fn walk_changed(
    tree: &Tree,
    derivations: &mut Derivations,
    path: &mut Vec<Step>,
    left: u8,
    level: &Level,
    made: &Changed,
    changes: u8,
    count: Count,
) -> Result<Walked, FindFault>
    requires most { tree.now.most ≤ 8 }
    requires changes { changes ≤ 8 }
    requires short { length path.old.items + suc left ≤ MAX_STEPS }
    requires nodes { count.nodes ≤ MAX_NODES }
    requires cut { count.cut ≤ count.nodes }
    requires level { IsLevel (node_at tree.now.first.now path.old.items (suc left)).problem level.now }
    requires images { length made.now.images ≡ length level.now.sets.items }
    ensures { Walks tree.now.kind tree.now.first.now count (flat_map (below_made tree.now.kind tree.now.most left (node_at tree.now.first.now path.old.items (suc left))) (changed_times (is_lower tree.now.kind) changes made.now))
        path.old.items path.new.items result }
{
    if changes == 0 {
        return walk_child(tree, derivations, path, left, level, made, count);
    }
    let labels = made.problem().names().len() as u8;
    if are_passed(tree, path.as_slice(), left, labels, changes) {
        return passed(tree.alloc, labels, changes, count);
    }
    let Ok(all) = changes_of(tree.alloc, has_lower_steps(tree.kind), labels) else {
        return Err(FindFault::NoMemory);
    };
    let mut count = count;
    for change in all.as_slice() {
        let Ok(next) = made.changed(tree.alloc, *change) else {
            return Err(FindFault::NoMemory);
        };
        match walk_changed(
            tree,
            derivations,
            path,
            left,
            level,
            &next,
            changes - 1,
            count,
        ) {
            Ok(Walked::Passed(next)) => count = next,
            Ok(Walked::Found) => return Ok(Walked::Found),
            Err(fault) => return Err(fault),
        }
    }
    Ok(Walked::Passed(count))
}

// Whether a problem of so many labels may be renamed to one on the path, as far as that is seen from its labels.
fn may_return(first: &Problem, path: &[Step], labels: usize) -> bool
    ensures { result ≡ false → (number : ℕ) → number ≤ length path.now → length (behind first.now path.now number).names ≡ labels → 8 < labels }
{
    if labels > 8 {
        return false;
    }
    for number in 0..path.len() + 1 {
        if problem_behind(first, path, number).names().len() == labels {
            return true;
        }
    }
    false
}

// Whether the nodes that so many changes make need no problem: those at the greatest depth of a search for a fixed point, where
// more labels are left than a way back may have, or no problem on the path has as many. They are no successes, and have no
// children.
fn are_passed(tree: &Tree, path: &[Step], left: u8, labels: u8, changes: u8) -> bool
    requires { changes ≤ 8 }
    ensures kind { IsTrue result → tree.now.kind ≡ Kind.Fixed }
    ensures left { IsTrue result → left ≡ 0 }
    ensures some { IsTrue result → changes < labels }
    ensures none { IsTrue result → (number : ℕ) → number ≤ length path.now
        → length (behind tree.now.first.now path.now number).names + changes ≡ labels → 8 + changes < labels }
{
    if !matches!(tree.kind, Kind::Fixed) {
        return false;
    }
    if left > 0 || labels <= changes {
        return false;
    }
    !may_return(tree.first, path, (labels - changes) as usize)
}

// Past such nodes, which so many merges make of a problem of so many labels. They are counted, and no problem is made.
fn passed(alloc: Global, labels: u8, changes: u8, count: Count) -> Result<Walked, FindFault>
    requires labels { labels ≤ MAX_LABELS }
    requires many { changes < labels }
    ensures { (first : NamedProblem) (most : ℕ) (steps : List BoundStep) (made : Outcome) → length made.problem.names ≡ labels
        → ((number : ℕ) → number ≤ length steps → length (behind first steps number).names + changes ≡ labels → 8 + changes < labels) →
        Walks Kind.Fixed first count (flat_map (below_made Kind.Fixed most 0 (node_at first steps 1)) (changed_times true changes made)) steps steps result }
{
    if changes == 0 {
        if MAX_NODES <= count.nodes {
            return Err(FindFault::TooManyNodes);
        }
        return Ok(Walked::Passed(Count {
            nodes: count.nodes + 1,
            cut: count.cut,
        }));
    }
    let Ok(all) = changes_of(alloc, true, labels) else {
        return Err(FindFault::NoMemory);
    };
    let mut count = count;
    for change in all.as_slice() {
        let _merge = *change;
        match passed(alloc, labels - 1, changes - 1, count) {
            Ok(Walked::Passed(next)) => count = next,
            Ok(Walked::Found) => return Ok(Walked::Found),
            Err(fault) => return Err(fault),
        }
    }
    Ok(Walked::Passed(count))
}

// One step more.
fn push(path: &mut Vec<Step>, step: Step) -> Result<(), NoMemory>
    ensures { OnOk result (path.new.items ≡ path.old.items ++ step ∷ []) }
{
    Ok(path.push(step)?)
}

// Walks over one child, and those below it.
#[cycle(walk)]
fn walk_child(
    tree: &Tree,
    derivations: &mut Derivations,
    path: &mut Vec<Step>,
    left: u8,
    level: &Level,
    made: &Changed,
    count: Count,
) -> Result<Walked, FindFault>
    requires most { tree.now.most ≤ 8 }
    requires short { length path.old.items + suc left ≤ MAX_STEPS }
    requires nodes { count.nodes ≤ MAX_NODES }
    requires cut { count.cut ≤ count.nodes }
    requires level { IsLevel (node_at tree.now.first.now path.old.items (suc left)).problem level.now }
    requires images { length made.now.images ≡ length level.now.sets.items }
    ensures { Walks tree.now.kind tree.now.first.now count (below_made tree.now.kind tree.now.most left (node_at tree.now.first.now path.old.items (suc left)) made.now) path.old.items path.new.items result }
{
    let depth = path.as_slice().len();
    let Ok(step) = step_to(tree.alloc, tree.kind, level, made) else {
        return Err(FindFault::NoMemory);
    };
    if push(path, step).is_err() {
        return Err(FindFault::NoMemory);
    }
    match walk(tree, derivations, path, left, count) {
        Ok(Walked::Passed(next)) => {
            path.truncate(depth);
            Ok(Walked::Passed(next))
        }
        Ok(Walked::Found) => Ok(Walked::Found),
        Err(fault) => Err(fault),
    }
}
