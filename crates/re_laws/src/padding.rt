//! Views grown to a greater radius.
ghost use Rattle.re_labels.specs.Sides.{degree_of, opposite};
ghost use Rattle.re_laws.specs.Shown.{tree_of_branch, tree_of_children, tree_of_view};
ghost use Rattle.re_laws.specs.Trees.{full, grown, pad};
ghost use Rattle.std.specs.Prelude.{IfOk, ℕ, ◌≡◌, ◌≤◌};

use crate::{Branch, Child, View};
use re_labels::{Degrees, NoMemory, Side};
use std::alloc::Global;

/// The view grown to the radius, where each new edge has back port 1 and the payload `fill`. It is meant
/// for a view of at most that radius of a node of that side, and degrees from 2 to 6. It costs as much
/// as the answer is large, which grows exponentially with the radius.
pub fn pad<E: Copy>(
    alloc: Global,
    view: &View<E>,
    degrees: Degrees,
    side: Side,
    radius: u8,
    fill: E,
) -> Result<View<E>, NoMemory>
    ensures { IfOk result (λ answer. tree_of_view answer ≡ pad (degree_of degrees side) (degree_of degrees (opposite side)) radius fill (tree_of_view view.now)) }
{
    let own = degrees.of(side);
    let other = degrees.of(side.other());
    match view {
        View::Leaf => {
            if radius == 0 {
                return Ok(View::Leaf);
            }
            let children = full_children(alloc, own, other, radius, own, fill)?;
            Ok(View::Node(children))
        }
        View::Node(children) => {
            let children = grow_children(alloc, children, own, other, radius, fill)?;
            Ok(View::Node(children))
        }
    }
}

/// The branch of that depth that shows so many ports of a node of degree `own`, where the neighbours have
/// degree `other`, all with back port 1 and the same payload.
#[cycle(full)]
fn full_branch<E: Copy>(
    alloc: Global,
    own: u8,
    other: u8,
    depth: u8,
    ports: u8,
    fill: E,
) -> Result<Branch<E>, NoMemory>
    ensures { IfOk result (λ answer. tree_of_branch answer ≡ full own other depth ports fill) }
{
    if depth == 0 {
        return Ok(Branch::Leaf);
    }
    let children = full_children(alloc, own, other, depth, ports, fill)?;
    Ok(Branch::Node(children))
}

/// The children of such a branch, of a depth of at least 1.
#[cycle(full)]
fn full_children<E: Copy>(
    alloc: Global,
    own: u8,
    other: u8,
    depth: u8,
    ports: u8,
    fill: E,
) -> Result<Vec<Child<E>>, NoMemory>
    requires { 1 ≤ depth }
    ensures { IfOk result (λ answer. tree_of_children answer.items ≡ full own other depth ports fill) }
{
    let mut children = Vec::new(alloc);
    for _ in 0..ports {
        let branch = full_branch(alloc, other, own, depth - 1, other.saturating_sub(1), fill)?;
        children.push(Child {
            back: 1,
            payload: fill,
            branch,
        })?;
    }
    Ok(children)
}

/// The branch grown to the depth, where it shows so many ports of a node of degree `own` and the
/// neighbours have degree `other`.
#[cycle(grow)]
fn grow_branch<E: Copy>(
    alloc: Global,
    branch: &Branch<E>,
    own: u8,
    other: u8,
    depth: u8,
    ports: u8,
    fill: E,
) -> Result<Branch<E>, NoMemory>
    ensures { IfOk result (λ answer. tree_of_branch answer ≡ grown own other depth ports fill (tree_of_branch branch.now)) }
{
    match branch {
        Branch::Leaf => full_branch(alloc, own, other, depth, ports, fill),
        Branch::Node(children) => {
            let children = grow_children(alloc, children, own, other, depth, fill)?;
            Ok(Branch::Node(children))
        }
    }
}

/// The same of a list of children.
#[cycle(grow)]
fn grow_children<E: Copy>(
    alloc: Global,
    children: &Vec<Child<E>>,
    own: u8,
    other: u8,
    depth: u8,
    fill: E,
) -> Result<Vec<Child<E>>, NoMemory>
    ensures { IfOk result (λ answer. (n : ℕ) → tree_of_children answer.items ≡ grown own other depth n fill (tree_of_children children.now.items)) }
{
    let below = depth.saturating_sub(1);
    let ports = other.saturating_sub(1);
    let mut answer = Vec::new(alloc);
    for child in children {
        let branch = grow_branch(alloc, &child.branch, other, own, below, ports, fill)?;
        answer.push(Child {
            back: child.back,
            payload: child.payload,
            branch,
        })?;
    }
    Ok(answer)
}
