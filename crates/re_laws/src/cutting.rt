//! Views cut to a smaller radius.
ghost use Rattle.re_laws.specs.Shown.{tree_of_branch, tree_of_children, tree_of_view};
ghost use Rattle.re_laws.specs.Trees.{cut};
ghost use Rattle.std.specs.Prelude.{IfOk, ◌≡◌, ◌≤◌};

use crate::{Branch, Child, View};
use re_labels::NoMemory;
use std::alloc::Global;

/// The view with everything past the radius left out. The view's own radius is meant to be at least that;
/// a view of a smaller one is copied whole. It costs as much as a copy of what
/// stays.
pub fn cut<E: Copy>(alloc: Global, view: &View<E>, radius: u8) -> Result<View<E>, NoMemory>
    ensures { IfOk result (λ answer. tree_of_view answer ≡ cut radius (tree_of_view view.now)) }
{
    if radius == 0 {
        return Ok(View::Leaf);
    }
    match view {
        View::Leaf => Ok(View::Leaf),
        View::Node(children) => {
            let kept = cut_children(alloc, children, radius)?;
            Ok(View::Node(kept))
        }
    }
}

/// The branch with everything past the depth left out.
#[cycle(cut)]
fn cut_branch<E: Copy>(alloc: Global, branch: &Branch<E>, depth: u8) -> Result<Branch<E>, NoMemory>
    ensures { IfOk result (λ answer. tree_of_branch answer ≡ cut depth (tree_of_branch branch.now)) }
{
    if depth == 0 {
        return Ok(Branch::Leaf);
    }
    match branch {
        Branch::Leaf => Ok(Branch::Leaf),
        Branch::Node(children) => {
            let kept = cut_children(alloc, children, depth)?;
            Ok(Branch::Node(kept))
        }
    }
}

/// The same of a list of children, to a depth of at least 1.
#[cycle(cut)]
fn cut_children<E: Copy>(
    alloc: Global,
    children: &Vec<Child<E>>,
    depth: u8,
) -> Result<Vec<Child<E>>, NoMemory>
    requires { 1 ≤ depth }
    ensures { IfOk result (λ answer. tree_of_children answer.items ≡ cut depth (tree_of_children children.now.items)) }
{
    let mut kept = Vec::new(alloc);
    for child in children {
        let branch = cut_branch(alloc, &child.branch, depth - 1)?;
        kept.push(Child {
            back: child.back,
            payload: child.payload,
            branch,
        })?;
    }
    Ok(kept)
}
