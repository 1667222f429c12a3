//! Copies of branches.
ghost use Rattle.re_laws.specs.Shown.{tree_of_branch, tree_of_children};
ghost use Rattle.std.specs.Prelude.{IfOk, ◌≡◌};

use crate::{Branch, Child};
use re_labels::NoMemory;
use std::alloc::Global;

/// The branch once more.
#[cycle(copy)]
pub(crate) fn copy_branch<E: Copy>(alloc: Global, branch: &Branch<E>) -> Result<Branch<E>, NoMemory>
    ensures { IfOk result (λ answer. tree_of_branch answer ≡ tree_of_branch branch.now) }
{
    match branch {
        Branch::Leaf => Ok(Branch::Leaf),
        Branch::Node(children) => {
            let copies = copy_children(alloc, children)?;
            Ok(Branch::Node(copies))
        }
    }
}

/// The children once more.
#[cycle(copy)]
pub(crate) fn copy_children<E: Copy>(
    alloc: Global,
    children: &Vec<Child<E>>,
) -> Result<Vec<Child<E>>, NoMemory>
    ensures { IfOk result (λ answer. tree_of_children answer.items ≡ tree_of_children children.now.items) }
{
    let mut copies = Vec::new(alloc);
    for child in children {
        let branch = copy_branch(alloc, &child.branch)?;
        copies.push(Child {
            back: child.back,
            payload: child.payload,
            branch,
        })?;
    }
    Ok(copies)
}
