//! The list of all views of a radius.
ghost use Rattle.re_labels.specs.Lists.{count_from};
ghost use Rattle.re_labels.specs.Sides.{degree_of, opposite};
ghost use Rattle.re_laws.specs.AllViews.{all_children, all_trees, all_views};
ghost use Rattle.re_laws.specs.Shown.{tree_of_branch, tree_of_children, tree_of_view};
ghost use Rattle.re_laws.specs.Trees.{more};
ghost use Rattle.std.specs.Prelude.{IfOk, OnOk, flat_map, map, ◌++◌, ◌≡◌, ◌≤◌};

use crate::copying::{copy_branch, copy_children};
use crate::{Branch, Child, View};
use re_labels::{Degrees, NoMemory, Side};
use std::alloc::Global;

/// All views of that radius of a node of that side, each once, in lexicographic order of their back ports
/// in preorder. The degrees are meant to be from 2 to 6. There are very many: at degrees 3 and 2 an active
/// node has 1, 8, 216 and 13,824 of radius 0, 1, 2 and 3.
pub fn all_views(
    alloc: Global,
    degrees: Degrees,
    side: Side,
    radius: u8,
) -> Result<Vec<View<()>>, NoMemory>
    ensures { IfOk result (λ answer. map tree_of_view answer.items ≡ all_views (degree_of degrees side) (degree_of degrees (opposite side)) radius) }
{
    let own = degrees.of(side);
    let other = degrees.of(side.other());
    let mut views = Vec::new(alloc);
    if radius == 0 {
        views.push(View::Leaf)?;
        return Ok(views);
    }
    let lists = all_lists(alloc, own, other, radius, own)?;
    for children in lists {
        views.push(View::Node(children))?;
    }
    Ok(views)
}

/// All branches of that depth that show so many ports of a node of degree `own`, where the neighbours have
/// degree `other`.
#[cycle(list)]
fn all_branches(
    alloc: Global,
    own: u8,
    other: u8,
    depth: u8,
    ports: u8,
) -> Result<Vec<Branch<()>>, NoMemory>
    ensures { IfOk result (λ answer. map tree_of_branch answer.items ≡ all_trees own other depth ports) }
{
    let mut branches = Vec::new(alloc);
    if depth == 0 {
        branches.push(Branch::Leaf)?;
        return Ok(branches);
    }
    let lists = all_lists(alloc, own, other, depth, ports)?;
    for children in lists {
        branches.push(Branch::Node(children))?;
    }
    Ok(branches)
}

/// The lists of children of all of them, at a depth of at least 1.
#[cycle(list)]
fn all_lists(
    alloc: Global,
    own: u8,
    other: u8,
    depth: u8,
    ports: u8,
) -> Result<Vec<Vec<Child<()>>>, NoMemory>
    requires { 1 ≤ depth }
    ensures { IfOk result (λ answer. map (λ children. tree_of_children children.items) answer.items ≡ all_trees own other depth ports) }
{
    let branches = all_branches(alloc, other, own, depth - 1, other.saturating_sub(1))?;
    let mut lists = Vec::new(alloc);
    lists.push(Vec::new(alloc))?;
    for _ in 0..ports {
        lists = longer_lists(alloc, other, &branches, &lists)?;
    }
    Ok(lists)
}

/// The lists with one more child in front, with each back port from 1 to `other` and each of the branches.
fn longer_lists(
    alloc: Global,
    other: u8,
    branches: &Vec<Branch<()>>,
    tails: &Vec<Vec<Child<()>>>,
) -> Result<Vec<Vec<Child<()>>>, NoMemory>
    ensures { IfOk result (λ answer. map (λ children. tree_of_children children.items) answer.items ≡
        flat_map (λ back. flat_map (λ branch. map (more back tt branch) (map (λ children. tree_of_children children.items) tails.now.items)) (map tree_of_branch branches.now.items)) (count_from 1 other)) }
{
    let mut lists = Vec::new(alloc);
    for index in 0..other {
        add_lists(alloc, index + 1, branches, tails, &mut lists)?;
    }
    Ok(lists)
}

/// Adds the lists with one more child in front, with this back port and each of the branches.
fn add_lists(
    alloc: Global,
    back: u8,
    branches: &Vec<Branch<()>>,
    tails: &Vec<Vec<Child<()>>>,
    lists: &mut Vec<Vec<Child<()>>>,
) -> Result<(), NoMemory>
    ensures { OnOk result (map (λ children. tree_of_children children.items) lists.new.items ≡ map (λ children. tree_of_children children.items) lists.old.items ++
        flat_map (λ branch. map (more back tt branch) (map (λ children. tree_of_children children.items) tails.now.items)) (map tree_of_branch branches.now.items)) }
{
    for branch in branches {
        add_tails(alloc, back, branch, tails, lists)?;
    }
    Ok(())
}

/// Adds the lists with this back port and this branch in front.
fn add_tails(
    alloc: Global,
    back: u8,
    branch: &Branch<()>,
    tails: &Vec<Vec<Child<()>>>,
    lists: &mut Vec<Vec<Child<()>>>,
) -> Result<(), NoMemory>
    ensures { OnOk result (map (λ children. tree_of_children children.items) lists.new.items ≡ map (λ children. tree_of_children children.items) lists.old.items ++
        map (more back tt (tree_of_branch branch.now)) (map (λ children. tree_of_children children.items) tails.now.items)) }
{
    for tail in tails {
        let branch = copy_branch(alloc, branch)?;
        let mut list = copy_children(alloc, tail)?;
        list.insert(
            0,
            Child {
                back,
                payload: (),
                branch,
            },
        )?;
        lists.push(list)?;
    }
    Ok(())
}
