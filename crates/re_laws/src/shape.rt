//! The test whether a view is one.
ghost use Rattle.re_labels.specs.Sides.{degree_of, opposite};
ghost use Rattle.re_laws.specs.Shown.{IsShownChild, tree_of_branch, tree_of_children, tree_of_view};
ghost use Rattle.re_laws.specs.Trees.{IsTree, IsView};
ghost use Rattle.std.specs.Prelude.{IsTrue, ◌↔◌};

use crate::{Branch, Child, View};
use re_labels::{Degrees, Side};

/// Whether this is a view of that radius of a node of that side. The degrees are meant to be from 2 to 6;
/// the answer is exact for all. It takes no memory, and goes once over the view.
pub fn is_view<E>(view: &View<E>, degrees: Degrees, side: Side, radius: u8) -> bool
    ensures { IsTrue result ↔ IsView (degree_of degrees side) (degree_of degrees (opposite side)) radius (tree_of_view view.now) }
{
    let own = degrees.of(side);
    let other = degrees.of(side.other());
    match view {
        View::Leaf => radius == 0,
        View::Node(children) => are_shown(children, own, other, radius, own),
    }
}

/// Whether the branch shows so many ports of a node of degree `own` to that depth, where the neighbours
/// have degree `other`.
#[cycle(shown)]
fn is_shown<E>(branch: &Branch<E>, own: u8, other: u8, depth: u8, ports: u8) -> bool
    ensures { IsTrue result ↔ IsTree own other depth ports (tree_of_branch branch.now) }
{
    match branch {
        Branch::Leaf => depth == 0,
        Branch::Node(children) => are_shown(children, own, other, depth, ports),
    }
}

/// The same of a list of children.
#[cycle(shown)]
fn are_shown<E>(children: &Vec<Child<E>>, own: u8, other: u8, depth: u8, ports: u8) -> bool
    ensures { IsTrue result ↔ IsTree own other depth ports (tree_of_children children.now.items) }
{
    if depth == 0 {
        return false;
    }
    if children.len() != usize::from(ports) {
        return false;
    }
    for child in children {
        if !is_shown_child(child, other, own, depth - 1) {
            return false;
        }
    }
    true
}

/// The same of a child whose node has degree `own`.
#[cycle(shown)]
fn is_shown_child<E>(child: &Child<E>, own: u8, other: u8, depth: u8) -> bool
    ensures { IsTrue result ↔ IsShownChild own other depth child.now }
{
    if child.back == 0 {
        return false;
    }
    if child.back > own {
        return false;
    }
    is_shown(&child.branch, own, other, depth, own - 1)
}
