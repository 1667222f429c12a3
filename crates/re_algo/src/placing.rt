//! The place of a view among all views.
ghost use Rattle.re_labels.specs.Sides.{degree_of, opposite};
ghost use Rattle.re_algo.specs.Counting.{HasPlace, read_after, view_place};
ghost use Rattle.re_laws.specs.Shown.{tree_of_branch, tree_of_children, tree_of_view};
ghost use Rattle.std.specs.Prelude.{◌≡◌, ◌≤◌, ◌<◌, ◌^◌};

use re_labels::{Degrees, Side};
use re_laws::{Branch, Child, View};

/// The place from 0 of a view of a node of that side in the list of all views of its radius (`re_laws::all_views`), where these are
/// at most `MAX_VIEWS`. It takes no memory, and goes once over the view.
pub fn view_place(view: &View<()>, degrees: Degrees, side: Side) -> usize
    requires active { 1 ≤ degrees.active }
    requires passive { 1 ≤ degrees.passive }
    requires view { HasPlace (degree_of degrees side) (degree_of degrees (opposite side)) (tree_of_view view.now) }
    ensures { result ≡ view_place (degree_of degrees side) (degree_of degrees (opposite side)) (tree_of_view view.now) }
{
    let own = degrees.of(side);
    let other = degrees.of(side.other());
    match view {
        View::Leaf => 0,
        View::Node(children) => read_children(children, own, other, 0),
    }
}

// The number that the back ports of the branch write after the digits read before, where it is less than 2 ^ 32.
#[cycle(reading)]
fn read_branch(branch: &Branch<()>, own: u8, other: u8, before: usize) -> usize
    ensures { 1 ≤ own → 1 ≤ other → read_after own other before (tree_of_branch branch.now) < 2 ^ 32 → result ≡ read_after own other before (tree_of_branch branch.now) }
{
    match branch {
        Branch::Leaf => before,
        Branch::Node(children) => read_children(children, own, other, before),
    }
}

// The same of a list of children.
#[cycle(reading)]
fn read_children(children: &Vec<Child<()>>, own: u8, other: u8, before: usize) -> usize
    ensures { 1 ≤ own → 1 ≤ other → read_after own other before (tree_of_children children.now.items) < 2 ^ 32 → result ≡ read_after own other before (tree_of_children children.now.items) }
{
    let mut number = before;
    for child in children {
        let digit = usize::from(child.back.saturating_sub(1));
        let place = number
            .saturating_mul(usize::from(other))
            .saturating_add(digit);
        number = read_branch(&child.branch, other, own, place);
    }
    number
}
