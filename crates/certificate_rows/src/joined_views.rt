//! What no clause says: that the call succeeds where there is memory, on views that were listed.
ghost use Rattle.re_laws.specs.Shown.{tree_of_view};
ghost use Rattle.re_laws.specs.Trees.{IsView};

use crate::seen::are_alike;
use re_labels::{Degrees, NoMemory, Side};
use re_laws::{End, View, all_views, branchwise, is_view, shift};
use std::alloc::Global;

const DEGREES: Degrees = Degrees {
    active: 3,
    passive: 2,
};

/// The view joined from the views of its two neighbours.
fn joined_again(alloc: Global, view: &View<()>) -> Result<View<()>, NoMemory>
    requires { IsView 2 3 2 (tree_of_view view.now) }
{
    match view {
        View::Leaf => Ok(View::Leaf),
        View::Node(children) => {
            let first = End {
                view: shift(alloc, view, 1)?,
                port: children[0].back,
            };
            let second = End {
                view: shift(alloc, view, 2)?,
                port: children[1].back,
            };
            branchwise(alloc, &[first, second])
        }
    }
}

// Whether the joined view is this one, of radius 2.
fn is_again(alloc: Global, again: &View<()>, view: &View<()>) -> bool {
    is_view(again, DEGREES, Side::Passive, 2) && are_alike(alloc, again, view)
}

fn is_joined_again(alloc: Global, view: &View<()>) -> bool {
    if !is_view(view, DEGREES, Side::Passive, 2) {
        return false;
    }
    match joined_again(alloc, view) {
        Ok(again) => is_again(alloc, &again, view),
        Err(_) => false,
    }
}

fn are_joined_again(alloc: Global, views: &[View<()>]) -> bool {
    for view in views {
        if !is_joined_again(alloc, view) {
            return false;
        }
    }
    true
}

// Whether all views of radius 2, of which there are 144, are joined again.
fn all_are_joined_again(alloc: Global) -> bool {
    match all_views(alloc, DEGREES, Side::Passive, 2) {
        Ok(views) => views.len() == 144 && are_joined_again(alloc, views.as_slice()),
        Err(_) => false,
    }
}

#[test]
fn joined_from_shifts(rt: HostRuntime) {
    assert!(rt; all_are_joined_again(rt.alloc()));
}
