//! What no clause says: each call once with ample memory, and values that were counted by hand.
use crate::seen::{are_alike, shows};
use re_labels::{Degrees, NoMemory, Side};
use re_laws::{Branch, Child, View, all_views, cut, is_view, pad, shift};
use std::alloc::Global;

const DEGREES: Degrees = Degrees {
    active: 3,
    passive: 2,
};

// Whether each is a view of this side and radius, and none is one of the other side and the next radius.
fn are_views(views: &[View<()>], side: Side, radius: u8) -> bool {
    for view in views {
        if !is_view(view, DEGREES, side, radius)
            || is_view(view, DEGREES, side.other(), radius.saturating_add(1))
        {
            return false;
        }
    }
    true
}

// Whether so many views are listed, which are what they should be.
fn is_count(alloc: Global, side: Side, radius: u8, count: usize) -> bool {
    match all_views(alloc, DEGREES, side, radius) {
        Ok(views) => views.len() == count && are_views(views.as_slice(), side, radius),
        Err(_) => false,
    }
}

#[test]
fn counts(rt: HostRuntime) {
    for (side, radius, count) in [
        (Side::Active, 0, 1),
        (Side::Active, 1, 8),
        (Side::Active, 2, 216),
        (Side::Passive, 0, 1),
        (Side::Passive, 1, 9),
        (Side::Passive, 2, 144),
    ] {
        assert!(rt; is_count(rt.alloc(), side, radius, count));
    }
}

// The back port of the first child, or 0 where there is none.
fn first_back(view: &View<()>) -> u8 {
    match view {
        View::Leaf => 0,
        View::Node(children) => match children.first() {
            None => 0,
            Some(child) => child.back,
        },
    }
}

// Whether nothing is seen behind this port of a node's view of radius 1.
fn ends_over(alloc: Global, view: &View<()>, port: u8) -> bool {
    if port == 0 || port > 3 || !is_view(view, DEGREES, Side::Active, 1) {
        return false;
    }
    matches!(shift(alloc, view, port), Ok(View::Leaf))
}

// Whether the way over port 1 and back leads to the node itself.
fn is_there_and_back(alloc: Global, view: &View<()>) -> bool {
    if !is_view(view, DEGREES, Side::Passive, 2) {
        return false;
    }
    match shift(alloc, view, 1) {
        Ok(over) => ends_over(alloc, &over, first_back(view)),
        Err(_) => false,
    }
}

fn is_cut_to_a_leaf(alloc: Global, view: &View<()>) -> bool {
    matches!(cut(alloc, view, 0), Ok(View::Leaf))
}

fn are_there_and_back(alloc: Global, views: &[View<()>]) -> bool {
    for view in views {
        if !is_there_and_back(alloc, view) || !is_cut_to_a_leaf(alloc, view) {
            return false;
        }
    }
    true
}

fn all_are_there_and_back(alloc: Global) -> bool {
    match all_views(alloc, DEGREES, Side::Passive, 2) {
        Ok(views) => are_there_and_back(alloc, views.as_slice()),
        Err(_) => false,
    }
}

#[test]
fn there_and_back(rt: HostRuntime) {
    assert!(rt; all_are_there_and_back(rt.alloc()));
}

// Whether the view is the first one of radius 1.
fn is_first(alloc: Global, view: &View<()>) -> bool {
    match all_views(alloc, DEGREES, Side::Active, 1) {
        Ok(views) => match views.first() {
            Some(first) => are_alike(alloc, view, first),
            None => false,
        },
        Err(_) => false,
    }
}

fn is_padded_to_the_first(alloc: Global) -> bool {
    match pad(alloc, &View::Leaf, DEGREES, Side::Active, 1, ()) {
        Ok(padded) => is_first(alloc, &padded),
        Err(_) => false,
    }
}

#[test]
fn padded_leaf(rt: HostRuntime) {
    assert!(rt; is_padded_to_the_first(rt.alloc()));
}

fn leaf(back: u8, payload: u32) -> Child<u32> {
    Child {
        back,
        payload,
        branch: Branch::Leaf,
    }
}

// A list of two children.
fn two(alloc: Global, first: Child<u32>, second: Child<u32>) -> Result<Vec<Child<u32>>, NoMemory> {
    Ok(vec![in alloc; first, second]?)
}

fn node(alloc: Global, back: u8, payload: u32, backs: [u8; 2]) -> Result<Child<u32>, NoMemory> {
    let branch = Branch::Node(two(
        alloc,
        leaf(backs[0], payload.wrapping_add(1)),
        leaf(backs[1], payload.wrapping_add(2)),
    )?);
    Ok(Child {
        back,
        payload,
        branch,
    })
}

// A view of radius 2 with a number on each edge.
fn numbered(alloc: Global) -> Result<View<u32>, NoMemory> {
    let first = node(alloc, 2, 10, [1, 2])?;
    let second = node(alloc, 1, 20, [2, 2])?;
    Ok(View::Node(two(alloc, first, second)?))
}

// Whether the view that is cut to radius 1 shows these.
fn shows_near(alloc: Global, view: &View<u32>) -> bool {
    match cut(alloc, view, 1) {
        Ok(near) => shows(alloc, &near, &[2, 1, 0], &[10, 20]),
        Err(_) => false,
    }
}

// Whether the neighbour over port 1 sees these.
fn shows_over(alloc: Global, view: &View<u32>) -> bool {
    if !is_view(view, DEGREES, Side::Passive, 2) {
        return false;
    }
    match shift(alloc, view, 1) {
        Ok(over) => shows(alloc, &over, &[1, 1, 2, 0], &[11, 10, 12]),
        Err(_) => false,
    }
}

fn shows_both(alloc: Global) -> bool {
    match numbered(alloc) {
        Ok(view) => shows_near(alloc, &view) && shows_over(alloc, &view),
        Err(_) => false,
    }
}

#[test]
fn payloads_that_are_near_and_over_a_port(rt: HostRuntime) {
    assert!(rt; shows_both(rt.alloc()));
}
