//! What no clause says: each call once with ample memory, and numbers that were counted by hand.
ghost use Rattle.re_pool.specs.Pools.{AreHeld, IsPool, tree_at};
ghost use Rattle.re_laws.specs.Shown.{tree_of_view};
ghost use Rattle.re_laws.specs.Trees.{IsView};
ghost use Rattle.std.specs.Prelude.{◌<◌, ◌≤◌, ◌≡◌, IfOk, length};

use crate::seen::are_alike;
use arrayvec::ArrayVec;
use re_labels::{Degrees, NoMemory, Side};
use re_laws::{View, all_views, cut, is_view, shift};
use re_pool::{Link, NodeId, Pool, Shape, narrow_law};
use std::alloc::Global;

const DEGREES: Degrees = Degrees {
    active: 3,
    passive: 2,
};

// The number of an active view of this radius; NoMemory stands for another view, too.
fn placed(pool: &mut Pool, view: &View<()>, radius: u8) -> Result<NodeId, NoMemory>
    ensures held { IfOk result (λ id. id < length pool.new) }
    ensures tree { IfOk result (λ id. tree_at pool.new id ≡ tree_of_view view.now) }
    ensures view { IfOk result (λ id. IsView 3 2 radius (tree_at pool.new id)) }
{
    if !is_view(view, DEGREES, Side::Active, radius) {
        return Err(NoMemory);
    }
    narrow_law();
    pool.place(view)
}

// The number of a passive view of this radius.
fn placed_over(pool: &mut Pool, view: &View<()>, radius: u8) -> Result<NodeId, NoMemory> {
    if !is_view(view, DEGREES, Side::Passive, radius) {
        return Err(NoMemory);
    }
    narrow_law();
    pool.place(view)
}

// The same links once more.
fn copied(links: &ArrayVec<Link, 6>) -> ArrayVec<Link, 6>
    ensures items { result.items ≡ links.now.items }
{
    let mut copy = ArrayVec::new();
    for link in links.as_slice() {
        copy.push(*link);
    }
    copy
}

// The shape of a node once more.
fn shape_again(pool: &Pool, id: NodeId) -> Shape
    requires { id < length pool.now }
    ensures { AreHeld (length pool.now) result }
{
    match pool.shape(id) {
        Shape::Leaf => Shape::Leaf,
        Shape::Node(links) => Shape::Node(copied(links)),
    }
}

// The node behind the first link, or the node itself where it has none.
fn first_behind(pool: &Pool, id: NodeId) -> NodeId
    requires { id < length pool.now }
    ensures { result < length pool.now }
{
    match pool.shape(id) {
        Shape::Leaf => id,
        Shape::Node(links) => match links.as_slice().first() {
            None => id,
            Some(first) => first.below,
        },
    }
}

// Whether its shape gives the number of the node again, and no node more.
fn is_known(pool: &mut Pool, id: NodeId) -> Result<bool, NoMemory>
    requires { id < length pool.old }
    ensures { IfOk result (λ _. length pool.old ≤ length pool.new) }
{
    let nodes = pool.len();
    let shape = shape_again(pool, id);
    let again = pool.intern(shape)?;
    Ok(again == id && pool.len() == nodes)
}

// Whether this holds of a view, of its first branch and of the leaf behind that.
fn are_known(pool: &mut Pool, id: NodeId) -> Result<bool, NoMemory>
    requires { id < length pool.old }
{
    let branch = first_behind(pool, id);
    let leaf = first_behind(pool, branch);
    let view = is_known(pool, id)?;
    let below = is_known(pool, branch)?;
    Ok(view && below && is_known(pool, leaf)?)
}

fn is_held(pool: &mut Pool, view: &View<()>, radius: u8) -> bool {
    match placed(pool, view, radius) {
        Ok(id) => matches!(are_known(pool, id), Ok(true)),
        Err(_) => false,
    }
}

// Whether there are so many nodes when the views are held once more, and each shape of them is known then.
fn are_held(pool: &mut Pool, views: &[View<()>], radius: u8, nodes: usize) -> bool {
    for view in views {
        if !is_held(pool, view, radius) {
            return false;
        }
    }
    pool.len() == nodes
}

fn are_held_twice(alloc: Global, views: &[View<()>], radius: u8, nodes: usize) -> bool {
    let mut pool = Pool::new(alloc);
    are_held(&mut pool, views, radius, nodes) && are_held(&mut pool, views, radius, nodes)
}

// The same of all active views of this radius: for the first time, and then again.
fn all_are_held_twice(alloc: Global, radius: u8, nodes: usize) -> bool {
    match all_views(alloc, DEGREES, Side::Active, radius) {
        Ok(views) => are_held_twice(alloc, views.as_slice(), radius, nodes),
        Err(_) => false,
    }
}

#[test]
fn each_node_once(rt: HostRuntime) {
    assert!(rt; all_are_held_twice(rt.alloc(), 1, 9));
    assert!(rt; all_are_held_twice(rt.alloc(), 2, 220));
}

// Whether the view of radius 2 is shifted in the pool as it is by itself.
fn is_shifted_alike(pool: &mut Pool, view: &View<()>, port: u8) -> Result<bool, NoMemory>
    requires least { 1 ≤ port }
    requires most { port ≤ 3 }
{
    let id = placed(pool, view, 2)?;
    let over = pool.shift(id, port)?;
    let alone = shift(pool.alloc(), view, port)?;
    Ok(over == placed_over(pool, &alone, 1)?)
}

// Whether the view of radius 2 is cut in the pool as it is by itself.
fn is_cut_alike(pool: &mut Pool, view: &View<()>) -> Result<bool, NoMemory> {
    let id = placed(pool, view, 2)?;
    let near = pool.cut(id, 1)?;
    let alone = cut(pool.alloc(), view, 1)?;
    Ok(near == placed(pool, &alone, 1)?)
}

// Whether the view of radius 2 is read back from the pool, child by child.
fn is_read_back(pool: &mut Pool, view: &View<()>) -> Result<bool, NoMemory> {
    let id = placed(pool, view, 2)?;
    let tree = pool.tree(id)?;
    Ok(are_alike(pool.alloc(), &tree, view))
}

// Whether the view is shifted, cut and read back so.
fn is_alike(pool: &mut Pool, view: &View<()>) -> bool {
    matches!(is_shifted_alike(pool, view, 1), Ok(true))
        && matches!(is_shifted_alike(pool, view, 2), Ok(true))
        && matches!(is_shifted_alike(pool, view, 3), Ok(true))
        && matches!(is_cut_alike(pool, view), Ok(true))
        && matches!(is_read_back(pool, view), Ok(true))
}

fn are_all_alike(pool: &mut Pool, views: &[View<()>]) -> bool {
    for view in views {
        if !is_alike(pool, view) {
            return false;
        }
    }
    true
}

fn are_alike_in_a_pool(alloc: Global, views: &[View<()>]) -> bool {
    let mut pool = Pool::new(alloc);
    are_all_alike(&mut pool, views)
}

// The same of all 216 views of radius 2, in one pool.
fn all_are_alike(alloc: Global) -> bool {
    match all_views(alloc, DEGREES, Side::Active, 2) {
        Ok(views) => views.len() == 216 && are_alike_in_a_pool(alloc, views.as_slice()),
        Err(_) => false,
    }
}

#[test]
fn shifted_cut_and_read_back_as_written_out(rt: HostRuntime) {
    assert!(rt; all_are_alike(rt.alloc()));
}
