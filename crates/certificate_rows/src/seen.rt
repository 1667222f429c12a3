//! What views show: their back ports and their payloads, in preorder.
use re_labels::NoMemory;
use re_laws::{Branch, Child, View};
use std::alloc::Global;

// The back ports, with a 0 behind the children of each node, and the payloads.
#[derive(Drop)]
pub(crate) struct Seen<E> {
    pub(crate) backs: Vec<u8>,
    payloads: Vec<E>,
}

pub(crate) fn seen_of<E: Copy>(alloc: Global, view: &View<E>) -> Result<Seen<E>, NoMemory> {
    let mut seen = Seen {
        backs: Vec::new(alloc),
        payloads: Vec::new(alloc),
    };
    if let View::Node(children) = view {
        add_children(children, &mut seen)?;
    }
    Ok(seen)
}

#[cycle(seen)]
fn add_children<E: Copy>(children: &Vec<Child<E>>, seen: &mut Seen<E>) -> Result<(), NoMemory> {
    for child in children {
        seen.backs.push(child.back)?;
        seen.payloads.push(child.payload)?;
        add_branch(&child.branch, seen)?;
    }
    seen.backs.push(0)?;
    Ok(())
}

#[cycle(seen)]
fn add_branch<E: Copy>(branch: &Branch<E>, seen: &mut Seen<E>) -> Result<(), NoMemory> {
    match branch {
        Branch::Leaf => Ok(()),
        Branch::Node(children) => add_children(children, seen),
    }
}

// Whether the view shows these back ports and these numbers on its edges.
pub(crate) fn shows(alloc: Global, view: &View<u32>, backs: &[u8], payloads: &[u32]) -> bool {
    match seen_of(alloc, view) {
        Ok(seen) => seen.backs.as_slice() == backs && seen.payloads.as_slice() == payloads,
        Err(_) => false,
    }
}

fn has_backs(alloc: Global, view: &View<()>, backs: &[u8]) -> bool {
    match seen_of(alloc, view) {
        Ok(seen) => seen.backs.as_slice() == backs,
        Err(_) => false,
    }
}

// Whether both views show the same back ports.
pub(crate) fn are_alike(alloc: Global, one: &View<()>, other: &View<()>) -> bool {
    match seen_of(alloc, one) {
        Ok(seen) => has_backs(alloc, other, seen.backs.as_slice()),
        Err(_) => false,
    }
}
