//! What nodes see of their neighbours: the neighbours' views, each once.
ghost use Rattle.re_extract.specs.Seen.{IsPut};
ghost use Rattle.re_pool.specs.Pools.{tree_at};
ghost use Rattle.re_laws.specs.Trees.{backs};
ghost use Rattle.std.specs.Prelude.{◌<◌, ◌≡◌, ◌≤◌, IfOk, Some, length, map, slice_get};

use arrayvec::ArrayVec;
use indexmap::IndexSet;
use re_labels::NoMemory;
use re_pool::{Link, NodeId, Pool, Shape};

/// A neighbour as it is seen over a port: the place of its view among those of the neighbours, and the number that it gives to the
/// edge.
#[derive(Clone, Copy, Debug, Default)]
pub(crate) struct Sight {
    pub(crate) place: usize,
    pub(crate) back: u8,
}

// The numbers that the neighbours give to the edges, by the links.
fn back_ports(links: &[Link]) -> ArrayVec<u8, 6>
    requires { length links.now ≤ 6 }
    ensures backs { result.items ≡ map (λ link. link.back) links.now }
    ensures few { length result.items ≤ 6 }
{
    let mut found = ArrayVec::new();
    for link in links {
        found.push(link.back);
    }
    let _few = found.len();
    found
}

/// The numbers that the neighbours give to the edges of a node, by its view.
pub(crate) fn backs_of(pool: &Pool, view: NodeId) -> ArrayVec<u8, 6>
    requires { view < length pool.now }
    ensures backs { result.items ≡ backs (tree_at pool.now view) }
    ensures few { length result.items ≤ 6 }
{
    match pool.shape(view) {
        Shape::Leaf => ArrayVec::new(),
        Shape::Node(links) => back_ports(links.as_slice()),
    }
}

/// The place of the view among those that are seen, where it comes last unless it is there.
pub(crate) fn put(seen: &mut IndexSet<NodeId>, view: NodeId) -> Result<usize, NoMemory>
    ensures place { IfOk result (λ place. slice_get seen.new.keys place ≡ Some view) }
    ensures put { IsPut seen.old.keys seen.new.keys view }
{
    let (place, _) = seen.insert_full(view)?;
    Ok(place)
}
