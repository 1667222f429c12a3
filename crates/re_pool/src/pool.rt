//! The pool.
ghost use Rattle.re_pool.specs.Pools.{AreHeld, IsPool, Keeps, tree_at, tree_of_shape, trees};
ghost use Rattle.std.specs.Prelude.{◌<◌, ◌≡◌, [], ◌∷◌, ◌++◌, Contains, IfOk, OnErr, Some, length, slice_get};

use crate::{NodeId, Shape};
use indexmap::IndexSet;
use re_labels::NoMemory;
use std::alloc::Global;
use std::marker::Model;

/// A region of nodes. Each node has a number, its links point to lower numbers, and each shape stands once. So two numbers are equal
/// exactly where the trees are that they stand for (`pool_law`). Contracts see the list of the shapes, in the order of their numbers.
#[derive(Drop)]
pub struct Pool {
    shapes: IndexSet<Shape>,
}

impl Model for Pool {
    ghost use Rattle.std.specs.Prelude.{List};
    ghost use Rattle.re_pool.specs.declared.shape.Shape.{Shape};
    ghost use Rattle.re_pool.specs.Pools.{IsPool};

    ghost Value = { List Shape };

    ghost view = { λ p. p.shapes.keys };

    ghost invariant = { λ p. IsPool p.shapes.keys };
}

impl Pool {
    /// A pool without nodes. It takes no memory yet.
    pub fn new(alloc: Global) -> Pool
        ensures { result ≡ [] }
    {
        Pool {
            shapes: IndexSet::new(alloc),
        }
    }

    /// How many nodes it has: the numbers below are held. It costs the same for every pool.
    pub fn len(&self) -> usize
        ensures len { result ≡ length self.now }
        ensures pool { IsPool self.now }
    {
        self.shapes.len()
    }

    /// What it allocates with.
    pub fn alloc(&self) -> Global {
        *self.shapes.allocator()
    }

    /// The shape of a node, by its number, which is held. It costs one look at the node.
    pub fn shape(&self, id: NodeId) -> &Shape
        requires { id < length self.now }
        ensures shape { slice_get self.now id ≡ Some result.now }
        ensures pool { IsPool self.now }
    {
        &self.shapes.as_slice()[id.place()]
    }

    /// The number of the node of this shape, whose numbers are held. A shape that is there keeps its number, and a new one comes last.
    /// Without memory nothing changes. It costs one look-up by the hash of at most 6 links.
    pub fn intern(&mut self, shape: Shape) -> Result<NodeId, NoMemory>
        requires { AreHeld (length self.old) shape }
        ensures held { IfOk result (λ id. id < length self.new) }
        ensures shape { IfOk result (λ id. slice_get self.new id ≡ Some shape) }
        ensures tree { IfOk result (λ id. tree_at self.new id ≡ tree_of_shape (trees self.old) shape) }
        ensures known { Contains self.old shape → self.new ≡ self.old }
        ensures fresh { IfOk result (λ id. (Contains self.old shape → ⊥) → self.new ≡ self.old ++ shape ∷ []) }
        ensures keeps { Keeps self.old self.new }
        ensures err { OnErr result (self.new ≡ self.old) }
        ensures pool { IsPool self.new }
    {
        let (place, _) = self.shapes.insert_full(shape)?;
        Ok(NodeId::at(place))
    }
}
