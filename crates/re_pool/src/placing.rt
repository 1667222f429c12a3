//! Views put into a pool, and read from it.
ghost use Rattle.re_pool.specs.Narrow.{IsNarrow};
ghost use Rattle.re_pool.specs.Pools.{IsPool, Keeps, tree_at};
ghost use Rattle.re_laws.specs.Shown.{tree_of_branch, tree_of_children, tree_of_view};
ghost use Rattle.std.specs.Prelude.{◌<◌, ◌≡◌, IfOk, length};

use crate::{Link, NodeId, Pool, Shape};
use arrayvec::ArrayVec;
use re_labels::NoMemory;
use re_laws::{Branch, Child, View};

impl Pool {
    /// The number of the view, each of whose nodes has at most 6 children. The nodes of it that aren't there yet are added. Without
    /// memory all numbers stay with their trees, and there may be more of them. It goes once over the view, with one look-up for each node.
    pub fn place(&mut self, view: &View<()>) -> Result<NodeId, NoMemory>
        requires { IsNarrow (tree_of_view view.now) }
        ensures held { IfOk result (λ id. id < length self.new) }
        ensures tree { IfOk result (λ id. tree_at self.new id ≡ tree_of_view view.now) }
        ensures keeps { Keeps self.old self.new }
        ensures pool { IsPool self.new }
    {
        match view {
            View::Leaf => self.intern(Shape::Leaf),
            View::Node(children) => self.place_children(children),
        }
    }

    // The same of a branch.
    #[cycle(placing)]
    fn place_branch(&mut self, branch: &Branch<()>) -> Result<NodeId, NoMemory>
        requires { IsNarrow (tree_of_branch branch.now) }
        ensures held { IfOk result (λ id. id < length self.new) }
        ensures tree { IfOk result (λ id. tree_at self.new id ≡ tree_of_branch branch.now) }
        ensures keeps { Keeps self.old self.new }
        ensures pool { IsPool self.new }
    {
        match branch {
            Branch::Leaf => self.intern(Shape::Leaf),
            Branch::Node(children) => self.place_children(children),
        }
    }

    // The same of a list of children.
    #[cycle(placing)]
    fn place_children(&mut self, children: &Vec<Child<()>>) -> Result<NodeId, NoMemory>
        requires { IsNarrow (tree_of_children children.now.items) }
        ensures held { IfOk result (λ id. id < length self.new) }
        ensures tree { IfOk result (λ id. tree_at self.new id ≡ tree_of_children children.now.items) }
        ensures keeps { Keeps self.old self.new }
        ensures pool { IsPool self.new }
    {
        let mut links = ArrayVec::new();
        for child in children {
            let below = self.place_branch(&child.branch)?;
            links.push(Link {
                back: child.back,
                below,
            });
        }
        self.intern(Shape::Node(links))
    }

    /// The view that a number stands for, written out. It costs as much as that view is large, which may be far more than there are nodes.
    pub fn tree(&self, id: NodeId) -> Result<View<()>, NoMemory>
        requires { id < length self.now }
        ensures { IfOk result (λ view. tree_of_view view ≡ tree_at self.now id) }
    {
        match self.branch(id)? {
            Branch::Leaf => Ok(View::Leaf),
            Branch::Node(children) => Ok(View::Node(children)),
        }
    }

    // The same as a branch.
    fn branch(&self, id: NodeId) -> Result<Branch<()>, NoMemory>
        requires { id < length self.now }
        ensures { IfOk result (λ branch. tree_of_branch branch ≡ tree_at self.now id) }
    {
        match self.shape(id) {
            Shape::Leaf => Ok(Branch::Leaf),
            Shape::Node(links) => {
                let mut children = Vec::new(self.alloc());
                let links = links.as_slice();
                for link in links {
                    let branch = self.branch(link.below)?;
                    children.push(Child {
                        back: link.back,
                        payload: (),
                        branch,
                    })?;
                }
                Ok(Branch::Node(children))
            }
        }
    }
}
