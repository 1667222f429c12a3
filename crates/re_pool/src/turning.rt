//! Cut and shift of views in a pool.
ghost use Rattle.re_pool.specs.Narrow.{depth_of};
ghost use Rattle.re_pool.specs.Pools.{AreLinksHeld, IsPool, Keeps, children_of, tree_at, trees};
ghost use Rattle.re_laws.specs.Trees.{IsView, cut, others, shift};
ghost use Rattle.std.specs.Prelude.{◌<◌, ◌≡◌, ◌≤◌, IfOk, Some, length, slice_get, suc, ℕ};

use crate::{Link, NodeId, Pool, Shape};
use arrayvec::ArrayVec;
use re_labels::NoMemory;

// The same links once more.
pub(crate) fn copied(links: &ArrayVec<Link, 6>) -> ArrayVec<Link, 6>
    ensures items { result.items ≡ links.now.items }
    ensures few { length result.items ≤ 6 }
{
    let mut copy = ArrayVec::new();
    for link in links.as_slice() {
        copy.push(*link);
    }
    let _few = copy.len();
    copy
}

// The first of the links.
fn first_of(links: &[Link]) -> Link
    requires { 0 < length links.now }
    ensures { Some result ≡ slice_get links.now 0 }
{
    links[0]
}

impl Pool {
    /// The number of the view with everything past the radius left out. The view's own radius is meant to be at least that; one of a
    /// smaller radius is its own cut. Without memory all numbers stay with their trees, and there may be more of them. It goes once over
    /// the cut written out, with one look-up for each node of it.
    pub fn cut(&mut self, view: NodeId, radius: u8) -> Result<NodeId, NoMemory>
        requires { view < length self.old }
        ensures held { IfOk result (λ id. id < length self.new) }
        ensures tree { IfOk result (λ id. tree_at self.new id ≡ cut radius (tree_at self.old view)) }
        ensures keeps { Keeps self.old self.new }
        ensures pool { IsPool self.new }
    {
        self.cut_to(view, usize::from(radius))
    }

    // The same to any depth.
    #[cycle(cutting)]
    fn cut_to(&mut self, view: NodeId, depth: usize) -> Result<NodeId, NoMemory>
        requires { view < length self.old }
        ensures held { IfOk result (λ id. id < length self.new) }
        ensures tree { IfOk result (λ id. tree_at self.new id ≡ cut depth (tree_at self.old view)) }
        ensures keeps { Keeps self.old self.new }
        ensures pool { IsPool self.new }
    {
        if depth == 0 {
            return self.intern(Shape::Leaf);
        }
        let links = match self.shape(view) {
            Shape::Leaf => return Ok(view),
            Shape::Node(links) => copied(links),
        };
        let kept = self.cut_links(links.as_slice(), depth)?;
        self.intern(Shape::Node(kept))
    }

    // The links with what lies behind them cut to one less than this depth.
    #[cycle(cutting)]
    fn cut_links(&mut self, links: &[Link], depth: usize) -> Result<ArrayVec<Link, 6>, NoMemory>
        requires few { length links.now ≤ 6 }
        requires held { AreLinksHeld (length self.old) links.now }
        requires some { 1 ≤ depth }
        ensures held { IfOk result (λ kept. AreLinksHeld (length self.new) kept.items) }
        ensures count { IfOk result (λ kept. length kept.items ≡ length links.now) }
        ensures tree { IfOk result (λ kept. children_of (trees self.new) kept.items ≡ cut depth (children_of (trees self.old) links.now)) }
        ensures keeps { Keeps self.old self.new }
        ensures pool { IsPool self.new }
    {
        let mut kept = ArrayVec::new();
        for link in links {
            let below = self.cut_to(link.below, depth - 1)?;
            kept.push(Link {
                back: link.back,
                below,
            });
        }
        let _held = self.len();
        Ok(kept)
    }

    // How deep the tree is along its first branches.
    fn depth(&self, id: NodeId) -> usize
        requires { id < length self.now }
        ensures bound { result ≤ id }
        ensures depth { result ≡ depth_of (tree_at self.now id) }
    {
        // the depth is at most the number, which fits
        let _place = id.place();
        match self.shape(id) {
            Shape::Leaf => 0,
            Shape::Node(links) => match links.as_slice().first() {
                None => 0,
                Some(first) => self.depth(first.below) + 1,
            },
        }
    }

    /// The number of the view that the neighbour on the port has, with a radius less by one, as `shift` of a view written out. The view
    /// is one of a radius of at least 1 for degrees from 2 to 6, with a child at that port; ports count from 1. Without memory all
    /// numbers stay with their trees, and there may be more of them. It goes once over what lies behind the other ports, written out, with
    /// one look-up for each node of it.
    pub fn shift(&mut self, view: NodeId, port: u8) -> Result<NodeId, NoMemory>
        requires held { view < length self.old }
        requires port { 1 ≤ port }
        requires view { (d e t : ℕ) × (2 ≤ d) × (2 ≤ e) × (e ≤ 6) × (port ≤ d) × IsView d e (suc t) (tree_at self.old view) }
        ensures held { IfOk result (λ id. id < length self.new) }
        ensures tree { IfOk result (λ id. (d e t : ℕ) → 2 ≤ d → 2 ≤ e → IsView d e (suc t) (tree_at self.old view) →
            tree_at self.new id ≡ shift t (tree_at self.old view) port) }
        ensures keeps { Keeps self.old self.new }
        ensures pool { IsPool self.new }
    {
        let mut links = match self.shape(view) {
            Shape::Leaf => return Ok(view),
            Shape::Node(links) => copied(links),
        };
        let link = links.remove(usize::from(port) - 1);
        let mut beyond = match self.shape(link.below) {
            Shape::Leaf => return Ok(link.below),
            Shape::Node(beyond) => copied(beyond),
        };
        let rule = first_of(beyond.as_slice()).below;
        let below = self.behind(links, rule)?;
        beyond.insert(usize::from(link.back) - 1, Link { back: port, below });
        self.intern(Shape::Node(beyond))
    }

    // The number of the node with these links, cut to be as deep as the tree `rule` is along its first branches.
    fn behind(&mut self, links: ArrayVec<Link, 6>, rule: NodeId) -> Result<NodeId, NoMemory>
        requires few { length links.items ≤ 6 }
        requires held { AreLinksHeld (length self.old) links.items }
        requires rule { rule < length self.old }
        ensures held { IfOk result (λ id. id < length self.new) }
        ensures tree { IfOk result (λ id. tree_at self.new id ≡ cut (depth_of (tree_at self.old rule)) (children_of (trees self.old) links.items)) }
        ensures keeps { Keeps self.old self.new }
        ensures pool { IsPool self.new }
    {
        let depth = self.depth(rule);
        if depth == 0 {
            return self.intern(Shape::Leaf);
        }
        let kept = self.cut_links(links.as_slice(), depth)?;
        self.intern(Shape::Node(kept))
    }
}
