//! Local rules: what a node outputs, by its view.
ghost use Rattle.re_pool.specs.Pools.{IsPool, Keeps, tree_at};
ghost use Rattle.re_laws.specs.Trees.{IsView, Tree};
ghost use Rattle.re_labels.specs.declared.sides.Degrees.{Degrees};
ghost use Rattle.std.specs.Prelude.{◌<◌, ◌≡◌, IfOk, List, length, ℕ};

use crate::{NodeId, Pool};
use re_labels::{NoMemory, PortLabels};

/// A rule by which an active node outputs a label for each of its ports. It has the degrees of the tree, a radius, and an answer for
/// each active view of that radius.
pub trait Rule {
    ghost degrees: { Self → Degrees };

    ghost radius: { Self → ℕ };

    ghost answer: { Self → Tree (Unit {0}) → List ℕ };

    /// The answer at the view of this number, which is held and stands for an active view of the rule's radius. The rule and all numbers
    /// of the pool stay what they are, also without memory; the pool may hold more of them. The cost is that of each rule.
    fn labels(&mut self, pool: &mut Pool, view: NodeId) -> Result<PortLabels, NoMemory>
        requires held { view < length pool.old }
        requires view { IsView (degrees self.old).active (degrees self.old).passive (radius self.old) (tree_at pool.old view) }
        ensures labels { IfOk result (λ labels. labels ≡ answer self.old (tree_at pool.old view)) }
        ensures degrees { degrees self.new ≡ degrees self.old }
        ensures radius { radius self.new ≡ radius self.old }
        ensures answers { (v : Tree (Unit {0})) → answer self.new v ≡ answer self.old v }
        ensures keeps { Keeps pool.old pool.new }
        ensures pool { IsPool pool.new };
}
