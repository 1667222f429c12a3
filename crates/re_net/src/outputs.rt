//! What the nodes of a net output.
ghost use Rattle.re_labels.specs.declared.sides.Side.TheVariants.{Active};
ghost use Rattle.re_net.specs.FiniteTrees.{node_count, side_of, surroundings, unmarked};
ghost use Rattle.re_net.specs.FullTrees.{is_full};
ghost use Rattle.re_net.specs.Rounds.{round};
ghost use Rattle.re_pool.specs.Pools.{Keeps};
ghost use Rattle.re_laws.specs.Trees.{Tree};
ghost use Rattle.std.specs.Prelude.{◌≡◌, ◌<◌, ◌↔◌, IfOk, IfSome, IsSome, true};

use crate::nets::Net;
use re_labels::{NoMemory, PortLabels, Side};
use re_pool::Rule;

impl Net {
    /// Whether the node's surroundings to the distance of the bound are full: the node and each node at a distance less than the bound have
    /// as many edges as their sides allow. It takes no memory, and looks at each of these nodes at most twice.
    pub fn full(&self, node: u32) -> bool
        requires { node < node_count self.now.tree }
        ensures { result ≡ is_full self.now.tree node self.now.bound }
    {
        self.tree().is_full(node, self.bound())
    }

    /// What a node outputs by a rule of the tree's degrees, whose radius is the bound: the rule's labels at the node's view. None exactly where
    /// the node is passive, its round is below the bound, or its surroundings aren't full. Without memory too, the tree, the bound, the
    /// messages delivered and the rule stay what they are, and so rounds and views. It costs `full` and one answer of the rule.
    pub fn output<R: Rule>(
        &mut self,
        rule: &mut R,
        node: u32,
    ) -> Result<Option<PortLabels>, NoMemory>
        requires node { node < node_count self.old.tree }
        requires degrees { R.degrees rule.old ≡ self.old.tree.degrees }
        requires radius { R.radius rule.old ≡ self.old.bound }
        ensures gives { IfOk result (λ answer. IsSome answer ↔
            ((side_of self.old.tree node ≡ Active) × (round self.old.tree self.old.bound self.old.delivered node ≡ self.old.bound) × (is_full self.old.tree node self.old.bound ≡ true))) }
        ensures labels { IfOk result (λ answer. IfSome answer (λ labels. labels ≡ R.answer rule.old (surroundings self.old.tree unmarked node self.old.bound))) }
        ensures tree { self.new.tree ≡ self.old.tree }
        ensures bound { self.new.bound ≡ self.old.bound }
        ensures delivered { self.new.delivered ≡ self.old.delivered }
        ensures keeps { Keeps self.old.pool self.new.pool }
        ensures rule_degrees { R.degrees rule.new ≡ R.degrees rule.old }
        ensures rule_radius { R.radius rule.new ≡ R.radius rule.old }
        ensures rule_answers { (v : Tree (Unit {0})) → R.answer rule.new v ≡ R.answer rule.old v }
    {
        match self.tree().side(node) {
            Side::Passive => return Ok(None),
            Side::Active => {}
        }
        if self.round(node) < self.bound() || !self.full(node) {
            return Ok(None);
        }
        let view = self.view(node);
        let labels = rule.labels(&mut self.pool, view)?;
        Ok(Some(labels))
    }
}
