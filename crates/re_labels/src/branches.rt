//! A walk down a prefix tree, from the children of a node to the children of one of them.
ghost use Rattle.re_labels.specs.Endings.{IsBranches, IsEnding, IsFirst, IsPlace};
ghost use Rattle.re_labels.specs.PrefixTrees.{IsPrefixTree, held_configs};
ghost use Rattle.std.specs.Prelude.{◌≡◌, ◌<◌, ◌+◌, ◌∷◌, ◌↔◌, ℕ, Contains, List, MatchOption};

use crate::MAX_LABELS;
use crate::prefix_tree::{Kind, Node, first_of};

/// The children of a node of a prefix tree from one on, in ascending order of their labels, or none. What lies behind them
/// are the configurations that begin with the labels on the way to the node and go on with one of theirs. Behind the last label
/// it is the leaf itself. It holds a place alone, and is read with the nodes that it was made from.
#[derive(Clone, Copy, Debug, Default)]
pub struct Branches {
    place: u32,
}

impl Branches {
    /// No branches.
    pub fn none() -> Branches
        ensures { result.place ≡ 0 }
    {
        Branches { place: 0 }
    }

    /// All branches of a tree, which all its configurations lie behind.
    pub fn of(nodes: &[Node]) -> Branches
        requires { (degree : ℕ) × (0 < degree) × IsPrefixTree degree nodes.now }
        ensures { (degree : ℕ) → 0 < degree → IsPrefixTree degree nodes.now → IsBranches degree nodes.now 0 result
            × ((ending : List ℕ) → IsEnding degree nodes.now 0 result ending ↔ Contains (held_configs nodes.now) ending) }
    {
        match nodes.first() {
            Some(root) => Branches {
                place: first_of(&root.kind),
            },
            None => Branches { place: 0 },
        }
    }

    /// The label of the first branch, which is the least one that comes next, or None where there are no branches. O(1).
    pub fn first_label(self, nodes: &[Node]) -> Option<u8>
        requires { IsPlace nodes.now self }
        ensures { (degree depth : ℕ) → IsBranches degree nodes.now depth self → depth < degree → MatchOption result
            ((ending : List ℕ) → IsEnding degree nodes.now depth self ending → ⊥)
            (λ label. (label < MAX_LABELS) × IsFirst degree nodes.now depth self label) }
    {
        if self.place == 0 {
            None
        } else {
            Some(nodes[self.place as usize].label)
        }
    }

    /// What lies behind the first branch. O(1).
    pub fn below(self, nodes: &[Node]) -> Branches
        requires { IsPlace nodes.now self }
        ensures { (degree depth label : ℕ) → IsBranches degree nodes.now depth self → depth < degree → IsFirst degree nodes.now depth self label →
            IsBranches degree nodes.now (depth + 1) result
            × ((ending : List ℕ) → IsEnding degree nodes.now (depth + 1) result ending ↔ IsEnding degree nodes.now depth self (label ∷ ending)) }
    {
        if self.place == 0 {
            return self;
        }
        match &nodes[self.place as usize].kind {
            Kind::Inner { first, .. } => Branches { place: *first },
            Kind::Leaf(_) => self,
        }
    }

    /// The branches that come after the first one. O(1).
    pub fn after(self, nodes: &[Node]) -> Branches
        requires { IsPlace nodes.now self }
        ensures { (degree depth label : ℕ) → IsBranches degree nodes.now depth self → depth < degree → IsFirst degree nodes.now depth self label →
            IsBranches degree nodes.now depth result
            × ((other : ℕ) (ending : List ℕ) → IsEnding degree nodes.now depth result (other ∷ ending) ↔ ((label < other) × IsEnding degree nodes.now depth self (other ∷ ending))) }
    {
        if self.place == 0 {
            return self;
        }
        Branches {
            place: nodes[self.place as usize].next,
        }
    }
}
