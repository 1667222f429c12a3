//! Branches of a constraint's prefix tree: what a walk down the beginnings of its configurations needs. The constraint and the
//! depth are there for the contracts alone.
ghost use Rattle.re_labels.specs.declared.TheConstants.{MAX_LABELS};
ghost use Rattle.re_boxes.specs.Spans.{IsEnding, IsFirst, IsSpan, tree_of};
ghost use Rattle.std.specs.Prelude.{◌≡◌, ◌<◌, ◌↔◌, ◌+◌, ◌∷◌, ℕ, List, MatchOption};

use re_labels::{Branches, Constraint, Node};

/// Branches parted behind the first one.
#[derive(Clone, Copy, Debug, Default)]
pub struct Parts {
    /// What is below the first one.
    pub below: Branches,
    /// The others.
    pub after: Branches,
}

/// The least label at this depth of the configurations at the branches, or None where there are none.
pub fn first_label(
    constraint: &Constraint,
    nodes: &[Node],
    depth: usize,
    span: Branches,
) -> Option<u8>
    requires span { IsSpan (tree_of constraint.now nodes.now) depth span }
    requires depth { depth < constraint.now.degree }
    ensures { MatchOption result
        ((ending : List ℕ) → IsEnding (tree_of constraint.now nodes.now) depth span ending → ⊥)
        (λ label. (label < MAX_LABELS) × IsFirst (tree_of constraint.now nodes.now) depth span label) }
{
    span.first_label(nodes)
}

/// The branches parted behind the first one.
pub fn parted(
    constraint: &Constraint,
    nodes: &[Node],
    depth: usize,
    span: Branches,
    label: u8,
) -> Parts
    requires span { IsSpan (tree_of constraint.now nodes.now) depth span }
    requires depth { depth < constraint.now.degree }
    requires label { IsFirst (tree_of constraint.now nodes.now) depth span label }
    ensures below { IsSpan (tree_of constraint.now nodes.now) (depth + 1) result.below }
    ensures after { IsSpan (tree_of constraint.now nodes.now) depth result.after }
    ensures endings_below { (ending : List ℕ) → IsEnding (tree_of constraint.now nodes.now) (depth + 1) result.below ending ↔ IsEnding (tree_of constraint.now nodes.now) depth span (label ∷ ending) }
    ensures endings_after { (other : ℕ) (ending : List ℕ) → IsEnding (tree_of constraint.now nodes.now) depth result.after (other ∷ ending) ↔ ((label < other) × IsEnding (tree_of constraint.now nodes.now) depth span (other ∷ ending)) }
{
    Parts {
        below: span.below(nodes),
        after: span.after(nodes),
    }
}
