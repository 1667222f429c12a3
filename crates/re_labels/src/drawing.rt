//! Rows drawn from a prefix tree: whether some configuration takes its labels from the sets of a row.
ghost use Rattle.re_labels.specs.PrefixTrees.{IsLink, IsPrefixTree, IsTree, held_configs};
ghost use Rattle.re_labels.specs.Fitting.{Completes, CompletesFrom, IsOpen};
ghost use Rattle.std.specs.List.{remove};
ghost use Rattle.std.specs.Prelude.{◌≡◌, ◌<◌, ◌≤◌, ◌+◌, [], ℕ, List, IsTrue, ◌↔◌, length};

use crate::LabelSet;
use crate::prefix_tree::{Node, first_of};
use arrayvec::ArrayVec;

/// The sets without the one at this place.
fn without(sets: &[LabelSet], place: usize) -> ArrayVec<LabelSet, 6>
    requires place { place < length sets.now }
    requires six { length sets.now ≤ 6 }
    ensures { result.items ≡ remove sets.now place }
{
    let mut rest = ArrayVec::new();
    for before in &sets[..place] {
        rest.push(*before);
    }
    for after in &sets[place + 1..] {
        rest.push(*after);
    }
    rest
}

/// Whether some configuration below the siblings from this one on draws its labels from there on from the sets, one from
/// each. A branch is left where its label is in no set, or no branch below it draws the others.
fn completes_from(nodes: &[Node], at: usize, sets: &[LabelSet]) -> bool
    requires open { IsOpen nodes.now at sets.now }
    requires six { length sets.now ≤ 6 }
    ensures { (degree : ℕ) (key : ℕ → List ℕ) (above : List ℕ) (least : ℕ) → IsTree degree nodes.now (held_configs nodes.now) key → length above + length sets.now ≡ degree
        → IsLink nodes.now key above least at → IsTrue result ↔ CompletesFrom (held_configs nodes.now) above least sets.now }
{
    if at == 0 {
        return false;
    }
    let label = nodes[at].label;
    let first = first_of(&nodes[at].kind) as usize;
    for place in 0..sets.len() {
        if sets[place].has(label) {
            let rest = without(sets, place);
            if rest.is_empty() {
                return true;
            }
            if completes_from(nodes, first, rest.as_slice()) {
                return true;
            }
        }
    }
    completes_from(nodes, nodes[at].next as usize, sets)
}

/// Whether some configuration draws its labels from the sets, one from each.
pub fn draws_from(nodes: &[Node], sets: &[LabelSet]) -> bool
    requires tree { IsPrefixTree (length sets.now) nodes.now }
    requires some { 0 < length sets.now }
    requires six { length sets.now ≤ 6 }
    ensures { IsTrue result ↔ Completes (held_configs nodes.now) [] sets.now }
{
    match nodes.first() {
        Some(root) => completes_from(nodes, first_of(&root.kind) as usize, sets),
        None => false,
    }
}
