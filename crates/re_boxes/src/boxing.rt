//! The parts of a box of a row: what lies above a label, and sets with nothing in them.
ghost use Rattle.re_boxes.specs.Boxes.{with_stronger};
ghost use Rattle.re_labels.specs.Sets.{IsIn, IsLabelSet};
ghost use Rattle.re_boxes.specs.HeldStrength.{ups_in};
ghost use Rattle.std.specs.Prelude.{◌≡◌, ◌≤◌, ◌<◌, ◌↔◌, ℕ, IsTrue, filter, nat_lt, map, length, []};

use crate::strength::Strength;
use arrayvec::ArrayVec;
use re_labels::{LabelSet, MAX_LABELS};

/// The labels that the labels of the set above this one in number go up to. It walks those labels.
pub fn up_above(strength: &Strength, set: LabelSet, label: u8) -> LabelSet
    requires set { IsLabelSet strength.now.labels set }
    requires label { label < MAX_LABELS }
    ensures { result ≡ with_stronger (ups_in strength.now.ups.items) (filter (nat_lt label) set) }
{
    match set.after(label) {
        None => LabelSet::empty(),
        Some(next) => up_above(strength, set, next).union(strength.up(next)),
    }
}

/// Whether the set has each label of the other one above this label in number. It walks those labels.
pub fn has_above(set: LabelSet, other: LabelSet, label: u8) -> bool
    requires other { IsLabelSet MAX_LABELS other }
    requires label { label < MAX_LABELS }
    ensures { IsTrue result ↔ ((y : ℕ) → IsIn y other → label < y → IsIn y set) }
{
    match other.after(label) {
        None => true,
        Some(next) => set.has(next) && has_above(set, other, next),
    }
}

/// As many empty sets.
pub fn nothing(sets: &[LabelSet]) -> ArrayVec<LabelSet, 6>
    requires { length sets.now ≤ 6 }
    ensures { result.items ≡ map (λ set. []) sets.now }
{
    let mut empty = ArrayVec::new();
    for _place in 0..sets.len() {
        empty.push(LabelSet::empty());
    }
    empty
}
