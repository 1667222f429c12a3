//! What sets of labels mean, by their weakest labels.
ghost use Rattle.re_boxes.specs.Boxes.{IsUp};
ghost use Rattle.re_describe.specs.Meanings.{IsAbove, Means};
ghost use Rattle.re_labels.specs.Sets.{IsIn, IsLabelSet, IsWithin};
ghost use Rattle.re_boxes.specs.HeldStrength.{ups_in};
ghost use Rattle.std.specs.Prelude.{◌≡◌, ◌<◌, ◌≤◌, ◌↔◌, ℕ, IsTrue};

use re_boxes::Strength;
use re_check::is_up;
use re_labels::LabelSet;

/// What a set of labels means.
#[derive(Clone, Copy, Debug)]
pub enum Meaning {
    /// All labels at least as strong as one of these.
    Upwards(LabelSet),
    /// These labels and no others.
    Alone(LabelSet),
}

// Whether the other label is in the set, and this one at least as strong.
fn goes_up(strength: &Strength, set: LabelSet, other: u8, label: u8) -> bool
    requires label { label < strength.now.labels }
    requires other { other < strength.now.labels }
    ensures { IsTrue result ↔ (IsIn other set × IsIn label (ups_in strength.now.ups.items other)) }
{
    if !set.has(other) {
        return false;
    }
    strength.up(other).has(label)
}

// Whether the label is at least as strong as one of the set.
fn is_above(strength: &Strength, set: LabelSet, label: u8) -> bool
    requires set { IsLabelSet strength.now.labels set }
    requires label { label < strength.now.labels }
    ensures { IsTrue result ↔ IsAbove (ups_in strength.now.ups.items) set label }
{
    for other in 0..strength.labels {
        if goes_up(strength, set, other, label) {
            return true;
        }
    }
    false
}

// The set without the label, where it is at least as strong as another one that stays.
fn thinned_at(strength: &Strength, set: LabelSet, label: u8) -> LabelSet
    requires set { IsLabelSet strength.now.labels set }
    requires label { label < strength.now.labels }
    requires goes_on { (x : ℕ) → IsUp (ups_in strength.now.ups.items) (ups_in strength.now.ups.items x) }
    ensures set { IsLabelSet strength.now.labels result }
    ensures within { IsWithin result set }
    ensures whole { (y : ℕ) → IsAbove (ups_in strength.now.ups.items) set y → IsAbove (ups_in strength.now.ups.items) result y }
    ensures apart { (x : ℕ) → IsIn x result → IsIn label result → IsIn label (ups_in strength.now.ups.items x) → x ≡ label }
    ensures stays { (x : ℕ) → IsIn x set → (x ≡ label → ⊥) → IsIn x result }
{
    let others = set.remove(label);
    if is_above(strength, others, label) {
        others
    } else {
        set
    }
}

// The set without those labels below this one that are at least as strong as another label that stays.
fn thinned(strength: &Strength, set: LabelSet, label: u8) -> LabelSet
    requires set { IsLabelSet strength.now.labels set }
    requires label { label ≤ strength.now.labels }
    requires goes_on { (x : ℕ) → IsUp (ups_in strength.now.ups.items) (ups_in strength.now.ups.items x) }
    ensures within { IsWithin result set }
    ensures whole { (y : ℕ) → IsAbove (ups_in strength.now.ups.items) set y → IsAbove (ups_in strength.now.ups.items) result y }
    ensures apart { (x y : ℕ) → y < label → IsIn x result → IsIn y result → IsIn y (ups_in strength.now.ups.items x) → x ≡ y }
    ensures least { (x y : ℕ) → x < label → IsIn x result → IsIn y set → IsIn x (ups_in strength.now.ups.items y) → x ≤ y }
{
    if label == 0 {
        return set;
    }
    let kept = thinned_at(strength, set, label - 1);
    thinned(strength, kept, label - 1)
}

/// What the set means: by its weakest labels exactly where it is right-closed, so that it has with each of its labels all that are at
/// least as strong, and else as it is. Of equally strong labels the least one stands. With n labels it looks at n * n pairs of labels.
pub fn meaning_of(strength: &Strength, set: LabelSet) -> Meaning
    requires set { IsLabelSet strength.now.labels set }
    requires holds { (x : ℕ) → IsIn x (ups_in strength.now.ups.items x) }
    requires goes_on { (x : ℕ) → IsUp (ups_in strength.now.ups.items) (ups_in strength.now.ups.items x) }
    ensures { Means (ups_in strength.now.ups.items) set result }
{
    if is_up(strength, set) {
        Meaning::Upwards(thinned(strength, set, strength.labels))
    } else {
        Meaning::Alone(set)
    }
}
