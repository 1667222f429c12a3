//! The labels with those at least as strong, and the labels that lack a label so.
ghost use Rattle.re_boxes.specs.Boxes.{IsStrength, with_stronger};
ghost use Rattle.re_boxes.specs.Strength.{HasStronger};
ghost use Rattle.re_labels.specs.Sets.{IsIn, IsLabelSet, IsWithin, has};
ghost use Rattle.re_labels.specs.declared.TheConstants.{MAX_LABELS};
ghost use Rattle.re_boxes.specs.HeldStrength.{IsWeakest, ups_in};
ghost use Rattle.std.specs.List.{AllByRecursion, AllZip};
ghost use Rattle.std.specs.Prelude.{◌≡◌, ◌<◌, ◌≤◌, ℕ, [], length, map, not, slice_index_or, filter};

use crate::strength_choosing::picked;
use arrayvec::ArrayVec;
use re_labels::{Constraint, LabelSet, MAX_LABELS};

/// For each label below a number the labels that it goes up to, which are those at least as strong, and the labels that don't go
/// up to it. It takes no memory.
#[derive(Drop)]
pub struct Strength {
    /// The number.
    pub labels: u8,
    /// What the labels go up to, each set at its label's place.
    pub ups: ArrayVec<LabelSet, 128>,
    apart: ArrayVec<LabelSet, 128>,
    past: ArrayVec<LabelSet, 128>,
    strong_first: ArrayVec<LabelSet, 128>,
    weak_first: ArrayVec<LabelSet, 128>,
    ghost few: { labels ≤ MAX_LABELS },
    ghost count: { length ups.items ≡ labels },
    ghost alike: { length apart.items ≡ labels },
    ghost beside: { length past.items ≡ labels },
    ghost below: { (x y : ℕ) → x < labels → IsIn y (slice_index_or ups.items x []) → y < labels },
    ghost lacks: { (x z : ℕ) → x < labels → z < labels → has (slice_index_or apart.items x []) z ≡ not (has (ups_in ups.items z) x) },
    ghost passes: { (x z : ℕ) → x < labels → z < labels → has (slice_index_or past.items x []) z ≡ not (has (ups_in ups.items x) z) },
}

// The labels that do not go up to this one.
fn apart_from(ups: &[LabelSet], label: u8) -> LabelSet
    requires few { length ups.now ≤ MAX_LABELS }
    requires label { label < length ups.now }
    ensures { (z : ℕ) → z < length ups.now → has result z ≡ not (has (ups_in ups.now z) label) }
{
    let mut apart = LabelSet::empty();
    for other in 0..ups.len() {
        if !ups[other].has(label) {
            apart = apart.insert(other as u8);
        }
    }
    apart
}

// The labels below the number that are not in the set.
fn others(labels: u8, set: LabelSet) -> LabelSet
    requires { labels ≤ MAX_LABELS }
    ensures { (z : ℕ) → z < labels → has result z ≡ not (has set z) }
{
    let mut other = LabelSet::empty();
    for label in 0..labels {
        if !set.has(label) {
            other = other.insert(label);
        }
    }
    other
}

// The labels that go up to so many.
fn with_count(ups: &[LabelSet], count: u8) -> LabelSet
    requires { length ups.now ≤ MAX_LABELS }
{
    let mut labels = LabelSet::empty();
    for label in 0..ups.len() {
        if ups[label].count() == count {
            labels = labels.insert(label as u8);
        }
    }
    labels
}

// The labels by how many they go up to, those with few of them first.
fn few_first(ups: &[LabelSet]) -> ArrayVec<LabelSet, 128>
    requires { length ups.now ≤ MAX_LABELS }
{
    let mut levels = ArrayVec::new();
    for count in 1..129 {
        let level = with_count(ups, count);
        if !level.is_empty() {
            let _ = levels.try_push(level);
        }
    }
    levels
}

// The sets from the last to the first.
fn turned(sets: &[LabelSet]) -> ArrayVec<LabelSet, 128> {
    let mut turned = ArrayVec::new();
    for set in sets.iter().rev() {
        let _ = turned.try_push(*set);
    }
    turned
}

impl Strength {
    /// Each label goes up to those at least as strong. They are found in one walk over the rests of the configurations, and what
    /// follows costs about the square of the number of labels.
    pub fn of(constraint: &Constraint, labels: u8) -> Strength
        requires { labels ≤ MAX_LABELS }
        ensures labels { result.labels ≡ labels }
        ensures stronger { HasStronger constraint.now labels (ups_in result.ups.items) }
        ensures strong { IsStrength constraint.now (ups_in result.ups.items) }
    {
        let _degree = constraint.degree();
        let ups = crate::visiting::up_sets(constraint, labels);
        let mut apart = ArrayVec::new();
        for label in 0..labels {
            apart.push(apart_from(ups.as_slice(), label));
        }
        let mut past = ArrayVec::new();
        for label in 0..labels {
            past.push(others(labels, ups[label as usize]));
        }
        let strong_first = few_first(ups.as_slice());
        let weak_first = turned(strong_first.as_slice());
        Strength {
            labels,
            ups,
            apart,
            past,
            strong_first,
            weak_first,
        }
    }

    /// The labels that this one goes up to.
    pub fn up(&self, label: u8) -> LabelSet
        requires { label < self.now.labels }
        ensures up { result ≡ ups_in self.now.ups.items label }
        ensures set { IsLabelSet self.now.labels result }
    {
        let set = self.ups[label as usize];
        let _number = set.number();
        set
    }

    /// The labels of the set that do not go up to this one.
    pub fn without(&self, set: LabelSet, label: u8) -> LabelSet
        requires label { label < self.now.labels }
        requires set { IsLabelSet self.now.labels set }
        ensures { result ≡ filter (λ z. not (has (ups_in self.now.ups.items z) label)) set }
    {
        set.meet(self.apart[label as usize])
    }

    /// The labels that these ones go up to, each set at its label's place.
    pub fn up_sets(&self, config: &[u8]) -> ArrayVec<LabelSet, 6>
        requires six { length config.now ≤ 6 }
        requires below { AllByRecursion (λ label. label < self.now.labels) config.now }
        ensures sets { result.items ≡ map (ups_in self.now.ups.items) config.now }
        ensures below { AllByRecursion (IsLabelSet self.now.labels) result.items }
    {
        let mut sets = ArrayVec::new();
        for label in config {
            sets.push(self.up(*label));
        }
        sets
    }

    /// The labels, those that go up to few first.
    pub(crate) fn order(&self) -> &[LabelSet] {
        self.strong_first.as_slice()
    }

    /// The weakest labels of the set: all labels of it are labels that these ones go up to.
    pub(crate) fn weakest(&self, set: LabelSet) -> LabelSet
        requires strong { (x : ℕ) → IsIn x (ups_in self.now.ups.items x) }
        requires set { IsLabelSet self.now.labels set }
        ensures within { IsWithin result set }
        ensures labels { IsLabelSet self.now.labels result }
        ensures whole { IsWithin set (with_stronger (ups_in self.now.ups.items) result) }
    {
        let Some(label) = picked(set, LabelSet::empty(), self.weak_first.as_slice()) else {
            return LabelSet::empty();
        };
        let rest = set.meet(self.past[label as usize]);
        self.weakest(rest).insert(label)
    }

    /// The weakest labels of each of the sets.
    pub fn weakest_sets(&self, sets: &[LabelSet]) -> ArrayVec<LabelSet, 6>
        requires strong { (x : ℕ) → IsIn x (ups_in self.now.ups.items x) }
        requires six { length sets.now ≤ 6 }
        requires sets { AllByRecursion (IsLabelSet self.now.labels) sets.now }
        ensures weakest { AllZip (IsWeakest (ups_in self.now.ups.items)) result.items sets.now }
        ensures below { AllByRecursion (IsLabelSet self.now.labels) result.items }
    {
        let mut weakest = ArrayVec::new();
        for set in sets {
            weakest.push(self.weakest(*set));
        }
        weakest
    }
}
