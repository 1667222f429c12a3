//! Sets among others: their places, and the labels of what lies within a set or around it.
ghost use Rattle.re_closure.specs.Sides.{labels_around};
ghost use Rattle.re_closure_laws.specs.Lines.{labels_within};
ghost use Rattle.std.specs.Prelude.{◌≡◌, ◌≤◌, IfOk, length, map};

use re_labels::{LabelSet, MAX_LABELS, NoMemory};
use std::alloc::Global;

/// The places of the sets that lie within this one.
pub(crate) fn labels_within(sets: &[LabelSet], set: LabelSet) -> LabelSet
    requires { length sets.now ≤ MAX_LABELS }
    ensures { result ≡ labels_within sets.now set }
{
    let mut labels = LabelSet::empty();
    for place in 0..sets.len() {
        if sets[place].within(set) {
            labels = labels.insert(place as u8);
        }
    }
    labels
}

// The places of the sets that hold this one.
fn labels_around(sets: &[LabelSet], set: LabelSet) -> LabelSet
    requires { length sets.now ≤ MAX_LABELS }
    ensures { result ≡ labels_around sets.now set }
{
    let mut labels = LabelSet::empty();
    for place in 0..sets.len() {
        if set.within(sets[place]) {
            labels = labels.insert(place as u8);
        }
    }
    labels
}

/// For each set the places of those that lie within it.
pub(crate) fn all_within(alloc: Global, sets: &[LabelSet]) -> Result<Vec<LabelSet>, NoMemory>
    requires { length sets.now ≤ MAX_LABELS }
    ensures { IfOk result (λ all. all.items ≡ map (labels_within sets.now) sets.now) }
{
    let mut all = Vec::new(alloc);
    for set in sets {
        all.push(labels_within(sets, *set))?;
    }
    Ok(all)
}

/// For each set the places of those that hold it.
pub(crate) fn all_around(alloc: Global, sets: &[LabelSet]) -> Result<Vec<LabelSet>, NoMemory>
    requires { length sets.now ≤ MAX_LABELS }
    ensures { IfOk result (λ all. all.items ≡ map (labels_around sets.now) sets.now) }
{
    let mut all = Vec::new(alloc);
    for set in sets {
        all.push(labels_around(sets, *set))?;
    }
    Ok(all)
}
