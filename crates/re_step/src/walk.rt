// The walk over the multisets of sets.
ghost use Rattle.re_labels.specs.Rows.{set_at};
ghost use Rattle.re_step.specs.Rests.{SharesLabel, all_begun, allowed_from, allowed_on};
ghost use Rattle.re_labels.specs.ListSets.{list_set};
ghost use Rattle.std.specs.List.{AllByRecursion};
ghost use Rattle.std.specs.Prelude.{◌≡◌, ◌≤◌, ◌<◌, ◌+◌, ◌-◌, ◌++◌, ◌∷◌, ◌↔◌, [], ℕ, Contains, IsErrOf, IsTrue, OnOk, length, map};

use crate::allowing::AllowedFault;
use crate::rests::{partners, rests};
use arrayvec::ArrayVec;
use re_labels::{Config, Constraint, InsertFault, LabelSet, MAX_CONFIGURATIONS, MAX_LABELS};
use std::alloc::Global;

// The places with one more behind them.
fn extended(places: &[u8], place: u8) -> ArrayVec<u8, 6>
    requires { length places.now < 6 }
    ensures { result.items ≡ places.now ++ place ∷ [] }
{
    let mut all = ArrayVec::new();
    let _fits = all.try_extend_from_slice(places);
    all.push(place);
    all
}

// Whether one of the labels is in the set.
fn has_one(labels: LabelSet, set: LabelSet) -> bool
    ensures { IsTrue result ↔ SharesLabel labels set }
{
    !labels.meet(set).is_empty()
}

// The places from `next` on whose set has one of the labels.
fn holders(labels: LabelSet, sets: &[LabelSet], next: u8) -> LabelSet
    requires few { length sets.now ≤ MAX_LABELS }
    requires places { next ≤ length sets.now }
    ensures { (place : ℕ) → Contains result place ↔ ((next ≤ place) × (place < length sets.now) × SharesLabel labels (set_at sets.now place)) }
{
    let mut places = LabelSet::empty();
    for place in next..sets.len() as u8 {
        if has_one(labels, sets[place as usize]) {
            places = places.insert(place);
        }
    }
    places
}

// Adds the multisets that go on with one more place, from `next` on, whose set has one of the labels.
fn push_last(
    labels: LabelSet,
    sets: &[LabelSet],
    first: &[u8],
    next: u8,
    found: &mut Constraint,
) -> Result<(), AllowedFault>
    requires few { length sets.now ≤ MAX_LABELS }
    requires below { AllByRecursion (λ place. place < MAX_LABELS) first.now }
    requires places { next ≤ length sets.now }
    requires fit { length first.now + 1 ≡ found.old.degree }
    ensures degree { found.new.degree ≡ found.old.degree }
    ensures found { OnOk result (found.new.configs ≡ list_set (found.old.configs ++ all_begun first.now (allowed_from (map (λ y. y ∷ []) labels) sets.now 1 next (length sets.now - next)))) }
    ensures many { IsErrOf result AllowedFault.TooManyConfigurations →
        MAX_CONFIGURATIONS < length (list_set (found.old.configs ++ all_begun first.now (allowed_from (map (λ y. y ∷ []) labels) sets.now 1 next (length sets.now - next)))) }
{
    match found.insert_each(first, holders(labels, sets, next)) {
        Ok(()) => Ok(()),
        Err(InsertFault::NoMemory) => Err(AllowedFault::NoMemory),
        Err(InsertFault::TooManyConfigurations) => Err(AllowedFault::TooManyConfigurations),
    }
}

/// Adds the multisets that go on with `size` more of the `count` places from `next` on, and whose further sets these configurations
/// of that many labels allow.
#[cycle(walk)]
pub(crate) fn walk(
    alloc: Global,
    configs: &[Config],
    sets: &[LabelSet],
    first: &[u8],
    size: u8,
    next: u8,
    count: u8,
    found: &mut Constraint,
) -> Result<(), AllowedFault>
    requires two { 2 ≤ size }
    requires six { length first.now + size ≤ 6 }
    requires few { length sets.now ≤ MAX_LABELS }
    requires below { AllByRecursion (λ place. place < MAX_LABELS) first.now }
    requires places { next + count ≡ length sets.now }
    requires alike { AllByRecursion (λ config. length config ≡ size) configs.now }
    requires fit { length first.now + size ≡ found.old.degree }
    ensures degree { found.new.degree ≡ found.old.degree }
    ensures found { OnOk result (found.new.configs ≡ list_set (found.old.configs ++ all_begun first.now (allowed_from configs.now sets.now size next count))) }
    ensures many { IsErrOf result AllowedFault.TooManyConfigurations → MAX_CONFIGURATIONS < length (list_set (found.old.configs ++ all_begun first.now (allowed_from configs.now sets.now size next count))) }
{
    if count == 0 {
        let _ascends = found.degree();
        return Ok(());
    }
    walk_on(alloc, configs, sets, first, size, next, count, found)?;
    walk(
        alloc,
        configs,
        sets,
        first,
        size,
        next + 1,
        count - 1,
        found,
    )
}

// The same, where the set at place `next` is among the further ones.
#[cycle(walk)]
fn walk_on(
    alloc: Global,
    configs: &[Config],
    sets: &[LabelSet],
    first: &[u8],
    size: u8,
    next: u8,
    count: u8,
    found: &mut Constraint,
) -> Result<(), AllowedFault>
    requires two { 2 ≤ size }
    requires six { length first.now + size ≤ 6 }
    requires few { length sets.now ≤ MAX_LABELS }
    requires below { AllByRecursion (λ place. place < MAX_LABELS) first.now }
    requires places { next + count ≡ length sets.now }
    requires some { 1 ≤ count }
    requires alike { AllByRecursion (λ config. length config ≡ size) configs.now }
    requires fit { length first.now + size ≡ found.old.degree }
    ensures degree { found.new.degree ≡ found.old.degree }
    ensures found { OnOk result (found.new.configs ≡ list_set (found.old.configs ++ all_begun first.now (allowed_on configs.now sets.now size next count))) }
    ensures many { IsErrOf result AllowedFault.TooManyConfigurations → MAX_CONFIGURATIONS < length (list_set (found.old.configs ++ all_begun first.now (allowed_on configs.now sets.now size next count))) }
{
    let set = sets[next as usize];
    let more = extended(first, next);
    if size == 2 {
        let labels = partners(configs, set);
        return push_last(labels, sets, more.as_slice(), next, found);
    }
    let left = rests(alloc, configs, set, size)?;
    if left.is_empty() {
        let _ascends = found.degree();
        return Ok(());
    }
    walk(
        alloc,
        left.as_slice(),
        sets,
        more.as_slice(),
        size - 1,
        next,
        count,
        found,
    )
}
