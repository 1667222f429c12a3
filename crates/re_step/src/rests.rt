// What is left of configurations when one label is taken out of each.
ghost use Rattle.re_labels.specs.Configs.{sorted};
ghost use Rattle.re_labels.specs.Orders.{splits};
ghost use Rattle.re_step.specs.Rests.{AreRests, MakesPair, rests_of};
ghost use Rattle.re_labels.specs.Lists.{IsRising};
ghost use Rattle.re_labels.specs.declared.TheConstants.{MAX_LABELS};
ghost use Rattle.std.specs.List.{AllByRecursion};
ghost use Rattle.std.specs.Prelude.{◌≡◌, ◌≤◌, ◌<◌, ◌+◌, ◌++◌, ◌∷◌, ◌↔◌, ◌⊎◌, [], ℕ, List, Contains, IfOk, OnOk, flat_map, length, map, remove, true};

use arrayvec::ArrayVec;
use re_labels::{Config, LabelSet, NoMemory};
use std::alloc::Global;

// The configuration without the label at this place.
fn without(config: &Config, place: usize) -> Config
    requires many { 3 ≤ length config.now }
    requires place { place < length config.now }
    ensures { result ≡ sorted (remove config.now place) }
{
    let mut left: ArrayVec<u8, 6> = ArrayVec::new();
    let _fits = left.try_extend_from_slice(config.labels());
    left.remove(place);
    Config::from_labels(left.as_slice())
}

// Adds what is left of the configuration, for each of its labels that lie in the set.
fn push_rests(rests: &mut Vec<Config>, config: &Config, set: LabelSet) -> Result<(), NoMemory>
    requires { 3 ≤ length config.now }
    ensures rests { OnOk result (rests.new.items ≡ rests.old.items ++ rests_of set config.now) }
    ensures rises { IsRising (λ x y. x ≤ y) config.now }
{
    let labels = config.labels();
    for place in 0..labels.len() {
        if set.has(labels[place]) {
            rests.push(without(config, place))?;
        }
    }
    Ok(())
}

// What is left of the configurations, for each of their labels that lie in the set.
fn all_rests(alloc: Global, configs: &[Config], set: LabelSet) -> Result<Vec<Config>, NoMemory>
    requires { AllByRecursion (λ config. 3 ≤ length config) configs.now }
    ensures rests { IfOk result (λ rests. rests.items ≡ flat_map (rests_of set) configs.now) }
    ensures rise { IfOk result (λ _. AllByRecursion (IsRising (λ x y. x ≤ y)) configs.now) }
{
    let mut rests = Vec::new(alloc);
    for config in configs {
        push_rests(&mut rests, config, set)?;
    }
    Ok(rests)
}

// Whether this is the last one.
fn is_last(kept: &[Config], config: &Config) -> bool
    ensures { result ≡ true → Contains kept.now config.now }
{
    match kept.last() {
        Some(last) => last == config,
        None => false,
    }
}

// The configurations, those that stand beside an equal one once.
fn each_once(alloc: Global, configs: &[Config]) -> Result<Vec<Config>, NoMemory>
    ensures { IfOk result (λ kept. (config : List ℕ) → Contains kept.items config ↔ Contains configs.now config) }
{
    let mut kept = Vec::new(alloc);
    for config in configs {
        if !is_last(kept.as_slice(), config) {
            kept.push(config.copy())?;
        }
    }
    Ok(kept)
}

/// The multisets that a label of the set makes one of the configurations, each once and in order.
pub(crate) fn rests(
    alloc: Global,
    configs: &[Config],
    set: LabelSet,
    size: u8,
) -> Result<Vec<Config>, NoMemory>
    requires many { 3 ≤ size }
    requires alike { AllByRecursion (λ config. length config ≡ size) configs.now }
    ensures rests { IfOk result (λ rests. AreRests configs.now set rests.items) }
    ensures alike { IfOk result (λ rests. AllByRecursion (λ rest. length rest + 1 ≡ size) rests.items) }
{
    let mut all = all_rests(alloc, configs, set)?;
    all.sort()?;
    each_once(alloc, all.as_slice())
}

// The set with the other label of a pair, where the first one is in the other set.
fn with_partner(partners: LabelSet, set: LabelSet, label: u8, other: u8) -> LabelSet
    requires label { label < MAX_LABELS }
    requires other { other < MAX_LABELS }
    ensures { (y : ℕ) → Contains result y ↔ (Contains partners y ⊎ ((Contains set label) × (y ≡ other))) }
{
    if set.has(label) {
        partners.insert(other)
    } else {
        partners
    }
}

// The set with the labels too that a label of the other set makes the pair.
fn with_partners(partners: LabelSet, set: LabelSet, pair: &Config) -> LabelSet
    requires { length pair.now ≡ 2 }
    ensures { (y : ℕ) → Contains result y ↔ (Contains partners y ⊎ MakesPair set y pair.now) }
{
    let labels = pair.labels();
    let (low, high) = (labels[0], labels[1]);
    with_partner(with_partner(partners, set, low, high), set, high, low)
}

/// The labels that a label of the set makes one of the pairs.
pub(crate) fn partners(pairs: &[Config], set: LabelSet) -> LabelSet
    requires { AllByRecursion (λ pair. length pair ≡ 2) pairs.now }
    ensures { AreRests pairs.now set (map (λ y. y ∷ []) result) }
{
    let mut partners = LabelSet::empty();
    for pair in pairs {
        partners = with_partners(partners, set, pair);
    }
    partners
}
