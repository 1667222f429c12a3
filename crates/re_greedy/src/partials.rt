//! What stands around a passive node some of whose neighbours have put out their labels.
ghost use Rattle.re_greedy.specs.Partials.{IsExtra};
ghost use Rattle.re_labels.specs.Configs.{IsConfig, sorted};
ghost use Rattle.re_labels.specs.Lists.{IsRising};
ghost use Rattle.std.specs.List.{AllByRecursion, remove};
ghost use Rattle.std.specs.Prelude.{◌≡◌, ◌<◌, ◌≤◌, length};

use arrayvec::ArrayVec;
use re_labels::{Config, MAX_LABELS};
use std::marker::Model;

/// Up to six labels below `re_labels::MAX_LABELS`, in ascending order: what some of the neighbours of a passive node have put out. Contracts see it as
/// the list of its labels.
#[derive(Drop, Debug)]
pub struct Partial {
    held: ArrayVec<u8, 6>,
}

impl Model for Partial {
    ghost use Rattle.re_labels.specs.Configs.{IsConfig};
    ghost use Rattle.re_labels.specs.declared.TheConstants.{MAX_LABELS};
    ghost use Rattle.std.specs.Prelude.{List, ℕ, ◌≤◌, length};

    ghost Value = { List ℕ };

    ghost view = { λ p. p.held.items };

    ghost invariant = { λ p. (length p.held.items ≤ 6) × IsConfig (length p.held.items) MAX_LABELS p.held.items };
}

impl Partial {
    /// The multiset of these labels, in any order.
    pub fn from_labels(labels: &[u8]) -> Partial
        requires six { length labels.now ≤ 6 }
        requires below { AllByRecursion (λ x. x < MAX_LABELS) labels.now }
        ensures { result ≡ sorted labels.now }
    {
        let mut held: ArrayVec<u8, 6> = ArrayVec::new();
        for label in labels {
            held.push(*label);
        }
        held.sort_unstable();
        Partial { held }
    }

    /// The labels of a configuration.
    pub fn of_config(config: &Config) -> Partial
        ensures { result ≡ config.now }
    {
        let mut held: ArrayVec<u8, 6> = ArrayVec::new();
        for label in config.labels() {
            held.push(*label);
        }
        Partial { held }
    }

    /// Its labels, in ascending order.
    pub fn labels(&self) -> &[u8]
        ensures labels { result.now ≡ self.now }
        ensures six { length self.now ≤ 6 }
        ensures config { IsConfig (length self.now) MAX_LABELS self.now }
    {
        self.held.as_slice()
    }

    /// The same multiset. It takes no memory.
    pub fn copy(&self) -> Partial
        ensures { result ≡ self.now }
    {
        let mut held: ArrayVec<u8, 6> = ArrayVec::new();
        for label in self.labels() {
            held.push(*label);
        }
        Partial { held }
    }

    /// The multiset without the label at this place.
    pub fn without(&self, place: usize) -> Partial
        requires { place < length self.now }
        ensures { result ≡ sorted (remove self.now place) }
    {
        let labels = self.labels();
        let mut rest: ArrayVec<u8, 6> = ArrayVec::new();
        for before in &labels[..place] {
            rest.push(*before);
        }
        for after in &labels[place + 1..] {
            rest.push(*after);
        }
        Partial::from_labels(rest.as_slice())
    }
}

/// The label that the first multiset has besides those of the second one, or None where it isn't the second one with one label more.
pub fn extra(whole: &[u8], seen: &[u8]) -> Option<u8>
    requires whole { IsRising (λ x y. x ≤ y) whole.now }
    requires seen { IsRising (λ x y. x ≤ y) seen.now }
    ensures { IsExtra whole.now seen.now result }
{
    let [label, labels @ ..] = whole else {
        return None;
    };
    let [first, others @ ..] = seen else {
        return if labels.is_empty() {
            Some(*label)
        } else {
            None
        };
    };
    if *label == *first {
        return extra(labels, others);
    }
    if labels == seen {
        return Some(*label);
    }
    None
}
