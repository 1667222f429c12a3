//! Strength of labels: a label is at least as strong as another one where it may take its place, one occurrence at a time.
ghost use Rattle.re_labels.specs.Lists.{count_from};
ghost use Rattle.re_labels.specs.Sets.{IsLabelSet};
ghost use Rattle.re_labels.specs.Strength.{IsAtLeastAsStrong, may_replace, up_set};
ghost use Rattle.std.specs.Prelude.{◌≡◌, ◌≤◌, ◌<◌, ◌↔◌, IsTrue, filter};

use crate::{Config, Constraint, LabelSet, MAX_LABELS};

// Whether the strong label in place of one weak one gives a configuration, where this configuration holds the weak one.
fn may_replace(constraint: &Constraint, config: &Config, weak: u8, strong: u8) -> bool
    requires { strong < MAX_LABELS }
    ensures { result ≡ may_replace constraint.now strong weak config.now }
{
    match config.replace_one(weak, strong) {
        Some(replaced) => constraint.contains(&replaced),
        None => true,
    }
}

// The labels of the set that may take the weak one's place in the configuration.
fn stronger_in(constraint: &Constraint, config: &Config, weak: u8, labels: LabelSet) -> LabelSet
    requires { IsLabelSet MAX_LABELS labels }
    ensures { result ≡ filter (λ strong. may_replace constraint.now strong weak config.now) labels }
{
    let Some(strong) = labels.first() else {
        return labels;
    };
    let rest = stronger_in(constraint, config, weak, labels.remove(strong));
    if may_replace(constraint, config, weak, strong) {
        rest.insert(strong)
    } else {
        rest
    }
}

// The same, where a configuration without the weak label is passed at once.
fn kept_by(constraint: &Constraint, config: &Config, weak: u8, labels: LabelSet) -> LabelSet
    requires set { IsLabelSet MAX_LABELS labels }
    requires weak { weak < MAX_LABELS }
    ensures { result ≡ filter (λ strong. may_replace constraint.now strong weak config.now) labels }
{
    if !config.support().has(weak) {
        return labels;
    }
    stronger_in(constraint, config, weak, labels)
}

// The set of the labels below this number.
fn labels_below(labels: u8) -> LabelSet
    requires { labels ≤ MAX_LABELS }
    ensures { result ≡ count_from 0 labels }
{
    let mut all = LabelSet::empty();
    for label in 0..labels {
        all = all.insert(label);
    }
    all
}

impl Constraint {
    /// Whether the strong label is at least as strong as the weak one: whether each configuration that holds the weak one
    /// stays a configuration where the strong one takes the place of one occurrence of it. A label that no configuration
    /// holds is as weak as may be: each label is at least as strong. It looks up at most one configuration for each that
    /// it passes, and leaves at the first one that is missing. (The order of Olivetti's Round Eliminator.)
    pub fn at_least(&self, weak: u8, strong: u8) -> bool
        requires weak { weak < MAX_LABELS }
        requires strong { strong < MAX_LABELS }
        ensures { IsTrue result ↔ IsAtLeastAsStrong self.now strong weak }
    {
        for place in 0..self.len() {
            let Some(config) = self.get(place) else {
                unreachable!();
            };
            if !may_replace(self, config, weak, strong) {
                return false;
            }
        }
        true
    }

    /// The set of the labels below `labels` that are at least as strong as the weak one. A label that is struck out once
    /// isn't tried again, and configurations without the weak one are passed at once, so it looks up at most `labels`
    /// configurations for each that holds the weak one, and stops where the weak one alone is left.
    pub fn up_set(&self, weak: u8, labels: u8) -> LabelSet
        requires weak { weak < MAX_LABELS }
        requires labels { labels ≤ MAX_LABELS }
        ensures { result ≡ up_set self.now weak labels }
    {
        let mut candidates = labels_below(labels);
        for place in 0..self.len() {
            if candidates.remove(weak).is_empty() {
                return candidates;
            }
            let Some(config) = self.get(place) else {
                unreachable!();
            };
            candidates = kept_by(self, config, weak, candidates);
        }
        candidates
    }
}
