//! The first configurations and labels whose images aren't as they must be.
ghost use Rattle.re_labels.specs.Configs.{image_at};
ghost use Rattle.re_labels.specs.Rows.{in_order, set_at};
ghost use Rattle.re_labels.specs.Sets.{IsLabelSet};
ghost use Rattle.re_problem.specs.Verdicts.{first_empty, first_lost, first_not_allowed, first_not_good, first_twice};
ghost use Rattle.re_labels.specs.Constraints.{has_config};
ghost use Rattle.re_labels.specs.GoodRows.{is_allowed, is_good};
ghost use Rattle.std.specs.List.{AllByRecursion};
ghost use Rattle.std.specs.Prelude.{◌≡◌, ◌<◌, ◌≤◌, length, map};

use arrayvec::ArrayVec;
use re_labels::{Config, Constraint, LabelSet, MAX_LABELS, Row};

// Whether the image of the configuration is one of the constraint's.
fn is_kept(constraint: &Constraint, config: &Config, images: &[u8]) -> bool
    requires known { AllByRecursion (λ label. label < length images.now) config.now }
    requires below { AllByRecursion (λ image. image < MAX_LABELS) images.now }
    ensures { result ≡ has_config constraint.now (map (image_at images.now) config.now) }
{
    constraint.contains(&config.image(images))
}

// The row of the sets that the labels of the configuration stand for.
fn row_of_sets(config: &Config, sets: &[LabelSet]) -> Row
    requires known { AllByRecursion (λ label. label < length sets.now) config.now }
    requires sets { AllByRecursion (λ set. IsLabelSet MAX_LABELS set × (0 < length set)) sets.now }
    ensures { result ≡ in_order MAX_LABELS (map (set_at sets.now) config.now) }
{
    let mut there: ArrayVec<LabelSet, 6> = ArrayVec::new();
    for label in config.labels() {
        there.push(sets[*label as usize]);
    }
    match Row::from_sets(there.as_slice()) {
        Some(row) => row,
        None => unreachable!(),
    }
}

// Whether each choice of one label of each set that the configuration's labels stand for is one of the constraint's.
fn is_good(constraint: &Constraint, config: &Config, sets: &[LabelSet]) -> bool
    requires degree { length config.now ≡ constraint.now.degree }
    requires known { AllByRecursion (λ label. label < length sets.now) config.now }
    requires sets { AllByRecursion (λ set. IsLabelSet MAX_LABELS set × (0 < length set)) sets.now }
    ensures { result ≡ is_good constraint.now (map (set_at sets.now) config.now) }
{
    constraint.is_good(&row_of_sets(config, sets))
}

// Whether some choice of one label of each set that the configuration's labels stand for is one of the constraint's.
fn is_allowed(constraint: &Constraint, config: &Config, sets: &[LabelSet]) -> bool
    requires degree { length config.now ≡ constraint.now.degree }
    requires known { AllByRecursion (λ label. label < length sets.now) config.now }
    requires sets { AllByRecursion (λ set. IsLabelSet MAX_LABELS set × (0 < length set)) sets.now }
    ensures { result ≡ is_allowed constraint.now (map (set_at sets.now) config.now) }
{
    constraint.allows(&row_of_sets(config, sets))
}

/// The first configuration whose image isn't one of the other constraint's.
pub fn first_lost(from: &Constraint, to: &Constraint, images: &[u8]) -> Option<Config>
    requires known { AllByRecursion (AllByRecursion (λ label. label < length images.now)) from.now.configs }
    requires below { AllByRecursion (λ image. image < MAX_LABELS) images.now }
    ensures { result ≡ first_lost images.now from.now to.now }
{
    for place in 0..from.len() {
        let Some(config) = from.get(place) else {
            unreachable!();
        };
        if !is_kept(to, config, images) {
            return Some(config.copy());
        }
    }
    None
}

/// The first configuration of `to` such that the sets that its labels stand for are no good row of `from`, or None where there is
/// none. The degrees are equal, and `sets` has a nonempty set for each label of `to`, in order. It takes no memory, and looks up
/// at most one configuration for each choice of a row, leaving a row at the first choice that isn't one.
pub fn first_not_good(to: &Constraint, from: &Constraint, sets: &[LabelSet]) -> Option<Config>
    requires degree { to.now.degree ≡ from.now.degree }
    requires known { AllByRecursion (AllByRecursion (λ label. label < length sets.now)) to.now.configs }
    requires sets { AllByRecursion (λ set. IsLabelSet MAX_LABELS set × (0 < length set)) sets.now }
    ensures { result ≡ first_not_good sets.now to.now from.now }
{
    for place in 0..to.len() {
        let Some(config) = to.get(place) else {
            unreachable!();
        };
        if !is_good(from, config, sets) {
            return Some(config.copy());
        }
    }
    None
}

/// The first configuration of `to` such that no choice of one label of each set that its labels stand for is a configuration of
/// `from`, or None where there is none. The degrees are equal, and `sets` has a nonempty set for each label of `to`, in order. It
/// takes no memory. For each row it goes down the tree of `from` with the sets that are left, and leaves a branch as soon as its
/// label is in none of them; it stops at the first configuration that fits.
pub fn first_not_allowed(to: &Constraint, from: &Constraint, sets: &[LabelSet]) -> Option<Config>
    requires degree { to.now.degree ≡ from.now.degree }
    requires known { AllByRecursion (AllByRecursion (λ label. label < length sets.now)) to.now.configs }
    requires sets { AllByRecursion (λ set. IsLabelSet MAX_LABELS set × (0 < length set)) sets.now }
    ensures { result ≡ first_not_allowed sets.now to.now from.now }
{
    for place in 0..to.len() {
        let Some(config) = to.get(place) else {
            unreachable!();
        };
        if !is_allowed(from, config, sets) {
            return Some(config.copy());
        }
    }
    None
}

/// The first label whose set is empty.
pub fn first_empty(sets: &[LabelSet]) -> Option<u8>
    requires { length sets.now ≤ MAX_LABELS }
    ensures { result ≡ first_empty sets.now }
{
    for (label, set) in sets.iter().enumerate() {
        if set.is_empty() {
            return Some(label as u8);
        }
    }
    None
}

/// The first label that has the image of a lower one.
pub fn first_twice(images: &[u8]) -> Option<u8>
    requires { length images.now ≤ MAX_LABELS }
    ensures { result ≡ first_twice images.now }
{
    for (label, image) in images.iter().enumerate() {
        if images[..label].contains(image) {
            return Some(label as u8);
        }
    }
    None
}
