//! The active configurations of an input problem in the order of their last labels, and the places of their labels and of those that stand
//! in none.
ghost use Rattle.re_labels.specs.Rows.{singles};
ghost use Rattle.re_settings.specs.Fits.{by_last, ends_in, joined, loose};
ghost use Rattle.re_labels.specs.declared.TheConstants.{MAX_LABELS};
ghost use Rattle.std.specs.Prelude.{◌≡◌, ◌++◌, ◌≤◌, IfOk, filter};

use re_labels::{Config, Constraint, LabelSet, MAX_LABELS, NoMemory};
use std::alloc::Global;

// Whether the configuration of this degree has this last label.
fn ends_in(degree: u8, label: u8, config: &Config) -> bool
    requires { 1 ≤ degree }
    ensures { result ≡ ends_in degree label config.now }
{
    match config.labels().get(degree as usize - 1) {
        Some(last) => *last == label,
        None => label == 0,
    }
}

// Puts the configurations with this last label behind the others.
fn push_ending(
    configs: &mut Vec<Config>,
    constraint: &Constraint,
    label: u8,
) -> Result<(), NoMemory>
    ensures { IfOk result (λ _. configs.new.items ≡ configs.old.items ++ filter (ends_in constraint.now.degree label) constraint.now.configs) }
{
    let degree = constraint.degree();
    for place in 0..constraint.len() {
        let Some(config) = constraint.get(place) else {
            unreachable!();
        };
        if ends_in(degree, label, config) {
            configs.push(config.copy())?;
        }
    }
    Ok(())
}

/// The configurations of labels below the number, those with a lower last label first. It takes the time of as many walks over the
/// constraint as there are labels.
pub(crate) fn by_last(
    alloc: Global,
    constraint: &Constraint,
    labels: u8,
) -> Result<Vec<Config>, NoMemory>
    ensures { IfOk result (λ configs. configs.items ≡ by_last constraint.now labels) }
{
    let mut configs = Vec::new(alloc);
    for label in 0..labels {
        push_ending(&mut configs, constraint, label)?;
    }
    Ok(configs)
}

// Puts the labels of the configuration behind the others, each as a set of its own.
fn push_labels(places: &mut Vec<LabelSet>, config: &Config) -> Result<(), NoMemory>
    ensures { IfOk result (λ _. places.new.items ≡ places.old.items ++ singles config.now) }
{
    for label in config.labels() {
        places.push(LabelSet::single(*label))?;
    }
    Ok(())
}

// Puts the labels below the number that stand in no configuration behind the others, each as a set of its own.
fn push_loose(
    places: &mut Vec<LabelSet>,
    constraint: &Constraint,
    labels: u8,
) -> Result<(), NoMemory>
    requires { labels ≤ MAX_LABELS }
    ensures { IfOk result (λ _. places.new.items ≡ places.old.items ++ singles (loose constraint.now labels)) }
{
    let held = constraint.labels();
    for label in 0..labels {
        if !held.has(label) {
            places.push(LabelSet::single(label))?;
        }
    }
    Ok(())
}

/// The places of the configurations' labels, each with the set of its label, and behind them one for each label below the number that
/// stands in no configuration of the constraint.
pub(crate) fn places_of(
    alloc: Global,
    configs: &[Config],
    constraint: &Constraint,
    labels: u8,
) -> Result<Vec<LabelSet>, NoMemory>
    requires { labels ≤ MAX_LABELS }
    ensures { IfOk result (λ places. places.items ≡ singles (joined configs.now ++ loose constraint.now labels)) }
{
    let mut places = Vec::new(alloc);
    for config in configs {
        push_labels(&mut places, config)?;
    }
    push_loose(&mut places, constraint, labels)?;
    Ok(places)
}
