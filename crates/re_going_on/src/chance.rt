//! How near a problem is to being solvable without communication, where some of its labels stay.
use re_labels::{Config, LabelSet, MAX_LABELS, NoMemory};
use re_problem::Problem;
use std::alloc::Global;

/// A label, and the chance of a passive node that has it.
#[derive(Clone, Copy)]
pub(crate) struct LabelChance {
    pub(crate) label: u8,
    pub(crate) chance: u64,
}

// What the weights of all labels are together, by the passive degree: so many of them multiplied with each other are at most 2^60.
fn scale_of(degree: u8) -> u64 {
    match degree {
        2 => 1 << 30,
        3 => 1 << 20,
        4 => 1 << 15,
        5 => 1 << 12,
        _ => 1 << 10,
    }
}

// Whether the label is in the set.
fn is_in(stay: LabelSet, label: u8) -> bool {
    label < MAX_LABELS && stay.has(label)
}

// Whether all labels of the configuration stay.
fn stays(config: &Config, stay: LabelSet) -> bool {
    for label in config.labels() {
        if !is_in(stay, *label) {
            return false;
        }
    }
    true
}

// So many zeros.
fn zeros(alloc: Global, count: usize) -> Result<Vec<u64>, NoMemory> {
    let mut zeros = Vec::new(alloc);
    for _place in 0..count {
        zeros.push(0u64)?;
    }
    Ok(zeros)
}

// How often each label stands in the active configurations that stay.
fn counts_of(alloc: Global, problem: &Problem, stay: LabelSet) -> Result<Vec<u64>, NoMemory> {
    let mut counts = zeros(alloc, problem.names().len())?;
    for config in problem.active().configs() {
        if stays(config, stay) {
            for label in config.labels() {
                if let Some(count) = counts.as_mut_slice().get_mut(*label as usize) {
                    *count = count.wrapping_add(1);
                }
            }
        }
    }
    Ok(counts)
}

// The weights of the labels: how often each stands there, as a share of the whole.
fn weights_of(alloc: Global, problem: &Problem, stay: LabelSet) -> Result<Vec<u64>, NoMemory> {
    let scale = scale_of(problem.passive().degree());
    let counts = counts_of(alloc, problem, stay)?;
    let mut total: u64 = 0;
    for count in counts.as_slice() {
        total = total.wrapping_add(*count);
    }
    let mut weights = Vec::new(alloc);
    for count in counts.as_slice() {
        weights.push(count.wrapping_mul(scale).checked_div(total).unwrap_or(0))?;
    }
    Ok(weights)
}

// The weight of the configuration: those of its labels multiplied, as often as there are orders of them.
fn weight_of(config: &Config, weights: &[u64]) -> u64 {
    let mut weight: u64 = 1;
    let mut orders: u64 = 1;
    let mut alike: u64 = 1;
    let mut place: u64 = 0;
    let mut run: u64 = 0;
    let mut last = None;
    for label in config.labels() {
        weight = weight.wrapping_mul(weights.get(*label as usize).copied().unwrap_or(0));
        if weight == 0 {
            return 0;
        }
        place = place.wrapping_add(1);
        run = if last == Some(*label) {
            run.wrapping_add(1)
        } else {
            1
        };
        last = Some(*label);
        orders = orders.wrapping_mul(place);
        alike = alike.wrapping_mul(run);
    }
    weight.wrapping_mul(orders.checked_div(alike).unwrap_or(0))
}

/// The chance that the labels around a passive node are a configuration, where each active node takes one of the active configurations
/// that stay at random, and turns it at random; in parts of a number for each passive degree.
pub(crate) fn chance_of(alloc: Global, problem: &Problem, stay: LabelSet) -> Result<u64, NoMemory> {
    let weights = weights_of(alloc, problem, stay)?;
    let mut chance: u64 = 0;
    for config in problem.passive().configs() {
        chance = chance.wrapping_add(weight_of(config, weights.as_slice()));
    }
    Ok(chance)
}

// For each label the weights of the configurations that hold it, as often as they do.
fn shares_of(alloc: Global, problem: &Problem, weights: &[u64]) -> Result<Vec<u64>, NoMemory> {
    let mut shares = zeros(alloc, weights.len())?;
    for config in problem.passive().configs() {
        let weight = weight_of(config, weights);
        for label in config.labels() {
            if let Some(share) = shares.as_mut_slice().get_mut(*label as usize) {
                *share = share.wrapping_add(weight);
            }
        }
    }
    Ok(shares)
}

/// The labels that stand in an active configuration that stays, each with the chance of a passive node that has it, those of the least
/// chance first.
pub(crate) fn label_chances(
    alloc: Global,
    problem: &Problem,
    stay: LabelSet,
) -> Result<Vec<LabelChance>, NoMemory> {
    let weights = weights_of(alloc, problem, stay)?;
    let shares = shares_of(alloc, problem, weights.as_slice())?;
    let mut chances = Vec::new(alloc);
    for label in 0..problem.names().len() as u8 {
        let weight = weights.get(label as usize).copied().unwrap_or(0);
        let share = shares.get(label as usize).copied().unwrap_or(0);
        if let Some(chance) = share.checked_div(weight) {
            chances.push(LabelChance { label, chance })?;
        }
    }
    chances.sort_by_key(|one| one.chance)?;
    Ok(chances)
}
