//! The problem of the labels that a map of a problem into itself leaves.
ghost use Rattle.re_bridge.specs.Reductions.{IsEndomorphism, constraint_within, image_set, problem_within};
ghost use Rattle.re_changes.specs.Renumbering.{number_among};
ghost use Rattle.re_labels.specs.Lists.{count_from};
ghost use Rattle.re_labels.specs.Sets.{IsLabelSet, within};
ghost use Rattle.std.specs.Prelude.{◌≡◌, ◌≤◌, IfOk, length, map};

use crate::mapping::image_set;
use arrayvec::ArrayVec;
use re_changes::{number_among, renumbered};
use re_labels::{Config, Constraint, InsertFault, LabelSet, MAX_LABELS, NoMemory};
use re_problem::Problem;
use std::alloc::Global;

// Whether each label of the configuration is in the set.
fn is_within(config: &Config, labels: LabelSet) -> bool
    ensures { result ≡ within config.now labels }
{
    for label in config.labels() {
        if !labels.has(*label) {
            return false;
        }
    }
    true
}

// The configurations all of whose labels are in the set.
fn constraint_within(
    alloc: Global,
    constraint: &Constraint,
    labels: LabelSet,
) -> Result<Constraint, NoMemory>
    ensures { IfOk result (λ rest. rest ≡ constraint_within labels constraint.now) }
{
    let _count = constraint.len();
    let mut rest = Constraint::new(alloc, constraint.degree());
    for config in constraint.configs() {
        if is_within(config, labels) {
            match rest.insert(config.copy()) {
                Ok(_) => {}
                Err(InsertFault::NoMemory) => return Err(NoMemory),
                Err(InsertFault::TooManyConfigurations) => unreachable!(),
            }
        }
    }
    Ok(rest)
}

// The labels of the set, in order.
fn labels_of(labels: LabelSet, count: u8) -> ArrayVec<u8, 128>
    requires count { count ≤ MAX_LABELS }
    requires labels { IsLabelSet count labels }
    ensures { result.items ≡ labels }
{
    let mut held = ArrayVec::new();
    for label in 0..count {
        if labels.has(label) {
            held.push(label);
        }
    }
    held
}

// For each label below this number its new number among those that stay.
fn numbers_among(stay: &[u8], count: u8) -> ArrayVec<u8, 128>
    requires stay { length stay.now ≤ MAX_LABELS }
    requires count { count ≤ MAX_LABELS }
    ensures { result.items ≡ map (number_among stay.now) (count_from 0 count) }
{
    let mut numbers = ArrayVec::new();
    for label in 0..count {
        numbers.push(number_among(stay, label));
    }
    numbers
}

/// The problem with the images of the map alone. It sorts the configurations that stay.
pub(crate) fn problem_within(
    alloc: Global,
    problem: &Problem,
    images: &[u8],
) -> Result<Problem, NoMemory>
    requires { IsEndomorphism problem.now images.now }
    ensures { IfOk result (λ rest. rest ≡ problem_within (image_set images.now) problem.now) }
{
    let names = problem.names();
    let count = names.len() as u8;
    let labels = image_set(images);
    let active = constraint_within(alloc, problem.active(), labels)?;
    let passive = constraint_within(alloc, problem.passive(), labels)?;
    let stay = labels_of(labels, count);
    let numbers = numbers_among(stay.as_slice(), count);
    renumbered(
        alloc,
        names,
        &active,
        &passive,
        stay.as_slice(),
        numbers.as_slice(),
    )
}
