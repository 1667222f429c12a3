//! Derived problems with few labels.
use crate::chance::label_chances;
use re_changes::{Change, Changed};
use re_labels::{Constraint, LabelSet, MAX_LABELS, NoMemory};
use re_problem::Problem;
use re_step::{AllowedFault, Derived, allowed};
use std::alloc::Global;

/// How many labels for each one that is wanted are left.
const FEW: usize = 3;

/// A derived problem with some of its labels, and the set of each that is left.
#[derive(Drop)]
pub(crate) struct Thin {
    pub(crate) problem: Problem,
    pub(crate) sets: Vec<LabelSet>,
}

/// What is left without the label, where there is one.
pub(crate) fn without(
    alloc: Global,
    made: &Changed,
    label: u8,
) -> Result<Option<Changed>, NoMemory> {
    let labels = made.problem().names().len();
    if (label as usize) < labels {
        Ok(Some(made.changed(alloc, Change::LeaveOut(label))?))
    } else {
        Ok(None)
    }
}

// What a label that isn't to stay has become, if one is left.
fn strange_label(made: &Changed, stay: LabelSet) -> Option<u8> {
    for (label, image) in made.images().iter().enumerate() {
        if let Some(image) = image {
            if label < MAX_LABELS as usize && !stay.has(label as u8) {
                return Some(*image);
            }
        }
    }
    None
}

// What is left with the labels that stay alone.
fn restricted(alloc: Global, made: Changed, stay: LabelSet) -> Result<Changed, NoMemory> {
    let mut made = made;
    for _label in 0..MAX_LABELS {
        let Some(label) = strange_label(&made, stay) else {
            break;
        };
        match without(alloc, &made, label)? {
            Some(left) => made = left,
            None => break,
        }
    }
    Ok(made)
}

// The problem with its active configurations alone.
fn active_part(alloc: Global, problem: &Problem) -> Result<Option<Problem>, NoMemory> {
    let none = Constraint::new(alloc, problem.passive().degree());
    let active = problem.active().copy()?;
    let names = problem.names().copy()?;
    Ok(Problem::build(active, none, names))
}

// The sets of the labels that are left.
fn sets_left(
    alloc: Global,
    sets: &[LabelSet],
    images: &[Option<u8>],
) -> Result<Vec<LabelSet>, NoMemory> {
    let mut left = Vec::new(alloc);
    for (set, image) in sets.iter().zip(images) {
        if image.is_some() {
            left.push(*set)?;
        }
    }
    Ok(left)
}

// The problem of these active configurations, whose labels stand for these sets of labels of the problem before.
fn thin_with(
    alloc: Global,
    before: &Problem,
    part: &Problem,
    sets: Vec<LabelSet>,
) -> Result<Option<Thin>, NoMemory> {
    if sets.len() > MAX_LABELS as usize {
        return Ok(None);
    }
    let passive = match allowed(alloc, before.active(), sets.as_slice()) {
        Ok(passive) => passive,
        Err(AllowedFault::TooManyConfigurations) => return Ok(None),
        Err(AllowedFault::NoMemory) => return Err(NoMemory),
    };
    let active = part.active().copy()?;
    let names = part.names().copy()?;
    match Problem::build(active, passive, names) {
        Some(problem) => Ok(Some(Thin { problem, sets })),
        None => Ok(None),
    }
}

/// The derived problem of the problem before with these labels alone, without those that then stand in no active configuration.
pub(crate) fn thin_to(
    alloc: Global,
    before: &Problem,
    derived: &Derived,
    stay: LabelSet,
) -> Result<Option<Thin>, NoMemory> {
    let Some(part) = active_part(alloc, &derived.problem)? else {
        return Ok(None);
    };
    let made = restricted(alloc, Changed::unchanged(part), stay)?;
    let sets = sets_left(alloc, derived.sets.as_slice(), made.images())?;
    thin_with(alloc, before, made.problem(), sets)
}

// The labels that stay where a quarter goes of those that are too many, or one.
fn after_round(
    alloc: Global,
    problem: &Problem,
    stay: LabelSet,
    few: usize,
) -> Result<Option<LabelSet>, NoMemory> {
    let chances = label_chances(alloc, problem, stay)?;
    let many = chances.len().saturating_sub(few);
    if many == 0 {
        return Ok(None);
    }
    let goes = (many / 4).saturating_add(1);
    let mut left = LabelSet::empty();
    for (place, one) in chances.iter().enumerate() {
        if goes <= place && one.label < MAX_LABELS {
            left = left.insert(one.label);
        }
    }
    Ok(Some(left))
}

// The labels of the problem that stay where so many are wanted.
fn few_labels(alloc: Global, problem: &Problem, few: usize) -> Result<LabelSet, NoMemory> {
    let mut stay = problem.active().labels();
    for _round in 0..MAX_LABELS {
        match after_round(alloc, problem, stay, few)? {
            Some(left) => stay = left,
            None => break,
        }
    }
    Ok(stay)
}

/// The derived problem of the problem before without labels of little chance, where it has more than three for each one that is wanted:
/// a quarter of those that are too many goes at a time.
pub(crate) fn thinned(
    alloc: Global,
    before: &Problem,
    derived: Derived,
    wanted: u8,
) -> Result<Option<Thin>, NoMemory> {
    let few = (wanted as usize).saturating_mul(FEW);
    if derived.problem.names().len() <= few {
        let Derived { problem, sets, .. } = derived;
        return Ok(Some(Thin { problem, sets }));
    }
    let stay = few_labels(alloc, &derived.problem, few)?;
    thin_to(alloc, before, &derived, stay)
}
