//! The search for an upper bound by patterns.
use crate::closed_sets::good_patterns;
use crate::given::Given;
use crate::opposites::{Sides, beside_labels, opposite_pairs, sides_of};
use crate::patterns::{Pattern, family_of, patterns_of};
use crate::sizes::next_size;
use re_cert::{SetEntry, Step, StepParts};
use re_labels::{Config, Constraint, InsertFault, LabelSet, MAX_LABELS, NoMemory};
use re_problem::Problem;
use re_step::{AllowedFault, allowed, names_of, place_of};
use std::alloc::Global;

/// How many steps a path has at most.
const MAX_PATH: usize = 16;

/// The fewest labels for patterns in degree 5, two for each pair of ports.
const FEWEST: u8 = 20;

/// The most labels of a beam in degree 5, where patterns of the fewest labels lead to the end.
const MAX_BEAM: u8 = 6;

/// The same given an input problem, where other paths end.
const MAX_GIVEN_BEAM: u8 = 8;

// A search under way: the most steps, the most labels, and the most labels of passive nodes.
#[derive(Clone, Copy)]
struct Bounds {
    alloc: Global,
    steps: usize,
    labels: usize,
    sides: usize,
}

// The label with this number, and `MAX_LABELS` where there is none.
fn label_at(place: usize) -> u8 {
    if place < MAX_LABELS as usize {
        place as u8
    } else {
        MAX_LABELS
    }
}

// The constraint of these configurations.
fn constraint_of(
    alloc: Global,
    degree: u8,
    configs: Vec<Config>,
) -> Result<Option<Constraint>, NoMemory> {
    if !(2..=6).contains(&degree) {
        return Ok(None);
    }
    let mut constraint = Constraint::new(alloc, degree);
    for config in configs {
        if config.labels().len() != constraint.degree() as usize {
            return Ok(None);
        }
        match constraint.insert(config) {
            Ok(_) => {}
            Err(InsertFault::TooManyConfigurations) => return Ok(None),
            Err(InsertFault::NoMemory) => return Err(NoMemory),
        }
    }
    Ok(Some(constraint))
}

// Each set with its place as its label.
fn entries_of(alloc: Global, sets: &[LabelSet]) -> Result<Vec<SetEntry>, NoMemory> {
    let mut entries = Vec::new(alloc);
    for (place, set) in sets.iter().enumerate() {
        entries.push(SetEntry {
            set: *set,
            label: label_at(place),
        })?;
    }
    Ok(entries)
}

// The step from the problem to the one of these active configurations, whose labels stand for these sets.
fn step_to(
    alloc: Global,
    before: &Problem,
    sets: &[LabelSet],
    configs: Vec<Config>,
) -> Result<Option<Step>, NoMemory> {
    if sets.len() > MAX_LABELS as usize {
        return Ok(None);
    }
    let Some(active) = constraint_of(alloc, before.passive().degree(), configs)? else {
        return Ok(None);
    };
    let passive = match allowed(alloc, before.active(), sets) {
        Ok(passive) => passive,
        Err(AllowedFault::TooManyConfigurations) => return Ok(None),
        Err(AllowedFault::NoMemory) => return Err(NoMemory),
    };
    let names = names_of(alloc, sets.len() as u8)?;
    let Some(next) = Problem::build(active, passive, names) else {
        return Ok(None);
    };
    let parts = StepParts::Upper {
        map: entries_of(alloc, sets)?,
    };
    Ok(Some(Step { next, parts }))
}

// The configuration in which the one label stands at all places but one, and the other there, for degrees 3 and 5.
fn config_of(degree: u8, often: u8, once: u8) -> Option<Config> {
    if often >= MAX_LABELS || once >= MAX_LABELS {
        return None;
    }
    match degree {
        3 => Some(Config::from_labels(&[once, often, often])),
        5 => Some(Config::from_labels(&[once, often, often, often, often])),
        _ => None,
    }
}

// The sets of the patterns, each once.
fn sets_of(alloc: Global, patterns: &[Pattern]) -> Result<Vec<LabelSet>, NoMemory> {
    let mut sets: Vec<LabelSet> = Vec::new(alloc);
    for pattern in patterns {
        for set in [pattern.often, pattern.once] {
            if place_of(sets.as_slice(), set) == sets.len() {
                sets.push(set)?;
            }
        }
    }
    Ok(sets)
}

// The step to the problem of these patterns.
fn pattern_step(
    alloc: Global,
    before: &Problem,
    patterns: &[Pattern],
) -> Result<Option<Step>, NoMemory> {
    let sets = sets_of(alloc, patterns)?;
    let degree = before.passive().degree();
    let mut configs = Vec::new(alloc);
    for pattern in patterns {
        let often = label_at(place_of(sets.as_slice(), pattern.often));
        let once = label_at(place_of(sets.as_slice(), pattern.once));
        if let Some(config) = config_of(degree, often, once) {
            configs.push(config)?;
        }
    }
    step_to(alloc, before, sets.as_slice(), configs)
}

// How many pairs of ports there are.
fn pairs_of(degree: u8) -> usize {
    let degree = degree as usize;
    degree.wrapping_mul(degree.saturating_sub(1)) / 2
}

// How many choices of a label of each of its two sets a pattern has.
fn choices(pattern: &Pattern) -> u32 {
    (pattern.often.count() as u32).wrapping_mul(pattern.once.count() as u32)
}

// As many of the patterns as have at most so many sets together, those of the most choices first.
fn few_patterns(
    alloc: Global,
    patterns: Vec<Pattern>,
    most: usize,
) -> Result<Vec<Pattern>, NoMemory> {
    let mut all = patterns;
    all.sort_by_key(|pattern| u32::MAX - choices(pattern))?;
    let mut few: Vec<Pattern> = Vec::new(alloc);
    for pattern in all.as_slice() {
        few.push(*pattern)?;
        if sets_of(alloc, few.as_slice())?.len() > most {
            few.pop();
        }
    }
    Ok(few)
}

// The labels beside each other of the problem between: each set and its opposite.
fn beside_sides(alloc: Global, sides: &Sides) -> Result<Vec<LabelSet>, NoMemory> {
    let mut beside = Vec::new(alloc);
    for other in sides.opposite.as_slice() {
        beside.push(if *other < MAX_LABELS {
            LabelSet::single(*other)
        } else {
            LabelSet::empty()
        })?;
    }
    Ok(beside)
}

// For each pattern of the family the set of its own label that stands once, and of those that stand often in the others.
fn shared_sets(alloc: Global, family: &[Pattern]) -> Result<Vec<LabelSet>, NoMemory> {
    let mut sets = Vec::new(alloc);
    for (place, pattern) in family.iter().enumerate() {
        let mut set = pattern.once;
        for (other, pattern) in family.iter().enumerate() {
            if other != place {
                set = set.union(pattern.often);
            }
        }
        sets.push(set)?;
    }
    Ok(sets)
}

// The configurations of each label below this number with itself.
fn twins(alloc: Global, labels: usize) -> Result<Vec<Config>, NoMemory> {
    let mut twins = Vec::new(alloc);
    for label in 0..MAX_LABELS {
        if (label as usize) < labels {
            twins.push(Config::from_labels(&[label, label]))?;
        }
    }
    Ok(twins)
}

// For each port the pairs of ports that have it, numbered in order.
fn port_sets(alloc: Global, degree: u8) -> Result<Vec<LabelSet>, NoMemory> {
    let mut sets = Vec::new(alloc);
    for port in 0..degree {
        let mut set = LabelSet::empty();
        let mut number: u8 = 0;
        for high in 0..degree {
            for low in 0..high {
                if (low == port || high == port) && number < MAX_LABELS {
                    set = set.insert(number);
                }
                number = number.wrapping_add(1);
            }
        }
        sets.push(set)?;
    }
    Ok(sets)
}

// The configuration of all labels below the degree, for degrees 3 and 5.
fn all_ports(degree: u8) -> Option<Config> {
    match degree {
        3 => Some(Config::from_labels(&[0, 1, 2])),
        5 => Some(Config::from_labels(&[0, 1, 2, 3, 4])),
        _ => None,
    }
}

// The two steps from the problem of a family with a pattern for each pair of ports.
fn last_steps(
    alloc: Global,
    problem: &Problem,
    family: &[Pattern],
) -> Result<Option<(Step, Step)>, NoMemory> {
    let degree = problem.active().degree();
    let sets = shared_sets(alloc, family)?;
    let configs = twins(alloc, sets.len())?;
    let Some(first) = step_to(alloc, problem, sets.as_slice(), configs)? else {
        return Ok(None);
    };
    let mut configs = Vec::new(alloc);
    if let Some(config) = all_ports(degree) {
        configs.push(config)?;
    }
    let sets = port_sets(alloc, degree)?;
    match step_to(alloc, first.next(), sets.as_slice(), configs)? {
        Some(second) => Ok(Some((first, second))),
        None => Ok(None),
    }
}

impl Bounds {
    // The two steps to a problem of patterns: to a family with one for each pair of ports where there is one, and else to as many as
    // have few enough labels.
    fn two_steps(
        &self,
        problem: &Problem,
        beside: &[LabelSet],
    ) -> Result<Option<(Step, Step)>, NoMemory> {
        let sides = sides_of(self.alloc, beside, self.sides)?;
        let pairs = opposite_pairs(self.alloc, &sides)?;
        let Some(first) = step_to(self.alloc, problem, sides.sets.as_slice(), pairs)? else {
            return Ok(None);
        };
        let between = first.next();
        let labels = between.names().len() as u8;
        let patterns = good_patterns(self.alloc, between.passive(), labels)?;
        let opposite = beside_sides(self.alloc, &sides)?;
        let wanted = pairs_of(problem.active().degree());
        let family = family_of(self.alloc, patterns.as_slice(), opposite.as_slice(), wanted)?;
        let kept = if family.len() < wanted {
            few_patterns(self.alloc, patterns, self.labels)?
        } else {
            family
        };
        match pattern_step(self.alloc, between, kept.as_slice())? {
            Some(second) => Ok(Some((first, second))),
            None => Ok(None),
        }
    }

    // The next two steps from the problem behind so many, and whether they are the last ones.
    fn next_steps(
        &self,
        problem: &Problem,
        steps: usize,
    ) -> Result<Option<(Step, Step, bool)>, NoMemory> {
        if steps.saturating_add(2) > self.steps {
            return Ok(None);
        }
        let beside = beside_labels(self.alloc, problem)?;
        let patterns = patterns_of(self.alloc, problem)?;
        let wanted = pairs_of(problem.active().degree());
        let family = family_of(self.alloc, patterns.as_slice(), beside.as_slice(), wanted)?;
        if family.len() >= wanted {
            return match last_steps(self.alloc, problem, family.as_slice())? {
                Some((first, second)) => Ok(Some((first, second, true))),
                None => Ok(None),
            };
        }
        if steps.saturating_add(4) > self.steps {
            return Ok(None);
        }
        match self.two_steps(problem, beside.as_slice())? {
            Some((first, second)) => Ok(Some((first, second, false))),
            None => Ok(None),
        }
    }

    // The path from the problem to one that is solvable without communication, if one is found.
    fn path(&self, problem: &Problem) -> Result<Option<Vec<Step>>, NoMemory> {
        let mut path: Vec<Step> = Vec::new(self.alloc);
        for _pair in 0..MAX_PATH {
            let found = match path.as_slice().last() {
                Some(step) => self.next_steps(step.next(), path.len())?,
                None => self.next_steps(problem, 0)?,
            };
            let Some((first, second, last)) = found else {
                return Ok(None);
            };
            path.push(first)?;
            path.push(second)?;
            if last {
                return Ok(Some(path));
            }
        }
        Ok(None)
    }
}

// The shortest path with problems of at most so many labels.
fn path_of_size(
    alloc: Global,
    problem: &Problem,
    steps: usize,
    labels: u8,
) -> Result<Option<Vec<Step>>, NoMemory> {
    let mut path = None;
    let mut most = steps;
    for sides in [4, 8, 12, 16] {
        let bounds = Bounds {
            alloc,
            steps: most,
            labels: labels as usize,
            sides,
        };
        if sides <= bounds.labels {
            if let Some(found) = bounds.path(problem)? {
                most = found.len().saturating_sub(1);
                path = Some(found);
            }
        }
    }
    Ok(path)
}

/// What the searches by patterns come to: the shortest path that one finds, if any, and whether one finds a path to problems of at most
/// `FEWEST` labels.
#[derive(Drop)]
pub(crate) struct Paired {
    pub(crate) path: Option<Vec<Step>>,
    few: bool,
}

/// The shortest path by patterns that is found from a problem of passive degree 2 and active degree 3 or 5 to one that is solvable without
/// communication: at most so many steps, to problems of at most so many labels. There is a search for each number of labels up to that.
pub(crate) fn pattern_path(
    alloc: Global,
    problem: &Problem,
    steps: usize,
    labels: u8,
) -> Result<Paired, NoMemory> {
    let degree = problem.active().degree();
    let mut paired = Paired {
        path: None,
        few: false,
    };
    if problem.passive().degree() != 2 || (degree != 3 && degree != 5) {
        return Ok(paired);
    }
    let mut most = steps;
    let mut size = if degree == 3 { 6 } else { FEWEST };
    for _size in 0..labels {
        if size > labels {
            break;
        }
        if let Some(found) = path_of_size(alloc, problem, most, size)? {
            most = found.len().saturating_sub(1);
            paired.path = Some(found);
            paired.few = paired.few || size == FEWEST;
        }
        size = next_size(size);
    }
    Ok(paired)
}

/// The most labels of a beam, of so many that are wanted: in degree 5 at most `MAX_BEAM`, or `MAX_GIVEN_BEAM`, where patterns of `FEWEST` labels
/// lead to the end, however many steps and labels are wanted.
pub(crate) fn beam_labels(
    alloc: Global,
    given: &Given,
    problem: &Problem,
    paired: &Paired,
    labels: u8,
) -> Result<u8, NoMemory> {
    if problem.passive().degree() != 2 || problem.active().degree() != 5 {
        return Ok(labels);
    }
    let most = if given.is_nothing() {
        MAX_BEAM
    } else {
        MAX_GIVEN_BEAM
    };
    if paired.few {
        return Ok(labels.min(most));
    }
    match path_of_size(alloc, problem, MAX_PATH, FEWEST)? {
        Some(_path) => Ok(labels.min(most)),
        None => Ok(labels),
    }
}
