//! The sets of the labels of an input problem, and of any problem to which an upper step leads.
ghost use Rattle.re_check.specs.LabelsOver.{labels_over};
ghost use Rattle.re_check.specs.RowEntries.{row_entries};
ghost use Rattle.re_settings.specs.Fits.{IsFound, fit_walk, passes_with, problem_with};
ghost use Rattle.re_settings.specs.Laws.{IsAnswer, IsLeading};
ghost use Rattle.re_given.specs.Inputs.{IsInput, exchanged, exchanged_by};
ghost use Rattle.re_labels.specs.Lists.{count_from};
ghost use Rattle.re_problem.specs.NamedProblems.{unnamed};
ghost use Rattle.re_walks.specs.Walking.{cut, found, nowhere, walk};
ghost use Rattle.std.specs.List.{AllByRecursion};
ghost use Rattle.std.specs.Prelude.{◌≡◌, ◌<◌, ◌≤◌, Err, IfOk, IfSome, MatchOption, length, map, option_map};

use crate::ordering::{by_last, places_of};
use crate::passing::passes;
use re_check::all_labels_over;
use re_labels::{Config, Constraint, LabelSet, MAX_LABELS, NoMemory};
use re_problem::Problem;
use re_walks::{entries_for, follow};
use std::alloc::Global;

/// Why it isn't known whether there are such sets.
#[derive(Clone, Copy, Debug, PartialEq, Eq)]
pub enum FitFault {
    /// The walk doesn't come to an end with so many tries.
    TooManyTries,
    /// There was no memory.
    NoMemory,
}

impl From<NoMemory> for FitFault {
    ghost use Rattle.re_settings.specs.declared.finding.FitFault.TheVariants.{NoMemory as no_memory};

    ghost from_gives = { λ _ e. e ≡ no_memory };

    fn from(_: NoMemory) -> Self {
        FitFault::NoMemory
    }
}

// The first labels of the places that pass.
fn first_labels(
    alloc: Global,
    problem: &Problem,
    passive: &Constraint,
    configs: &[Config],
    places: &[LabelSet],
    tries: u32,
) -> Result<Option<Vec<u8>>, FitFault>
    requires degree { problem.now.passive.degree ≡ passive.now.degree }
    ensures walked { IfOk result (λ labels. MatchOption labels
        (walk (passes_with (unnamed problem.now) passive.now configs.now places.now) (length problem.now.names) (length places.now) tries ≡ nowhere)
        (λ labels. walk (passes_with (unnamed problem.now) passive.now configs.now places.now) (length problem.now.names) (length places.now) tries ≡ found labels.items)) }
    ensures few { IfOk result (λ labels. IfSome labels (λ labels. length labels.items ≤ length places.now)) }
    ensures low { IfOk result (λ labels. IfSome labels (λ labels. AllByRecursion (λ label. label < MAX_LABELS) labels.items)) }
    ensures cut { result ≡ Err FitFault.TooManyTries →
        walk (passes_with (unnamed problem.now) passive.now configs.now places.now) (length problem.now.names) (length places.now) tries ≡ cut }
{
    let n = problem.names().len() as u8;
    let mut labels = Vec::new(alloc);
    for _try in 0..tries {
        let passes = passes(alloc, problem, passive, configs, places, labels.as_slice())?;
        if passes && labels.len() == places.len() {
            return Ok(Some(labels));
        }
        if !follow(&mut labels, n, passes)? {
            return Ok(None);
        }
    }
    Err(FitFault::TooManyTries)
}

// The labels that each of so many input labels becomes.
fn sets_for(
    alloc: Global,
    places: &[LabelSet],
    labels: &[u8],
    count: u8,
) -> Result<Vec<LabelSet>, NoMemory>
    requires count { count ≤ MAX_LABELS }
    requires few { length labels.now ≤ length places.now }
    requires labels { AllByRecursion (λ label. label < MAX_LABELS) labels.now }
    ensures { IfOk result (λ sets. sets.items ≡ map (labels_over (row_entries places.now labels.now)) (count_from 0 count)) }
{
    let entries = entries_for(alloc, places, labels)?;
    let over = all_labels_over(entries.as_slice());
    let mut sets = Vec::new(alloc);
    for label in 0..count {
        sets.push(over[label as usize])?;
    }
    Ok(sets)
}

// The sets for so many input labels, of which these may stand around active and around passive nodes.
fn fit_between(
    alloc: Global,
    problem: &Problem,
    count: u8,
    active: &Constraint,
    passive: &Constraint,
    tries: u32,
) -> Result<Option<Vec<LabelSet>>, FitFault>
    requires degree { problem.now.passive.degree ≡ passive.now.degree }
    requires count { count ≤ MAX_LABELS }
    ensures found { IfOk result (λ sets. IsFound (unnamed problem.now) (problem_with count active.now passive.now) tries (option_map (λ sets. sets.items) sets)) }
    ensures tries { result ≡ Err FitFault.TooManyTries → fit_walk (unnamed problem.now) (problem_with count active.now passive.now) tries ≡ cut }
{
    let configs = by_last(alloc, active, count)?;
    let places = places_of(alloc, configs.as_slice(), active, count)?;
    let labels = first_labels(
        alloc,
        problem,
        passive,
        configs.as_slice(),
        places.as_slice(),
        tries,
    )?;
    match labels {
        Some(labels) => Ok(Some(sets_for(alloc, places.as_slice(), labels.as_slice(), count)?)),
        None => Ok(None),
    }
}

/// Sets of labels of the problem for the labels of the input problem, by which an upper step leads to the exchanged input problem: by them
/// a solution of the input problem becomes one of the problem without communication. None exactly where there are no such sets.
///
/// A walk gives labels to the places of the active configurations of the input problem, one configuration after the other, those with lower
/// last labels first: each becomes a configuration of the problem, with ascending labels where it has a label more than once. The set of an
/// input label has the labels that it becomes somewhere; the sets are those of the first labels in lexicographic order. The walk goes back
/// as soon as no configuration begins with the labels of one, or some choice of labels that a passive configuration becomes isn't passive. Each
/// list of labels that is tested is a try, and costs what `keeps_allowed` of `re_check` costs. `TooManyTries` comes exactly where the walk
/// needs more than `tries`.
pub fn find_fit(
    alloc: Global,
    problem: &Problem,
    input: &Problem,
    tries: u32,
) -> Result<Option<Vec<LabelSet>>, FitFault>
    requires input { IsInput (unnamed problem.now) (unnamed input.now) }
    ensures found { IfOk result (λ sets. IsFound (unnamed problem.now) (unnamed input.now) tries (option_map (λ sets. sets.items) sets)) }
    ensures answer { IfOk result (λ sets. IsAnswer (unnamed problem.now) (unnamed input.now) (option_map (λ sets. sets.items) sets)) }
    ensures tries { result ≡ Err FitFault.TooManyTries → fit_walk (unnamed problem.now) (unnamed input.now) tries ≡ cut }
{
    let _problem = problem.names();
    let count = input.names().len() as u8;
    fit_between(
        alloc,
        problem,
        count,
        input.active(),
        input.passive(),
        tries,
    )
}

/// A set of labels of the problem for each label of the next problem, by which an upper step leads there, whatever labels stand on which
/// side. None exactly where no upper step does. The degrees of the next problem are those of the problem, exchanged.
///
/// The walk is that of `find_fit`, over the passive configurations of the next problem, and behind their labels over its labels that
/// stand in none of them: such a label stands for one label of the problem, the first one that passes. `TooManyTries` comes exactly where the
/// walk needs more than `tries`.
pub fn find_upper(
    alloc: Global,
    problem: &Problem,
    next: &Problem,
    tries: u32,
) -> Result<Option<Vec<LabelSet>>, FitFault>
    requires active { next.now.active.degree ≡ problem.now.passive.degree }
    requires passive { next.now.passive.degree ≡ problem.now.active.degree }
    ensures found { IfOk result (λ sets. IsFound (unnamed problem.now) (exchanged (unnamed next.now)) tries (option_map (λ sets. sets.items) sets)) }
    ensures leading { IfOk result (λ sets. IsLeading (unnamed problem.now) (unnamed next.now) (option_map (λ sets. sets.items) sets)) }
    ensures tries { result ≡ Err FitFault.TooManyTries → fit_walk (unnamed problem.now) (exchanged (unnamed next.now)) tries ≡ cut }
{
    let _problem = problem.names();
    let count = next.names().len() as u8;
    fit_between(alloc, problem, count, next.passive(), next.active(), tries)
}

// The same of the input problem with its sides exchanged.
fn find_fit_exchanged(
    alloc: Global,
    problem: &Problem,
    input: &Problem,
    tries: u32,
) -> Result<Option<Vec<LabelSet>>, FitFault>
    requires input { IsInput (unnamed problem.now) (exchanged (unnamed input.now)) }
    ensures found { IfOk result (λ sets. IsFound (unnamed problem.now) (exchanged (unnamed input.now)) tries (option_map (λ sets. sets.items) sets)) }
    ensures answer { IfOk result (λ sets. IsAnswer (unnamed problem.now) (exchanged (unnamed input.now)) (option_map (λ sets. sets.items) sets)) }
    ensures tries { result ≡ Err FitFault.TooManyTries → fit_walk (unnamed problem.now) (exchanged (unnamed input.now)) tries ≡ cut }
{
    let _problem = problem.names();
    find_upper(alloc, problem, input, tries)
}

/// The same of the input problem with its sides exchanged as often as there are steps.
pub fn find_fit_after(
    alloc: Global,
    problem: &Problem,
    input: &Problem,
    steps: u8,
    tries: u32,
) -> Result<Option<Vec<LabelSet>>, FitFault>
    requires input { IsInput (unnamed problem.now) (exchanged_by steps (unnamed input.now)) }
    ensures found { IfOk result (λ sets. IsFound (unnamed problem.now) (exchanged_by steps (unnamed input.now)) tries (option_map (λ sets. sets.items) sets)) }
    ensures answer { IfOk result (λ sets. IsAnswer (unnamed problem.now) (exchanged_by steps (unnamed input.now)) (option_map (λ sets. sets.items) sets)) }
    ensures tries { result ≡ Err FitFault.TooManyTries → fit_walk (unnamed problem.now) (exchanged_by steps (unnamed input.now)) tries ≡ cut }
{
    if steps % 2 == 0 {
        find_fit(alloc, problem, input, tries)
    } else {
        find_fit_exchanged(alloc, problem, input, tries)
    }
}
