//! What a node outputs, by what its neighbours output.
ghost use Rattle.re_extract.specs.Seen.{HasChoice, choice_over, labels_over, set_over};
ghost use Rattle.re_laws.specs.Algorithms.{at_port};
ghost use Rattle.re_laws.specs.Extracted.{first_fit};
ghost use Rattle.re_problem.specs.NamedProblems.{unnamed};
ghost use Rattle.re_problem.specs.Steps.{set_for};
ghost use Rattle.re_problem.specs.Zero.{Zero};
ghost use Rattle.std.specs.List.{AllByRecursion};
ghost use Rattle.std.specs.Prelude.{◌≡◌, [], IfOk, map, slice_index_or};

use crate::sights::Sight;
use arrayvec::ArrayVec;
use re_cert::SetEntry;
use re_choice::first_choice;
use re_labels::{Constraint, LabelSet, NoMemory, PortLabels};
use re_pool::NodeId;
use re_problem::{Problem, zero_round};
use std::alloc::Global;

// The first configuration of a problem that shows that it is Zero.
fn zero_labels(problem: &Problem) -> PortLabels
    requires { Zero (unnamed problem.now) }
    ensures { result ≡ first_fit (unnamed problem.now) }
{
    if let Some(place) = zero_round(problem)
        && let Some(config) = problem.active().get(place)
        && let Some(labels) = PortLabels::new(config.labels())
    {
        labels
    } else {
        unreachable!()
    }
}

// The label at a port, where ports count from 1; 0 where there is none.
fn label_at(labels: &PortLabels, port: u8) -> u8
    ensures { result ≡ at_port labels.now port }
{
    let labels = labels.labels();
    labels
        .get(usize::from(port).saturating_sub(1))
        .copied()
        .unwrap_or(0)
}

// The label that a neighbour gives to the edge, where these are the labels of the neighbours' views.
fn label_over(answers: &[PortLabels], sight: Sight) -> u8
    ensures { result ≡ at_port (slice_index_or answers.now sight.place []) sight.back }
{
    match answers.get(sight.place) {
        Some(labels) => label_at(labels, sight.back),
        None => 0,
    }
}

// The set of a label, by the entries in the order of the labels; the empty one where there is none.
fn set_at(entries: &[SetEntry], label: u8) -> LabelSet
    ensures { result ≡ set_for entries.now label }
{
    match entries.get(usize::from(label)) {
        Some(entry) => entry.set,
        None => LabelSet::empty(),
    }
}

// The sets of the labels that the neighbours give to the edges, by port.
fn sets_over(
    entries: &[SetEntry],
    answers: &[PortLabels],
    sights: &ArrayVec<Sight, 6>,
) -> ArrayVec<LabelSet, 6>
    ensures sets { result.items ≡ map (set_over entries.now answers.now) sights.now.items }
{
    let _few = sights.len();
    let mut sets = ArrayVec::new();
    for sight in sights.as_slice() {
        sets.push(set_at(entries, label_over(answers, *sight)));
    }
    sets
}

// The first choice from the sets of the labels that the neighbours give to the edges, port 1 slowest, that is a configuration.
fn chosen(
    constraint: &Constraint,
    entries: &[SetEntry],
    answers: &[PortLabels],
    sights: &ArrayVec<Sight, 6>,
) -> Option<PortLabels>
    ensures { result ≡ choice_over constraint.now entries.now answers.now sights.now }
{
    let sets = sets_over(entries, answers, sights);
    first_choice(constraint, sets.as_slice())
}

/// What nodes output that see this, each of which has a choice. The answers are the labels of the neighbours' views.
pub(crate) fn all_chosen(
    alloc: Global,
    constraint: &Constraint,
    entries: &[SetEntry],
    answers: &[PortLabels],
    all: &[ArrayVec<Sight, 6>],
) -> Result<Vec<PortLabels>, NoMemory>
    requires { AllByRecursion (HasChoice constraint.now entries.now answers.now) all.now }
    ensures { IfOk result (λ found. found.items ≡ map (labels_over constraint.now entries.now answers.now) all.now) }
{
    let mut found = Vec::new(alloc);
    for sights in all {
        match chosen(constraint, entries, answers, sights) {
            Some(labels) => found.push(labels)?,
            None => unreachable!(),
        }
    }
    Ok(found)
}

/// The labels of each of these views where no round is left: the first configuration that shows that the problem is Zero.
pub(crate) fn all_zero(
    alloc: Global,
    problem: &Problem,
    views: &[NodeId],
) -> Result<Vec<PortLabels>, NoMemory>
    requires { Zero (unnamed problem.now) }
    ensures { IfOk result (λ answers. answers.items ≡ map (λ id. first_fit (unnamed problem.now)) views.now) }
{
    let mut answers = Vec::new(alloc);
    for _view in views {
        answers.push(zero_labels(problem))?;
    }
    Ok(answers)
}
