//! Whether a problem is an input problem of another one.
ghost use Rattle.re_settings.specs.InputProblems.{IsJudged, input_fault, is_one_sided, side_fault};
ghost use Rattle.re_labels.specs.Lists.{count_from};
ghost use Rattle.re_labels.specs.Sets.{has};
ghost use Rattle.std.specs.List.{find};
ghost use Rattle.std.specs.Prelude.{◌≡◌, ◌<◌, ◌==◌, ◌&&◌, ◌||◌, None, length, not};

use re_labels::{LabelSet, MAX_LABELS};
use re_problem::Problem;

/// Why a problem is no input problem of another one.
#[derive(Clone, Copy, Debug, PartialEq, Eq)]
pub enum InputFault {
    /// It has other degrees.
    Degrees,
    /// This label of it stands in configurations of one side alone.
    OneSide(u8),
    /// It has no label.
    Empty,
}

// Whether the label stands in one of the two sets alone.
fn is_in_one(active: LabelSet, passive: LabelSet, label: u8) -> bool
    requires { label < MAX_LABELS }
    ensures { result ≡ (not (has active label && has passive label) && (has active label || has passive label)) }
{
    let in_active = active.has(label);
    let in_passive = passive.has(label);
    !(in_active && in_passive) && (in_active || in_passive)
}

// The first label that stands in configurations of one side alone.
fn one_sided(input: &Problem) -> Option<u8>
    ensures { result ≡ find (is_one_sided input.now) (count_from 0 (length input.now.names)) }
{
    let active = input.active().labels();
    let passive = input.passive().labels();
    for label in 0..input.names().len() as u8 {
        if is_in_one(active, passive, label) {
            return Some(label);
        }
    }
    None
}

// Whether both have the same degrees.
fn have_same_degrees(problem: &Problem, input: &Problem) -> bool
    ensures { result ≡ (input.now.active.degree == problem.now.active.degree && input.now.passive.degree == problem.now.passive.degree) }
{
    input.active().degree() == problem.active().degree()
        && input.passive().degree() == problem.passive().degree()
}

// That it has no label, where it has none.
fn no_label(input: &Problem) -> Option<InputFault>
    ensures { result ≡ side_fault input.now None }
{
    if input.names().is_empty() {
        Some(InputFault::Empty)
    } else {
        None
    }
}

// The first reason for which it is none.
fn fault_of(problem: &Problem, input: &Problem) -> Option<InputFault>
    ensures { result ≡ input_fault problem.now input.now }
{
    if !have_same_degrees(problem, input) {
        return Some(InputFault::Degrees);
    }
    match one_sided(input) {
        Some(label) => Some(InputFault::OneSide(label)),
        None => no_label(input),
    }
}

/// The first reason for which the second problem is no input problem of the first one: other degrees, its first label that stands in
/// configurations of one side alone, or that it has no label. None exactly where it is an input problem. It takes no memory, and passes each node of both trees of
/// the input problem once.
pub fn input_fault(problem: &Problem, input: &Problem) -> Option<InputFault>
    ensures fault { result ≡ input_fault problem.now input.now }
    ensures judged { IsJudged problem.now input.now result }
{
    let _names = input.names();
    fault_of(problem, input)
}
