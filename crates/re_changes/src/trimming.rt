//! Problems without the labels that others cover.
ghost use Rattle.re_changes.specs.Renumbering.{number_among};
ghost use Rattle.re_changes.specs.Trimming.{IsKnown, all_but, first_covered, named_without, trimmed, trimmed_of};
ghost use Rattle.re_labels.specs.Lists.{count_from};
ghost use Rattle.re_labels.specs.Sets.{IsIn, meet};
ghost use Rattle.re_laws.specs.Algorithms.{Solvable};
ghost use Rattle.re_problem.specs.NamedProblems.{unnamed};
ghost use Rattle.re_labels.specs.Strength.{up_set};
ghost use Rattle.std.specs.Prelude.{◌≡◌, ◌≤◌, ◌<◌, ◌↔◌, ℕ, [], IfOk, IfSome, IsTrue, Some, length, map, slice_index_or};

use crate::merging::cover_sets;
use crate::renumbering::{number_among, renumbered_without};
use arrayvec::ArrayVec;
use re_labels::{LabelSet, MAX_LABELS, NoMemory};
use re_problem::Problem;
use std::alloc::Global;

// For each label the set of those that cover it, as it was before so many labels, each of them the first one, were left out.
#[derive(Drop)]
struct Known {
    covers: ArrayVec<LabelSet, 128>,
    passed: u8,
}

// Whether a later label covers this one, by the sets of those that cover each.
fn has_later(covers: &[LabelSet], label: u8) -> bool
    requires { length covers.now ≤ MAX_LABELS }
    ensures { IsTrue result → (label < length covers.now) × (later : ℕ) × (label < later) × IsIn later (slice_index_or covers.now label []) }
{
    if label as usize >= covers.len() {
        return false;
    }
    match covers[label as usize].after(label) {
        None => false,
        Some(_) => true,
    }
}

// The least label that another one covers, by the sets of those that cover each.
fn first_covered(problem: &Problem, covers: &[LabelSet]) -> Option<u8>
    requires { covers.now ≡ map (λ a. meet (up_set problem.now.active a (length problem.now.names)) (up_set problem.now.passive a (length problem.now.names))) (count_from 0 (length problem.now.names)) }
    ensures { result ≡ first_covered (unnamed problem.now) }
{
    for label in 0..problem.names().len() as u8 {
        if !covers[label as usize].remove(label).is_empty() {
            return Some(label);
        }
    }
    None
}

// The least label that another one covers. What covers what is found again where the first label isn't known to be covered.
fn next_covered(problem: &Problem, known: &mut Known) -> Option<u8>
    requires { IsKnown known.old.passed known.old.covers.items problem.now }
    ensures first { result ≡ first_covered (unnamed problem.now) }
    ensures known { IfSome result (λ label. IsKnown known.new.passed known.new.covers.items (named_without label problem.now)) }
{
    let _names = problem.names();
    if has_later(known.covers.as_slice(), known.passed) {
        known.passed += 1;
        return Some(0);
    }
    known.covers = cover_sets(problem);
    let label = first_covered(problem, known.covers.as_slice())?;
    known.passed = if label == 0 {
        1
    } else {
        known.covers.len() as u8
    };
    Some(label)
}

// All labels below this number but the one.
fn all_but(label: u8, labels: u8) -> ArrayVec<u8, 128>
    requires { labels ≤ MAX_LABELS }
    ensures { result.items ≡ all_but label labels }
{
    let mut others = ArrayVec::new();
    for other in 0..labels {
        if other != label {
            others.push(other);
        }
    }
    others
}

// For each label below this number its new number among those that stay.
fn numbers_among(stay: &[u8], labels: u8) -> ArrayVec<u8, 128>
    requires stay { length stay.now ≤ MAX_LABELS }
    requires labels { labels ≤ MAX_LABELS }
    ensures { result.items ≡ map (number_among stay.now) (count_from 0 labels) }
{
    let mut images = ArrayVec::new();
    for label in 0..labels {
        images.push(number_among(stay, label));
    }
    images
}

// The problem without this label, the least that another one covers.
fn without(alloc: Global, problem: &Problem, label: u8) -> Result<Problem, NoMemory>
    requires { first_covered (unnamed problem.now) ≡ Some label }
    ensures { IfOk result (λ rest. rest ≡ named_without label problem.now) }
{
    let labels = problem.names().len() as u8;
    let stay = all_but(label, labels);
    let images = numbers_among(stay.as_slice(), labels);
    renumbered_without(alloc, problem, label, stay.as_slice(), images.as_slice())
}

// The problem after so many steps, each of which leaves out the least covered label, as long as there is one.
fn trimmed(alloc: Global, problem: &Problem, steps: usize) -> Result<Problem, NoMemory>
    requires { length problem.now.names ≤ steps }
    ensures { IfOk result (λ rest. rest ≡ trimmed steps problem.now) }
{
    let mut known = Known {
        covers: ArrayVec::new(),
        passed: 0,
    };
    let Some(first) = next_covered(problem, &mut known) else {
        return problem.copy();
    };
    let mut rest = without(alloc, problem, first)?;
    for _done in 1..steps {
        let Some(label) = next_covered(&rest, &mut known) else {
            return Ok(rest);
        };
        rest = without(alloc, &rest, label)?;
    }
    Ok(rest)
}

/// The problem without labels that others cover: as long as some label is covered by another one, the least such label is
/// left out with all configurations that hold it, and the others are numbered anew. It is solvable in as many rounds as
/// before. With n labels it makes at most n - 1 problems one after another, and walks over the rests of both constraints once for
/// each of them, but for those in which the first label is covered by one that covered it before.
pub fn trim(alloc: Global, problem: &Problem) -> Result<Problem, NoMemory>
    ensures problem { IfOk result (λ trimmed. trimmed ≡ trimmed_of problem.now) }
    ensures rounds { IfOk result (λ trimmed. (T : ℕ) → Solvable (unnamed trimmed) T ↔ Solvable (unnamed problem.now) T) }
{
    trimmed(alloc, problem, problem.names().len())
}
