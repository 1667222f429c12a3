//! The lines of the closure of a problem, and the sets for which its labels stand.
ghost use Rattle.re_labels.specs.Rows.{placed};
ghost use Rattle.re_labels.specs.declared.TheConstants.{MAX_ROWS};
ghost use Rattle.re_labels.specs.Lists.{IsRising};
ghost use Rattle.re_labels.specs.Sets.{number};
ghost use Rattle.re_labels.specs.declared.TheConstants.{MAX_LABELS};
ghost use Rattle.re_closure_laws.specs.Closures.{AreClosure};
ghost use Rattle.re_closure_laws.specs.Lines.{others};
ghost use Rattle.re_problem.specs.NamedProblems.{unnamed};
ghost use Rattle.re_closure.specs.ProblemFamilies.{HasManySide, HasManySideCombinations, IsNeeded, active_family, passive_family};
ghost use Rattle.std.specs.List.Sorted.{IsNonDecreasingBy, IsPermutation};
ghost use Rattle.std.specs.Prelude.{◌≡◌, ◌<◌, ◌≤◌, ◌↔◌, ◌++◌, Contains, Err, IfOk, List, flat_map, length, map, ℕ};

use crate::dominating::is_again;
use crate::line::SetLine;
use crate::topmost::{LinesFault, topmost_lines};
use arrayvec::ArrayVec;
use re_algo::set_at;
use re_labels::{Config, Constraint, LabelSet, NoMemory};
use re_problem::Problem;
use std::alloc::Global;

/// The lines of the closure of a problem that no other dominates, and the sets for which its labels stand.
#[derive(Drop)]
pub struct Families {
    /// Those of the passive side: they come from the labels at least as strong as those of each passive configuration.
    pub passive: Vec<SetLine>,
    /// Those of the active side: they come from what these sets leave out, for each active configuration.
    pub active: Vec<SetLine>,
    /// For each label the set for which it stands on the passive side, in the order of the numbers of the sets; on the active side it
    /// stands for all other labels.
    pub sets: Vec<LabelSet>,
}

/// The labels below a number that aren't in the set.
pub fn others_of(labels: u8, set: LabelSet) -> LabelSet
    requires { labels ≤ MAX_LABELS }
    ensures { result ≡ others labels set }
{
    let mut left = LabelSet::empty();
    for label in 0..labels {
        if !set.has(label) {
            left = left.insert(label);
        }
    }
    left
}

/// What each of the sets leaves of the labels.
pub(crate) fn all_others(
    alloc: Global,
    labels: u8,
    sets: &[LabelSet],
) -> Result<Vec<LabelSet>, NoMemory>
    requires { labels ≤ MAX_LABELS }
    ensures { IfOk result (λ left. left.items ≡ map (others labels) sets.now) }
{
    let mut left = Vec::new(alloc);
    for set in sets {
        left.push(others_of(labels, *set))?;
    }
    Ok(left)
}

// The line of the sets at the labels of a configuration.
fn line_at(sets: &[LabelSet], config: &Config) -> SetLine
    ensures { result ≡ placed sets.now config.now }
{
    let mut held = ArrayVec::<LabelSet, 6>::new();
    for label in config.labels() {
        held.push(set_at(sets, *label as usize));
    }
    SetLine::from_sets(held.as_slice())
}

// The lines of the sets at the labels of the configurations.
fn lines_at(
    alloc: Global,
    sets: &[LabelSet],
    constraint: &Constraint,
) -> Result<Vec<SetLine>, NoMemory>
    ensures { IfOk result (λ lines. lines.items ≡ map (placed sets.now) constraint.now.configs) }
{
    let mut lines = Vec::new(alloc);
    for config in constraint.configs() {
        lines.push(line_at(sets, config))?;
    }
    Ok(lines)
}

// The sets of the lines, one line after another.
fn all_sets(alloc: Global, lines: &[SetLine]) -> Result<Vec<LabelSet>, NoMemory>
    ensures { IfOk result (λ sets. sets.items ≡ flat_map (λ line. line) lines.now) }
{
    let mut sets = Vec::new(alloc);
    for line in lines {
        sets.extend_from_slice(line.sets())?;
    }
    Ok(sets)
}

// The sets in the order of their numbers.
fn in_order(sets: Vec<LabelSet>) -> Vec<LabelSet>
    ensures same { IsPermutation sets.items result.items }
    ensures order { IsNonDecreasingBy number result.items }
{
    let mut all = sets;
    all.sort_unstable();
    all
}

// Each of the sets once, where they are in the order of their numbers.
fn without_repeats(alloc: Global, sets: &[LabelSet]) -> Result<Vec<LabelSet>, NoMemory>
    requires { IsNonDecreasingBy number sets.now }
    ensures rises { IfOk result (λ once. IsRising (λ s t. number s < number t) once.items) }
    ensures same { IfOk result (λ once. (set : List ℕ) → Contains once.items set ↔ Contains sets.now set) }
{
    let mut once = Vec::new(alloc);
    for place in 0..sets.len() {
        if !is_again(sets, place) {
            once.push(sets[place])?;
        }
    }
    Ok(once)
}

// The sets of the passive lines, and what those of the active ones leave of the labels: each once, in the order of their numbers.
fn needed_sets(
    alloc: Global,
    labels: u8,
    passive: &[SetLine],
    active: &[SetLine],
) -> Result<Vec<LabelSet>, NoMemory>
    requires { labels ≤ MAX_LABELS }
    ensures rises { IfOk result (λ sets. IsRising (λ s t. number s < number t) sets.items) }
    ensures needed { IfOk result (λ sets. (set : List ℕ) → Contains sets.items set ↔ IsNeeded labels passive.now active.now set) }
{
    let mut sets = all_sets(alloc, passive)?;
    let held = all_sets(alloc, active)?;
    let left = all_others(alloc, labels, held.as_slice())?;
    sets.extend_from_slice(left.as_slice())?;
    let all = in_order(sets);
    without_repeats(alloc, all.as_slice())
}

/// The closure of the problem: the topmost lines of both sides, and the sets for which its labels stand. `TooManyLines` and
/// `TooManyCombinations` come where `topmost_lines` answers them for one of the sides, the passive one first; the labels may be more than
/// a problem may have. Each side has at most `re_labels::MAX_ROWS` lines.
///
/// It costs what `re_boxes::up_sets` and `topmost_lines` cost.
pub fn closure_families(alloc: Global, problem: &Problem) -> Result<Families, LinesFault>
    ensures closure { IfOk result (λ families. AreClosure (unnamed problem.now) (active_family problem.now families) (passive_family problem.now families)) }
    ensures few_passive { IfOk result (λ families. length families.passive.items ≤ MAX_ROWS) }
    ensures few_active { IfOk result (λ families. length families.active.items ≤ MAX_ROWS) }
    ensures many { result ≡ Err LinesFault.TooManyLines → HasManySide (unnamed problem.now) }
    ensures full { result ≡ Err LinesFault.TooManyCombinations → HasManySideCombinations (unnamed problem.now) }
{
    let labels = problem.names().len() as u8;
    let ups = re_boxes::up_sets(problem.passive(), labels);
    let left = all_others(alloc, labels, ups.as_slice())?;
    let starts = lines_at(alloc, ups.as_slice(), problem.passive())?;
    let passive = topmost_lines(alloc, starts)?;
    let starts = lines_at(alloc, left.as_slice(), problem.active())?;
    let active = topmost_lines(alloc, starts)?;
    let sets = needed_sets(alloc, labels, passive.as_slice(), active.as_slice())?;
    Ok(Families {
        passive,
        active,
        sets,
    })
}
