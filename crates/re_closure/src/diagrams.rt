//! A diagram of labels, and the problem that it raises.
ghost use Rattle.re_closure.specs.DiagramTexts.{AreEdges};
ghost use Rattle.re_closure.specs.Diagrams.{all_below, raised, with_lower};
ghost use Rattle.re_closure.specs.declared.types.ClosureLimit.TheVariants.{Configurations};
ghost use Rattle.re_labels.specs.Rows.{set_at};
ghost use Rattle.re_labels.specs.Lists.{count_from};
ghost use Rattle.re_labels.specs.declared.TheConstants.{MAX_LABELS};
ghost use Rattle.re_labels.specs.declared.constraint_table.TheConstants.{MAX_CONFIGURATIONS};
ghost use Rattle.std.specs.Prelude.{◌≡◌, ◌<◌, ◌≤◌, ◌∷◌, [], Err, IfOk, length, map};

use crate::types::{ClosureFault, ClosureLimit};
use arrayvec::ArrayVec;
use re_labels::LabelSet;
use re_problem::Problem;
use re_step::{AllowedFault, allowed};
use std::alloc::Global;

// Each label alone.
fn singles(labels: u8) -> ArrayVec<LabelSet, 128>
    requires { labels ≤ MAX_LABELS }
    ensures { result.items ≡ map (λ label. label ∷ []) (count_from 0 labels) }
{
    let mut sets = ArrayVec::new();
    for label in 0..labels {
        sets.push(LabelSet::single(label));
    }
    sets
}

// The sets, and where they hold the upper end of an edge the set of its lower end, too.
fn with_edge(sets: &[LabelSet], low: u8, high: u8) -> ArrayVec<LabelSet, 128>
    requires few { length sets.now ≤ MAX_LABELS }
    requires low { low < length sets.now }
    requires high { high < MAX_LABELS }
    ensures { result.items ≡ map (with_lower (set_at sets.now low) high) sets.now }
{
    let lower = sets[low as usize];
    let mut wider = ArrayVec::new();
    for set in sets {
        if set.has(high) {
            wider.push(set.union(lower));
        } else {
            wider.push(*set);
        }
    }
    wider
}

// The labels that stand below each label in the least order that holds the edges, from the last edge to the first.
fn all_below(edges: &[(u8, u8)], labels: u8) -> ArrayVec<LabelSet, 128>
    requires few { labels ≤ MAX_LABELS }
    requires edges { AreEdges labels edges.now }
    ensures { result.items ≡ all_below edges.now labels }
{
    let mut below = singles(labels);
    let mut left = edges.len();
    'edges: while left > 0 {
        left -= 1;
        let (low, high) = edges[left];
        below = with_edge(below.as_slice(), low, high);
    }
    below
}

/// The problem in which around passive nodes each label may stand for each one below it, in the least order that holds the edges; or the
/// limit of its passive configurations. With n labels it costs n for each edge, and that of `re_step::allowed`.
pub(crate) fn raised(
    alloc: Global,
    problem: &Problem,
    edges: &[(u8, u8)],
) -> Result<Problem, ClosureFault>
    requires { AreEdges (length problem.now.names) edges.now }
    ensures raised { IfOk result (λ made. made ≡ raised edges.now problem.now) }
    ensures few { IfOk result (λ _. length (raised edges.now problem.now).passive.configs ≤ MAX_CONFIGURATIONS) }
    ensures limit { (passed : ClosureLimit) → result ≡ Err (ClosureFault.Limit passed) →
        (passed ≡ Configurations) × (MAX_CONFIGURATIONS < length (raised edges.now problem.now).passive.configs) }
{
    let below = all_below(edges, problem.names().len() as u8);
    let passive = match allowed(alloc, problem.passive(), below.as_slice()) {
        Ok(passive) => passive,
        Err(AllowedFault::TooManyConfigurations) => {
            return Err(ClosureFault::Limit(ClosureLimit::Configurations));
        }
        Err(AllowedFault::NoMemory) => return Err(ClosureFault::NoMemory),
    };
    let active = problem.active().copy()?;
    let names = problem.names().copy()?;
    match Problem::build(active, passive, names) {
        Some(raised) => Ok(raised),
        None => unreachable!(),
    }
}
