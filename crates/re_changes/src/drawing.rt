//! The strength diagram of a constraint.
ghost use Rattle.re_changes.specs.Classes.{class_of, strong_by};
ghost use Rattle.re_changes.specs.Diagrams.{diagram_of, edges_from};
ghost use Rattle.re_labels.specs.Lists.{count_from};
ghost use Rattle.re_labels.specs.Strength.{up_set};
ghost use Rattle.std.specs.List.{AllByRecursion};
ghost use Rattle.std.specs.Prelude.{◌≡◌, ◌≤◌, ◌<◌, ◌++◌, IfOk, OnOk, flat_map, length, map};

use crate::classes::{class_of, is_next, least_labels};
use crate::types::Diagram;
use arrayvec::ArrayVec;
use re_labels::{Constraint, LabelSet, MAX_LABELS, NoMemory};
use std::alloc::Global;

// For each label below this number the set of those that are at least as strong.
fn up_sets(constraint: &Constraint, labels: u8) -> ArrayVec<LabelSet, 128>
    requires { labels ≤ MAX_LABELS }
    ensures { result.items ≡ map (λ label. up_set constraint.now label labels) (count_from 0 labels) }
{
    re_boxes::up_sets(constraint, labels)
}

// The classes of these labels.
fn classes_of(alloc: Global, ups: &[LabelSet], least: &[u8]) -> Result<Vec<LabelSet>, NoMemory>
    requires few { length ups.now ≤ MAX_LABELS }
    requires least { AllByRecursion (λ label. label < length ups.now) least.now }
    ensures { IfOk result (λ classes. classes.items ≡ map (class_of (strong_by ups.now) (length ups.now)) least.now) }
{
    let mut classes = Vec::new(alloc);
    for label in least {
        classes.push(class_of(ups, *label))?;
    }
    Ok(classes)
}

// Appends the edges from the class at this place.
fn push_edges(
    edges: &mut Vec<(u8, u8)>,
    ups: &[LabelSet],
    least: &[u8],
    from: u8,
) -> Result<(), NoMemory>
    requires few { length ups.now ≤ MAX_LABELS }
    requires least { AllByRecursion (λ label. label < length ups.now) least.now }
    requires most { length least.now ≤ MAX_LABELS }
    requires from { from < length least.now }
    ensures { OnOk result (edges.new.items ≡ edges.old.items ++ edges_from (strong_by ups.now) (length ups.now) least.now from) }
{
    let weak = least[from as usize];
    for (to, strong) in least.iter().enumerate() {
        if is_next(ups, weak, *strong) {
            edges.push((from, to as u8))?;
        }
    }
    Ok(())
}

// The edges between the classes with these least labels.
fn edges_of(alloc: Global, ups: &[LabelSet], least: &[u8]) -> Result<Vec<(u8, u8)>, NoMemory>
    requires few { length ups.now ≤ MAX_LABELS }
    requires least { AllByRecursion (λ label. label < length ups.now) least.now }
    requires most { length least.now ≤ MAX_LABELS }
    ensures { IfOk result (λ edges. edges.items ≡ flat_map (edges_from (strong_by ups.now) (length ups.now) least.now) (count_from 0 (length least.now))) }
{
    let mut edges = Vec::new(alloc);
    for from in 0..least.len() as u8 {
        push_edges(&mut edges, ups, least, from)?;
    }
    Ok(edges)
}

/// The strength diagram of a constraint for the labels below this number: which are equally strong, and which are
/// stronger, as Olivetti's Round Eliminator draws it. A label that no configuration holds is as weak as may be. It finds
/// the up-set of each label once; what follows costs about the cube of the number of labels.
pub fn diagram(alloc: Global, constraint: &Constraint, labels: u8) -> Result<Diagram, NoMemory>
    requires { labels ≤ MAX_LABELS }
    ensures { IfOk result (λ diagram. diagram ≡ diagram_of constraint.now labels) }
{
    let ups = up_sets(constraint, labels);
    let least = least_labels(ups.as_slice());
    let classes = classes_of(alloc, ups.as_slice(), least.as_slice())?;
    let edges = edges_of(alloc, ups.as_slice(), least.as_slice())?;
    Ok(Diagram { classes, edges })
}
