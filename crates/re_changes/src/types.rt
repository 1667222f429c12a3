//! What the calls of this crate answer.
use re_labels::LabelSet;
use re_problem::{LabelMap, Problem};
use std::marker::Model;

/// A strength diagram: the classes of equally strong labels in the order of their least labels, and the edges from a class
/// to each stronger one with none strictly between, as ascending pairs of places of classes, the weaker first. Contracts see the
/// two lists as a record.
#[derive(Drop)]
pub struct Diagram {
    /// The classes.
    pub classes: Vec<LabelSet>,
    /// The edges, by the places of the classes from 0.
    pub edges: Vec<(u8, u8)>,
}

impl Model for Diagram {
    ghost use Rattle.re_changes.specs.Diagrams.{Diagram as Drawing};

    ghost Value = { Drawing };

    ghost view = { λ d. record { classes = d.classes.items; edges = d.edges.items } };
}

/// A problem whose equal labels are merged, and where each label went. Contracts see the two as a record.
#[derive(Drop)]
pub struct Merged {
    /// The problem of the labels that stayed.
    pub problem: Problem,
    /// For each old label the new number of the label that it was merged into.
    pub map: LabelMap,
}

impl Model for Merged {
    ghost use Rattle.re_changes.specs.Merging.{Merging};

    ghost Value = { Merging };

    ghost view = { λ m. record { problem = m.problem; map = m.map } };
}
