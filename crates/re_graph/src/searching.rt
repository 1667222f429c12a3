//! The search over gadgets.
use crate::MAX_NODES;
use crate::gadgets::{Allowed, Gadget, Made, allows_less, has_others, node_of};
use crate::joining::{Numbered, node_ends, push_at_node, push_series};
use crate::multisets::{Multiset, multiset_of};
use re_labels::{Constraint, LabelSet, MAX_LABELS, NoMemory, Side};
use re_problem::Problem;
use std::alloc::Global;

/// How many gadgets are kept and joined to others.
pub const MAX_KEPT: usize = 600;

/// How many gadgets are made that may be kept.
pub const MAX_MADE: usize = 20_000;

/// How many steps `cover` makes in all: a step is a label or a multiset that is looked at, or a kept gadget that a new one is compared with.
pub const MAX_STEPS: usize = 50_000_000;

/// Gadgets under way.
#[derive(Drop)]
pub(crate) struct Search {
    pub alloc: Global,
    /// How many labels the problem and the input problem have.
    pub labels: u8,
    /// Which of them are the problem's, and whether there is an input problem.
    pub own: LabelSet,
    pub is_given: bool,
    /// All gadgets that were made and not left out.
    pub gadgets: Vec<Gadget>,
    /// Those that are kept.
    pub kept: Vec<usize>,
    /// The graphs of two tails that can have no label where they meet, and how many active nodes they have.
    pub graphs: Vec<(u8, Made)>,
    steps: usize,
    most: usize,
}

// The first labels, so many.
fn first_labels(count: u8) -> LabelSet {
    let mut set = LabelSet::empty();
    for label in 0..count.min(MAX_LABELS) {
        set = set.insert(label);
    }
    set
}

// Appends the multisets of a constraint whose labels count from this one on.
fn push_multisets(
    multisets: &mut Vec<Multiset>,
    constraint: &Constraint,
    from: u8,
) -> Result<(), NoMemory> {
    for config in constraint.configs() {
        multisets.push(multiset_of(config, from))?;
    }
    Ok(())
}

// How many labels a problem has, and none where there is no problem.
fn labels_in(problem: Option<&Problem>) -> u8 {
    match problem {
        Some(problem) => problem.names().len().min(128) as u8,
        None => 0,
    }
}

// The constraint of the side.
fn side_of(problem: &Problem, side: Side) -> &Constraint {
    match side {
        Side::Active => problem.active(),
        Side::Passive => problem.passive(),
    }
}

impl Search {
    // Makes the node of this side with all its ends free.
    fn put_node(
        &mut self,
        problem: &Problem,
        input: Option<&Problem>,
        side: Side,
    ) -> Result<(), NoMemory> {
        let mut multisets = Vec::new(self.alloc);
        let constraint = side_of(problem, side);
        push_multisets(&mut multisets, constraint, 0)?;
        if let Some(input) = input {
            let from = labels_in(Some(problem));
            push_multisets(&mut multisets, side_of(input, side), from)?;
        }
        multisets.sort_unstable();
        let degree = constraint.degree();
        let allowed = node_of(self.alloc, self.labels, side, degree, multisets)?;
        let nodes = match side {
            Side::Active => 1,
            Side::Passive => 0,
        };
        Ok(
            self.gadgets.push(Gadget {
                allowed,
                nodes,
                made: Made::Node(side),
            })?,
        )
    }

    /// The search of at most so many steps that begins with the two nodes of the problem. Labels of the input problem count on from the problem's, so
    /// that in a connected graph all labels are of one of them. Where both have more than `MAX_LABELS` labels, no step is made.
    pub fn new(
        alloc: Global,
        problem: &Problem,
        input: Option<&Problem>,
        most: usize,
    ) -> Result<Search, NoMemory> {
        let own = labels_in(Some(problem));
        let labels = own.saturating_add(labels_in(input));
        let mut search = Search {
            alloc,
            labels: labels.min(MAX_LABELS),
            own: first_labels(own),
            is_given: input.is_some(),
            gadgets: Vec::new(alloc),
            kept: Vec::new(alloc),
            graphs: Vec::new(alloc),
            steps: 0,
            most: if labels > MAX_LABELS { 0 } else { most },
        };
        search.put_node(problem, input, Side::Active)?;
        search.put_node(problem, input, Side::Passive)?;
        Ok(search)
    }

    /// Counts so many steps.
    pub fn count(&mut self, steps: usize) {
        self.steps = self.steps.saturating_add(steps);
    }

    /// Whether no step more is to be made.
    pub fn is_spent(&self) -> bool {
        self.steps >= self.most || self.kept.len() >= MAX_KEPT
    }

    /// The gadget of this number.
    pub fn numbered(&self, place: usize) -> Option<Numbered<'_>> {
        let gadget = self.gadgets.as_slice().get(place)?;
        Some(Numbered { place, gadget })
    }

    /// Whether a kept gadget is no worse.
    pub fn is_needless(&self, allowed: &Allowed) -> bool {
        for place in self.kept.as_slice() {
            if let Some(gadget) = self.gadgets.as_slice().get(*place) {
                if allows_less(self.own, &gadget.allowed, allowed) {
                    return true;
                }
            }
        }
        false
    }

    // Whether there is room for the gadget, it allows labels of the input problem, if there is one, and no kept one is better.
    fn has_use(&self, gadget: &Gadget) -> bool {
        self.gadgets.len() < MAX_MADE
            && gadget.nodes <= MAX_NODES
            && (!self.is_given || has_others(self.own, &gadget.allowed))
            && !self.is_needless(&gadget.allowed)
    }

    /// Takes in these gadgets, but for those that are needless or too large.
    pub fn take_in(&mut self, made: Vec<Gadget>) -> Result<(), NoMemory> {
        let labels = usize::from(self.labels);
        for gadget in made {
            let kept = self.kept.len();
            self.count(kept.saturating_add(labels.saturating_mul(labels)));
            if self.has_use(&gadget) {
                self.gadgets.push(gadget)?;
            }
        }
        Ok(())
    }

    // What two gadgets make in series, or at a node.
    fn pair(&self, first: usize, second: usize) -> Result<Vec<Gadget>, NoMemory> {
        let mut made = Vec::new(self.alloc);
        let (Some(one), Some(other)) = (self.numbered(first), self.numbered(second)) else {
            return Ok(made);
        };
        if let Some(node) = node_ends(one) {
            push_at_node(self.alloc, &mut made, self.labels, node, other)?;
            return Ok(made);
        }
        if let Some(node) = node_ends(other) {
            push_at_node(self.alloc, &mut made, self.labels, node, one)?;
            return Ok(made);
        }
        match &one.gadget.allowed {
            Allowed::Tail(_, _) => push_series(self.alloc, &mut made, other, one)?,
            _ => push_series(self.alloc, &mut made, one, other)?,
        }
        Ok(made)
    }

    /// How many multisets a node has, and one where the gadget is none.
    pub fn breadth(&self, place: usize) -> usize {
        match self.numbered(place).and_then(node_ends) {
            Some(node) => node.multisets.len(),
            None => 1,
        }
    }

    /// Joins the gadget to each kept one, in series or at a node.
    pub fn pair_all(&mut self, place: usize) -> Result<(), NoMemory> {
        let labels = usize::from(self.labels);
        let cost = labels.saturating_mul(labels).saturating_mul(4);
        let breadth = self.breadth(place).saturating_mul(36);
        for number in 0..self.kept.len() {
            if self.is_spent() {
                break;
            }
            let Some(other) = self.kept.as_slice().get(number).copied() else {
                break;
            };
            let more = self.breadth(other).saturating_mul(36);
            self.count(cost.saturating_add(breadth).saturating_add(more));
            let made = self.pair(place, other)?;
            self.take_in(made)?;
        }
        Ok(())
    }
}
