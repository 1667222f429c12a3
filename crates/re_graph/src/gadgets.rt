//! Gadgets: parts of graphs with free ends, each an edge that leads out of the part.
use crate::multisets::{Multiset, is_part, set_of, split_at_own};
use crate::relations::{relation_of, transposed};
use re_labels::{LabelSet, NoMemory, Side};
use std::alloc::Global;

/// Which labels the free ends of a gadget can have where what is in it is labelled as the problem allows. An end has the side of its node in the gadget.
#[derive(Drop)]
pub(crate) enum Allowed {
    /// The ends are those of one node of this side, so many, and three or more: these multisets.
    Node(Side, u8, Vec<Multiset>),
    /// There are two ends, a left one and a right one, with these sides: the labels of the right one for each label of the left one, and of the left
    /// one for each of the right one.
    Strand(Side, Side, Vec<LabelSet>, Vec<LabelSet>),
    /// There is one end of this side, with these labels.
    Tail(Side, LabelSet),
}

/// A strand by its number, and whether its right end counts as the left one.
#[derive(Clone, Copy)]
pub(crate) struct Turn {
    pub place: usize,
    pub reversed: bool,
}

/// How a gadget, or a graph without free ends, is made of others, which have these numbers.
#[derive(Clone, Copy)]
pub(crate) enum Made {
    /// One node of this side.
    Node(Side),
    /// A node, of which one end leads to a tail.
    Filled(usize, usize),
    /// A node, of which a strand joins two ends.
    Looped(usize, usize),
    /// Two strands, the right end of the first joined to the left one of the second.
    Chained(Turn, Turn),
    /// A strand, whose right end leads to a tail.
    Ended(Turn, usize),
    /// Two nodes of three ends, of which two strands join two of each.
    Joined(usize, usize, Turn, Turn),
    /// A graph: a strand whose ends are joined.
    Ring(usize),
    /// A graph: two tails that are joined.
    Met(usize, usize),
}

/// A gadget.
#[derive(Drop)]
pub(crate) struct Gadget {
    /// The labels of its free ends.
    pub allowed: Allowed,
    /// How many active nodes it has.
    pub nodes: u8,
    /// How it is made.
    pub made: Made,
}

/// A strand seen from one of its ends, which is its left one then.
#[derive(Clone, Copy)]
pub(crate) struct View<'a> {
    pub turn: Turn,
    pub left: Side,
    pub right: Side,
    pub rows: &'a [LabelSet],
    pub columns: &'a [LabelSet],
}

/// The strand of this number from its left end on, and from its right one; nothing where the gadget is no strand.
pub(crate) fn views(place: usize, gadget: &Gadget) -> Option<(View<'_>, View<'_>)> {
    let Allowed::Strand(left, right, rows, columns) = &gadget.allowed else {
        return None;
    };
    let straight = View {
        turn: Turn {
            place,
            reversed: false,
        },
        left: *left,
        right: *right,
        rows: rows.as_slice(),
        columns: columns.as_slice(),
    };
    let reversed = View {
        turn: Turn {
            place,
            reversed: true,
        },
        left: *right,
        right: *left,
        rows: columns.as_slice(),
        columns: rows.as_slice(),
    };
    Some((straight, reversed))
}

/// The strand the other way round.
pub(crate) fn other_way(turn: Turn) -> Turn {
    Turn {
        place: turn.place,
        reversed: !turn.reversed,
    }
}

/// What a strand with this relation allows.
pub(crate) fn strand_of(
    alloc: Global,
    left: Side,
    right: Side,
    rows: Vec<LabelSet>,
) -> Result<Allowed, NoMemory> {
    let columns = transposed(alloc, rows.as_slice())?;
    Ok(Allowed::Strand(left, right, rows, columns))
}

/// What a node of this side with so many free ends allows.
pub(crate) fn node_of(
    alloc: Global,
    labels: u8,
    side: Side,
    ends: u8,
    multisets: Vec<Multiset>,
) -> Result<Allowed, NoMemory> {
    match ends {
        1 => Ok(Allowed::Tail(side, set_of(multisets.as_slice()))),
        2 => {
            let rows = relation_of(alloc, labels, multisets.as_slice())?;
            strand_of(alloc, side, side, rows)
        }
        _ => Ok(Allowed::Node(side, ends, multisets)),
    }
}

// Whether the first set has no more of a problem's own labels, and no fewer of the others.
fn has_less(own: LabelSet, few: LabelSet, many: LabelSet) -> bool {
    few.meet(own).within(many) && many.within(few.union(own))
}

// The same of the labels to which each label is related.
fn relates_less(own: LabelSet, rows: &[LabelSet], others: &[LabelSet]) -> bool {
    for (row, other) in rows.iter().zip(others) {
        if !has_less(own, *row, *other) {
            return false;
        }
    }
    true
}

// The same of multisets.
fn has_fewer(own: LabelSet, few: &[Multiset], many: &[Multiset]) -> bool {
    let (first, others) = split_at_own(few, own);
    let (second, rest) = split_at_own(many, own);
    is_part(first, second) && is_part(rest, others)
}

// The same of strands with these relations, from one of their ends on.
fn leads_less(
    own: LabelSet,
    sides: (Side, Side),
    ends: (Side, Side),
    rows: &[LabelSet],
    columns: &[LabelSet],
    others: &[LabelSet],
) -> bool {
    if sides != ends {
        return false;
    }
    relates_less(own, rows, others) || (sides.0 == sides.1 && relates_less(own, columns, others))
}

/// Whether the first gadget, with ends on the same sides, allows no more of a problem's own labels than the second one, and no fewer of the others, which
/// are those of the input problem: so it can stand in its place in a graph on which only the input problem has a solution.
pub(crate) fn allows_less(own: LabelSet, few: &Allowed, many: &Allowed) -> bool {
    match (few, many) {
        (Allowed::Node(side, ends, first), Allowed::Node(other, count, second)) => {
            *side == *other
                && *ends == *count
                && has_fewer(own, first.as_slice(), second.as_slice())
        }
        (Allowed::Strand(left, right, rows, columns), Allowed::Strand(first, second, others, _)) =>
            {
                leads_less(
                    own,
                    (*left, *right),
                    (*first, *second),
                    rows.as_slice(),
                    columns.as_slice(),
                    others.as_slice(),
                )
            }
        (Allowed::Tail(side, set), Allowed::Tail(other, all)) => {
            *side == *other && has_less(own, *set, *all)
        }
        _ => false,
    }
}

// Whether each row has such labels alone.
fn are_within(rows: &[LabelSet], own: LabelSet) -> bool {
    for row in rows {
        if !row.within(own) {
            return false;
        }
    }
    true
}

/// Whether the gadget allows other labels than these.
pub(crate) fn has_others(own: LabelSet, allowed: &Allowed) -> bool {
    match allowed {
        Allowed::Node(_, _, multisets) => {
            let (_, others) = split_at_own(multisets.as_slice(), own);
            !others.is_empty()
        }
        Allowed::Strand(_, _, rows, _) => !are_within(rows.as_slice(), own),
        Allowed::Tail(_, set) => !set.within(own),
    }
}
