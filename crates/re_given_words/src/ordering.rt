//! The sets of rows in each order.
ghost use Rattle.re_given_words.specs.Searching.{all_orders, orders_of};
ghost use Rattle.re_labels.specs.Rows.{placed};
ghost use Rattle.std.specs.Prelude.{◌≡◌, ◌++◌, ◌≤◌, IfOk, length};

use crate::one::sets_at;
use crate::stopping::{TryFault, spend};
use arrayvec::ArrayVec;
use re_labels::{LabelSet, Placement, Placements, Row};
use std::alloc::Global;
use std::marker::Model;

/// A set for each of some ports, in their order, six at most. Contracts see the list of them.
#[derive(Drop)]
pub(crate) struct PortSets {
    held: ArrayVec<LabelSet, 6>,
}

impl Model for PortSets {
    ghost use Rattle.std.specs.Prelude.{List, ℕ, ◌≤◌, length};

    ghost Value = { List (List ℕ) };

    ghost view = { λ s. s.held.items };

    ghost invariant = { λ s. length s.held.items ≤ 6 };
}

impl PortSets {
    /// These sets.
    pub(crate) fn new(sets: &[LabelSet]) -> PortSets
        requires { length sets.now ≤ 6 }
        ensures { result ≡ sets.now }
    {
        let mut held = ArrayVec::new();
        for set in sets {
            held.push(*set);
        }
        PortSets { held }
    }

    /// The sets, in the order of the ports.
    pub(crate) fn sets(&self) -> &[LabelSet]
        ensures sets { result.now ≡ self.now }
        ensures six { length self.now ≤ 6 }
    {
        self.held.as_slice()
    }
}

// The sets of the row in this order.
fn ordered(row: &Row, order: &Placement) -> PortSets
    requires { length order.now ≤ 6 }
    ensures { result ≡ placed row.now order.now }
{
    PortSets::new(sets_at(row.sets(), order.places()).as_slice())
}

// Appends the sets of the row in each order.
fn push_orders(row: &Row, all: &mut Vec<PortSets>, room: &mut usize) -> Result<(), TryFault>
    ensures { IfOk result (λ _. all.new.items ≡ all.old.items ++ orders_of row.now) }
{
    let sets = row.sets();
    for order in Placements::new(sets.len()) {
        spend(room)?;
        all.push(ordered(row, &order))?;
    }
    Ok(())
}

/// The sets of each of the rows in each order, where there is room for them.
pub(crate) fn orders_of(
    alloc: Global,
    rows: &[Row],
    room: &mut usize,
) -> Result<Vec<PortSets>, TryFault>
    ensures { IfOk result (λ all. all.items ≡ all_orders rows.now) }
{
    let mut all = Vec::new(alloc);
    for row in rows {
        push_orders(row, &mut all, room)?;
    }
    Ok(all)
}
