// All orders of up to six places, one after another.
ghost use Rattle.std.specs.Prelude.{◌≡◌, ◌≤◌, Contains, length};
ghost use Rattle.std.specs.Iterator.{YieldsFirst, item_count};
ghost use Rattle.re_labels.specs.Orders.{placements};

use crate::places::{factorial, order_at};
use arrayvec::ArrayVec;
use std::marker::Model;

/// An order of up to six places. Contracts see it as the list of the places, each below their number and there once.
#[derive(Drop)]
pub struct Placement {
    held: ArrayVec<u8, 6>,
}

impl Model for Placement {
    ghost use Rattle.re_labels.specs.Orders.{placements};
    ghost use Rattle.std.specs.Prelude.{List, ℕ, Contains, length};

    ghost Value = { List ℕ };

    ghost view = { λ p. p.held.items };

    ghost invariant = { λ p. Contains (placements (length p.held.items)) p.held.items };
}

impl Placement {
    /// The places in this order, counted from 0.
    pub fn places(&self) -> &[u8]
        ensures places { result.now ≡ self.now }
        ensures placement { Contains (placements (length self.now)) self.now }
    {
        self.held.as_slice()
    }
}

/// All orders of some places, in lexicographic order, each once. Contracts see the list of those that are left.
#[derive(Drop)]
pub struct Placements {
    count: usize,
    next: usize,
}

impl Model for Placements {
    ghost use Rattle.re_labels.specs.Orders.{placements};
    ghost use Rattle.std.specs.Prelude.{◌≤◌, List, ℕ, drop};

    ghost Value = { List (List ℕ) };

    ghost view = { λ p. drop p.next (placements p.count) };

    ghost invariant = { λ p. p.count ≤ 6 };
}

impl Placements {
    /// All orders of this many places.
    pub fn new(count: usize) -> Placements
        requires { count ≤ 6 }
        ensures { result ≡ placements count }
    {
        Placements { count, next: 0 }
    }
}

impl Iterator for Placements {
    type Item = Placement;

    ghost next_gives = { YieldsFirst (λ left. left) };

    ghost remaining = { item_count (λ left. left) };

    fn next(&mut self) -> Option<Placement> {
        if self.next >= factorial(self.count) {
            return None;
        }
        let held = order_at(self.count, self.next);
        self.next += 1;
        Some(Placement { held })
    }
}
