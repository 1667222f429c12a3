//! All multisets of some numbers, one after another.
ghost use Rattle.re_labels.specs.Orders.{IsFollowed, multisets};
ghost use Rattle.std.proofs.Common.{replicate};
ghost use Rattle.std.specs.Iterator.{YieldsFirst, item_count};
ghost use Rattle.std.specs.List.{AllByRecursion};
ghost use Rattle.std.specs.Prelude.{◌≡◌, ◌<◌, ◌≤◌, ◌∷◌, length};

use arrayvec::ArrayVec;
use std::marker::Model;

/// Up to six numbers in ascending order. Contracts see the list of them.
#[derive(Drop)]
pub struct Picks {
    held: ArrayVec<u16, 6>,
}

impl Model for Picks {
    ghost use Rattle.std.specs.Prelude.{List, ℕ};

    ghost Value = { List ℕ };

    ghost view = { λ p. p.held.items };
}

impl Picks {
    /// The numbers, in ascending order.
    pub fn numbers(&self) -> &[u16]
        ensures { result.now ≡ self.now }
    {
        self.held.as_slice()
    }

    // The same number so many times.
    fn all_alike(count: usize, number: u16) -> Picks
        requires { count ≤ 6 }
        ensures { result ≡ replicate count number }
    {
        let mut held = ArrayVec::new();
        for _i in 0..count {
            held.push(number);
        }
        Picks { held }
    }

    // These numbers in this order.
    fn of(numbers: &[u16]) -> Picks
        requires { length numbers.now ≤ 6 }
        ensures { result ≡ numbers.now }
    {
        let mut held = ArrayVec::new();
        for number in numbers {
            held.push(*number);
        }
        Picks { held }
    }

    // This number before the others.
    fn with_first(self, number: u16) -> Picks
        requires { length self < 6 }
        ensures { result ≡ number ∷ self }
    {
        let mut held = self.held;
        held.insert(0, number);
        Picks { held }
    }
}

// The multiset behind this one, of as many numbers below the bound.
fn following(numbers: &[u16], below: u16) -> Option<Picks>
    requires few { length numbers.now ≤ 6 }
    requires below { AllByRecursion (λ number. number < below) numbers.now }
    ensures { IsFollowed below numbers.now result }
{
    let [first, others @ ..] = numbers else {
        return None;
    };
    if let Some(next) = following(others, below) {
        return Some(next.with_first(*first));
    }
    if *first + 1 < below {
        return Some(Picks::all_alike(numbers.len(), *first + 1));
    }
    None
}

/// All ascending lists of so many numbers below a bound, in lexicographic order, each once. Contracts see the list of those
/// that are left. A step moves each number some six times at most.
#[derive(Drop)]
pub struct Multisets {
    below: u16,
    next: Option<Picks>,
}

impl Model for Multisets {
    ghost use Rattle.re_labels.specs.Orders.{IsNext, multisets_left};
    ghost use Rattle.std.specs.Prelude.{List, ℕ};

    ghost Value = { List (List ℕ) };

    ghost view = { λ m. multisets_left m.below m.next };

    ghost invariant = { λ m. IsNext m.below m.next };
}

impl Multisets {
    /// All ascending lists of this many numbers below the bound.
    pub fn new(length: usize, below: u16) -> Multisets
        requires two { 2 ≤ length }
        requires six { length ≤ 6 }
        ensures { result ≡ multisets length 0 below }
    {
        let next = if below == 0 {
            None
        } else {
            Some(Picks::all_alike(length, 0))
        };
        Multisets { below, next }
    }
}

impl Iterator for Multisets {
    type Item = Picks;

    ghost next_gives = { YieldsFirst (λ left. left) };

    ghost remaining = { item_count (λ left. left) };

    fn next(&mut self) -> Option<Picks> {
        let picks = match &self.next {
            Some(picks) => Picks::of(picks.numbers()),
            None => return None,
        };
        self.next = following(picks.numbers(), self.below);
        Some(picks)
    }
}
