//! Tuples of numbers.
ghost use Rattle.re_labels.specs.Configs.{image_at};
ghost use Rattle.re_labels.specs.Orders.{placements};
ghost use Rattle.std.specs.List.{AllByRecursion};
ghost use Rattle.std.specs.Prelude.{◌≡◌, ◌++◌, ◌∷◌, ◌<◌, ◌≤◌, [], IfOk, length, map};

use crate::stopping::{TryFault, spend};
use arrayvec::ArrayVec;
use re_labels::{Config, Placements};
use std::marker::Model;

/// Up to six numbers in any order. Contracts see the list of them.
#[derive(Drop)]
pub(crate) struct Tuple {
    held: ArrayVec<u16, 6>,
}

impl Model for Tuple {
    ghost use Rattle.std.specs.Prelude.{List, ℕ};

    ghost Value = { List ℕ };

    ghost view = { λ t. t.held.items };
}

impl Tuple {
    /// The tuple without numbers.
    pub(crate) fn new() -> Tuple
        ensures { result ≡ [] }
    {
        Tuple {
            held: ArrayVec::new(),
        }
    }

    /// Its numbers, in their order.
    pub(crate) fn numbers(&self) -> &[u16]
        ensures numbers { result.now ≡ self.now }
        ensures six { length self.now ≤ 6 }
    {
        self.held.as_slice()
    }

    /// The tuple with one more number behind the others.
    pub(crate) fn with_last(self, number: u16) -> Tuple
        requires { length self < 6 }
        ensures { result ≡ self ++ number ∷ [] }
    {
        let mut held = self.held;
        held.push(number);
        Tuple { held }
    }

    // The tuple with one more number before the others.
    fn with_first(&self, number: u16) -> Tuple
        requires { length self.now < 6 }
        ensures { result ≡ number ∷ self.now }
    {
        let mut held = ArrayVec::new();
        held.push(number);
        for other in self.numbers() {
            held.push(*other);
        }
        Tuple { held }
    }
}

/// Appends the tuples with the number before each, where there is room for them.
pub(crate) fn push_with(
    number: usize,
    tuples: &[Tuple],
    all: &mut Vec<Tuple>,
    room: &mut usize,
) -> Result<(), TryFault>
    requires { AllByRecursion (λ tuple. length tuple < 6) tuples.now }
    ensures { IfOk result (λ _. all.new.items ≡ all.old.items ++ map (λ tuple. number ∷ tuple) tuples.now) }
{
    if number > u16::MAX as usize {
        return Err(TryFault::TooMany);
    }
    for tuple in tuples {
        spend(room)?;
        all.push(tuple.with_first(number as u16))?;
    }
    Ok(())
}

// The labels at these places.
fn labels_at(labels: &[u8], places: &[u8]) -> Tuple
    requires { length places.now ≤ 6 }
    ensures { result ≡ map (image_at labels.now) places.now }
{
    let mut held = ArrayVec::new();
    for place in places {
        let place = *place as usize;
        held.push(if place < labels.len() {
            labels[place] as u16
        } else {
            0
        });
    }
    Tuple { held }
}

/// Appends the labels of the configuration in each order.
pub(crate) fn push_orders(
    config: &Config,
    all: &mut Vec<Tuple>,
    room: &mut usize,
) -> Result<(), TryFault>
    ensures { IfOk result (λ _. all.new.items ≡ all.old.items ++ map (λ places. map (image_at config.now) places) (placements (length config.now))) }
{
    let labels = config.labels();
    for order in Placements::new(labels.len()) {
        spend(room)?;
        all.push(labels_at(labels, order.places()))?;
    }
    Ok(())
}
