// Rows.
ghost use Rattle.std.specs.Prelude.{◌≡◌, ◌<◌, ◌≤◌, length, slice_index_or, [], ◌++◌, ◌∷◌, ◌↔◌, IsSome, IsTrue, map, true, false, MatchOption, List, ℕ, ◌^◌};
ghost use Rattle.std.specs.List.{AllByRecursion};
ghost use Rattle.re_labels.specs.Rows.{IsRow, placed, row_of};
ghost use Rattle.re_labels.specs.Configs.{sorted};
ghost use Rattle.re_labels.specs.Rows.{choices, combined, covers, dominates, is_full, singles};
ghost use Rattle.re_labels.specs.Sets.{number, set_of};

use crate::domination::{dominates_in, set_at};
use crate::label_set::LabelSet;
use crate::permutations::Placement;
use crate::{Choices, Config, MAX_LABELS};
use arrayvec::ArrayVec;
use std::marker::Model;

/// A row of 2 to 6 nonempty sets. Contracts see it as the list of its sets, in the order of their numbers.
#[derive(Drop)]
pub struct Row {
    held: ArrayVec<LabelSet, 6>,
}

impl Model for Row {
    ghost use Rattle.re_labels.specs.Rows.{IsRow};
    ghost use Rattle.re_labels.specs.declared.TheConstants.{MAX_LABELS};
    ghost use Rattle.std.specs.Prelude.{List, ℕ, ◌≤◌, length};

    ghost Value = { List (List ℕ) };

    ghost view = { λ r. r.held.items };

    ghost invariant = { λ r. (2 ≤ length r.held.items) × (length r.held.items ≤ 6) × IsRow (length r.held.items) MAX_LABELS r.held.items };
}

/// The numbers of the sets, or nothing where one is empty.
fn numbers_of(sets: &[LabelSet]) -> Option<ArrayVec<u128, 6>>
    requires { length sets.now ≤ 6 }
    ensures { MatchOption result (is_full sets.now ≡ false) (λ v. (is_full sets.now ≡ true) × (v.items ≡ map number sets.now) × AllByRecursion (λ x. x < 2 ^ MAX_LABELS) v.items) }
{
    let mut numbers = ArrayVec::new();
    for set in sets {
        if set.count() == 0 {
            return None;
        }
        numbers.push(set.number());
    }
    Some(numbers)
}

fn sets_of(numbers: &[u128]) -> ArrayVec<LabelSet, 6>
    requires { length numbers.now ≤ 6 }
    ensures { result.items ≡ map (set_of MAX_LABELS) numbers.now }
{
    let mut sets = ArrayVec::new();
    for number in numbers {
        sets.push(LabelSet::of_number(*number));
    }
    sets
}

/// The combination of two rows of one length at a place, as its sets stand.
fn combined_sets(
    sets: &[LabelSet],
    others: &[LabelSet],
    order: &[u8],
    place: usize,
) -> ArrayVec<LabelSet, 6>
    requires few { length sets.now ≤ 6 }
    requires alike { length order.now ≡ length sets.now }
    ensures { result.items ≡ combined place sets.now (placed others.now order.now) }
{
    let mut done = ArrayVec::new();
    for i in 0..sets.len() {
        let set = sets[i];
        let other = set_at(others, order[i] as usize);
        if i == place {
            done.push(set.union(other));
        } else {
            done.push(set.meet(other));
        }
    }
    done
}

impl Row {
    /// The row of these sets, or nothing where they are not 2 to 6, or one is empty.
    pub fn from_sets(sets: &[LabelSet]) -> Option<Row>
        ensures { result ≡ row_of MAX_LABELS sets.now }
    {
        if sets.len() < 2 {
            return None;
        }
        if sets.len() > 6 {
            return None;
        }
        let mut numbers = numbers_of(sets)?;
        numbers.sort_unstable();
        let held = sets_of(numbers.as_slice());
        Some(Row { held })
    }

    /// Its sets, in the order of their numbers.
    pub fn sets(&self) -> &[LabelSet]
        ensures sets { result.now ≡ self.now }
        ensures two { 2 ≤ length self.now }
        ensures six { length self.now ≤ 6 }
        ensures row { IsRow (length self.now) MAX_LABELS self.now }
    {
        self.held.as_slice()
    }

    /// The same row. It takes no memory.
    pub fn copy(&self) -> Row
        ensures { result ≡ self.now }
    {
        let mut held = ArrayVec::new();
        for set in self.sets() {
            held.push(*set);
        }
        Row { held }
    }

    /// The configurations of all choices of one label of each set, the first set slowest; a configuration comes as often as
    /// it is chosen. With n sets, a step takes some n divisions, and walks the chosen sets up to their chosen labels.
    pub fn choices(&self) -> Choices
        ensures { result ≡ map sorted (choices self.now) }
    {
        Choices::new(self.copy())
    }

    /// The row of the one-label sets of a configuration.
    pub fn of_config(config: &Config) -> Row
        ensures { result ≡ singles config.now }
    {
        let mut held = ArrayVec::new();
        for label in config.labels() {
            held.push(LabelSet::single(*label));
        }
        Row { held }
    }

    /// Whether in some order the sets of this row hold those of the other one, place by place. With n sets it walks up to
    /// n! orders, and leaves each at its first set that doesn't hold the other's.
    pub fn dominates(&self, other: &Row) -> bool
        requires { length self.now ≡ length other.now }
        ensures { result ≡ dominates self.now other.now }
    {
        dominates_in(self.sets(), other.sets())
    }

    /// The combination of two rows of one length, where set i of this row stands against set `placement.places()[i]` of
    /// the other one: the row of the union of the two sets at i = `place`, and of what they have in common at every other i.
    /// None exactly where they have nothing in common at such an i. Places count from 0.
    pub fn combine(&self, other: &Row, placement: &Placement, place: usize) -> Option<Row>
        requires alike { length other.now ≡ length self.now }
        requires orders { length placement.now ≡ length self.now }
        requires within { place < length self.now }
        ensures row { result ≡ row_of MAX_LABELS (combined place self.now (placed other.now placement.now)) }
        ensures some { IsSome result ↔ IsTrue (is_full (combined place self.now (placed other.now placement.now))) }
    {
        let sets = combined_sets(self.sets(), other.sets(), placement.places(), place);
        Row::from_sets(sets.as_slice())
    }
}
