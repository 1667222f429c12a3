//! The choices of one label of each set of a row.
ghost use Rattle.re_labels.specs.Configs.{sorted};
ghost use Rattle.re_labels.specs.Rows.{IsChosen, choices};
ghost use Rattle.re_labels.specs.Sets.{IsLabelSet};
ghost use Rattle.std.specs.Iterator.{YieldsFirst, item_count};
ghost use Rattle.std.specs.List.{AllByRecursion};
ghost use Rattle.std.specs.Prelude.{◌≡◌, ◌<◌, ◌≤◌, length, map, slice_index_or};

use crate::label_set::LabelSet;
use crate::{Config, MAX_LABELS, Row};
use arrayvec::ArrayVec;
use std::marker::Model;

/// The label of the set with this many below it.
fn label_at(set: LabelSet, index: u64) -> u8
    requires set { IsLabelSet MAX_LABELS set }
    requires there { index < length set }
    ensures label { result ≡ slice_index_or set index 0 }
    ensures below { result < MAX_LABELS }
{
    let Some(label) = set.first() else {
        unreachable!()
    };
    if index == 0 {
        return label;
    }
    label_at(set.remove(label), index - 1)
}

/// The choice at this index of the list of all choices, round and round, and how many rounds came before it.
fn chosen(sets: &[LabelSet], index: u64) -> (u64, ArrayVec<u8, 6>)
    requires few { length sets.now ≤ 6 }
    requires filled { AllByRecursion (λ set. IsLabelSet MAX_LABELS set × (0 < length set)) sets.now }
    ensures chosen { IsChosen sets.now index result.0 result.1.items }
    ensures count { length result.1.items ≡ length sets.now }
    ensures below { AllByRecursion (λ label. label < MAX_LABELS) result.1.items }
{
    let [first, others @ ..] = sets else {
        return (index, ArrayVec::new());
    };
    let (rounds, mut labels) = chosen(others, index);
    let count = u64::from(first.count());
    labels.insert(0, label_at(*first, rounds % count));
    (rounds / count, labels)
}

/// The configurations of all choices of one label of each set of a row, the first set slowest. A configuration comes as
/// often as it is chosen. Contracts see the list of those that are left.
#[derive(Drop)]
pub struct Choices {
    row: Row,
    next: u64,
}

impl Model for Choices {
    ghost use Rattle.re_labels.specs.Configs.{sorted};
    ghost use Rattle.re_labels.specs.Rows.{choices};
    ghost use Rattle.std.specs.Prelude.{List, ℕ, drop, map};

    ghost Value = { List (List ℕ) };

    ghost view = { λ c. drop c.next (map sorted (choices c.row)) };
}

impl Choices {
    pub(crate) fn new(row: Row) -> Choices
        ensures { result ≡ map sorted (choices row) }
    {
        Choices { row, next: 0 }
    }
}

impl Iterator for Choices {
    type Item = Config;

    ghost next_gives = { YieldsFirst (λ left. left) };

    ghost remaining = { item_count (λ left. left) };

    fn next(&mut self) -> Option<Config> {
        let (rounds, labels) = chosen(self.row.sets(), self.next);
        if rounds > 0 {
            return None;
        }
        self.next += 1;
        Some(Config::from_labels(labels.as_slice()))
    }
}
