//! Good sets grow, label by label, to a maximal row.
ghost use Rattle.re_boxes.specs.Boxes.{IsStrength};
ghost use Rattle.re_labels.specs.Rows.{Dominates};
ghost use Rattle.re_labels.specs.GoodRows.{IsGood, max_rows};
ghost use Rattle.re_boxes.specs.Sets.{AreSets};
ghost use Rattle.re_step.specs.Completing.{AreRight};
ghost use Rattle.re_step.specs.Growing.{IsGrownFrom, IsTried};
ghost use Rattle.re_boxes.specs.HeldStrength.{ups_in};
ghost use Rattle.std.specs.Prelude.{◌≡◌, ◌≤◌, ◌<◌, ℕ, Contains, length};

use crate::completing::{Memo, addable, outside};
use arrayvec::ArrayVec;
use re_boxes::{Strength, with_set};
use re_labels::{Constraint, LabelSet, Row};

// The sets with, at the place, each label that can be added.
fn grown_at(
    constraint: &Constraint,
    strength: &Strength,
    memo: &mut Memo,
    sets: ArrayVec<LabelSet, 6>,
    place: usize,
) -> ArrayVec<LabelSet, 6>
    requires good { IsGood constraint.now sets.items }
    requires sets { AreSets strength.now.labels sets.items }
    requires strong { IsStrength constraint.now (ups_in strength.now.ups.items) }
    requires right { AreRight constraint.now strength.now.labels memo.old.slots.items }
    requires place { place < length sets.items }
    ensures grown { IsGrownFrom constraint.now strength.now.labels sets.items result.items }
    ensures tried { (x : ℕ) → x < strength.now.labels → IsTried constraint.now result.items place x }
    ensures right { AreRight constraint.now strength.now.labels memo.new.slots.items }
{
    let _degree = constraint.degree();
    let set = sets[place];
    let mut others = strength.weakest_sets(sets.as_slice());
    let _weakest = others.remove(place);
    let [first, more @ ..] = others.as_slice() else {
        unreachable!()
    };
    let left = outside(strength.labels, set);
    let added = addable(constraint, strength.labels, memo, &[], left, *first, more);
    with_set(sets.as_slice(), place, set.union(added))
}

// The sets with, at the places before this one, each label that can be added.
fn grown_before(
    constraint: &Constraint,
    strength: &Strength,
    memo: &mut Memo,
    sets: ArrayVec<LabelSet, 6>,
    place: usize,
) -> ArrayVec<LabelSet, 6>
    requires good { IsGood constraint.now sets.items }
    requires sets { AreSets strength.now.labels sets.items }
    requires strong { IsStrength constraint.now (ups_in strength.now.ups.items) }
    requires right { AreRight constraint.now strength.now.labels memo.old.slots.items }
    requires place { place ≤ length sets.items }
    ensures grown { IsGrownFrom constraint.now strength.now.labels sets.items result.items }
    ensures tried { (i x : ℕ) → i < place → x < strength.now.labels → IsTried constraint.now result.items i x }
    ensures right { AreRight constraint.now strength.now.labels memo.new.slots.items }
{
    if place == 0 {
        return sets;
    }
    let more = grown_at(constraint, strength, memo, sets, place - 1);
    grown_before(constraint, strength, memo, more, place - 1)
}

// The same sets.
fn copied(sets: &[LabelSet]) -> ArrayVec<LabelSet, 6>
    requires { length sets.now ≤ 6 }
    ensures { result.items ≡ sets.now }
{
    let mut copy = ArrayVec::new();
    for set in sets {
        copy.push(*set);
    }
    copy
}

/// A maximal row in which these good sets lie: each place, from the last on, takes each label with which the sets stay good.
pub(crate) fn grown(
    constraint: &Constraint,
    strength: &Strength,
    memo: &mut Memo,
    sets: &[LabelSet],
) -> Row
    requires good { IsGood constraint.now sets.now }
    requires sets { AreSets strength.now.labels sets.now }
    requires strong { IsStrength constraint.now (ups_in strength.now.ups.items) }
    requires right { AreRight constraint.now strength.now.labels memo.old.slots.items }
    ensures maximal { Contains (max_rows constraint.now strength.now.labels) result }
    ensures dominates { Dominates result sets.now }
    ensures right { AreRight constraint.now strength.now.labels memo.new.slots.items }
{
    let _degree = constraint.degree();
    let all = grown_before(constraint, strength, memo, copied(sets), sets.len());
    match Row::from_sets(all.as_slice()) {
        Some(row) => row,
        None => unreachable!(),
    }
}
