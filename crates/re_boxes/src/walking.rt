//! The boxes of a row, and the rows of the configurations.
ghost use Rattle.re_boxes.specs.Growing.{IsLonger};
ghost use Rattle.re_boxes.specs.UpRows.{IsUpRow};
ghost use Rattle.re_boxes.specs.Boxes.{IsStrength};
ghost use Rattle.re_boxes.specs.Boxed.{AreBoxesCovered, AreConfigsDominated, IsBoxCovered};
ghost use Rattle.re_boxes.specs.HeldStrength.{ups_in};
ghost use Rattle.re_labels.specs.GoodRows.{IsDominated};
ghost use Rattle.std.specs.List.{AllByRecursion};
ghost use Rattle.std.specs.Prelude.{◌≡◌, ◌≤◌, ◌<◌, ℕ, Contains, IfErr, OnOk, length, map};

use crate::Keeper;
use crate::boxing::{has_above, nothing, up_above};
use crate::searching::cover;
use crate::sets::with_set;
use crate::strength::Strength;
use re_labels::{Config, Constraint, LabelSet, Row};

// The box of a kept row at the place and the label is covered then, where it need be.
fn cover_box<K: Keeper>(
    constraint: &Constraint,
    strength: &Strength,
    keeper: &mut K,
    row: &Row,
    place: usize,
    label: u8,
) -> Result<(), K::Refusal>
    requires strong { IsStrength constraint.now (ups_in strength.now.ups.items) }
    requires serves { K.serves keeper.old constraint.now strength.now.labels }
    requires kept { Contains (K.rows keeper.old) row.now }
    requires up { IsUpRow constraint.now (ups_in strength.now.ups.items) strength.now.labels row.now }
    requires place { place < length row.now }
    requires label { label < strength.now.labels }
    ensures serves { OnOk result (K.serves keeper.new constraint.now strength.now.labels) }
    ensures covered { OnOk result (IsBoxCovered constraint.now (ups_in strength.now.ups.items) (K.rows keeper.new) row.now place label) }
    ensures refused { IfErr result (K.tells keeper.new constraint.now strength.now.labels) }
    ensures longer { IsLonger (K.rows keeper.old) (K.rows keeper.new) }
    ensures most { K.most keeper.new ≡ K.most keeper.old }
{
    let sets = row.sets();
    let set = sets[place];
    if set.has(label) {
        return Ok(());
    }
    if set.after(label).is_none() {
        return Ok(());
    }
    let up = strength.up(label);
    if !has_above(set, up, label) {
        return Ok(());
    }
    let may = with_set(sets, place, up_above(strength, set, label).union(up));
    let must = with_set(nothing(sets).as_slice(), place, LabelSet::single(label));
    cover(
        constraint,
        strength,
        keeper,
        must.as_slice(),
        may.as_slice(),
    )
}

// The boxes of a kept row at the place, from this label on, are covered then.
fn cover_place<K: Keeper>(
    constraint: &Constraint,
    strength: &Strength,
    keeper: &mut K,
    row: &Row,
    place: usize,
    label: u8,
) -> Result<(), K::Refusal>
    requires strong { IsStrength constraint.now (ups_in strength.now.ups.items) }
    requires serves { K.serves keeper.old constraint.now strength.now.labels }
    requires kept { Contains (K.rows keeper.old) row.now }
    requires up { IsUpRow constraint.now (ups_in strength.now.ups.items) strength.now.labels row.now }
    requires place { place < length row.now }
    requires label { label ≤ strength.now.labels }
    ensures serves { OnOk result (K.serves keeper.new constraint.now strength.now.labels) }
    ensures covered { OnOk result ((x : ℕ) → label ≤ x → x < strength.now.labels → IsBoxCovered constraint.now (ups_in strength.now.ups.items) (K.rows keeper.new) row.now place x) }
    ensures refused { IfErr result (K.tells keeper.new constraint.now strength.now.labels) }
    ensures longer { IsLonger (K.rows keeper.old) (K.rows keeper.new) }
    ensures most { K.most keeper.new ≡ K.most keeper.old }
{
    if label == strength.labels {
        return Ok(());
    }
    cover_box(constraint, strength, keeper, row, place, label)?;
    cover_place(constraint, strength, keeper, row, place, label + 1)
}

// The boxes of a kept row at the places before this one are covered then. Of equal sets only the first one is searched.
fn cover_before<K: Keeper>(
    constraint: &Constraint,
    strength: &Strength,
    keeper: &mut K,
    row: &Row,
    place: usize,
) -> Result<(), K::Refusal>
    requires strong { IsStrength constraint.now (ups_in strength.now.ups.items) }
    requires serves { K.serves keeper.old constraint.now strength.now.labels }
    requires kept { Contains (K.rows keeper.old) row.now }
    requires up { IsUpRow constraint.now (ups_in strength.now.ups.items) strength.now.labels row.now }
    requires place { place ≤ length row.now }
    ensures serves { OnOk result (K.serves keeper.new constraint.now strength.now.labels) }
    ensures covered { OnOk result ((i x : ℕ) → i < place → x < strength.now.labels → IsBoxCovered constraint.now (ups_in strength.now.ups.items) (K.rows keeper.new) row.now i x) }
    ensures refused { IfErr result (K.tells keeper.new constraint.now strength.now.labels) }
    ensures longer { IsLonger (K.rows keeper.old) (K.rows keeper.new) }
    ensures most { K.most keeper.new ≡ K.most keeper.old }
{
    if place == 0 {
        return Ok(());
    }
    let sets = row.sets();
    cover_before(constraint, strength, keeper, row, place - 1)?;
    if place >= 2 && sets[place - 2] == sets[place - 1] {
        return Ok(());
    }
    cover_place(constraint, strength, keeper, row, place - 1, 0)
}

/// The boxes of a kept row are covered then: each good row of up sets in them is dominated. Or good sets were refused.
///
/// Of each place and label it searches the box of the good rows that pass the row by this label there. A box that no kept row is
/// seen to dominate is parted by a choice that is no configuration, or is good and settled. With d sets of n labels that is d * n
/// boxes; how often one is parted has no bound but the number of choices, and is small for most constraints. It takes no memory.
pub fn cover_row<K: Keeper>(
    constraint: &Constraint,
    strength: &Strength,
    keeper: &mut K,
    row: &Row,
) -> Result<(), K::Refusal>
    requires strong { IsStrength constraint.now (ups_in strength.now.ups.items) }
    requires serves { K.serves keeper.old constraint.now strength.now.labels }
    requires kept { Contains (K.rows keeper.old) row.now }
    requires up { IsUpRow constraint.now (ups_in strength.now.ups.items) strength.now.labels row.now }
    ensures serves { OnOk result (K.serves keeper.new constraint.now strength.now.labels) }
    ensures covered { OnOk result (AreBoxesCovered constraint.now (ups_in strength.now.ups.items) strength.now.labels (K.rows keeper.new) row.now) }
    ensures refused { IfErr result (K.tells keeper.new constraint.now strength.now.labels) }
    ensures longer { IsLonger (K.rows keeper.old) (K.rows keeper.new) }
    ensures most { K.most keeper.new ≡ K.most keeper.old }
{
    cover_before(constraint, strength, keeper, row, row.sets().len())
}

// The sets that the labels of a configuration go up to are dominated then.
fn cover_config<K: Keeper>(
    constraint: &Constraint,
    strength: &Strength,
    keeper: &mut K,
    config: &Config,
) -> Result<(), K::Refusal>
    requires strong { IsStrength constraint.now (ups_in strength.now.ups.items) }
    requires serves { K.serves keeper.old constraint.now strength.now.labels }
    requires config { Contains constraint.now.configs config.now }
    requires below { AllByRecursion (λ label. label < strength.now.labels) config.now }
    ensures serves { OnOk result (K.serves keeper.new constraint.now strength.now.labels) }
    ensures dominated { OnOk result (IsDominated (K.rows keeper.new) (map (ups_in strength.now.ups.items) config.now)) }
    ensures refused { IfErr result (K.tells keeper.new constraint.now strength.now.labels) }
    ensures longer { IsLonger (K.rows keeper.old) (K.rows keeper.new) }
    ensures most { K.most keeper.new ≡ K.most keeper.old }
{
    let _degree = constraint.degree();
    let up = strength.up_sets(config.labels());
    let sets = up.as_slice();
    if keeper.sees_dominated(sets) {
        return Ok(());
    }
    keeper.settle(constraint, strength, sets)
}

/// Each configuration, with what its labels go up to, is dominated by a kept row then, or good sets were refused. It settles the
/// sets of each configuration that no kept row is seen to dominate.
pub fn cover_configs<K: Keeper>(
    constraint: &Constraint,
    strength: &Strength,
    keeper: &mut K,
) -> Result<(), K::Refusal>
    requires strong { IsStrength constraint.now (ups_in strength.now.ups.items) }
    requires serves { K.serves keeper.old constraint.now strength.now.labels }
    requires below { AllByRecursion (AllByRecursion (λ label. label < strength.now.labels)) constraint.now.configs }
    ensures serves { OnOk result (K.serves keeper.new constraint.now strength.now.labels) }
    ensures dominated { OnOk result (AreConfigsDominated constraint.now (ups_in strength.now.ups.items) (K.rows keeper.new)) }
    ensures refused { IfErr result (K.tells keeper.new constraint.now strength.now.labels) }
    ensures longer { IsLonger (K.rows keeper.old) (K.rows keeper.new) }
    ensures most { K.most keeper.new ≡ K.most keeper.old }
{
    for config in constraint.configs() {
        cover_config(constraint, strength, keeper, config)?;
    }
    Ok(())
}
