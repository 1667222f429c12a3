//! The search in a box for good sets that no kept row dominates.
ghost use Rattle.re_boxes.specs.Growing.{IsLonger};
ghost use Rattle.re_boxes.specs.Boxes.{IsCovered, IsStrength};
ghost use Rattle.re_labels.specs.Rows.{IsChoice};
ghost use Rattle.re_boxes.specs.HeldStrength.{ups_in};
ghost use Rattle.re_boxes.specs.Parts.{IsPartCovered, left_out};
ghost use Rattle.re_boxes.specs.Sets.{AreSets};
ghost use Rattle.re_labels.specs.Constraints.{Has};
ghost use Rattle.std.specs.Prelude.{◌≡◌, ◌≤◌, ◌<◌, IfErr, OnOk, length, slice_index};

use crate::Keeper;
use crate::choosing::{first_place, none_lacks};
use crate::sets::with_set;
use crate::strength::Strength;
use crate::strength_choosing::strong_bad_choice;
use re_labels::{Constraint, LabelSet};

/// Each good row of up sets in the box, with these labels, is dominated then. A box that no kept row is seen to dominate is parted
/// by a choice that is no configuration, or is good and settled.
#[cycle(search)]
pub(crate) fn cover<K: Keeper>(
    constraint: &Constraint,
    strength: &Strength,
    keeper: &mut K,
    must: &[LabelSet],
    may: &[LabelSet],
) -> Result<(), K::Refusal>
    requires strong { IsStrength constraint.now (ups_in strength.now.ups.items) }
    requires serves { K.serves keeper.old constraint.now strength.now.labels }
    requires must { length must.now ≡ constraint.now.degree }
    requires may { length may.now ≡ constraint.now.degree }
    requires sets { AreSets strength.now.labels may.now }
    ensures serves { OnOk result (K.serves keeper.new constraint.now strength.now.labels) }
    ensures covered { OnOk result (IsCovered constraint.now (ups_in strength.now.ups.items) (K.rows keeper.new) must.now may.now) }
    ensures refused { IfErr result (K.tells keeper.new constraint.now strength.now.labels) }
    ensures longer { IsLonger (K.rows keeper.old) (K.rows keeper.new) }
    ensures most { K.most keeper.new ≡ K.most keeper.old }
{
    let _degree = constraint.degree();
    match strong_bad_choice(constraint, strength, must, may) {
        None => keeper.settle(constraint, strength, may),
        Some(choice) => cover_choice(constraint, strength, keeper, must, may, choice.as_slice()),
    }
}

// The same where the choice is no configuration.
#[cycle(search)]
fn cover_choice<K: Keeper>(
    constraint: &Constraint,
    strength: &Strength,
    keeper: &mut K,
    must: &[LabelSet],
    may: &[LabelSet],
    choice: &[u8],
) -> Result<(), K::Refusal>
    requires strong { IsStrength constraint.now (ups_in strength.now.ups.items) }
    requires serves { K.serves keeper.old constraint.now strength.now.labels }
    requires must { length must.now ≡ constraint.now.degree }
    requires may { length may.now ≡ constraint.now.degree }
    requires sets { AreSets strength.now.labels may.now }
    requires choice { IsChoice choice.now may.now }
    requires bad { Has constraint.now choice.now → ⊥ }
    ensures serves { OnOk result (K.serves keeper.new constraint.now strength.now.labels) }
    ensures covered { OnOk result (IsPartCovered constraint.now (ups_in strength.now.ups.items) (K.rows keeper.new) must.now may.now choice.now 0) }
    ensures refused { IfErr result (K.tells keeper.new constraint.now strength.now.labels) }
    ensures longer { IsLonger (K.rows keeper.old) (K.rows keeper.new) }
    ensures most { K.most keeper.new ≡ K.most keeper.old }
{
    let _degree = constraint.degree();
    let place = first_place(must, may, choice);
    if place >= may.len() {
        return cover_parts(constraint, strength, keeper, must, may, choice, 0);
    }
    cover_part(constraint, strength, keeper, must, may, choice, place)?;
    let more = with_set(must, place, must[place].union(strength.up(choice[place])));
    let held = more.as_slice();
    if none_lacks(constraint, held, may, choice) {
        return Ok(());
    }
    cover_parts(constraint, strength, keeper, held, may, choice, 0)
}

// The same for the rows that lack a label of the choice from this place on.
#[cycle(search)]
fn cover_parts<K: Keeper>(
    constraint: &Constraint,
    strength: &Strength,
    keeper: &mut K,
    must: &[LabelSet],
    may: &[LabelSet],
    choice: &[u8],
    place: usize,
) -> Result<(), K::Refusal>
    requires strong { IsStrength constraint.now (ups_in strength.now.ups.items) }
    requires serves { K.serves keeper.old constraint.now strength.now.labels }
    requires must { length must.now ≡ constraint.now.degree }
    requires may { length may.now ≡ constraint.now.degree }
    requires sets { AreSets strength.now.labels may.now }
    requires choice { IsChoice choice.now may.now }
    requires place { place ≤ length may.now }
    ensures serves { OnOk result (K.serves keeper.new constraint.now strength.now.labels) }
    ensures covered { OnOk result (IsPartCovered constraint.now (ups_in strength.now.ups.items) (K.rows keeper.new) must.now may.now choice.now place) }
    ensures refused { IfErr result (K.tells keeper.new constraint.now strength.now.labels) }
    ensures longer { IsLonger (K.rows keeper.old) (K.rows keeper.new) }
    ensures most { K.most keeper.new ≡ K.most keeper.old }
{
    let _degree = constraint.degree();
    if place == may.len() {
        return Ok(());
    }
    if must[place].has(choice[place]) {
        return cover_parts(constraint, strength, keeper, must, may, choice, place + 1);
    }
    cover_part(constraint, strength, keeper, must, may, choice, place)?;
    let more = with_set(must, place, must[place].union(strength.up(choice[place])));
    cover_parts(
        constraint,
        strength,
        keeper,
        more.as_slice(),
        may,
        choice,
        place + 1,
    )
}

// The same for the rows that lack the label of the choice at this place.
#[cycle(search)]
fn cover_part<K: Keeper>(
    constraint: &Constraint,
    strength: &Strength,
    keeper: &mut K,
    must: &[LabelSet],
    may: &[LabelSet],
    choice: &[u8],
    place: usize,
) -> Result<(), K::Refusal>
    requires strong { IsStrength constraint.now (ups_in strength.now.ups.items) }
    requires serves { K.serves keeper.old constraint.now strength.now.labels }
    requires must { length must.now ≡ constraint.now.degree }
    requires may { length may.now ≡ constraint.now.degree }
    requires sets { AreSets strength.now.labels may.now }
    requires choice { IsChoice choice.now may.now }
    requires place { place < length may.now }
    ensures serves { OnOk result (K.serves keeper.new constraint.now strength.now.labels) }
    ensures covered { OnOk result (IsCovered constraint.now (ups_in strength.now.ups.items) (K.rows keeper.new) must.now (left_out (ups_in strength.now.ups.items) (slice_index choice.now place) place may.now)) }
    ensures refused { IfErr result (K.tells keeper.new constraint.now strength.now.labels) }
    ensures longer { IsLonger (K.rows keeper.old) (K.rows keeper.new) }
    ensures most { K.most keeper.new ≡ K.most keeper.old }
{
    let _degree = constraint.degree();
    let label = choice[place];
    if must[place].has(label) {
        return Ok(());
    }
    let set = strength.without(may[place], label);
    if set.is_empty() {
        return Ok(());
    }
    let smaller = with_set(may, place, set);
    let part = smaller.as_slice();
    if keeper.sees_dominated(part) {
        return Ok(());
    }
    cover(constraint, strength, keeper, must, part)
}
