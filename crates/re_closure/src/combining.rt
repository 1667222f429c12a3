//! The combinations of two lines that neither dominates.
ghost use Rattle.re_labels.specs.Orders.{factorial};
ghost use Rattle.re_labels.specs.Rearranging.{Rearranged};
ghost use Rattle.re_closure.specs.Combining.{AreAllAgainst, AreAllAt, AreAllOf, AreMeetings};
ghost use Rattle.re_labels.specs.Sets.{IsWithin};
ghost use Rattle.re_closure.specs.Kept.{combinations_of};
ghost use Rattle.std.specs.Prelude.{◌≡◌, ◌<◌, ◌≤◌, ◌+◌, ◌-◌, ◌∷◌, ◌⊎◌, IfOk, IsTrue, OnOk, length};

use crate::dominating::{is_again, without};
use crate::line::SetLine;
use arrayvec::ArrayVec;
use re_labels::{LabelSet, NoMemory};
use std::alloc::Global;

// The first place whose set has a lower number, or else the number of the sets.
fn place_for(sets: &[LabelSet], set: LabelSet) -> usize
    ensures { result ≤ length sets.now }
{
    for place in 0..sets.len() {
        if sets[place].number() < set.number() {
            return place;
        }
    }
    sets.len()
}

// The sets with one more, before those with lower numbers.
fn with_set(sets: &[LabelSet], set: LabelSet) -> ArrayVec<LabelSet, 6>
    requires { length sets.now < 6 }
    ensures { Rearranged (set ∷ sets.now) result.items }
{
    let mut more = ArrayVec::new();
    for held in sets {
        more.push(*held);
    }
    more.insert(place_for(sets, set), set);
    more
}

// Adds the lines of the chosen sets with what each set of the rest has in common with one of the sets left, in each order of these.
fn push_meets(
    chosen: &[LabelSet],
    rest: &[LabelSet],
    left: &[LabelSet],
    found: &mut Vec<SetLine>,
) -> Result<(), NoMemory>
    requires six { length chosen.now + length rest.now ≤ 6 }
    requires alike { length left.now ≡ length rest.now }
    ensures all { OnOk result (AreMeetings chosen.now rest.now left.now found.old.items found.new.items) }
    ensures few { OnOk result (length found.new.items ≤ length found.old.items + factorial (length left.now)) }
{
    let [first, others @ ..] = rest else {
        found.push(SetLine::from_sets(chosen))?;
        return Ok(());
    };
    for place in 0..left.len() {
        if !is_again(left, place) {
            let more = with_set(chosen, first.meet(left[place]));
            let fewer = without(left, place);
            push_meets(more.as_slice(), others, fewer.as_slice(), found)?;
        }
    }
    Ok(())
}

// Whether one of the two sets holds the other.
fn are_nested(set: LabelSet, other: LabelSet) -> bool
    ensures { IsTrue result → IsWithin set other ⊎ IsWithin other set }
{
    if set.within(other) {
        return true;
    }
    other.within(set)
}

// Adds the combinations whose union is that of the sets at these places, where neither set holds the other.
fn push_at(
    sets: &[LabelSet],
    others: &[LabelSet],
    place: usize,
    against: usize,
    found: &mut Vec<SetLine>,
) -> Result<(), NoMemory>
    requires six { length sets.now ≤ 6 }
    requires alike { length others.now ≡ length sets.now }
    requires place { place < length sets.now }
    requires against { against < length others.now }
    ensures all { OnOk result (AreAllAt sets.now others.now place against found.old.items found.new.items) }
    ensures few { OnOk result (length found.new.items ≤ length found.old.items + factorial (length sets.now - 1)) }
{
    let set = sets[place];
    let other = others[against];
    if are_nested(set, other) {
        return Ok(());
    }
    let rest = without(sets, place);
    let left = without(others, against);
    push_meets(&[set.union(other)], rest.as_slice(), left.as_slice(), found)?;
    Ok(())
}

// Adds the combinations whose union is at this place of the one line.
fn push_against(
    sets: &[LabelSet],
    others: &[LabelSet],
    place: usize,
    found: &mut Vec<SetLine>,
) -> Result<(), NoMemory>
    requires six { length sets.now ≤ 6 }
    requires alike { length others.now ≡ length sets.now }
    requires place { place < length sets.now }
    ensures all { OnOk result (AreAllAgainst sets.now others.now place found.old.items found.new.items) }
    ensures few { OnOk result (length found.new.items ≤ length found.old.items + factorial (length sets.now)) }
{
    for against in 0..others.len() {
        if !is_again(others, against) {
            push_at(sets, others, place, against, found)?;
        }
    }
    Ok(())
}

/// Combinations of the two lines of one length: each other combination is dominated by one of these, or by one of the two lines.
/// Equal sets that stand side by side count once.
pub(crate) fn combinations(
    alloc: Global,
    line: &SetLine,
    other: &SetLine,
) -> Result<Vec<SetLine>, NoMemory>
    requires { length other.now ≡ length line.now }
    ensures all { IfOk result (λ found. AreAllOf line.now other.now found.items) }
    ensures few { IfOk result (λ found. length found.items ≤ combinations_of (length line.now)) }
{
    let mut found = Vec::new(alloc);
    let sets = line.sets();
    let others = other.sets();
    for place in 0..sets.len() {
        if !is_again(sets, place) {
            push_against(sets, others, place, &mut found)?;
        }
    }
    Ok(found)
}
