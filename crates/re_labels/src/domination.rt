//! Whether a row dominates another one.
ghost use Rattle.re_labels.specs.Orders.{orders};
ghost use Rattle.re_labels.specs.Rows.{covers, dominates, placed};
ghost use Rattle.std.specs.List.{list_any, remove};
ghost use Rattle.std.specs.Prelude.{◌≡◌, ◌<◌, ◌≤◌, ◌+◌, [], drop, length, slice_index_or};

use crate::label_set::LabelSet;
use arrayvec::ArrayVec;

pub(crate) fn set_at(sets: &[LabelSet], place: usize) -> LabelSet
    ensures { result ≡ slice_index_or sets.now place [] }
{
    if place < sets.len() {
        sets[place]
    } else {
        LabelSet::empty()
    }
}

// The places but the one at this index.
fn without(places: &[u8], index: usize) -> ArrayVec<u8, 6>
    requires few { length places.now ≤ 6 }
    requires there { index < length places.now }
    ensures { result.items ≡ remove places.now index }
{
    let mut left = ArrayVec::new();
    for place in places {
        left.push(*place);
    }
    left.remove(index);
    left
}

// Whether the sets at these places, in some order, hold the other row's sets from this index on. A place whose set doesn't hold
// the first of them is left at once.
fn hold_from(sets: &[LabelSet], places: &[u8], others: &[LabelSet], index: usize) -> bool
    requires few { length places.now ≤ 6 }
    requires alike { length places.now + index ≡ length others.now }
    ensures { result ≡ list_any (λ order. covers (placed sets.now order) (drop index others.now)) (orders (length places.now) places.now) }
{
    if places.is_empty() {
        return true;
    }
    let other = set_at(others, index);
    for k in 0..places.len() {
        let holds = other.within(set_at(sets, places[k] as usize));
        if holds {
            let left = without(places, k);
            let rest = hold_from(sets, left.as_slice(), others, index + 1);
            if rest {
                return true;
            }
        }
    }
    false
}

/// Whether in some order the sets of a row hold those of another one, place by place.
pub(crate) fn dominates_in(sets: &[LabelSet], others: &[LabelSet]) -> bool
    requires few { length sets.now ≤ 6 }
    requires alike { length sets.now ≡ length others.now }
    ensures { result ≡ dominates sets.now others.now }
{
    let mut places: ArrayVec<u8, 6> = ArrayVec::new();
    for place in 0..sets.len() {
        places.push(place as u8);
    }
    hold_from(sets, places.as_slice(), others, 0)
}
