//! Whether a row of a list dominates sets, and whether it is seen to.
ghost use Rattle.re_labels.specs.Rearranging.{Rearranged};
ghost use Rattle.re_labels.specs.Rows.{Dominates, dominates};
ghost use Rattle.re_labels.specs.Sets.{within};
ghost use Rattle.re_boxes.specs.Sets.{AreSets};
ghost use Rattle.re_labels.specs.GoodRows.{IsDominated, is_dominated};
ghost use Rattle.std.specs.List.{list_all, list_any, remove};
ghost use Rattle.std.specs.Prelude.{◌≡◌, ◌≤◌, ◌<◌, ◌↔◌, ℕ, List, Contains, IsTrue, length, true};

use arrayvec::ArrayVec;
use re_labels::{LabelSet, MAX_LABELS, Row};

// Whether the set lies within one of the others.
fn lies_in(set: LabelSet, others: &[LabelSet]) -> bool
    ensures { result ≡ list_any (within set) others.now }
{
    for other in others {
        if set.within(*other) {
            return true;
        }
    }
    false
}

// Whether each of the sets lies within one of the others.
fn each_lies_in(sets: &[LabelSet], others: &[LabelSet]) -> bool
    ensures { result ≡ list_all (λ set. list_any (within set) others.now) sets.now }
{
    for set in sets {
        if !lies_in(*set, others) {
            return false;
        }
    }
    true
}

// The front, or the place behind the sets.
fn spot(front: bool, sets: &[LabelSet]) -> usize
    ensures { result ≤ length sets.now }
{
    if front { 0 } else { sets.len() }
}

// The sets, one with the most labels first.
pub(crate) fn large_first(sets: &[LabelSet]) -> ArrayVec<LabelSet, 6>
    requires { length sets.now ≤ 6 }
    ensures { Rearranged sets.now result.items }
{
    let mut done: ArrayVec<LabelSet, 6> = ArrayVec::new();
    let mut most = 0;
    for set in sets {
        let count = set.count();
        let place = spot(count > most, done.as_slice());
        done.insert(place, *set);
        if count > most {
            most = count;
        }
    }
    done
}

// The sets but the one at this place.
fn without(sets: &[LabelSet], place: usize) -> ArrayVec<LabelSet, 6>
    requires few { length sets.now ≤ 6 }
    requires there { place < length sets.now }
    ensures { result.items ≡ remove sets.now place }
{
    let mut left = ArrayVec::new();
    for set in sets {
        left.push(*set);
    }
    left.remove(place);
    left
}

// Whether the tops, each for one of the sets, hold them.
fn hold(tops: &[LabelSet], sets: &[LabelSet]) -> bool
    requires { length tops.now ≤ 6 }
    ensures { result ≡ true → Dominates tops.now sets.now }
{
    let [first, rest @ ..] = sets else {
        return tops.is_empty();
    };
    if tops.len() == 1 {
        if !rest.is_empty() {
            return false;
        }
        return first.within(tops[0]);
    }
    for place in 0..tops.len() {
        if first.within(tops[place]) {
            let left = without(tops, place);
            if hold(left.as_slice(), rest) {
                return true;
            }
        }
    }
    false
}

/// Whether there is a row at this place of the list that is seen to dominate the sets.
pub(crate) fn row_holds(rows: &[Row], place: usize, sets: &[LabelSet]) -> bool
    requires { length sets.now ≤ 6 }
    ensures { result ≡ true → IsDominated rows.now sets.now }
{
    match rows.get(place) {
        Some(top) => each_lies_in(sets, top.sets()) && hold(top.sets(), sets),
        None => false,
    }
}

/// The same where there most likely is one: no quick look comes first.
pub(crate) fn found_holds(rows: &[Row], place: usize, sets: &[LabelSet]) -> bool
    requires { length sets.now ≤ 6 }
    ensures { result ≡ true → IsDominated rows.now sets.now }
{
    match rows.get(place) {
        Some(top) => hold(top.sets(), sets),
        None => false,
    }
}

/// Whether the top dominates the row. Most rows don't, and are told by a set that lies within none of theirs; of the others it
/// walks up to n! orders of n sets.
pub fn dominates(top: &Row, row: &Row) -> bool
    requires { length top.now ≡ length row.now }
    ensures { result ≡ dominates top.now row.now }
{
    each_lies_in(row.sets(), top.sets()) && top.dominates(row)
}

// Whether a row of the list dominates the row.
fn any_dominates(rows: &[Row], row: &Row) -> bool
    requires { (top : List (List ℕ)) → Contains rows.now top → length top ≡ length row.now }
    ensures { result ≡ is_dominated rows.now row.now }
{
    for top in rows {
        if dominates(top, row) {
            return true;
        }
    }
    false
}

/// Whether a row of the list dominates the sets. It walks the list up to the first row that does.
pub(crate) fn has_top(rows: &[Row], sets: &[LabelSet]) -> bool
    requires two { 2 ≤ length sets.now }
    requires six { length sets.now ≤ 6 }
    requires sets { AreSets MAX_LABELS sets.now }
    requires alike { (top : List (List ℕ)) → Contains rows.now top → length top ≡ length sets.now }
    ensures { IsTrue result ↔ IsDominated rows.now sets.now }
{
    match Row::from_sets(sets) {
        Some(row) => any_dominates(rows, &row),
        None => unreachable!(),
    }
}
