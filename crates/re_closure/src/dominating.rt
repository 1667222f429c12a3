//! Which lines dominate which.
ghost use Rattle.re_labels.specs.Rows.{Dominates, set_at};
ghost use Rattle.re_labels.specs.GoodRows.{IsDominated};
ghost use Rattle.std.specs.List.{remove};
ghost use Rattle.re_labels.specs.Sets.{number};
ghost use Rattle.std.specs.Prelude.{◌≡◌, ◌<◌, ◌≤◌, ◌-◌, ◌↔◌, IsTrue, false, length};

use crate::line::SetLine;
use arrayvec::ArrayVec;
use re_labels::LabelSet;

/// The sets but the one at this place.
pub(crate) fn without(sets: &[LabelSet], place: usize) -> ArrayVec<LabelSet, 6>
    requires few { length sets.now ≤ 6 }
    requires there { place < length sets.now }
    ensures { result.items ≡ remove sets.now place }
{
    let mut left = ArrayVec::new();
    for set in sets {
        left.push(*set);
    }
    left.remove(place);
    left
}

/// Whether the set at this place stands right before it too.
pub(crate) fn is_again(sets: &[LabelSet], place: usize) -> bool
    requires { place < length sets.now }
    ensures again { IsTrue result → (0 < place) × (set_at sets.now (place - 1) ≡ set_at sets.now place) }
    ensures anew { result ≡ false → 0 < place → number (set_at sets.now (place - 1)) ≡ number (set_at sets.now place) → ⊥ }
{
    if place == 0 {
        return false;
    }
    sets[place - 1].number() == sets[place].number()
}

// Whether in some order the tops hold the sets, place by place. Equal tops that stand side by side count once. Sets that stand in
// falling order of their numbers are fastest.
fn hold(tops: &[LabelSet], sets: &[LabelSet]) -> bool
    requires few { length tops.now ≤ 6 }
    requires alike { length tops.now ≡ length sets.now }
    ensures { IsTrue result ↔ Dominates tops.now sets.now }
{
    let [first, others @ ..] = sets else {
        return true;
    };
    for place in 0..tops.len() {
        if !is_again(tops, place) && first.within(tops[place]) {
            let left = without(tops, place);
            if hold(left.as_slice(), others) {
                return true;
            }
        }
    }
    false
}

/// Whether the one line dominates the other.
pub(crate) fn dominates(top: &SetLine, line: &SetLine) -> bool
    ensures { IsTrue result ↔ Dominates top.now line.now }
{
    let tops = top.sets();
    let sets = line.sets();
    if tops.len() != sets.len() {
        return false;
    }
    hold(tops, sets)
}

/// Whether some of the lines dominates the line.
pub(crate) fn is_dominated(lines: &[SetLine], line: &SetLine) -> bool
    ensures { IsTrue result ↔ IsDominated lines.now line.now }
{
    for top in lines {
        if dominates(top, line) {
            return true;
        }
    }
    false
}
