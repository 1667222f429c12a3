//! Classes of equally strong labels, where a list has for each label the set of the labels that are at least as strong.
ghost use Rattle.re_changes.specs.Classes.{are_equal, class_of, is_next, is_stronger, least_equal, least_labels, strong_by};
ghost use Rattle.std.specs.List.{list_any};
ghost use Rattle.re_labels.specs.Lists.{count_from};
ghost use Rattle.std.specs.Prelude.{◌≡◌, ◌≤◌, ◌<◌, ◌&&◌, length};

use arrayvec::ArrayVec;
use re_labels::{LabelSet, MAX_LABELS};

// Whether each of the two labels is at least as strong as the other.
fn are_equal(ups: &[LabelSet], first: u8, second: u8) -> bool
    requires few { length ups.now ≤ MAX_LABELS }
    requires first { first < length ups.now }
    requires second { second < length ups.now }
    ensures { result ≡ are_equal (strong_by ups.now) first second }
{
    ups[second as usize].has(first) && ups[first as usize].has(second)
}

// Whether the second label is stronger than the first.
fn is_stronger(ups: &[LabelSet], weak: u8, strong: u8) -> bool
    requires few { length ups.now ≤ MAX_LABELS }
    requires weak { weak < length ups.now }
    requires strong { strong < length ups.now }
    ensures { result ≡ is_stronger (strong_by ups.now) strong weak }
{
    ups[weak as usize].has(strong) && !ups[strong as usize].has(weak)
}

/// The labels that are equally strong as this one.
pub fn class_of(ups: &[LabelSet], label: u8) -> LabelSet
    requires few { length ups.now ≤ MAX_LABELS }
    requires label { label < length ups.now }
    ensures { result ≡ class_of (strong_by ups.now) (length ups.now) label }
{
    let mut class = LabelSet::empty();
    for other in 0..ups.len() as u8 {
        if are_equal(ups, label, other) {
            class = class.insert(other);
        }
    }
    class
}

/// The least label of its class.
pub fn least_equal(ups: &[LabelSet], label: u8) -> u8
    requires few { length ups.now ≤ MAX_LABELS }
    requires label { label < length ups.now }
    ensures { result ≡ least_equal (strong_by ups.now) (length ups.now) label }
{
    class_of(ups, label).first().unwrap_or(label)
}

/// The labels that are the least of their classes. With n labels it compares n pairs for each of them.
pub fn least_labels(ups: &[LabelSet]) -> ArrayVec<u8, 128>
    requires { length ups.now ≤ MAX_LABELS }
    ensures { result.items ≡ least_labels (strong_by ups.now) (length ups.now) }
{
    let mut least = ArrayVec::new();
    for label in 0..ups.len() as u8 {
        if least_equal(ups, label) == label {
            least.push(label);
        }
    }
    least
}

// Whether some label is strictly between the two.
fn stands_between(ups: &[LabelSet], weak: u8, strong: u8) -> bool
    requires few { length ups.now ≤ MAX_LABELS }
    requires weak { weak < length ups.now }
    requires strong { strong < length ups.now }
    ensures { result ≡ list_any (λ c. is_stronger (strong_by ups.now) c weak && is_stronger (strong_by ups.now) strong c) (count_from 0 (length ups.now)) }
{
    for middle in 0..ups.len() as u8 {
        if is_stronger(ups, weak, middle) && is_stronger(ups, middle, strong) {
            return true;
        }
    }
    false
}

/// Whether the second label is stronger than the first, with no label strictly between.
pub fn is_next(ups: &[LabelSet], weak: u8, strong: u8) -> bool
    requires few { length ups.now ≤ MAX_LABELS }
    requires weak { weak < length ups.now }
    requires strong { strong < length ups.now }
    ensures { result ≡ is_next (strong_by ups.now) (length ups.now) strong weak }
{
    is_stronger(ups, weak, strong) && !stands_between(ups, weak, strong)
}
