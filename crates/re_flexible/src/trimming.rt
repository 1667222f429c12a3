//! Trimming: labels that stand in no active or in no passive configuration of the labels that are left are taken away, until none is.
ghost use Rattle.re_flexible.specs.Families.{AreApart, AreKept, AreTrimmed};
ghost use Rattle.re_flexible.specs.Relations.{Relates};
ghost use Rattle.re_forests.specs.TrimmedSets.{trimmed_set};
ghost use Rattle.re_labels.specs.Sets.{IsIn};
ghost use Rattle.re_problem.specs.NamedProblems.{unnamed};
ghost use Rattle.re_problem.specs.Problems.{IsProblem};
ghost use Rattle.std.specs.Prelude.{◌≡◌, ◌<◌, ◌≤◌, ◌↔◌, ℕ, length};

use crate::tables::{image, is_within};
use crate::together::standing;
use arrayvec::ArrayVec;
use re_labels::{LabelSet, MAX_LABELS};
use re_problem::Problem;

// The set with the label, without the labels that aren't kept.
fn kept_with(set: LabelSet, label: u8, kept: LabelSet) -> LabelSet
    requires { label < MAX_LABELS }
    ensures { (y : ℕ) → IsIn y result ↔ (IsIn y set × IsIn label kept × IsIn y kept) }
{
    if kept.has(label) {
        return set.meet(kept);
    }
    LabelSet::empty()
}

/// The sets without the labels that aren't kept.
pub fn kept_of(sets: &[LabelSet], kept: LabelSet) -> ArrayVec<LabelSet, 128>
    requires { length sets.now ≡ MAX_LABELS }
    ensures count { length result.items ≡ MAX_LABELS }
    ensures kept { AreKept sets.now kept result.items }
{
    let mut left = ArrayVec::new();
    for label in 0..MAX_LABELS {
        left.push(kept_with(sets[label as usize], label, kept));
    }
    left
}

/// The greatest trimmed parts of the sets. It passes the configurations once for each round that takes labels away, and once more.
pub fn trimmed_parts(problem: &Problem, sets: ArrayVec<LabelSet, 128>) -> ArrayVec<LabelSet, 128>
    requires count { length sets.items ≡ MAX_LABELS }
    requires apart { AreApart sets.items }
    ensures count { length result.items ≡ MAX_LABELS }
    ensures trimmed { AreTrimmed (unnamed problem.now) sets.items result.items }
{
    let mut left = sets;
    'rounds: loop {
        let active = standing(problem.active(), left.as_slice());
        let passive = standing(problem.passive(), left.as_slice());
        let fewer = kept_of(left.as_slice(), active.meet(passive));
        if is_within(left.as_slice(), fewer.as_slice()) {
            return left;
        }
        left = fewer;
    }
}

// The labels below the number.
fn labels_below(n: usize) -> LabelSet
    requires { n ≤ MAX_LABELS }
    ensures { (label : ℕ) → IsIn label result ↔ (label < n) }
{
    let mut set = LabelSet::empty();
    for label in 0..n {
        set = set.insert(label as u8);
    }
    set
}

/// The one set.
pub fn one_set(set: LabelSet) -> ArrayVec<LabelSet, 128>
    ensures count { length result.items ≡ MAX_LABELS }
    ensures one { (x y : ℕ) → Relates result.items x y ↔ (IsIn x set × IsIn y set) }
{
    let _count = set.count();
    let mut sets = ArrayVec::new();
    for label in 0..MAX_LABELS {
        sets.push(kept_with(set, label, set));
    }
    sets
}

/// The greatest trimmed part of the set of all labels of the problem.
pub fn trimmed_whole(problem: &Problem) -> ArrayVec<LabelSet, 128>
    ensures count { length result.items ≡ MAX_LABELS }
    ensures problem { IsProblem (unnamed problem.now) }
    ensures whole { (x y : ℕ) → Relates result.items x y ↔ (IsIn x (trimmed_set (unnamed problem.now)) × IsIn y (trimmed_set (unnamed problem.now))) }
{
    trimmed_parts(problem, one_set(labels_below(problem.names().len())))
}

/// The greatest trimmed set of labels of the problem: each of its labels stands, on either side, in a configuration of its labels. It takes
/// no memory, and passes the configurations once for each round that takes labels away, and once more.
pub fn trimmed(problem: &Problem) -> LabelSet
    ensures { result ≡ trimmed_set (unnamed problem.now) }
{
    let sets = trimmed_whole(problem);
    let set = image(sets.as_slice(), labels_below(problem.names().len()));
    let _count = set.count();
    set
}
