//! Choices of one label of each set of a box: the place at which to part the box first, and whether a good row lacks a label of one.
ghost use Rattle.re_boxes.specs.Held.{AreHeldBeside};
ghost use Rattle.re_labels.specs.Rows.{IsChoice};
ghost use Rattle.re_labels.specs.Sets.{IsIn, IsLabelSet};
ghost use Rattle.re_boxes.specs.Parts.{IsPartCovered};
ghost use Rattle.re_labels.specs.Constraints.{Has};
ghost use Rattle.std.specs.List.{AllByRecursion};
ghost use Rattle.std.specs.Prelude.{◌≡◌, ◌≤◌, ◌<◌, [], ℕ, List, IfSome, MatchOption, length, slice_set, true, if◌then◌else◌};

use arrayvec::ArrayVec;
use re_labels::{Config, Constraint, LabelSet, MAX_LABELS, Trail};

// The labels of all the sets.
fn all_labels(sets: &[LabelSet]) -> LabelSet {
    let mut all = LabelSet::empty();
    for set in sets {
        all = all.union(*set);
    }
    all
}

/// The first place where a row may lack the label of the choice, but must have it at another place, or as many as there are places.
/// A row that lacks it there may well be good.
pub(crate) fn first_place(must: &[LabelSet], may: &[LabelSet], choice: &[u8]) -> usize
    requires must { length must.now ≡ length may.now }
    requires sets { AllByRecursion (IsLabelSet MAX_LABELS) may.now }
    requires choice { IsChoice choice.now may.now }
{
    let anywhere = all_labels(must);
    for place in 0..may.len() {
        let label = choice[place];
        if anywhere.has(label) && !must[place].has(label) {
            return place;
        }
    }
    may.len()
}

// The one label or the other.
fn either(first: bool, label: u8, other: u8) -> u8
    ensures { result ≡ (if first then label else other) }
{
    if first { label } else { other }
}

// The labels with this one at the place.
fn with_label(labels: &[u8], place: usize, label: u8) -> ArrayVec<u8, 6>
    requires { length labels.now ≤ 6 }
    ensures { result.items ≡ slice_set labels.now place label }
{
    let mut done = ArrayVec::new();
    for i in 0..labels.len() {
        done.push(either(i == place, label, labels[i]));
    }
    done
}

/// The least label of the set, and none where it is empty.
pub fn least_of(set: LabelSet) -> Option<u8>
    ensures { MatchOption result (set ≡ []) (λ label. IsIn label set × (label < MAX_LABELS)) }
{
    let _number = set.number();
    set.first()
}

// The only place where a row may lack the label of the choice, or how many places there are where a row has them all. None where it may
// lack more than one.
fn only_place(must: &[LabelSet], choice: &[u8]) -> Option<usize>
    requires even { length must.now ≡ length choice.now }
    requires below { AllByRecursion (λ label. label < MAX_LABELS) choice.now }
    ensures { IfSome result (λ place. AreHeldBeside place choice.now must.now) }
{
    let mut only = must.len();
    for place in 0..must.len() {
        if !must[place].has(choice[place]) {
            if only < must.len() {
                return None;
            }
            only = place;
        }
    }
    Some(only)
}

// Whether the choice is no configuration with any of these labels at the place.
fn are_all_bad(
    constraint: &Constraint,
    trail: &mut Trail,
    choice: &[u8],
    place: usize,
    labels: LabelSet,
) -> bool
    requires two { 2 ≤ length choice.now }
    requires six { length choice.now ≤ 6 }
    requires below { AllByRecursion (λ label. label < MAX_LABELS) choice.now }
    ensures { result ≡ true → (label : ℕ) → IsIn label labels → Has constraint.now (slice_set choice.now place label) → ⊥ }
{
    let Some(label) = least_of(labels) else {
        return true;
    };
    let other = with_label(choice, place, label);
    if constraint.contains_near(&Config::from_labels(other.as_slice()), trail) {
        return false;
    }
    are_all_bad(constraint, trail, choice, place, labels.remove(label))
}

/// Whether no good row of the box lacks a label of the choice, which is no configuration: one that has to have all but one of them
/// would make, with any label at the place of that one, no configuration. It looks up one configuration for each of these labels but
/// that of the choice, until it finds one.
pub(crate) fn none_lacks(
    constraint: &Constraint,
    must: &[LabelSet],
    may: &[LabelSet],
    choice: &[u8],
) -> bool
    requires two { 2 ≤ length may.now }
    requires six { length may.now ≤ 6 }
    requires must { length must.now ≡ length may.now }
    requires count { length may.now ≡ constraint.now.degree }
    requires sets { AllByRecursion (IsLabelSet MAX_LABELS) may.now }
    requires choice { IsChoice choice.now may.now }
    requires bad { Has constraint.now choice.now → ⊥ }
    ensures { result ≡ true → (ups : ℕ → List ℕ) (rows : List (List (List ℕ))) → IsPartCovered constraint.now ups rows must.now may.now choice.now 0 }
{
    let _degree = constraint.degree();
    let Some(place) = only_place(must, choice) else {
        return false;
    };
    if place >= may.len() {
        return true;
    }
    let others = may[place].remove(choice[place]);
    are_all_bad(constraint, &mut Trail::default(), choice, place, others)
}
