//! Labels that stand together in configurations.
ghost use Rattle.re_labels.specs.Configs.{support_of};
ghost use Rattle.re_flexible.specs.Families.{AreApart, AreJoins, AreOfOne, AreStanding};
ghost use Rattle.re_flexible.specs.Relations.{Relates, Stands};
ghost use Rattle.re_labels.specs.Sets.{IsIn};
ghost use Rattle.std.specs.List.{AllByRecursion};
ghost use Rattle.std.specs.Prelude.{◌≡◌, ◌<◌, ◌↔◌, ◌⊎◌, ℕ, IsTrue, length, slice_index_or};

use arrayvec::ArrayVec;
use re_labels::{Config, Constraint, LabelSet, MAX_LABELS};

// The labels at the other places.
fn others(labels: &[u8], place: usize) -> LabelSet
    requires { AllByRecursion (λ label. label < MAX_LABELS) labels.now }
    ensures { (y : ℕ) → IsIn y result ↔ ((j : ℕ) × (j < length labels.now) × (place ≡ j → ⊥) × (slice_index_or labels.now j 0 ≡ y)) }
{
    let mut set = LabelSet::empty();
    for other in 0..labels.len() {
        if place != other {
            set = set.insert(labels[other]);
        }
    }
    set
}

// Each of the labels leads to the others, too.
fn note(table: &mut [LabelSet], labels: &[u8])
    requires count { length table.old ≡ MAX_LABELS }
    requires below { AllByRecursion (λ label. label < MAX_LABELS) labels.now }
    ensures { (x y : ℕ) → Relates table.new x y ↔ (Relates table.old x y ⊎ Stands labels.now x y) }
{
    for place in 0..labels.len() {
        let label = labels[place] as usize;
        table[label] = table[label].union(others(labels, place));
    }
}

// The relation in which nothing leads anywhere.
fn nothing() -> ArrayVec<LabelSet, 128>
    ensures count { length result.items ≡ MAX_LABELS }
    ensures nothing { (x y : ℕ) → Relates result.items x y → ⊥ }
{
    let mut table = ArrayVec::new();
    for _label in 0..MAX_LABELS {
        table.push(LabelSet::empty());
    }
    table
}

// Whether the labels of the configuration are all in one set.
fn is_of_one(sets: &[LabelSet], config: &Config, labels: LabelSet) -> bool
    requires count { length sets.now ≡ MAX_LABELS }
    requires apart { AreApart sets.now }
    requires labels { labels ≡ support_of config.now }
    ensures { IsTrue result ↔ AreOfOne sets.now config.now }
{
    let first = config.labels()[0];
    labels.within(sets[first as usize])
}

/// For each label those with which it stands in a configuration of labels of its set, where a table has for each label the set that it is
/// in, or the empty one. It passes the configurations once.
pub fn joins(constraint: &Constraint, sets: &[LabelSet]) -> ArrayVec<LabelSet, 128>
    requires count { length sets.now ≡ MAX_LABELS }
    requires apart { AreApart sets.now }
    ensures count { length result.items ≡ MAX_LABELS }
    ensures joins { AreJoins constraint.now sets.now result.items }
{
    let _degree = constraint.degree();
    let mut table = nothing();
    for config in constraint.configs() {
        if is_of_one(sets, config, config.support()) {
            note(table.as_mut_slice(), config.labels());
        }
    }
    table
}

// The labels that are in some set.
fn labels_in(sets: &[LabelSet]) -> LabelSet
    requires { length sets.now ≡ MAX_LABELS }
    ensures { (x : ℕ) → IsIn x result ↔ Relates sets.now x x }
{
    let mut labels = LabelSet::empty();
    for label in 0..MAX_LABELS {
        if sets[label as usize].has(label) {
            labels = labels.insert(label);
        }
    }
    labels
}

/// The labels that stand in a configuration of labels of their set. It passes the configurations once, or fewer of them where all labels
/// stand in those.
pub fn standing(constraint: &Constraint, sets: &[LabelSet]) -> LabelSet
    requires count { length sets.now ≡ MAX_LABELS }
    requires apart { AreApart sets.now }
    ensures { AreStanding constraint.now sets.now result }
{
    let _degree = constraint.degree();
    let wanted = labels_in(sets);
    let mut all = LabelSet::empty();
    for config in constraint.configs() {
        let labels = config.support();
        if is_of_one(sets, config, labels) {
            all = all.union(labels);
            if wanted.within(all) {
                return all;
            }
        }
    }
    all
}
