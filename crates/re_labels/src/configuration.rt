//! Configurations.
ghost use Rattle.re_labels.specs.Configs.{IsConfig, image_of, replaced, sorted, support_of};
ghost use Rattle.std.specs.Cmp.{on_equiv, on_per, on_po, on_total, partial_equiv_from_equiv};
ghost use Rattle.std.specs.Cmp.Lexicographic.{nat_list_cmp_total, nat_list_eq_equiv, pointwise, slice_cmp, texts_po, texts_ties};
ghost use Rattle.std.specs.List.{AllByRecursion, position};
ghost use Rattle.std.specs.Ordering.{nat_cmp};
ghost use Rattle.re_labels.specs.Lists.{IsRising};
ghost use Rattle.std.specs.Prelude.{◌<◌, ◌≡◌, ◌≤◌, ◌↔◌, ◌+◌, ◌==◌, ◌++◌, ◌∷◌, [], Contains, IsTrue, IfSome, IsSome, Some, length, nat_eq, refl, take};

use crate::MAX_LABELS;
use crate::label_set::LabelSet;
use arrayvec::ArrayVec;
use std::alloc::AllocError;
use std::cmp::Ordering;
use std::marker::Model;

/// A configuration of 2 to 6 labels below `MAX_LABELS`, in eight bytes, which a processor moves at once. Contracts see it as the
/// ascending list of its labels.
#[derive(Drop, Debug)]
pub struct Config {
    held: [u8; 6],
    count: u16,
}

impl Model for Config {
    ghost use Rattle.re_labels.specs.Configs.{IsConfig};
    ghost use Rattle.re_labels.specs.declared.TheConstants.{MAX_LABELS};
    ghost use Rattle.std.specs.Prelude.{List, ℕ, ◌≤◌, take};

    ghost Value = { List ℕ };

    ghost view = { λ c. take c.count c.held };

    ghost invariant = { λ c. (2 ≤ c.count) × (c.count ≤ 6) × IsConfig c.count MAX_LABELS (take c.count c.held) };
}

impl Clone for Config {
    fn clone(&self) -> Result<Config, AllocError>
        ensures { result ≡ Ok self.now }
    {
        Ok(self.copy())
    }
}

impl PartialEq for Config {
    ghost eq = { λ c d. pointwise nat_eq c d };

    ghost laws = { partial_equiv_from_equiv nat_list_eq_equiv };

    fn eq(&self, other: &Self) -> bool {
        self.labels() == other.labels()
    }
}

impl Eq for Config {
    ghost laws = { nat_list_eq_equiv };
}

impl PartialOrd for Config {
    ghost partial_cmp = { λ c d. Some (slice_cmp nat_cmp c d) };

    ghost laws = { texts_po };

    fn partial_cmp(&self, other: &Self) -> Option<Ordering> {
        Some(self.cmp(other))
    }
}

/// Configurations are in the lexicographic order of their labels.
impl Ord for Config {
    ghost cmp = { λ c d. slice_cmp nat_cmp c d };

    ghost total = { nat_list_cmp_total };

    ghost matches_partial_cmp = { λ c d. refl };

    ghost matches_eq = { λ c d. texts_ties c d };

    fn cmp(&self, other: &Self) -> Ordering {
        compared(self.labels(), other.labels())
    }
}

// How the labels stand to each other in lexicographic order.
fn compared(labels: &[u8], others: &[u8]) -> Ordering
    ensures { result ≡ slice_cmp nat_cmp labels.now others.now }
{
    let [label, labels @ ..] = labels else {
        return if others.is_empty() {
            Ordering::Equal
        } else {
            Ordering::Less
        };
    };
    let [other, others @ ..] = others else {
        return Ordering::Greater;
    };
    match label.cmp(other) {
        Ordering::Equal => compared(labels, others),
        order => order,
    }
}

/// The first place of the label.
fn place_of_label(labels: &[u8], label: u8) -> Option<usize>
    ensures held { IsSome result ↔ Contains labels.now label }
    ensures place { result ≡ position (λ x. x == label) labels.now }
{
    labels.iter().position(|x| *x == label)
}

// An array that begins with the labels.
fn filled(labels: &[u8]) -> [u8; 6]
    requires { length labels.now ≤ 6 }
    ensures { take (length labels.now) result ≡ labels.now }
{
    let mut held = [0; 6];
    for place in 0..6 {
        if place < labels.len() {
            held[place] = labels[place];
        }
    }
    held
}

// The configuration of these labels and one more, by way of an array in memory.
fn of_unordered(labels: &[u8], last: u8) -> Config
    requires one { 1 ≤ length labels.now }
    requires five { length labels.now ≤ 5 }
    requires below { AllByRecursion (λ x. x < MAX_LABELS) labels.now }
    requires last { last < MAX_LABELS }
    ensures { result ≡ sorted (labels.now ++ last ∷ []) }
{
    let mut held = filled(labels);
    held[labels.len()] = last;
    Config::from_labels(&held[..labels.len() + 1])
}

// The configuration of the first labels, which ascend.
fn of_ascending(held: [u8; 6], count: u16) -> Config
    requires two { 2 ≤ count }
    requires six { count ≤ 6 }
    requires below { AllByRecursion (λ x. x < MAX_LABELS) (take count held) }
    requires rises { IsRising (λ x y. x ≤ y) (take count held) }
    ensures { result ≡ sorted (take count held) }
{
    Config { held, count }
}

// Whether no label is below the one before it.
fn are_ascending(labels: &[u8]) -> bool
    ensures { IsTrue result → IsRising (λ x y. x ≤ y) labels.now }
{
    for place in 1..labels.len() {
        if labels[place] < labels[place - 1] {
            return false;
        }
    }
    true
}

// Whether no label is below the one before it, and one more isn't below the last one.
fn ascend_with(labels: &[u8], last: u8) -> bool
    requires { 1 ≤ length labels.now }
    ensures { IsTrue result → IsRising (λ x y. x ≤ y) (labels.now ++ last ∷ []) }
{
    are_ascending(labels) && labels[labels.len() - 1] <= last
}

impl Config {
    /// The configuration of these labels, in any order. It costs least where they ascend.
    pub fn from_labels(labels: &[u8]) -> Config
        requires two { 2 ≤ length labels.now }
        requires six { length labels.now ≤ 6 }
        requires below { AllByRecursion (λ x. x < MAX_LABELS) labels.now }
        ensures { result ≡ sorted labels.now }
    {
        if are_ascending(labels) {
            return Config {
                held: filled(labels),
                count: labels.len() as u16,
            };
        }
        let mut held: ArrayVec<u8, 6> = ArrayVec::new();
        for label in labels {
            held.push(*label);
        }
        held.sort_unstable();
        Config {
            held: filled(held.as_slice()),
            count: labels.len() as u16,
        }
    }

    /// The configuration of these labels, in any order, and one more. It costs least where they ascend.
    pub fn with_last(labels: &[u8], last: u8) -> Config
        requires one { 1 ≤ length labels.now }
        requires five { length labels.now ≤ 5 }
        requires below { AllByRecursion (λ x. x < MAX_LABELS) labels.now }
        requires last { last < MAX_LABELS }
        ensures { result ≡ sorted (labels.now ++ last ∷ []) }
    {
        let count = labels.len() + 1;
        if ascend_with(labels, last) {
            let mut held = filled(labels);
            held[labels.len()] = last;
            return of_ascending(held, count as u16);
        }
        of_unordered(labels, last)
    }

    /// Its labels, in ascending order.
    pub fn labels(&self) -> &[u8]
        ensures labels { result.now ≡ self.now }
        ensures two { 2 ≤ length self.now }
        ensures six { length self.now ≤ 6 }
        ensures config { IsConfig (length self.now) MAX_LABELS self.now }
    {
        &self.held[..self.count as usize]
    }

    /// The same configuration. It takes no memory.
    pub fn copy(&self) -> Config
        ensures { result ≡ self.now }
    {
        Config {
            held: self.held,
            count: self.count,
        }
    }

    /// The set of its labels.
    pub fn support(&self) -> LabelSet
        ensures { result ≡ support_of self.now }
    {
        let labels = self.labels();
        let mut support = LabelSet::empty();
        for label in labels {
            support = support.insert(*label);
        }
        support
    }

    /// The configuration with one label in place of another one, or None exactly where this one isn't in it.
    pub fn replace_one(&self, from: u8, to: u8) -> Option<Config>
        requires { to < MAX_LABELS }
        ensures held { IsSome result ↔ Contains self.now from }
        ensures replaced { IfSome result (λ config. config ≡ sorted (replaced from to self.now)) }
    {
        let place = place_of_label(self.labels(), from)?;
        let mut held = self.held;
        held[place] = to;
        Some(Config::from_labels(&held[..self.count as usize]))
    }

    /// The configuration of the images of its labels, where `images` has those of all labels in order.
    pub fn image(&self, images: &[u8]) -> Config
        requires known { AllByRecursion (λ x. x < length images.now) self.now }
        requires below { AllByRecursion (λ x. x < MAX_LABELS) images.now }
        ensures { result ≡ image_of images.now self.now }
    {
        let mut held: ArrayVec<u8, 6> = ArrayVec::new();
        for label in self.labels() {
            held.push(images[*label as usize]);
        }
        Config::from_labels(held.as_slice())
    }
}
