//! Colours of the labels of a problem that no renaming changes.
ghost use Rattle.re_problem.specs.NamedProblems.{IsNamedProblem};
ghost use Rattle.re_shaping.specs.Colours.{colour_at, colours_by, config_number, first_colours, mark_of, next_colours, numbers_at, pairs_alike, refined, times_in, with_single};
ghost use Rattle.std.specs.Prelude.{◌≡◌, ◌==◌, ◌+◌, ◌%◌, ◌^◌, ◌≤◌, ℕ, EachIndex, count_by, length, slice_index};

use crate::mixed;
use arrayvec::ArrayVec;
use re_labels::{Config, Constraint, MAX_LABELS};
use re_problem::Problem;
use std::marker::Model;

/// A colour for each label of a problem. Contracts see it as their list, in the order of the labels.
#[derive(Drop)]
pub(crate) struct Colours {
    held: ArrayVec<u64, 128>,
}

impl Model for Colours {
    ghost use Rattle.re_labels.specs.declared.TheConstants.{MAX_LABELS};
    ghost use Rattle.std.specs.Prelude.{List, ℕ, ◌≤◌, length};

    ghost Value = { List ℕ };

    ghost view = { λ c. c.held.items };

    ghost invariant = { λ c. length c.held.items ≤ MAX_LABELS };
}

/// The colour that every label has at first.
pub(crate) const FIRST: u64 = 0x9E37_79B9_7F4A_7C15;

/// What tells active configurations from passive ones.
pub(crate) const ACTIVE: u64 = 0x1234_5678_9ABC_DEF1;

/// What tells passive configurations from active ones.
pub(crate) const PASSIVE: u64 = 0x0FED_CBA9_8765_4321;

/// What is added to the colour of a label that gets one of its own.
pub(crate) const SINGLED: u64 = 0x5555_3333_7777_1111;

// Adds the number to that of each label of the configuration, as often as it stands there.
fn add_config(sums: &mut [u64], config: &Config, number: u64)
    ensures { EachIndex sums.new (λ k. slice_index sums.new k % 2 ^ 64 ≡ (slice_index sums.old k + times_in config.now k number) % 2 ^ 64) }
{
    for label in config.labels() {
        let place = *label as usize;
        if place >= sums.len() {
            continue;
        }
        sums[place] = sums[place].wrapping_add(number);
    }
}

// How many labels have the colour.
fn count_of(all: &[u64], colour: u64) -> usize
    ensures { result ≡ count_by (λ other. other == colour) all.now }
{
    all.iter().filter(|other| **other == colour).count()
}

impl Colours {
    /// The colour of the label; 0 where there is no such one.
    pub(crate) fn of(&self, label: u8) -> u64
        ensures { result ≡ colour_at self.now label }
    {
        match self.held.as_slice().get(label as usize) {
            Some(colour) => *colour,
            None => 0,
        }
    }

    /// The colours, in the order of the labels.
    pub(crate) fn all(&self) -> &[u64]
        ensures all { result.now ≡ self.now }
        ensures most { length self.now ≤ MAX_LABELS }
    {
        self.held.as_slice()
    }

    /// A number of all colours, in whatever order they come.
    pub(crate) fn mark(&self) -> u64
        ensures { result ≡ mark_of self.now }
    {
        let mut mark: u64 = 0;
        for colour in self.all() {
            mark = mark.wrapping_add(mixed(*colour));
        }
        mark
    }

    // How many pairs of labels have one colour.
    fn pairs_alike(&self) -> usize
        ensures { result ≡ pairs_alike self.now }
    {
        let all = self.all();
        let mut pairs: usize = 0;
        for colour in all {
            pairs += count_of(all, *colour);
        }
        pairs
    }

    // A number of the configuration's colours.
    fn of_config(&self, config: &Config, side: u64) -> u64
        ensures { result ≡ config_number self.now side config.now }
    {
        let mut sum = side;
        for label in config.labels() {
            sum = sum.wrapping_add(mixed(self.of(*label)));
        }
        mixed(sum)
    }

    // Adds to each label's number that of each configuration in which it stands.
    fn add_constraint(&self, sums: &mut [u64], constraint: &Constraint, side: u64)
        ensures { EachIndex sums.new (λ k. slice_index sums.new k % 2 ^ 64 ≡ (slice_index sums.old k + numbers_at self.now side constraint.now k) % 2 ^ 64) }
    {
        for config in constraint.configs() {
            add_config(sums, config, self.of_config(config, side));
        }
    }

    // Each label's colour by its own and by those in its configurations.
    fn next(&self, problem: &Problem) -> Colours
        ensures { result ≡ next_colours problem.now self.now }
    {
        let mut sums = [0u64; 128];
        self.add_constraint(&mut sums, problem.active(), ACTIVE);
        self.add_constraint(&mut sums, problem.passive(), PASSIVE);
        let mut held = ArrayVec::new();
        for (label, colour) in self.all().iter().enumerate() {
            held.push(mixed(colour.wrapping_mul(3).wrapping_add(sums[label])));
        }
        Colours { held }
    }

    /// The colours that come of these where they are refined until no more labels get different ones, and at most so often. Each time
    /// costs a pass over all configurations.
    pub(crate) fn refined(self, problem: &Problem, times: u8) -> Colours
        ensures { result ≡ refined times problem.now self }
    {
        if times == 0 {
            return self;
        }
        let next = self.next(problem);
        if next.pairs_alike() < self.pairs_alike() {
            next.refined(problem, times - 1)
        } else {
            next
        }
    }

    /// The colours with one of its own for the label.
    pub(crate) fn with_single(&self, label: u8) -> Colours
        ensures { result ≡ with_single self.now label }
    {
        let mut held = ArrayVec::new();
        for (other, colour) in self.all().iter().enumerate() {
            let single = if other == label as usize { SINGLED } else { 0 };
            held.push(colour.wrapping_add(single));
        }
        Colours { held }
    }
}

// So many labels of the first colour.
fn alike(labels: usize) -> Colours
    requires { labels ≤ MAX_LABELS }
    ensures { result ≡ colours_by (λ label. FIRST) labels }
{
    let mut held = ArrayVec::new();
    for _label in 0..labels {
        held.push(FIRST);
    }
    Colours { held }
}

/// The colours of the labels of a problem.
pub(crate) fn first_colours(problem: &Problem) -> Colours
    ensures colours { result ≡ first_colours problem.now }
    ensures named { IsNamedProblem problem.now }
{
    alike(problem.names().len()).refined(problem, MAX_LABELS)
}
