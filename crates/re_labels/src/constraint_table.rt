//! A constraint: its configurations as the leaves of a prefix tree.
ghost use Rattle.re_labels.specs.Lists.{IsBefore, IsRising, place_of};
ghost use Rattle.re_labels.specs.ListSets.{list_set, with_list};
ghost use Rattle.re_labels.specs.Sets.{has};
ghost use Rattle.re_labels.specs.Configs.{image_of};
ghost use Rattle.std.specs.List.Sorted.{IsPermutation};
ghost use Rattle.re_labels.specs.Constraints.{IsConstraint, images_of, with_each};
ghost use Rattle.re_labels.specs.GoodRows.{is_allowed};
ghost use Rattle.re_labels.specs.PrefixTrees.{IsPrefixTree, held_configs};
ghost use Rattle.std.specs.List.{AllByRecursion, list_any};
ghost use Rattle.std.specs.Prelude.{◌≡◌, ◌≤◌, ◌<◌, ◌+◌, ◌++◌, ◌↔◌, ℕ, List, [], length, slice_index_or, OnErr, OnOk, MatchResult, IsSome, IsTrue, IfOk, IfSome, insert, map, Contains};

use crate::configurations::{Configurations, walk_of};
use crate::drawing::draws_from;
use crate::prefix_tree::{
    Node, Trail, copied, is_held, labels_of, leaf_at, leaf_count, leaf_images, make_root, put,
    put_each, renumber_nodes,
};
use crate::{Config, LabelSet, MAX_LABELS, NoMemory, Row};
use std::alloc::Global;
use std::marker::Model;

/// The most configurations that a constraint holds.
pub const MAX_CONFIGURATIONS: usize = 1_048_576;

/// Why a configuration could not be added.
#[derive(Clone, Copy, Debug, PartialEq, Eq)]
pub enum InsertFault {
    /// `MAX_CONFIGURATIONS` others are held.
    TooManyConfigurations,
    /// There was no memory for one more.
    NoMemory,
}

/// The configurations that may stand around the nodes of one side: a degree from 2 to 6, and at most
/// `MAX_CONFIGURATIONS` configurations of that many labels in ascending order, each once. Contracts
/// see it as the degree and that list. It holds them as the leaves of a tree by their labels.
#[derive(Drop)]
pub struct Constraint {
    degree: u8,
    nodes: Vec<Node>,
    trail: Trail,
}

impl Model for Constraint {
    ghost use Rattle.re_labels.specs.Constraints.{Constraint as Configurations, IsConstraint};
    ghost use Rattle.re_labels.specs.declared.TheConstants.{MAX_LABELS};
    ghost use Rattle.re_labels.specs.declared.constraint_table.TheConstants.{MAX_CONFIGURATIONS};
    ghost use Rattle.std.specs.Prelude.{List, ℕ, ◌≤◌, length};

    ghost Value = { Configurations };

    ghost use Rattle.re_labels.specs.PrefixTrees.{IsTable, held_configs};

    ghost view = { λ c. record { degree = c.degree; configs = held_configs c.nodes.items } };

    ghost invariant = { λ c. IsTable c.degree MAX_CONFIGURATIONS c.nodes.items × IsConstraint MAX_LABELS (record { degree = c.degree; configs = held_configs c.nodes.items }) };
}

// The constraint of these configurations.
fn collected(alloc: Global, degree: u8, configs: &[Config]) -> Result<Constraint, NoMemory>
    requires least { 2 ≤ degree }
    requires most { degree ≤ 6 }
    requires fit { AllByRecursion (λ config. length config ≡ degree) configs.now }
    requires few { length configs.now ≤ MAX_CONFIGURATIONS }
    ensures degree { IfOk result (λ constraint. constraint.degree ≡ degree) }
    ensures configs { IfOk result (λ constraint. constraint.configs ≡ list_set configs.now) }
{
    let mut whole = Constraint::new(alloc, degree);
    for config in configs {
        match whole.insert(config.copy()) {
            Ok(_) => {}
            Err(InsertFault::NoMemory) => return Err(NoMemory),
            Err(InsertFault::TooManyConfigurations) => unreachable!(),
        }
    }
    Ok(whole)
}

impl Constraint {
    /// The constraint without configurations. It takes no memory.
    pub fn new(alloc: Global, degree: u8) -> Constraint
        requires least { 2 ≤ degree }
        requires most { degree ≤ 6 }
        ensures degree { result.degree ≡ degree }
        ensures empty { result.configs ≡ [] }
    {
        Constraint {
            degree,
            nodes: Vec::new(alloc),
            trail: Trail::default(),
        }
    }

    /// How many labels each configuration has.
    pub fn degree(&self) -> u8
        ensures degree { result ≡ self.now.degree }
        ensures constraint { IsConstraint MAX_LABELS self.now }
    {
        self.degree
    }

    /// The labels that stand in its configurations. It passes each node of the tree once.
    pub fn labels(&self) -> LabelSet
        ensures { (label : ℕ) → has result label ≡ list_any (λ config. has config label) self.now.configs }
    {
        labels_of(self.nodes.as_slice())
    }

    /// How many configurations it has.
    pub fn len(&self) -> usize
        ensures len { result ≡ length self.now.configs }
        ensures most { result ≤ MAX_CONFIGURATIONS }
        ensures constraint { IsConstraint MAX_LABELS self.now }
    {
        leaf_count(self.nodes.as_slice())
    }

    /// The nodes of its prefix tree, which `Branches` walks down.
    pub fn nodes(&self) -> &[Node]
        ensures tree { IsPrefixTree self.now.degree result.now }
        ensures configs { held_configs result.now ≡ self.now.configs }
    {
        self.nodes.as_slice()
    }

    /// The configuration at this place of the ascending list, where places count from 0. None exactly
    /// at and past `len`. It goes down the tree by the numbers of leaves, past at most as many siblings
    /// on each level as there are labels.
    pub fn get(&self, place: usize) -> Option<&Config>
        ensures within { IsSome result ↔ (place < length self.now.configs) }
        ensures config { IfSome result (λ config. config.now ≡ slice_index_or self.now.configs place []) }
    {
        if place >= self.len() {
            return None;
        }
        Some(leaf_at(self.nodes.as_slice(), self.degree, place))
    }

    /// Its configurations in ascending order. A walk over all of them costs about as much as they are many.
    pub fn configs(&self) -> Configurations<'_>
        ensures { result ≡ self.now.configs }
    {
        walk_of(self.nodes.as_slice(), self.degree)
    }

    /// Whether this is one of its configurations. It goes down the tree by its labels and stops at the
    /// first one that no configuration goes on with.
    pub fn contains(&self, config: &Config) -> bool
        ensures { IsTrue result ↔ Contains self.now.configs config.now }
    {
        self.contains_near(config, &mut Trail::default())
    }

    /// The same. The trail, which is left by an earlier call, says where to look first: where configurations are looked up one after
    /// another that are alike, most of them are found without a walk along siblings.
    pub fn contains_near(&self, config: &Config, trail: &mut Trail) -> bool
        ensures { IsTrue result ↔ Contains self.now.configs config.now }
    {
        config.labels().len() == self.degree as usize
            && is_held(self.nodes.as_slice(), config, trail)
    }

    /// One more configuration, which counts once; the answer says whether it is new. A configuration
    /// that is not held is refused with `TooManyConfigurations` exactly where `MAX_CONFIGURATIONS` are
    /// held. After a refusal nothing has changed. It goes down the tree by the labels, past at most as
    /// many siblings on each level as there are labels, adds a node for each label that is new on this
    /// way, and moves nothing.
    pub fn insert(&mut self, config: Config) -> Result<bool, InsertFault>
        requires { length config ≡ self.old.degree }
        ensures degree { self.new.degree ≡ self.old.degree }
        ensures configs { OnOk result (self.new.configs ≡ with_list self.old.configs config) }
        ensures is_new { IfOk result (λ is_new. IsTrue is_new ↔ (Contains self.old.configs config → ⊥)) }
        ensures full { (result ≡ Err InsertFault.TooManyConfigurations) ↔ ((length self.old.configs ≡ MAX_CONFIGURATIONS) × (Contains self.old.configs config → ⊥)) }
        ensures err { OnErr result (self.new ≡ self.old) }
    {
        let _labels = config.labels();
        if let Err(_) = make_root(&mut self.nodes, self.degree) {
            return Err(InsertFault::NoMemory);
        }
        put(&mut self.nodes, &config, &mut self.trail)
    }

    /// The configurations of these labels and one of the set more, in ascending order of that; each counts once. They are refused with
    /// `TooManyConfigurations` only where there would be more than `MAX_CONFIGURATIONS`, and always there unless memory runs out. After a
    /// refusal it has those of some first labels of the set besides what it had. Where they come behind all that begin with these
    /// labels, it goes down the tree once; else as `insert` does for each.
    pub fn insert_each(&mut self, labels: &[u8], lasts: LabelSet) -> Result<(), InsertFault>
        requires fit { length labels.now + 1 ≡ self.old.degree }
        requires below { AllByRecursion (λ label. label < MAX_LABELS) labels.now }
        ensures degree { self.new.degree ≡ self.old.degree }
        ensures configs { OnOk result (self.new.configs ≡ list_set (self.old.configs ++ with_each labels.now lasts)) }
        ensures full { (result ≡ Err InsertFault.TooManyConfigurations) → MAX_CONFIGURATIONS < length (list_set (self.old.configs ++ with_each labels.now lasts)) }
        ensures err { OnErr result ((begun rest : List ℕ) × (begun ++ rest ≡ lasts) × (self.new.configs ≡ list_set (self.old.configs ++ with_each labels.now begun))) }
    {
        let _count = lasts.count();
        if let Err(_) = make_root(&mut self.nodes, self.degree) {
            return Err(InsertFault::NoMemory);
        }
        put_each(&mut self.nodes, labels, lasts, &mut self.trail)
    }

    /// The same constraint in memory of its own.
    pub fn copy(&self) -> Result<Constraint, NoMemory>
        ensures { IfOk result (λ constraint. constraint ≡ self.now) }
    {
        let mut nodes = Vec::with_capacity(*self.nodes.allocator(), self.nodes.len())?;
        for node in &self.nodes {
            nodes.push(copied(node))?;
        }
        Ok(Constraint {
            degree: self.degree,
            nodes,
            trail: self.trail,
        })
    }

    /// The constraint with the images of the configurations, each once, where `images` has the images of
    /// all labels in order. They go in in the order of the leaves, or the other way round where that falls,
    /// so that most come right behind the one before where the images of the labels rise or fall.
    pub fn image(&self, images: &[u8]) -> Result<Constraint, NoMemory>
        requires known { AllByRecursion (AllByRecursion (λ label. label < length images.now)) self.now.configs }
        requires below { AllByRecursion (λ image. image < MAX_LABELS) images.now }
        ensures degree { IfOk result (λ constraint. constraint.degree ≡ self.now.degree) }
        ensures configs { IfOk result (λ constraint. constraint.configs ≡ images_of images.now self.now) }
    {
        let alloc = *self.nodes.allocator();
        let all = leaf_images(alloc, self.nodes.as_slice(), images)?;
        collected(alloc, self.degree, all.as_slice())
    }

    /// The constraint with the images of the configurations, where `images` has the images of all labels in rising order. It
    /// passes each node once, moves nothing and takes no memory.
    pub fn renumber(&mut self, images: &[u8])
        requires known { AllByRecursion (AllByRecursion (λ label. label < length images.now)) self.old.configs }
        requires below { AllByRecursion (λ image. image < MAX_LABELS) images.now }
        requires rises { IsRising (λ x y. x < y) images.now }
        ensures degree { self.new.degree ≡ self.old.degree }
        ensures configs { self.new.configs ≡ images_of images.now self.old }
    {
        renumber_nodes(self.nodes.as_mut_slice(), images);
    }

    /// Whether some choice of one label of each set of the row is a configuration. It takes no memory. It goes down the tree
    /// with the sets that are left, and leaves a branch as soon as its label is in none of them; it stops at the first
    /// configuration that fits.
    pub fn allows(&self, row: &Row) -> bool
        requires { length row.now ≡ self.now.degree }
        ensures { result ≡ is_allowed self.now row.now }
    {
        draws_from(self.nodes.as_slice(), row.sets())
    }
}
