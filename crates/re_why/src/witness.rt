//! Witnesses: what shows that a clause of a certificate fails.
ghost use Rattle.std.specs.Prelude.{◌≡◌, ◌≤◌, length};

use arrayvec::ArrayVec;
use re_labels::{Config, LabelSet, PortLabels, Row};
use re_problem::MapVerdict;
use std::marker::Model;

/// Up to 6 sets of labels, in an order of their own. Contracts see the list of them.
#[derive(Drop)]
pub struct PortSets {
    held: ArrayVec<LabelSet, 6>,
}

impl Model for PortSets {
    ghost use Rattle.std.specs.Prelude.{List, ℕ};

    ghost Value = { List (List ℕ) };

    ghost view = { λ p. p.held.items };
}

impl PortSets {
    /// These sets.
    pub fn new(sets: &[LabelSet]) -> PortSets
        requires { length sets.now ≤ 6 }
        ensures { result ≡ sets.now }
    {
        let mut held = ArrayVec::new();
        for set in sets {
            held.push(*set);
        }
        PortSets { held }
    }

    /// The sets, in order.
    pub fn sets(&self) -> &[LabelSet]
        ensures { result.now ≡ self.now }
    {
        self.held.as_slice()
    }
}

/// What shows that a clause fails: in a step from one problem to the next, at the end, or at the way back. Rows, entries, pairs and
/// sets are named by their places, from 0.
#[derive(Drop)]
pub enum Witness {
    /// The active and the passive degree of the next problem, which aren't those of the problem before, exchanged.
    Degrees(u8, u8),
    /// A row, and a choice of one label of each of its sets that is no passive configuration.
    BadRow(usize, PortLabels),
    /// A good row, the place of a set in it, and a label that can be added to the set so that the row stays good.
    Extends(usize, usize, u8),
    /// A row that isn't before the one behind it.
    RowOrder(usize),
    /// There are more maximal rows than a certificate may have.
    ManyRows,
    /// A maximal row that isn't there.
    MissingRow(Row),
    /// An entry whose set isn't before that of the one behind it.
    SetOrder(usize),
    /// A set of a row that no entry has.
    MissingSet(LabelSet),
    /// A set of an entry that is in no row.
    ForeignSet(LabelSet),
    /// There are not as many images as rows.
    ImageCount,
    /// A row, and its image, which is no active configuration of the next problem.
    LostRow(usize, Config),
    /// An active configuration, sets from which it can be chosen, and labels that these sets become, which are no passive configuration
    /// of the next problem.
    LostChoice(Config, PortSets, PortLabels),
    /// An entry whose label isn't below that of the one behind it.
    LabelOrder(usize),
    /// A label of the next problem that no entry has.
    MissingLabel(u8),
    /// A label whose entry has an empty set.
    EmptySet(u8),
    /// An active configuration of the next problem, the sets of its labels, and a choice of one label of each that is no passive
    /// configuration.
    BadSets(Config, PortSets, PortLabels),
    /// A passive configuration of the next problem, and the sets of its labels, from which no active configuration can be chosen.
    ShutSets(Config, PortSets),
    /// An active configuration from whose labels every multiset is a passive configuration.
    Fit(Config),
    /// There is no active configuration.
    NoActive,
    /// No active configuration is such a fit; the first one, and labels of it that are no passive configuration.
    NoFit(Config, PortLabels),
    /// A pair whose first label isn't below that of the one behind it.
    PairOrder(usize),
    /// A label of the last problem that no pair has.
    MissingPair(u8),
    /// The first violation of the renaming.
    Renaming(MapVerdict),
}
