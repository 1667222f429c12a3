//! Tables of the answers of an algorithm.
ghost use Rattle.re_algo.specs.Tables.{IsTable, built_table, given};
ghost use Rattle.re_laws.specs.Shown.{tree_of_view};
ghost use Rattle.re_laws.specs.Trees.{IsView};
ghost use Rattle.std.specs.Prelude.{◌≡◌, ◌≤◌, ◌↔◌, IfSome, IsSome};

use crate::answers::all_have;
use crate::counting::view_count;
use crate::placing::view_place;
use re_labels::{Degrees, PortLabels, Side};
use re_laws::{View, is_view};
use std::marker::Model;

/// An algorithm of some number of rounds, written out: the degrees, that number, which is the radius of the views, and for each
/// active view of that radius, in the order of `re_laws::all_views`, the labels that the node outputs. Contracts see it as a
/// record of these, and `re_laws` as a list of views with their labels.
#[derive(Drop)]
pub struct Table {
    degrees: Degrees,
    radius: u8,
    answers: Vec<PortLabels>,
}

impl Model for Table {
    ghost use Rattle.re_algo.specs.Tables.{AnswerTable, IsTable};

    ghost Value = { AnswerTable };

    ghost view = { λ t. record { degrees = t.degrees; radius = t.radius; answers = t.answers.items } };

    ghost invariant = { λ t. IsTable (record { degrees = t.degrees; radius = t.radius; answers = t.answers.items }) };
}

impl Table {
    /// The table of these answers, one for each active view of the radius in the order of all views. The degrees are from 2 to 6.
    /// None exactly where there are more views than `re_algo::MAX_VIEWS`, another number of answers, or an answer has another
    /// number of labels than active nodes have ports. It takes no memory.
    pub fn build(degrees: Degrees, radius: u8, answers: Vec<PortLabels>) -> Option<Table>
        requires active_least { 2 ≤ degrees.active }
        requires active_most { degrees.active ≤ 6 }
        requires passive_least { 2 ≤ degrees.passive }
        requires passive_most { degrees.passive ≤ 6 }
        ensures { result ≡ built_table degrees radius answers.items }
    {
        let count = view_count(degrees, Side::Active, radius)?;
        if answers.len() != count as usize {
            return None;
        }
        if !all_have(answers.as_slice(), degrees.active) {
            return None;
        }
        Some(Table {
            degrees,
            radius,
            answers,
        })
    }

    /// The degrees of the nodes.
    pub fn degrees(&self) -> Degrees
        ensures degrees { result ≡ self.now.degrees }
        ensures table { IsTable self.now }
    {
        self.degrees
    }

    /// The radius of the views: the number of rounds.
    pub fn radius(&self) -> u8
        ensures radius { result ≡ self.now.radius }
        ensures table { IsTable self.now }
    {
        self.radius
    }

    /// The answers, in the order of all views.
    pub fn answers(&self) -> &[PortLabels]
        ensures answers { result.now ≡ self.now.answers }
        ensures table { IsTable self.now }
    {
        self.answers.as_slice()
    }

    /// What an active node with this view outputs, or None exactly where this isn't an active view of the table's radius. It takes
    /// no memory, and goes once over the view: its back ports in preorder are the digits of its place.
    pub fn answer(&self, view: &View<()>) -> Option<&PortLabels>
        ensures view { IsSome result ↔ IsView self.now.degrees.active self.now.degrees.passive self.now.radius (tree_of_view view.now) }
        ensures labels { IfSome result (λ labels. labels.now ≡ given self.now (tree_of_view view.now)) }
    {
        if !is_view(view, self.degrees, Side::Active, self.radius) {
            return None;
        }
        self.answers
            .get(view_place(view, self.degrees, Side::Active))
    }
}
