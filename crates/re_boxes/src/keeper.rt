//! What keeps rows while a search goes on.
ghost use Rattle.re_boxes.specs.Growing.{IsLonger};
ghost use Rattle.re_boxes.specs.Boxes.{IsStrength};
ghost use Rattle.re_boxes.specs.HeldStrength.{ups_in};
ghost use Rattle.re_boxes.specs.Sets.{AreSets};
ghost use Rattle.re_labels.specs.Constraints.{Constraint};
ghost use Rattle.re_labels.specs.GoodRows.{IsDominated, IsGood};
ghost use Rattle.std.specs.Prelude.{◌≡◌, ◌≤◌, ℕ, true, IfErr, List, OnOk, length};

use crate::strength::Strength;
use re_labels::{Constraint, LabelSet};

/// A list of rows that a search consults, and that is to dominate all good sets which the search finds. It only grows.
pub trait Keeper {
    /// Why good sets are left without a row that dominates them.
    type Refusal;

    /// The rows that are kept.
    ghost rows: { Self → List (List (List ℕ)) };

    /// How many rows are kept at most.
    ghost most: { Self → ℕ };

    /// What has to hold so that good sets of a constraint, of labels below a number, can be settled.
    ghost serves: { Self → Constraint → ℕ → Type 0 };

    /// What a refusal tells of the constraint and the number of labels.
    ghost tells: { Self → Constraint → ℕ → Self.Refusal → Type 0 };

    /// Whether a kept row was seen to dominate the sets. One that dominates them may be overlooked.
    fn sees_dominated(&self, sets: &[LabelSet]) -> bool
        requires { length sets.now ≤ 6 }
        ensures { result ≡ true → IsDominated (rows self.now) sets.now };

    /// A kept row dominates these good sets then, or they are refused.
    fn settle(
        &mut self,
        constraint: &Constraint,
        strength: &Strength,
        sets: &[LabelSet],
    ) -> Result<(), Self::Refusal>
        requires strong { IsStrength constraint.now (ups_in strength.now.ups.items) }
        requires serves { serves self.old constraint.now strength.now.labels }
        requires good { IsGood constraint.now sets.now }
        requires sets { AreSets strength.now.labels sets.now }
        ensures serves { OnOk result (serves self.new constraint.now strength.now.labels) }
        ensures dominated { OnOk result (IsDominated (rows self.new) sets.now) }
        ensures refused { IfErr result (tells self.new constraint.now strength.now.labels) }
        ensures longer { IsLonger (rows self.old) (rows self.new) }
        ensures most { most self.new ≡ most self.old };
}
