//! Lines.
ghost use Rattle.std.specs.Prelude.{◌≡◌, ◌≤◌, List, length, ℕ};

use arrayvec::ArrayVec;
use re_labels::LabelSet;
use std::marker::Model;

/// A line: at most 6 sets of labels, in some order; the empty set may stand in it. Contracts see it as the list of its sets.
#[derive(Drop)]
pub struct SetLine {
    held: ArrayVec<LabelSet, 6>,
}

impl Model for SetLine {
    ghost use Rattle.std.specs.Prelude.{List, ℕ, ◌≤◌, length};

    ghost Value = { List (List ℕ) };

    ghost view = { λ r. r.held.items };

    ghost invariant = { λ r. length r.held.items ≤ 6 };
}

impl SetLine {
    /// The line of these sets.
    pub fn from_sets(sets: &[LabelSet]) -> SetLine
        requires { length sets.now ≤ 6 }
        ensures { result ≡ sets.now }
    {
        let mut held = ArrayVec::new();
        for set in sets {
            held.push(*set);
        }
        SetLine { held }
    }

    /// Its sets, in its order.
    pub fn sets(&self) -> &[LabelSet]
        ensures sets { result.now ≡ self.now }
        ensures six { length self.now ≤ 6 }
    {
        self.held.as_slice()
    }

    /// The same line. It takes no memory.
    pub fn copy(&self) -> SetLine
        ensures { result ≡ self.now }
    {
        SetLine::from_sets(self.sets())
    }
}
