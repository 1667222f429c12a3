//! The labels of a node by port.
ghost use Rattle.re_labels.specs.PortLabels.{port_labels};
ghost use Rattle.std.specs.Prelude.{◌≡◌, ◌≤◌, length};

use arrayvec::ArrayVec;
use std::marker::Model;

/// The labels that a node gives to its edges, 2 to 6 of them, by port. Contracts see it as their list, that of port 1 first.
#[derive(Drop, Debug)]
pub struct PortLabels {
    held: ArrayVec<u8, 6>,
}

impl Model for PortLabels {
    ghost use Rattle.std.specs.Prelude.{List, ℕ, ◌≤◌, length};

    ghost Value = { List ℕ };

    ghost view = { λ p. p.held.items };

    ghost invariant = { λ p. (2 ≤ length p.held.items) × (length p.held.items ≤ 6) };
}

impl PortLabels {
    /// These labels by port, or None exactly where they aren't 2 to 6.
    pub fn new(labels: &[u8]) -> Option<PortLabels>
        ensures { result ≡ port_labels labels.now }
    {
        if labels.len() < 2 {
            return None;
        }
        if labels.len() > 6 {
            return None;
        }
        let mut held = ArrayVec::new();
        for label in labels {
            held.push(*label);
        }
        Some(PortLabels { held })
    }

    /// The labels, that of port 1 first.
    pub fn labels(&self) -> &[u8]
        ensures labels { result.now ≡ self.now }
        ensures two { 2 ≤ length self.now }
        ensures six { length self.now ≤ 6 }
    {
        self.held.as_slice()
    }
}
