//! A table of clauses.
ghost use Rattle.std.specs.Prelude.{◌≡◌, ◌==◌, ◌<◌, ◌≤◌, ◌++◌, ◌∷◌, [], OnErr, OnOk, length, slice_index_or, slice_range};

use std::alloc::{AllocError, Global};
use std::marker::Model;

/// Clauses, in the order in which they were put in. Contracts see the list of them, each as the list of its literals: 2 v says that the
/// variable v holds, 2 v + 1 that it doesn't. The literals stand one behind the other, with where each clause ends.
#[derive(Drop)]
pub struct Clauses {
    literals: Vec<u32>,
    ends: Vec<usize>,
}

impl Model for Clauses {
    ghost use Rattle.re_clauses.specs.Tables.{AreEnds, pieces};
    ghost use Rattle.std.specs.Prelude.{List, ℕ, length};

    ghost Value = { List (List ℕ) };

    ghost view = { λ c. pieces c.literals.items 0 c.ends.items };

    ghost invariant = { λ c. AreEnds 0 c.ends.items (length c.literals.items) };
}

// Where the piece begins that ends at this place of the ends: where the one before it ends.
fn start_of(ends: &[usize], place: usize) -> usize
    requires { place < length ends.now }
    ensures { result ≡ slice_index_or (0 ∷ ends.now) place 0 }
{
    if place == 0 { 0 } else { ends[place - 1] }
}

// A part of the literals.
fn piece(all: &[u32], start: usize, end: usize) -> &[u32]
    requires order { start ≤ end }
    requires inside { end ≤ length all.now }
    ensures { result.now ≡ slice_range all.now start end }
{
    &all[start..end]
}

impl Clauses {
    /// No clause.
    pub fn new(alloc: Global) -> Clauses
        ensures { result ≡ [] }
    {
        Clauses {
            literals: Vec::new(alloc),
            ends: Vec::new(alloc),
        }
    }

    /// How many clauses there are.
    pub fn len(&self) -> usize
        ensures { result ≡ length self.now }
    {
        self.ends.as_slice().len()
    }

    /// Whether there is no clause.
    pub fn is_empty(&self) -> bool
        ensures { result ≡ (length self.now == 0) }
    {
        self.ends.as_slice().is_empty()
    }

    /// The literals of the clause at this place.
    pub fn clause(&self, place: usize) -> &[u32]
        requires { place < length self.now }
        ensures { result.now ≡ slice_index_or self.now place [] }
    {
        let start = start_of(self.ends.as_slice(), place);
        let end = self.ends[place];
        piece(self.literals.as_slice(), start, end)
    }

    /// One more clause, behind the others. Without memory for it the clauses stay as they are.
    pub fn push(&mut self, clause: &[u32]) -> Result<(), AllocError>
        ensures pushed { OnOk result (self.new ≡ self.old ++ clause.now ∷ []) }
        ensures kept { OnErr result (self.new ≡ self.old) }
    {
        let before = self.literals.len();
        self.literals.extend_from_slice(clause)?;
        let end = self.literals.as_slice().len();
        match self.ends.push(end) {
            Ok(()) => Ok(()),
            Err(_) => {
                self.literals.truncate(before);
                Err(AllocError)
            }
        }
    }
}
