//! What is derived from clauses.
ghost use Rattle.re_clauses.specs.Clauses.{IsSatisfiable};
ghost use Rattle.re_clauses.specs.Implied.{ImplyAll, Implies, Refute};
ghost use Rattle.std.specs.Prelude.{◌≡◌, true, IfOk, IfSome, OnOk, OnErr};

use crate::Clauses;
use crate::marks::{follow, mark_all};
use std::alloc::{AllocError, Global};
use std::marker::Model;

/// Clauses that are given, those that were learned from them, and the literals that they make false. Contracts see the given ones.
#[derive(Drop)]
pub(crate) struct Derivation<'a> {
    given: &'a Clauses,
    learned: Clauses,
    refuted: Vec<bool>,
    marks: Vec<bool>,
}

impl<'a> Model for Derivation<'a> {
    ghost use Rattle.re_clauses.specs.Implied.{ImplyAll, Refute};
    ghost use Rattle.std.specs.Prelude.{List, ℕ};

    ghost Value = { List (List ℕ) };

    ghost view = { λ d. d.given.now };

    ghost invariant = { λ d. ImplyAll d.given.now d.learned × Refute d.given.now d.refuted.items };
}

// The clause at this place: the given ones come first, and then the learned ones.
fn clause_at<'a>(given: &'a Clauses, learned: &'a Clauses, place: u32) -> Option<&'a [u32]>
    requires { ImplyAll given.now learned.now }
    ensures { IfSome result (λ clause. Implies given.now clause.now) }
{
    let place = place as usize;
    if place < given.len() {
        return Some(given.clause(place));
    }
    let place = place - given.len();
    if place < learned.len() {
        return Some(learned.clause(place));
    }
    None
}

// Whether the clause is implied, as is shown by the clauses of these places, the last first: with the literals of the clause false, each of
// them makes one more literal true, and one has none left. The marks of what is refuted go on in as many other marks.
fn is_implied(
    given: &Clauses,
    learned: &Clauses,
    refuted: &[bool],
    marks: &mut [bool],
    clause: &[u32],
    places: &[u32],
) -> bool
    requires learned { ImplyAll given.now learned.now }
    requires refuted { Refute given.now refuted.now }
    ensures { result ≡ true → Implies given.now clause.now }
{
    if marks.len() != refuted.len() {
        return false;
    }
    marks.copy_from_slice(refuted);
    mark_all(marks, clause);
    for place in places.iter().rev() {
        if let Some(reason) = clause_at(given, learned, *place) {
            if follow(marks, reason) {
                return true;
            }
        }
    }
    false
}

impl<'a> Derivation<'a> {
    /// Nothing is derived yet. There are so many literals.
    pub(crate) fn new(
        alloc: Global,
        given: &'a Clauses,
        literals: usize,
    ) -> Result<Derivation<'a>, AllocError>
        ensures { IfOk result (λ derivation. derivation ≡ given.now) }
    {
        Ok(Derivation {
            given,
            learned: Clauses::new(alloc),
            refuted: vec![in alloc; false; literals]?,
            marks: vec![in alloc; false; literals]?,
        })
    }

    /// Takes down what the clause at this place makes true, where all of its literals are refuted but one. Whether all are, so that nothing
    /// satisfies the given clauses.
    pub(crate) fn settle(&mut self, place: u32) -> bool
        ensures kept { self.new ≡ self.old }
        ensures clash { result ≡ true → IsSatisfiable self.old → ⊥ }
    {
        match clause_at(self.given, &self.learned, place) {
            Some(clause) => follow(self.refuted.as_mut_slice(), clause),
            None => false,
        }
    }

    /// Learns a clause that the clauses at these places imply, the last first. Whether they do so, step by step.
    pub(crate) fn learn(&mut self, clause: &[u32], places: &[u32]) -> Result<bool, AllocError>
        ensures kept { self.new ≡ self.old }
        ensures implied { IfOk result (λ learned. learned ≡ true → Implies self.old clause.now) }
    {
        if !is_implied(
            self.given,
            &self.learned,
            &self.refuted,
            self.marks.as_mut_slice(),
            clause,
            places,
        ) {
            return Ok(false);
        }
        self.learned.push(clause)?;
        Ok(true)
    }
}
