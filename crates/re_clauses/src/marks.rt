//! Marked literals.
ghost use Rattle.re_clauses.specs.Clauses.{Satisfies, holds, satisfies};
ghost use Rattle.re_clauses.specs.Implied.{AreFalse, negation, values_of};
ghost use Rattle.std.specs.Prelude.{◌≡◌, ℕ, Bool, true, false, slice_index_or, slice_set};

use crate::Clauses;

/// Whether the literal is marked. One beyond the marks isn't.
pub(crate) fn is_marked(marks: &[bool], literal: u32) -> bool
    ensures { result ≡ slice_index_or marks.now literal false }
{
    match marks.get(literal as usize) {
        Some(marked) => *marked,
        None => false,
    }
}

/// Marks the literal. One beyond the marks can't be.
pub(crate) fn mark(marks: &mut [bool], literal: u32)
    ensures { marks.new ≡ slice_set marks.old literal true }
{
    let place = literal as usize;
    if place < marks.len() {
        marks[place] = true;
    }
}

/// The literal of the same variable that is true where this one is false.
pub(crate) fn negated(literal: u32) -> u32
    ensures { result ≡ negation literal }
{
    if literal % 2 == 0 {
        literal + 1
    } else {
        literal - 1
    }
}

/// Marks each literal of the clause.
pub(crate) fn mark_all(marks: &mut [bool], clause: &[u32])
    ensures { (values : ℕ → Bool) → AreFalse values marks.old → satisfies values clause.now ≡ false → AreFalse values marks.new }
{
    for literal in clause {
        mark(marks, *literal);
    }
}

/// Where all literals of the clause are marked but one, marks its negation too: with the marked ones false, the clause makes that one true.
/// Whether all are marked, so that nothing makes the clause true. It takes time as the clause is long.
pub(crate) fn follow(marks: &mut [bool], clause: &[u32]) -> bool
    ensures keeps { (values : ℕ → Bool) → AreFalse values marks.old → satisfies values clause.now ≡ true → AreFalse values marks.new }
    ensures clash { result ≡ true → (values : ℕ → Bool) → AreFalse values marks.old → satisfies values clause.now ≡ false }
{
    let mut left: Option<u32> = None;
    for literal in clause {
        if !is_marked(marks, *literal) {
            if left.is_some() {
                return false;
            }
            left = Some(*literal);
        }
    }
    match left {
        None => true,
        Some(literal) => {
            mark(marks, negated(literal));
            false
        }
    }
}

/// Whether the literal is true of the values by which a variable holds where its literal is marked.
fn is_true(marks: &[bool], literal: u32) -> bool
    ensures { result ≡ holds (values_of marks.now) literal }
{
    if literal % 2 == 0 {
        is_marked(marks, literal)
    } else {
        !is_marked(marks, literal - 1)
    }
}

/// Whether these values satisfy the clause.
fn is_satisfied(marks: &[bool], clause: &[u32]) -> bool
    ensures { result ≡ satisfies (values_of marks.now) clause.now }
{
    clause.iter().any(|literal| is_true(marks, *literal))
}

/// Whether these values satisfy all of the clauses, told by a look at each of them.
pub(crate) fn satisfy_all(marks: &[bool], clauses: &Clauses) -> bool
    ensures { result ≡ true → Satisfies (values_of marks.now) clauses.now }
{
    for place in 0..clauses.len() {
        if !is_satisfied(marks, clauses.clause(place)) {
            return false;
        }
    }
    true
}
