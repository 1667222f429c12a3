//! Whether clauses can be satisfied.
ghost use Rattle.re_clauses.specs.Clauses.{IsSatisfiable};
ghost use Rattle.std.specs.Prelude.{◌≡◌, IfOk};

use crate::Clauses;
use crate::derivation::Derivation;
use crate::marks::satisfy_all;
use crate::numbers::NONE;
use crate::search::Search;
use std::alloc::{AllocError, Global};

/// What a search has found out.
#[derive(Clone, Copy, Debug, PartialEq, Eq)]
pub enum Answer {
    /// There are values that satisfy all clauses.
    Satisfiable,
    /// No values do.
    Unsatisfiable,
    /// The search has ended before it knew.
    Untold,
}

// Takes down the literals that are true by no decision, from this one on. How many there are.
fn settle_all(derivation: &mut Derivation, search: &Search, from: usize) -> usize
    ensures { derivation.new ≡ derivation.old }
{
    let end = search.trail().settled();
    for at in from..end {
        let literal = search.trail().literal(at);
        let _ = derivation.settle(search.trail().reason_of(literal));
    }
    end
}

/// Whether all of the clauses can be satisfied. The search decides on the first so many variables, the most active one first, and on others
/// only when these are told. It learns a clause from each conflict, of which it takes so many before it gives up.
///
/// It keeps some numbers for each variable up to the greatest one, each literal of the clauses once more, and each learned clause: so its memory
/// grows with the greatest variable, too.
pub fn satisfy(
    alloc: Global,
    clauses: &Clauses,
    first: u32,
    conflicts: u32,
) -> Result<Answer, AllocError>
    ensures no { IfOk result (λ answer. answer ≡ Answer.Unsatisfiable → IsSatisfiable clauses.now → ⊥) }
    ensures yes { IfOk result (λ answer. answer ≡ Answer.Satisfiable → IsSatisfiable clauses.now) }
{
    let mut search = Search::new(alloc, clauses, first)?;
    let mut derivation = Derivation::new(alloc, clauses, search.trail().truths().len())?;
    let mut settled = 0;
    for _ in 0..conflicts {
        let clash = search.next_conflict()?;
        if clash == NONE {
            if satisfy_all(search.trail().truths(), clauses) {
                return Ok(Answer::Satisfiable);
            }
            break;
        }
        settled = settle_all(&mut derivation, &search, settled);
        if search.trail().level() == 0 {
            if derivation.settle(clash) {
                return Ok(Answer::Unsatisfiable);
            }
            break;
        }
        search.analyse(clash)?;
        if !derivation.learn(search.clause(), search.places())? {
            break;
        }
        search.jump()?;
    }
    Ok(Answer::Untold)
}
