//! Three rounds: clauses by which no sets at the meetings show them.
ghost use Rattle.re_given_words.specs.Three.{ShownByMeetings};
ghost use Rattle.re_given_words.specs.declared.two.Told.TheVariants.{Enough, TooFew};
ghost use Rattle.re_laws.specs.Algorithms.{Solvable};
ghost use Rattle.re_problem.specs.NamedProblems.{unnamed};
ghost use Rattle.std.specs.Prelude.{◌≡◌, IfOk, true};

use crate::asking::ask;
use crate::listing::multisets_of;
use crate::meetings::{choices_of, meetings_of, spot_ports};
use crate::stopping::TryFault;
use crate::two::Told;
use re_clauses::{Answer, satisfy};
use re_labels::NoMemory;
use re_problem::Problem;
use std::alloc::Global;

/// How many conflicts the search for sets that satisfy the clauses comes to at most.
const MAX_CONFLICTS: u32 = 20_000;

// Whether no sets at the meetings show three rounds, as far as the search tells.
fn are_refuted(alloc: Global, problem: &Problem) -> Result<bool, TryFault>
    ensures { IfOk result (λ refuted. refuted ≡ true → ShownByMeetings (unnamed problem.now) → ⊥) }
{
    let labels = problem.names().len() as u32;
    let size = problem.active().degree();
    let degree = problem.passive().degree();
    let types = multisets_of(alloc, size, degree)?;
    let types = types.as_slice();
    let ports = spot_ports(alloc, types)?;
    let ports = ports.as_slice();
    let meetings = meetings_of(alloc, ports, degree)?;
    let meetings = meetings.as_slice();
    let choices = choices_of(alloc, ports, size, types.len(), meetings, degree)?;
    let count = meetings.len() as u16;
    let clauses = ask(alloc, problem, count, choices.as_slice())?;
    let first = count as u32 * degree as u32 * labels;
    let answer = satisfy(alloc, &clauses, first, MAX_CONFLICTS)?;
    match answer {
        Answer::Unsatisfiable => Ok(true),
        Answer::Satisfiable | Answer::Untold => Ok(false),
    }
}

/// What is told of three rounds, without the maximal rows. Sets at all meetings of spots that would show them are asked for as clauses, and
/// a search that learns says whether these can be satisfied. Where they can't, three rounds are too few. Where they can, nothing is told: so
/// it is never told that three are enough. Nor is anything told where there are more than 100 meetings or 10,000 choices of sets, which is so
/// with all degrees but 2 and 2, 3 and 2, and 2 and 3; nor past 400,000 variables, 2,000,000 clauses or 20,000 conflicts.
pub(crate) fn find_meetings(alloc: Global, problem: &Problem) -> Result<Told, NoMemory>
    ensures few { IfOk result (λ told. told ≡ TooFew → Solvable (unnamed problem.now) 3 → ⊥) }
    ensures never { IfOk result (λ told. told ≡ Enough → ⊥) }
{
    let _names = problem.names();
    match are_refuted(alloc, problem) {
        Ok(true) => Ok(Told::TooFew),
        Ok(false) | Err(TryFault::TooMany) => Ok(Told::Untold),
        Err(TryFault::NoMemory) => Err(NoMemory),
    }
}
