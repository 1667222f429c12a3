//! What is told of the rounds of a problem without its derived problem.
ghost use Rattle.re_given_words.specs.Ahead.{IsTold};
ghost use Rattle.re_laws.specs.Algorithms.{Solvable};
ghost use Rattle.re_problem.specs.NamedProblems.{unnamed};
ghost use Rattle.re_labels.specs.GoodRows.{max_rows};
ghost use Rattle.std.specs.Prelude.{◌≡◌, ◌≤◌, IfOk, length, ℕ};

use crate::one::find_row;
use crate::three::find_meetings;
use crate::two::{Told, find_rows};
use re_labels::{NoMemory, Row};
use re_problem::Problem;
use re_step::{RowsFault, maximal_rows};
use std::alloc::Global;

/// What is told of the rounds of a problem, from 1 on.
#[derive(Clone, Copy, Debug, PartialEq, Eq)]
pub enum Ahead {
    /// So many are enough, and fewer, from 1 on, aren't.
    Exactly(u8),
    /// So many and fewer, from 1 on, aren't.
    MoreThan(u8),
}

// What is told by three rounds, where so many and fewer are too few.
fn look_further(alloc: Global, problem: &Problem, most: u8, few: u8) -> Result<Ahead, NoMemory>
    requires most { few ≤ most }
    requires few { (T : ℕ) → 1 ≤ T → T ≤ few → Solvable (unnamed problem.now) T → ⊥ }
    ensures { IfOk result (IsTold (unnamed problem.now) most) }
{
    if most < 3 {
        return Ok(Ahead::MoreThan(few));
    }
    match find_meetings(alloc, problem)? {
        Told::TooFew => Ok(Ahead::MoreThan(3)),
        Told::Enough | Told::Untold => Ok(Ahead::MoreThan(few)),
    }
}

// What is told by two rounds and three, where one is too few.
fn look_on(alloc: Global, problem: &Problem, rows: &[Row], most: u8) -> Result<Ahead, NoMemory>
    requires rows { rows.now ≡ max_rows problem.now.passive (length problem.now.names) }
    requires most { 2 ≤ most }
    requires few { Solvable (unnamed problem.now) 1 → ⊥ }
    ensures { IfOk result (IsTold (unnamed problem.now) most) }
{
    match find_rows(alloc, problem, rows)? {
        Told::Enough => Ok(Ahead::Exactly(2)),
        Told::TooFew => look_further(alloc, problem, most, 2),
        Told::Untold => look_further(alloc, problem, most, 1),
    }
}

// The same, with the maximal rows.
fn look_with(alloc: Global, problem: &Problem, rows: &[Row], most: u8) -> Result<Ahead, NoMemory>
    requires rows { rows.now ≡ max_rows problem.now.passive (length problem.now.names) }
    requires most { 1 ≤ most }
    ensures { IfOk result (IsTold (unnamed problem.now) most) }
{
    match find_row(alloc, problem, rows)? {
        Some(_) => Ok(Ahead::Exactly(1)),
        None => {
            if most == 1 {
                return Ok(Ahead::MoreThan(1));
            }
            look_on(alloc, problem, rows, most)
        }
    }
}

/// What is told of the rounds from 1 to the most without a derived problem: one round and two, by the maximal rows of the passive side,
/// and whether three are too few, where two aren't told to be enough, by clauses that no sets satisfy. Nothing is told of one and two where
/// there are more than `re_labels::MAX_ROWS` rows, and nothing of two where `find_rows` tells nothing; that three are too few may be told
/// all the same. That three are enough is never told. It costs what `re_step::maximal_rows`, `find_row` and `find_rows` cost, and what the
/// search for sets that satisfy the clauses does: up to 20,000 conflicts among up to 2,000,000 clauses.
pub fn look_ahead(alloc: Global, problem: &Problem, most: u8) -> Result<Ahead, NoMemory>
    ensures { IfOk result (IsTold (unnamed problem.now) most) }
{
    if most == 0 {
        return Ok(Ahead::MoreThan(0));
    }
    let labels = problem.names().len() as u8;
    match maximal_rows(alloc, problem.passive(), labels) {
        Ok(rows) => look_with(alloc, problem, rows.as_slice(), most),
        Err(RowsFault::TooManyRows) => look_further(alloc, problem, most, 0),
        Err(RowsFault::NoMemory) => Err(NoMemory),
    }
}
