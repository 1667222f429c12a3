//! Two rounds: sets at the ports that show them.
ghost use Rattle.re_given_words.specs.Searching.{IsUnderWay};
ghost use Rattle.re_laws.specs.Algorithms.{Solvable};
ghost use Rattle.re_problem.specs.NamedProblems.{unnamed};
ghost use Rattle.re_labels.specs.GoodRows.{max_rows};
ghost use Rattle.std.specs.Prelude.{◌≡◌, [], IfOk, false, length, true};
ghost use Rattle.re_given_words.specs.declared.two.Told.TheVariants.{Enough, TooFew};

use crate::listing::multisets_of;
use crate::ordering::orders_of;
use crate::searching::{Open, serve};
use crate::stopping::TryFault;
use re_labels::{NoMemory, Row};
use re_problem::Problem;
use std::alloc::Global;

/// How many sets of rows are listed for all multisets of ports together.
pub const MAX_LISTED: usize = 200_000;

/// How many tries `find_rows` makes: each set that is drawn at a port is one.
pub const MAX_ROW_TRIES: usize = 30_000_000;

/// What is told of two rounds.
#[derive(Clone, Copy, Debug, PartialEq, Eq)]
pub enum Told {
    /// They are enough.
    Enough,
    /// They are too few.
    TooFew,
    /// The tries don't suffice to tell.
    Untold,
}

// All multisets of ports, each with the sets of all rows in each order.
fn all_open(
    alloc: Global,
    problem: &Problem,
    rows: &[Row],
    room: &mut usize,
) -> Result<Vec<Open>, TryFault>
    ensures { IfOk result (λ opens. IsUnderWay (unnamed problem.now) rows.now opens.items []) }
{
    let _names = problem.names();
    let mut opens = Vec::new(alloc);
    let ports_of = multisets_of(alloc, problem.passive().degree(), problem.active().degree())?;
    for ports in ports_of.as_slice() {
        let rows = orders_of(alloc, rows, room)?;
        opens.push(Open {
            ports: ports.copy(),
            rows,
        })?;
    }
    Ok(opens)
}

// Whether some sets at the ports show two rounds by these rows.
fn search(alloc: Global, problem: &Problem, rows: &[Row]) -> Result<bool, TryFault>
    requires rows { rows.now ≡ max_rows problem.now.passive (length problem.now.names) }
    ensures yes { IfOk result (λ found. found ≡ true → Solvable (unnamed problem.now) 2) }
    ensures no { IfOk result (λ found. found ≡ false → Solvable (unnamed problem.now) 2 → ⊥) }
{
    let _names = problem.names();
    let mut room = MAX_LISTED;
    let opens = all_open(alloc, problem, rows, &mut room)?;
    let mut tries = MAX_ROW_TRIES;
    serve(alloc, problem, rows, opens.as_slice(), &[], &mut tries)
}

/// Whether two rounds are enough, by the maximal rows of the passive side. It looks for sets at the ports of an active node so that each
/// multiset of ports has a row of them, in some order, and each choice of a set at each port has an active choice: it serves the multisets
/// one after another, next the one that has the fewest rows which go with the sets that stand. `Untold` where there are more than
/// `MAX_LISTED` sets of rows to begin with, or after `MAX_ROW_TRIES` tries.
pub fn find_rows(alloc: Global, problem: &Problem, rows: &[Row]) -> Result<Told, NoMemory>
    requires rows { rows.now ≡ max_rows problem.now.passive (length problem.now.names) }
    ensures enough { IfOk result (λ told. told ≡ Enough → Solvable (unnamed problem.now) 2) }
    ensures few { IfOk result (λ told. told ≡ TooFew → Solvable (unnamed problem.now) 2 → ⊥) }
{
    match search(alloc, problem, rows) {
        Ok(true) => Ok(Told::Enough),
        Ok(false) => Ok(Told::TooFew),
        Err(TryFault::TooMany) => Ok(Told::Untold),
        Err(TryFault::NoMemory) => Err(NoMemory),
    }
}
