//! One round: a maximal row that shows it.
ghost use Rattle.re_given_words.specs.RowTests.{has_choice, has_choices};
ghost use Rattle.re_labels.specs.Orders.{multisets};
ghost use Rattle.re_labels.specs.Rows.{placed};
ghost use Rattle.re_laws.specs.Algorithms.{Solvable};
ghost use Rattle.re_problem.specs.NamedProblems.{unnamed};
ghost use Rattle.re_labels.specs.GoodRows.{max_rows};
ghost use Rattle.std.specs.List.{list_all, position};
ghost use Rattle.std.specs.Prelude.{◌≡◌, ◌≤◌, [], IfOk, IfSome, None, length, slice_index_or};

use crate::listing::multisets_of;
use arrayvec::ArrayVec;
use re_choice::first_choice;
use re_labels::{Config, Constraint, LabelSet, NoMemory, Row};
use re_problem::Problem;
use std::alloc::Global;

// The set at the place, or the empty one.
fn set_at(sets: &[LabelSet], place: usize) -> LabelSet
    ensures { result ≡ slice_index_or sets.now place [] }
{
    if place < sets.len() {
        sets[place]
    } else {
        LabelSet::empty()
    }
}

// The sets at these places.
pub(crate) fn sets_at(sets: &[LabelSet], places: &[u8]) -> ArrayVec<LabelSet, 6>
    requires six { length places.now ≤ 6 }
    ensures { result.items ≡ placed sets.now places.now }
{
    let mut held = ArrayVec::new();
    for place in places {
        held.push(set_at(sets, *place as usize));
    }
    held
}

// Whether the sets at these places have an active choice.
fn has_choice(active: &Constraint, sets: &[LabelSet], places: &Config) -> bool
    ensures { result ≡ has_choice active.now sets.now places.now }
{
    let held = sets_at(sets, places.labels());
    first_choice(active, held.as_slice()).is_some()
}

// Whether those at each of these multisets of places have one.
fn have_choices(active: &Constraint, sets: &[LabelSet], multisets: &[Config]) -> bool
    ensures { result ≡ list_all (has_choice active.now sets.now) multisets.now }
{
    multisets
        .iter()
        .all(|places| has_choice(active, sets, places))
}

// The place of the first row that passes.
fn first_row(active: &Constraint, rows: &[Row], multisets: &[Config]) -> Option<usize>
    ensures { result ≡ position (λ row. list_all (has_choice active.now row) multisets.now) rows.now }
{
    rows.iter()
        .position(|row| have_choices(active, row.sets(), multisets))
}

// The place of the first row of so many sets of which each multiset, drawn with repetition, has an active choice.
fn find_among(
    alloc: Global,
    active: &Constraint,
    rows: &[Row],
    ports: u8,
) -> Result<Option<usize>, NoMemory>
    requires ports { ports ≤ 6 }
    ensures { IfOk result (λ place. place ≡ position (has_choices active.now ports) rows.now) }
{
    let multisets = multisets_of(alloc, active.degree(), ports)?;
    Ok(first_row(active, rows, multisets.as_slice()))
}

/// The place of the first of the maximal rows of the passive side of which each multiset of its sets, drawn with repetition, has an
/// active choice. None exactly where the problem isn't solvable in one round. It draws up to 462 multisets of each row.
pub fn find_row(alloc: Global, problem: &Problem, rows: &[Row]) -> Result<Option<usize>, NoMemory>
    requires rows { rows.now ≡ max_rows problem.now.passive (length problem.now.names) }
    ensures shown { IfOk result (λ place. IfSome place (λ place. Solvable (unnamed problem.now) 1)) }
    ensures none { IfOk result (λ place. place ≡ None → Solvable (unnamed problem.now) 1 → ⊥) }
{
    let _names = problem.names();
    let ports = problem.passive().degree();
    find_among(alloc, problem.active(), rows, ports)
}
