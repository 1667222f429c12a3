//! Steps of a path, and the problem to which it leads.
ghost use Rattle.re_cert.specs.Bounds.{is_lower, next_problems};
ghost use Rattle.re_problem.specs.ProblemTexts.{last_or};
ghost use Rattle.re_problem.specs.Steps.LowerMap.{by_set};
ghost use Rattle.re_search.specs.Nodes.{behind, entries_of};
ghost use Rattle.std.specs.Prelude.{◌≡◌, ◌≤◌, [], IfOk, if◌then◌else◌, length, map};

use re_cert::{Kind, LowerMap, SetEntry, Step, StepParts, has_lower_steps};
use re_changes::Changed;
use re_labels::{LabelSet, NoMemory, Row};
use re_problem::Problem;
use std::alloc::Global;

/// What the children of a node share: the maximal rows of its passive constraint, and their different sets.
#[derive(Drop)]
pub(crate) struct Level {
    pub(crate) rows: Vec<Row>,
    pub(crate) sets: Vec<LabelSet>,
}

/// The problem to which the steps lead.
pub(crate) fn end_of<'a>(first: &'a Problem, path: &'a [Step]) -> &'a Problem
    ensures { result.now ≡ last_or first.now (next_problems path.now) }
{
    if path.is_empty() {
        first
    } else {
        path[path.len() - 1].next()
    }
}

/// The problem behind so many of the steps.
pub(crate) fn problem_behind<'a>(first: &'a Problem, path: &'a [Step], number: usize) -> &'a Problem
    requires { number ≤ length path.now }
    ensures { result.now ≡ behind first.now path.now number }
{
    if number == 0 {
        first
    } else {
        path[number - 1].next()
    }
}

// For each of the sets whose label is left, the label that it has become.
fn entries_of(
    alloc: Global,
    sets: &[LabelSet],
    images: &[Option<u8>],
) -> Result<Vec<SetEntry>, NoMemory>
    requires { length images.now ≡ length sets.now }
    ensures { IfOk result (λ entries. entries.items ≡ entries_of sets.now images.now) }
{
    let mut entries = Vec::new(alloc);
    for (place, image) in images.iter().enumerate() {
        match image {
            Some(label) => entries.push(SetEntry {
                set: sets[place],
                label: *label,
            })?,
            None => {}
        }
    }
    Ok(entries)
}

/// The same rows.
pub(crate) fn copied(alloc: Global, rows: &[Row]) -> Result<Vec<Row>, NoMemory>
    ensures { IfOk result (λ copied. copied.items ≡ rows.now) }
{
    let mut copied = Vec::new(alloc);
    for row in rows {
        copied.push(row.copy())?;
    }
    Ok(copied)
}

/// The step to what changes have made of the derived problem of this level.
pub(crate) fn step_to(
    alloc: Global,
    kind: Kind,
    level: &Level,
    made: &Changed,
) -> Result<Step, NoMemory>
    requires { length made.now.images ≡ length level.now.sets.items }
    ensures { IfOk result (λ s. s ≡ record {
      lower = is_lower kind;
      next = made.now.problem;
      rows = if is_lower kind then level.now.rows.items else [];
      map = by_set (entries_of level.now.sets.items made.now.images);
    }) }
{
    let map = entries_of(alloc, level.sets.as_slice(), made.images())?;
    let next = made.problem().copy()?;
    if has_lower_steps(kind) {
        let rows = copied(alloc, level.rows.as_slice())?;
        let map = LowerMap::BySet(map);
        let parts = StepParts::Lower { rows, map };
        Ok(Step { next, parts })
    } else {
        let parts = StepParts::Upper { map };
        Ok(Step { next, parts })
    }
}
