//! Whether a table solves a problem.
ghost use Rattle.re_algo.specs.SeenRows.{repeated, seen_rows};
ghost use Rattle.re_algo.specs.Tables.{entries, given};
ghost use Rattle.re_algo.specs.Verdicts.{first_not_active, table_verdict};
ghost use Rattle.re_labels.specs.Configs.{support_of};
ghost use Rattle.re_labels.specs.Sets.{IsLabelSet};
ghost use Rattle.re_laws.specs.Algorithms.{Solves};
ghost use Rattle.re_problem.specs.NamedProblems.{unnamed};
ghost use Rattle.re_labels.specs.GoodRows.{is_good};
ghost use Rattle.std.specs.List.{AllByRecursion, list_all};
ghost use Rattle.std.specs.Prelude.{◌≡◌, ◌≤◌, ◌<◌, ◌↔◌, IfOk, None, length};

use crate::Table;
use crate::answers::first_other;
use crate::seen::{SeenRow, seen_rows};
use arrayvec::ArrayVec;
use re_labels::{Config, Constraint, LabelSet, MAX_LABELS, NoMemory, PortLabels, Row};
use re_problem::Problem;
use std::alloc::Global;

/// What is found of a table: that it solves a problem, or where it first fails.
#[derive(Clone, Copy, Debug, PartialEq, Eq)]
pub enum TableVerdict {
    /// It solves the problem.
    Yes,
    /// The labels of the view of this number, counted from 1 in the order of all views, are the first that are no active
    /// configuration.
    Active(u32),
    /// The labels of all active views are active configurations, and around some passive node the labels are no passive one.
    Passive,
}

// Whether each choice of one label of each set is a configuration, and no set is empty.
fn is_good(constraint: &Constraint, sets: &[LabelSet]) -> bool
    requires count { length sets.now ≡ constraint.now.degree }
    requires sets { AllByRecursion (IsLabelSet MAX_LABELS) sets.now }
    ensures { result ≡ is_good constraint.now sets.now }
{
    let _degree = constraint.degree();
    match Row::from_sets(sets) {
        None => false,
        Some(row) => constraint.is_good(&row),
    }
}

// The same of all rows.
fn are_good(constraint: &Constraint, rows: &[SeenRow]) -> bool
    requires { AllByRecursion (λ row. (length row ≡ constraint.now.degree) × AllByRecursion (IsLabelSet MAX_LABELS) row) rows.now }
    ensures { result ≡ list_all (is_good constraint.now) rows.now }
{
    for row in rows {
        if !is_good(constraint, row.sets()) {
            return false;
        }
    }
    true
}

// The set of the labels, once for each port.
fn repeated(labels: &PortLabels, ports: u8) -> ArrayVec<LabelSet, 6>
    requires below { AllByRecursion (λ label. label < MAX_LABELS) labels.now }
    requires few { ports ≤ 6 }
    ensures { result.items ≡ repeated ports (support_of labels.now) }
{
    let set = Config::from_labels(labels.labels()).support();
    let mut sets = ArrayVec::new();
    for _ in 0..ports {
        sets.push(set);
    }
    sets
}

// Whether passive nodes are content, where active nodes are.
fn fits_passive(alloc: Global, problem: &Problem, table: &Table) -> Result<bool, NoMemory>
    requires active { table.now.degrees.active ≡ problem.now.active.degree }
    requires passive { table.now.degrees.passive ≡ problem.now.passive.degree }
    requires all_active { first_not_active (unnamed problem.now) table.now ≡ None }
    ensures { IfOk result (λ fits. fits ≡ list_all (is_good problem.now.passive) (seen_rows (unnamed problem.now) table.now.radius (given table.now))) }
{
    let passive = problem.passive();
    if table.radius() == 0 {
        let sets = repeated(&table.answers()[0], passive.degree());
        return Ok(is_good(passive, sets.as_slice()));
    }
    let rows = seen_rows(alloc, table)?;
    Ok(are_good(passive, rows.as_slice()))
}

/// Whether the table solves the problem, and else the first active view at fault, or that some passive node is. The degrees are those of the problem.
/// It doesn't list the passive views of a radius greater by one: views of the neighbours of a passive node that agree
/// on its view of a radius less by one occur together, so it is enough to know the set of labels that each of its ports may get.
/// It goes once over the active views, and then over the choices of one label of each of these sets.
pub fn solves(alloc: Global, problem: &Problem, table: &Table) -> Result<TableVerdict, NoMemory>
    requires active { table.now.degrees.active ≡ problem.now.active.degree }
    requires passive { table.now.degrees.passive ≡ problem.now.passive.degree }
    ensures verdict { IfOk result (λ verdict. verdict ≡ table_verdict (unnamed problem.now) table.now) }
    ensures yes { IfOk result (λ verdict. (verdict ≡ TableVerdict.Yes) ↔ Solves (unnamed problem.now) table.now.radius (entries table.now)) }
{
    match first_other(problem.active(), table.answers()) {
        Some(place) => Ok(TableVerdict::Active(place as u32 + 1)),
        None => {
            let fits = fits_passive(alloc, problem, table)?;
            if fits {
                Ok(TableVerdict::Yes)
            } else {
                Ok(TableVerdict::Passive)
            }
        }
    }
}
