//! The table with one round more.
ghost use Rattle.re_algo.specs.Choosing.{HasChoice, choice_at, label_over, sets_around};
ghost use Rattle.re_algo.specs.Constructions.{slower_table};
ghost use Rattle.re_algo.specs.Tables.{entries};
ghost use Rattle.re_labels.specs.Rows.{set_at};
ghost use Rattle.re_laws.specs.Algorithms.{Solves};
ghost use Rattle.re_algo.specs.Counting.{view_count};
ghost use Rattle.re_problem.specs.Derived.{derived as next_problem};
ghost use Rattle.re_problem.specs.NamedProblems.{unnamed};
ghost use Rattle.re_step.specs.Derivations.{derivation};
ghost use Rattle.re_algo.specs.declared.counting.TheConstants.{MAX_VIEWS};
ghost use Rattle.re_laws.specs.AllViews.{all_views};
ghost use Rattle.re_laws.specs.Shown.{tree_of_view};
ghost use Rattle.re_laws.specs.Trees.{IsView};
ghost use Rattle.std.specs.List.{AllByRecursion};
ghost use Rattle.std.specs.Prelude.{◌≡◌, ◌≤◌, ◌<◌, ◌+◌, ◌∷◌, ◌↔◌, Err, IfOk, IsNone, length, map, suc};

use crate::Table;
use crate::counting::view_count;
use crate::seen::back_of;
use crate::sets::set_at;
use arrayvec::ArrayVec;
use re_choice::first_choice;
use re_labels::{Constraint, LabelSet, NoMemory, PortLabels, Side};
use re_laws::{View, all_views, shift};
use re_problem::Problem;
use re_step::Derived;
use std::alloc::Global;

/// Why there is no table with one round more.
#[derive(Clone, Copy, Debug, PartialEq, Eq)]
pub enum SlowerFault {
    /// Its radius has more active views than `re_algo::MAX_VIEWS`.
    TooManyViews,
    /// There was no memory.
    NoMemory,
}

// The set that the answer over a port of a view stands for.
fn set_over(
    alloc: Global,
    sets: &[LabelSet],
    table: &Table,
    view: &View<()>,
    port: u8,
) -> Result<LabelSet, NoMemory>
    requires port { 1 ≤ port }
    requires within { port ≤ table.now.degrees.passive }
    requires view { IsView table.now.degrees.passive table.now.degrees.active (suc table.now.radius) (tree_of_view view.now) }
    ensures { IfOk result (λ set. set ≡ set_at sets.now (label_over table.now (tree_of_view view.now) port)) }
{
    let _radius = table.radius();
    let over = shift(alloc, view, port)?;
    let back = back_of(view, port);
    match table.answer(&over) {
        Some(answer) => {
            let label = answer.labels()[usize::from(back) - 1];
            Ok(set_at(sets, usize::from(label)))
        }
        None => unreachable!(),
    }
}

// The sets that the answers around a view stand for.
fn sets_around(
    alloc: Global,
    sets: &[LabelSet],
    table: &Table,
    view: &View<()>,
) -> Result<ArrayVec<LabelSet, 6>, NoMemory>
    requires view { IsView table.now.degrees.passive table.now.degrees.active (suc table.now.radius) (tree_of_view view.now) }
    ensures { IfOk result (λ around. around.items ≡ sets_around sets.now table.now.degrees.passive table.now (tree_of_view view.now)) }
{
    let ports = table.degrees().passive;
    let mut around = ArrayVec::new();
    for index in 0..ports {
        let set = set_over(alloc, sets, table, view, index + 1)?;
        around.push(set);
    }
    Ok(around)
}

// The answer at an active view.
fn slow_labels(
    alloc: Global,
    active: &Constraint,
    sets: &[LabelSet],
    table: &Table,
    view: &View<()>,
) -> Result<PortLabels, NoMemory>
    requires { HasChoice active.now sets.now table.now (tree_of_view view.now) }
    ensures { IfOk result (λ labels. labels ≡ choice_at active.now sets.now table.now (tree_of_view view.now)) }
{
    let around = sets_around(alloc, sets, table, view)?;
    match first_choice(active, around.as_slice()) {
        Some(labels) => Ok(labels),
        None => unreachable!(),
    }
}

// The answers at all active views.
fn slow_answers(
    alloc: Global,
    active: &Constraint,
    sets: &[LabelSet],
    table: &Table,
    views: &[View<()>],
) -> Result<Vec<PortLabels>, NoMemory>
    requires { AllByRecursion (HasChoice active.now sets.now table.now) (map tree_of_view views.now) }
    ensures { IfOk result (λ answers. answers.items ≡ map (choice_at active.now sets.now table.now) (map tree_of_view views.now)) }
{
    let mut answers = Vec::new(alloc);
    for view in views {
        let labels = slow_labels(alloc, active, sets, table, view)?;
        answers.push(labels)?;
    }
    Ok(answers)
}

// The number of rounds with one more.
fn next_radius(table: &Table) -> u8
    ensures { result ≡ suc table.now.radius }
{
    table.radius() + 1
}

// The table with one round more, where its radius has no more active views than are listed.
fn slow_table(
    alloc: Global,
    problem: &Problem,
    derived: &Derived,
    table: &Table,
    radius: u8,
) -> Result<Table, NoMemory>
    requires active { table.now.degrees.active ≡ problem.now.passive.degree }
    requires passive { table.now.degrees.passive ≡ problem.now.active.degree }
    requires derived { derived.now ≡ derivation (unnamed problem.now) }
    requires solves { Solves (next_problem (unnamed problem.now)) table.now.radius (entries table.now) }
    requires radius { radius ≡ suc table.now.radius }
    requires few { length (all_views problem.now.active.degree problem.now.passive.degree (suc table.now.radius)) ≤ MAX_VIEWS }
    ensures table { IfOk result (λ more. more ≡ slower_table (unnamed problem.now) table.now) }
    ensures solves { IfOk result (λ more. Solves (unnamed problem.now) more.radius (entries more)) }
{
    let _degrees = table.degrees();
    let degrees = problem.degrees();
    let views = all_views(alloc, degrees, Side::Active, radius)?;
    let sets = derived.sets.as_slice();
    let answers = slow_answers(alloc, problem.active(), sets, table, views.as_slice())?;
    match Table::build(degrees, radius, answers) {
        Some(more) => Ok(more),
        None => unreachable!(),
    }
}

/// The table with one round more for the problem before, from one that solves the derived problem (Brandt, PODC 2019). At an active
/// view it takes the sets that the answers at the neighbours' views stand for, and answers the first choice of one label of each,
/// port 1 slowest, that is an active configuration. It is refused with `TooManyViews` exactly where there are more active views of
/// that radius than `re_algo::MAX_VIEWS`. Each active view costs a shift and a look-up over each port, and a walk over choices up
/// to the first that is active.
pub fn slower(
    alloc: Global,
    problem: &Problem,
    derived: &Derived,
    table: &Table,
) -> Result<Table, SlowerFault>
    requires active { table.now.degrees.active ≡ problem.now.passive.degree }
    requires passive { table.now.degrees.passive ≡ problem.now.active.degree }
    requires derived { derived.now ≡ derivation (unnamed problem.now) }
    requires solves { Solves (next_problem (unnamed problem.now)) table.now.radius (entries table.now) }
    ensures table { IfOk result (λ more. more ≡ slower_table (unnamed problem.now) table.now) }
    ensures solves { IfOk result (λ more. Solves (unnamed problem.now) more.radius (entries more)) }
    ensures many { (result ≡ Err SlowerFault.TooManyViews) ↔ IsNone (view_count problem.now.active.degree problem.now.passive.degree (suc table.now.radius)) }
{
    let radius = next_radius(table);
    if view_count(problem.degrees(), Side::Active, radius).is_none() {
        return Err(SlowerFault::TooManyViews);
    }
    match slow_table(alloc, problem, derived, table, radius) {
        Ok(more) => Ok(more),
        Err(NoMemory) => Err(SlowerFault::NoMemory),
    }
}
