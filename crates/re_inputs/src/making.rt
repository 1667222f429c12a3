//! The input problems.
ghost use Rattle.re_labels.specs.Orders.{multisets};
ghost use Rattle.re_inputs.specs.NamedInputs.{edge_colours, fits, input_of, may_stand, named, oriented, oriented_constraint, named_exchanged};
ghost use Rattle.re_problem.specs.NamedProblems.{IsNamedProblem};
ghost use Rattle.std.specs.Prelude.{◌≡◌, ◌≤◌, IfOk, true};

use crate::kinds::InputKind;
use re_families::{Family, config_of, family_problem, put};
use re_labels::{Config, Constraint, Multisets, Names, NoMemory};
use re_problem::Problem;
use std::alloc::Global;

// Whether the edges of an active node may be directed so: in any way, or edges lead into it and out of it.
fn may_stand(mixed: bool, config: &Config) -> bool
    ensures { result ≡ may_stand mixed config.now }
{
    !mixed || config.support().count() == 2
}

// How the edges of an active node may be directed.
fn oriented_constraint(alloc: Global, mixed: bool, degree: u8) -> Result<Constraint, NoMemory>
    requires least { 2 ≤ degree }
    requires most { degree ≤ 6 }
    ensures { IfOk result (λ constraint. constraint ≡ oriented_constraint mixed degree) }
{
    let mut constraint = Constraint::new(alloc, degree);
    for picks in Multisets::new(degree as usize, 2) {
        let config = config_of(picks.numbers());
        if !may_stand(mixed, &config) {
            continue;
        }
        put(&mut constraint, config)?;
    }
    Ok(constraint)
}

/// The problem of these parts.
pub(crate) fn problem_of(active: Constraint, passive: Constraint, names: Names) -> Problem
    requires { IsNamedProblem (named names active passive) }
    ensures { result ≡ named names active passive }
{
    match Problem::build(active, passive, names) {
        Some(problem) => problem,
        None => unreachable!(),
    }
}

/// The problem with its two sides exchanged.
pub fn exchanged(alloc: Global, problem: &Problem) -> Result<Problem, NoMemory>
    ensures { IfOk result (λ next. next ≡ named_exchanged problem.now) }
{
    let active = problem.passive().copy()?;
    let passive = problem.active().copy()?;
    let names = problem.names().copy()?;
    Ok(problem_of(active, passive, names))
}

// How many colours edges have.
fn edge_colours(active: u8, number: u8) -> u8
    ensures { result ≡ edge_colours active number }
{
    if number == 0 { active } else { number }
}

fn edges(alloc: Global, active: u8, passive: u8, number: u8) -> Result<Problem, NoMemory>
    requires { fits InputKind.Edges active passive number ≡ true }
    ensures { IfOk result (λ problem. problem ≡ input_of InputKind.Edges active passive number) }
{
    let colours = edge_colours(active, number);
    let nodes = family_problem(alloc, Family::Colouring, passive, active, colours)?;
    exchanged(alloc, &nodes)
}

fn oriented(alloc: Global, mixed: bool, active: u8, passive: u8) -> Result<Problem, NoMemory>
    requires { fits InputKind.Orientation active passive 0 ≡ true }
    ensures { IfOk result (λ problem. problem ≡ oriented mixed active passive) }
{
    let sinkless = family_problem(alloc, Family::Orientation, active, passive, 0)?;
    let active = oriented_constraint(alloc, mixed, active)?;
    let passive = sinkless.passive().copy()?;
    let names = sinkless.names().copy()?;
    Ok(problem_of(active, passive, names))
}

fn nothing(alloc: Global, active: u8, passive: u8) -> Result<Problem, NoMemory>
    requires { fits InputKind.Nothing active passive 0 ≡ true }
    ensures { IfOk result (λ problem. problem ≡ input_of InputKind.Nothing active passive 0) }
{
    let one = family_problem(alloc, Family::Colouring, active, passive, 1)?;
    let other = family_problem(alloc, Family::Colouring, passive, active, 1)?;
    let first = one.active().copy()?;
    let second = other.active().copy()?;
    let names = one.names().copy()?;
    Ok(problem_of(first, second, names))
}

/// The input problem of a kind with these degrees and this number, as `fits` says. Its labels have the names `1` to `9`, or `01` to `16`
/// where there are more than 9 colours; `I` for an edge that leads into its active node and `O` for one that leads out of it; or `1` where
/// there is one label.
pub fn input(
    alloc: Global,
    kind: InputKind,
    active: u8,
    passive: u8,
    number: u8,
) -> Result<Problem, NoMemory>
    requires { fits kind active passive number ≡ true }
    ensures { IfOk result (λ problem. problem ≡ input_of kind active passive number) }
{
    match kind {
        InputKind::Colouring => family_problem(alloc, Family::Colouring, active, passive, number),
        InputKind::Edges => edges(alloc, active, passive, number),
        InputKind::Sides => family_problem(alloc, Family::Colouring, active, 2, 2),
        InputKind::Orientation => oriented(alloc, false, active, passive),
        InputKind::Both => oriented(alloc, true, active, passive),
        InputKind::Nothing => nothing(alloc, active, passive),
    }
}
