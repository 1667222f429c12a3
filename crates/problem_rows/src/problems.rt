//! Problems built by hand.
ghost use Rattle.std.specs.Prelude.{◌<◌};

use re_labels::{Config, Constraint, MAX_LABELS, Name, Names, NamesFault, NoMemory};
use re_problem::{Problem, print_problem};
use std::alloc::Global;

fn of_one(alloc: Global, label: u8) -> Result<Constraint, NoMemory>
    requires { label < MAX_LABELS }
{
    let mut constraint = Constraint::new(alloc, 2);
    match constraint.insert(Config::from_labels(&[label, label])) {
        Ok(_) => Ok(constraint),
        Err(_) => Err(NoMemory),
    }
}

// The first so many of the names A and B.
fn names_of(alloc: Global, count: usize) -> Result<Names, NamesFault> {
    let mut names = Names::new(alloc);
    add_names(&mut names, count)?;
    Ok(names)
}

fn add_names(names: &mut Names, count: usize) -> Result<(), NamesFault> {
    for text in [b"A", b"B"] {
        if names.len() < count {
            add_name(names, text)?;
        }
    }
    Ok(())
}

fn add_name(names: &mut Names, text: &[u8]) -> Result<bool, NamesFault> {
    match Name::new(text) {
        Some(name) => names.insert(name),
        None => Ok(false),
    }
}

// The problem of one active label and one passive one.
fn built(alloc: Global, active: u8, passive: u8, names: Names) -> Result<Option<Problem>, NoMemory>
    requires active { active < MAX_LABELS }
    requires passive { passive < MAX_LABELS }
{
    let active = of_one(alloc, active)?;
    let passive = of_one(alloc, passive)?;
    Ok(Problem::build(active, passive, names))
}

// Whether there is such a problem, or not, as wanted.
fn is_built(alloc: Global, active: u8, passive: u8, names: Names, want: bool) -> bool
    requires active { active < MAX_LABELS }
    requires passive { passive < MAX_LABELS }
{
    match built(alloc, active, passive, names) {
        Ok(problem) => problem.is_some() == want,
        Err(_) => false,
    }
}

fn is_judged(alloc: Global, active: u8, passive: u8, count: usize, want: bool) -> bool
    requires active { active < MAX_LABELS }
    requires passive { passive < MAX_LABELS }
{
    match names_of(alloc, count) {
        Ok(names) => is_built(alloc, active, passive, names, want),
        Err(_) => false,
    }
}

#[test]
fn builds_with_the_names_that_occur(rt: HostRuntime) {
    for (active, passive, count, want) in [
        (0, 1, 2, true),
        (1, 0, 2, true),
        (0, 0, 2, false),
        (0, 1, 1, false),
        (0, 1, 0, false),
    ] {
        assert!(rt; is_judged(rt.alloc(), active, passive, count, want));
    }
}

fn one_name(alloc: Global) -> Result<Names, NamesFault> {
    let mut names = Names::new(alloc);
    add_name(&mut names, b"long_1")?;
    Ok(names)
}

// The problem of one name that allows nothing at passive nodes.
fn without_passive(alloc: Global, names: Names) -> Result<Option<Problem>, NoMemory> {
    let active = of_one(alloc, 0)?;
    Ok(Problem::build(active, Constraint::new(alloc, 4), names))
}

fn is_printed(alloc: Global, problem: &Problem, text: &[u8]) -> bool {
    match print_problem(alloc, problem) {
        Ok(printed) => printed.as_slice() == text,
        Err(_) => false,
    }
}

fn is_printed_without(alloc: Global, names: Names, text: &[u8]) -> bool {
    match without_passive(alloc, names) {
        Ok(Some(problem)) => is_printed(alloc, &problem, text),
        _ => false,
    }
}

fn is_canonical(alloc: Global, text: &[u8]) -> bool {
    match one_name(alloc) {
        Ok(names) => is_printed_without(alloc, names, text),
        Err(_) => false,
    }
}

#[test]
fn prints_a_canonical_text(rt: HostRuntime) {
    assert!(rt; is_canonical(rt.alloc(), b"(long_1)^2\n\n%4\n"));
}
