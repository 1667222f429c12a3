// The commands that work on a table of an algorithm.
ghost use Rattle.re_algo.specs.Tables.{entries};
ghost use Rattle.re_words.specs.Command.{judges};
ghost use Rattle.re_frame.specs.Outcomes.{Outcome, done as done_with, outcome_of};
ghost use Rattle.re_words.specs.Tabling.{active_line, behind_next, behind_step, faster_outcome, or_refusal, same_constraints, same_lists, same_problems, slower_outcome, table_outcome, tabled, tabling_outcome};
ghost use Rattle.re_limits.specs.StepLimits.{or_limit};
ghost use Rattle.re_table_texts.specs.PrintedTables.{table_text};
ghost use Rattle.re_laws.specs.Algorithms.{Solves};
ghost use Rattle.re_problem.specs.Derived.{derived as next_problem};
ghost use Rattle.re_problem.specs.NamedProblems.{unnamed};
ghost use Rattle.re_step.specs.Derivations.{derivation, step_limit};
ghost use Rattle.re_table_texts.specs.Reading.{owner_in, text_in};
ghost use Rattle.re_table_texts.specs.TableTexts.{may_stand};
ghost use Rattle.std.specs.Prelude.{◌≡◌, ◌≢◌, ◌≤◌, ◌↔◌, ℕ, List, [], Some, None, length, string_bytes, true, IfOk, IsErrOf, IsSome};

use crate::command::Command;
use re_algo::{MAX_VIEWS, SlowerFault, Table, TableVerdict, faster, slower, solves};
use re_frame::{Answering, Output, begun, done, fault_output, limit_of, refused};
use re_io::MAX_BYTES;
use re_labels::{Constraint, Names, NoMemory};
use re_limits::limit_output;
use re_problem::{Problem, TextFault};
use re_step::{Derived, StepFault, step};
use re_table_texts::{TableForm, TableInput, print_table, read_table};
use std::alloc::{AllocError, Global};

// Whether the names are the same.
fn are_same_names(names: &Names, others: &Names) -> bool
    ensures { result ≡ same_lists names.now others.now }
{
    if names.len() != others.len() {
        return false;
    }
    for label in 0..names.len() as u8 {
        if names.name(label).text() != others.name(label).text() {
            return false;
        }
    }
    true
}

// Whether the constraints are the same.
fn are_same_constraints(constraint: &Constraint, other: &Constraint) -> bool
    ensures { result ≡ same_constraints constraint.now other.now }
{
    if constraint.degree() != other.degree() {
        return false;
    }
    if constraint.len() != other.len() {
        return false;
    }
    for place in 0..constraint.len() {
        let Some(config) = constraint.get(place) else {
            unreachable!();
        };
        let Some(others) = other.get(place) else {
            unreachable!();
        };
        if config.labels() != others.labels() {
            return false;
        }
    }
    true
}

// Whether the problems are the same, their names too.
fn are_same_problems(problem: &Problem, other: &Problem) -> bool
    ensures { result ≡ same_problems problem.now other.now }
{
    are_same_names(problem.names(), other.names())
        && are_same_constraints(problem.active(), other.active())
        && are_same_constraints(problem.passive(), other.passive())
}

fn active_line(alloc: Global, number: u32) -> Result<String, AllocError>
    ensures { IfOk result (λ text. string_bytes text ≡ active_line number) }
{
    format!(in alloc; "no: active {number}\n")
}

// The refusal of a table that doesn't solve its problem.
fn refusal(alloc: Global, verdict: TableVerdict) -> Result<Output, NoMemory>
    requires { verdict ≢ TableVerdict.Yes }
    ensures { IfOk result (λ output. (outcome : Outcome) → outcome_of output ≡ or_refusal verdict outcome) }
{
    match verdict {
        TableVerdict::Yes => unreachable!(),
        TableVerdict::Active(number) => Ok(refused(active_line(alloc, number)?.into_bytes())),
        TableVerdict::Passive => Ok(refused(begun(alloc, "no: passive\n")?)),
    }
}

// Whether the table solves the problem.
fn solves_output(alloc: Global, problem: &Problem, table: &Table) -> Result<Output, NoMemory>
    requires active { table.now.degrees.active ≡ problem.now.active.degree }
    requires passive { table.now.degrees.passive ≡ problem.now.passive.degree }
    ensures { IfOk result (λ output. outcome_of output ≡ table_outcome problem.now table.now) }
{
    match solves(alloc, problem, table)? {
        TableVerdict::Yes => Ok(done(begun(alloc, "yes\n")?)),
        verdict => refusal(alloc, verdict),
    }
}

// The text of a problem and a table that solves it.
fn written(alloc: Global, problem: &Problem, table: &Table) -> Result<Output, NoMemory>
    requires active { table.now.degrees.active ≡ problem.now.active.degree }
    requires passive { table.now.degrees.passive ≡ problem.now.passive.degree }
    requires solves { Solves (unnamed problem.now) table.now.radius (entries table.now) }
    ensures { IfOk result (λ output. outcome_of output ≡ done_with (table_text problem.now table.now)) }
{
    let _radius = table.radius();
    let _names = problem.names();
    Ok(done(print_table(alloc, problem, table)?))
}

// The table with one round less, for the derived problem, of a table that solves the problem.
fn less_output(alloc: Global, problem: &Problem, table: &Table) -> Result<Output, NoMemory>
    requires active { table.now.degrees.active ≡ problem.now.active.degree }
    requires passive { table.now.degrees.passive ≡ problem.now.passive.degree }
    requires rounds { 1 ≤ table.now.radius }
    requires solves { Solves (unnamed problem.now) table.now.radius (entries table.now) }
    ensures { IfOk result (λ output. outcome_of output ≡ behind_step problem.now table.now) }
{
    match step(alloc, problem) {
        Ok(derived) => {
            let less = faster(alloc, problem, &derived, table)?;
            written(alloc, &derived.problem, &less)
        }
        Err(StepFault::Limit(limit)) => limit_output(alloc, 1, limit),
        Err(StepFault::NoMemory) => Err(NoMemory),
    }
}

// One round less.
fn faster_output(alloc: Global, problem: &Problem, table: &Table) -> Result<Output, NoMemory>
    requires active { table.now.degrees.active ≡ problem.now.active.degree }
    requires passive { table.now.degrees.passive ≡ problem.now.passive.degree }
    requires rounds { 1 ≤ table.now.radius }
    ensures { IfOk result (λ output. outcome_of output ≡ faster_outcome problem.now table.now) }
{
    match solves(alloc, problem, table)? {
        TableVerdict::Yes => less_output(alloc, problem, table),
        verdict => refusal(alloc, verdict),
    }
}

// The table with one round more, for the problem, of a table that solves the derived problem.
fn more_output(
    alloc: Global,
    problem: &Problem,
    derived: &Derived,
    table: &Table,
) -> Result<Output, NoMemory>
    requires active { table.now.degrees.active ≡ problem.now.passive.degree }
    requires passive { table.now.degrees.passive ≡ problem.now.active.degree }
    requires derived { derived.now ≡ derivation (unnamed problem.now) }
    requires solves { Solves (next_problem (unnamed problem.now)) table.now.radius (entries table.now) }
    ensures { IfOk result (λ output. outcome_of output ≡ slower_outcome problem.now table.now) }
{
    match slower(alloc, problem, derived, table) {
        Ok(more) => written(alloc, problem, &more),
        Err(SlowerFault::TooManyViews) => limit_of(alloc, MAX_VIEWS as usize, "views"),
        Err(SlowerFault::NoMemory) => Err(NoMemory),
    }
}

// One round more, where the next problem is the derived one.
fn next_output(
    alloc: Global,
    problem: &Problem,
    derived: &Derived,
    next: &Problem,
    table: &Table,
) -> Result<Output, NoMemory>
    requires active { table.now.degrees.active ≡ next.now.active.degree }
    requires passive { table.now.degrees.passive ≡ next.now.passive.degree }
    requires derived { derived.now ≡ derivation (unnamed problem.now) }
    ensures { IfOk result (λ output. outcome_of output ≡ behind_next problem.now next.now table.now) }
{
    if !are_same_problems(next, &derived.problem) {
        return Ok(refused(begun(alloc, "no: next\n")?));
    }
    match solves(alloc, next, table)? {
        TableVerdict::Yes => more_output(alloc, problem, derived, table),
        verdict => refusal(alloc, verdict),
    }
}

// One round more.
fn slower_output(
    alloc: Global,
    problem: &Problem,
    next: &Problem,
    table: &Table,
) -> Result<Output, NoMemory>
    requires active { table.now.degrees.active ≡ next.now.active.degree }
    requires passive { table.now.degrees.passive ≡ next.now.passive.degree }
    ensures { IfOk result (λ output. outcome_of output ≡ or_limit 1 (step_limit (unnamed problem.now)) (behind_next problem.now next.now table.now)) }
{
    match step(alloc, problem) {
        Ok(derived) => next_output(alloc, problem, &derived, next, table),
        Err(StepFault::Limit(limit)) => limit_output(alloc, 1, limit),
        Err(StepFault::NoMemory) => Err(NoMemory),
    }
}

// The output for what was read.
fn input_output(alloc: Global, form: TableForm, input: &TableInput) -> Result<Output, NoMemory>
    requires next { IsSome input.now.next ↔ (form ≡ TableForm.Slower) }
    requires rounds { may_stand form input.now.table.radius ≡ true }
    requires active { input.now.table.degrees.active ≡ (owner_in input.now).active.degree }
    requires passive { input.now.table.degrees.passive ≡ (owner_in input.now).passive.degree }
    ensures { IfOk result (λ output. outcome_of output ≡ tabled form (text_in input.now)) }
{
    match &input.next {
        Some(next) => slower_output(alloc, &input.problem, next, &input.table),
        None => match form {
            TableForm::Plain => solves_output(alloc, &input.problem, &input.table),
            TableForm::Faster => faster_output(alloc, &input.problem, &input.table),
            TableForm::Slower => unreachable!(),
        },
    }
}

#[tactic(auto, unfolding(crate::specs::Tabling::tabling_outcome))]
fn table_output(alloc: Global, form: TableForm, text: &[u8]) -> Result<Output, NoMemory>
    requires { length text.now ≤ MAX_BYTES }
    ensures { IfOk result (λ output. outcome_of output ≡ tabling_outcome form text.now) }
{
    match read_table(alloc, text, form) {
        Ok(input) => input_output(alloc, form, &input),
        Err(TextFault::Bad(fault)) => Ok(fault_output(alloc, fault)?),
        Err(TextFault::NoMemory) => Err(NoMemory),
    }
}

/// A command that works on a table.
#[derive(Clone, Copy)]
pub struct Tabling(pub TableForm);

impl Answering for Tabling {
    ghost use Rattle.re_words.specs.Tabling.{tabling_outcome};

    ghost fits = { λ _. Unit {0} };

    ghost outcome = { λ tabling. tabling_outcome tabling.0 };

    ghost worth = { λ _ _. Unit {0} };

    ghost judging = { λ _. true };

    fn answer(&self, alloc: Global, text: Vec<u8>) -> Result<Output, NoMemory> {
        table_output(alloc, self.0, text.as_slice())
    }
}
