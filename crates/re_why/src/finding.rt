//! The witness of the first clause that a certificate fails.
ghost use Rattle.re_cert.specs.Bounds.{entries_in, last_problem, map_of, problem_at, row_fits, step_fits, steps_fit};
ghost use Rattle.re_labels.specs.Rows.{IsRow};
ghost use Rattle.re_check.specs.Verdicts.{bound_fault};
ghost use Rattle.re_check.specs.Clauses.{step_fault};
ghost use Rattle.re_check.specs.StepClauses.{HasNextLabels, HasRowSets};
ghost use Rattle.re_problem.specs.Steps.LowerMap.{by_set};
ghost use Rattle.re_why.specs.Finding.{AreBelow, back_witness, bad_witness, bound_refutation, fault_named, image_witness, lost_witness, refutation_at, refuted, row_witness, shut_witness, step_refutation, step_witness, steps_refutation};
ghost use Rattle.re_why.specs.Standing.{IsNamed, standing};
ghost use Rattle.re_why.specs.Witnesses.{IsShown, IsSoundStep};
ghost use Rattle.re_problem.specs.Steps.{SetEntry};
ghost use Rattle.std.specs.List.{AllByRecursion, list_all};
ghost use Rattle.std.specs.Prelude.{◌≡◌, ◌≤◌, ◌<◌, ◌+◌, ℕ, List, [], IfOk, IfSome, Some, length, option_map, true, false};

use crate::end_witness::{back_witness, end_witness};
use crate::map_witness::{image_witness, lost_witness, set_witness};
use crate::row_witness::row_witness;
use crate::upper_witness::{bad_witness, label_witness, shut_witness};
use crate::witness::Witness;
use re_cert::{Certificate, Kind, LowerMap, MAX_STEPS, SetEntry, Step, StepParts};
use re_check::{Clause, Verdict, check, step_clause};
use re_labels::{MAX_LABELS, MAX_ROWS, NoMemory, Row};
use re_problem::Problem;
use std::alloc::Global;

/// The first clause that a certificate fails, at a step or, with the number of steps, behind them, and what shows that it fails.
#[derive(Drop)]
pub struct Refutation {
    /// The number of the step, from 1.
    pub step: u8,
    /// The clause that fails.
    pub clause: Clause,
    /// What shows it.
    pub witness: Witness,
}

// The degrees of the next problem.
fn degrees_of(next: &Problem) -> Witness
    ensures { result ≡ Witness.Degrees next.now.active.degree next.now.passive.degree }
{
    Witness::Degrees(next.active().degree(), next.passive().degree())
}

// What shows first that the rows aren't the maximal rows.
fn wrong_rows(alloc: Global, before: &Problem, rows: &[Row]) -> Result<Option<Witness>, NoMemory>
    requires fits { list_all (row_fits before.now) rows.now ≡ true }
    requires few { length rows.now ≤ MAX_ROWS }
    ensures { IfOk result (λ witness. witness ≡ row_witness before.now.passive (length before.now.names) rows.now) }
{
    let labels = before.names().len() as u8;
    row_witness(alloc, before.passive(), labels, rows)
}

// The first row whose image is no active configuration of the next problem.
fn lost_images(next: &Problem, rows: &[Row], map: &LowerMap) -> Option<Witness>
    requires sets { (entries : List SetEntry) → map_of map.now ≡ by_set entries → HasRowSets rows.now entries }
    requires below { AreBelow (map_of map.now) }
    requires few { length rows.now ≤ MAX_ROWS }
    ensures { result ≡ image_witness next.now.active rows.now (map_of map.now) }
{
    image_witness(next.active(), rows, map)
}

// The first active configuration that can be chosen from sets of which some become labels that are no passive configuration of the
// next problem.
fn lost_choices(before: &Problem, next: &Problem, rows: &[Row], map: &LowerMap) -> Option<Witness>
    requires degree { next.now.passive.degree ≡ before.now.active.degree }
    requires below { AreBelow (map_of map.now) }
    ensures { result ≡ lost_witness before.now.active next.now.passive rows.now (map_of map.now) }
{
    lost_witness(before.active(), next.passive(), rows, map)
}

// What shows first that a lower step fails the clause, which is the first that it fails.
fn lower_witness(
    alloc: Global,
    before: &Problem,
    next: &Problem,
    rows: &[Row],
    map: &LowerMap,
    clause: Clause,
) -> Result<Option<Witness>, NoMemory>
    requires fits { (kind : Kind) × (step_fits kind before.now (record { lower = true; next = next.now; rows = rows.now; map = map_of map.now }) ≡ true) }
    requires fault { step_fault before.now (record { lower = true; next = next.now; rows = rows.now; map = map_of map.now }) ≡ Some clause }
    ensures { IfOk result (λ witness. witness ≡ step_witness before.now (record { lower = true; next = next.now; rows = rows.now; map = map_of map.now }) clause) }
{
    let _names = next.names();
    match clause {
        Clause::L1 => Ok(Some(degrees_of(next))),
        Clause::L2 => wrong_rows(alloc, before, rows),
        Clause::L3 => Ok(set_witness(rows, map)),
        Clause::L4 => Ok(lost_images(next, rows, map)),
        Clause::L5 => Ok(lost_choices(before, next, rows, map)),
        _ => unreachable!(),
    }
}

// The first active configuration of the next problem whose sets are no good row.
fn bad_images(before: &Problem, next: &Problem, entries: &[SetEntry]) -> Option<Witness>
    requires degree { next.now.active.degree ≡ before.now.passive.degree }
    requires labels { HasNextLabels (length next.now.names) entries.now }
    ensures { result ≡ bad_witness before.now.passive next.now.active entries.now }
{
    bad_witness(before.passive(), next.active(), entries)
}

// The first passive configuration of the next problem from whose sets no active configuration can be chosen.
fn shut_images(before: &Problem, next: &Problem, entries: &[SetEntry]) -> Option<Witness>
    requires degree { next.now.passive.degree ≡ before.now.active.degree }
    requires labels { HasNextLabels (length next.now.names) entries.now }
    ensures { result ≡ shut_witness before.now.active next.now.passive entries.now }
{
    shut_witness(before.active(), next.passive(), entries)
}

// The same of an upper step.
fn upper_witness(
    before: &Problem,
    next: &Problem,
    entries: &[SetEntry],
    clause: Clause,
) -> Option<Witness>
    requires fits { (kind : Kind) × (step_fits kind before.now (record { lower = false; next = next.now; rows = []; map = by_set entries.now }) ≡ true) }
    requires fault { step_fault before.now (record { lower = false; next = next.now; rows = []; map = by_set entries.now }) ≡ Some clause }
    ensures { result ≡ step_witness before.now (record { lower = false; next = next.now; rows = []; map = by_set entries.now }) clause }
{
    match clause {
        Clause::U1 => Some(degrees_of(next)),
        Clause::U2 => label_witness(entries, next.names().len()),
        Clause::U3 => bad_images(before, next, entries),
        Clause::U4 => shut_images(before, next, entries),
        _ => unreachable!(),
    }
}

// What shows first that the step fails the clause, which is the first that it fails.
fn step_witness(
    alloc: Global,
    before: &Problem,
    step: &Step,
    clause: Clause,
) -> Result<Option<Witness>, NoMemory>
    requires fits { (kind : Kind) × (step_fits kind before.now step.now ≡ true) }
    requires fault { step_fault before.now step.now ≡ Some clause }
    ensures { IfOk result (λ witness. witness ≡ step_witness before.now step.now clause) }
{
    match &step.parts {
        StepParts::Lower { rows, map } => {
            lower_witness(alloc, before, &step.next, rows.as_slice(), map, clause)
        }
        StepParts::Upper { map } => Ok(upper_witness(before, &step.next, map.as_slice(), clause)),
    }
}

// The refutation of this step and clause, where there is a witness.
fn refuted(step: u8, clause: Clause, witness: Option<Witness>) -> Option<Refutation>
    ensures { result ≡ option_map (refuted step clause) witness }
{
    match witness {
        Some(witness) => Some(Refutation {
            step,
            clause,
            witness,
        }),
        None => None,
    }
}

// The first clause that the step of this number fails, with what shows it.
fn step_refutation(
    alloc: Global,
    before: &Problem,
    number: u8,
    step: &Step,
) -> Result<Option<Refutation>, NoMemory>
    requires { (kind : Kind) × (step_fits kind before.now step.now ≡ true) }
    ensures { IfOk result (λ found. found ≡ step_refutation before.now number step.now) }
{
    match step_clause(before, step) {
        Some(clause) => {
            let witness = step_witness(alloc, before, step, clause)?;
            Ok(refuted(number, clause, witness))
        }
        None => Ok(None),
    }
}

// The first of the steps from this problem that fails a clause, numbered from here on, with what shows it.
fn steps_refutation(
    alloc: Global,
    kind: Kind,
    before: &Problem,
    number: u8,
    steps: &[Step],
) -> Result<Option<Refutation>, NoMemory>
    requires fits { steps_fit kind before.now steps.now ≡ true }
    requires number { number + length steps.now ≤ MAX_STEPS + 1 }
    ensures { IfOk result (λ found. found ≡ steps_refutation before.now number steps.now) }
{
    let [step, others @ ..] = steps else {
        return Ok(None);
    };
    match step_refutation(alloc, before, number, step)? {
        Some(refutation) => Ok(Some(refutation)),
        None => steps_refutation(alloc, kind, step.next(), number + 1, others),
    }
}

// What shows first that a fixed point doesn't come back.
fn no_way_back(certificate: &Certificate) -> Option<Witness>
    ensures { result ≡ back_witness (last_problem certificate.now) (problem_at certificate.now certificate.now.back) certificate.now.renaming }
{
    let _kind = certificate.kind();
    let target = certificate.problem_at(certificate.back() as usize);
    back_witness(certificate.last(), target, certificate.renaming())
}

// What shows that the clause fails, which is the first that fails.
fn refutation_at(
    alloc: Global,
    certificate: &Certificate,
    step: u8,
    clause: Clause,
) -> Result<Option<Refutation>, NoMemory>
    ensures { IfOk result (λ found. found ≡ refutation_at certificate.now step clause) }
{
    match clause {
        Clause::End => {
            let witness = end_witness(certificate.kind(), certificate.last());
            Ok(refuted(step, clause, witness))
        }
        Clause::Back => Ok(refuted(step, clause, no_way_back(certificate))),
        _ => {
            let kind = certificate.kind();
            steps_refutation(alloc, kind, certificate.first(), 1, certificate.steps())
        }
    }
}

// That rows are rows.
fn are_rows(rows: &[Row])
    ensures { AllByRecursion (λ row. IsRow (length row) MAX_LABELS row) rows.now }
{
    let [row, others @ ..] = rows else {
        return;
    };
    let _sets = row.sets();
    are_rows(others)
}

// That the rows of a step are rows, and its next problem a problem.
fn is_sound_step(step: &Step)
    ensures { IsSoundStep step.now }
{
    let _next = step.next().names();
    match &step.parts {
        StepParts::Lower { rows, .. } => are_rows(rows.as_slice()),
        StepParts::Upper { .. } => {}
    }
}

// The same of each step.
fn are_sound(steps: &[Step])
    ensures { AllByRecursion IsSoundStep steps.now }
{
    let [step, others @ ..] = steps else {
        return;
    };
    is_sound_step(step);
    are_sound(others)
}

/// Why a certificate is refused: the step and the clause of its verdict, and what shows first that this clause fails there, in the
/// order of `bound_refutation` of the specs. None exactly where the certificate is accepted. It costs what `check` costs, and up to as
/// much again, and takes memory only where a row is missing.
pub fn why_refused(alloc: Global, certificate: &Certificate) -> Result<Option<Refutation>, NoMemory>
    ensures first { IfOk result (λ found. found ≡ bound_refutation certificate.now) }
    ensures fault { IfOk result (λ found. option_map fault_named found ≡ bound_fault certificate.now) }
    ensures shown { IfOk result (λ found. IfSome found (λ r. IsShown certificate.now r.step r.clause r.witness)) }
    ensures named { IfOk result (λ found. IfSome found (λ r. IsNamed (standing certificate.now r.step r.clause) r.witness)) }
{
    let _first = certificate.first().names();
    are_sound(certificate.steps());
    match check(certificate) {
        Verdict::Accepted { .. } => Ok(None),
        Verdict::Refused { step, clause } => refutation_at(alloc, certificate, step, clause),
    }
}
