//! The certificate that the closure of a problem that a diagram raises comes back.
ghost use Rattle.re_algo.specs.Constructions.{IsSeen, top_places};
ghost use Rattle.re_cert.specs.Bounds.{last_problem};
ghost use Rattle.re_closure.specs.Closed.{IsClosureOf};
ghost use Rattle.re_closure.specs.Closures.{HasRoom};
ghost use Rattle.re_closure.specs.DiagramTexts.{AreEdges};
ghost use Rattle.re_closure.specs.Diagrams.{raised};
ghost use Rattle.re_closure.specs.RaisedClosures.{IsRaisedClosed, MayRise, RaisedAnswers, RaisedLimitIs};
ghost use Rattle.re_closure.specs.declared.types.ClosureLimit.TheVariants.{Rows};
ghost use Rattle.re_labels.specs.declared.TheConstants.{MAX_ROWS};
ghost use Rattle.re_labels.specs.declared.TheConstants.{MAX_LABELS};
ghost use Rattle.re_problem.specs.NamedProblems.{unnamed};
ghost use Rattle.re_problem.specs.Steps.LowerMap.{by_row};
ghost use Rattle.re_problem.specs.Steps.{IsRelaxed};
ghost use Rattle.re_problem.specs.Zero.{zero_place};
ghost use Rattle.re_labels.specs.GoodRows.{max_rows};
ghost use Rattle.std.specs.List.{AllByRecursion};
ghost use Rattle.std.specs.Prelude.{◌≡◌, ◌<◌, ◌≤◌, ℕ, Err, IfOk, List, None, length, map, true};

use crate::certificates::certificate_by;
use crate::closure::{Closure, closure_of};
use crate::diagrams::raised;
use crate::finding::{CLOSURE_STEPS, fit_at, rows_of};
use crate::types::{Closing, ClosureFault, ClosureLimit};
use re_cert::{Certificate, LowerMap, MAX_STEPS, RowImage, Step, StepParts};
use re_chains::{LowerChain, over_problems};
use re_labels::{LabelSet, NoMemory, Row};
use re_problem::{Problem, zero_round};
use re_shaping::{by_rows, top_labels};
use re_step::{RowsFault, maximal_rows};
use std::alloc::Global;

// The maximal rows of the problem, or the limit that they are too many.
fn few_rows(alloc: Global, problem: &Problem) -> Result<Vec<Row>, ClosureFault>
    ensures rows { IfOk result (λ rows. rows.items ≡ max_rows problem.now.passive (length problem.now.names)) }
    ensures few { IfOk result (λ _. length (max_rows problem.now.passive (length problem.now.names)) ≤ MAX_ROWS) }
    ensures limit { (passed : ClosureLimit) → result ≡ Err (ClosureFault.Limit passed) →
        (passed ≡ Rows) × (MAX_ROWS < length (max_rows problem.now.passive (length problem.now.names))) }
{
    match maximal_rows(alloc, problem.passive(), problem.names().len() as u8) {
        Ok(rows) => Ok(rows),
        Err(RowsFault::TooManyRows) => Err(ClosureFault::Limit(ClosureLimit::Rows)),
        Err(RowsFault::NoMemory) => Err(ClosureFault::NoMemory),
    }
}

// Where the rows go: the labels of the sets of the first of the other rows that dominate them.
fn images_of(
    alloc: Global,
    tops: &[Row],
    sets: &[LabelSet],
    rows: &[Row],
) -> Result<Vec<RowImage>, NoMemory>
    requires few { length sets.now ≤ MAX_LABELS }
    requires seen { AllByRecursion (IsSeen tops.now) rows.now }
    ensures { IfOk result (λ images. images.items ≡ map (top_places tops.now sets.now) rows.now) }
{
    let mut images = Vec::new(alloc);
    for row in rows {
        images.push(top_labels(tops, sets, row.sets()))?;
    }
    Ok(images)
}

// The step with these rows to the problem between that goes with the closure of a relaxation.
fn raised_step(
    alloc: Global,
    relaxed: &Problem,
    rows: Vec<Row>,
    closure: &Closure,
) -> Result<Step, NoMemory>
    requires sets { length closure.now.sets.items ≤ MAX_LABELS }
    requires few { length (max_rows relaxed.now.passive (length relaxed.now.names)) ≤ MAX_ROWS }
    requires seen { AllByRecursion (IsSeen (max_rows relaxed.now.passive (length relaxed.now.names))) rows.items }
    ensures { IfOk result (λ s. s ≡ record {
      lower = true;
      next = closure.now.between;
      rows = rows.items;
      map = by_row (map (top_places (max_rows relaxed.now.passive (length relaxed.now.names)) closure.now.sets.items) rows.items);
    }) }
{
    let tops = rows_of(alloc, relaxed)?;
    let images = images_of(
        alloc,
        tops.as_slice(),
        closure.sets.as_slice(),
        rows.as_slice(),
    )?;
    let next = closure.between.copy()?;
    let map = LowerMap::ByRow(images);
    let parts = StepParts::Lower { rows, map };
    Ok(Step { next, parts })
}

// The certificate that goes on from the chain, its maps by rows, by the closure of this relaxation of its last problem.
fn raised_certificate(
    alloc: Global,
    chain: &LowerChain,
    relaxed: &Problem,
    rows: Vec<Row>,
    closure: Closure,
) -> Result<Certificate, NoMemory>
    requires room { HasRoom chain.now.certificate }
    requires labels { length (last_problem chain.now.certificate).names ≡ length relaxed.now.names }
    requires relaxed { IsRelaxed (unnamed (last_problem chain.now.certificate)) (unnamed relaxed.now) (λ x. x) }
    requires rows { rows.items ≡ max_rows (last_problem chain.now.certificate).passive (length (last_problem chain.now.certificate).names) }
    requires few { length (max_rows (last_problem chain.now.certificate).passive (length (last_problem chain.now.certificate).names)) ≤ MAX_ROWS }
    requires closure { IsClosureOf (unnamed relaxed.now) closure }
    requires not_zero { zero_place (unnamed closure.closed) ≡ None }
    ensures { (edges : List (ℕ × ℕ)) → relaxed.now ≡ raised edges (last_problem chain.now.certificate) → MayRise edges (last_problem chain.now.certificate) →
        IfOk result (IsRaisedClosed edges chain.now.certificate) }
{
    let chain = &chain.certificate;
    over_problems(chain);
    let _names = relaxed.names();
    let _steps = chain.steps();
    let first = raised_step(alloc, relaxed, rows, &closure)?;
    let written = by_rows(alloc, chain)?;
    certificate_by(alloc, true, &written, first, closure)
}

// What the closure of the raised problem comes to, behind a problem that isn't solvable without communication.
fn raised_closed(
    alloc: Global,
    chain: &LowerChain,
    edges: &[(u8, u8)],
) -> Result<Closing, ClosureFault>
    requires edges { AreEdges (length (last_problem chain.now.certificate).names) edges.now }
    requires not_zero { zero_place (unnamed (last_problem chain.now.certificate)) ≡ None }
    ensures answers { IfOk result (RaisedAnswers edges.now chain.now.certificate) }
    ensures limit { (passed : ClosureLimit) → result ≡ Err (ClosureFault.Limit passed) → RaisedLimitIs edges.now chain.now.certificate passed }
{
    let certificate = &chain.certificate;
    over_problems(certificate);
    if certificate.steps().len() + CLOSURE_STEPS > MAX_STEPS {
        return Err(ClosureFault::Limit(ClosureLimit::Steps));
    }
    let raised = raised(alloc, certificate.last(), edges)?;
    let rows = few_rows(alloc, certificate.last())?;
    let closure = closure_of(alloc, &raised)?;
    match zero_round(&closure.closed) {
        Some(place) => Ok(Closing::SolvableClosure(fit_at(alloc, &closure, place)?)),
        None => Ok(Closing::Found(raised_certificate(alloc, chain, &raised, rows, closure)?)),
    }
}

/// The fixed point that goes on from a chain of lower steps by the closure of its last problem, relaxed so that its passive constraint
/// respects a diagram: around passive nodes the second label of each edge may stand wherever the first one may. The last problem leads, each
/// of its maximal rows going to one of the raised problem that dominates it, to that closure with its sides exchanged; so all maps are by rows.
/// It says more than `find_closure` may, since right-closed sets of a greater order are greater, and fewer configurations of them are
/// solvable around active nodes; and less, since the raised problem has more passive configurations.
///
/// The answer is `Solvable` exactly where the last problem is solvable without communication. Else the first limit that is passed is refused: of
/// steps; of passive configurations of the raised problem; of maximal rows of the last problem; and then those of the closure of the raised
/// problem, as `find_closure` has them. Then it is `SolvableClosure` exactly where that closure is solvable without communication, and else
/// `Found`. Beside what `find_closure` costs on the raised problem it takes for each maximal row of the last problem a test of the raised one's.
pub fn find_raised(
    alloc: Global,
    chain: &LowerChain,
    edges: &[(u8, u8)],
) -> Result<Closing, ClosureFault>
    requires { AreEdges (length (last_problem chain.now.certificate).names) edges.now }
    ensures answers { IfOk result (RaisedAnswers edges.now chain.now.certificate) }
    ensures limit { (passed : ClosureLimit) → result ≡ Err (ClosureFault.Limit passed) →
        (zero_place (unnamed (last_problem chain.now.certificate)) ≡ None) × RaisedLimitIs edges.now chain.now.certificate passed }
{
    match zero_round(chain.certificate.last()) {
        Some(place) => Ok(Closing::Solvable(place)),
        None => raised_closed(alloc, chain, edges),
    }
}
