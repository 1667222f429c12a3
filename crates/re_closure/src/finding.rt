//! The certificate that the closure of a problem comes back.
ghost use Rattle.re_cert.specs.Bounds.{has_row_maps as have_row_maps, last_problem};
ghost use Rattle.re_closure.specs.Closed.{IsClosureOf};
ghost use Rattle.re_closure.specs.Closures.{Answers, HasRoom, IsClosed, IsSolvableBy, LimitIs};
ghost use Rattle.re_closure.specs.Sides.{IsMapOf};
ghost use Rattle.re_labels.specs.Rows.{placed, set_at};
ghost use Rattle.re_labels.specs.declared.TheConstants.{MAX_ROWS};
ghost use Rattle.re_labels.specs.Lists.{place_of};
ghost use Rattle.re_problem.specs.NamedProblems.{unnamed};
ghost use Rattle.re_problem.specs.Zero.{zero_place};
ghost use Rattle.re_labels.specs.GoodRows.{max_rows};
ghost use Rattle.std.specs.Prelude.{◌≡◌, ◌≤◌, Err, IfOk, None, Some, [], length, slice_index_or};

use crate::certificates::certificate_by;
use crate::closure::{Closure, closure_of};
use crate::occurring::map_of;
use crate::stepping::step_with;
use crate::types::{Closing, ClosureFault, ClosureLimit, StepMap};
use re_algo::set_at;
use re_cert::{Certificate, MAX_STEPS};
use re_chains::{LowerChain, have_row_maps, over_problems};
use re_labels::{LabelSet, MAX_LABELS, NoMemory, Row};
use re_problem::{Problem, zero_round};
use re_step::{RowsFault, maximal_rows};
use std::alloc::Global;

/// How many steps lead to the closure and back.
pub(crate) const CLOSURE_STEPS: usize = 3;

/// The maximal rows of the problem, which are few.
pub(crate) fn rows_of(alloc: Global, problem: &Problem) -> Result<Vec<Row>, NoMemory>
    requires { length (max_rows problem.now.passive (length problem.now.names)) ≤ MAX_ROWS }
    ensures { IfOk result (λ rows. rows.items ≡ max_rows problem.now.passive (length problem.now.names)) }
{
    match maximal_rows(alloc, problem.passive(), problem.names().len() as u8) {
        Ok(rows) => Ok(rows),
        Err(RowsFault::TooManyRows) => unreachable!(),
        Err(RowsFault::NoMemory) => Err(NoMemory),
    }
}

// The map of the step from the problem, which has few maximal rows: each set of them is right-closed, and goes to its label.
fn first_map(alloc: Global, problem: &Problem, sets: &[LabelSet]) -> Result<StepMap, NoMemory>
    requires sets { length sets.now ≤ MAX_LABELS }
    requires few { length (max_rows problem.now.passive (length problem.now.names)) ≤ MAX_ROWS }
    ensures { IfOk result (IsMapOf problem.now.passive (length problem.now.names) (place_of sets.now)) }
{
    let labels = problem.names().len() as u8;
    let rows = rows_of(alloc, problem)?;
    map_of(alloc, problem.passive(), labels, sets, rows)
}

// The certificate that goes on from the chain by the closure of its last problem.
fn certificate_of(
    alloc: Global,
    chain: &LowerChain,
    closure: Closure,
) -> Result<Certificate, NoMemory>
    requires room { HasRoom chain.now.certificate }
    requires closure { IsClosureOf (unnamed (last_problem chain.now.certificate)) closure }
    requires not_zero { zero_place (unnamed closure.closed) ≡ None }
    ensures { IfOk result (IsClosed chain.now.certificate) }
{
    let chain = &chain.certificate;
    over_problems(chain);
    let by_rows = have_row_maps(chain.steps());
    let map = first_map(alloc, chain.last(), closure.sets.as_slice())?;
    let between = closure.between.copy()?;
    let first = step_with(alloc, between, map, by_rows)?;
    certificate_by(alloc, by_rows, chain, first, closure)
}

/// The right-closed sets of the labels of the active configuration of the closure at this place.
pub(crate) fn fit_at(
    alloc: Global,
    closure: &Closure,
    place: usize,
) -> Result<Vec<LabelSet>, NoMemory>
    ensures { IfOk result (λ sets. sets.items ≡ placed closure.now.sets.items (slice_index_or closure.now.closed.active.configs place [])) }
{
    let mut sets = Vec::new(alloc);
    let Some(config) = closure.closed.active().get(place) else {
        return Ok(sets);
    };
    for label in config.labels() {
        sets.push(set_at(closure.sets.as_slice(), *label as usize))?;
    }
    Ok(sets)
}

// What the closure comes to, behind a problem that isn't solvable without communication.
fn closed(alloc: Global, chain: &LowerChain) -> Result<Closing, ClosureFault>
    requires { zero_place (unnamed (last_problem chain.now.certificate)) ≡ None }
    ensures answers { IfOk result (Answers chain.now.certificate) }
    ensures limit { (passed : ClosureLimit) → result ≡ Err (ClosureFault.Limit passed) → LimitIs chain.now.certificate passed }
{
    let certificate = &chain.certificate;
    over_problems(certificate);
    if certificate.steps().len() + CLOSURE_STEPS > MAX_STEPS {
        return Err(ClosureFault::Limit(ClosureLimit::Steps));
    }
    let closure = closure_of(alloc, certificate.last())?;
    match zero_round(&closure.closed) {
        Some(place) => Ok(Closing::SolvableClosure(fit_at(alloc, &closure, place)?)),
        None => Ok(Closing::Found(certificate_of(alloc, chain, closure)?)),
    }
}

/// The fixed point that goes on from a chain of lower steps and shows that no algorithm solves its first problem in any number of
/// rounds: by the closure of its last problem (after Balliu, Brandt, Kuhn, Olivetti: Distributed Delta-coloring plays hide-and-seek,
/// STOC 2022).
///
/// The labels of the closure are right-closed sets of labels: with each label they have those at least as strong around passive nodes.
/// Its constraints are the least ones that hold the configurations of the problem, each label being the set of those at least as
/// strong, and are closed: around passive nodes with two configurations also the union of two of their sets with what the others have
/// in common, in any order, and smaller sets; around active nodes the other way round. The certificate leads from the problem to the
/// closure with its sides exchanged, to the closure, and back.
///
/// The answer is `Solvable` exactly where the last problem is solvable without communication. Else the first limit that is passed is
/// refused: of steps; of rows or of combinations, on the way to the closure; of labels; of configurations; and then the answer is `SolvableClosure` exactly
/// where the closure is solvable without communication, and else `Found`: such a certificate comes of each problem whose closure passes
/// no limit. The cost is that of `re_closure::closure_families`, of `re_step::allowed` for both sides, and of `re_step::maximal_rows`
/// for the last problem.
pub fn find_closure(alloc: Global, chain: &LowerChain) -> Result<Closing, ClosureFault>
    ensures answers { IfOk result (Answers chain.now.certificate) }
    ensures limit { (passed : ClosureLimit) → result ≡ Err (ClosureFault.Limit passed) →
        (zero_place (unnamed (last_problem chain.now.certificate)) ≡ None) × LimitIs chain.now.certificate passed }
{
    match zero_round(chain.certificate.last()) {
        Some(place) => Ok(Closing::Solvable(place)),
        None => closed(alloc, chain),
    }
}
