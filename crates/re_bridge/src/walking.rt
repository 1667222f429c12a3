//! The walks over the assignments of the sets and of the rows.
ghost use Rattle.re_bridge.specs.Bridges.{rows_of, sets_of, walk_by_row, walk_by_set};
ghost use Rattle.re_walks.specs.Walking.{cut, found, nowhere};
ghost use Rattle.re_check.specs.Clauses.{are_exchanged};
ghost use Rattle.re_labels.specs.declared.TheConstants.{MAX_ROWS};
ghost use Rattle.std.specs.Prelude.{◌≡◌, ◌≤◌, ◌*◌, Err, IfOk, IfSome, MatchOption, length, true};

use crate::by_row::passes_by_row;
use crate::by_set::passes_by_set;
use crate::finding::BridgeFault;
use re_labels::{LabelSet, Row};
use re_problem::Problem;
use re_walks::follow;
use std::alloc::Global;

/// The first labels of the sets with which the images of the rows and of the allowed multisets are configurations.
pub(crate) fn walk_by_set(
    alloc: Global,
    before: &Problem,
    next: &Problem,
    rows: &[Row],
    sets: &[LabelSet],
    tries: u32,
) -> Result<Option<Vec<u8>>, BridgeFault>
    requires exchanged { are_exchanged before.now next.now ≡ true }
    requires rows { rows.now ≡ rows_of before.now }
    requires sets { sets.now ≡ sets_of before.now }
    ensures walked { IfOk result (λ labels. MatchOption labels (walk_by_set before.now next.now tries ≡ nowhere) (λ labels. walk_by_set before.now next.now tries ≡ found labels.items)) }
    ensures few { IfOk result (λ labels. IfSome labels (λ labels. length labels.items ≤ length sets.now)) }
    ensures cut { result ≡ Err BridgeFault.TooManyTries → walk_by_set before.now next.now tries ≡ cut }
    ensures known { result ≡ Err BridgeFault.TooManyRows → ⊥ }
{
    let n = next.names().len() as u8;
    let mut labels = Vec::new(alloc);
    for _try in 0..tries {
        let passes = passes_by_set(alloc, before, next, rows, sets, labels.as_slice())?;
        if passes && labels.len() == sets.len() {
            return Ok(Some(labels));
        }
        if !follow(&mut labels, n, passes)? {
            return Ok(None);
        }
    }
    Err(BridgeFault::TooManyTries)
}

/// The first labels of the places of the rows with which the images of the rows are configurations, and each choice of a label that the
/// sets of an allowed multiset become is one.
pub(crate) fn walk_by_row(
    alloc: Global,
    before: &Problem,
    next: &Problem,
    rows: &[Row],
    tries: u32,
) -> Result<Option<Vec<u8>>, BridgeFault>
    requires exchanged { are_exchanged before.now next.now ≡ true }
    requires rows { rows.now ≡ rows_of before.now }
    requires few { length rows.now ≤ MAX_ROWS }
    ensures walked { IfOk result (λ labels. MatchOption labels (walk_by_row before.now next.now tries ≡ nowhere) (λ labels. walk_by_row before.now next.now tries ≡ found labels.items)) }
    ensures cut { result ≡ Err BridgeFault.TooManyTries → walk_by_row before.now next.now tries ≡ cut }
    ensures known { result ≡ Err BridgeFault.TooManyRows → ⊥ }
{
    let n = next.names().len() as u8;
    let places = rows.len() * next.active().degree() as usize;
    let mut labels = Vec::new(alloc);
    for _try in 0..tries {
        let passes = passes_by_row(alloc, before, next, rows, labels.as_slice())?;
        if passes && labels.len() == places {
            return Ok(Some(labels));
        }
        if !follow(&mut labels, n, passes)? {
            return Ok(None);
        }
    }
    Err(BridgeFault::TooManyTries)
}
