//! The map of a lower step from one problem to another.
ghost use Rattle.re_bridge.specs.Bridges.{IsFound, bridge_of, cut_off, has_many_rows, missing, over, row_bridge, rows_of, set_bridge, sets_of, walk_by_row, walk_by_set};
ghost use Rattle.re_bridge.specs.Laws.{IsAnswer};
ghost use Rattle.re_cert.specs.Bounds.{map_of};
ghost use Rattle.re_check.specs.Clauses.{are_exchanged};
ghost use Rattle.std.specs.Prelude.{◌≡◌, ◌≤◌, Err, IfOk, MatchOption, length, false, true};

use crate::by_row::images_for;
use crate::walking::{walk_by_row, walk_by_set};
use re_cert::{LowerMap, StepParts};
use re_check::are_exchanged;
use re_labels::{LabelSet, MAX_ROWS, NoMemory, Row};
use re_problem::Problem;
use re_step::{RowsFault, maximal_rows, sets_of_rows};
use re_walks::entries_for;
use std::alloc::Global;

/// Why it isn't known whether there is a bridge.
#[derive(Clone, Copy, Debug, PartialEq, Eq)]
pub enum BridgeFault {
    /// The passive constraint before has more than `re_labels::MAX_ROWS` maximal rows.
    TooManyRows,
    /// One of the walks doesn't come to an end with so many tries.
    TooManyTries,
    /// There was no memory.
    NoMemory,
}

impl From<NoMemory> for BridgeFault {
    ghost use Rattle.re_bridge.specs.declared.finding.BridgeFault.TheVariants.{NoMemory as no_memory};

    ghost from_gives = { λ _ e. e ≡ no_memory };

    fn from(_: NoMemory) -> Self {
        BridgeFault::NoMemory
    }
}

// The map by rows of the first walk that finds one.
fn map_by_row(
    alloc: Global,
    before: &Problem,
    next: &Problem,
    rows: &[Row],
    tries: u32,
) -> Result<Option<LowerMap>, BridgeFault>
    requires exchanged { are_exchanged before.now next.now ≡ true }
    requires rows { rows.now ≡ rows_of before.now }
    requires few { length rows.now ≤ MAX_ROWS }
    ensures map { IfOk result (λ map. MatchOption map (row_bridge next.now (walk_by_row before.now next.now tries) ≡ missing)
        (λ map. row_bridge next.now (walk_by_row before.now next.now tries) ≡ over (map_of map))) }
    ensures tries { result ≡ Err BridgeFault.TooManyTries → row_bridge next.now (walk_by_row before.now next.now tries) ≡ cut_off }
    ensures known { result ≡ Err BridgeFault.TooManyRows → ⊥ }
{
    let Some(labels) = walk_by_row(alloc, before, next, rows, tries)? else {
        return Ok(None);
    };
    let images = images_for(alloc, next.active().degree(), labels.as_slice())?;
    Ok(Some(LowerMap::ByRow(images)))
}

// The map by sets of the first walk that finds one, or where there is none the map by rows.
fn found_map(
    alloc: Global,
    before: &Problem,
    next: &Problem,
    rows: &[Row],
    sets: &[LabelSet],
    tries: u32,
) -> Result<Option<LowerMap>, BridgeFault>
    requires exchanged { are_exchanged before.now next.now ≡ true }
    requires rows { rows.now ≡ rows_of before.now }
    requires few { length rows.now ≤ MAX_ROWS }
    requires sets { sets.now ≡ sets_of before.now }
    ensures map { IfOk result (λ map. MatchOption map (set_bridge before.now next.now tries (walk_by_set before.now next.now tries) ≡ missing)
        (λ map. set_bridge before.now next.now tries (walk_by_set before.now next.now tries) ≡ over (map_of map))) }
    ensures tries { result ≡ Err BridgeFault.TooManyTries → set_bridge before.now next.now tries (walk_by_set before.now next.now tries) ≡ cut_off }
    ensures known { result ≡ Err BridgeFault.TooManyRows → ⊥ }
{
    let Some(labels) = walk_by_set(alloc, before, next, rows, sets, tries)? else {
        return map_by_row(alloc, before, next, rows, tries);
    };
    let entries = entries_for(alloc, sets, labels.as_slice())?;
    Ok(Some(LowerMap::BySet(entries)))
}

// The rows and the map of the step, where the degrees are exchanged.
fn parts_over(
    alloc: Global,
    before: &Problem,
    next: &Problem,
    rows: Vec<Row>,
    tries: u32,
) -> Result<Option<StepParts>, BridgeFault>
    requires exchanged { are_exchanged before.now next.now ≡ true }
    requires rows { rows.items ≡ rows_of before.now }
    requires few { length rows.items ≤ MAX_ROWS }
    ensures found { IfOk result (IsFound before.now next.now tries) }
    ensures tries { result ≡ Err BridgeFault.TooManyTries → bridge_of before.now next.now tries ≡ cut_off }
    ensures known { result ≡ Err BridgeFault.TooManyRows → ⊥ }
{
    let labels = before.names().len() as u8;
    let sets = sets_of_rows(alloc, before.passive(), labels, rows.as_slice())?;
    match found_map(alloc, before, next, rows.as_slice(), sets.as_slice(), tries)? {
        Some(map) => Ok(Some(StepParts::Lower { rows, map })),
        None => Ok(None),
    }
}

// The parts of the step by the map of the bridge.
fn bridge_parts(
    alloc: Global,
    before: &Problem,
    next: &Problem,
    tries: u32,
) -> Result<Option<StepParts>, BridgeFault>
    ensures found { IfOk result (IsFound before.now next.now tries) }
    ensures few { IfOk result (λ _. has_many_rows before.now next.now ≡ false) }
    ensures tries { result ≡ Err BridgeFault.TooManyTries → (bridge_of before.now next.now tries ≡ cut_off) × (has_many_rows before.now next.now ≡ false) }
    ensures rows { result ≡ Err BridgeFault.TooManyRows → has_many_rows before.now next.now ≡ true }
{
    if !are_exchanged(before, next) {
        return Ok(None);
    }
    let labels = before.names().len() as u8;
    match maximal_rows(alloc, before.passive(), labels) {
        Ok(rows) => parts_over(alloc, before, next, rows, tries),
        Err(RowsFault::TooManyRows) => Err(BridgeFault::TooManyRows),
        Err(RowsFault::NoMemory) => Err(BridgeFault::NoMemory),
    }
}

/// The rows and the map of a lower step from the one problem to the other: the maximal rows of the passive constraint, and the first map by
/// sets in the lexicographic order of the labels of the sets, which stand in the order of their numbers; where there is no map by sets, the
/// first map by rows, in the lexicographic order of the labels of the images, row by row. None exactly where no lower step leads from the
/// one problem to the other: also where the degrees aren't exchanged.
///
/// Each of the two walks gives labels to one place after the other, and goes back as soon as some row or some allowed multiset whose sets
/// all have labels has an image that is no configuration, or, by rows, no configuration begins with the labels of an image. Each list of
/// labels that is tested is a try, and costs what `keeps_rows` and `keeps_allowed` of `re_check` cost. `TooManyTries` comes exactly where a
/// walk needs more than `tries`, `TooManyRows` where there are more maximal rows than `re_labels::MAX_ROWS`.
pub fn find_bridge(
    alloc: Global,
    before: &Problem,
    next: &Problem,
    tries: u32,
) -> Result<Option<StepParts>, BridgeFault>
    ensures found { IfOk result (IsFound before.now next.now tries) }
    ensures answer { IfOk result (IsAnswer before.now next.now) }
    ensures few { IfOk result (λ _. has_many_rows before.now next.now ≡ false) }
    ensures tries { result ≡ Err BridgeFault.TooManyTries → (bridge_of before.now next.now tries ≡ cut_off) × (has_many_rows before.now next.now ≡ false) }
    ensures rows { result ≡ Err BridgeFault.TooManyRows → has_many_rows before.now next.now ≡ true }
{
    let _before = before.names();
    let _next = next.names();
    bridge_parts(alloc, before, next, tries)
}
