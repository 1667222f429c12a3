//! An index of the rows of a list by the labels of their sets.
ghost use Rattle.re_boxes.specs.Sets.{AreSets};
ghost use Rattle.re_labels.specs.GoodRows.{IsDominated};
ghost use Rattle.std.specs.Prelude.{◌≡◌, ◌≤◌, ◌<◌, ◌+◌, ◌↔◌, ℕ, List, Contains, IsTrue, length, true};

use crate::holding::{found_holds, has_top, large_first, row_holds};
use crate::strength_choosing::least_of;
use arrayvec::ArrayVec;
use re_labels::{LabelSet, MAX_LABELS, Row};

// How many rows stand in a block, and how many labels there are.
const BLOCK: usize = 128;

// How many marks a block has: one for each place of six and each label.
const MARKS: usize = 768;

// How many blocks there may be.
const BLOCKS: usize = 9;

// Up to how many rows are compared one by one.
const FEW: usize = 8;

/// The rows of a list by the labels of their sets, so that a search meets many rows at once. The rows stand in blocks of 128; a
/// block has, for each place and each label, the numbers within it of the rows that have the label at the place. It holds the
/// first 1,152 rows, and takes no memory.
#[derive(Drop)]
pub struct RowIndex {
    marks: ArrayVec<LabelSet, 6912>,
    rows: usize,
}

// The rows among those found that have each of the labels, by the marks from this one on.
fn having(marks: &[LabelSet], start: usize, labels: LabelSet, found: LabelSet) -> LabelSet
    requires { start + BLOCK ≤ length marks.now }
{
    let Some(label) = least_of(labels) else {
        return found;
    };
    let more = found.meet(marks[start + label as usize]);
    if more.is_empty() {
        return more;
    }
    having(marks, start, labels.remove(label), more)
}

// A row among those found whose sets at the free places, the bits of a number, hold the sets, each one of them.
fn holder(
    marks: &[LabelSet],
    start: usize,
    free: u8,
    sets: &[LabelSet],
    found: LabelSet,
) -> Option<u8>
    requires { start + MARKS ≤ length marks.now }
{
    let [first, rest @ ..] = sets else {
        return found.first();
    };
    for place in 0..6u8 {
        let later = free >> place;
        if later == 0 {
            return None;
        }
        if later & 1 == 1 {
            let more = having(marks, start + place as usize * BLOCK, *first, found);
            if !more.is_empty() {
                let row = holder(marks, start, free & !(1 << place), rest, more);
                if row.is_some() {
                    return row;
                }
            }
        }
    }
    None
}

// The row with this number in its block has the labels, by the marks from this one on.
fn mark(marks: &mut ArrayVec<LabelSet, 6912>, start: usize, number: u8, labels: LabelSet)
    requires start { start ≤ 8000 }
    requires number { number < MAX_LABELS }
{
    let Some(label) = least_of(labels) else {
        return;
    };
    let place = start + label as usize;
    if place < marks.len() {
        marks[place] = marks[place].insert(number);
    }
    mark(marks, start, number, labels.remove(label));
}

impl RowIndex {
    /// The index of no rows.
    pub fn new() -> RowIndex {
        RowIndex {
            marks: ArrayVec::new(),
            rows: 0,
        }
    }

    /// The index of these rows. It walks the labels of their sets.
    pub fn of(rows: &[Row]) -> RowIndex {
        let mut index = RowIndex::new();
        for row in rows {
            index.add(row);
        }
        index
    }

    // A block without marks, where there is room for one.
    fn add_block(&mut self) {
        for _mark in 0..MARKS {
            let _ = self.marks.try_push(LabelSet::empty());
        }
    }

    /// The row stands behind the others then. It walks the labels of its sets.
    pub fn add(&mut self, row: &Row) {
        let rows = self.rows;
        let block = rows / BLOCK;
        if block >= BLOCKS {
            return;
        }
        let number = rows % BLOCK;
        if number == 0 {
            self.add_block();
        }
        let sets = row.sets();
        for place in 0..sets.len() {
            let start = block * MARKS + place * BLOCK;
            mark(&mut self.marks, start, number as u8, sets[place]);
        }
        self.rows = rows + 1;
    }
}

// Whether one of the rows is seen to dominate the sets, each row asked in turn.
fn some_row_holds(rows: &[Row], sets: &[LabelSet]) -> bool
    requires { length sets.now ≤ 6 }
    ensures { result ≡ true → IsDominated rows.now sets.now }
{
    for row in 0..rows.len() {
        if row_holds(rows, row, sets) {
            return true;
        }
    }
    false
}

/// Whether a row of the list is seen to dominate the sets: true only where one does. Up to eight rows are compared with the sets
/// one by one. Of more rows the index names one that dominates them, and it alone is compared. The rows that were added last are asked
/// first, and of the sets a largest one. With m rows of d sets that is m / 128 steps for each label and place, and few of them where no
/// row has the first set.
pub fn is_seen_dominated(rows: &[Row], lookup: &RowIndex, sets: &[LabelSet]) -> bool
    requires { length sets.now ≤ 6 }
    ensures { result ≡ true → IsDominated rows.now sets.now }
{
    if rows.len() <= FEW {
        return some_row_holds(rows, sets);
    }
    let hard = large_first(sets);
    let places = 63u8 >> (6 - hard.len());
    let all = LabelSet::of_number(u128::MAX);
    let blocks = lookup.marks.len() / MARKS;
    for later in 0..blocks {
        let block = blocks - 1 - later;
        if let Some(number) = holder(
            lookup.marks.as_slice(),
            block * MARKS,
            places,
            hard.as_slice(),
            all,
        ) {
            let row = block * BLOCK + number as usize;
            if found_holds(rows, row, hard.as_slice()) {
                return true;
            }
        }
    }
    false
}

/// Whether a row of the list dominates the sets. Where the index names none that does, it walks the list.
pub fn is_dominated(rows: &[Row], lookup: &RowIndex, sets: &[LabelSet]) -> bool
    requires two { 2 ≤ length sets.now }
    requires six { length sets.now ≤ 6 }
    requires sets { AreSets MAX_LABELS sets.now }
    requires alike { (top : List (List ℕ)) → Contains rows.now top → length top ≡ length sets.now }
    ensures { IsTrue result ↔ IsDominated rows.now sets.now }
{
    is_seen_dominated(rows, lookup, sets) || has_top(rows, sets)
}
