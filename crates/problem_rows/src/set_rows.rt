//! Rows of two sets of the labels A, B and C by their numbers, which are 1, 2 and 4 and the sums of those.
ghost use Rattle.std.specs.Prelude.{◌≤◌};

use crate::tables::row_of;
use re_labels::{Config, LabelSet, Multisets, Placement, Placements, Row};

fn is_dominance(row: &Row, other: &Row, want: bool) -> bool {
    row.sets().len() == 2 && other.sets().len() == 2 && row.dominates(other) == want
}

// Whether both are rows, and the first dominates the second as wanted.
fn is_dominated(row: [u128; 2], other: [u128; 2], want: bool) -> bool {
    match row_of(row) {
        Some(row) => match row_of(other) {
            Some(other) => is_dominance(&row, &other, want),
            None => false,
        },
        None => false,
    }
}

// Where `A A` and `B B` are not allowed, `[C] [ABC]` and `[AC] [BC]` are the maximal rows.
#[test]
fn domination(rt: HostRuntime) {
    for (row, other, want) in [
        ([4, 7], [5, 6], false),
        ([5, 6], [4, 7], false),
        ([5, 6], [1, 6], true),
        ([5, 6], [4, 1], true),
        ([5, 6], [2, 1], true),
        ([1, 6], [5, 6], false),
        ([7, 7], [4, 7], true),
    ] {
        assert!(rt; is_dominated(row, other, want));
    }
}

fn numbers_of(row: &Row) -> Option<[u128; 2]> {
    match row.sets() {
        [first, second] => Some([first.number(), second.number()]),
        _ => None,
    }
}

// The numbers of the combination in the order of the placement at this place, which are 0 where there is none.
fn combined_by(row: &Row, other: &Row, placement: &Placement, place: usize) -> Option<[u128; 2]> {
    if place >= 2
        || placement.places().len() != 2
        || row.sets().len() != 2
        || other.sets().len() != 2
    {
        return None;
    }
    match row.combine(other, placement, place) {
        Some(got) => numbers_of(&got),
        None => Some([0, 0]),
    }
}

// The same in this order.
fn combined_so(row: &Row, other: &Row, order: [u8; 2], place: usize) -> Option<[u128; 2]> {
    for placement in Placements::new(2) {
        if placement.places() == order.as_slice() {
            return combined_by(row, other, &placement, place);
        }
    }
    None
}

fn is_combined(
    row: [u128; 2],
    other: [u128; 2],
    order: [u8; 2],
    place: usize,
    want: [u128; 2],
) -> bool {
    match row_of(row) {
        Some(row) => match row_of(other) {
            Some(other) => combined_so(&row, &other, order, place) == Some(want),
            None => false,
        },
        None => false,
    }
}

#[test]
fn combinations(rt: HostRuntime) {
    for (row, other, order, place, want) in [
        ([4, 7], [5, 6], [0, 1], 0, [5, 6]),
        ([4, 7], [5, 6], [0, 1], 1, [4, 7]),
        ([4, 7], [5, 6], [1, 0], 0, [5, 6]),
        ([4, 7], [5, 6], [1, 0], 1, [4, 7]),
        // the row alone is not closed: it doesn't dominate this combination with itself
        ([5, 6], [5, 6], [1, 0], 0, [4, 7]),
        // nor are two of the three rows of a colouring with three colours
        ([1, 6], [2, 5], [0, 1], 0, [3, 4]),
        ([1, 6], [1, 6], [1, 0], 0, [0, 0]),
    ] {
        assert!(rt; is_combined(row, other, order, place, want));
    }
}

fn placements(length: usize) -> u32
    requires { length ≤ 6 }
{
    let mut count = 0u32;
    for _placement in Placements::new(length) {
        count = count.wrapping_add(1);
    }
    count
}

// How many multisets there are, or None where their first numbers don't ascend.
fn multisets(length: usize, below: u16) -> Option<u32>
    requires two { 2 ≤ length }
    requires six { length ≤ 6 }
{
    let mut count = 0u32;
    let mut last = 0;
    for picks in Multisets::new(length, below) {
        count = count.wrapping_add(1);
        let first = picks.numbers().first().copied().unwrap_or(last);
        if first < last {
            return None;
        }
        last = first;
    }
    Some(count)
}

#[test]
fn counts(rt: HostRuntime) {
    for (length, want) in [(2, 2u32), (3, 6), (4, 24), (5, 120), (6, 720)] {
        assert!(rt; placements(length) == want);
    }
    for (length, below, want) in [(2, 3, 6u32), (3, 2, 4), (6, 4, 84), (4, 1, 1), (2, 0, 0)] {
        assert!(rt; multisets(length, below) == Some(want));
    }
}

// Whether the choices of the row are these configurations, in this order.
fn has_choices(row: &Row, configs: &[[u8; 2]]) -> bool {
    let mut rest = configs;
    for config in row.choices() {
        match rest {
            [first, others @ ..] if config.labels() == first.as_slice() => rest = others,
            _ => return false,
        }
    }
    rest.is_empty()
}

// Whether `[BC] [AB]` is in the order of the numbers of its sets, as its copy, and has its choices.
fn is_in_order(row: &Row) -> bool {
    numbers_of(row) == Some([3, 6])
        && row.copy().sets() == row.sets()
        && has_choices(row, &[[0, 1], [0, 2], [1, 1], [1, 2]])
}

fn is_row_in_order(numbers: [u128; 2]) -> bool {
    match row_of(numbers) {
        Some(row) => is_in_order(&row),
        None => false,
    }
}

#[test]
fn rows_and_choices(rt: HostRuntime) {
    assert!(rt; is_row_in_order([6, 3]));
    assert!(rt; row_of([1, 0]).is_none());
}

#[test]
fn rows_of_one_label_sets(rt: HostRuntime) {
    let singles = Row::of_config(&Config::from_labels(&[2, 0, 0]));
    let want = [
        LabelSet::single(0),
        LabelSet::single(0),
        LabelSet::single(2),
    ];
    assert!(rt; singles.sets() == want.as_slice());
}
