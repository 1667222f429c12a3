//! Lists of rows of worked constraints.
ghost use Rattle.std.specs.Prelude.{◌≡◌, length};

use crate::tables::{pairs, row_of};
use re_check::are_maximal_rows;
use re_labels::{Config, Constraint, InsertFault, Row};
use std::alloc::{AllocError, Global};

// Adds the row of the sets with these numbers, if they make a row.
fn add_row(rows: &mut Vec<Row>, numbers: [u128; 2]) -> Result<(), AllocError> {
    if let Some(row) = row_of(numbers) {
        rows.push(row)?;
    }
    Ok(())
}

// The rows of the sets with these numbers, as far as they are rows.
fn listed(alloc: Global, numbers: &[[u128; 2]]) -> Result<Vec<Row>, AllocError> {
    let mut rows = Vec::new(alloc);
    for pair in numbers {
        add_row(&mut rows, *pair)?;
    }
    Ok(rows)
}

fn are_rows(constraint: &Constraint, rows: &[Row]) -> bool {
    let _degree = constraint.degree();
    are_maximal_rows(constraint, 128, rows)
}

// Whether they are those, or not, as wanted.
fn is_judged(constraint: &Constraint, rows: &[Row], want: bool) -> bool {
    are_rows(constraint, rows) == want
}

fn are_judged(alloc: Global, configs: &[[u8; 2]], rows: &[Row], want: bool) -> bool {
    match pairs(alloc, configs) {
        Ok(constraint) => is_judged(&constraint, rows, want),
        Err(_) => false,
    }
}

// The same of the constraint of these pairs and the rows of these numbers.
fn judged(alloc: Global, configs: &[[u8; 2]], numbers: &[[u128; 2]], want: bool) -> bool {
    match listed(alloc, numbers) {
        Ok(rows) => are_judged(alloc, configs, rows.as_slice(), want),
        Err(_) => false,
    }
}

const SINKLESS: [[u8; 2]; 2] = [[0, 1], [1, 1]];

const COLOURS: [[u8; 2]; 3] = [[0, 1], [0, 2], [1, 2]];

const THREE: [[u8; 2]; 4] = [[0, 1], [0, 2], [1, 2], [2, 2]];

// Pairs, the sets of rows, and whether those are the maximal rows. A label i alone is the set with the number 2 to the i.
const SMALL: [(&[[u8; 2]], &[[u128; 2]], bool); 18] = [
    (&SINKLESS, &[[2, 3]], true),
    (&SINKLESS, &[], false),
    (&SINKLESS, &[[2, 2]], false),
    (&SINKLESS, &[[1, 2]], false),
    (&SINKLESS, &[[3, 3]], false),
    (&COLOURS, &[[1, 6], [2, 5], [3, 4]], true),
    (&COLOURS, &[[1, 6], [2, 5]], false),
    (&COLOURS, &[[1, 6], [3, 4]], false),
    (&COLOURS, &[[2, 5], [3, 4]], false),
    (&COLOURS, &[[2, 5], [1, 6], [3, 4]], false),
    (&COLOURS, &[[1, 6], [2, 5], [2, 5], [3, 4]], false),
    (&COLOURS, &[[1, 2], [1, 6], [2, 5], [3, 4]], false),
    (&COLOURS, &[[1, 2], [2, 5], [3, 4]], false),
    (&THREE, &[[4, 7], [5, 6]], true),
    (&THREE, &[[4, 7]], false),
    (&THREE, &[[5, 6]], false),
    (&[], &[], true),
    (&[], &[[1, 1]], false),
];

fn are_small_judged(alloc: Global) -> bool {
    for (configs, rows, want) in &SMALL {
        if !judged(alloc, configs, rows, *want) {
            return false;
        }
    }
    true
}

#[test]
fn small_constraints(rt: HostRuntime) {
    assert!(rt; are_small_judged(rt.alloc()));
}

// The pairs of different labels below the number.
fn different(alloc: Global, labels: u8) -> Result<Constraint, InsertFault> {
    let mut constraint = Constraint::new(alloc, 2);
    for label in 0..labels {
        for other in 0..label {
            constraint.insert(Config::from_labels(&[label % 128, other % 128]))?;
        }
    }
    Ok(constraint)
}

// Each set of the labels below 11, but none and all, stands against the labels that it lacks.
fn halves(alloc: Global) -> Result<Vec<Row>, AllocError> {
    let mut rows = Vec::new(alloc);
    for number in 1..1024u64 {
        add_row(&mut rows, [u128::from(number), u128::from(2047 - number)])?;
    }
    Ok(rows)
}

// One label of each of four groups of 8, 8, 16 and 16 labels, so that they add up to a multiple of 16.
fn adding_up(i: u8, j: u8, k: u8) -> Config
    ensures { length result ≡ 4 }
{
    let rest = 64u8.wrapping_sub(i).wrapping_sub(j).wrapping_sub(k) % 16;
    Config::from_labels(&[
        i % 128,
        j.wrapping_add(8) % 128,
        k.wrapping_add(16) % 128,
        rest.wrapping_add(32) % 128,
    ])
}

// The configurations of four such labels; and, where asked, another label four times.
fn sums(alloc: Global, one_more: bool) -> Result<Constraint, InsertFault> {
    let mut constraint = Constraint::new(alloc, 4);
    for i in 0..8u8 {
        for j in 0..8u8 {
            for k in 0..16u8 {
                constraint.insert(adding_up(i, j, k))?;
            }
        }
    }
    if one_more {
        constraint.insert(Config::from_labels(&[48, 48, 48, 48]))?;
    }
    Ok(constraint)
}

fn add_sum_rows(rows: &mut Vec<Row>) -> Result<(), AllocError> {
    for i in 0..8u8 {
        for j in 0..8u8 {
            for k in 0..16u8 {
                rows.push(Row::of_config(&adding_up(i, j, k)))?;
            }
        }
    }
    Ok(())
}

// The rows of their one-label sets.
fn sum_rows(alloc: Global) -> Result<Vec<Row>, AllocError> {
    let mut rows = Vec::new(alloc);
    add_sum_rows(&mut rows)?;
    Ok(rows)
}

// Whether there are so many rows, which are the maximal rows or not, as wanted.
fn are_counted(constraint: &Constraint, rows: &[Row], count: usize, want: bool) -> bool {
    rows.len() == count && are_rows(constraint, rows) == want
}

// Whether the halves, and not all but the last of them, are the maximal rows of these colours.
fn are_halves(constraint: &Constraint, rows: &[Row]) -> bool {
    match rows {
        [front @ .., _] => {
            are_counted(constraint, rows, 1023, true) && are_counted(constraint, front, 1022, false)
        }
        [] => false,
    }
}

fn are_halves_of_colours(alloc: Global, rows: &[Row]) -> bool {
    match different(alloc, 11) {
        Ok(eleven) => are_halves(&eleven, rows),
        Err(_) => false,
    }
}

// Whether these rows are the maximal rows of the sums or not, as wanted.
fn are_sums(alloc: Global, one_more: bool, rows: &[Row], count: usize, want: bool) -> bool {
    match sums(alloc, one_more) {
        Ok(constraint) => are_counted(&constraint, rows, count, want),
        Err(_) => false,
    }
}

fn are_halves_judged(alloc: Global) -> bool {
    match halves(alloc) {
        Ok(rows) => {
            are_halves_of_colours(alloc, rows.as_slice())
                && are_sums(alloc, false, rows.as_slice(), 1023, false)
        }
        Err(_) => false,
    }
}

fn are_ones_judged(alloc: Global) -> bool {
    match sum_rows(alloc) {
        Ok(rows) => {
            are_sums(alloc, false, rows.as_slice(), 1024, true)
                && are_sums(alloc, true, rows.as_slice(), 1024, false)
        }
        Err(_) => false,
    }
}

#[test]
fn rows_of_colours_and_of_sums(rt: HostRuntime) {
    assert!(rt; are_halves_judged(rt.alloc()));
    assert!(rt; are_ones_judged(rt.alloc()));
}
