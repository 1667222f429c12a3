//! The up-sets of two small constraints, each set by its number.
use crate::tables::{pairs, triples};
use re_boxes::up_sets;
use re_labels::LabelSet;
use std::alloc::Global;

// Whether the sets have these numbers.
fn have_numbers(sets: &[LabelSet], numbers: &[u128]) -> bool {
    for (place, number) in numbers.iter().enumerate() {
        if sets.get(place) != Some(&LabelSet::of_number(*number)) {
            return false;
        }
    }
    sets.len() == numbers.len()
}

// C may take the place of A and of B, and D occurs nowhere.
fn of_pairs(alloc: Global) -> bool {
    match pairs(alloc, &[[0, 1], [0, 2], [1, 2], [2, 2]]) {
        Ok(constraint) => have_numbers(up_sets(&constraint, 4).as_slice(), &[5, 6, 4, 15]),
        Err(_) => false,
    }
}

fn of_triples(alloc: Global) -> bool {
    match triples(alloc, &[[0, 1, 2], [0, 2, 2], [1, 2, 2], [2, 2, 2]]) {
        Ok(constraint) => have_numbers(up_sets(&constraint, 3).as_slice(), &[5, 6, 4]),
        Err(_) => false,
    }
}

#[test]
fn up_sets_of_labels(rt: HostRuntime) {
    assert!(rt; of_pairs(rt.alloc()));
    assert!(rt; of_triples(rt.alloc()));
}
