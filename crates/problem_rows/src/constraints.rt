//! Each call of a constraint once, with configurations that come in ascending, descending and scattered order.
ghost use Rattle.std.specs.Prelude.{◌≡◌, ◌<◌};

use crate::tables::{pairs, row_of};
use re_labels::{Config, Constraint, LabelSet, MAX_LABELS, Row};
use std::alloc::Global;

// Whether the configuration at this place has these labels.
fn is_at(constraint: &Constraint, place: usize, labels: [u8; 2]) -> bool {
    match constraint.get(place) {
        None => false,
        Some(config) => config.labels() == labels.as_slice(),
    }
}

// Whether there are just these: `A A`, `A B`, `A C` and the last label twice.
fn are_the_four(constraint: &Constraint) -> bool {
    constraint.len() == 4
        && is_at(constraint, 0, [0, 0])
        && is_at(constraint, 1, [0, 1])
        && is_at(constraint, 2, [0, 2])
        && is_at(constraint, 3, [63, 63])
}

fn give_the_four(alloc: Global, configs: &[[u8; 2]]) -> bool {
    match pairs(alloc, configs) {
        Ok(constraint) => are_the_four(&constraint),
        Err(_) => false,
    }
}

#[test]
fn orders_of_insertion(rt: HostRuntime) {
    for configs in [
        [[0, 0], [1, 0], [0, 2], [63, 63], [63, 63]],
        [[63, 63], [0, 2], [0, 2], [0, 1], [0, 0]],
        [[0, 2], [0, 0], [63, 63], [2, 0], [0, 1]],
    ] {
        assert!(rt; give_the_four(rt.alloc(), &configs));
    }
}

// Whether a configuration of two labels, below 128, is new.
fn is_new(constraint: &mut Constraint, labels: [u8; 2]) -> bool
    requires { constraint.old.degree ≡ 2 }
    ensures { constraint.new.degree ≡ 2 }
{
    let config = Config::from_labels(&[labels[0] % 128, labels[1] % 128]);
    matches!(constraint.insert(config), Ok(true))
}

// Whether `B C` is new once, in both orders of its labels, and there is no configuration behind it.
fn is_inserted_once(constraint: &mut Constraint) -> bool
    requires { constraint.old.degree ≡ 2 }
{
    is_new(constraint, [2, 1]) && !is_new(constraint, [1, 2]) && constraint.get(3).is_none()
}

fn is_inserted(alloc: Global) -> bool {
    match pairs(alloc, &[[0, 1], [1, 1]]) {
        Ok(mut constraint) => is_inserted_once(&mut constraint),
        Err(_) => false,
    }
}

#[test]
fn insertions(rt: HostRuntime) {
    assert!(rt; is_inserted(rt.alloc()));
}

fn are_same(one: &Constraint, other: &Constraint) -> bool {
    for place in 0..4 {
        if one.get(place) != other.get(place) {
            return false;
        }
    }
    true
}

fn is_copied(constraint: &Constraint) -> bool {
    match constraint.copy() {
        Ok(copy) => are_same(&copy, constraint),
        Err(_) => false,
    }
}

fn holds(constraint: &Constraint, labels: [u8; 2]) -> bool {
    constraint.contains(&Config::from_labels(&[labels[0] % 128, labels[1] % 128]))
}

// Whether all configurations become one under the same label for all.
fn has_one_image(constraint: &Constraint) -> bool {
    let _degree = constraint.degree();
    match constraint.image(&[7; 128]) {
        Ok(image) => image.len() == 1 && holds(&image, [7, 7]),
        Err(_) => false,
    }
}

// Whether `A B`, `B B` and `B C` have the degree 2, hold `A B` and not `A C`, are copied, and have one image.
fn are_told(alloc: Global) -> bool {
    match pairs(alloc, &[[0, 1], [1, 1], [1, 2]]) {
        Ok(constraint) => {
            constraint.degree() == 2
                && holds(&constraint, [1, 0])
                && !holds(&constraint, [0, 2])
                && is_copied(&constraint)
                && has_one_image(&constraint)
        }
        Err(_) => false,
    }
}

#[test]
fn members_copies_and_images(rt: HostRuntime) {
    assert!(rt; are_told(rt.alloc()));
}

// Whether the row is good, and allowed, as these say.
fn is_judged(constraint: &Constraint, row: &Row, good: bool, allowed: bool) -> bool {
    constraint.degree() == 2
        && row.sets().len() == 2
        && constraint.is_good(row) == good
        && constraint.allows(row) == allowed
}

fn are_judged(constraint: &Constraint, numbers: [u128; 2], good: bool, allowed: bool) -> bool {
    match row_of(numbers) {
        Some(row) => is_judged(constraint, &row, good, allowed),
        None => false,
    }
}

// Rows, whether they are good, and whether they are allowed.
const JUDGED: [([u128; 2], bool, bool); 9] = [
    ([4, 7], true, true),
    ([5, 6], true, true),
    ([1, 6], true, true),
    ([3, 4], true, true),
    ([1, 7], false, true),
    ([3, 3], false, true),
    ([7, 7], false, true),
    ([1, 1], false, false),
    ([2, 2], false, false),
];

fn are_all_judged(constraint: &Constraint) -> bool {
    for (numbers, good, allowed) in &JUDGED {
        if !are_judged(constraint, *numbers, *good, *allowed) {
            return false;
        }
    }
    true
}

// The pairs with C, and A with B: rows by the numbers of their sets, where A, B and C are 1, 2 and 4.
fn are_rows_judged(alloc: Global) -> bool {
    match pairs(alloc, &[[0, 1], [0, 2], [1, 2], [2, 2]]) {
        Ok(constraint) => are_all_judged(&constraint),
        Err(_) => false,
    }
}

#[test]
fn good_and_allowed_rows(rt: HostRuntime) {
    assert!(rt; are_rows_judged(rt.alloc()));
}

// Whether just the labels of the set are at least as strong as this one.
fn is_up_set(constraint: &Constraint, weak: u8, number: u128) -> bool
    requires { weak < MAX_LABELS }
{
    let set = LabelSet::of_number(number);
    constraint.up_set(weak, 3) == set
        && constraint.at_least(weak, 0) == set.has(0)
        && constraint.at_least(weak, 1) == set.has(1)
        && constraint.at_least(weak, 2) == set.has(2)
}

fn have_up_sets(alloc: Global, configs: &[[u8; 2]], numbers: [u128; 3]) -> bool {
    match pairs(alloc, configs) {
        Ok(constraint) => {
            is_up_set(&constraint, 0, numbers[0])
                && is_up_set(&constraint, 1, numbers[1])
                && is_up_set(&constraint, 2, numbers[2])
        }
        Err(_) => false,
    }
}

// Up-sets of the labels 0, 1 and 2 among three, by their numbers.
#[test]
fn up_sets(rt: HostRuntime) {
    for (configs, want) in [
        // M P, M O and O O: O is stronger than P
        ([[0, 2], [0, 1], [1, 1]].as_slice(), [1, 2, 6]),
        // a chain: 1 is stronger than 0, and 2 stronger than 1
        ([[0, 2], [1, 2], [1, 1], [2, 2]].as_slice(), [7, 6, 4]),
        // one at a time: M M and O O alone compare nothing
        ([[0, 0], [1, 1]].as_slice(), [1, 2, 7]),
        // equal labels
        ([[0, 0], [0, 1], [1, 1]].as_slice(), [3, 3, 7]),
        ([].as_slice(), [7, 7, 7]),
    ] {
        assert!(rt; have_up_sets(rt.alloc(), configs, want));
    }
}
