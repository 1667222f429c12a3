//! Derived problems of worked problems.
use re_labels::{Config, LabelSet, Row};
use re_problem::{Problem, TextFault, read_problem};
use re_reference::{Derived, derived_by_definition, maximal_rows_by_definition};
use std::alloc::Global;

const SINKLESS: &[u8] = b"I I O\n\nI I\nI O\n";

const INDEPENDENT: &[u8] = b"M M M\nO O P\n\nM O\nM P\nO O\n";

const COLOURED: &[u8] = b"1 1 1\n2 2 2\n3 3 3\n\n1 2\n1 3\n2 3\n";

fn read(alloc: Global, text: &[u8]) -> Result<Problem, TextFault> {
    if text.len() > 100 {
        return Err(TextFault::NoMemory);
    }
    read_problem(alloc, text)
}

// Whether the sets have these numbers, a digit each.
fn have_numbers(sets: &[LabelSet], digits: &[u8]) -> bool {
    if sets.len() != digits.len() {
        return false;
    }
    for (set, digit) in sets.iter().zip(digits) {
        if set.number() != digit.wrapping_sub(b'0') as u128 {
            return false;
        }
    }
    true
}

// Whether the rows are of sets with these numbers, a digit each: so many to a row, one row behind the other.
fn have_rows(rows: &[Row], digits: &[u8]) -> bool {
    let mut rest = digits;
    for row in rows {
        let count = row.sets().len();
        if count > rest.len() || !have_numbers(row.sets(), &rest[..count]) {
            return false;
        }
        rest = &rest[count..];
    }
    rest.is_empty()
}

// Whether the labels are these, a digit each.
fn are_labels(labels: &[u8], digits: &[u8]) -> bool {
    if labels.len() != digits.len() {
        return false;
    }
    for (label, digit) in labels.iter().zip(digits) {
        if *label != digit.wrapping_sub(b'0') {
            return false;
        }
    }
    true
}

// Whether the configurations have these labels, a digit each: so many to a configuration, one behind the other.
fn have_labels(configs: &[Config], digits: &[u8]) -> bool {
    let mut rest = digits;
    for config in configs {
        let count = config.labels().len();
        if count > rest.len() || !are_labels(config.labels(), &rest[..count]) {
            return false;
        }
        rest = &rest[count..];
    }
    rest.is_empty()
}

// Whether these are the sets, the active and the passive configurations, a digit each.
fn is_derived(derived: &Derived, sets: &[u8], active: &[u8], passive: &[u8]) -> bool {
    have_numbers(derived.sets.as_slice(), sets)
        && derived.active_degree == 2
        && have_labels(derived.active.as_slice(), active)
        && derived.passive_degree == 3
        && have_labels(derived.passive.as_slice(), passive)
}

fn are_maximal(alloc: Global, problem: &Problem, rows: &[u8]) -> bool {
    let labels = problem.names().len();
    if labels > 6 {
        return false;
    }
    match maximal_rows_by_definition(alloc, problem.passive(), labels as u8) {
        Ok(maximal) => have_rows(maximal.as_slice(), rows),
        Err(_) => false,
    }
}

fn has_derived(alloc: Global, problem: &Problem, found: [&[u8]; 4]) -> bool {
    if problem.names().len() > 6 {
        return false;
    }
    let [sets, rows, active, passive] = found;
    match derived_by_definition(alloc, problem) {
        Ok(derived) => {
            is_derived(&derived, sets, active, passive) && are_maximal(alloc, problem, rows)
        }
        Err(_) => false,
    }
}

// What the definitions give of a problem: the sets, the rows, the active and the passive configurations, a digit each.
fn gives(alloc: Global, text: &[u8], found: [&[u8]; 4]) -> bool {
    match read(alloc, text) {
        Ok(problem) => has_derived(alloc, &problem, found),
        Err(_) => false,
    }
}

// Sets by their numbers, where label i counts 2 to the i.
#[test]
fn derives_worked_problems(rt: HostRuntime) {
    let table: [(&[u8], [&[u8]; 4]); 3] = [
        // labels I, O
        (SINKLESS, [b"13", b"13", b"01", b"001011111"]),
        // labels M, O, P
        (
            INDEPENDENT,
            [b"1236", b"1623", b"0312", b"000002022113123133222223233333"],
        ),
        // three of the sets with a colour in common
        (
            COLOURED,
            [
                b"123456",
                b"162534",
                b"051423",
                b"000002004022024044111112115122125155222224225244255333334335344345355444445455555",
            ],
        ),
    ];
    for (text, found) in table {
        assert!(rt; gives(rt.alloc(), text, found));
    }
}
