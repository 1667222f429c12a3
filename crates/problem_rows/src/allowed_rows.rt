//! Allowed multisets of sets.
use crate::tables::triples;
use re_labels::{Constraint, LabelSet};
use re_step::allowed;
use std::alloc::{AllocError, Global};

fn sets_of(alloc: Global, numbers: &[u128]) -> Result<Vec<LabelSet>, AllocError> {
    let mut sets = Vec::new(alloc);
    for number in numbers {
        sets.push(LabelSet::of_number(*number))?;
    }
    Ok(sets)
}

// Whether the configurations have these labels, one after another.
fn have_labels(constraint: &Constraint, labels: &[u8]) -> bool {
    let mut rest = labels;
    for config in constraint.configs() {
        match rest.strip_prefix(config.labels()) {
            None => return false,
            Some(others) => rest = others,
        }
    }
    rest.is_empty()
}

// Whether the multisets of these sets that are allowed are the wanted ones, one after another.
fn are_allowed(alloc: Global, constraint: &Constraint, sets: &[LabelSet], want: &[u8]) -> bool {
    if sets.len() > 128 {
        return false;
    }
    match allowed(alloc, constraint, sets) {
        Ok(all) => have_labels(&all, want),
        Err(_) => false,
    }
}

fn are_sets_allowed(alloc: Global, constraint: &Constraint, numbers: &[u128], want: &[u8]) -> bool {
    match sets_of(alloc, numbers) {
        Ok(sets) => are_allowed(alloc, constraint, sets.as_slice(), want),
        Err(_) => false,
    }
}

// The same where these are the configurations, and these the numbers of the sets.
fn are_listed(alloc: Global, configs: &[[u8; 3]], numbers: &[u128], want: &[u8]) -> bool {
    match triples(alloc, configs) {
        Ok(constraint) => are_sets_allowed(alloc, &constraint, numbers, want),
        Err(_) => false,
    }
}

#[test]
fn allowed_multisets(rt: HostRuntime) {
    for (configs, numbers, want) in [
        // Labels M, O and P are 0, 1 and 2. The maximal rows of `M P`, `M O`, `O^2` have the sets M, O, MO and OP.
        (
            [[0, 0, 0], [1, 1, 2]].as_slice(),
            [1, 2, 3, 6].as_slice(),
            [
                0, 0, 0, 0, 0, 2, 0, 2, 2, 1, 1, 3, 1, 2, 3, 1, 3, 3, 2, 2, 2, 2, 2, 3, 2, 3, 3, 3,
                3, 3,
            ]
            .as_slice(),
        ),
        // no configuration, no set, and labels that no set has
        (&[], &[1, 2, 3], &[]),
        (&[[0, 1, 2]], &[], &[]),
        (&[[0, 1, 2]], &[1, 2], &[]),
        (&[[0, 1, 2]], &[1, 2, 4], &[0, 1, 2]),
    ] {
        assert!(rt; are_listed(rt.alloc(), configs, numbers, want));
    }
}
