//! Constraints, sets and rows, by numbers.
ghost use Rattle.std.specs.Prelude.{◌≡◌, IfOk};

use re_labels::{Config, Constraint, InsertFault, LabelSet, Row};
use std::alloc::Global;

// The constraint of the configurations of these two labels each, taken below 128.
pub(crate) fn pairs(alloc: Global, pairs: &[[u8; 2]]) -> Result<Constraint, InsertFault>
    ensures { IfOk result (λ constraint. constraint.degree ≡ 2) }
{
    let mut constraint = Constraint::new(alloc, 2);
    for pair in pairs {
        constraint.insert(Config::from_labels(&[pair[0] % 128, pair[1] % 128]))?;
    }
    Ok(constraint)
}

// The same with three labels.
pub(crate) fn triples(alloc: Global, triples: &[[u8; 3]]) -> Result<Constraint, InsertFault> {
    let mut constraint = Constraint::new(alloc, 3);
    for triple in triples {
        let labels = [triple[0] % 128, triple[1] % 128, triple[2] % 128];
        constraint.insert(Config::from_labels(&labels))?;
    }
    Ok(constraint)
}

// The row of the sets of these numbers, or None where one is empty.
pub(crate) fn row_of(numbers: [u128; 2]) -> Option<Row> {
    Row::from_sets(&[
        LabelSet::of_number(numbers[0]),
        LabelSet::of_number(numbers[1]),
    ])
}
