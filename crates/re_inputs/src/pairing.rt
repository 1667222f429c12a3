//! The configurations of pairs that the configurations of two constraints make.
ghost use Rattle.re_labels.specs.Configs.{IsConfig, image_at, sorted};
ghost use Rattle.re_given.specs.Products.{pairs_of};
ghost use Rattle.re_inputs.specs.Pairings.{all_pairings, beside, beside_in, pairings, pairings_with};
ghost use Rattle.re_labels.specs.ListSets.{list_set};
ghost use Rattle.re_labels.specs.Constraints.{IsConstraint};
ghost use Rattle.std.specs.List.{AllByRecursion};
ghost use Rattle.std.specs.Prelude.{◌≡◌, ◌≤◌, ◌<◌, ◌+◌, ◌*◌, ◌++◌, ◌∷◌, [], IfOk, IsErrOf, OnOk, length, map};

use arrayvec::ArrayVec;
use re_labels::{Config, Constraint, InsertFault, MAX_CONFIGURATIONS, MAX_LABELS, Placements};
use std::alloc::Global;

// The pair of a label below n and one below m.
fn pair_of(n: u8, m: u8, x: u8, y: u8) -> u8
    requires few { n * m ≤ MAX_LABELS }
    requires x { x < n }
    requires y { y < m }
    ensures pair { result ≡ x * m + y }
    ensures below { result < MAX_LABELS }
{
    x * m + y
}

// Puts the pairs of the labels at the same places behind the others.
fn push_pairs(n: u8, m: u8, xs: &[u8], ys: &[u8], pairs: &mut ArrayVec<u8, 6>)
    requires few { n * m ≤ MAX_LABELS }
    requires xs { AllByRecursion (λ x. x < n) xs.now }
    requires ys { AllByRecursion (λ y. y < m) ys.now }
    requires room { length pairs.old.items + length xs.now ≤ 6 }
    ensures { pairs.new.items ≡ pairs.old.items ++ beside m xs.now ys.now }
{
    let [x, other_xs @ ..] = xs else {
        return;
    };
    let [y, other_ys @ ..] = ys else {
        return;
    };
    pairs.push(pair_of(n, m, *x, *y));
    push_pairs(n, m, other_xs, other_ys, pairs);
}

// The labels in this order of their places.
fn placed(labels: &[u8], order: &[u8]) -> ArrayVec<u8, 6>
    requires six { length order.now ≤ 6 }
    requires places { AllByRecursion (λ place. place < length labels.now) order.now }
    ensures { result.items ≡ map (image_at labels.now) order.now }
{
    let mut held = ArrayVec::new();
    for place in order {
        held.push(labels[*place as usize]);
    }
    held
}

// The pairs of the labels at the same places, the second ones in this order of their places.
fn paired(n: u8, m: u8, xs: &[u8], ys: &[u8], order: &[u8]) -> ArrayVec<u8, 6>
    requires few { n * m ≤ MAX_LABELS }
    requires xs { AllByRecursion (λ x. x < n) xs.now }
    requires ys { AllByRecursion (λ y. y < m) ys.now }
    requires six { length xs.now ≤ 6 }
    requires order_six { length order.now ≤ 6 }
    requires places { AllByRecursion (λ place. place < length ys.now) order.now }
    ensures { result.items ≡ beside_in m xs.now ys.now order.now }
{
    let second = placed(ys, order);
    let mut pairs = ArrayVec::new();
    push_pairs(n, m, xs, second.as_slice(), &mut pairs);
    pairs
}

// One configuration more.
fn put_labels(constraint: &mut Constraint, labels: &[u8]) -> Result<(), InsertFault>
    requires degree { length labels.now ≡ constraint.old.degree }
    requires below { AllByRecursion (λ label. label < MAX_LABELS) labels.now }
    ensures degree { constraint.new.degree ≡ constraint.old.degree }
    ensures configs { OnOk result (constraint.new.configs ≡ list_set (constraint.old.configs ++ sorted labels.now ∷ [])) }
    ensures many { IsErrOf result InsertFault.TooManyConfigurations → MAX_CONFIGURATIONS < length (list_set (constraint.old.configs ++ sorted labels.now ∷ [])) }
{
    let _degree = constraint.degree();
    match constraint.insert(Config::from_labels(labels)) {
        Ok(_) => Ok(()),
        Err(fault) => Err(fault),
    }
}

// The multisets of pairs with the labels of the one configuration as first parts and those of the other one as second parts.
fn put_pairings(
    n: u8,
    m: u8,
    first: &Config,
    second: &Config,
    constraint: &mut Constraint,
) -> Result<(), InsertFault>
    requires few { n * m ≤ MAX_LABELS }
    requires first { IsConfig constraint.old.degree n first.now }
    requires second { IsConfig constraint.old.degree m second.now }
    ensures degree { constraint.new.degree ≡ constraint.old.degree }
    ensures configs { OnOk result (constraint.new.configs ≡ list_set (constraint.old.configs ++ pairings m first.now second.now)) }
    ensures many { IsErrOf result InsertFault.TooManyConfigurations → MAX_CONFIGURATIONS < length (list_set (constraint.old.configs ++ pairings m first.now second.now)) }
{
    let _degree = constraint.degree();
    let xs = first.labels();
    let ys = second.labels();
    for order in Placements::new(xs.len()) {
        let pairs = paired(n, m, xs, ys, order.places());
        match put_labels(constraint, pairs.as_slice()) {
            Ok(()) => {}
            Err(fault) => return Err(fault),
        }
    }
    Ok(())
}

// The same for each configuration of second parts.
fn put_pairings_with(
    n: u8,
    m: u8,
    first: &Config,
    given: &Constraint,
    constraint: &mut Constraint,
) -> Result<(), InsertFault>
    requires few { n * m ≤ MAX_LABELS }
    requires first { IsConfig constraint.old.degree n first.now }
    requires given { IsConstraint m given.now }
    requires same { given.now.degree ≡ constraint.old.degree }
    ensures degree { constraint.new.degree ≡ constraint.old.degree }
    ensures configs { OnOk result (constraint.new.configs ≡ list_set (constraint.old.configs ++ pairings_with m given.now first.now)) }
    ensures many { IsErrOf result InsertFault.TooManyConfigurations → MAX_CONFIGURATIONS < length (list_set (constraint.old.configs ++ pairings_with m given.now first.now)) }
{
    let _degree = constraint.degree();
    for second in given.configs() {
        match put_pairings(n, m, first, second, constraint) {
            Ok(()) => {}
            Err(fault) => return Err(fault),
        }
    }
    Ok(())
}

// And for each configuration of first parts.
fn put_all_pairings(
    n: u8,
    m: u8,
    own: &Constraint,
    given: &Constraint,
    constraint: &mut Constraint,
) -> Result<(), InsertFault>
    requires few { n * m ≤ MAX_LABELS }
    requires own { IsConstraint n own.now }
    requires given { IsConstraint m given.now }
    requires same { given.now.degree ≡ own.now.degree }
    requires degree { constraint.old.degree ≡ own.now.degree }
    ensures degree { constraint.new.degree ≡ constraint.old.degree }
    ensures configs { OnOk result (constraint.new.configs ≡ list_set (constraint.old.configs ++ all_pairings m own.now given.now)) }
    ensures many { IsErrOf result InsertFault.TooManyConfigurations → MAX_CONFIGURATIONS < length (list_set (constraint.old.configs ++ all_pairings m own.now given.now)) }
{
    let _degree = constraint.degree();
    for first in own.configs() {
        match put_pairings_with(n, m, first, given, constraint) {
            Ok(()) => {}
            Err(fault) => return Err(fault),
        }
    }
    Ok(())
}

/// The multisets of pairs x * m + y of labels below n and below m whose first parts are a configuration of the one constraint and whose
/// second parts are one of the other. `TooManyConfigurations` comes exactly where there are more than `MAX_CONFIGURATIONS`. For each two
/// configurations it goes over all orders of the second one's places.
pub(crate) fn pairs_of(
    alloc: Global,
    n: u8,
    m: u8,
    own: &Constraint,
    given: &Constraint,
) -> Result<Constraint, InsertFault>
    requires few { n * m ≤ MAX_LABELS }
    requires own { IsConstraint n own.now }
    requires given { IsConstraint m given.now }
    requires same { given.now.degree ≡ own.now.degree }
    ensures pairs { IfOk result (λ pairs. pairs ≡ pairs_of n m own.now given.now) }
    ensures within { IfOk result (λ _. length (pairs_of n m own.now given.now).configs ≤ MAX_CONFIGURATIONS) }
    ensures many { IsErrOf result InsertFault.TooManyConfigurations → MAX_CONFIGURATIONS < length (pairs_of n m own.now given.now).configs }
{
    let mut constraint = Constraint::new(alloc, own.degree());
    match put_all_pairings(n, m, own, given, &mut constraint) {
        Ok(()) => {
            let _within = constraint.len();
            Ok(constraint)
        }
        Err(fault) => Err(fault),
    }
}
