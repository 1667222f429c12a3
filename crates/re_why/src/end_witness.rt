//! What shows that the end of a certificate fails END or BACK.
ghost use Rattle.re_cert.specs.Bounds.{is_lower, pair_fits};
ghost use Rattle.re_labels.specs.Configs.{support_of};
ghost use Rattle.re_labels.specs.Lists.{count_from};
ghost use Rattle.re_problem.specs.Verdicts.{first_label, renaming_verdict};
ghost use Rattle.re_problem.specs.NamedProblems.{unnamed};
ghost use Rattle.re_problem.specs.Zero.{shows_zero};
ghost use Rattle.re_why.specs.Finding.{back_witness, end_witness, first_unordered, fit_at, fit_witness, names_first, no_fit_witness, ordered_back_witness, pairs_ascend, renaming_witness, seconds};
ghost use Rattle.std.specs.List.{AllByRecursion, list_all};
ghost use Rattle.std.specs.Prelude.{◌≡◌, ◌≤◌, ◌<◌, ◌+◌, ◌^◌, None, find, length, map, nat_lt, not, option_map, replicate, true};

use crate::bad_choice::first_bad_choice;
use crate::witness::Witness;
use arrayvec::ArrayVec;
use re_cert::Kind;
use re_labels::{Config, Constraint, LabelSet};
use re_problem::{LabelMap, MapVerdict, Problem, renames, zero_round};

// The configuration at this place.
fn fit_at(active: &Constraint, place: usize) -> Witness
    requires { place < length active.now.configs }
    ensures { result ≡ fit_at active.now place }
{
    match active.get(place) {
        Some(config) => Witness::Fit(config.copy()),
        None => unreachable!(),
    }
}

// The first fit.
fn fit_witness(last: &Problem) -> Option<Witness>
    ensures { result ≡ fit_witness (unnamed last.now) }
{
    match zero_round(last) {
        Some(place) => Some(fit_at(last.active(), place)),
        None => None,
    }
}

// As many times the set of the labels of the configuration.
fn supports(config: &Config, count: u8) -> ArrayVec<LabelSet, 6>
    requires { count ≤ 6 }
    ensures { result.items ≡ replicate count (support_of config.now) }
{
    let mut sets = ArrayVec::new();
    for _place in 0..count {
        sets.push(config.support());
    }
    sets
}

// The first active configuration with labels of it that show that it is no fit, or that there is none.
fn no_fit_witness(last: &Problem) -> Option<Witness>
    ensures { result ≡ no_fit_witness (unnamed last.now) }
{
    let Some(config) = last.active().get(0) else {
        return Some(Witness::NoActive);
    };
    let sets = supports(config, last.passive().degree());
    match first_bad_choice(last.passive(), sets.as_slice()) {
        Some(labels) => Some(Witness::NoFit(config.copy(), labels)),
        None => None,
    }
}

/// What shows that the last problem isn't as END asks.
pub(crate) fn end_witness(kind: Kind, last: &Problem) -> Option<Witness>
    ensures { result ≡ end_witness kind last.now }
{
    match kind {
        Kind::Upper => no_fit_witness(last),
        _ => fit_witness(last),
    }
}

// Whether the first label of the pair is below that of the next one.
fn pairs_ascend(pair: &(u8, u8), next: &(u8, u8)) -> bool
    ensures { result ≡ pairs_ascend pair.now next.now }
{
    pair.0 < next.0
}

// The first pair, numbered from here on, whose first label isn't below that of the one behind it. It goes over fewer pairs than there
// are labels.
fn unordered_pair(pairs: &[(u8, u8)], number: usize) -> Option<usize>
    requires { number + length pairs.now < 2 ^ 64 }
    ensures { result ≡ first_unordered pairs_ascend number pairs.now }
{
    let [pair, others @ ..] = pairs else {
        return None;
    };
    let [next, ..] = others else {
        return None;
    };
    if !pairs_ascend(pair, next) {
        return Some(number);
    }
    unordered_pair(others, number + 1)
}

// Whether some pair has this first label.
fn has_first(pairs: &[(u8, u8)], label: u8) -> bool
    ensures { result ≡ names_first pairs.now label }
{
    pairs.iter().any(|pair| pair.0 == label)
}

// The least label below the number that no pair has.
fn missing_pair(pairs: &[(u8, u8)], labels: usize) -> Option<u8>
    requires { labels ≤ 128 }
    ensures { result ≡ first_label (λ label. not (names_first pairs.now label)) labels }
{
    for label in 0..labels {
        if !has_first(pairs, label as u8) {
            return Some(label as u8);
        }
    }
    None
}

// The second labels of the pairs, in order, or nothing where there are too many.
fn second_labels(pairs: &[(u8, u8)]) -> ArrayVec<u8, 128>
    requires { length pairs.now ≤ 128 }
    ensures { result.items ≡ seconds pairs.now }
{
    let mut labels = ArrayVec::new();
    for pair in pairs {
        labels.push(pair.1);
    }
    labels
}

// The first violation of the renaming.
fn renaming_witness(last: &Problem, target: &Problem, pairs: &[(u8, u8)]) -> Option<Witness>
    requires fits { list_all (pair_fits last.now target.now) pairs.now ≡ true }
    requires count { length pairs.now ≡ length last.now.names }
    ensures { result ≡ renaming_witness (renaming_verdict (unnamed last.now) (unnamed target.now) (seconds pairs.now)) }
{
    let _names = last.names();
    let images = second_labels(pairs);
    let Some(map) = LabelMap::new(images.as_slice()) else {
        unreachable!();
    };
    match renames(last, target, &map) {
        MapVerdict::Yes => None,
        verdict => Some(Witness::Renaming(verdict)),
    }
}

// The same where the first labels of the pairs ascend.
fn ordered_witness(last: &Problem, target: &Problem, pairs: &[(u8, u8)]) -> Option<Witness>
    requires fits { list_all (pair_fits last.now target.now) pairs.now ≡ true }
    requires order { first_unordered pairs_ascend 0 pairs.now ≡ None }
    ensures { result ≡ ordered_back_witness last.now target.now pairs.now }
{
    let names = last.names().len();
    match missing_pair(pairs, names) {
        Some(label) => Some(Witness::MissingPair(label)),
        None => renaming_witness(last, target, pairs),
    }
}

/// What shows first that the renaming doesn't go back from the last problem to the other one.
pub(crate) fn back_witness(last: &Problem, target: &Problem, pairs: &[(u8, u8)]) -> Option<Witness>
    requires fits { list_all (pair_fits last.now target.now) pairs.now ≡ true }
    ensures { result ≡ back_witness last.now target.now pairs.now }
{
    match unordered_pair(pairs, 0) {
        Some(place) => Some(Witness::PairOrder(place)),
        None => ordered_witness(last, target, pairs),
    }
}
