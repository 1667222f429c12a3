//! The question of three rounds as clauses: each says something of sets that rows at the meetings have, or of active labels in them.
ghost use Rattle.re_clauses.specs.Clauses.{IsSatisfiable, holds, satisfies};
ghost use Rattle.re_labels.specs.Constraints.{Has};
ghost use Rattle.re_labels.specs.Lists.{count_from};
ghost use Rattle.re_labels.specs.Sets.{IsIn};
ghost use Rattle.re_labels.specs.Strength.{up_set};
ghost use Rattle.re_labels.specs.declared.TheConstants.{MAX_LABELS};
ghost use Rattle.re_given_words.specs.Asking.{AreIn, AreMade, AreMore, IsBad, IsTried, variable};
ghost use Rattle.std.specs.List.{AllByRecursion};
ghost use Rattle.std.specs.Prelude.{◌≡◌, [], ◌++◌, ◌∷◌, ◌<◌, ◌≤◌, ◌+◌, ◌*◌, ◌^◌, ℕ, Bool, Contains, IfOk, IsTrue, List, length, map, not, slice_index_or, true};

use crate::listing::multisets_of;
use crate::stopping::TryFault;
use crate::tuples::{Tuple, push_orders};
use arrayvec::ArrayVec;
use re_clauses::Clauses;
use re_labels::{Config, Constraint, LabelSet, MAX_LABELS};
use re_problem::Problem;
use std::alloc::Global;

/// How many clauses are made at most.
const MAX_CLAUSES: usize = 2_000_000;

/// How many variables they have at most.
const MAX_VARIABLES: u32 = 400_000;

/// How many lists of labels, configurations in each order, are held for either side at most.
const MAX_ORDERS: usize = 1_000_000;

// The literal that the variable holds.
fn positive(variable: u32) -> u32
    requires { variable < 2 ^ 31 }
    ensures { (values : ℕ → Bool) → holds values result ≡ values variable }
{
    2 * variable
}

// The literal that it doesn't.
fn negative(variable: u32) -> u32
    requires { variable < 2 ^ 31 }
    ensures { (values : ℕ → Bool) → holds values result ≡ not (values variable) }
{
    2 * variable + 1
}

// The variable of the label in the set with this number.
fn variable(labels: u8, set: u16, label: u16) -> u32
    ensures variable { result ≡ variable labels set label }
    ensures small { result < 2 ^ 31 }
{
    set as u32 * labels as u32 + label as u32
}

// One more clause, where there is room for it.
fn add(clauses: &mut Clauses, clause: &[u32]) -> Result<(), TryFault>
    ensures { IfOk result (λ _. clauses.new ≡ clauses.old ++ clause.now ∷ []) }
{
    if clauses.len() >= MAX_CLAUSES {
        return Err(TryFault::TooMany);
    }
    clauses.push(clause)?;
    Ok(())
}

// The literals that the labels aren't in the sets at their places.
fn negations(labels: u8, sets: &[u16], tuple: &[u16]) -> ArrayVec<u32, 6>
    requires six { length sets.now ≤ 6 }
    requires alike { length tuple.now ≡ length sets.now }
    ensures some { (values : ℕ → Bool) → (AreIn values labels sets.now tuple.now → ⊥) → satisfies values result.items ≡ true }
    ensures count { length result.items ≡ length sets.now }
{
    let [set, sets @ ..] = sets else {
        return ArrayVec::new();
    };
    let [label, tuple @ ..] = tuple else {
        return ArrayVec::new();
    };
    let mut literals = negations(labels, sets, tuple);
    literals.push(negative(variable(labels, *set, *label)));
    literals
}

// Not all of the labels are in the sets at their places.
fn forbid(clauses: &mut Clauses, labels: u8, sets: &[u16], tuple: &[u16]) -> Result<(), TryFault>
    ensures { IfOk result (λ _. AreMore clauses.old clauses.new (λ values. AreIn values labels sets.now tuple.now → ⊥)) }
{
    if sets.len() > 6 || tuple.len() != sets.len() {
        return Ok(());
    }
    add(clauses, negations(labels, sets, tuple).as_slice())
}

// The same for each of these lists of labels.
fn forbid_all(
    clauses: &mut Clauses,
    labels: u8,
    sets: &[u16],
    tuples: &[Tuple],
) -> Result<(), TryFault>
    ensures { IfOk result (λ _. AreMore clauses.old clauses.new (λ values. (tuple : List ℕ) → Contains tuples.now tuple → AreIn values labels sets.now tuple → ⊥)) }
{
    for tuple in tuples {
        forbid(clauses, labels, sets, tuple.numbers())?;
    }
    Ok(())
}

// So many numbers from this one on.
fn numbers_from(first: u16, count: u8) -> Tuple
    requires six { count ≤ 6 }
    requires small { first + count < 2 ^ 16 }
    ensures { result ≡ count_from first count }
{
    let mut numbers = Tuple::new();
    for place in 0..count {
        numbers = numbers.with_last(first + place as u16);
    }
    numbers
}

// The same for the sets of each of so many meetings.
fn ask_rows(
    clauses: &mut Clauses,
    labels: u8,
    degree: u8,
    meetings: u16,
    bad: &[Tuple],
) -> Result<(), TryFault>
    requires six { degree ≤ 6 }
    requires few { meetings ≤ 100 }
    ensures { IfOk result (λ _. AreMore clauses.old clauses.new (λ values. (k : ℕ) → k < meetings → (tuple : List ℕ) → Contains bad.now tuple → AreIn values labels (count_from (k * degree) degree) tuple → ⊥)) }
{
    for k in 0..meetings {
        let sets = numbers_from(k * degree as u16, degree);
        forbid_all(clauses, labels, sets.numbers(), bad)?;
    }
    Ok(())
}

// Where the label is in the set, so are those of the other set.
fn ask_stronger(
    clauses: &mut Clauses,
    labels: u8,
    set: u16,
    label: u8,
    stronger: LabelSet,
) -> Result<(), TryFault>
    requires { labels ≤ MAX_LABELS }
    ensures { IfOk result (λ _. AreMore clauses.old clauses.new (λ values. (other : ℕ) → IsIn other stronger → values (variable labels set label) ≡ true → values (variable labels set other) ≡ true)) }
{
    let weak = negative(variable(labels, set, label as u16));
    for other in 0..labels {
        if other != label && stronger.has(other) {
            let strong = positive(variable(labels, set, other as u16));
            add(clauses, &[weak, strong])?;
        }
    }
    Ok(())
}

// The same for so many sets.
fn ask_up(
    clauses: &mut Clauses,
    labels: u8,
    sets: u16,
    label: u8,
    stronger: LabelSet,
) -> Result<(), TryFault>
    requires { labels ≤ MAX_LABELS }
    ensures { IfOk result (λ _. AreMore clauses.old clauses.new (λ values. (set : ℕ) → set < sets → (other : ℕ) → IsIn other stronger → values (variable labels set label) ≡ true → values (variable labels set other) ≡ true)) }
{
    for set in 0..sets {
        ask_stronger(clauses, labels, set, label, stronger)?;
    }
    Ok(())
}

// The same for all labels, with those that are at least as strong.
fn ask_up_sets(
    clauses: &mut Clauses,
    passive: &Constraint,
    labels: u8,
    sets: u16,
) -> Result<(), TryFault>
    requires { labels ≤ MAX_LABELS }
    ensures { IfOk result (λ _. AreMore clauses.old clauses.new (λ values. (set label other : ℕ) → set < sets → label < labels → IsIn other (up_set passive.now label labels) → values (variable labels set label) ≡ true → values (variable labels set other) ≡ true)) }
{
    for label in 0..labels {
        ask_up(clauses, labels, sets, label, passive.up_set(label, labels))?;
    }
    Ok(())
}

// Where the variable holds, the labels are in the sets at their places.
fn ask_order(
    clauses: &mut Clauses,
    labels: u8,
    tried: u32,
    sets: &[u16],
    tuple: &[u16],
) -> Result<(), TryFault>
    requires { tried < 2 ^ 31 }
    ensures { IfOk result (λ _. AreMore clauses.old clauses.new (λ values. values tried ≡ true → AreIn values labels sets.now tuple.now)) }
{
    let [set, sets @ ..] = sets else {
        return Ok(());
    };
    let [label, tuple @ ..] = tuple else {
        return Ok(());
    };
    add(
        clauses,
        &[negative(tried), positive(variable(labels, *set, *label))],
    )?;
    ask_order(clauses, labels, tried, sets, tuple)
}

// The same for each of these lists of labels, with the variables from this one on, of which some holds.
fn ask_choice(
    alloc: Global,
    clauses: &mut Clauses,
    labels: u8,
    first: u32,
    sets: &[u16],
    orders: &[Tuple],
) -> Result<(), TryFault>
    requires { first + length orders.now < 2 ^ 31 }
    ensures { IfOk result (λ _. AreMore clauses.old clauses.new (λ values. IsTried values labels first sets.now orders.now)) }
{
    let mut some = Vec::new(alloc);
    for (at, order) in orders.iter().enumerate() {
        let tried = first + at as u32;
        ask_order(clauses, labels, tried, sets, order.numbers())?;
        some.push(positive(tried))?;
    }
    add(clauses, some.as_slice())
}

// The same for each choice, with as many variables for each.
fn ask_choices(
    alloc: Global,
    clauses: &mut Clauses,
    labels: u8,
    first: u32,
    choices: &[Tuple],
    orders: &[Tuple],
) -> Result<(), TryFault>
    requires { first ≤ MAX_VARIABLES }
    ensures { IfOk result (λ _. AreMore clauses.old clauses.new (λ values. (c : ℕ) → c < length choices.now → IsTried values labels (first + c * length orders.now) (slice_index_or choices.now c []) orders.now)) }
{
    if orders.len() > MAX_VARIABLES as usize {
        return Err(TryFault::TooMany);
    }
    let mut next = first;
    for choice in choices {
        ask_choice(alloc, clauses, labels, next, choice.numbers(), orders)?;
        next += orders.len() as u32;
        if next > MAX_VARIABLES {
            return Err(TryFault::TooMany);
        }
    }
    Ok(())
}

// All configurations in each order of their labels.
fn orders_of(alloc: Global, constraint: &Constraint) -> Result<Vec<Tuple>, TryFault>
    ensures { IfOk result (λ orders. (labels : List ℕ) → Has constraint.now labels → Contains orders.items labels) }
{
    let mut room = MAX_ORDERS;
    let mut orders = Vec::new(alloc);
    for config in constraint.configs() {
        push_orders(config, &mut orders, &mut room)?;
    }
    Ok(orders)
}

// For each label those that are at least as strong.
fn up_sets_of(alloc: Global, passive: &Constraint, labels: u8) -> Result<Vec<LabelSet>, TryFault>
    requires { labels ≤ MAX_LABELS }
{
    let mut up_sets = Vec::new(alloc);
    for label in 0..labels {
        up_sets.push(passive.up_set(label, labels))?;
    }
    Ok(up_sets)
}

// Whether the second label is stronger than the first one.
fn is_stronger(up_sets: &[LabelSet], label: u8, other: u8) -> bool
    requires label { label < MAX_LABELS }
    requires other { other < MAX_LABELS }
{
    match (up_sets.get(label as usize), up_sets.get(other as usize)) {
        (Some(up), Some(others)) => up.has(other) && !others.has(label),
        _ => false,
    }
}

// Whether each stronger label in place of this one gives a configuration.
fn is_raised(passive: &Constraint, up_sets: &[LabelSet], config: &Config, label: u8) -> bool
    requires { label < MAX_LABELS }
{
    for other in 0..MAX_LABELS {
        if is_stronger(up_sets, label, other) {
            if let Some(raised) = config.replace_one(label, other) {
                if !passive.contains(&raised) {
                    return false;
                }
            }
        }
    }
    true
}

// Whether this isn't a configuration, and each stronger label in place of any one label gives one: those that aren't are implied.
fn is_highest(passive: &Constraint, up_sets: &[LabelSet], config: &Config) -> bool
    ensures { IsTrue result → Contains passive.now.configs config.now → ⊥ }
{
    if passive.contains(config) {
        return false;
    }
    for label in config.labels() {
        if *label < MAX_LABELS && !is_raised(passive, up_sets, config, *label) {
            return false;
        }
    }
    true
}

// Lists of labels that aren't configurations, all but those that others imply.
fn bad_of(alloc: Global, passive: &Constraint, labels: u8) -> Result<Vec<Tuple>, TryFault>
    requires { labels ≤ MAX_LABELS }
    ensures { IfOk result (λ bad. AllByRecursion (IsBad passive.now labels) bad.items) }
{
    let mut room = MAX_ORDERS;
    let mut bad = Vec::new(alloc);
    let up_sets = up_sets_of(alloc, passive, labels)?;
    let multisets = multisets_of(alloc, passive.degree(), labels)?;
    for config in multisets.as_slice() {
        if is_highest(passive, up_sets.as_slice(), config) {
            push_orders(config, &mut bad, &mut room)?;
        }
    }
    Ok(bad)
}

/// The clauses that ask for sets at so many meetings, with an active choice of those of each choice.
pub(crate) fn ask(
    alloc: Global,
    problem: &Problem,
    meetings: u16,
    choices: &[Tuple],
) -> Result<Clauses, TryFault>
    requires few { meetings ≤ 100 }
    ensures { IfOk result (λ clauses. (sets : ℕ → List ℕ) → AreMade problem.now.active problem.now.passive (length problem.now.names) problem.now.passive.degree meetings choices.now sets → IsSatisfiable clauses) }
{
    let labels = problem.names().len() as u8;
    let (active, passive) = (problem.active(), problem.passive());
    let degree = passive.degree();
    let sets = meetings * degree as u16;
    let bad = bad_of(alloc, passive, labels)?;
    let orders = orders_of(alloc, active)?;
    let mut clauses = Clauses::new(alloc);
    ask_rows(&mut clauses, labels, degree, meetings, bad.as_slice())?;
    ask_up_sets(&mut clauses, passive, labels, sets)?;
    let first = sets as u32 * labels as u32;
    ask_choices(
        alloc,
        &mut clauses,
        labels,
        first,
        choices,
        orders.as_slice(),
    )?;
    Ok(clauses)
}
