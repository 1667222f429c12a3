//! The product of a problem and an input problem of it.
ghost use Rattle.re_given.specs.Inputs.{IsInput};
ghost use Rattle.re_given.specs.Products.{pairs_of};
ghost use Rattle.re_inputs.specs.NamedProducts.{ProductGives, is_full, is_nameless, named_product, nameless, pair_count, pair_name, pair_names, product_labels, product_names, relabelled};
ghost use Rattle.re_labels.specs.ListSets.{list_set};
ghost use Rattle.re_problem.specs.NamedProblems.{unnamed};
ghost use Rattle.re_labels.specs.Constraints.{IsConstraint};
ghost use Rattle.std.specs.List.{AllByRecursion};
ghost use Rattle.std.specs.Prelude.{◌≡◌, ◌≤◌, ◌<◌, ◌+◌, ◌*◌, [], IfOk, IsErrOf, None, length, not, true, false};

use crate::making::problem_of;
use crate::pairing::pairs_of;
use re_labels::{
    Constraint, InsertFault, MAX_CONFIGURATIONS, MAX_LABELS, Name, Names, NamesFault, NoMemory,
};
use re_problem::Problem;
use std::alloc::Global;

/// Why a product isn't given.
#[derive(Clone, Copy, Debug, PartialEq, Eq)]
pub enum ProductFault {
    /// It has more than `MAX_LABELS` labels.
    TooManyLabels,
    /// The names of the parts of this pair together have too many bytes for a name, or are the name of an earlier pair.
    Nameless(u8),
    /// On some side it has more than `MAX_CONFIGURATIONS` configurations.
    TooManyConfigurations,
    /// There was no memory.
    NoMemory,
}

impl From<NoMemory> for ProductFault {
    ghost use Rattle.re_inputs.specs.declared.products.ProductFault.TheVariants.{NoMemory as no_memory};

    ghost from_gives = { λ _ e. e ≡ no_memory };

    fn from(_: NoMemory) -> Self {
        ProductFault::NoMemory
    }
}

/// The names of the parts of the pair, one behind the other: the name of the pair, where it is one.
pub fn pair_name(
    alloc: Global,
    problem: &Problem,
    input: &Problem,
    pair: u8,
) -> Result<Vec<u8>, NoMemory>
    requires { pair < pair_count problem.now input.now }
    ensures { IfOk result (λ name. name.items ≡ pair_name problem.now input.now pair) }
{
    let own = problem.names();
    let given = input.names();
    let _count = own.len();
    let count = given.len() as u8;
    let mut name = Vec::new(alloc);
    name.extend_from_slice(own.name(pair / count).text())?;
    name.extend_from_slice(given.name(pair % count).text())?;
    Ok(name)
}

// Adds the name of a pair, where it has one of its own, and says whether it has.
fn put_name(
    alloc: Global,
    problem: &Problem,
    input: &Problem,
    pair: u8,
    names: &mut Names,
) -> Result<bool, NoMemory>
    requires pair { pair < pair_count problem.now input.now }
    requires few { length names.old < MAX_LABELS }
    requires names { names.old ≡ list_set (pair_names problem.now input.now pair) }
    ensures own { IfOk result (λ own. own ≡ not (is_nameless problem.now input.now pair)) }
    ensures names { IfOk result (λ own. own ≡ true → names.new ≡ list_set (pair_names problem.now input.now (pair + 1))) }
{
    let text = pair_name(alloc, problem, input, pair)?;
    let Some(name) = Name::new(text.as_slice()) else {
        return Ok(false);
    };
    match names.insert(name) {
        Ok(is_new) => Ok(is_new),
        Err(NamesFault::TooMany) => unreachable!(),
        Err(NamesFault::NoMemory) => Err(NoMemory),
    }
}

// Adds the names of all pairs up to the first that has none of its own, and tells that one.
fn put_names(
    alloc: Global,
    problem: &Problem,
    input: &Problem,
    count: u8,
    names: &mut Names,
) -> Result<Option<u8>, NoMemory>
    requires count { count ≡ pair_count problem.now input.now }
    requires few { count ≤ MAX_LABELS }
    requires none { names.old ≡ [] }
    ensures nameless { IfOk result (λ pair. pair ≡ nameless problem.now input.now) }
    ensures names { IfOk result (λ pair. pair ≡ None → names.new ≡ product_names problem.now input.now) }
{
    for pair in 0..count {
        if !put_name(alloc, problem, input, pair, names)? {
            return Ok(Some(pair));
        }
    }
    Ok(None)
}

// The labels of all pairs, in order.
fn labels_of(
    alloc: Global,
    problem: &Problem,
    input: &Problem,
    count: u8,
    names: &Names,
) -> Result<Vec<u8>, NoMemory>
    requires count { count ≡ pair_count problem.now input.now }
    requires names { names.now ≡ product_names problem.now input.now }
    ensures { IfOk result (λ labels. labels.items ≡ product_labels problem.now input.now) }
{
    let mut labels = Vec::new(alloc);
    for pair in 0..count {
        let name = pair_name(alloc, problem, input, pair)?;
        match names.find_text(name.as_slice()) {
            Some(label) => labels.push(label)?,
            None => unreachable!(),
        }
    }
    Ok(labels)
}

// A side of the product, where `labels` has those of all pairs.
fn side_of(
    alloc: Global,
    n: u8,
    m: u8,
    own: &Constraint,
    given: &Constraint,
    labels: &[u8],
) -> Result<Constraint, InsertFault>
    requires few { n * m ≤ MAX_LABELS }
    requires own { IsConstraint n own.now }
    requires given { IsConstraint m given.now }
    requires same { given.now.degree ≡ own.now.degree }
    requires count { length labels.now ≡ n * m }
    requires below { AllByRecursion (λ label. label < MAX_LABELS) labels.now }
    ensures side { IfOk result (λ side. side ≡ relabelled labels.now (pairs_of n m own.now given.now)) }
    ensures within { IfOk result (λ _. length (pairs_of n m own.now given.now).configs ≤ MAX_CONFIGURATIONS) }
    ensures many { IsErrOf result InsertFault.TooManyConfigurations → MAX_CONFIGURATIONS < length (pairs_of n m own.now given.now).configs }
{
    let pairs = pairs_of(alloc, n, m, own, given)?;
    match pairs.image(labels) {
        Ok(side) => Ok(side),
        Err(NoMemory) => Err(InsertFault::NoMemory),
    }
}

// The product with these names.
fn named(
    alloc: Global,
    problem: &Problem,
    input: &Problem,
    names: Names,
) -> Result<Problem, InsertFault>
    requires input { IsInput (unnamed problem.now) (unnamed input.now) }
    requires few { pair_count problem.now input.now ≤ MAX_LABELS }
    requires own { nameless problem.now input.now ≡ None }
    requires names { names ≡ product_names problem.now input.now }
    ensures made { IfOk result (λ made. made ≡ named_product problem.now input.now) }
    ensures within { IfOk result (λ _. is_full problem.now input.now ≡ false) }
    ensures many { IsErrOf result InsertFault.TooManyConfigurations → is_full problem.now input.now ≡ true }
{
    let n = problem.names().len() as u8;
    let m = input.names().len() as u8;
    let _count = names.len();
    let Ok(labels) = labels_of(alloc, problem, input, n * m, &names) else {
        return Err(InsertFault::NoMemory);
    };
    let active = side_of(
        alloc,
        n,
        m,
        problem.active(),
        input.active(),
        labels.as_slice(),
    )?;
    let passive = side_of(
        alloc,
        n,
        m,
        problem.passive(),
        input.passive(),
        labels.as_slice(),
    )?;
    Ok(problem_of(active, passive, names))
}

/// The product of a problem and an input problem of it: its labels are the pairs of a label of the one and a label of the other, and its
/// configurations are the multisets of pairs whose first parts are a configuration of the problem and whose second parts are one of the
/// input problem. A pair has the names of its parts as its name, one behind the other. Given the input problem, it is solvable in as many
/// rounds as the problem.
///
/// It is refused with the first of: more than `MAX_LABELS` pairs, the first pair without a name of its own, more than `MAX_CONFIGURATIONS`
/// configurations on a side. For each configuration of the problem and each one of the input problem it goes over all orders of places.
pub fn product(alloc: Global, problem: &Problem, input: &Problem) -> Result<Problem, ProductFault>
    requires { IsInput (unnamed problem.now) (unnamed input.now) }
    ensures { ProductGives problem.now input.now result }
{
    let count = problem.names().len() * input.names().len();
    if count > MAX_LABELS as usize {
        return Err(ProductFault::TooManyLabels);
    }
    let mut names = Names::new(alloc);
    if let Some(pair) = put_names(alloc, problem, input, count as u8, &mut names)? {
        return Err(ProductFault::Nameless(pair));
    }
    match named(alloc, problem, input, names) {
        Ok(made) => Ok(made),
        Err(InsertFault::TooManyConfigurations) => Err(ProductFault::TooManyConfigurations),
        Err(InsertFault::NoMemory) => Err(ProductFault::NoMemory),
    }
}
