//! The problems of the families.
ghost use Rattle.re_labels.specs.Configs.{sorted};
ghost use Rattle.re_labels.specs.Orders.{multisets};
ghost use Rattle.re_families.specs.Families.{constraint_of, count, family_of, is_degree, out_of_range, rule, rules_of};
ghost use Rattle.re_labels.specs.ListSets.{with_list};
ghost use Rattle.std.specs.List.{AllByRecursion};
ghost use Rattle.std.specs.Prelude.{◌≡◌, ◌↔◌, ◌≤◌, ◌<◌, ℕ, Err, IfOk, None, OnOk, Some, length};

use crate::naming::names_of;
use crate::types::{Family, FamilyFault};
use arrayvec::ArrayVec;
use re_labels::{
    Config, Constraint, InsertFault, MAX_CONFIGURATIONS, MAX_LABELS, Multisets, NoMemory, Side,
};
use re_problem::Problem;
use std::alloc::Global;

fn is_degree(degree: u8) -> bool
    ensures { result ≡ is_degree degree }
{
    2 <= degree && degree <= 6
}

// The first parameter out of its range, if any.
fn out_of_range(kind: Family, active: u8, passive: u8, number: u8) -> Option<u8>
    ensures { result ≡ out_of_range kind active passive number }
{
    let passive_fits = match kind {
        Family::Mis => passive == 2,
        _ => is_degree(passive),
    };
    let number_fits = match kind {
        Family::Colouring => 1 <= number && number <= 16,
        _ => number == 0,
    };
    if !is_degree(active) {
        Some(active)
    } else if !passive_fits {
        Some(passive)
    } else if !number_fits {
        Some(number)
    } else {
        None
    }
}

fn count(labels: &[u8], label: u8) -> usize
    ensures { result ≡ count label labels.now }
{
    labels.iter().filter(|x| **x == label).count()
}

// Whether a node may have these labels at its edges, by the rules of its side in the family.
fn may_stand(kind: Family, side: Side, config: &Config) -> bool
    ensures { (number : ℕ) → result ≡ rule (rules_of kind number) side config.now }
{
    let labels = config.labels();
    let different = config.support().count() as usize;
    match (kind, side) {
        (Family::Colouring, Side::Active) => different == 1,
        (Family::Colouring, Side::Passive) => different == labels.len(),
        (Family::Matching, Side::Active) => count(labels, 0) == 1,
        (Family::Matching, Side::Passive) => different == 1,
        (Family::Orientation, Side::Active) => 1 <= count(labels, 1),
        (Family::Orientation, Side::Passive) => count(labels, 1) == 1,
        (Family::Mis, Side::Active) => {
            count(labels, 0) == labels.len() || (count(labels, 0) == 0 && count(labels, 2) == 1)
        }
        (Family::Mis, Side::Passive) => {
            count(labels, 0) == 1 || count(labels, 1) == labels.len()
        }
    }
}

/// The configuration of these labels, of which there are two to six.
pub fn config_of(labels: &[u16]) -> Config
    requires two { 2 ≤ length labels.now }
    requires six { length labels.now ≤ 6 }
    requires below { AllByRecursion (λ label. label < MAX_LABELS) labels.now }
    ensures { result ≡ sorted labels.now }
{
    let mut held: ArrayVec<u8, 6> = ArrayVec::new();
    for label in labels {
        held.push(*label as u8);
    }
    Config::from_labels(held.as_slice())
}

/// Inserts one configuration more, where there is room.
pub fn put(constraint: &mut Constraint, config: Config) -> Result<(), NoMemory>
    requires degree { length config ≡ constraint.old.degree }
    requires room { length constraint.old.configs < MAX_CONFIGURATIONS }
    ensures degree { constraint.new.degree ≡ constraint.old.degree }
    ensures configs { OnOk result (constraint.new.configs ≡ with_list constraint.old.configs config) }
{
    match constraint.insert(config) {
        Ok(_) => Ok(()),
        Err(InsertFault::NoMemory) => Err(NoMemory),
        Err(InsertFault::TooManyConfigurations) => unreachable!(),
    }
}

// What may stand around a node of a side, where the family has so many labels. It goes over all multisets of as many labels as the
// degree: at most 54,264.
fn constraint_of(
    alloc: Global,
    kind: Family,
    side: Side,
    degree: u8,
    labels: u8,
) -> Result<Constraint, NoMemory>
    requires least { 2 ≤ degree }
    requires most { degree ≤ 6 }
    requires labels { labels ≤ 16 }
    ensures { (number : ℕ) → length (rules_of kind number).names ≡ labels → IfOk result (λ constraint. constraint ≡ constraint_of (rules_of kind number) side degree) }
{
    let mut constraint = Constraint::new(alloc, degree);
    for picks in Multisets::new(degree as usize, labels as u16) {
        let config = config_of(picks.numbers());
        if !may_stand(kind, side, &config) {
            continue;
        }
        put(&mut constraint, config)?;
    }
    Ok(constraint)
}

/// The problem of a family with these degrees and this number. Both degrees are from 2 to 6, and the passive one is 2 for `Mis`; the
/// number is that of the colours, from 1 to 16, and 0 for each other family. `OutOfRange` comes exactly where a parameter is out of its
/// range, with the first one in the order active degree, passive degree, number. The labels have the names `1` to `9`, or `01` to `16`
/// where there are more than 9 colours; `M` and `O`; `I` and `O`; or `M`, `O` and `P`. For each side it goes over all multisets of as many
/// labels as the degree: at most 54,264.
pub fn family(
    alloc: Global,
    kind: Family,
    active: u8,
    passive: u8,
    number: u8,
) -> Result<Problem, FamilyFault>
    ensures problem { IfOk result (λ problem. problem ≡ family_of kind active passive number) }
    ensures range { (value : ℕ) → (result ≡ Err (FamilyFault.OutOfRange value)) ↔ (out_of_range kind active passive number ≡ Some value) }
{
    if let Some(value) = out_of_range(kind, active, passive, number) {
        return Err(FamilyFault::OutOfRange(value));
    }
    let names = names_of(alloc, kind, number)?;
    let labels = names.len() as u8;
    let active = constraint_of(alloc, kind, Side::Active, active, labels)?;
    let passive = constraint_of(alloc, kind, Side::Passive, passive, labels)?;
    match Problem::build(active, passive, names) {
        Some(problem) => Ok(problem),
        None => unreachable!(),
    }
}

/// The problem of a family with these degrees and this number, which are within their ranges.
pub fn family_problem(
    alloc: Global,
    kind: Family,
    active: u8,
    passive: u8,
    number: u8,
) -> Result<Problem, NoMemory>
    requires { out_of_range kind active passive number ≡ None }
    ensures { IfOk result (λ problem. problem ≡ family_of kind active passive number) }
{
    match family(alloc, kind, active, passive, number) {
        Ok(problem) => Ok(problem),
        Err(FamilyFault::OutOfRange(_)) => unreachable!(),
        Err(FamilyFault::NoMemory) => Err(NoMemory),
    }
}
