//! The search for sets at the ports that serve each multiset of ports.
ghost use Rattle.re_given_words.specs.Ahead.{HaveChoices};
ghost use Rattle.re_given_words.specs.Searching.{AreLeft, IsLeft, IsPassed, IsSupplied, IsUnderWay, IsPart, ShowsTwoBy};
ghost use Rattle.re_given_words.specs.declared.standing.Standing.{Standing as Stands};
ghost use Rattle.re_problem.specs.NamedProblems.{unnamed};
ghost use Rattle.re_labels.specs.Rearranging.{Rearranged};
ghost use Rattle.std.specs.Prelude.{◌≡◌, ◌≤◌, ◌∷◌, Contains, IfOk, IfSome, List, None, false, length, true};

use crate::drawing::{added, fits};
use crate::ordering::PortSets;
use crate::standing::Standing;
use crate::stopping::TryFault;
use re_labels::{Config, Constraint, LabelSet, Row};
use re_problem::Problem;
use std::alloc::Global;

/// A multiset of ports that is to be served, and the sets that may serve it, each of them at the port at its place.
#[derive(Drop)]
pub(crate) struct Open {
    pub ports: Config,
    pub rows: Vec<PortSets>,
}

/// What is open, and what stands, behind a multiset that is served.
#[derive(Drop)]
pub(crate) struct Next {
    pub opens: Vec<Open>,
    pub standing: Vec<Standing>,
}

// The same multiset with those of its rows that may stand beside the others.
fn left_of(
    alloc: Global,
    active: &Constraint,
    standing: &[Standing],
    before: &Open,
    tries: &mut usize,
) -> Result<Open, TryFault>
    requires { HaveChoices active.now standing.now }
    ensures { IfOk result (IsLeft active.now standing.now before.now) }
{
    let ports = before.ports.labels();
    let mut rows = Vec::new(alloc);
    for row in before.rows.as_slice() {
        let sets = row.sets();
        if fits(alloc, active, standing, ports, sets, tries)? {
            rows.push(PortSets::new(sets))?;
        }
    }
    Ok(Open {
        ports: before.ports.copy(),
        rows,
    })
}

// Where one more goes: in front where it has fewer rows than the first, and else behind all.
fn place_of(opens: &[Open], more: &Open) -> usize
    ensures { result ≤ length opens.now }
{
    match opens {
        [first, ..] if more.rows.len() < first.rows.len() => 0,
        _ => opens.len(),
    }
}

// Puts one more among those that are open, in front where it has fewer rows than the first.
fn put(opens: &mut Vec<Open>, more: Open) -> Result<(), TryFault>
    ensures { IfOk result (λ _. Rearranged (more ∷ opens.old.items) opens.new.items) }
{
    let place = place_of(opens.as_slice(), &more);
    opens.insert(place, more)?;
    Ok(())
}

// The same multisets with those of their rows that may stand beside the others, or none where one has no such row. One with the fewest is
// the first.
fn all_left(
    alloc: Global,
    active: &Constraint,
    standing: &[Standing],
    opens: &[Open],
    tries: &mut usize,
) -> Result<Option<Vec<Open>>, TryFault>
    requires { HaveChoices active.now standing.now }
    ensures some { IfOk result (λ found. IfSome found (λ left. AreLeft active.now standing.now opens.now left.items)) }
    ensures none { IfOk result (λ found. found ≡ None → (whole : List Stands) → HaveChoices active.now whole → IsPart standing.now whole → ((open_ : Open) → Contains opens.now open_ → IsSupplied whole open_) → ⊥) }
{
    let mut left = Vec::new(alloc);
    for before in opens {
        let more = left_of(alloc, active, standing, before, tries)?;
        if more.rows.is_empty() {
            return Ok(None);
        }
        put(&mut left, more)?;
    }
    Ok(Some(left))
}

// What is open and stands next, where these sets serve the first multiset, if they can.
fn served(
    alloc: Global,
    problem: &Problem,
    rows: &[Row],
    first: &Open,
    others: &[Open],
    standing: &[Standing],
    sets: &[LabelSet],
    tries: &mut usize,
) -> Result<Option<Next>, TryFault>
    requires under_way { IsUnderWay (unnamed problem.now) rows.now (first.now ∷ others.now) standing.now }
    requires row { Contains first.now.rows.items sets.now }
    ensures some { IfOk result (λ found. IfSome found (λ more. IsUnderWay (unnamed problem.now) rows.now more.opens.items more.standing.items)) }
    ensures fewer { IfOk result (λ found. IfSome found (λ more. length more.opens.items ≡ length others.now)) }
    ensures passed { IfOk result (IsPassed (unnamed problem.now) rows.now standing.now first.now.ports sets.now) }
{
    let active = problem.active();
    let ports = first.ports.labels();
    let Some(standing) = added(alloc, active, standing, ports, sets, tries)? else {
        return Ok(None);
    };
    let Some(opens) = all_left(alloc, active, standing.as_slice(), others, tries)? else {
        return Ok(None);
    };
    Ok(Some(Next { opens, standing }))
}

/// Whether some sets at the ports, among them those that stand, show two rounds by these rows. It tries each row of the first multiset
/// that is open, and goes on with the others.
pub(crate) fn serve(
    alloc: Global,
    problem: &Problem,
    rows: &[Row],
    opens: &[Open],
    standing: &[Standing],
    tries: &mut usize,
) -> Result<bool, TryFault>
    requires { IsUnderWay (unnamed problem.now) rows.now opens.now standing.now }
    ensures yes { IfOk result (λ found. found ≡ true → (whole : List Stands) × ShowsTwoBy (unnamed problem.now) rows.now whole) }
    ensures no { IfOk result (λ found. found ≡ false → (whole : List Stands) → ShowsTwoBy (unnamed problem.now) rows.now whole → IsPart standing.now whole → ⊥) }
{
    let [first, others @ ..] = opens else {
        return Ok(true);
    };
    for row in first.rows.as_slice() {
        if let Some(more) = served(
            alloc,
            problem,
            rows,
            first,
            others,
            standing,
            row.sets(),
            tries,
        )? {
            if serve(
                alloc,
                problem,
                rows,
                more.opens.as_slice(),
                more.standing.as_slice(),
                tries,
            )? {
                return Ok(true);
            }
        }
    }
    Ok(false)
}
