//! One set more at a port: whether each choice of sets goes on to have an active choice.
ghost use Rattle.re_given_words.specs.Ahead.{HaveChoices, StandsAt};
ghost use Rattle.re_given_words.specs.Searching.{AreAllowed, IsAdded, IsMissed, IsRefused};
ghost use Rattle.re_given_words.specs.declared.standing.Standing.{Standing as Stands};
ghost use Rattle.re_labels.specs.GoodRows.{is_allowed};
ghost use Rattle.std.specs.Prelude.{◌≡◌, ◌++◌, ◌∷◌, ◌<◌, ◌≤◌, [], IfOk, IfSome, IsTrue, List, None, false, length, true};

use crate::standing::Standing;
use crate::stopping::{TryFault, spend};
use arrayvec::ArrayVec;
use re_choice::are_sets;
use re_labels::{Constraint, LabelSet, Row};
use std::alloc::Global;

// The sets with one more behind them.
fn with_behind(sets: &[LabelSet], set: LabelSet) -> ArrayVec<LabelSet, 6>
    requires { length sets.now < 6 }
    ensures { result.items ≡ sets.now ++ set ∷ [] }
{
    let mut more = ArrayVec::new();
    for other in sets {
        more.push(*other);
    }
    more.push(set);
    more
}

// Whether some choice of the sets is a configuration.
fn is_allowed(active: &Constraint, sets: &[LabelSet]) -> bool
    requires { length sets.now ≡ active.now.degree }
    ensures { result ≡ is_allowed active.now sets.now }
{
    let _degree = active.degree();
    are_sets(sets);
    match Row::from_sets(sets) {
        Some(row) => active.allows(&row),
        None => false,
    }
}

// Whether each choice of sets behind those that are drawn has an active choice, where the new one is drawn at its port, and at each
// other port one that stands there.
fn are_allowed(
    active: &Constraint,
    standing: &[Standing],
    new: &Standing,
    drawn: &[LabelSet],
    tries: &mut usize,
) -> Result<bool, TryFault>
    requires { length drawn.now ≤ active.now.degree }
    ensures yes { IfOk result (λ all. all ≡ true → AreAllowed active.now standing.now new.now drawn.now) }
    ensures no { IfOk result (λ all. all ≡ false → IsMissed active.now standing.now new.now drawn.now) }
{
    spend(tries)?;
    let port = drawn.len();
    if port >= active.degree() as usize {
        return Ok(is_allowed(active, drawn));
    }
    if port == new.port as usize {
        let more = with_behind(drawn, new.set);
        return are_allowed(active, standing, new, more.as_slice(), tries);
    }
    for other in standing {
        if port == other.port as usize {
            let more = with_behind(drawn, other.set);
            if !are_allowed(active, standing, new, more.as_slice(), tries)? {
                return Ok(false);
            }
        }
    }
    Ok(true)
}

// Whether the set stands at the port. Only a set of another number may be overlooked.
fn stands(standing: &[Standing], new: &Standing) -> bool
    ensures { IsTrue result → StandsAt standing.now new.now.port new.now.set }
{
    for other in standing {
        if other.port == new.port && other.set.number() == new.set.number() {
            return true;
        }
    }
    false
}

// Lets the set stand at its port, where each choice of a set at each port has an active choice then, and says whether it does.
fn let_stand(
    active: &Constraint,
    standing: &mut Vec<Standing>,
    new: Standing,
    tries: &mut usize,
) -> Result<bool, TryFault>
    requires { HaveChoices active.now standing.old.items }
    ensures { IfOk result (λ fits. IsAdded active.now (new.port ∷ []) (new.set ∷ []) standing.old.items fits standing.new.items) }
{
    if stands(standing.as_slice(), &new) {
        return Ok(true);
    }
    if !are_allowed(active, standing.as_slice(), &new, &[], tries)? {
        return Ok(false);
    }
    standing.push(new)?;
    Ok(true)
}

// Lets the sets stand at the ports, one after another, until one can't, and says whether all do.
fn add(
    active: &Constraint,
    standing: &mut Vec<Standing>,
    ports: &[u8],
    sets: &[LabelSet],
    tries: &mut usize,
) -> Result<bool, TryFault>
    requires { HaveChoices active.now standing.old.items }
    ensures { IfOk result (λ fits. IsAdded active.now ports.now sets.now standing.old.items fits standing.new.items) }
{
    let [port, others @ ..] = ports else {
        return Ok(sets.is_empty());
    };
    let [set, more @ ..] = sets else {
        return Ok(false);
    };
    let new = Standing {
        port: *port,
        set: *set,
    };
    if !let_stand(active, standing, new, tries)? {
        return Ok(false);
    }
    add(active, standing, others, more, tries)
}

/// What stands with these sets at these ports, or none where some choice of a set at each port would have no active choice.
pub(crate) fn added(
    alloc: Global,
    active: &Constraint,
    standing: &[Standing],
    ports: &[u8],
    sets: &[LabelSet],
    tries: &mut usize,
) -> Result<Option<Vec<Standing>>, TryFault>
    requires { HaveChoices active.now standing.now }
    ensures some { IfOk result (λ found. IfSome found (λ more. IsAdded active.now ports.now sets.now standing.now true more.items)) }
    ensures none { IfOk result (λ found. found ≡ None → IsRefused active.now ports.now sets.now standing.now) }
{
    let mut more = Vec::new(alloc);
    more.extend_from_slice(standing)?;
    if add(active, &mut more, ports, sets, tries)? {
        Ok(Some(more))
    } else {
        Ok(None)
    }
}

/// Whether the sets can stand at the ports beside what stands.
pub(crate) fn fits(
    alloc: Global,
    active: &Constraint,
    standing: &[Standing],
    ports: &[u8],
    sets: &[LabelSet],
    tries: &mut usize,
) -> Result<bool, TryFault>
    requires { HaveChoices active.now standing.now }
    ensures { IfOk result (λ fits. (more : List Stands) × IsAdded active.now ports.now sets.now standing.now fits more) }
{
    let mut more = Vec::new(alloc);
    more.extend_from_slice(standing)?;
    add(active, &mut more, ports, sets, tries)
}
