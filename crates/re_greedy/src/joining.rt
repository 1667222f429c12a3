//! What may join what is seen around a passive node, and what is hardest to answer.
ghost use Rattle.re_greedy.specs.Partials.{AreHardest, AreJoining, IsCovered};
ghost use Rattle.std.specs.Prelude.{◌≡◌, ◌↔◌, IfOk, IsTrue};

use crate::partials::{Partial, extra};
use re_labels::{LabelSet, NoMemory};
use std::alloc::Global;

// The labels with which what is seen is one of the multisets.
fn joining(members: &[Partial], seen: &Partial) -> LabelSet
    ensures { AreJoining members.now seen.now result }
{
    let mut set = LabelSet::empty();
    for member in members {
        if let Some(label) = extra(member.labels(), seen.labels()) {
            set = set.insert(label);
        }
    }
    set
}

// Whether one of the sets lies within the set.
fn is_covered(sets: &[LabelSet], set: LabelSet) -> bool
    ensures { IsTrue result ↔ IsCovered sets.now set }
{
    for other in sets {
        if other.within(set) {
            return true;
        }
    }
    false
}

/// Multisets that want one more label, and for each the labels that may join it. Contracts see a record.
#[derive(Drop)]
pub(crate) struct Hardest {
    pub(crate) chosen: Vec<Partial>,
    pub(crate) joining: Vec<LabelSet>,
}

/// Those of the multisets with fewer labels than the degree that no other one before them is as hard as.
pub(crate) fn hardest_of(
    alloc: Global,
    members: &[Partial],
    degree: u8,
) -> Result<Hardest, NoMemory>
    ensures { IfOk result (λ hardest. AreHardest degree members.now members.now hardest.chosen.items hardest.joining.items) }
{
    let mut chosen = Vec::new(alloc);
    let mut sets = Vec::new(alloc);
    for member in members {
        if member.labels().len() < degree as usize {
            let set = joining(members, member);
            if !is_covered(sets.as_slice(), set) {
                chosen.push(member.copy())?;
                sets.push(set)?;
            }
        }
    }
    Ok(Hardest {
        chosen,
        joining: sets,
    })
}
