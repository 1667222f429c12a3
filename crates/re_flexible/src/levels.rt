//! Levels of labels, and the search for a flexible set of them.
ghost use Rattle.re_flexible.specs.Families.{AreApart, AreNext, IsFirst};
ghost use Rattle.re_flexible.specs.Lengths.{IsFlexibility, IsFlexibleSet, IsFound};
ghost use Rattle.re_problem.specs.NamedProblems.{unnamed};
ghost use Rattle.std.specs.Prelude.{◌≡◌, ◌↔◌, IsTrue, length};

use crate::tables::is_within;
use crate::trimming::{kept_of, one_set, trimmed_parts, trimmed_whole};
use crate::walking::{parts_of, turning, walks_of};
use arrayvec::ArrayVec;
use re_labels::{LabelSet, MAX_LABELS};
use re_problem::Problem;

/// Whether a problem has a flexible set of labels, and else how many levels of labels.
#[derive(Drop, Debug)]
pub enum Flexibility {
    /// The set is flexible: the greatest with the least of all labels that flexible sets have.
    Flexible(LabelSet),
    /// No set is, and so many levels stand on each other, from 1 to 128.
    Length(u8),
    /// No level has a label: trimming leaves nothing.
    NoSolution,
}

// The sets of the next level: the greatest that are trimmed and flexible within these sets.
fn next_of(problem: &Problem, sets: &[LabelSet]) -> ArrayVec<LabelSet, 128>
    requires count { length sets.now ≡ MAX_LABELS }
    requires apart { AreApart sets.now }
    ensures count { length result.items ≡ MAX_LABELS }
    ensures next { AreNext (unnamed problem.now) sets.now result.items }
{
    let walks = walks_of(problem, sets);
    let parts = parts_of(problem, sets, &walks);
    let turning = turning(problem, sets, &walks, parts.as_slice());
    trimmed_parts(problem, kept_of(parts.as_slice(), turning))
}

// The set with the least of all labels of the sets, or None where none has a label.
fn first_set(sets: &[LabelSet]) -> Option<LabelSet>
    requires { length sets.now ≡ MAX_LABELS }
    ensures { IsFirst sets.now result }
{
    for label in 0..MAX_LABELS {
        let set = sets[label as usize];
        if set.has(label) {
            return Some(set);
        }
    }
    None
}

/// The greatest flexible set of labels of the problem with the least of all labels that flexible sets have; where there is none, how many
/// levels of labels stand on each other. It takes no memory. For each level it passes the configurations once, and once for each round of
/// trimming, however many sets the level has.
pub fn flexibility_of(problem: &Problem) -> Flexibility
    ensures { IsFlexibility (unnamed problem.now) result }
{
    let mut sets = trimmed_whole(problem);
    let Some(_set) = first_set(sets.as_slice()) else {
        return Flexibility::NoSolution;
    };
    let mut count = 1;
    'levels: loop {
        let next = next_of(problem, sets.as_slice());
        let Some(set) = first_set(next.as_slice()) else {
            return Flexibility::Length(count);
        };
        if is_within(sets.as_slice(), next.as_slice()) {
            return Flexibility::Flexible(set);
        }
        count += 1;
        sets = next;
    }
}

/// Whether the set of labels is flexible: for some number, paths through as many nodes lead from each of its labels to each, whichever kind
/// the first node is of. It takes no memory, and costs as much as one level does.
pub fn is_flexible(problem: &Problem, set: LabelSet) -> bool
    ensures { IsTrue result ↔ IsFlexibleSet (unnamed problem.now) set }
{
    let Some(_label) = set.first() else {
        return false;
    };
    let sets = one_set(set);
    let next = next_of(problem, sets.as_slice());
    is_within(sets.as_slice(), next.as_slice())
}

/// The greatest flexible set of labels of the problem with the least of all labels that flexible sets have, or None exactly where there is none.
/// It costs what `flexibility_of` does.
pub fn find_flexible(problem: &Problem) -> Option<LabelSet>
    ensures { IsFound (unnamed problem.now) result }
{
    match flexibility_of(problem) {
        Flexibility::Flexible(set) => Some(set),
        Flexibility::Length(_) => None,
        Flexibility::NoSolution => None,
    }
}
