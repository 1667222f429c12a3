//! A constraint in lines that differ at one place alone, joined place by place.
ghost use Rattle.std.specs.Prelude.{◌≡◌, ◌<◌, ◌≤◌, ◌++◌, ◌∷◌, [], length};

use arrayvec::ArrayVec;
use re_labels::{Constraint, LabelSet, NoMemory, Row};
use std::alloc::Global;
use std::cmp::Ordering;
use std::marker::Model;

/// A line of a constraint: a set of labels for each place. Contracts see the list of them.
#[derive(Drop)]
pub(crate) struct Line {
    held: ArrayVec<LabelSet, 6>,
}

impl Model for Line {
    ghost use Rattle.std.specs.Prelude.{List, ℕ, ◌≤◌, length};

    ghost Value = { List (List ℕ) };

    ghost view = { λ l. l.held.items };

    ghost invariant = { λ l. length l.held.items ≤ 6 };
}

impl Line {
    /// The line of these sets.
    pub(crate) fn new(sets: &[LabelSet]) -> Line
        requires { length sets.now ≤ 6 }
        ensures { result ≡ sets.now }
    {
        let mut held = ArrayVec::new();
        for set in sets {
            held.push(*set);
        }
        Line { held }
    }

    // The line of these sets and one more behind them.
    fn with_behind(sets: &[LabelSet], set: LabelSet) -> Line
        requires { length sets.now < 6 }
        ensures { result ≡ sets.now ++ set ∷ [] }
    {
        let mut held = ArrayVec::new();
        for other in sets {
            held.push(*other);
        }
        held.push(set);
        Line { held }
    }

    /// Its sets, in the order of the places.
    pub(crate) fn sets(&self) -> &[LabelSet]
        ensures sets { result.now ≡ self.now }
        ensures six { length self.now ≤ 6 }
    {
        self.held.as_slice()
    }
}

// The line with its first place behind the others.
fn turned(line: &Line) -> Line {
    match line.sets() {
        [first, others @ ..] => Line::with_behind(others, *first),
        [] => Line::new(&[]),
    }
}

// The order of the sets, the first places first.
fn line_order(line: &Line, other: &Line) -> Ordering {
    line.sets().cmp(other.sets())
}

// The line of both, where they agree but for their last places.
fn both(line: &Line, other: &Line) -> Option<Line> {
    match (line.sets(), other.sets()) {
        ([places @ .., last], [others @ .., other_last]) => {
            if places == others {
                Some(Line::with_behind(places, last.union(*other_last)))
            } else {
                None
            }
        }
        _ => None,
    }
}

// Puts the line behind the others, or into the last one of them where the two agree but for their last places.
fn take_in(joined: &mut Vec<Line>, line: &Line) -> Result<(), NoMemory> {
    let Some(last) = joined.pop() else {
        return Ok(joined.push(Line::new(line.sets()))?);
    };
    match both(&last, line) {
        Some(both) => Ok(joined.push(both)?),
        None => {
            joined.push(last)?;
            Ok(joined.push(Line::new(line.sets()))?)
        }
    }
}

// Each line with its first place behind the others, and of these one for all that agree but for it.
fn joined_once(alloc: Global, lines: Vec<Line>) -> Result<Vec<Line>, NoMemory> {
    let mut next = Vec::new(alloc);
    for line in &lines {
        next.push(turned(line))?;
    }
    next.sort_unstable_by(line_order);
    let mut joined = Vec::new(alloc);
    for line in &next {
        take_in(&mut joined, line)?;
    }
    Ok(joined)
}

// Each configuration as a line of its own.
fn lines_alone(alloc: Global, constraint: &Constraint) -> Result<Vec<Line>, NoMemory> {
    let mut lines = Vec::new(alloc);
    for config in constraint.configs() {
        lines.push(Line::new(Row::of_config(config).sets()))?;
    }
    Ok(lines)
}

/// The configurations of a constraint, one a line at first; then, at each place from the first one on, lines that differ there alone become
/// one. It sorts the lines once for each place.
pub(crate) fn joined_lines(alloc: Global, constraint: &Constraint) -> Result<Vec<Line>, NoMemory> {
    let mut lines = lines_alone(alloc, constraint)?;
    for _ in 0..constraint.degree() {
        lines = joined_once(alloc, lines)?;
    }
    Ok(lines)
}
