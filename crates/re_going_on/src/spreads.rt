//! What merges make of derived problems, kept for the beams that come.
use crate::candidates::Kept;
use crate::merges::{after_merge, changed, state_of};
use crate::states::State;
use re_changes::Changed;
use re_labels::{MAX_LABELS, NoMemory};
use re_problem::Problem;
use re_step::{Derived, StepFault, step};
use std::alloc::Global;

/// How many problems are kept, and how many configurations these have together: where they are more, all are forgotten before the next one.
const MAX_SPREADS: usize = 256;

const MAX_CONFIGURATIONS: usize = 1_000_000;

/// A problem of an inner beam: how many labels it has, the labels that those of the derived problem have become, the number that tells it
/// from others, and its rank.
#[derive(Drop)]
pub(crate) struct Trace {
    pub(crate) labels: usize,
    pub(crate) images: Vec<Option<u8>>,
    pub(crate) mark: u64,
    pub(crate) rank: u64,
}

/// What merges make of the derived problem of the problem of this number: the derived problem, where it passes no limit, its inner beams so
/// far, each of problems of one label fewer than those before, and the problems of the last one.
#[derive(Drop)]
pub(crate) struct Spread {
    mark: u64,
    derived: Option<Problem>,
    beams: Vec<Vec<Trace>>,
    last: Vec<State>,
}

/// The problems that were derived from.
#[derive(Drop)]
pub(crate) struct Spreads {
    alloc: Global,
    pub(crate) all: Vec<Spread>,
    configurations: usize,
}

// The problem of an inner beam as it is kept.
fn trace_of(alloc: Global, state: &State) -> Result<Trace, NoMemory> {
    Ok(Trace {
        labels: state.made.problem().names().len(),
        images: Vec::from_slice(alloc, state.made.images())?,
        mark: state.mark,
        rank: state.rank,
    })
}

// The first place of what a label has become.
fn first_place(images: &[Option<u8>], image: Option<u8>) -> usize {
    for (place, other) in images.iter().enumerate() {
        if *other == image {
            return place;
        }
    }
    images.len()
}

// What the label at this place has become so far.
fn label_at(made: &Changed, place: usize) -> u8 {
    match made.images().get(place) {
        Some(Some(label)) => *label,
        _ => 0,
    }
}

// The next two labels of what is made so far that have to become one, if there are any: where the labels are to become these.
fn next_merge(made: &Changed, images: &[Option<u8>]) -> Option<(u8, u8)> {
    for (place, image) in images.iter().enumerate() {
        let low = label_at(made, first_place(images, *image));
        let high = label_at(made, place);
        if low < high {
            return Some((low, high));
        }
    }
    None
}

impl Spread {
    // Of a problem whose derived problem passes a limit.
    fn none(alloc: Global, mark: u64) -> Spread {
        Spread {
            mark,
            derived: None,
            beams: Vec::new(alloc),
            last: Vec::new(alloc),
        }
    }

    // Takes the derived problem in.
    fn take(&mut self, alloc: Global, problem: Problem) -> Result<(), NoMemory> {
        self.derived = Some(problem.copy()?);
        if let Some(state) = state_of(Changed::unchanged(problem)) {
            self.last.push(state)?;
        }
        self.keep_last(alloc)
    }

    /// Whether the derived problem passes a limit.
    pub(crate) fn is_limited(&self) -> bool {
        self.derived.is_none()
    }

    // Keeps the problems of the last inner beam.
    fn keep_last(&mut self, alloc: Global) -> Result<(), NoMemory> {
        let mut beam = Vec::new(alloc);
        for state in self.last.as_slice() {
            beam.push(trace_of(alloc, state)?)?;
        }
        Ok(self.beams.push(beam)?)
    }

    /// Goes on to the inner beam after so many merges.
    pub(crate) fn reach(&mut self, alloc: Global, merges: usize) -> Result<(), NoMemory> {
        for _merge in 0..MAX_LABELS {
            if merges < self.beams.len() || self.last.is_empty() {
                break;
            }
            self.last = after_merge(alloc, self.last.as_slice())?;
            self.keep_last(alloc)?;
        }
        Ok(())
    }

    /// The inner beam after so many merges, as far as it was reached.
    pub(crate) fn beam(&self, merges: usize) -> &[Trace] {
        match self.beams.as_slice().get(merges) {
            Some(beam) => beam.as_slice(),
            None => &[],
        }
    }

    // The problem in which the labels of the derived problem have become these.
    fn made(&self, alloc: Global, images: &[Option<u8>]) -> Result<Option<Changed>, NoMemory> {
        let Some(derived) = &self.derived else {
            return Ok(None);
        };
        let mut made = Changed::unchanged(derived.copy()?);
        for _merge in 0..MAX_LABELS {
            let Some((low, high)) = next_merge(&made, images) else {
                break;
            };
            match changed(alloc, &made, low, high)? {
                Some(next) => made = next,
                None => break,
            }
        }
        Ok(Some(made))
    }

    /// The problem as a candidate.
    pub(crate) fn kept(
        &self,
        alloc: Global,
        trace: &Trace,
        parent: usize,
    ) -> Result<Option<Kept>, NoMemory> {
        let Some(made) = self.made(alloc, trace.images.as_slice())? else {
            return Ok(None);
        };
        Ok(Some(Kept {
            problem: made.problem().copy()?,
            parent,
            images: Vec::from_slice(alloc, made.images())?,
            mark: trace.mark,
            rank: trace.rank,
        }))
    }
}

impl Spreads {
    /// None so far.
    pub(crate) fn new(alloc: Global) -> Spreads {
        Spreads {
            alloc,
            all: Vec::new(alloc),
            configurations: 0,
        }
    }

    // The place of the problem of this number, if it is there.
    fn place_of(&self, mark: u64) -> Option<usize> {
        for (place, spread) in self.all.iter().enumerate() {
            if spread.mark == mark {
                return Some(place);
            }
        }
        None
    }

    // What is known at first of the derived problem.
    fn begun(&mut self, problem: &Problem, mark: u64) -> Result<Spread, NoMemory> {
        let mut spread = Spread::none(self.alloc, mark);
        match step(self.alloc, problem) {
            Ok(derived) => {
                let Derived { problem, .. } = derived;
                let active = problem.active().len();
                let passive = problem.passive().len();
                self.configurations = self.configurations.saturating_add(active);
                self.configurations = self.configurations.saturating_add(passive);
                spread.take(self.alloc, problem)?;
                Ok(spread)
            }
            Err(StepFault::Limit(_)) => Ok(spread),
            Err(StepFault::NoMemory) => Err(NoMemory),
        }
    }

    /// The place of the problem of this number; where it isn't there, it is derived from, and the others are forgotten where they are too
    /// many.
    pub(crate) fn place_for(&mut self, problem: &Problem, mark: u64) -> Result<usize, NoMemory> {
        if let Some(place) = self.place_of(mark) {
            return Ok(place);
        }
        if self.all.len() >= MAX_SPREADS || self.configurations > MAX_CONFIGURATIONS {
            self.all.clear();
            self.configurations = 0;
        }
        let spread = self.begun(problem, mark)?;
        let place = self.all.len();
        self.all.push(spread)?;
        Ok(place)
    }
}
