//! The levels of the search.
use crate::candidates::{Candidates, Kept, first_kept};
use crate::given::Given;
use crate::spreads::{Spread, Spreads, Trace};
use re_changes::Changed;
use re_labels::{MAX_LABELS, NoMemory};
use re_problem::{Problem, zero_round};
use re_shaping::Stop;
use re_step::{Derived, StepFault, step};
use std::alloc::Global;

/// How many candidates of a level stay.
pub(crate) const WIDTH: usize = 30;

/// The beam on a level. Where it has a plain problem, this is the first one: it is reached without merges.
#[derive(Drop)]
pub(crate) struct Level {
    pub(crate) kept: Vec<Kept>,
    pub(crate) plain: bool,
}

/// A level, and whether a derived problem passed a limit on the way to it, or some problem had too many labels.
#[derive(Drop)]
pub(crate) struct Built {
    pub(crate) level: Level,
    pub(crate) limited: bool,
    pub(crate) larger: bool,
}

// A level that is being built behind so many steps: problems of at most so many labels.
#[derive(Drop)]
struct Building<'a> {
    alloc: Global,
    given: &'a Given,
    steps: usize,
    most: u8,
    candidates: Candidates,
    plain: Option<Kept>,
    limited: bool,
    larger: bool,
}

impl<'a> Building<'a> {
    fn new(alloc: Global, given: &'a Given, steps: usize, most: u8) -> Building<'a> {
        Building {
            alloc,
            given,
            steps,
            most,
            candidates: Candidates::new(alloc, WIDTH),
            plain: None,
            limited: false,
            larger: false,
        }
    }

    // Offers the problem of the inner beam as a candidate.
    fn offer(&mut self, spread: &Spread, trace: &Trace, parent: usize) -> Result<(), NoMemory> {
        if self.candidates.takes(trace.labels, trace.rank, trace.mark) {
            if let Some(kept) = spread.kept(self.alloc, trace, parent)? {
                self.candidates.put(kept)?;
            }
        }
        Ok(())
    }

    // Offers each problem of the inner beam that has few enough labels.
    fn offer_all(&mut self, spread: &Spread, merges: usize, parent: usize) -> Result<(), NoMemory> {
        for trace in spread.beam(merges) {
            if trace.labels <= self.most as usize {
                self.offer(spread, trace, parent)?;
            } else {
                self.larger = true;
            }
        }
        Ok(())
    }

    // Whether no merge of the problems of the inner beam counts any more.
    fn is_done(&self, beam: &[Trace]) -> bool {
        match beam.first() {
            None => true,
            Some(trace) => {
                let left = trace.labels.saturating_sub(1);
                left < self.most as usize && !self.candidates.is_open(left)
            }
        }
    }

    // Offers the derived problem and what merges make of it.
    fn spread(&mut self, spread: &mut Spread, parent: usize) -> Result<(), NoMemory> {
        for merges in 0..MAX_LABELS as usize {
            spread.reach(self.alloc, merges)?;
            self.offer_all(spread, merges, parent)?;
            if self.is_done(spread.beam(merges)) {
                break;
            }
        }
        Ok(())
    }

    // Takes the derived problem in as the plain one, where it counts.
    fn take_plain(&mut self, spread: &Spread, parent: usize) -> Result<(), NoMemory> {
        let [trace] = spread.beam(0) else {
            return Ok(());
        };
        if trace.labels > self.most as usize {
            return Ok(());
        }
        if let Some(kept) = spread.kept(self.alloc, trace, parent)? {
            if self.given.is_open(self.alloc, &kept.problem, self.steps)? {
                self.plain = Some(kept);
            }
        }
        Ok(())
    }

    // Takes what merges make of a derived problem in, which is plain or not.
    fn take(&mut self, spread: &mut Spread, parent: usize, plain: bool) -> Result<(), NoMemory> {
        self.limited = self.limited || spread.is_limited();
        if plain {
            self.take_plain(spread, parent)?;
        }
        self.spread(spread, parent)
    }

    // Takes the derived problem of a problem of the level before in, which is plain or not.
    fn derive(
        &mut self,
        spreads: &mut Spreads,
        kept: &Kept,
        parent: usize,
        plain: bool,
    ) -> Result<(), NoMemory> {
        let place = spreads.place_for(&kept.problem, kept.mark)?;
        match spreads.all.as_mut_slice().get_mut(place) {
            Some(spread) => self.take(spread, parent, plain),
            None => Ok(()),
        }
    }

    // The level.
    fn finish(self) -> Result<Built, NoMemory> {
        let Building {
            alloc,
            given,
            steps,
            candidates,
            plain,
            limited,
            larger,
            ..
        } = self;
        let mut candidates = candidates;
        let mut kept = Vec::new(alloc);
        let mark = match &plain {
            Some(plain) => Some(plain.mark),
            None => None,
        };
        let is_plain = mark.is_some();
        if let Some(plain) = plain {
            kept.push(plain)?;
        }
        candidates.choose(&mut kept, mark, given, steps)?;
        let level = Level {
            kept,
            plain: is_plain,
        };
        Ok(Built {
            level,
            limited,
            larger,
        })
    }
}

/// The level behind this one and so many steps, with problems of at most so many labels.
pub(crate) fn next_level(
    alloc: Global,
    spreads: &mut Spreads,
    given: &Given,
    level: &Level,
    steps: usize,
    most: u8,
) -> Result<Built, NoMemory> {
    let mut building = Building::new(alloc, given, steps, most);
    for (parent, kept) in level.kept.iter().enumerate() {
        building.derive(spreads, kept, parent, level.plain && parent == 0)?;
    }
    building.finish()
}

/// The level of the first problem.
pub(crate) fn first_level(alloc: Global, problem: &Problem) -> Result<Level, NoMemory> {
    let kept = first_kept(alloc, problem)?;
    Ok(Level { kept, plain: true })
}

/// The derived problem as one on a path behind so many steps, where it passes no limit, isn't solvable there, and has at most so many labels.
pub(crate) fn plain_stop(
    alloc: Global,
    given: &Given,
    problem: &Problem,
    steps: usize,
    labels: u8,
) -> Result<Option<Stop>, NoMemory> {
    let made = match step(alloc, problem) {
        Ok(derived) => {
            let Derived { problem, .. } = derived;
            Changed::unchanged(problem)
        }
        Err(StepFault::Limit(_)) => return Ok(None),
        Err(StepFault::NoMemory) => return Err(NoMemory),
    };
    let names = made.problem().names().len();
    if names > labels as usize || zero_round(made.problem()).is_some() {
        return Ok(None);
    }
    if !given.is_open(alloc, made.problem(), steps)? {
        return Ok(None);
    }
    Ok(Some(Stop {
        problem: made.problem().copy()?,
        images: Vec::from_slice(alloc, made.images())?,
    }))
}
