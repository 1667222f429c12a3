//! The levels of the search for an upper bound.
use crate::candidates::{Candidates, Kept};
use crate::given::{Given, Told};
use crate::losses::{after_loss, state_of};
use crate::states::State;
use crate::steps::upper_step;
use crate::thinning::{Thin, thin_to, thinned};
use re_cert::Step;
use re_changes::Changed;
use re_labels::{LabelSet, MAX_LABELS, NoMemory};
use re_problem::{Problem, zero_round};
use re_step::{Derived, StepFault, step};
use std::alloc::Global;

/// How many candidates of a level stay.
const WIDTH: usize = 20;

/// How many problems were derived, and of how many the derived problem passed a limit.
#[derive(Clone, Copy)]
pub(crate) struct Count {
    pub(crate) nodes: u32,
    pub(crate) cut: u32,
}

/// The step to a problem that is solvable without communication, from the problem at this place of the level before.
#[derive(Drop)]
pub(crate) struct End {
    pub(crate) step: Step,
    pub(crate) parent: usize,
}

/// The problems that stay on a level, and for each problem of the level before the sets of the labels of its derived problem.
#[derive(Drop)]
pub(crate) struct Rung {
    pub(crate) kept: Vec<Kept>,
    pub(crate) sets: Vec<Vec<LabelSet>>,
}

/// What is reached behind a level: the next one, or a problem that is solvable without communication.
#[derive(Drop)]
pub(crate) enum Reached {
    Level(Rung),
    End(End),
}

// What is behind a problem: the sets of the labels of its derived problem, or the step to a problem that is solvable without
// communication.
#[derive(Drop)]
enum Behind {
    Sets(Vec<LabelSet>),
    End(Step),
}

/// What a level is to be: what is given, behind how many steps it stands, and the most labels of its problems.
#[derive(Clone, Copy)]
pub(crate) struct Wanted<'a> {
    pub(crate) given: &'a Given,
    pub(crate) steps: usize,
    pub(crate) most: u8,
}

// A level that is being built. The derived problems of those at the places `open` of the level before may be solvable with what is given.
#[derive(Drop)]
struct Building<'a> {
    alloc: Global,
    wanted: Wanted<'a>,
    candidates: Candidates,
    open: Vec<usize>,
    count: Count,
}

// The labels of the active configuration at this place.
fn labels_at(problem: &Problem, place: usize) -> LabelSet {
    match problem.active().get(place) {
        Some(config) => config.support(),
        None => LabelSet::empty(),
    }
}

// All labels of the sets.
fn labels_in(sets: &[LabelSet]) -> LabelSet {
    let mut all = LabelSet::empty();
    for set in sets {
        all = all.union(*set);
    }
    all
}

// The step to the derived problem with these labels alone, where they are at most so many.
fn end_with(
    alloc: Global,
    before: &Problem,
    derived: &Derived,
    stay: LabelSet,
    most: u8,
) -> Result<Option<Step>, NoMemory> {
    let Some(Thin { problem, sets }) = thin_to(alloc, before, derived, stay)? else {
        return Ok(None);
    };
    let made = Changed::unchanged(problem);
    if made.problem().names().len() > most as usize {
        return Ok(None);
    }
    let next = made.problem().copy()?;
    Ok(Some(upper_step(alloc, next, sets.as_slice(), made.images())?))
}

// How many labels it has.
fn labels_of(state: &State) -> usize {
    state.made.problem().names().len()
}

impl<'a> Building<'a> {
    // Offers each problem of the inner beam that has few enough labels.
    fn offer_all(&mut self, states: &[State], parent: usize) -> Result<(), NoMemory> {
        for state in states {
            if labels_of(state) <= self.wanted.most as usize {
                self.candidates.offer(state, parent)?;
            }
        }
        Ok(())
    }

    // Whether no label that is left out of the problems of the inner beam counts any more.
    fn is_done(&self, states: &[State]) -> bool {
        match states.first() {
            None => true,
            Some(state) => {
                let left = labels_of(state).saturating_sub(1);
                left < self.wanted.most as usize && !self.candidates.is_open(left)
            }
        }
    }

    // Offers the derived problem and what is left of it without some labels.
    fn spread(&mut self, made: Changed, parent: usize) -> Result<(), NoMemory> {
        let mut states = Vec::new(self.alloc);
        if let Some(state) = state_of(self.alloc, made)? {
            states.push(state)?;
        }
        for _loss in 0..MAX_LABELS {
            self.offer_all(states.as_slice(), parent)?;
            if self.is_done(states.as_slice()) {
                break;
            }
            states = after_loss(self.alloc, states.as_slice())?;
        }
        Ok(())
    }

    // Takes the derived problem in, which isn't solvable without communication, and with what is given alone not with few labels.
    fn take(
        &mut self,
        before: &Problem,
        derived: Derived,
        parent: usize,
    ) -> Result<Behind, NoMemory> {
        match thinned(self.alloc, before, derived, self.wanted.most)? {
            Some(Thin { problem, sets }) => {
                self.spread(Changed::unchanged(problem), parent)?;
                Ok(Behind::Sets(sets))
            }
            None => Ok(Behind::Sets(Vec::new(self.alloc))),
        }
    }

    // What is told of the derived problem, which isn't solvable without communication.
    fn ask(
        &mut self,
        before: &Problem,
        derived: Derived,
        parent: usize,
    ) -> Result<Behind, NoMemory> {
        let Wanted { given, steps, most } = self.wanted;
        match given.told(self.alloc, &derived.problem, steps)? {
            Told::Solvable(sets) => {
                let stay = labels_in(sets.as_slice());
                if let Some(step) = end_with(self.alloc, before, &derived, stay, most)? {
                    return Ok(Behind::End(step));
                }
                self.open.push(parent)?;
            }
            Told::Unknown => self.open.push(parent)?,
            Told::Unsolvable => {}
        }
        self.take(before, derived, parent)
    }

    // The step to the derived problem, where the configuration at this place shows that it is solvable without communication.
    fn finish(
        &mut self,
        before: &Problem,
        derived: &Derived,
        place: usize,
    ) -> Result<Behind, NoMemory> {
        let stay = labels_at(&derived.problem, place);
        match end_with(self.alloc, before, derived, stay, self.wanted.most)? {
            Some(step) => Ok(Behind::End(step)),
            None => Ok(Behind::Sets(Vec::new(self.alloc))),
        }
    }

    // Takes the derived problem of a problem of the level before in.
    fn derive(&mut self, before: &Problem, parent: usize) -> Result<Behind, NoMemory> {
        self.count.nodes = self.count.nodes.wrapping_add(1);
        match step(self.alloc, before) {
            Ok(derived) => match zero_round(&derived.problem) {
                Some(place) => self.finish(before, &derived, place),
                None => self.ask(before, derived, parent),
            },
            Err(StepFault::Limit(_)) => {
                self.count.cut = self.count.cut.wrapping_add(1);
                Ok(Behind::Sets(Vec::new(self.alloc)))
            }
            Err(StepFault::NoMemory) => Err(NoMemory),
        }
    }

    // What is reached behind this level.
    fn fill(&mut self, level: &[Kept]) -> Result<Reached, NoMemory> {
        let mut all = Vec::new(self.alloc);
        for (parent, kept) in level.iter().enumerate() {
            match self.derive(&kept.problem, parent)? {
                Behind::End(step) => return Ok(Reached::End(End { step, parent })),
                Behind::Sets(sets) => all.push(sets)?,
            }
        }
        let mut kept = Vec::new(self.alloc);
        self.candidates
            .choose(&mut kept, None, &Given::nothing(), 0)?;
        let rung = Rung { kept, sets: all };
        match self.end_on(&rung)? {
            Some(end) => Ok(Reached::End(end)),
            None => Ok(Reached::Level(rung)),
        }
    }

    // The step to the first problem of the level that is solvable with what is given alone, if there is one.
    fn end_on(&self, rung: &Rung) -> Result<Option<End>, NoMemory> {
        let Wanted { given, steps, .. } = self.wanted;
        for kept in rung.kept.as_slice() {
            if self.open.as_slice().contains(&kept.parent) {
                let told = given.told(self.alloc, &kept.problem, steps)?;
                if matches!(told, Told::Solvable(_)) {
                    let step = step_of(self.alloc, kept, rung.sets.as_slice())?;
                    let parent = kept.parent;
                    return Ok(Some(End { step, parent }));
                }
            }
        }
        Ok(None)
    }
}

/// The step to the problem of a level, from the sets of the labels of the derived problems of those of the level before.
pub(crate) fn step_of(
    alloc: Global,
    kept: &Kept,
    sets: &[Vec<LabelSet>],
) -> Result<Step, NoMemory> {
    let next = kept.problem.copy()?;
    let images = kept.images.as_slice();
    match sets.get(kept.parent) {
        Some(sets) => upper_step(alloc, next, sets.as_slice(), images),
        None => upper_step(alloc, next, &[], images),
    }
}

/// What is reached behind this level, and the count of all problems that were derived.
pub(crate) fn level_behind(
    alloc: Global,
    level: &[Kept],
    wanted: Wanted<'_>,
    count: &mut Count,
) -> Result<Reached, NoMemory> {
    let mut building = Building {
        alloc,
        wanted,
        candidates: Candidates::new(alloc, WIDTH),
        open: Vec::new(alloc),
        count: *count,
    };
    let reached = building.fill(level)?;
    *count = building.count;
    Ok(reached)
}
