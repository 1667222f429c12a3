//! The search, which learns from each conflict. Nothing that it keeps is trusted: what it learns and finds is shown again.
use crate::Clauses;
use crate::marks::{is_marked, negated};
use crate::numbers::{NONE, number_at, number_of, put, put_mark};
use crate::trail::Trail;
use crate::watches::{Visit, Watches};
use std::alloc::{AllocError, Global};

/// A search for values, with what the last conflict taught: a clause, and the places of those that show it.
#[derive(Drop)]
pub(crate) struct Search {
    watches: Watches,
    trail: Trail,
    done: usize,
    broken: u32,
    activities: Vec<u32>,
    step: u32,
    seen: Vec<bool>,
    touched: Vec<u32>,
    clause: Vec<u32>,
    places: Vec<u32>,
}

/// How many variables the clauses speak of, with all below.
fn variables(clauses: &Clauses) -> usize {
    let mut count = 0;
    for place in 0..clauses.len() {
        for literal in clauses.clause(place) {
            count = count.max((*literal / 2) as usize + 1);
        }
    }
    count
}

impl Search {
    /// A search over the clauses that decides on the first so many variables, and on others only when these are told.
    pub(crate) fn new(alloc: Global, clauses: &Clauses, first: u32) -> Result<Search, AllocError> {
        let count = variables(clauses);
        let mut search = Search {
            watches: Watches::new(alloc, count.saturating_mul(2))?,
            trail: Trail::new(alloc, count)?,
            done: 0,
            broken: NONE,
            activities: vec![in alloc; 0; count.min(first as usize)]?,
            step: 256,
            seen: vec![in alloc; false; count]?,
            touched: Vec::new(alloc),
            clause: Vec::new(alloc),
            places: Vec::new(alloc),
        };
        for place in 0..clauses.len() {
            search.add(clauses.clause(place))?;
        }
        Ok(search)
    }

    // One more clause before the first decision.
    fn add(&mut self, clause: &[u32]) -> Result<(), AllocError> {
        let place = self.watches.attach(clause)?;
        match clause {
            [] => self.broken = place,
            [literal] => {
                if is_marked(self.trail.truths(), negated(*literal)) {
                    self.broken = place;
                } else if !is_marked(self.trail.truths(), *literal) {
                    self.trail.assign(*literal, place)?;
                }
            }
            _ => {}
        }
        Ok(())
    }

    /// The true literals.
    pub(crate) fn trail(&self) -> &Trail {
        &self.trail
    }

    /// The clause that was learned.
    pub(crate) fn clause(&self) -> &[u32] {
        self.clause.as_slice()
    }

    /// The places of the clauses that show it, the last first.
    pub(crate) fn places(&self) -> &[u32] {
        self.places.as_slice()
    }

    // Looks at the clauses that watch a literal that has become false. The place of one that clashes, or none.
    fn follow(&mut self, falsified: u32) -> Result<u32, AllocError> {
        let mut before = NONE;
        let mut cell = self.watches.head(falsified);
        for _ in 0..self.watches.cells() {
            if cell == NONE {
                break;
            }
            let after = self.watches.next(cell);
            match self.watches.visit(self.trail.truths(), cell, falsified) {
                Visit::Holds => before = cell,
                Visit::Moves(literal) => {
                    self.watches.unlink(before, falsified, after);
                    self.watches.link(cell, literal);
                }
                Visit::Forces(literal) => {
                    self.trail.assign(literal, cell / 2)?;
                    before = cell;
                }
                Visit::Clashes => return Ok(cell / 2),
            }
            cell = after;
        }
        Ok(NONE)
    }

    // Follows what is true. The place of a clause that clashes, or none.
    fn propagate(&mut self) -> Result<u32, AllocError> {
        for _ in 0..u32::MAX {
            let literal = self.trail.literal(self.done);
            if literal == NONE {
                break;
            }
            self.done = self.done.saturating_add(1);
            let clash = self.follow(negated(literal))?;
            if clash != NONE {
                return Ok(clash);
            }
        }
        Ok(NONE)
    }

    // The next variable to decide on: the most active of the first ones, or else any that isn't told.
    fn next_variable(&self) -> u32 {
        let mut best = NONE;
        let mut most = 0;
        for (place, activity) in self.activities.iter().enumerate() {
            if (best == NONE || *activity > most) && !self.trail.is_told(number_of(place)) {
                best = number_of(place);
                most = *activity;
            }
        }
        if best == NONE {
            for place in self.activities.len()..self.seen.len() {
                if !self.trail.is_told(number_of(place)) {
                    return number_of(place);
                }
            }
        }
        best
    }

    /// Decides until a clause clashes. Its place, or none where all variables are told.
    pub(crate) fn next_conflict(&mut self) -> Result<u32, AllocError> {
        if self.broken != NONE {
            return Ok(self.broken);
        }
        for _ in 0..self.seen.len().saturating_add(1) {
            let clash = self.propagate()?;
            if clash != NONE {
                return Ok(clash);
            }
            let variable = self.next_variable();
            if variable == NONE {
                break;
            }
            self.trail.decide(variable)?;
        }
        Ok(NONE)
    }

    // Sees a literal of a clause that is resolved. Whether it is a new one of the level that stands.
    fn see(&mut self, literal: u32) -> Result<bool, AllocError> {
        let variable = literal / 2;
        let level = self.trail.level_of(literal);
        if level == 0 || is_marked(&self.seen, variable) {
            return Ok(false);
        }
        put_mark(&mut self.seen, variable, true);
        self.touched.push(variable)?;
        let activity = number_at(&self.activities, variable);
        put(
            &mut self.activities,
            variable,
            activity.saturating_add(self.step),
        );
        if level == self.trail.level() {
            return Ok(true);
        }
        self.clause.push(literal)?;
        Ok(false)
    }

    // Resolves with the clause at this place. How many literals of the level that stands it has that are new.
    fn resolve(&mut self, place: u32) -> Result<usize, AllocError> {
        self.places.push(place)?;
        let mut count: usize = 0;
        for at in 0..self.watches.clause(place).len() {
            let literal = number_at(self.watches.clause(place), number_of(at));
            if self.see(literal)? {
                count = count.saturating_add(1);
            }
        }
        Ok(count)
    }

    /// Learns from a clash: clauses are resolved, the last true literal first, until one literal of the level that stands is left.
    pub(crate) fn analyse(&mut self, clash: u32) -> Result<(), AllocError> {
        self.clause.clear();
        self.places.clear();
        self.clause.push(NONE)?;
        let mut open = self.resolve(clash)?;
        for at in (0..self.trail.count()).rev() {
            let literal = self.trail.literal(at);
            if is_marked(&self.seen, literal / 2) {
                if open <= 1 {
                    put(&mut self.clause, 0, negated(literal));
                    break;
                }
                let reason = self.trail.reason_of(literal);
                open = self.resolve(reason)?.saturating_add(open - 1);
            }
        }
        for variable in &self.touched {
            put_mark(&mut self.seen, *variable, false);
        }
        self.touched.clear();
        Ok(())
    }

    // Lets older activities count less.
    fn fade(&mut self) {
        self.step = self.step.saturating_add(self.step / 16);
        if self.step > 1 << 24 {
            self.step >>= 16;
            for activity in self.activities.iter_mut() {
                *activity >>= 16;
            }
        }
    }

    /// Goes back to where the learned clause leaves one literal, which becomes true.
    pub(crate) fn jump(&mut self) -> Result<(), AllocError> {
        let mut level = 0;
        for at in 1..self.clause.len() {
            let below = self.trail.level_of(self.clause[at]);
            if below > level {
                level = below;
                self.clause.swap(1, at);
            }
        }
        self.done = self.trail.back(level);
        let place = self.watches.attach(&self.clause)?;
        self.trail.assign(number_at(&self.clause, 0), place)?;
        self.fade();
        Ok(())
    }
}
