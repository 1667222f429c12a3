//! What has been decided, and what follows.
use crate::marks::{is_marked, negated};
use crate::numbers::{NONE, number_at, number_of, put, put_mark};
use std::alloc::{AllocError, Global};

/// The true literals in the order in which they became so. Each decision begins a level. A literal that follows has the place of a clause
/// as its reason.
#[derive(Drop)]
pub(crate) struct Trail {
    literals: Vec<u32>,
    starts: Vec<u32>,
    truths: Vec<bool>,
    levels: Vec<u32>,
    reasons: Vec<u32>,
    phases: Vec<bool>,
}

impl Trail {
    /// Nothing is true yet, of so many variables. Each is to be tried as false first.
    pub(crate) fn new(alloc: Global, variables: usize) -> Result<Trail, AllocError> {
        Ok(Trail {
            literals: Vec::new(alloc),
            starts: Vec::new(alloc),
            truths: vec![in alloc; false; variables.saturating_mul(2)]?,
            levels: vec![in alloc; 0; variables]?,
            reasons: vec![in alloc; NONE; variables]?,
            phases: vec![in alloc; false; variables]?,
        })
    }

    /// The marks of the true literals.
    pub(crate) fn truths(&self) -> &[bool] {
        self.truths.as_slice()
    }

    /// How many literals are true.
    pub(crate) fn count(&self) -> usize {
        self.literals.len()
    }

    /// The literal that became true at this place, or none.
    pub(crate) fn literal(&self, place: usize) -> u32 {
        match self.literals.get(place) {
            Some(literal) => *literal,
            None => NONE,
        }
    }

    /// Whether the variable has a value.
    pub(crate) fn is_told(&self, variable: u32) -> bool {
        let literal = variable.saturating_mul(2);
        is_marked(&self.truths, literal) || is_marked(&self.truths, negated(literal))
    }

    /// The level of a literal's variable.
    pub(crate) fn level_of(&self, literal: u32) -> u32 {
        number_at(&self.levels, literal / 2)
    }

    /// The reason of a literal's variable.
    pub(crate) fn reason_of(&self, literal: u32) -> u32 {
        number_at(&self.reasons, literal / 2)
    }

    /// How many decisions stand.
    pub(crate) fn level(&self) -> u32 {
        number_of(self.starts.len())
    }

    /// How many literals are true by no decision.
    pub(crate) fn settled(&self) -> usize {
        match self.starts.first() {
            Some(start) => *start as usize,
            None => self.literals.len(),
        }
    }

    /// Makes a literal true, for this reason.
    pub(crate) fn assign(&mut self, literal: u32, reason: u32) -> Result<(), AllocError> {
        let level = self.level();
        self.literals.push(literal)?;
        put_mark(&mut self.truths, literal, true);
        put(&mut self.levels, literal / 2, level);
        put(&mut self.reasons, literal / 2, reason);
        Ok(())
    }

    /// Decides on the value that the variable had last.
    pub(crate) fn decide(&mut self, variable: u32) -> Result<(), AllocError> {
        self.starts.push(number_of(self.literals.len()))?;
        let literal = variable.saturating_mul(2);
        if is_marked(&self.phases, variable) {
            self.assign(literal, NONE)
        } else {
            self.assign(negated(literal), NONE)
        }
    }

    /// Takes back what stands above the level. How many literals are left.
    pub(crate) fn back(&mut self, level: u32) -> usize {
        let end = number_at(&self.starts, level) as usize;
        for _ in 0..self.literals.len() {
            if self.literals.len() <= end {
                break;
            }
            if let Some(literal) = self.literals.pop() {
                put_mark(&mut self.truths, literal, false);
                put_mark(&mut self.phases, literal / 2, literal % 2 == 0);
            }
        }
        self.starts.truncate(level as usize);
        self.literals.len()
    }
}
