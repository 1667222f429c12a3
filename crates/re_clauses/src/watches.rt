//! Two literals of each clause that are watched, so that only clauses are looked at of which one of these becomes false.
use crate::marks::{is_marked, negated};
use crate::numbers::{NONE, number_at, number_of, put};
use std::alloc::{AllocError, Global};

/// What a clause comes to when a literal that it watches becomes false.
pub(crate) enum Visit {
    /// It is true already.
    Holds,
    /// It watches this literal instead.
    Moves(u32),
    /// This is the last literal that isn't false.
    Forces(u32),
    /// All of its literals are false.
    Clashes,
}

/// Clauses with their watched literals first, and for each literal a list of those that watch it: of clause c the cells 2 c and 2 c + 1.
#[derive(Drop)]
pub(crate) struct Watches {
    literals: Vec<u32>,
    starts: Vec<u32>,
    heads: Vec<u32>,
    nexts: Vec<u32>,
}

impl Watches {
    /// No clause, over so many literals.
    pub(crate) fn new(alloc: Global, literals: usize) -> Result<Watches, AllocError> {
        Ok(Watches {
            literals: Vec::new(alloc),
            starts: vec![in alloc; 0; 1]?,
            heads: vec![in alloc; NONE; literals]?,
            nexts: Vec::new(alloc),
        })
    }

    /// How many cells there are.
    pub(crate) fn cells(&self) -> usize {
        self.nexts.len()
    }

    /// The first cell of those that watch the literal.
    pub(crate) fn head(&self, literal: u32) -> u32 {
        number_at(&self.heads, literal)
    }

    /// The cell behind this one in its list.
    pub(crate) fn next(&self, cell: u32) -> u32 {
        number_at(&self.nexts, cell)
    }

    /// The literals of a clause.
    pub(crate) fn clause(&self, place: u32) -> &[u32] {
        let start = number_at(&self.starts, place) as usize;
        let end = number_at(&self.starts, place.saturating_add(1)) as usize;
        if start <= end && end <= self.literals.len() {
            &self.literals[start..end]
        } else {
            &[]
        }
    }

    /// Puts the cell at the head of those that watch the literal.
    pub(crate) fn link(&mut self, cell: u32, literal: u32) {
        let head = number_at(&self.heads, literal);
        put(&mut self.nexts, cell, head);
        put(&mut self.heads, literal, cell);
    }

    /// Takes out the cell that stands behind this one, or at the head: the one after it follows.
    pub(crate) fn unlink(&mut self, before: u32, literal: u32, after: u32) {
        if before == NONE {
            put(&mut self.heads, literal, after);
        } else {
            put(&mut self.nexts, before, after);
        }
    }

    /// One more clause, whose first two literals are watched. Its place.
    pub(crate) fn attach(&mut self, clause: &[u32]) -> Result<u32, AllocError> {
        let place = number_of(self.starts.len()).saturating_sub(1);
        self.literals.extend_from_slice(clause)?;
        self.starts.push(number_of(self.literals.len()))?;
        self.nexts.push(NONE)?;
        self.nexts.push(NONE)?;
        if clause.len() >= 2 {
            self.link(place.saturating_mul(2), clause[0]);
            self.link(place.saturating_mul(2).saturating_add(1), clause[1]);
        }
        Ok(place)
    }

    // The first place from here on where a literal isn't false, or the end.
    fn free_place(&self, truths: &[bool], start: u32, end: u32) -> u32 {
        for place in start..end {
            if !is_marked(truths, negated(number_at(&self.literals, place))) {
                return place;
            }
        }
        end
    }

    /// Looks at the clause of a cell, whose watched literal became false, by the literals that are true.
    pub(crate) fn visit(&mut self, truths: &[bool], cell: u32, falsified: u32) -> Visit {
        let start = number_at(&self.starts, cell / 2);
        let own = start.saturating_add(cell % 2);
        let other = number_at(&self.literals, start.saturating_add(1 - cell % 2));
        if is_marked(truths, other) {
            return Visit::Holds;
        }
        let end = number_at(&self.starts, cell / 2 + 1);
        let place = self.free_place(truths, start.saturating_add(2), end);
        if place < end {
            let literal = number_at(&self.literals, place);
            put(&mut self.literals, place, falsified);
            put(&mut self.literals, own, literal);
            return Visit::Moves(literal);
        }
        if is_marked(truths, negated(other)) {
            Visit::Clashes
        } else {
            Visit::Forces(other)
        }
    }
}
