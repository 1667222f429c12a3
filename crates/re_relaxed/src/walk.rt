//! The relaxations that were looked at.
use re_labels::NoMemory;
use re_problem::{Problem, zero_round};
use re_shaping::{Coloured, Renaming, renaming_to};
use std::alloc::Global;

/// How many relaxations may be looked at and were, how many passed a limit, whether more would have to be looked at, and those of one kind.
#[derive(Drop)]
pub(crate) struct Walk {
    alloc: Global,
    most: u32,
    nodes: u32,
    cut: u32,
    full: bool,
    seen: Vec<Coloured>,
}

impl Walk {
    /// None was looked at, of at most so many.
    pub(crate) fn new(alloc: Global, most: u32) -> Walk {
        Walk {
            alloc,
            most,
            nodes: 0,
            cut: 0,
            full: false,
            seen: Vec::new(alloc),
        }
    }

    /// How many were looked at.
    pub(crate) fn nodes(&self) -> u32 {
        self.nodes
    }

    /// How many passed a limit.
    pub(crate) fn cut(&self) -> u32 {
        self.cut
    }

    /// Whether more would have to be looked at.
    pub(crate) fn is_full(&self) -> bool {
        self.full
    }

    /// Those that come are of another kind.
    pub(crate) fn begin(&mut self) {
        self.seen = Vec::new(self.alloc);
    }

    /// One more passed a limit.
    pub(crate) fn pass(&mut self) {
        self.cut = self.cut.saturating_add(1);
    }

    /// Whether one more is looked at.
    pub(crate) fn takes_one(&mut self) -> bool {
        if self.nodes >= self.most {
            self.full = true;
        } else {
            self.nodes = self.nodes.saturating_add(1);
        }
        !self.full
    }

    // Whether it is one that was looked at, under whatever names.
    fn has(&self, coloured: &Coloured) -> bool {
        for other in self.seen.iter() {
            if let Renaming::Found(_) = renaming_to(coloured, other) {
                return true;
            }
        }
        false
    }

    /// Whether this one is looked at: it isn't solvable without communication, and it is new.
    pub(crate) fn takes(&mut self, problem: &Problem) -> Result<bool, NoMemory> {
        if self.full || zero_round(problem).is_some() {
            return Ok(false);
        }
        let coloured = Coloured::new(problem.copy()?);
        if self.has(&coloured) || !self.takes_one() {
            return Ok(false);
        }
        self.seen.push(coloured)?;
        Ok(true)
    }
}
