//! Where a search begins.
use crate::candidates::Candidates;
use crate::given::Given;
use crate::longest_levels::{Level, WIDTH, first_level};
use crate::merges::merged;
use re_changes::Changed;
use re_labels::NoMemory;
use re_problem::Problem;
use std::alloc::Global;

/// The first level of a search: the problem itself, or what merges of two of its labels make of it. The `parent` of each of these is then
/// the place of its merge in the list; there the first label becomes the second.
#[derive(Drop)]
pub(crate) struct Start {
    pub(crate) level: Level,
    merges: Vec<(u8, u8)>,
}

impl Start {
    // Of these problems, and no merges.
    fn with(alloc: Global, level: Level) -> Start {
        Start {
            level,
            merges: Vec::new(alloc),
        }
    }

    /// The problem itself.
    pub(crate) fn at(alloc: Global, problem: &Problem) -> Result<Start, NoMemory> {
        Ok(Start::with(alloc, first_level(alloc, problem)?))
    }

    // Offers what all merges make of the problem that aren't solvable without communication.
    fn offer_all(
        &mut self,
        alloc: Global,
        candidates: &mut Candidates,
        problem: &Problem,
    ) -> Result<(), NoMemory> {
        let whole = Changed::unchanged(problem.copy()?);
        let labels = problem.names().len() as u8;
        for low in 0..labels {
            for high in low + 1..labels {
                if let Some(state) = merged(alloc, &whole, low, high)? {
                    candidates.offer(&state, self.merges.len())?;
                    self.merges.push((high, low))?;
                }
            }
        }
        Ok(())
    }

    /// What merges of two labels make of the problem, as many as stay on a level.
    pub(crate) fn of_merges(
        alloc: Global,
        given: &Given,
        problem: &Problem,
    ) -> Result<Start, NoMemory> {
        let level = Level {
            kept: Vec::new(alloc),
            plain: false,
        };
        let mut start = Start::with(alloc, level);
        let mut candidates = Candidates::new(alloc, WIDTH);
        start.offer_all(alloc, &mut candidates, problem)?;
        candidates.choose(&mut start.level.kept, None, given, 0)?;
        Ok(start)
    }

    /// The merge that made the problem at this place, if any.
    pub(crate) fn merge(&self, place: usize) -> Option<(u8, u8)> {
        let kept = self.level.kept.as_slice().get(place)?;
        self.merges.as_slice().get(kept.parent).copied()
    }
}
