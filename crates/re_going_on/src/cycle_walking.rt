//! The walk over the problems.
use crate::cycle_nodes::{Graph, Origin, Return};
use crate::cycle_returning::shortest_return;
use re_changes::{Change, Changed};
use re_labels::NoMemory;
use re_problem::{LabelMap, Problem, zero_round};
use re_settings::{Ends, Setting, ends_after};
use re_step::{Derived, StepFault, step};
use std::alloc::Global;

/// What the walk comes to.
#[derive(Drop)]
pub(crate) enum Walked {
    /// The chain's last problem is the one of this number under other names.
    Start(usize, LabelMap),
    /// A walk that comes back.
    Back(Return),
    /// None, and there are no more problems.
    Ended,
    /// None among the most problems that may be looked at.
    Full,
}

/// What a walk leaves out: problems that are solvable without communication, or where an input problem is given those that are known to be
/// solvable in 0 rounds given it, exchanged as often as there are steps to them. How many steps lead to the first one is told, too.
#[derive(Clone, Copy)]
pub(crate) struct Left<'a> {
    pub(crate) setting: &'a Setting,
    pub(crate) steps: u8,
}

impl<'a> Left<'a> {
    // Whether the problem behind so many steps of the walk is left out.
    fn has(self, alloc: Global, problem: &Problem, depth: u8) -> Result<bool, NoMemory> {
        if zero_round(problem).is_some() {
            return Ok(true);
        }
        match self.setting {
            Setting::Given(input) => {
                let steps = self.steps.saturating_add(depth);
                Ok(ends_after(alloc, problem, input, steps)? == Ends::Solvable)
            }
            Setting::Alone => Ok(false),
        }
    }
}

/// A walk: the problems so far, what is left out, how many problems may be, how many merges a step may have, whether one of them may be of
/// labels of the first problem, and at how many problems the derived problem passed a limit.
#[derive(Drop)]
pub(crate) struct Walk<'a> {
    pub(crate) alloc: Global,
    pub(crate) graph: Graph,
    pub(crate) left: Left<'a>,
    pub(crate) most: usize,
    pub(crate) merges: u8,
    pub(crate) begins: bool,
    pub(crate) limits: u32,
}

// What merges have made of a derived problem. Further merges take labels from this number on as the second one, so that no two ways of
// merging lead to the same classes of labels.
#[derive(Drop)]
struct Merged {
    made: Changed,
    from: u8,
}

// What one merge more makes, where there are such labels, unless it is left out.
fn merge_one(
    alloc: Global,
    left: Left,
    before: &Merged,
    merge: (u8, u8),
    depth: u8,
) -> Result<Option<Merged>, NoMemory> {
    let (low, high) = merge;
    let labels = before.made.problem().names().len();
    if low >= high || high as usize >= labels {
        return Ok(None);
    }
    let made = before.made.changed(alloc, Change::Merge(low, high))?;
    if left.has(alloc, made.problem(), depth)? {
        return Ok(None);
    }
    Ok(Some(Merged { made, from: high }))
}

impl<'a> Walk<'a> {
    // Looks at a problem. The answer is None where the walk goes on.
    fn look_at(&mut self, made: &Changed, origin: Origin) -> Result<Option<Walked>, NoMemory> {
        match self.graph.meet(made, origin, self.most)? {
            Some(target) => match self.graph.back_by(origin.parent, target)? {
                Some(found) => Ok(Some(Walked::Back(found))),
                None => Ok(None),
            },
            None => Ok(Some(Walked::Full)),
        }
    }

    // Looks at what one merge more makes of what merges have made, and appends it where it is wanted.
    fn merge_on(
        &mut self,
        before: &Merged,
        next: &mut Vec<Merged>,
        wanted: bool,
        origin: Origin,
    ) -> Result<Option<Walked>, NoMemory> {
        let labels = before.made.problem().names().len() as u8;
        for high in before.from..labels {
            for low in 0..high {
                let after = merge_one(self.alloc, self.left, before, (low, high), origin.depth)?;
                if let Some(after) = after {
                    let walked = self.look_at(&after.made, origin)?;
                    if walked.is_some() {
                        return Ok(walked);
                    }
                    if wanted {
                        next.push(after)?;
                    }
                }
            }
        }
        Ok(None)
    }

    // The same for all of them.
    fn merge_all(
        &mut self,
        level: &[Merged],
        next: &mut Vec<Merged>,
        wanted: bool,
        origin: Origin,
    ) -> Result<Option<Walked>, NoMemory> {
        for before in level {
            let walked = self.merge_on(before, next, wanted, origin)?;
            if walked.is_some() {
                return Ok(walked);
            }
        }
        Ok(None)
    }

    // Looks at what at most so many merges make of a derived problem.
    fn merge_from(
        &mut self,
        made: Changed,
        merges: u8,
        origin: Origin,
    ) -> Result<Option<Walked>, NoMemory> {
        let mut level = Vec::new(self.alloc);
        level.push(Merged { made, from: 1 })?;
        for merge in 0..merges {
            let mut next = Vec::new(self.alloc);
            let wanted = merge.saturating_add(1) < merges;
            let walked = self.merge_all(level.as_slice(), &mut next, wanted, origin)?;
            if walked.is_some() {
                return Ok(walked);
            }
            level = next;
        }
        Ok(None)
    }

    // Looks at a derived problem and at what at most so many merges make of it.
    fn spread(
        &mut self,
        problem: Problem,
        merges: u8,
        origin: Origin,
    ) -> Result<Option<Walked>, NoMemory> {
        if self.left.has(self.alloc, &problem, origin.depth)? {
            return Ok(None);
        }
        let made = Changed::unchanged(problem);
        let walked = self.look_at(&made, origin)?;
        if walked.is_some() {
            return Ok(walked);
        }
        self.merge_from(made, merges, origin)
    }

    // The same, where it passes no limit.
    fn spread_within(
        &mut self,
        derived: Result<Derived, StepFault>,
        merges: u8,
        origin: Origin,
    ) -> Result<Option<Walked>, NoMemory> {
        match derived {
            Ok(derived) => {
                let Derived { problem, .. } = derived;
                self.spread(problem, merges, origin)
            }
            Err(StepFault::Limit(_)) => {
                self.limits = self.limits.saturating_add(1);
                Ok(None)
            }
            Err(StepFault::NoMemory) => Err(NoMemory),
        }
    }

    // Looks at the problems one step behind what one merge makes of the first problem.
    fn begin(&mut self, first: Problem) -> Result<Option<Walked>, NoMemory> {
        let labels = first.names().len() as u8;
        let first = Merged {
            made: Changed::unchanged(first),
            from: 1,
        };
        let merges = self.merges.saturating_sub(1);
        for high in 1..labels {
            for low in 0..high {
                let after = merge_one(self.alloc, self.left, &first, (low, high), 0)?;
                if let Some(after) = after {
                    let origin = Origin {
                        parent: 0,
                        depth: 1,
                        merge: Some((high, low)),
                    };
                    let derived = step(self.alloc, after.made.problem());
                    let walked = self.spread_within(derived, merges, origin)?;
                    if walked.is_some() {
                        return Ok(walked);
                    }
                }
            }
        }
        Ok(None)
    }

    // Looks at the problems one step behind the one at this place, to which so many steps lead.
    fn expand(&mut self, place: usize, depth: u8) -> Result<Option<Walked>, NoMemory> {
        let Some(problem) = self.graph.problem(place) else {
            return Ok(None);
        };
        let derived = step(self.alloc, problem);
        let origin = Origin {
            parent: place,
            depth: depth.saturating_add(1),
            merge: None,
        };
        self.spread_within(derived, self.merges, origin)
    }

    // The same for the first problem, and where that is asked also behind what one merge makes of it.
    fn expand_first(&mut self) -> Result<Option<Walked>, NoMemory> {
        let walked = self.expand(0, 0)?;
        if walked.is_some() || !self.begins {
            return Ok(walked);
        }
        match self.graph.problem(0) {
            Some(first) => {
                let first = first.copy()?;
                self.begin(first)
            }
            None => Ok(None),
        }
    }

    // Looks at the problems one step behind those to which so many steps lead at the fewest.
    fn expand_all(&mut self, depth: u8) -> Result<Option<Walked>, NoMemory> {
        if depth == 0 {
            return self.expand_first();
        }
        for place in 0..self.graph.len() {
            if self.graph.depth(place) == Some(depth) {
                let walked = self.expand(place, depth)?;
                if walked.is_some() {
                    return Ok(walked);
                }
            }
        }
        Ok(None)
    }

    // The shortest walk of at most so many steps that comes back, and else the answer that was there.
    fn back_or(&self, most: usize, walked: Walked) -> Result<Walked, NoMemory> {
        match shortest_return(self.alloc, &self.graph, most)? {
            Some(found) => Ok(Walked::Back(found)),
            None => Ok(walked),
        }
    }

    // Walks one step farther, where there was no walk of so many steps that comes back. The answer is None where the walk goes on.
    fn go_on(&mut self, depth: u8) -> Result<Option<Walked>, NoMemory> {
        let most = (depth as usize).saturating_add(1);
        match self.expand_all(depth)? {
            Some(Walked::Full) => Ok(Some(self.back_or(most, Walked::Full)?)),
            Some(walked) => Ok(Some(walked)),
            None => match shortest_return(self.alloc, &self.graph, most)? {
                Some(found) => Ok(Some(Walked::Back(found))),
                None => Ok(None),
            },
        }
    }

    /// Walks over the problems that are reached by at most so many steps.
    pub(crate) fn walk(&mut self, steps: u8) -> Result<Walked, NoMemory> {
        if let Some((number, map)) = self.graph.start_back() {
            return Ok(Walked::Start(number, map));
        }
        for depth in 0..steps {
            if let Some(walked) = self.go_on(depth)? {
                return Ok(walked);
            }
        }
        Ok(Walked::Ended)
    }
}
