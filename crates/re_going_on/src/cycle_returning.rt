//! The shortest walk that comes back.
use crate::cycle_nodes::{Graph, Return};
use re_labels::NoMemory;
use std::alloc::Global;

// The walks from one problem on: from which problem each was first reached, and in which turn; those that were reached last.
#[derive(Drop)]
struct Round {
    alloc: Global,
    reached: Vec<usize>,
    before: Vec<usize>,
    turn: usize,
    front: Vec<usize>,
}

impl Round {
    fn new(alloc: Global, count: usize) -> Result<Round, NoMemory> {
        let mut reached = Vec::new(alloc);
        let mut before = Vec::new(alloc);
        for _place in 0..count {
            reached.push(0)?;
            before.push(0)?;
        }
        Ok(Round {
            alloc,
            reached,
            before,
            turn: 0,
            front: Vec::new(alloc),
        })
    }

    // Begins at the problem at this place.
    fn begin(&mut self, place: usize) -> Result<(), NoMemory> {
        self.turn = self.turn.saturating_add(1);
        self.front = Vec::new(self.alloc);
        Ok(self.front.push(place)?)
    }

    // Whether the problem at this place wasn't reached in this turn; then it is, from the other one.
    fn reach(&mut self, place: usize, from: usize) -> bool {
        let turn = self.turn;
        let fresh = match self.reached.as_mut_slice().get_mut(place) {
            Some(reached) => {
                let fresh = *reached != turn;
                *reached = turn;
                fresh
            }
            None => false,
        };
        if fresh {
            if let Some(before) = self.before.as_mut_slice().get_mut(place) {
                *before = from;
            }
        }
        fresh
    }

    // One step on from the problems that were reached last. The answer is the place of one from which a step leads to this place.
    fn go_on(&mut self, graph: &Graph, place: usize) -> Result<Option<usize>, NoMemory> {
        let mut next = Vec::new(self.alloc);
        let front = std::mem::replace(&mut self.front, Vec::new(self.alloc));
        for from in front.as_slice() {
            for to in graph.next_places(*from)?.as_slice() {
                if *to == place {
                    return Ok(Some(*from));
                }
                if self.reach(*to, *from) {
                    next.push(*to)?;
                }
            }
        }
        self.front = next;
        Ok(None)
    }

    // The places behind this one on the way to the last, which was reached by so many steps.
    fn way(&self, last: usize, steps: usize) -> Result<Vec<usize>, NoMemory> {
        let mut way = Vec::new(self.alloc);
        let mut at = last;
        for _step in 0..steps {
            way.push(at)?;
            if let Some(before) = self.before.as_slice().get(at) {
                at = *before;
            }
        }
        way.reverse();
        Ok(way)
    }

    // The way behind the problem at this place and back to it, with at most so many steps: the places between.
    fn way_back(
        &mut self,
        graph: &Graph,
        place: usize,
        most: usize,
    ) -> Result<Option<Vec<usize>>, NoMemory> {
        self.begin(place)?;
        for steps in 0..most {
            if let Some(last) = self.go_on(graph, place)? {
                return Ok(Some(self.way(last, steps)?));
            }
        }
        Ok(None)
    }
}

/// The shortest walk over the graph that comes back, with at most so many steps.
pub(crate) fn shortest_return(
    alloc: Global,
    graph: &Graph,
    most: usize,
) -> Result<Option<Return>, NoMemory> {
    let mut round = Round::new(alloc, graph.len())?;
    let mut best = None;
    let mut room = most;
    for place in graph.met_again()?.as_slice() {
        let depth = graph.depth(*place).unwrap_or(0) as usize;
        let way = round.way_back(graph, *place, room.saturating_sub(depth))?;
        if let Some(way) = way {
            let steps = depth.saturating_add(way.len()).saturating_add(1);
            room = steps.saturating_sub(1);
            best = Some(graph.back_over(*place, way)?);
        }
    }
    Ok(best)
}
