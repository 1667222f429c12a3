//! The graph of the problems that were looked at.
use re_cert::Certificate;
use re_changes::Changed;
use re_labels::NoMemory;
use re_problem::{LabelMap, Problem};
use re_shaping::{Coloured, Renaming, Route, Stop, renaming_to};
use std::alloc::Global;

/// Where a step leads: to the problem of this number of the chain, before its last one, or to the problem at this place among those that
/// were looked at.
#[derive(Clone, Copy, PartialEq, Eq)]
pub(crate) enum Target {
    Past(usize),
    Seen(usize),
}

/// Where a problem comes from: the place of the one before the step to it, how many steps lead to it, and the labels that become one before
/// the step, if any: the first becomes the second.
#[derive(Clone, Copy)]
pub(crate) struct Origin {
    pub(crate) parent: usize,
    pub(crate) depth: u8,
    pub(crate) merge: Option<(u8, u8)>,
}

// A step from a problem: where it leads, the labels that become one before it, if any, and for each label of the derived problem the label
// that it becomes there, if it is left.
#[derive(Drop)]
struct Edge {
    to: Target,
    merge: Option<(u8, u8)>,
    images: Vec<Option<u8>>,
}

// A problem that was looked at, with the colours of its labels: the fewest steps to it, the place of the problem from which it was first
// met, whether it was met again, and the steps from it.
#[derive(Drop)]
struct Node {
    coloured: Coloured,
    depth: u8,
    parent: usize,
    again: bool,
    edges: Vec<Edge>,
}

/// A walk that comes back: the places of its problems from the chain's last one on, and the earlier problem to which the last step leads.
#[derive(Drop)]
pub(crate) struct Return {
    pub(crate) places: Vec<usize>,
    pub(crate) target: Target,
}

/// The problems of a chain before its last one, those that were looked at, the first of which is the chain's last one, and how many
/// renamings were given up.
#[derive(Drop)]
pub(crate) struct Graph {
    alloc: Global,
    past: Vec<Coloured>,
    seen: Vec<Node>,
    given_up: u32,
}

// The images with the renaming behind them.
fn renamed(
    alloc: Global,
    images: &[Option<u8>],
    map: &LabelMap,
) -> Result<Vec<Option<u8>>, NoMemory> {
    let names = map.images();
    let mut all = Vec::new(alloc);
    for image in images {
        match image {
            Some(label) => all.push(names.get(*label as usize).copied())?,
            None => all.push(None)?,
        }
    }
    Ok(all)
}

// The place in the list.
fn place_in(places: &[usize], place: usize) -> Option<usize> {
    places.iter().position(|other| *other == place)
}

impl Graph {
    /// That of a chain, with its last problem alone.
    pub(crate) fn of_chain(alloc: Global, chain: &Certificate) -> Result<Graph, NoMemory> {
        let mut past = Vec::new(alloc);
        for number in 0..chain.steps().len() {
            past.push(Coloured::new(chain.problem_at(number).copy()?))?;
        }
        let mut graph = Graph {
            alloc,
            past,
            seen: Vec::new(alloc),
            given_up: 0,
        };
        graph.add(Coloured::new(chain.last().copy()?), 0, 0)?;
        Ok(graph)
    }

    /// How many problems were looked at.
    pub(crate) fn len(&self) -> usize {
        self.seen.len()
    }

    /// How many renamings were given up.
    pub(crate) fn given_up(&self) -> u32 {
        self.given_up
    }

    /// The problem at this place, if any.
    pub(crate) fn problem(&self, place: usize) -> Option<&Problem> {
        Some(self.seen.as_slice().get(place)?.coloured.problem())
    }

    /// The fewest steps to the problem at this place, if any.
    pub(crate) fn depth(&self, place: usize) -> Option<u8> {
        Some(self.seen.as_slice().get(place)?.depth)
    }

    // One problem more, met from the one at this place.
    fn add(&mut self, coloured: Coloured, parent: usize, depth: u8) -> Result<usize, NoMemory> {
        let place = self.seen.len();
        self.seen.push(Node {
            coloured,
            depth,
            parent,
            again: false,
            edges: Vec::new(self.alloc),
        })?;
        Ok(place)
    }

    // The renaming that makes the first problem the second, if one is found. One that is given up is counted.
    fn renaming(&self, from: &Coloured, to: &Coloured, given_up: &mut u32) -> Option<LabelMap> {
        match renaming_to(from, to) {
            Renaming::Found(map) => Some(map),
            Renaming::Missing => None,
            Renaming::TooMany => {
                *given_up = given_up.saturating_add(1);
                None
            }
        }
    }

    // The problem of the chain before its last one that this one is under other names, with the renaming to it.
    fn find_past(&self, coloured: &Coloured, given_up: &mut u32) -> Option<(usize, LabelMap)> {
        for (number, past) in self.past.as_slice().iter().enumerate() {
            if let Some(map) = self.renaming(coloured, past, given_up) {
                return Some((number, map));
            }
        }
        None
    }

    // The problem that was looked at and is this one under other names, with the renaming to it.
    fn find_seen(&self, coloured: &Coloured, given_up: &mut u32) -> Option<(usize, LabelMap)> {
        for (place, node) in self.seen.as_slice().iter().enumerate() {
            if let Some(map) = self.renaming(coloured, &node.coloured, given_up) {
                return Some((place, map));
            }
        }
        None
    }

    /// The earlier problem of the chain that its last one is under other names, with the renaming to it.
    pub(crate) fn start_back(&mut self) -> Option<(usize, LabelMap)> {
        let mut given_up = self.given_up;
        let start = self.seen.as_slice().first()?;
        let found = self.find_past(&start.coloured, &mut given_up);
        self.given_up = given_up;
        found
    }

    // Whether there is a step from the problem at this place to there.
    fn has_edge(&self, from: usize, to: Target) -> bool {
        match self.seen.as_slice().get(from) {
            Some(node) => node.edges.as_slice().iter().any(|edge| edge.to == to),
            None => false,
        }
    }

    // A step from the problem at this place, where there is none yet to there.
    fn link(
        &mut self,
        origin: Origin,
        to: Target,
        images: Vec<Option<u8>>,
    ) -> Result<(), NoMemory> {
        let Origin { parent, merge, .. } = origin;
        if self.has_edge(parent, to) {
            return Ok(());
        }
        match self.seen.as_mut_slice().get_mut(parent) {
            Some(node) => Ok(node.edges.push(Edge { to, merge, images })?),
            None => Ok(()),
        }
    }

    // That the problem at this place was met again.
    fn meet_again(&mut self, place: usize) {
        if let Some(node) = self.seen.as_mut_slice().get_mut(place) {
            node.again = true;
        }
    }

    /// Takes what changes have made of a derived problem: where it is a problem that was met before, under whatever names, the step leads
    /// there; else it is a new one. The answer is where the step leads; None where there would be more problems than `most`.
    pub(crate) fn meet(
        &mut self,
        made: &Changed,
        origin: Origin,
        most: usize,
    ) -> Result<Option<Target>, NoMemory> {
        let coloured = Coloured::new(made.problem().copy()?);
        let mut given_up = self.given_up;
        let past = self.find_past(&coloured, &mut given_up);
        let seen = match &past {
            Some(_) => None,
            None => self.find_seen(&coloured, &mut given_up),
        };
        self.given_up = given_up;
        if let Some((number, map)) = past {
            let images = renamed(self.alloc, made.images(), &map)?;
            self.link(origin, Target::Past(number), images)?;
            return Ok(Some(Target::Past(number)));
        }
        if let Some((place, map)) = seen {
            let images = renamed(self.alloc, made.images(), &map)?;
            self.link(origin, Target::Seen(place), images)?;
            self.meet_again(place);
            return Ok(Some(Target::Seen(place)));
        }
        if self.seen.len() >= most {
            return Ok(None);
        }
        let place = self.add(coloured, origin.parent, origin.depth)?;
        let images = Vec::from_slice(self.alloc, made.images())?;
        self.link(origin, Target::Seen(place), images)?;
        Ok(Some(Target::Seen(place)))
    }

    // The places from the chain's last problem to the one at this place, by the steps by which they were first met.
    fn places_to(&self, place: usize) -> Result<Vec<usize>, NoMemory> {
        let mut places = Vec::new(self.alloc);
        let mut at = place;
        let depth = self.depth(place).unwrap_or(0);
        places.push(at)?;
        for _step in 0..depth {
            if let Some(node) = self.seen.as_slice().get(at) {
                at = node.parent;
                places.push(at)?;
            }
        }
        places.reverse();
        Ok(places)
    }

    /// The walk that comes back by the step from the problem at this place to there, by the steps by which the problems were first met, if
    /// it does.
    pub(crate) fn back_by(&self, from: usize, target: Target) -> Result<Option<Return>, NoMemory> {
        let places = self.places_to(from)?;
        let closes = match target {
            Target::Past(_) => true,
            Target::Seen(place) => place_in(places.as_slice(), place).is_some(),
        };
        if closes {
            Ok(Some(Return { places, target }))
        } else {
            Ok(None)
        }
    }

    /// The places at which a walk may come back that isn't told by `back_by`: those of problems that were met again.
    pub(crate) fn met_again(&self) -> Result<Vec<usize>, NoMemory> {
        let mut places = Vec::new(self.alloc);
        for (place, node) in self.seen.as_slice().iter().enumerate() {
            if node.again {
                places.push(place)?;
            }
        }
        Ok(places)
    }

    /// The places of the problems to which the steps from the one at this place lead.
    pub(crate) fn next_places(&self, place: usize) -> Result<Vec<usize>, NoMemory> {
        let mut places = Vec::new(self.alloc);
        if let Some(node) = self.seen.as_slice().get(place) {
            for edge in node.edges.as_slice() {
                if let Target::Seen(next) = edge.to {
                    places.push(next)?;
                }
            }
        }
        Ok(places)
    }

    /// The walk that goes to the problem at this place, on over these, and back to it.
    pub(crate) fn back_over(&self, place: usize, round: Vec<usize>) -> Result<Return, NoMemory> {
        let mut round = round;
        let mut places = self.places_to(place)?;
        places.append(&mut round)?;
        Ok(Return {
            places,
            target: Target::Seen(place),
        })
    }

    // The problem to which a step leads.
    fn target(&self, to: Target) -> Option<&Problem> {
        match to {
            Target::Past(number) => Some(self.past.as_slice().get(number)?.problem()),
            Target::Seen(place) => self.problem(place),
        }
    }

    // The step from the problem at this place to there.
    fn edge(&self, from: usize, to: Target) -> Option<&Edge> {
        let node = self.seen.as_slice().get(from)?;
        for edge in node.edges.as_slice() {
            if edge.to == to {
                return Some(edge);
            }
        }
        None
    }

    // The labels that become one before that step, if any.
    fn merge(&self, from: usize, to: Target) -> Option<(u8, u8)> {
        self.edge(from, to)?.merge
    }

    // The problem to which that step leads, as one on a path.
    fn stop(&self, from: usize, to: Target) -> Result<Option<Stop>, NoMemory> {
        let Some(edge) = self.edge(from, to) else {
            return Ok(None);
        };
        let Some(problem) = self.target(to) else {
            return Ok(None);
        };
        Ok(Some(Stop {
            problem: problem.copy()?,
            images: Vec::from_slice(self.alloc, edge.images.as_slice())?,
        }))
    }

    /// The walk as a route behind the chain's last problem.
    pub(crate) fn route(&self, found: &Return) -> Result<Route, NoMemory> {
        let mut merge = None;
        let mut stops = Vec::new(self.alloc);
        let places = found.places.as_slice();
        for (at, from) in places.iter().enumerate() {
            let to = match places.get(at.saturating_add(1)) {
                Some(next) => Target::Seen(*next),
                None => found.target,
            };
            if at == 0 {
                merge = self.merge(*from, to);
            }
            if let Some(stop) = self.stop(*from, to)? {
                stops.push(stop)?;
            }
        }
        Ok(Route { merge, stops })
    }

    /// The number, from the chain's first problem on, of the problem to which the walk comes back, and how many labels it has.
    pub(crate) fn back_of(&self, found: &Return) -> (usize, usize) {
        let number = match found.target {
            Target::Past(number) => number,
            Target::Seen(place) => {
                let at = place_in(found.places.as_slice(), place).unwrap_or(0);
                self.past.len().saturating_add(at)
            }
        };
        let labels = match self.target(found.target) {
            Some(problem) => problem.names().len(),
            None => 0,
        };
        (number, labels)
    }
}
