//! The search from level to level.
use crate::candidates::Kept;
use crate::given::Given;
use crate::longest_levels::{Built, Level, next_level, plain_stop};
use crate::sizes::next_size;
use crate::spreads::Spreads;
use crate::starts::Start;
use re_labels::NoMemory;
use re_problem::Problem;
use re_shaping::{Route, Stop};
use std::alloc::Global;

/// How many levels are built at most.
const MAX_BUILDS: usize = 128;

// A search under way: what is given, where it begins, the levels behind, and the longest route so far.
#[derive(Drop)]
struct Search<'a> {
    alloc: Global,
    labels: u8,
    given: &'a Given,
    start: &'a Start,
    levels: Vec<Level>,
    longest: Route,
    larger: bool,
}

// The problem as one on a path.
fn stop_of(alloc: Global, kept: &Kept) -> Result<Stop, NoMemory> {
    Ok(Stop {
        problem: kept.problem.copy()?,
        images: Vec::from_slice(alloc, kept.images.as_slice())?,
    })
}

// The route to the first problem of the last level.
fn route_to(alloc: Global, start: &Start, levels: &[Level]) -> Result<Route, NoMemory> {
    let mut stops = Vec::new(alloc);
    let mut place = 0;
    for level in levels.iter().rev() {
        if let Some(kept) = level.kept.as_slice().get(place) {
            stops.push(stop_of(alloc, kept)?)?;
            place = kept.parent;
        }
    }
    stops.reverse();
    Ok(Route {
        merge: start.merge(place),
        stops,
    })
}

// The route without a merge over these stops.
fn route_over(stops: Vec<Stop>) -> Route {
    Route { merge: None, stops }
}

// The least number of labels of a problem on the level.
fn fewest_labels(level: &Level) -> u8 {
    let mut fewest = u8::MAX;
    for kept in level.kept.as_slice() {
        let labels = kept.problem.names().len() as u8;
        if labels < fewest {
            fewest = labels;
        }
    }
    fewest
}

impl<'a> Search<'a> {
    // The level behind the last one, with problems of at most so many labels.
    fn build(&self, spreads: &mut Spreads, most: u8) -> Result<Built, NoMemory> {
        let steps = self.levels.len().saturating_add(1);
        match self.levels.as_slice().last() {
            Some(level) => next_level(self.alloc, spreads, self.given, level, steps, most),
            None => next_level(
                self.alloc,
                spreads,
                self.given,
                &self.start.level,
                steps,
                most,
            ),
        }
    }

    // Goes on to the level.
    fn enter(&mut self, level: Level) -> Result<(), NoMemory> {
        self.levels.push(level)?;
        if self.levels.len() > self.longest.stops.len() {
            self.longest = route_to(self.alloc, self.start, self.levels.as_slice())?;
        }
        Ok(())
    }

    // One level more, of problems of at most so many labels, or the last one away, where a derived problem passed a limit. The answer is
    // the most labels of the next level to build; None at the end.
    fn advance(&mut self, spreads: &mut Spreads, most: u8) -> Result<Option<u8>, NoMemory> {
        let Built {
            level,
            limited,
            larger,
        } = self.build(spreads, most)?;
        self.larger = self.larger || larger;
        if !level.kept.is_empty() {
            self.enter(level)?;
            return Ok(Some(self.labels));
        }
        if !limited {
            return Ok(None);
        }
        match self.levels.pop() {
            Some(level) => Ok(fewest_labels(&level).checked_sub(1)),
            None => Ok(None),
        }
    }
}

// The longest route that one beam finds from the start: at most so many levels, of problems of at most so many labels. And whether some
// problem had more labels: where none had, beams with more labels find the same.
fn beam_route(
    alloc: Global,
    spreads: &mut Spreads,
    given: &Given,
    start: &Start,
    levels: usize,
    labels: u8,
) -> Result<(Route, bool), NoMemory> {
    let mut search = Search {
        alloc,
        labels,
        given,
        start,
        levels: Vec::new(alloc),
        longest: route_over(Vec::new(alloc)),
        larger: false,
    };
    let mut most = labels;
    for _build in 0..MAX_BUILDS {
        if search.levels.len() >= levels {
            break;
        }
        match search.advance(spreads, most)? {
            Some(next) => most = next,
            None => break,
        }
    }
    let Search {
        longest,
        larger,
        ..
    } = search;
    Ok((longest, larger))
}

// The path of the derived problem, its derived problem and so on, as they are: at most so many, of at most so many labels each.
fn plain_path(
    alloc: Global,
    given: &Given,
    problem: &Problem,
    levels: usize,
    labels: u8,
) -> Result<Vec<Stop>, NoMemory> {
    let mut path: Vec<Stop> = Vec::new(alloc);
    for _level in 0..levels {
        let steps = path.len().saturating_add(1);
        let next = match path.as_slice().last() {
            Some(stop) => plain_stop(alloc, given, &stop.problem, steps, labels)?,
            None => plain_stop(alloc, given, problem, steps, labels)?,
        };
        match next {
            Some(stop) => path.push(stop)?,
            None => break,
        }
    }
    Ok(path)
}

// The longest one of the route and those that the beams find from the start: at most so many levels, of problems of at most so many labels.
fn longest_from(
    alloc: Global,
    given: &Given,
    start: &Start,
    route: Route,
    levels: usize,
    labels: u8,
) -> Result<Route, NoMemory> {
    let mut longest = route;
    let mut spreads = Spreads::new(alloc);
    let mut size = 2;
    for _size in 0..labels {
        if size > labels || longest.stops.len() >= levels {
            break;
        }
        let (route, larger) = beam_route(alloc, &mut spreads, given, start, levels, size)?;
        if route.stops.len() > longest.stops.len() {
            longest = route;
        }
        if !larger {
            break;
        }
        size = next_size(size);
    }
    Ok(longest)
}

/// The longest route that is found from the problem without a merge in it: at most so many levels, of problems of at most so many labels.
pub(crate) fn longest_route(
    alloc: Global,
    given: &Given,
    problem: &Problem,
    levels: usize,
    labels: u8,
) -> Result<Route, NoMemory> {
    let start = Start::at(alloc, problem)?;
    let plain = route_over(plain_path(alloc, given, problem, levels, labels)?);
    longest_from(alloc, given, &start, plain, levels, labels)
}

/// The longest route that is found from the problem with a merge in it.
pub(crate) fn longest_merged(
    alloc: Global,
    given: &Given,
    problem: &Problem,
    levels: usize,
    labels: u8,
) -> Result<Route, NoMemory> {
    let start = Start::of_merges(alloc, given, problem)?;
    let none = route_over(Vec::new(alloc));
    longest_from(alloc, given, &start, none, levels, labels)
}
