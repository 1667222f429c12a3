//! The problem that a map of a problem into itself with the fewest images leaves.
ghost use Rattle.re_bridge.specs.Reductions.{IsEndomorphism, Reduces, reduced_of, reduction, walk_into};
ghost use Rattle.re_laws.specs.Algorithms.{Solvable};
ghost use Rattle.re_problem.specs.NamedProblems.{unnamed};
ghost use Rattle.re_walks.specs.Walking.{cut, found, nowhere};
ghost use Rattle.std.specs.Prelude.{◌≡◌, ◌↔◌, Err, IfOk, IfSome, MatchOption, None, Some, ℕ};

use crate::mapping::passes_into;
use crate::within::problem_within;
use re_labels::NoMemory;
use re_problem::Problem;
use re_walks::follow;
use std::alloc::Global;

/// Why it isn't known how few labels will do.
#[derive(Clone, Copy, Debug, PartialEq, Eq)]
pub enum ReduceFault {
    /// One of the walks doesn't come to an end with so many tries.
    TooManyTries,
    /// There was no memory.
    NoMemory,
}

impl From<NoMemory> for ReduceFault {
    ghost use Rattle.re_bridge.specs.declared.reducing.ReduceFault.TheVariants.{NoMemory as no_memory};

    ghost from_gives = { λ _ e. e ≡ no_memory };

    fn from(_: NoMemory) -> Self {
        ReduceFault::NoMemory
    }
}

// The first map with at most so many images.
fn walk_into(
    alloc: Global,
    problem: &Problem,
    most: u8,
    tries: u32,
) -> Result<Option<Vec<u8>>, ReduceFault>
    ensures walked { IfOk result (λ images. MatchOption images (walk_into most problem.now tries ≡ nowhere) (λ images. walk_into most problem.now tries ≡ found images.items)) }
    ensures cut { result ≡ Err ReduceFault.TooManyTries → walk_into most problem.now tries ≡ cut }
{
    let places = problem.names().len();
    let n = places as u8;
    let mut images = Vec::new(alloc);
    for _try in 0..tries {
        let passes = passes_into(problem, most, images.as_slice());
        if passes && images.len() == places {
            return Ok(Some(images));
        }
        if !follow(&mut images, n, passes)? {
            return Ok(None);
        }
    }
    Err(ReduceFault::TooManyTries)
}

// The first map with the fewest images, where these are fewer than the labels.
fn reduction(alloc: Global, problem: &Problem, tries: u32) -> Result<Option<Vec<u8>>, ReduceFault>
    ensures walked { IfOk result (λ images. MatchOption images (reduction problem.now tries ≡ nowhere) (λ images. reduction problem.now tries ≡ found images.items)) }
    ensures maps { IfOk result (λ images. IfSome images (λ images. IsEndomorphism problem.now images.items)) }
    ensures cut { result ≡ Err ReduceFault.TooManyTries → reduction problem.now tries ≡ cut }
{
    for most in 0..problem.names().len() as u8 {
        if let Some(images) = walk_into(alloc, problem, most, tries)? {
            return Ok(Some(images));
        }
    }
    Ok(None)
}

// The problem of the images of that map.
fn reduced(alloc: Global, problem: &Problem, tries: u32) -> Result<Problem, ReduceFault>
    ensures problem { IfOk result (λ reduced. reduced_of problem.now tries ≡ Some reduced) }
    ensures tries { result ≡ Err ReduceFault.TooManyTries → reduced_of problem.now tries ≡ None }
{
    match reduction(alloc, problem, tries)? {
        Some(images) => Ok(problem_within(alloc, problem, images.as_slice())?),
        None => Ok(problem.copy()?),
    }
}

/// An equivalent problem with as few labels as a map of the problem into itself leaves: by such a map the images of the configurations are
/// configurations, and what it leaves are its images, with the configurations that have no other labels. Of the maps with the fewest
/// images it is the first in the lexicographic order of the images of the labels; where none has fewer images than there are labels, the
/// problem is left as it is. It is solvable in as many rounds as before.
///
/// A walk gives an image to one label after the other, and goes back as soon as there are too many images, or the image of a configuration
/// whose labels all have images isn't one. There is a walk for each number of images, from 0 up to the one that finds a map. Each list of
/// images that is tested is a try, and walks over both constraints. `TooManyTries` comes exactly where one of the walks needs more than
/// `tries`.
pub fn reduce(alloc: Global, problem: &Problem, tries: u32) -> Result<Problem, ReduceFault>
    ensures problem { IfOk result (λ reduced. reduced_of problem.now tries ≡ Some reduced) }
    ensures reduces { IfOk result (λ _. Reduces problem.now (reduction problem.now tries)) }
    ensures rounds { IfOk result (λ reduced. (T : ℕ) → Solvable (unnamed reduced) T ↔ Solvable (unnamed problem.now) T) }
    ensures tries { result ≡ Err ReduceFault.TooManyTries → reduced_of problem.now tries ≡ None }
{
    let _problem = problem.names();
    reduced(alloc, problem, tries)
}
