//! How far the searches go, and how large the problems are from which they begin.
ghost use Rattle.re_problem.specs.NamedProblems.{unnamed};
ghost use Rattle.re_settle.specs.Measures.{IsSmall, coloured_steps, doublings, greatest_degree, longest_labels, longest_steps, shortest_labels, shortest_steps, size_of};
ghost use Rattle.std.specs.Prelude.{◌≡◌, ◌↔◌, ◌*◌, ◌≤◌, IsTrue};

use re_labels::MAX_CONFIGURATIONS;
use re_problem::Problem;

// How many configurations a problem has, active and passive ones together.
fn size_of(problem: &Problem) -> usize
    ensures size { result ≡ size_of (unnamed problem.now) }
    ensures most { result ≤ 2 * MAX_CONFIGURATIONS }
{
    problem.active().len() + problem.passive().len()
}

/// Whether the problem has at most so many configurations, so many times.
pub(crate) fn is_small(problem: &Problem, most: usize, times: u8) -> bool
    ensures { IsTrue result ↔ IsSmall (unnamed problem.now) most times }
{
    size_of(problem) <= most.saturating_mul(usize::from(times))
}

/// How often the number is doubled from 1 on.
pub fn doublings(times: u8) -> u8
    ensures value { result ≡ doublings times }
    ensures few { result ≤ 6 }
{
    if times < 2 {
        0
    } else if times < 4 {
        1
    } else if times < 8 {
        2
    } else if times < 16 {
        3
    } else if times < 32 {
        4
    } else if times < 64 {
        5
    } else {
        6
    }
}

/// The greater one of the two degrees.
pub fn greatest_degree(problem: &Problem) -> u8
    ensures { result ≡ greatest_degree problem.now }
{
    let active = problem.active().degree();
    let passive = problem.passive().degree();
    if active < passive { passive } else { active }
}

/// How many steps `longest` takes at most.
pub fn longest_steps(doublings: u8) -> u8
    requires { doublings ≤ 6 }
    ensures { result ≡ longest_steps doublings }
{
    8 + 8 * doublings
}

/// How many labels the problems have that `longest` looks at.
pub fn longest_labels(degree: u8, doublings: u8) -> u8
    requires { doublings ≤ 6 }
    ensures { result ≡ longest_labels degree doublings }
{
    if degree < 4 {
        12 + 4 * doublings
    } else if degree < 5 {
        8 + 2 * doublings
    } else if degree < 6 {
        6 + doublings
    } else {
        5 + doublings
    }
}

/// How many steps `shortest` takes at most.
pub fn shortest_steps(doublings: u8) -> u8
    requires { doublings ≤ 6 }
    ensures { result ≡ shortest_steps doublings }
{
    12 + 8 * doublings
}

/// How many labels the problems have that `shortest` looks at.
pub fn shortest_labels(degree: u8, doublings: u8) -> u8
    requires { doublings ≤ 6 }
    ensures { result ≡ shortest_labels degree doublings }
{
    if degree < 4 {
        8 + 4 * doublings
    } else if degree < 5 {
        6 + 2 * doublings
    } else {
        4 + doublings
    }
}

/// How many steps `shortest` takes at most given few colours: as many as `longest`.
pub(crate) fn coloured_steps(doublings: u8) -> u8
    requires { doublings ≤ 6 }
    ensures { result ≡ coloured_steps doublings }
{
    longest_steps(doublings)
}
