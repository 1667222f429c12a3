//! Texts of upper bounds given few colours.
ghost use Rattle.re_given.specs.Inputs.{IsInput};
ghost use Rattle.re_problem.specs.NamedProblems.{unnamed};

use crate::evidence_bounds::derived_chain;
use crate::evidence_texts::{done_text, search_text};
use re_chains::print_given;
use re_evidence::{colouring_of, few_colours};
use re_frame::push_words;
use re_given_words::{Counted, RoundsTexts, count_within};
use re_labels::{MAX_LABELS, NoMemory};
use re_problem::{Problem, print_problem, push_problem};
use re_search_words::SearchWord;
use re_settle::{Coloured, ColouredWay};
use std::alloc::Global;

/// Up to how many rounds are counted.
const MAX_COUNTED: u8 = 64;

// The text of the chain of so many derived problems behind the problem, and of the input problem.
fn chain_text(
    alloc: Global,
    problem: &Problem,
    input: &Problem,
    rounds: u8,
) -> Result<Option<Vec<u8>>, NoMemory> {
    match derived_chain(alloc, problem, rounds)? {
        Some(chain) => {
            let output = print_given(alloc, &chain, input)?;
            Ok(done_text(output))
        }
        None => Ok(None),
    }
}

// The text for as many rounds as `rounds K` counts given the input problem.
fn counted_text(
    alloc: Global,
    problem: &Problem,
    input: &Problem,
    most: u8,
) -> Result<Option<Vec<u8>>, NoMemory>
    requires { IsInput (unnamed problem.now) (unnamed input.now) }
{
    if most > MAX_COUNTED {
        return Ok(None);
    }
    let texts = RoundsTexts {
        problem: problem.copy()?,
        input: Some(input.copy()?),
    };
    match count_within(alloc, &texts, most, MAX_LABELS)? {
        Some(Counted::Exactly(rounds)) => chain_text(alloc, problem, input, rounds),
        _ => Ok(None),
    }
}

// What `shortest K L` writes given the input problem.
fn shortest_text(
    alloc: Global,
    problem: &Problem,
    input: &Problem,
    steps: u8,
    labels: u8,
) -> Result<Option<Vec<u8>>, NoMemory> {
    let mut text = print_problem(alloc, problem)?;
    push_words(&mut text, "== given\n")?;
    push_problem(&mut text, input)?;
    search_text(alloc, SearchWord::Shortest(steps, labels), text)
}

/// The text of an upper bound given few colours that these words find, and of that colouring.
pub(crate) fn coloured_text(
    alloc: Global,
    problem: &Problem,
    coloured: Coloured,
) -> Result<Option<Vec<u8>>, NoMemory> {
    let colours = few_colours(problem, coloured.side);
    let Some(input) = colouring_of(alloc, problem, coloured.side, colours)? else {
        return Ok(None);
    };
    match coloured.way {
        ColouredWay::Rounds(most) => counted_text(alloc, problem, &input, most),
        ColouredWay::Shortest(steps, labels) => {
            shortest_text(alloc, problem, &input, steps, labels)
        }
    }
}
