//! Texts of parts, as the words write them that find what they show.
ghost use Rattle.re_search_words.specs.Words.{IsSearchWord};
ghost use Rattle.std.specs.Prelude.{◌↔◌, IsTrue};

use crate::evidence_bounds::{bound_by, plain_lower, upper_bound};
use re_cert::{Certificate, MAX_STEPS};
use re_chains::problem_chain;
use re_frame::{Answer, Finding, Output};
use re_graph_words::GraphWord;
use re_io::MAX_BYTES;
use re_labels::{MAX_LABELS, NoMemory};
use re_problem::{Problem, print_problem};
use re_search_words::SearchWord;
use re_settle::{Way, upper_chain};
use re_texts::print_certificate;
use std::alloc::Global;

/// The most active nodes of a graph that `cover` looks for.
const MAX_COVER: u8 = 64;

/// The most problems that `cycle` may look at.
const MAX_NODES: u32 = 1_000_000;

/// The text of the certificate, if there is one.
pub(crate) fn printed(
    alloc: Global,
    found: Option<Certificate>,
) -> Result<Option<Vec<u8>>, NoMemory> {
    match found {
        Some(certificate) => Ok(Some(print_certificate(alloc, &certificate)?)),
        None => Ok(None),
    }
}

/// The text of an output that says Done.
pub(crate) fn done_text(output: Output) -> Option<Vec<u8>> {
    match output.answer {
        Answer::Done => Some(output.text),
        _ => None,
    }
}

// What `cover M` writes.
fn graph_text(alloc: Global, text: Vec<u8>, nodes: u8) -> Result<Option<Vec<u8>>, NoMemory> {
    if nodes == 0 || nodes > MAX_COVER || text.len() > MAX_BYTES {
        return Ok(None);
    }
    let output = GraphWord::Cover(nodes).find(alloc, text)?;
    Ok(done_text(output))
}

// Whether the numbers of the word are such as words can give it.
fn has_numbers(word: SearchWord) -> bool
    ensures { IsTrue result ↔ IsSearchWord word }
{
    match word {
        SearchWord::Longest(steps, labels) => {
            steps as usize <= MAX_STEPS && labels <= MAX_LABELS
        }
        SearchWord::Shortest(steps, labels) => {
            steps as usize <= MAX_STEPS && labels <= MAX_LABELS
        }
        SearchWord::Cycle(steps, _merges, nodes) => {
            steps as usize <= MAX_STEPS && nodes <= MAX_NODES
        }
    }
}

/// What the search that the word names writes to this text.
pub(crate) fn search_text(
    alloc: Global,
    word: SearchWord,
    text: Vec<u8>,
) -> Result<Option<Vec<u8>>, NoMemory> {
    if !has_numbers(word) || text.len() > MAX_BYTES {
        return Ok(None);
    }
    let output = word.find(alloc, text)?;
    Ok(done_text(output))
}

/// The text of what these words find to show that no number of rounds is enough, or of a bound.
pub(crate) fn way_text(
    alloc: Global,
    problem: &Problem,
    way: Way,
) -> Result<Option<Vec<u8>>, NoMemory> {
    let text = print_problem(alloc, problem)?;
    match way {
        Way::Zero | Way::Flexible | Way::Rounds(_) => Ok(None),
        Way::Cover(nodes) => graph_text(alloc, text, nodes),
        Way::Longest(steps, labels) => {
            search_text(alloc, SearchWord::Longest(steps, labels), text)
        }
        Way::Shortest(steps, labels) => {
            search_text(alloc, SearchWord::Shortest(steps, labels), text)
        }
        Way::Cycle(steps, merges, nodes) => {
            search_text(alloc, SearchWord::Cycle(steps, merges, nodes), text)
        }
        other => printed(alloc, bound_by(alloc, problem, other)?),
    }
}

/// The text of what shows that more than so many rounds are needed, as these words say.
pub(crate) fn more_text(
    alloc: Global,
    problem: &Problem,
    rounds: u8,
    way: Way,
) -> Result<Option<Vec<u8>>, NoMemory> {
    match way {
        Way::Zero => {
            let chain = problem_chain(alloc, problem.copy()?);
            Ok(Some(print_certificate(alloc, &chain.certificate)?))
        }
        Way::Rounds(_) => printed(alloc, plain_lower(alloc, problem, rounds)?),
        other => way_text(alloc, problem, other),
    }
}

/// The text of what shows that so many rounds are enough, as these words say.
pub(crate) fn most_text(
    alloc: Global,
    problem: &Problem,
    rounds: u8,
    way: Way,
) -> Result<Option<Vec<u8>>, NoMemory> {
    match way {
        Way::Zero => {
            let chain = upper_chain(alloc, problem.copy()?);
            Ok(Some(print_certificate(alloc, &chain.certificate)?))
        }
        Way::Rounds(_) => printed(alloc, upper_bound(alloc, problem, rounds, 0)?),
        other => way_text(alloc, problem, other),
    }
}
