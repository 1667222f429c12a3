//! The words, and what they say.
ghost use Rattle.re_search_words.specs.Words.{IsSearchWord, bound_word, cycle_with, longest_with, search_help, search_word_of, shortest_with};
ghost use Rattle.std.specs.Prelude.{◌≡◌, IfSome, map, string_bytes};

use re_cert::MAX_STEPS;
use re_labels::MAX_LABELS;
use re_problem::read_number;

/// The most merges in each step of a fixed point.
pub(crate) const MAX_MERGES: u32 = 8;

/// The most problems that a search for a fixed point may look at.
pub(crate) const MAX_NODES: u32 = 1_000_000;

/// A search that goes on from the chain that is read.
#[derive(Clone, Copy, Debug, PartialEq, Eq)]
pub enum SearchWord {
    /// `longest K L`: a long lower bound with at most K more steps, each to a problem of at most L labels.
    Longest(u8, u8),
    /// `shortest K L`: an upper bound with at most K more steps, each to a problem of at most L labels.
    Shortest(u8, u8),
    /// `cycle K M N`: a fixed point with at most K more steps, each with at most M merges, of at most N problems that are looked at.
    Cycle(u8, u8, u32),
}

fn longest_with(steps: Option<u32>, labels: Option<u32>) -> Option<SearchWord>
    ensures word { result ≡ longest_with steps labels }
    ensures fits { IfSome result IsSearchWord }
{
    let steps = steps?;
    let labels = labels?;
    if steps as usize <= MAX_STEPS && 2 <= labels && labels <= MAX_LABELS as u32 {
        Some(SearchWord::Longest(steps as u8, labels as u8))
    } else {
        None
    }
}

fn shortest_with(steps: Option<u32>, labels: Option<u32>) -> Option<SearchWord>
    ensures word { result ≡ shortest_with steps labels }
    ensures fits { IfSome result IsSearchWord }
{
    let steps = steps?;
    let labels = labels?;
    if steps as usize <= MAX_STEPS && 2 <= labels && labels <= MAX_LABELS as u32 {
        Some(SearchWord::Shortest(steps as u8, labels as u8))
    } else {
        None
    }
}

// The search for a bound that the word names.
fn bound_word(word: &str, steps: &str, labels: &str) -> Option<SearchWord>
    ensures word { result ≡ bound_word word.now steps.now labels.now }
    ensures fits { IfSome result IsSearchWord }
{
    let steps = read_number(steps.as_bytes());
    let labels = read_number(labels.as_bytes());
    if "longest" == word {
        longest_with(steps, labels)
    } else if "shortest" == word {
        shortest_with(steps, labels)
    } else {
        None
    }
}

fn cycle_with(steps: Option<u32>, merges: Option<u32>, nodes: Option<u32>) -> Option<SearchWord>
    ensures word { result ≡ cycle_with steps merges nodes }
    ensures fits { IfSome result IsSearchWord }
{
    let steps = steps?;
    let merges = merges?;
    let nodes = nodes?;
    let few = steps as usize <= MAX_STEPS && merges <= MAX_MERGES;
    if few && 1 <= nodes && nodes <= MAX_NODES {
        Some(SearchWord::Cycle(steps as u8, merges as u8, nodes))
    } else {
        None
    }
}

/// The word that the words name, with its numbers: K is at most `MAX_STEPS`, L from 2 to `MAX_LABELS`, M at most 8, N from 1 to
/// 1,000,000. None exactly where they name none.
#[tactic(auto, unfolding(crate::specs::Words::search_word_of))]
pub fn search_word(words: &[String]) -> Option<SearchWord>
    ensures word { result ≡ search_word_of (map string_bytes words.now) }
    ensures fits { IfSome result IsSearchWord }
{
    match words {
        [word, steps, labels] => bound_word(word.as_str(), steps.as_str(), labels.as_str()),
        [word, steps, merges, nodes] => {
            if "cycle" == word.as_str() {
                cycle_with(
                    read_number(steps.as_bytes()),
                    read_number(merges.as_bytes()),
                    read_number(nodes.as_bytes()),
                )
            } else {
                None
            }
        }
        _ => None,
    }
}

/// The lines of help.
#[tactic(auto, unfolding(crate::specs::Words::search_help))]
pub fn search_help() -> &'static str
    ensures { result.now ≡ search_help }
{
    "longest K L: reads a chain, or one with a line == given and an input problem, gives the longest lower bound that is found with at most K more steps, each to at most L labels\nshortest K L: reads a chain of kind upper or a problem, or one with a line == given and an input problem, gives the shortest upper bound that is found with at most K more steps, each to at most L labels\ncycle K M N: reads a chain, or one with a line == given and an input problem, gives a fixed point with at most K more steps and at most M merges in each, of at most N problems looked at\n"
}
