//! The words, and what they say.
ghost use Rattle.re_graph_words.specs.Words.{IsGraphWord, cover_with, graph_help as help_lines, graph_word_of};
ghost use Rattle.std.specs.Prelude.{◌≡◌, IfSome, map, string_bytes};

use re_problem::read_number;

/// The most active nodes of a graph that `cover` looks for.
pub(crate) const MAX_COVER: u32 = 64;

/// A word that tells of a problem on finite graphs.
#[derive(Clone, Copy, Debug, PartialEq, Eq)]
pub enum GraphWord {
    /// `solve`: a solution on the graph that is read.
    Solve,
    /// `cover M`: a graph of at most M active nodes without a solution.
    Cover(u8),
}

fn cover_with(nodes: Option<u32>) -> Option<GraphWord>
    ensures word { result ≡ cover_with nodes }
    ensures fits { IfSome result IsGraphWord }
{
    let nodes = nodes?;
    if 1 <= nodes && nodes <= MAX_COVER {
        Some(GraphWord::Cover(nodes as u8))
    } else {
        None
    }
}

/// The word that the words name, with its number, which is from 1 to 64. None exactly where they name none.
#[tactic(auto, unfolding(crate::specs::Words::graph_word_of))]
pub fn graph_word(words: &[String]) -> Option<GraphWord>
    ensures word { result ≡ graph_word_of (map string_bytes words.now) }
    ensures fits { IfSome result IsGraphWord }
{
    match words {
        [word] => {
            if "solve" == word.as_str() {
                Some(GraphWord::Solve)
            } else {
                None
            }
        }
        [word, nodes] => {
            if "cover" == word.as_str() {
                cover_with(read_number(nodes.as_bytes()))
            } else {
                None
            }
        }
        _ => None,
    }
}

/// The lines of help.
#[tactic(auto, unfolding(crate::specs::Words::graph_help))]
pub fn graph_help() -> &'static str
    ensures { result.now ≡ help_lines }
{
    "solve: reads a problem, or one with a line == given and an input problem, a line == graph and the lines of a graph, gives a solution on it, or that there is none\ncover M: reads a problem, or one with a line == given and an input problem, gives a graph of at most M active nodes, M from 1 to 64, without a solution\n"
}
