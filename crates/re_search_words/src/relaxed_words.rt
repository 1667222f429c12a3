//! The words, and what they say.
ghost use Rattle.re_search_words.specs.RelaxedWords.{looked_at, relaxed_help, relaxed_with, relaxed_word_of, through_with};
ghost use Rattle.std.specs.Prelude.{◌≡◌, map, string_bytes};

use re_problem::read_number;
use re_relaxed::{MAX_RELAXATIONS, Member, member_named};

/// A fixed point behind another problem.
#[derive(Clone, Copy, Debug, PartialEq, Eq)]
pub enum RelaxedWord {
    /// `relaxed N`: behind one of at most N relaxations that are looked at.
    Relaxed(u32),
    /// `through NAME`, `through`: through this problem of the library, or through any of them.
    Through(Option<Member>),
}

/// How many problems may be looked at for the word.
pub(crate) fn looked_at(word: RelaxedWord) -> u32
    ensures { result ≡ looked_at word }
{
    match word {
        RelaxedWord::Relaxed(nodes) => nodes,
        RelaxedWord::Through(_) => MAX_RELAXATIONS,
    }
}

fn relaxed_with(nodes: Option<u32>) -> Option<RelaxedWord>
    ensures { result ≡ relaxed_with nodes }
{
    let nodes = nodes?;
    if 1 <= nodes && nodes <= MAX_RELAXATIONS {
        Some(RelaxedWord::Relaxed(nodes))
    } else {
        None
    }
}

fn through_with(member: Option<Member>) -> Option<RelaxedWord>
    ensures { result ≡ through_with member }
{
    let member = member?;
    Some(RelaxedWord::Through(Some(member)))
}

/// The word that the words name: `relaxed` with its number, which is from 1 to `MAX_RELAXATIONS`, or `through`, alone or with the name of a problem of the
/// library. None exactly where they name none.
#[tactic(auto, unfolding(crate::specs::RelaxedWords::relaxed_word_of))]
pub fn relaxed_word(words: &[String]) -> Option<RelaxedWord>
    ensures { result ≡ relaxed_word_of (map string_bytes words.now) }
{
    match words {
        [word] => {
            if "through" == word.as_str() {
                Some(RelaxedWord::Through(None))
            } else {
                None
            }
        }
        [word, more] => {
            if "relaxed" == word.as_str() {
                relaxed_with(read_number(more.as_bytes()))
            } else if "through" == word.as_str() {
                through_with(member_named(more.as_str()))
            } else {
                None
            }
        }
        _ => None,
    }
}

/// The lines of help.
#[tactic(auto, unfolding(crate::specs::RelaxedWords::relaxed_help))]
pub fn relaxed_help() -> &'static str
    ensures { result.now ≡ relaxed_help }
{
    "relaxed N: reads a chain, gives a fixed point behind a relaxation of its last problem or of one behind it, of at most N looked at\nthrough, through NAME: reads a chain, gives a fixed point behind a step to one of a library, or to that of its problem NAME\n"
}
