//! The words, and what they say.
ghost use Rattle.re_given_words.specs.Words.{IsGivenWord, given_help as help_lines, given_word_of, rounds_with};
ghost use Rattle.std.specs.Prelude.{◌≡◌, IfSome, map, string_bytes};

use re_cert::MAX_STEPS;
use re_problem::read_number;
use re_settings::BoundWord;

/// A word that tells of problems where a solution of an input problem is given.
#[derive(Clone, Copy, Debug, PartialEq, Eq)]
pub enum GivenWord {
    /// A word that reads a bound and an input problem.
    OfBound(BoundWord),
    /// `rounds K`: the number of rounds, where it is at most K.
    Rounds(u8),
    /// `product`: the problem with the labels of the input problem beside its own.
    Product,
}

fn rounds_with(most: Option<u32>) -> Option<GivenWord>
    ensures word { result ≡ rounds_with most }
    ensures fits { IfSome result IsGivenWord }
{
    let most = most?;
    if most <= MAX_STEPS as u32 {
        Some(GivenWord::Rounds(most as u8))
    } else {
        None
    }
}

/// The word that the words name, with its number, which is from 0 to 64. None exactly where they name none.
#[tactic(auto, unfolding(crate::specs::Words::given_word_of))]
pub fn given_word(words: &[String]) -> Option<GivenWord>
    ensures word { result ≡ given_word_of (map string_bytes words.now) }
    ensures fits { IfSome result IsGivenWord }
{
    match words {
        [word] => {
            if "fit" == word.as_str() {
                Some(GivenWord::OfBound(BoundWord::Fit))
            } else if "given" == word.as_str() {
                Some(GivenWord::OfBound(BoundWord::Given))
            } else if "product" == word.as_str() {
                Some(GivenWord::Product)
            } else {
                None
            }
        }
        [word, most] => {
            if "rounds" == word.as_str() {
                rounds_with(read_number(most.as_bytes()))
            } else {
                None
            }
        }
        _ => None,
    }
}

/// The lines of help.
#[tactic(auto, unfolding(crate::specs::Words::given_help))]
pub fn given_help() -> &'static str
    ensures { result.now ≡ help_lines }
{
    "fit: reads a chain, a line == given and an input problem, gives the labels that solve its last problem in 0 rounds given that input\ngiven: reads a chain or a certificate, a line == given and an input problem, gives the verdict on it given that input\nrounds K: reads a problem, or one with a line == given and an input problem, gives its number of rounds, up to K, which is at most 64, given that input\nproduct: reads a problem, a line == given and an input problem, gives the problem whose labels are pairs of a label of each\n"
}
