//! The words, and what they say.
ghost use Rattle.re_forest_words.specs.Words.{IsForestWord, forest_help, forest_word_of, steps_of};
ghost use Rattle.std.specs.Prelude.{◌≡◌, IfSome, map, string_bytes};

/// A word on finite forests.
#[derive(Clone, Copy, Debug, PartialEq, Eq)]
pub enum ForestWord {
    /// `flexible`: of the last problem of a chain, a flexible set of labels, or how many levels of labels it has. It takes what the reading of the
    /// chain takes, and the time of `re_flexible::flexibility_of`.
    Flexible,
    /// `greedy K`, or `greedy` for `greedy 2`: multisets with which the last problem of a chain, or one behind at most K derived problems, is greedy
    /// from one side or the other. It takes what the reading of the chain takes, and the time of `greedy_behind`.
    Greedy(u8),
}

// How many derived problems the word says.
fn steps_of(word: &str) -> Option<u8>
    ensures { result ≡ steps_of word.now }
{
    if "0" == word {
        return Some(0);
    }
    if "1" == word {
        return Some(1);
    }
    if "2" == word {
        return Some(2);
    }
    None
}

/// The word that the words name, or None exactly where they name none.
#[tactic(auto, unfolding(crate::specs::Words::forest_word_of))]
pub fn forest_word(words: &[String]) -> Option<ForestWord>
    ensures word { result ≡ forest_word_of (map string_bytes words.now) }
    ensures fits { IfSome result IsForestWord }
{
    match words {
        [word] => {
            if "flexible" == word.as_str() {
                return Some(ForestWord::Flexible);
            }
            if "greedy" == word.as_str() {
                return Some(ForestWord::Greedy(2));
            }
            None
        }
        [word, steps] => {
            if "greedy" == word.as_str() {
                let steps = steps_of(steps.as_str())?;
                return Some(ForestWord::Greedy(steps));
            }
            None
        }
        _ => None,
    }
}

/// The lines of help.
#[tactic(auto, unfolding(crate::specs::Words::forest_help))]
pub fn forest_help() -> &'static str
    ensures { result.now ≡ forest_help }
{
    "flexible: reads a chain, gives a flexible set of labels of its last problem, or how many levels of labels it has\ngreedy, greedy K: reads a chain, gives what shows that its last problem, or one at most 2 or K steps behind it, can be labelled one node after another\n"
}
