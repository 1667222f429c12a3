//! The word, and what it says.
ghost use Rattle.re_settle.specs.Words.{IsSettleWord, settle_help, settle_with, settle_word_of};
ghost use Rattle.std.specs.Prelude.{◌≡◌, IfSome, map, string_bytes};

use re_problem::read_number;

/// How often the bounds of the searches may be taken.
pub const MAX_TIMES: u32 = 64;

/// The word `settle N`, and `settle`, which is `settle 1`. It reads a problem as a whole, and takes the time of `settle` on it.
#[derive(Clone, Copy, Debug, PartialEq, Eq)]
pub struct SettleWord {
    /// How often the bounds of the searches are taken.
    pub times: u8,
}

fn settle_with(times: Option<u32>) -> Option<SettleWord>
    ensures word { result ≡ settle_with times }
    ensures fits { IfSome result IsSettleWord }
{
    let times = times?;
    if 1 <= times && times <= MAX_TIMES {
        Some(SettleWord { times: times as u8 })
    } else {
        None
    }
}

/// The word that the words name, with its number, which is from 1 to `MAX_TIMES`, and 1 where none stands. None exactly where they name none.
#[tactic(auto, unfolding(crate::specs::Words::settle_word_of))]
pub fn settle_word(words: &[String]) -> Option<SettleWord>
    ensures word { result ≡ settle_word_of (map string_bytes words.now) }
    ensures fits { IfSome result IsSettleWord }
{
    match words {
        [word] => {
            if "settle" == word.as_str() {
                Some(SettleWord { times: 1 })
            } else {
                None
            }
        }
        [word, times] => {
            if "settle" == word.as_str() {
                settle_with(read_number(times.as_bytes()))
            } else {
                None
            }
        }
        _ => None,
    }
}

/// The line of help.
#[tactic(auto, unfolding(crate::specs::Words::settle_help))]
pub fn settle_help() -> &'static str
    ensures { result.now ≡ settle_help }
{
    "settle, settle N: reads a problem, or one with a line == given and an input problem, gives how many rounds it takes, as far as that is found, and the words that show it\n"
}
