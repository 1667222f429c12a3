//! The word, and what it says.
ghost use Rattle.re_explore.specs.EvidenceWords.{IsEvidenceWord, evidence_help, evidence_with, evidence_word_of};
ghost use Rattle.std.specs.Prelude.{◌≡◌, IfSome, map, string_bytes};

use re_problem::read_number;
use re_settle::MAX_TIMES;

/// The word `evidence N`, and `evidence`, which is `evidence 1`. It reads a problem as a whole, takes the time of `settle N` on it and that of the
/// searches that it names once more, and that of `judge` on what it gives.
#[derive(Clone, Copy, Debug, PartialEq, Eq)]
pub struct EvidenceWord {
    /// How often the bounds of the searches are taken.
    pub times: u8,
}

fn evidence_with(times: Option<u32>) -> Option<EvidenceWord>
    ensures word { result ≡ evidence_with times }
    ensures fits { IfSome result IsEvidenceWord }
{
    let times = times?;
    if 1 <= times && times <= MAX_TIMES {
        Some(EvidenceWord { times: times as u8 })
    } else {
        None
    }
}

/// The word that the words name, with its number, which is from 1 to `re_settle::MAX_TIMES`, and 1 where none stands. None exactly where they name
/// none.
#[tactic(auto, unfolding(crate::specs::EvidenceWords::evidence_word_of))]
pub fn evidence_word(words: &[String]) -> Option<EvidenceWord>
    ensures word { result ≡ evidence_word_of (map string_bytes words.now) }
    ensures fits { IfSome result IsEvidenceWord }
{
    match words {
        [word] => {
            if "evidence" == word.as_str() {
                Some(EvidenceWord { times: 1 })
            } else {
                None
            }
        }
        [word, times] => {
            if "evidence" == word.as_str() {
                evidence_with(read_number(times.as_bytes()))
            } else {
                None
            }
        }
        _ => None,
    }
}

/// The line of help.
#[tactic(auto, unfolding(crate::specs::EvidenceWords::evidence_help))]
pub fn evidence_help() -> &'static str
    ensures { result.now ≡ evidence_help }
{
    "evidence, evidence N: reads a problem, gives a text of evidence of what settle, settle N, finds of it, which judge reads\n"
}
