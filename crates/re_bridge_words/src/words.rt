//! The words, and what they answer.
ghost use Rattle.re_bridge_words.specs.Answers.{WordNo, WordWorth, bridge_help, bridge_word_of, word_outcome};
ghost use Rattle.re_frame.specs.Outcomes.{outcome_of, refused};
ghost use Rattle.re_frame.specs.declared.status.Status.TheVariants.{Done};
ghost use Rattle.re_io.specs.declared.read.TheConstants.{MAX_BYTES};
ghost use Rattle.std.specs.Prelude.{◌≡◌, ◌≤◌, IfOk, codes, length, map, string_bytes};

use crate::answering::text_output;
use crate::reducing::reduce_output;
use re_frame::{Finding, Output};
use re_labels::NoMemory;
use std::alloc::Global;

/// A word that answers what walks over lists of labels find. Each reads its input as a whole.
#[derive(Clone, Copy, Debug, PartialEq, Eq)]
pub enum BridgeWord {
    /// `bridge`: a chain with a step to a given problem. It takes the time of `check` on the chain, beside that of the function `bridge` with
    /// `MAX_TRIES` tries.
    Bridge,
    /// `reduce`: an equivalent problem with as few labels as a map of the problem into itself leaves; given an input problem, that of their
    /// product. It takes the time of `reduce` of `re_bridge` with `MAX_TRIES` tries, behind that of `re_inputs::product`.
    Reduce,
}

/// The word that the words are. None exactly where they are none.
#[tactic(auto, unfolding(crate::specs::Answers::bridge_word_of))]
pub fn bridge_word(words: &[String]) -> Option<BridgeWord>
    ensures { result ≡ bridge_word_of (map string_bytes words.now) }
{
    match words {
        [word] => {
            if "bridge" == word.as_str() {
                Some(BridgeWord::Bridge)
            } else if "reduce" == word.as_str() {
                Some(BridgeWord::Reduce)
            } else {
                None
            }
        }
        _ => None,
    }
}

/// The lines of help.
#[tactic(auto, unfolding(crate::specs::Answers::bridge_help))]
pub fn bridge_help() -> &'static str
    ensures { result.now ≡ bridge_help }
{
    "bridge: reads a chain, a line == to and a problem, gives the chain with one more step, to this problem\nreduce: reads a problem, or one with a line == given and an input problem, gives it, or the product of both, with as few labels as a map of it into itself leaves, which takes as many rounds\n"
}

// What the word gives to a text.
fn output_for(alloc: Global, word: BridgeWord, text: &[u8]) -> Result<Output, NoMemory>
    requires { length text.now ≤ MAX_BYTES }
    ensures output { IfOk result (λ output. outcome_of output ≡ word_outcome word text.now) }
    ensures text { IfOk result (λ output. (outcome_of output).status ≡ Done → WordWorth word text.now output.text.items) }
    ensures no { IfOk result (λ output. outcome_of output ≡ refused (codes "no\n") → WordNo word text.now) }
{
    match word {
        BridgeWord::Bridge => text_output(alloc, text),
        BridgeWord::Reduce => reduce_output(alloc, text),
    }
}

impl Finding for BridgeWord {
    ghost use Rattle.re_bridge_words.specs.Answers.{MayGive};
    ghost use Rattle.std.specs.Prelude.{true};

    ghost fits = { λ _. Unit {0} };

    ghost may = { MayGive };

    ghost judging = { λ _. true };

    fn find(&self, alloc: Global, text: Vec<u8>) -> Result<Output, NoMemory> {
        output_for(alloc, *self, text.as_slice())
    }
}
