//! What the words answer.
ghost use Rattle.re_frame.specs.Outcomes.{outcome_of, status_of};
ghost use Rattle.re_frame.specs.Runs.{MaySay};
ghost use Rattle.re_given_words.specs.Answers.{MayGive};
ghost use Rattle.re_given_words.specs.Words.{IsGivenWord};
ghost use Rattle.re_io.specs.declared.read.TheConstants.{MAX_BYTES};
ghost use Rattle.std.specs.Prelude.{◌≤◌, IfOk, length, true};

use crate::multiplying::product_output;
use crate::rounds::rounds_output;
use crate::words::GivenWord;
use re_frame::{Finding, Output};
use re_labels::NoMemory;
use re_settings::bound_output;
use std::alloc::Global;

// What the word gives to a text.
#[tactic(auto, unfolding(crate::specs::Answers::MayGive))]
fn text_output(alloc: Global, word: GivenWord, text: &[u8]) -> Result<Output, NoMemory>
    requires word { IsGivenWord word }
    requires few { length text.now ≤ MAX_BYTES }
    ensures { IfOk result (λ output. MayGive word text.now (outcome_of output)) }
{
    match word {
        GivenWord::OfBound(word) => bound_output(alloc, word, text),
        GivenWord::Rounds(most) => rounds_output(alloc, most, text),
        GivenWord::Product => product_output(alloc, text),
    }
}

impl Finding for GivenWord {
    ghost use Rattle.re_given_words.specs.Answers.{MayGive};
    ghost use Rattle.re_given_words.specs.Words.{IsGivenWord};
    ghost use Rattle.std.specs.Prelude.{true};

    ghost fits = { IsGivenWord };

    ghost may = { MayGive };

    ghost judging = { λ _. true };

    fn find(&self, alloc: Global, text: Vec<u8>) -> Result<Output, NoMemory> {
        text_output(alloc, *self, text.as_slice())
    }
}
