//! What the words answer.
ghost use Rattle.re_frame.specs.Outcomes.{outcome_of, status_of};
ghost use Rattle.re_frame.specs.Runs.{MaySay};
ghost use Rattle.re_graph_words.specs.GraphWords.{MayCoverBy, MayCoverRead, MayGive};
ghost use Rattle.re_graph_words.specs.Words.{IsGraphWord};
ghost use Rattle.re_io.specs.declared.read.TheConstants.{MAX_BYTES};
ghost use Rattle.re_problem.specs.ProblemTexts.{first_fault, lines_of, problem_of};
ghost use Rattle.re_chains.specs.TwoTexts.{has_line as has_given};
ghost use Rattle.std.specs.Prelude.{◌≡◌, ◌≤◌, IfOk, codes, length, true};

use crate::covering::cover_output;
use crate::given_covering::given_cover_output;
use crate::solving::solve_output;
use crate::words::GraphWord;
use re_chains::has_line;
use re_frame::{Finding, Output, fault_output};
use re_labels::NoMemory;
use re_problem::{TextFault, read_problem};
use re_settings::GIVEN;
use std::alloc::Global;

// What `cover` gives to the text of a problem.
fn problem_text_output(alloc: Global, most: u8, text: &[u8]) -> Result<Output, NoMemory>
    requires most { most ≤ 64 }
    requires few { length text.now ≤ MAX_BYTES }
    ensures { IfOk result (λ output. MayCoverRead (first_fault 0 1 (lines_of text.now)) (problem_of (lines_of text.now)) most (outcome_of output)) }
{
    match read_problem(alloc, text) {
        Ok(problem) => cover_output(alloc, &problem, most),
        Err(TextFault::Bad(fault)) => Ok(fault_output(alloc, fault)?),
        Err(TextFault::NoMemory) => Err(NoMemory),
    }
}

// What `cover` gives to a text.
fn cover_text_output(alloc: Global, most: u8, text: &[u8]) -> Result<Output, NoMemory>
    requires most { most ≤ 64 }
    requires few { length text.now ≤ MAX_BYTES }
    ensures { IfOk result (λ output. MayCoverBy (has_given (codes "given") text.now) most text.now (outcome_of output)) }
{
    if has_line(GIVEN, text) {
        given_cover_output(alloc, most, text)
    } else {
        problem_text_output(alloc, most, text)
    }
}

// What the word gives to a text.
#[tactic(auto, unfolding(crate::specs::GraphWords::MayGive))]
fn text_output(alloc: Global, word: GraphWord, text: &[u8]) -> Result<Output, NoMemory>
    requires word { IsGraphWord word }
    requires few { length text.now ≤ MAX_BYTES }
    ensures { IfOk result (λ output. MayGive word text.now (outcome_of output)) }
{
    match word {
        GraphWord::Solve => solve_output(alloc, text),
        GraphWord::Cover(most) => cover_text_output(alloc, most, text),
    }
}

impl Finding for GraphWord {
    ghost use Rattle.std.specs.Prelude.{true};
    ghost use Rattle.re_graph_words.specs.GraphWords.{MayGive};
    ghost use Rattle.re_graph_words.specs.Words.{IsGraphWord};

    ghost fits = { IsGraphWord };

    ghost may = { MayGive };

    ghost judging = { λ _. true };

    fn find(&self, alloc: Global, text: Vec<u8>) -> Result<Output, NoMemory> {
        text_output(alloc, *self, text.as_slice())
    }
}
