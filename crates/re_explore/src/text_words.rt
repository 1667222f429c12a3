// Words of families some of whose words read an input problem behind a line `== given`.
ghost use Rattle.re_explore.specs.TextWords.{IsTextWord, MayGiveWord, front_of};
ghost use Rattle.std.specs.Prelude.{◌≡◌, true};

use re_asking::FrontText;
use re_bridge_words::BridgeWord;
use re_closure::ClosureWord;
use re_frame::{Finding, Output};
use re_given_words::GivenWord;
use re_graph_words::GraphWord;
use re_labels::NoMemory;
use re_search_words::SearchWord;
use re_settle::{SettleText, SettleWord};
use std::alloc::Global;

#[derive(Clone, Copy, Debug)]
pub(crate) enum TextWord {
    /// A search that goes on from a chain.
    Searches(SearchWord),
    /// The fixed point by right-closed sets.
    Closes(ClosureWord),
    /// A step to a given problem, or a problem with fewer labels.
    Bridges(BridgeWord),
    /// A problem on finite graphs.
    Graphs(GraphWord),
    /// A problem or a bound where a solution of an input problem is given.
    Givens(GivenWord),
    /// How many rounds a problem takes, alone or given an input problem.
    Settles(SettleWord),
}

/// What it reads in front of an input problem, if it reads one at the end of its text.
pub(crate) fn front_of(word: TextWord) -> Option<FrontText>
    ensures { result ≡ front_of word }
{
    match word {
        TextWord::Searches(_) | TextWord::Closes(_) => Some(FrontText::Chain),
        TextWord::Bridges(BridgeWord::Reduce) => Some(FrontText::Problem),
        TextWord::Bridges(BridgeWord::Bridge) => None,
        TextWord::Graphs(GraphWord::Cover(_)) => Some(FrontText::Problem),
        TextWord::Graphs(GraphWord::Solve) => None,
        TextWord::Givens(GivenWord::OfBound(_)) => Some(FrontText::Chain),
        TextWord::Givens(GivenWord::Rounds(_)) => Some(FrontText::Problem),
        TextWord::Givens(GivenWord::Product) => Some(FrontText::Problem),
        TextWord::Settles(_) => Some(FrontText::Problem),
    }
}

impl Finding for TextWord {
    ghost use Rattle.re_explore.specs.TextWords.{IsTextWord, MayGiveWord};
    ghost use Rattle.std.specs.Prelude.{true};

    ghost fits = { IsTextWord };

    ghost may = { MayGiveWord };

    ghost judging = { λ _. true };

    fn find(&self, alloc: Global, text: Vec<u8>) -> Result<Output, NoMemory> {
        match *self {
            TextWord::Searches(word) => word.find(alloc, text),
            TextWord::Closes(word) => word.find(alloc, text),
            TextWord::Bridges(word) => word.find(alloc, text),
            TextWord::Graphs(word) => word.find(alloc, text),
            TextWord::Givens(word) => word.find(alloc, text),
            TextWord::Settles(word) => SettleText { word }.find(alloc, text),
        }
    }
}
