//! The program `explore` as one call: `run` does what the words ask, from the bytes of a source to the text in a sink.
//!
//! The word `evidence` stands here, since it goes over what the other words find: a text of evidence of what `settle` finds of a problem, which `judge`
//! reads.
//!
//! **Parts.** The first part is that of the problem's levels of labels (`re_flexible`): a flexible set, or how many levels there are. Behind it stands, for
//! each of the words that `settle` names, what the same search with the same numbers finds: a certificate; a graph without a solution; for a number of rounds that
//! `rounds` counts the certificates of the derived problems without changes; for few colours an upper bound and that colouring; for `greedy` the chain of
//! derived problems and the list. A part stands there only if `judge` takes the text with it, and that is no longer than an input may be. So where a
//! count has no certificate, or one is too long, less is shown than is known.
//!
//! **What it is worth.** `judge` is asked of the whole text before it is given, so whoever has it needs neither this crate nor a search.
#![tactic(auto)]

mod command;
mod evidence;
mod evidence_bounds;
mod evidence_coloured;
mod evidence_greedy;
mod evidence_levels;
mod evidence_texts;
mod evidence_words;
mod sure;
mod telling;
mod text_words;
mod tool;

ghost use Rattle.re_explore.specs.Evidence.{EvidenceLaw};

pub use evidence::evidence_of;
pub use evidence_words::{EvidenceWord, evidence_help, evidence_word};
pub use re_frame::Status;
use re_judging::judge_law;
pub use sure::run_sure;
pub use tool::run;

/// Whenever `judge` answers Done to evidence of a problem, each line is true of this problem, whatever stood in front of it.
pub fn evidence_law()
    ensures { EvidenceLaw }
{
    judge_law();
}
