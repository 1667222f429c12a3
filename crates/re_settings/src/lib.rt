//! Settings: what an algorithm is given besides its ports, nothing or a solution of an input problem; how this is read and printed, which bounds
//! are taken there, and the verdict on a bound given an input problem. No step is derived here.
//!
//! Sets of labels for the labels of an input problem: whether a problem is solvable without communication where a solution of the input
//! problem is given; and for those of any problem: whether an upper step leads there.
#![tactic(auto)]

mod bound_words;
mod ends;
mod faults;
mod finding;
mod fitting;
mod inputs;
mod judging;
mod ordering;
mod passing;
mod printing;
mod reading;
mod setting;
mod taken;
mod texts;
mod verdict_lines;
mod verdicts;

ghost use Rattle.re_settings.specs.Laws.{FitWalkLaw, UpperWalkLaw};
ghost use Rattle.re_settings.specs.Meanings.{AnswerLaw};

pub use bound_words::BoundWord;
pub use ends::{Ends, FEW_TRIES, ends_after};
pub use faults::input_fault_output;
pub use finding::{FitFault, find_fit, find_fit_after, find_upper};
pub use fitting::{FitAnswer, MAX_TRIES, fit_answer, tries_output};
pub use inputs::{InputFault, input_fault};
pub use judging::bound_output;
pub use printing::{has_text_in, is_done, print_in};
pub use reading::{SettingTexts, front_of, read_in};
pub use setting::Setting;
pub use taken::{
    given_refusal, input_refusal_in, is_taken, is_taken_given, refusal_in, taken_alone_law,
};
pub use texts::{GIVEN, GivenTexts, read_given};
pub use verdict_lines::given_verdict_output;
pub use verdicts::{GivenVerdict, given_verdict};

/// What the answers of `fit` and `given` to a bound over problems mean: by Done a bound holds given the input problem, and `fit` says exactly
/// whether the last problem is solvable in 0 rounds given it.
pub fn answer_law()
    ensures { AnswerLaw }
{}

/// The sets of the first labels that pass are such that an upper step leads to the exchanged input problem by them; where none pass, the
/// problem isn't zero given the input problem.
pub fn fit_walk_law()
    ensures { FitWalkLaw }
{}

/// The sets of the first labels that pass are such that an upper step leads to the next problem by them; where none pass, no upper step does.
pub fn upper_walk_law()
    ensures { UpperWalkLaw }
{}
