//! The texts of bounds in a setting.
ghost use Rattle.re_frame.specs.Outcomes.{outcome_of, status_of};
ghost use Rattle.re_frame.specs.declared.status.Status.TheVariants.{Done};
ghost use Rattle.re_settings.specs.Settings.{GivesIn, HasTextIn, text_outcome_in};
ghost use Rattle.std.specs.Prelude.{◌≡◌, ◌↔◌, IfOk, IsTrue};

use crate::setting::Setting;
use re_cert::Certificate;
use re_chains::{certificate_output, print_given};
use re_frame::{Answer, Output};
use re_labels::NoMemory;
use std::alloc::Global;

/// The output that is the text of a bound, with the input problem behind it where one is given; or the limit exactly where that text is longer
/// than one that is read. What is put out is read as this bound, and as this input problem where one is given.
pub fn print_in(alloc: Global, setting: &Setting, bound: &Certificate) -> Result<Output, NoMemory>
    ensures outcome { IfOk result (λ output. outcome_of output ≡ text_outcome_in setting.now bound.now) }
    ensures text { IfOk result (λ output. GivesIn setting.now bound.now (outcome_of output)) }
{
    match setting {
        Setting::Alone => certificate_output(alloc, bound),
        Setting::Given(input) => print_given(alloc, bound, input),
    }
}

/// Whether the answer is Done.
pub fn is_done(answer: Answer) -> bool
    ensures { IsTrue result ↔ status_of answer ≡ Done }
{
    matches!(answer, Answer::Done)
}

/// Whether the bound has a text in the setting that is no longer than one that is read, which is where it is read as it. Its cost is that of
/// printing it.
pub fn has_text_in(alloc: Global, setting: &Setting, bound: &Certificate) -> Result<bool, NoMemory>
    ensures { IfOk result (λ has. IsTrue has ↔ HasTextIn setting.now bound.now) }
{
    let output = print_in(alloc, setting, bound)?;
    Ok(is_done(output.answer))
}
