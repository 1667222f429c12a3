//! Bounds whose text is no longer than a text that is read may be: searches with fewer labels, where it would be longer.
ghost use Rattle.re_cert.specs.declared.certificate.Kind.TheVariants.{Lower, Upper};
ghost use Rattle.re_frame.specs.Outcomes.{outcome_of, status_of};
ghost use Rattle.re_frame.specs.declared.status.Status.TheVariants.{Done};
ghost use Rattle.re_settings.specs.Settings.{IsSettingOf, IsTakenIn};
ghost use Rattle.re_problem.specs.NamedProblems.{unnamed};
ghost use Rattle.re_search_words.specs.MayGive.{IsFound};
ghost use Rattle.std.specs.Prelude.{◌≡◌, ◌≤◌, ◌<◌, IfOk, IfSome};

use re_chains::{LowerChain, UpperChain};
use re_frame::Output;
use re_going_on::{Shortest, find_longest, find_shortest};
use re_labels::NoMemory;
use re_settings::{Setting, has_text_in, is_done, print_in};
use std::alloc::Global;

/// With how many labels a search is tried again behind one with so many: three quarters of them.
pub(crate) fn three_quarters(labels: u8) -> u8
    ensures most { result ≤ labels }
    ensures fewer { 2 ≤ labels → result < labels }
{
    (labels as u16 * 3 / 4) as u8
}

// The text of the lower bound that a search with at most so many labels finds, or the limit.
fn lower_text(
    alloc: Global,
    setting: &Setting,
    chain: &LowerChain,
    steps: u8,
    labels: u8,
) -> Result<Output, NoMemory>
    requires input { IsSettingOf (unnamed chain.now.certificate.first) setting.now }
    requires taken { IsTakenIn setting.now chain.now.certificate }
    ensures { IfOk result (λ output. IsFound setting.now Lower steps labels chain.now.certificate (outcome_of output)) }
{
    let certificate = find_longest(alloc, setting, chain, steps, labels)?;
    print_in(alloc, setting, &certificate)
}

/// The text of a lower bound that goes on from a chain that is taken: of what a search with at most so many labels finds, or, as long as that is
/// too long, with three quarters of the labels, down to two. None where no such text fits; it isn't looked for where the text of the chain
/// itself is too long.
pub(crate) fn fitting_lower(
    alloc: Global,
    setting: &Setting,
    chain: &LowerChain,
    steps: u8,
    labels: u8,
) -> Result<Option<Output>, NoMemory>
    requires input { IsSettingOf (unnamed chain.now.certificate.first) setting.now }
    requires taken { IsTakenIn setting.now chain.now.certificate }
    ensures { IfOk result (λ found. IfSome found (λ output. IsFound setting.now Lower steps labels chain.now.certificate (outcome_of output) × (status_of output.answer ≡ Done))) }
{
    if labels < 2 {
        return Ok(None);
    }
    let output = lower_text(alloc, setting, chain, steps, labels)?;
    if is_done(output.answer) {
        return Ok(Some(output));
    }
    if !has_text_in(alloc, setting, &chain.certificate)? {
        return Ok(None);
    }
    fitting_lower(alloc, setting, chain, steps, three_quarters(labels))
}

// The text of the upper bound that a search with at most so many labels finds, or the limit, if it finds any.
fn upper_text(
    alloc: Global,
    setting: &Setting,
    chain: &UpperChain,
    steps: u8,
    labels: u8,
) -> Result<Option<Output>, NoMemory>
    requires { IsSettingOf (unnamed chain.now.certificate.first) setting.now }
    ensures { IfOk result (λ found. IfSome found (λ output. IsFound setting.now Upper steps labels chain.now.certificate (outcome_of output))) }
{
    match find_shortest(alloc, setting, chain, steps, labels)? {
        Shortest::Found(certificate) => Ok(Some(print_in(alloc, setting, &certificate)?)),
        Shortest::NotFound { .. } => Ok(None),
    }
}

/// The same of an upper bound; None also where nothing is found.
pub(crate) fn fitting_upper(
    alloc: Global,
    setting: &Setting,
    chain: &UpperChain,
    steps: u8,
    labels: u8,
) -> Result<Option<Output>, NoMemory>
    requires { IsSettingOf (unnamed chain.now.certificate.first) setting.now }
    ensures { IfOk result (λ found. IfSome found (λ output. IsFound setting.now Upper steps labels chain.now.certificate (outcome_of output) × (status_of output.answer ≡ Done))) }
{
    if labels < 2 {
        return Ok(None);
    }
    let Some(output) = upper_text(alloc, setting, chain, steps, labels)? else {
        return Ok(None);
    };
    if is_done(output.answer) {
        return Ok(Some(output));
    }
    if !has_text_in(alloc, setting, &chain.certificate)? {
        return Ok(None);
    }
    fitting_upper(alloc, setting, chain, steps, three_quarters(labels))
}
