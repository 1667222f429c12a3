//! Bounds that go on from a chain, in a setting.
ghost use Rattle.re_given_words.specs.Extensions.{GoesOnGiven, TakenLaw};
ghost use Rattle.re_given_words.specs.Extensions.{GoesOnIn};
ghost use Rattle.re_settings.specs.Settings.{IsTakenIn};
ghost use Rattle.re_shaping.specs.Extensions.{continued};
ghost use Rattle.std.specs.Prelude.{◌≡◌, IfOk, IfSome, None};

use re_cert::Certificate;
use re_chains::over_problems;
use re_labels::NoMemory;
use re_problem::Problem;
use re_settings::{Setting, is_taken_given};
use re_shaping::{Extension, are_small, extended, joined};
use std::alloc::Global;

// As `extended_in`, given the input problem.
fn extended_given(
    alloc: Global,
    chain: &Certificate,
    extension: Extension,
    input: &Problem,
    most: u8,
    labels: u8,
) -> Result<Option<Certificate>, NoMemory>
    ensures goes_on { IfOk result (λ found. IfSome found (GoesOnGiven input.now extension.kind most labels chain.now)) }
    ensures whole { IfOk result (λ found. IfSome found (λ bound. bound ≡ continued chain.now extension)) }
    ensures none { IfOk result (λ found. found ≡ None → GoesOnGiven input.now extension.kind most labels chain.now (continued chain.now extension) → ⊥) }
{
    if extension.steps.len() > most as usize {
        return Ok(None);
    }
    if !are_small(extension.steps.as_slice(), labels) {
        return Ok(None);
    }
    let Some(certificate) = joined(alloc, chain, extension)? else {
        return Ok(None);
    };
    over_problems(&certificate);
    let _kind = certificate.kind();
    let _names = input.names();
    if is_taken_given(alloc, &certificate, input)? {
        Ok(Some(certificate))
    } else {
        Ok(None)
    }
}

/// The certificate of the chain and what is to stand behind it, judged in the setting. None exactly where this doesn't go on from the chain:
/// where the steps are more than `most`, one of them leads to a problem of more labels than `labels`, the whole makes no certificate, or it
/// isn't taken. Its cost is that of `check` or `given`.
pub fn extended_in(
    alloc: Global,
    setting: &Setting,
    chain: &Certificate,
    extension: Extension,
    most: u8,
    labels: u8,
) -> Result<Option<Certificate>, NoMemory>
    ensures goes_on { IfOk result (λ found. IfSome found (GoesOnIn setting.now extension.kind most labels chain.now)) }
    ensures whole { IfOk result (λ found. IfSome found (λ bound. bound ≡ continued chain.now extension)) }
    ensures none { IfOk result (λ found. found ≡ None → GoesOnIn setting.now extension.kind most labels chain.now (continued chain.now extension) → ⊥) }
{
    match setting {
        Setting::Alone => extended(alloc, chain, extension, most, labels),
        Setting::Given(input) => extended_given(alloc, chain, extension, input, most, labels),
    }
}

/// A bound that is taken, as it is: it goes on from itself, with any number of steps and labels. Its cost is that of `check` or `given`.
pub fn repeated_in(
    alloc: Global,
    setting: &Setting,
    bound: &Certificate,
    most: u8,
    labels: u8,
) -> Result<Certificate, NoMemory>
    requires { IsTakenIn setting.now bound.now }
    ensures goes_on { IfOk result (GoesOnIn setting.now bound.now.kind most labels bound.now) }
    ensures same { IfOk result (λ certificate. certificate ≡ bound.now) }
{
    over_problems(bound);
    let _input = setting.input();
    let extension = Extension {
        kind: bound.kind(),
        back: bound.back(),
        steps: Vec::new(alloc),
        renaming: Vec::from_slice(alloc, bound.renaming())?,
    };
    match extended_in(alloc, setting, bound, extension, most, labels)? {
        Some(certificate) => Ok(certificate),
        None => unreachable!(),
    }
}

/// A bound that `given` accepts goes on from itself.
pub fn taken_law()
    ensures { TakenLaw }
{}
