//! Which bounds are taken in a setting.
ghost use Rattle.re_settings.specs.Taken.{IsTaken, Refuses};
ghost use Rattle.re_settings.specs.Settings.{IsTakenIn, RefusesIn, RefusesInput, TakenAloneLaw};
ghost use Rattle.re_settings.specs.declared.setting.Setting.TheVariants.{Alone};
ghost use Rattle.re_settings.specs.declared.verdicts.GivenVerdict.TheVariants.{Accepted};
ghost use Rattle.std.specs.Prelude.{◌≡◌, ◌↔◌, IfOk, IsTrue};

use crate::faults::input_fault_output;
use crate::input_fault;
use crate::setting::Setting;
use crate::verdict_lines::given_verdict_output;
use crate::verdicts::{GivenVerdict, given_verdict};
use re_cert::Certificate;
use re_chains::LowerChain;
use re_check::{Verdict, check};
use re_frame::{Output, solvable_output};
use re_labels::NoMemory;
use re_problem::{Problem, zero_round};
use std::alloc::Global;

// Whether the verdict is that the bound holds.
fn is_accepted(verdict: &GivenVerdict) -> bool
    ensures { IsTrue result ↔ verdict.now ≡ Accepted }
{
    matches!(verdict, GivenVerdict::Accepted)
}

/// Whether `given` accepts the bound.
pub fn is_taken_given(alloc: Global, bound: &Certificate, input: &Problem) -> Result<bool, NoMemory>
    ensures { IfOk result (λ taken. IsTrue taken ↔ IsTaken input.now bound.now) }
{
    let verdict = given_verdict(alloc, bound, input)?;
    Ok(is_accepted(&verdict))
}

// Whether `check` accepts it.
fn is_taken_alone(bound: &Certificate) -> bool
    ensures { IsTrue result ↔ IsTakenIn Alone bound.now }
{
    match check(bound) {
        Verdict::Accepted { .. } => true,
        Verdict::Refused { .. } => false,
    }
}

/// Whether the bound is taken in the setting: alone where `check` accepts it, and given an input problem where `given` does. The cost is that of
/// the word.
pub fn is_taken(alloc: Global, setting: &Setting, bound: &Certificate) -> Result<bool, NoMemory>
    ensures { IfOk result (λ taken. IsTrue taken ↔ IsTakenIn setting.now bound.now) }
{
    match setting {
        Setting::Alone => Ok(is_taken_alone(bound)),
        Setting::Given(input) => is_taken_given(alloc, bound, input),
    }
}

/// The answer of `given` to the bound, where that isn't that it accepts it.
pub fn given_refusal(
    alloc: Global,
    bound: &Certificate,
    input: &Problem,
) -> Result<Option<Output>, NoMemory>
    ensures { IfOk result (Refuses input.now bound.now) }
{
    let verdict = given_verdict(alloc, bound, input)?;
    if is_accepted(&verdict) {
        return Ok(None);
    }
    Ok(Some(given_verdict_output(alloc, bound, input, &verdict)?))
}

// The line of the chain's last problem where that is solvable without communication.
fn refusal_alone(alloc: Global, chain: &LowerChain) -> Result<Option<Output>, NoMemory>
    ensures { IfOk result (RefusesIn Alone chain.now.certificate) }
{
    let last = chain.certificate.last();
    match zero_round(last) {
        Some(place) => Ok(Some(solvable_output(alloc, last, place)?)),
        None => Ok(None),
    }
}

/// What the words that go on from a chain of kind lower answer where it isn't taken as it stands: alone, the line of the first configuration by
/// which its last problem is solvable without communication; given an input problem, what `given` answers. None exactly where it is taken.
pub fn refusal_in(
    alloc: Global,
    setting: &Setting,
    chain: &LowerChain,
) -> Result<Option<Output>, NoMemory>
    ensures { IfOk result (RefusesIn setting.now chain.now.certificate) }
{
    match setting {
        Setting::Alone => refusal_alone(alloc, chain),
        Setting::Given(input) => given_refusal(alloc, &chain.certificate, input),
    }
}

/// The line where what is given is no input problem of the problem. None exactly where it is one, or nothing is given.
pub fn input_refusal_in(
    alloc: Global,
    setting: &Setting,
    problem: &Problem,
) -> Result<Option<Output>, NoMemory>
    ensures { IfOk result (RefusesInput problem.now setting.now) }
{
    let Setting::Given(input) = setting else {
        return Ok(None);
    };
    match input_fault(problem, input) {
        Some(fault) => Ok(Some(input_fault_output(alloc, input, fault)?)),
        None => Ok(None),
    }
}

/// A sound chain of kind lower is taken alone exactly where its last problem isn't solvable without communication, and one of kind upper exactly
/// where it is.
pub fn taken_alone_law()
    ensures { TakenAloneLaw }
{}
