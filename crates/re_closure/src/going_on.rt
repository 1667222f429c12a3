//! What the word gives to a chain, in a setting.
ghost use Rattle.re_closure.specs.Closures.{HasRoom, IsClosed};
ghost use Rattle.re_closure.specs.ClosureWords.{Closes, IsJudgedFixed, MayFindWithin};
ghost use Rattle.re_frame.specs.Outcomes.{outcome_of};
ghost use Rattle.re_settings.specs.Settings.{IsTakenIn};
ghost use Rattle.std.specs.Prelude.{IfOk};

use crate::answering::stop_output;
use crate::limit_lines::{limit_output, solvable_closure};
use crate::{Closing, ClosureFault, find_closure};
use re_cert::Certificate;
use re_chains::{LowerChain, over_problems};
use re_frame::Output;
use re_given_words::taken_law;
use re_labels::NoMemory;
use re_settings::{Setting, answer_law, given_refusal, print_in, refusal_in, taken_alone_law};
use re_shaping::step_lower;
use std::alloc::Global;

/// What is said of a chain without a further step.
#[derive(Drop)]
pub(crate) enum Said {
    /// All that is to say: why the chain isn't taken; the text of the fixed point; or the line of a limit.
    Closed(Output),
    /// There is no fixed point of the closure that is taken, and why.
    Open(Output),
}

// The answer of `given` to the fixed point of the closure, where it doesn't accept it.
fn declined(
    alloc: Global,
    setting: &Setting,
    chain: &Certificate,
    fixed: &Certificate,
) -> Result<Option<Output>, NoMemory>
    requires { IsClosed chain.now fixed.now }
    ensures { IfOk result (IsJudgedFixed setting.now chain.now fixed.now) }
{
    let _chain = chain;
    let Setting::Given(input) = setting else {
        return Ok(None);
    };
    let _names = input.names();
    taken_law();
    given_refusal(alloc, fixed, input)
}

// What is said of the fixed point of the closure.
fn fixed_output(
    alloc: Global,
    setting: &Setting,
    chain: &Certificate,
    fixed: &Certificate,
) -> Result<Said, NoMemory>
    requires taken { IsTakenIn setting.now chain.now }
    requires room { HasRoom chain.now }
    requires closed { IsClosed chain.now fixed.now }
    ensures { IfOk result (Closes setting.now chain.now) }
{
    match declined(alloc, setting, chain, fixed)? {
        Some(output) => Ok(Said::Open(output)),
        None => Ok(Said::Closed(print_in(alloc, setting, fixed)?)),
    }
}

// What is said of the closure of the last problem of a chain that is taken.
fn closing_output(alloc: Global, setting: &Setting, chain: &LowerChain) -> Result<Said, NoMemory>
    requires { IsTakenIn setting.now chain.now.certificate }
    ensures { IfOk result (Closes setting.now chain.now.certificate) }
{
    let certificate = &chain.certificate;
    over_problems(certificate);
    let _kind = certificate.kind();
    let _input = setting.input();
    answer_law();
    taken_alone_law();
    match find_closure(alloc, chain) {
        Ok(Closing::Found(fixed)) => fixed_output(alloc, setting, certificate, &fixed),
        Ok(Closing::Solvable(_)) => unreachable!(),
        Ok(Closing::SolvableClosure(sets)) => {
            let output = solvable_closure(alloc, certificate.last(), sets.as_slice())?;
            Ok(Said::Open(output))
        }
        Err(ClosureFault::Limit(limit)) => Ok(Said::Closed(limit_output(alloc, limit)?)),
        Err(ClosureFault::NoMemory) => Err(NoMemory),
    }
}

// What is said of a chain of kind lower.
fn chain_closing(alloc: Global, setting: &Setting, chain: &LowerChain) -> Result<Said, NoMemory>
    ensures { IfOk result (Closes setting.now chain.now.certificate) }
{
    match refusal_in(alloc, setting, chain)? {
        Some(output) => Ok(Said::Closed(output)),
        None => closing_output(alloc, setting, chain),
    }
}

/// What the word gives to a chain of kind lower, which it goes on from by up to so many steps: the fixed point of the closure of its
/// last problem, or of the first of the next ones whose closure has one that is taken.
pub fn closure_output(
    alloc: Global,
    setting: &Setting,
    chain: &LowerChain,
    more: u8,
) -> Result<Output, NoMemory>
    ensures { IfOk result (λ output. MayFindWithin more setting.now chain.now.certificate (outcome_of output)) }
{
    let why = match chain_closing(alloc, setting, chain)? {
        Said::Closed(output) => return Ok(output),
        Said::Open(output) => output,
    };
    if more == 0 {
        return Ok(why);
    }
    match step_lower(alloc, chain) {
        Ok(next) => closure_output(alloc, setting, &next, more - 1),
        Err(fault) => stop_output(alloc, chain.certificate.steps().len() as u8 + 1, fault),
    }
}
