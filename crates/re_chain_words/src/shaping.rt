//! The words that shape the last problem of a sound chain.
ghost use Rattle.re_shaping.specs.Dropping.{dropped};
ghost use Rattle.re_shaping.specs.Merging.{merged};
ghost use Rattle.re_shaping.specs.Naming.{named};
ghost use Rattle.re_shaping.specs.declared.refusal.Refusal.{Refusal};
ghost use Rattle.re_chains.specs.Chains.{IsSoundChain};
ghost use Rattle.re_shaping.specs.Stepped.{stepped};
ghost use Rattle.re_chains.specs.OverChains.{GivesSound};
ghost use Rattle.re_chain_words.specs.Answers.{shaped, shaped_outcome, step_outcome};
ghost use Rattle.re_chain_words.specs.LabelWords.{given_text};
ghost use Rattle.re_chain_words.specs.Shapings.{drop_outcome, label_in, merge_outcome, name_outcome, refusal_line};
ghost use Rattle.re_frame.specs.Outcomes.{outcome_of, refused as refused_with};
ghost use Rattle.std.specs.Prelude.{◌≡◌, ◌++◌, IfOk, codes};

use crate::labels::{LabelWord, push_given};
use crate::words::Shaping;
use re_cert::{Certificate, MAX_STEPS};
use re_chains::{certificate_output, next_number};
use re_frame::{Output, begun, limit_of, push_words, refused};
use re_labels::NoMemory;
use re_limits::limit_output;
use re_shaping::{
    ChainFault, ChainStepFault, MergeFault, Refusal, drop_label, drop_law, merge, merge_law,
    name_label, name_law, step, step_law,
};
use std::alloc::Global;

// The label of the last problem that the word gives, or the number of labels where it gives none.
fn label_in(certificate: &Certificate, label: &LabelWord) -> u8
    ensures { result ≡ label_in certificate.now label.now }
{
    let names = certificate.last().names();
    match names.find(&label.name) {
        Some(place) => place,
        None => names.len() as u8,
    }
}

// A line that ends with a label as it was given.
fn with_label(alloc: Global, begin: &str, label: &LabelWord) -> Result<Vec<u8>, NoMemory>
    ensures { IfOk result (λ text. text.items ≡ begin.now ++ given_text label.now ++ codes "\n") }
{
    let mut text = begun(alloc, begin)?;
    push_given(&mut text, label)?;
    push_words(&mut text, "\n")?;
    Ok(text)
}

// The line of a refusal of what words ask of the first, which is this label, and the second.
fn refusal_text(
    alloc: Global,
    first: &LabelWord,
    second: &LabelWord,
    from: u8,
    refusal: Refusal,
) -> Result<Vec<u8>, NoMemory>
    ensures { IfOk result (λ text. text.items ≡ refusal_line first.now second.now from refusal) }
{
    match refusal {
        Refusal::NotLower => begun(alloc, "no: not a lower chain\n"),
        Refusal::NotUpper => begun(alloc, "no: not an upper chain\n"),
        Refusal::NoStep => begun(alloc, "no: no step\n"),
        Refusal::NotALabel(label) => {
            let label = if label == from { first } else { second };
            with_label(alloc, "no: not a label: ", label)
        }
        Refusal::Same => with_label(alloc, "no: not a label: ", first),
        Refusal::Taken => with_label(alloc, "no: taken: ", second),
    }
}

// The output of a refusal.
fn refusal_output(
    alloc: Global,
    first: &LabelWord,
    second: &LabelWord,
    from: u8,
    refusal: Refusal,
) -> Result<Output, NoMemory>
    ensures { IfOk result (λ output. outcome_of output ≡ refused_with (refusal_line first.now second.now from refusal)) }
{
    Ok(refused(refusal_text(alloc, first, second, from, refusal)?))
}

// The chain in whose last problem the first label has become the second, or, without a step, with one to the derived problem of the merged first
// problem; or why not.
#[tactic(auto, unfolding(crate::specs::Shapings::merge_outcome))]
fn merge_output(
    alloc: Global,
    chain: &Certificate,
    first: &LabelWord,
    second: &LabelWord,
) -> Result<Output, NoMemory>
    requires { IsSoundChain chain.now }
    ensures output { IfOk result (λ output. outcome_of output ≡ merge_outcome first.now second.now chain.now) }
    ensures text { IfOk result (λ output. GivesSound (merged (label_in chain.now first.now) (label_in chain.now second.now) chain.now) (outcome_of output)) }
{
    merge_law();
    let from = label_in(chain, first);
    let to = label_in(chain, second);
    match merge(alloc, chain, from, to) {
        Ok(merged) => certificate_output(alloc, &merged),
        Err(MergeFault::Refused(refusal)) => refusal_output(alloc, first, second, from, refusal),
        Err(MergeFault::Limit(passed)) => limit_output(alloc, 1, passed),
        Err(MergeFault::NoMemory) => Err(NoMemory),
    }
}

// The chain in whose last problem the label has the name, or why not.
#[tactic(auto, unfolding(crate::specs::Shapings::name_outcome))]
fn name_output(
    alloc: Global,
    chain: &Certificate,
    label: &LabelWord,
    name: &LabelWord,
) -> Result<Output, NoMemory>
    requires { IsSoundChain chain.now }
    ensures output { IfOk result (λ output. outcome_of output ≡ name_outcome label.now name.now chain.now) }
    ensures text { IfOk result (λ output. GivesSound (named (label_in chain.now label.now) name.now.name chain.now) (outcome_of output)) }
{
    name_law();
    let from = label_in(chain, label);
    let _name = name.name.text();
    match name_label(alloc, chain, from, &name.name) {
        Ok(named) => certificate_output(alloc, &named),
        Err(ChainFault::Refused(refusal)) => refusal_output(alloc, label, name, from, refusal),
        Err(ChainFault::NoMemory) => Err(NoMemory),
    }
}

// The chain whose last problem lacks the label, or why not.
#[tactic(auto, unfolding(crate::specs::Shapings::drop_outcome))]
fn drop_output(alloc: Global, chain: &Certificate, label: &LabelWord) -> Result<Output, NoMemory>
    requires { IsSoundChain chain.now }
    ensures output { IfOk result (λ output. outcome_of output ≡ drop_outcome label.now chain.now) }
    ensures text { IfOk result (λ output. GivesSound (dropped (label_in chain.now label.now) chain.now) (outcome_of output)) }
{
    drop_law();
    let from = label_in(chain, label);
    match drop_label(alloc, chain, from) {
        Ok(dropped) => certificate_output(alloc, &dropped),
        Err(ChainFault::Refused(refusal)) => refusal_output(alloc, label, label, from, refusal),
        Err(ChainFault::NoMemory) => Err(NoMemory),
    }
}

// The chain with one more step, to the derived problem, or why not.
#[tactic(auto, unfolding(crate::specs::Answers::step_outcome))]
fn step_output(alloc: Global, chain: &Certificate) -> Result<Output, NoMemory>
    requires { IsSoundChain chain.now }
    ensures output { IfOk result (λ output. outcome_of output ≡ step_outcome chain.now) }
    ensures text { IfOk result (λ output. GivesSound (stepped chain.now) (outcome_of output)) }
{
    step_law();
    match step(alloc, chain) {
        Ok(stepped) => certificate_output(alloc, &stepped),
        Err(ChainStepFault::TooManySteps) => limit_of(alloc, MAX_STEPS, "steps"),
        Err(ChainStepFault::Limit(passed)) => limit_output(alloc, next_number(chain), passed),
        Err(ChainStepFault::NoMemory) => Err(NoMemory),
    }
}

/// The sound chain, shaped, or why not.
pub(crate) fn shaped_output(
    alloc: Global,
    shaping: &Shaping,
    chain: &Certificate,
) -> Result<Output, NoMemory>
    requires { IsSoundChain chain.now }
    ensures output { IfOk result (λ output. outcome_of output ≡ shaped_outcome shaping.now chain.now) }
    ensures text { IfOk result (λ output. GivesSound (shaped shaping.now chain.now) (outcome_of output)) }
{
    match shaping {
        Shaping::Step => step_output(alloc, chain),
        Shaping::Merge(first, second) => merge_output(alloc, chain, first, second),
        Shaping::Name(label, name) => name_output(alloc, chain, label, name),
        Shaping::Drop(label) => drop_output(alloc, chain, label),
    }
}
