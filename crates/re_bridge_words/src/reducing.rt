//! What the word `reduce` answers.
ghost use Rattle.re_bridge.specs.Reductions.{reduced_of};
ghost use Rattle.re_bridge_words.specs.ReduceWords.{IsReducedProductText, IsReducedText, ReduceWorth, WorthBy, Writes, given_outcome, plain_outcome, reduce_outcome, reduced_given, reduced_outcome, reduced_product};
ghost use Rattle.re_bridge_words.specs.declared.answering.TheConstants.{MAX_TRIES};
ghost use Rattle.re_settings.specs.InputProblems.{input_fault as fault_of};
ghost use Rattle.re_frame.specs.Outcomes.{outcome_of};
ghost use Rattle.re_frame.specs.declared.status.Status.TheVariants.{Done};
ghost use Rattle.re_given.specs.Inputs.{IsInput};
ghost use Rattle.re_given_words.specs.ProductTexts.{product_outcome, product_refusal};
ghost use Rattle.re_inputs.specs.NamedProducts.{ProductRefuses, product_fault};
ghost use Rattle.re_io.specs.declared.read.TheConstants.{MAX_BYTES};
ghost use Rattle.re_problem.specs.NamedProblems.{unnamed};
ghost use Rattle.std.specs.Prelude.{◌≡◌, ◌≤◌, IfOk, None, Some, false, length, true};

use crate::answering::MAX_TRIES;
use re_bridge::{ReduceFault, reduce};
use re_chains::{has_line, problem_output};
use re_frame::{Finding, Output, fault_output, limit_of};
use re_given_words::GivenWord;
use re_inputs::{ProductFault, product};
use re_labels::NoMemory;
use re_problem::{Problem, TextFault, read_problem};
use re_settings::{GIVEN, GivenTexts, input_fault, input_fault_output, read_given};
use std::alloc::Global;

// What the word gives to a problem.
fn reduced_output(alloc: Global, problem: &Problem) -> Result<Output, NoMemory>
    ensures output { IfOk result (λ output. outcome_of output ≡ reduced_outcome (reduced_of problem.now MAX_TRIES)) }
    ensures text { IfOk result (λ output. (outcome_of output).status ≡ Done → IsReducedText problem.now output.text.items) }
{
    match reduce(alloc, problem, MAX_TRIES) {
        Ok(reduced) => problem_output(alloc, &reduced),
        Err(ReduceFault::TooManyTries) => limit_of(alloc, MAX_TRIES as usize, "tries"),
        Err(ReduceFault::NoMemory) => Err(NoMemory),
    }
}

// What `product` gives to the text.
#[tactic(auto, unfolding(re_given_words::specs::Answers::MayGive))]
fn told_by_product(alloc: Global, text: &[u8]) -> Result<Output, NoMemory>
    requires { length text.now ≤ MAX_BYTES }
    ensures { IfOk result (λ output. outcome_of output ≡ product_outcome text.now) }
{
    let word = GivenWord::Product;
    let mut bytes = Vec::new(alloc);
    bytes.extend_from_slice(text)?;
    word.find(alloc, bytes)
}

// What the word gives where there is no product, for this reason: what `product` gives to the text.
fn refusal_output(
    alloc: Global,
    text: &[u8],
    texts: &GivenTexts,
    fault: ProductFault,
) -> Result<Output, NoMemory>
    requires few { length text.now ≤ MAX_BYTES }
    requires writes { Writes text.now texts.now }
    requires judged { fault_of texts.now.problem texts.now.input ≡ None }
    requires refuses { ProductRefuses texts.now.problem texts.now.input fault }
    ensures output { IfOk result (λ output. outcome_of output ≡ product_refusal texts.now.problem texts.now.input fault) }
    ensures told { IfOk result (λ _. product_fault texts.now.problem texts.now.input ≡ Some fault) }
{
    let _texts = texts;
    match fault {
        ProductFault::NoMemory => Err(NoMemory),
        _ => told_by_product(alloc, text),
    }
}

// What the word gives to the product of the problem and the input problem that the text writes.
fn multiplied(alloc: Global, text: &[u8], texts: &GivenTexts) -> Result<Output, NoMemory>
    requires few { length text.now ≤ MAX_BYTES }
    requires writes { Writes text.now texts.now }
    requires input { IsInput (unnamed texts.now.problem) (unnamed texts.now.input) }
    requires judged { fault_of texts.now.problem texts.now.input ≡ None }
    ensures output { IfOk result (λ output. outcome_of output ≡ reduced_product texts.now.problem texts.now.input (product_fault texts.now.problem texts.now.input)) }
    ensures text { IfOk result (λ output. (outcome_of output).status ≡ Done → IsReducedProductText texts.now.problem texts.now.input output.text.items) }
{
    let _names = texts.problem.names();
    match product(alloc, &texts.problem, &texts.input) {
        Ok(made) => {
            let _labels = made.names();
            reduced_output(alloc, &made)
        }
        Err(fault) => refusal_output(alloc, text, texts, fault),
    }
}

// What the word gives to the problem and the problem behind it that the text writes.
fn texts_output(alloc: Global, text: &[u8], texts: &GivenTexts) -> Result<Output, NoMemory>
    requires few { length text.now ≤ MAX_BYTES }
    requires writes { Writes text.now texts.now }
    ensures output { IfOk result (λ output. outcome_of output ≡ reduced_given texts.now.problem texts.now.input) }
    ensures text { IfOk result (λ output. (outcome_of output).status ≡ Done → IsReducedProductText texts.now.problem texts.now.input output.text.items) }
{
    match input_fault(&texts.problem, &texts.input) {
        Some(fault) => input_fault_output(alloc, &texts.input, fault),
        None => multiplied(alloc, text, texts),
    }
}

// What the word gives to a text with a line `== given`.
#[tactic(auto, unfolding(crate::specs::ReduceWords::given_outcome))]
fn given_output(alloc: Global, text: &[u8]) -> Result<Output, NoMemory>
    requires { length text.now ≤ MAX_BYTES }
    ensures output { IfOk result (λ output. outcome_of output ≡ given_outcome text.now) }
    ensures text { IfOk result (λ output. (outcome_of output).status ≡ Done → WorthBy true text.now output.text.items) }
{
    match read_given(alloc, text) {
        Ok(texts) => texts_output(alloc, text, &texts),
        Err(TextFault::Bad(fault)) => Ok(fault_output(alloc, fault)?),
        Err(TextFault::NoMemory) => Err(NoMemory),
    }
}

// What the word gives to a text without it.
#[tactic(auto, unfolding(crate::specs::ReduceWords::plain_outcome))]
fn plain_output(alloc: Global, text: &[u8]) -> Result<Output, NoMemory>
    requires { length text.now ≤ MAX_BYTES }
    ensures output { IfOk result (λ output. outcome_of output ≡ plain_outcome text.now) }
    ensures text { IfOk result (λ output. (outcome_of output).status ≡ Done → WorthBy false text.now output.text.items) }
{
    match read_problem(alloc, text) {
        Ok(problem) => reduced_output(alloc, &problem),
        Err(TextFault::Bad(fault)) => Ok(fault_output(alloc, fault)?),
        Err(TextFault::NoMemory) => Err(NoMemory),
    }
}

/// What the word gives to a text.
#[tactic(auto, unfolding(crate::specs::ReduceWords::reduce_outcome, crate::specs::ReduceWords::ReduceWorth))]
pub(crate) fn reduce_output(alloc: Global, text: &[u8]) -> Result<Output, NoMemory>
    requires { length text.now ≤ MAX_BYTES }
    ensures output { IfOk result (λ output. outcome_of output ≡ reduce_outcome text.now) }
    ensures text { IfOk result (λ output. (outcome_of output).status ≡ Done → ReduceWorth text.now output.text.items) }
{
    if has_line(GIVEN, text) {
        given_output(alloc, text)
    } else {
        plain_output(alloc, text)
    }
}
