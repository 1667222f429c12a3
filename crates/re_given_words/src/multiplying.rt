//! The word `product`, and what it answers to a text.
ghost use Rattle.re_frame.specs.Outcomes.{limit as limit_with, outcome_of, refused as refused_with};
ghost use Rattle.re_given.specs.Inputs.{IsInput};
ghost use Rattle.re_given_words.specs.ProductTexts.{IsProduct, ProductMeans, labels_line, nameless_line, made_or_refused, product_answer};
ghost use Rattle.re_inputs.specs.NamedProducts.{ProductRefuses, pair_count, product_fault};
ghost use Rattle.re_io.specs.declared.read.TheConstants.{MAX_BYTES};
ghost use Rattle.re_problem.specs.NamedProblems.{unnamed};
ghost use Rattle.std.specs.Prelude.{◌≡◌, ◌≤◌, ◌<◌, ◌++◌, IfOk, codes, length};

use re_chains::problem_output;
use re_frame::{Answer, Output, begun, fault_output, push_number, push_words, refused};
use re_inputs::{ProductFault, pair_name, product};
use re_labels::{NoMemory, is_name};
use re_problem::{Problem, TextFault};
use re_settings::{GivenTexts, input_fault, input_fault_output, read_given};
use std::alloc::Global;

// The words and a name in parentheses.
fn line_with(alloc: Global, words: &str, name: &[u8]) -> Result<Vec<u8>, NoMemory>
    ensures { IfOk result (λ text. text.items ≡ words.now ++ name.now ++ codes ")\n") }
{
    let mut text = begun(alloc, words)?;
    text.extend_from_slice(name)?;
    push_words(&mut text, ")\n")?;
    Ok(text)
}

// The line of a pair without a name of its own.
fn nameless_line(
    alloc: Global,
    problem: &Problem,
    input: &Problem,
    pair: u8,
) -> Result<Vec<u8>, NoMemory>
    requires { pair < pair_count problem.now input.now }
    ensures { IfOk result (λ text. text.items ≡ nameless_line problem.now input.now pair) }
{
    let name = pair_name(alloc, problem, input, pair)?;
    if is_name(name.as_slice()) {
        line_with(alloc, "no: taken: (", name.as_slice())
    } else {
        line_with(alloc, "no: too long: (", name.as_slice())
    }
}

// The output of a limit, with its line.
fn limit_of(text: Vec<u8>) -> Output
    ensures { outcome_of result ≡ limit_with text.items }
{
    Output {
        answer: Answer::Limit,
        text,
    }
}

// The line of the number of labels.
fn labels_line(alloc: Global, count: usize) -> Result<Vec<u8>, NoMemory>
    ensures { IfOk result (λ text. text.items ≡ labels_line count) }
{
    let mut text = begun(alloc, "limit: more than 128 labels: ")?;
    push_number(alloc, &mut text, count)?;
    push_words(&mut text, "\n")?;
    Ok(text)
}

// The output for the reason for which there is no product.
fn refusal_output(
    alloc: Global,
    problem: &Problem,
    input: &Problem,
    fault: ProductFault,
) -> Result<Output, NoMemory>
    requires { ProductRefuses problem.now input.now fault }
    ensures { IfOk result (λ output. outcome_of output ≡ made_or_refused problem.now input.now (product_fault problem.now input.now)) }
{
    match fault {
        ProductFault::TooManyLabels => {
            let count = problem.names().len() * input.names().len();
            Ok(limit_of(labels_line(alloc, count)?))
        }
        ProductFault::Nameless(pair) => Ok(refused(nameless_line(alloc, problem, input, pair)?)),
        ProductFault::TooManyConfigurations => Ok(limit_of(begun(
            alloc,
            "limit: more than 1048576 configurations\n",
        )?)),
        ProductFault::NoMemory => Err(NoMemory),
    }
}

// What is given to a problem and an input problem of it.
fn multiplied(alloc: Global, problem: &Problem, input: &Problem) -> Result<Output, NoMemory>
    requires { IsInput (unnamed problem.now) (unnamed input.now) }
    ensures { IfOk result (λ output. outcome_of output ≡ made_or_refused problem.now input.now (product_fault problem.now input.now)) }
{
    match product(alloc, problem, input) {
        Ok(made) => problem_output(alloc, &made),
        Err(fault) => refusal_output(alloc, problem, input, fault),
    }
}

// What is given to a problem and a problem behind it.
fn answer_output(alloc: Global, problem: &Problem, input: &Problem) -> Result<Output, NoMemory>
    ensures { IfOk result (λ output. outcome_of output ≡ product_answer problem.now input.now) }
{
    match input_fault(problem, input) {
        Some(fault) => input_fault_output(alloc, input, fault),
        None => multiplied(alloc, problem, input),
    }
}

// The same, and what it means.
fn meant_output(alloc: Global, texts: &GivenTexts) -> Result<Output, NoMemory>
    ensures answer { IfOk result (λ output. outcome_of output ≡ product_answer texts.now.problem texts.now.input) }
    ensures means { IfOk result (λ output. ProductMeans texts.now.problem texts.now.input (outcome_of output)) }
{
    let _own = texts.problem.names();
    let _given = texts.input.names();
    answer_output(alloc, &texts.problem, &texts.input)
}

/// What `product` gives to a text.
pub(crate) fn product_output(alloc: Global, text: &[u8]) -> Result<Output, NoMemory>
    requires { length text.now ≤ MAX_BYTES }
    ensures { IfOk result (λ output. IsProduct text.now (outcome_of output)) }
{
    match read_given(alloc, text) {
        Ok(texts) => meant_output(alloc, &texts),
        Err(TextFault::Bad(fault)) => Ok(fault_output(alloc, fault)?),
        Err(TextFault::NoMemory) => Err(NoMemory),
    }
}
