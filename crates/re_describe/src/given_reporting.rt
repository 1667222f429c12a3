//! The whole report on a bound given an input problem, block by block.
ghost use Rattle.re_check.specs.Verdicts.{verdict_of};
ghost use Rattle.re_describe.specs.GivenHeads.{lines_block};
ghost use Rattle.re_describe.specs.GivenReports.{IsGivenMarkdown, SaysGiven, WritesGiven, is_done, judged};
ghost use Rattle.re_describe.specs.Reports.{SaysRows};
ghost use Rattle.re_frame.specs.Outcomes.{outcome_of, status_of};
ghost use Rattle.std.specs.Prelude.{◌≡◌, IfOk, codes};

use crate::given_blocks::{GivenBlock, given_report_of};
use crate::given_heads::{
    given_check_text, given_claim, given_graph_claim, given_model, push_lines_block,
};
use crate::input_names::input_text;
use crate::problems::constraint_text;
use crate::reporting::said;
use re_cert::Certificate;
use re_check::{Verdict, check};
use re_frame::{Answer, Output, begun};
use re_labels::NoMemory;
use re_problem::Problem;
use std::alloc::Global;

/// Whether the answer is Done.
pub(crate) fn is_done(answer: Answer) -> bool
    ensures { result ≡ is_done (status_of answer) }
{
    match answer {
        Answer::Done => true,
        Answer::No => false,
        Answer::BadWords => false,
        Answer::BadInput => false,
        Answer::Limit => false,
    }
}

// The lines of `given`.
fn lines(alloc: Global, told: &Output) -> Result<Vec<u8>, NoMemory>
    ensures { IfOk result (λ text. text.items ≡ lines_block (outcome_of told.now).text) }
{
    let mut text = Vec::new(alloc);
    push_lines_block(&mut text, told.text.as_slice())?;
    Ok(text)
}

/// The active constraint of an input problem.
pub(crate) fn input_active(alloc: Global, input: &Problem) -> Result<Vec<u8>, NoMemory>
    ensures { IfOk result (λ text. SaysRows (codes "\nActive constraint of the input problem") input.now.names input.now.active text.items) }
{
    let names = input.names();
    let _labels = names.len();
    constraint_text(
        alloc,
        "\nActive constraint of the input problem",
        names,
        input.active(),
    )
}

/// The passive one.
pub(crate) fn input_passive(alloc: Global, input: &Problem) -> Result<Vec<u8>, NoMemory>
    ensures { IfOk result (λ text. SaysRows (codes "\nPassive constraint of the input problem") input.now.names input.now.passive text.items) }
{
    let names = input.names();
    let _labels = names.len();
    constraint_text(
        alloc,
        "\nPassive constraint of the input problem",
        names,
        input.passive(),
    )
}

// What a block says of a bound of which `given` answers so.
fn said_given(
    alloc: Global,
    input: &Problem,
    bound: &Certificate,
    told: &Output,
    verdict: Verdict,
    block: GivenBlock,
) -> Result<Vec<u8>, NoMemory>
    requires told { outcome_of told.now ≡ judged input.now bound.now }
    requires verdict { verdict ≡ verdict_of bound.now }
    ensures { IfOk result (λ text. SaysGiven input.now bound.now block text.items) }
{
    let holds = is_done(told.answer);
    let steps = bound.steps().len();
    let degrees = bound.first().degrees();
    match block {
        GivenBlock::Title => begun(
            alloc,
            "# Report on a certificate, given a solution of an input problem\n",
        ),
        GivenBlock::Lines => lines(alloc, told),
        GivenBlock::Claim => given_claim(alloc, holds, bound.kind(), steps),
        GivenBlock::Model => given_model(alloc, degrees.active, degrees.passive),
        GivenBlock::Graph => given_graph_claim(alloc, holds, bound.kind(), steps),
        GivenBlock::Input => input_text(alloc, input),
        GivenBlock::InputActive => input_active(alloc, input),
        GivenBlock::InputPassive => input_passive(alloc, input),
        GivenBlock::Of(block) => said(alloc, bound, verdict, block),
        GivenBlock::Check => given_check_text(alloc, holds),
    }
}

/// What the blocks say of a bound of which `given` answers so, and `check` gives this verdict, in Markdown, one behind the other.
pub fn given_markdown(
    alloc: Global,
    input: &Problem,
    bound: &Certificate,
    told: &Output,
    verdict: Verdict,
    blocks: &[GivenBlock],
) -> Result<Vec<u8>, NoMemory>
    requires told { outcome_of told.now ≡ judged input.now bound.now }
    requires verdict { verdict ≡ verdict_of bound.now }
    ensures { IfOk result (λ text. WritesGiven input.now bound.now blocks.now text.items) }
{
    let mut text = Vec::new(alloc);
    for block in blocks {
        let words = said_given(alloc, input, bound, told, verdict, *block)?;
        text.extend_from_slice(words.as_slice())?;
    }
    Ok(text)
}

/// The report on a bound given an input problem, of which `given` answers so, in Markdown: what `given_report_of` lists.
pub fn given_report(
    alloc: Global,
    input: &Problem,
    bound: &Certificate,
    told: &Output,
) -> Result<Vec<u8>, NoMemory>
    requires { outcome_of told.now ≡ judged input.now bound.now }
    ensures { IfOk result (λ text. IsGivenMarkdown input.now bound.now text.items) }
{
    let verdict = check(bound);
    let blocks = given_report_of(alloc, bound)?;
    given_markdown(alloc, input, bound, told, verdict, blocks.as_slice())
}
