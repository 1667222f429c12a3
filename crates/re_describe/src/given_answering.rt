//! What `describe` answers to a bound given an input problem.
ghost use Rattle.re_chains.specs.TwoTexts.{back_problem, front_bound, two_fault};
ghost use Rattle.re_describe.specs.DescribeWords.{IsReport, OrFault, ReportsGiven, is_judged};
ghost use Rattle.re_describe.specs.GivenReports.{IsGivenMarkdown, judged};
ghost use Rattle.re_frame.specs.Outcomes.{outcome_of, status_of};
ghost use Rattle.std.specs.Prelude.{◌≡◌, ◌≤◌, IfOk, codes, length};

use crate::answering::in_form;
use crate::given_reporting::given_report;
use crate::words::ReportForm;
use re_cert::Certificate;
use re_chains::read_two;
use re_frame::{Answer, Output, done, fault_output};
use re_io::MAX_BYTES;
use re_labels::NoMemory;
use re_problem::{Problem, TextFault};
use re_settings::{GIVEN, InputFault, given_verdict, given_verdict_output, input_fault};
use std::alloc::Global;

// What `given` answers to them.
fn judged(alloc: Global, bound: &Certificate, input: &Problem) -> Result<Output, NoMemory>
    ensures { IfOk result (λ output. outcome_of output ≡ judged input.now bound.now) }
{
    let verdict = given_verdict(alloc, bound, input)?;
    given_verdict_output(alloc, bound, input, &verdict)
}

// Whether it judges the bound by this answer: the other problem is an input problem, and the tries suffice.
fn is_judged(fault: Option<InputFault>, answer: Answer) -> bool
    ensures { result ≡ is_judged fault (status_of answer) }
{
    match (fault, answer) {
        (None, Answer::Done) => true,
        (None, Answer::No) => true,
        _ => false,
    }
}

// The report on them, where `given` answers so.
fn judged_report(
    alloc: Global,
    form: ReportForm,
    bound: &Certificate,
    input: &Problem,
    told: &Output,
) -> Result<Output, NoMemory>
    requires { outcome_of told.now ≡ judged input.now bound.now }
    ensures { IfOk result (λ output. IsReport form (IsGivenMarkdown input.now bound.now) (outcome_of output)) }
{
    let markdown = given_report(alloc, input, bound, told)?;
    Ok(done(in_form(alloc, form, markdown)?))
}

// The report on them, or what `given` answers.
fn judged_output(
    alloc: Global,
    form: ReportForm,
    bound: &Certificate,
    input: &Problem,
) -> Result<Output, NoMemory>
    ensures { IfOk result (λ output. ReportsGiven form input.now bound.now (outcome_of output)) }
{
    let told = judged(alloc, bound, input)?;
    if is_judged(input_fault(bound.first(), input), told.answer) {
        judged_report(alloc, form, bound, input, &told)
    } else {
        Ok(told)
    }
}

/// What is given to a text with a line `== given`, and without a graph.
pub(crate) fn given_output(alloc: Global, form: ReportForm, text: &[u8]) -> Result<Output, NoMemory>
    requires { length text.now ≤ MAX_BYTES }
    ensures { IfOk result (λ output. OrFault (two_fault (codes "given") text.now)
        (ReportsGiven form (back_problem (codes "given") text.now) (front_bound (codes "given") text.now) (outcome_of output)) (outcome_of output)) }
{
    match read_two(alloc, GIVEN, text) {
        Ok(texts) => judged_output(alloc, form, &texts.bound, &texts.problem),
        Err(TextFault::Bad(fault)) => Ok(fault_output(alloc, fault)?),
        Err(TextFault::NoMemory) => Err(NoMemory),
    }
}
