//! What the words answer.
ghost use Rattle.re_chains.specs.ChainTexts.{chain_fault, text_bound};
ghost use Rattle.re_chains.specs.TwoTexts.{has_line as has_named};
ghost use Rattle.re_describe.specs.ClassReports.{is_evidence as has_evidence};
ghost use Rattle.re_describe.specs.DescribeWords.{IsReport, MayDescribe, OrFault, ReportsBy, ReportsText, written};
ghost use Rattle.re_describe.specs.Reports.{IsMarkdown};
ghost use Rattle.re_frame.specs.Outcomes.{outcome_of};
ghost use Rattle.std.specs.Prelude.{◌≡◌, ◌≤◌, IfOk, codes, length};

use crate::class_answering::{evidence_output, is_evidence};
use crate::given_answering::given_output;
use crate::graph_answering::graph_output;
use crate::group_answering::groups_output;
use crate::labelled_answering::labelled_output;
use crate::latex::in_latex;
use crate::report;
use crate::words::{DescribeWord, ReportForm};
use re_cert::Certificate;
use re_chains::{has_line, read_bound};
use re_frame::{Finding, Output, done, fault_output};
use re_io::MAX_BYTES;
use re_labels::NoMemory;
use re_problem::TextFault;
use re_settings::GIVEN;
use std::alloc::Global;

/// The name of the line in front of a graph.
pub(crate) const GRAPH: &[u8] = b"graph";

/// A text in Markdown, written in this form.
pub(crate) fn in_form(
    alloc: Global,
    form: ReportForm,
    markdown: Vec<u8>,
) -> Result<Vec<u8>, NoMemory>
    ensures { IfOk result (λ text. text.items ≡ written form markdown.items) }
{
    match form {
        ReportForm::Markdown => Ok(markdown),
        ReportForm::Latex => in_latex(alloc, markdown.as_slice()),
    }
}

// The report on a certificate or problem.
fn bound_report(alloc: Global, form: ReportForm, bound: &Certificate) -> Result<Output, NoMemory>
    ensures { IfOk result (λ output. IsReport form (IsMarkdown bound.now) (outcome_of output)) }
{
    let markdown = report(alloc, bound)?;
    Ok(done(in_form(alloc, form, markdown)?))
}

// The report on the certificate or problem of a text.
fn bound_output(alloc: Global, form: ReportForm, text: &[u8]) -> Result<Output, NoMemory>
    requires { length text.now ≤ MAX_BYTES }
    ensures { IfOk result (λ output. OrFault (chain_fault text.now) (IsReport form (IsMarkdown (text_bound text.now)) (outcome_of output)) (outcome_of output)) }
{
    match read_bound(alloc, text) {
        Ok(bound) => bound_report(alloc, form, &bound),
        Err(TextFault::Bad(fault)) => Ok(fault_output(alloc, fault)?),
        Err(TextFault::NoMemory) => Err(NoMemory),
    }
}

// The report on what a text writes.
fn report_output(alloc: Global, form: ReportForm, text: &[u8]) -> Result<Output, NoMemory>
    requires { length text.now ≤ MAX_BYTES }
    ensures { IfOk result (λ output. ReportsBy (has_named (codes "graph") text.now) (has_named (codes "given") text.now) form text.now (outcome_of output)) }
{
    match (has_line(GRAPH, text), has_line(GIVEN, text)) {
        (true, true) => labelled_output(alloc, form, text),
        (true, false) => graph_output(alloc, form, text),
        (false, true) => given_output(alloc, form, text),
        (false, false) => bound_output(alloc, form, text),
    }
}

// The report on a text, also on evidence.
fn any_report(alloc: Global, form: ReportForm, text: &[u8]) -> Result<Output, NoMemory>
    requires { length text.now ≤ MAX_BYTES }
    ensures { IfOk result (λ output. ReportsText (has_evidence text.now) form text.now (outcome_of output)) }
{
    if is_evidence(text) {
        evidence_output(alloc, form, text)
    } else {
        report_output(alloc, form, text)
    }
}

// What the word gives to a text.
#[tactic(auto, unfolding(crate::specs::DescribeWords::MayDescribe))]
fn text_output(alloc: Global, word: DescribeWord, text: &[u8]) -> Result<Output, NoMemory>
    requires { length text.now ≤ MAX_BYTES }
    ensures { IfOk result (λ output. MayDescribe word text.now (outcome_of output)) }
{
    match word {
        DescribeWord::Report(form) => any_report(alloc, form, text),
        DescribeWord::Groups => groups_output(alloc, text),
    }
}

impl Finding for DescribeWord {
    ghost use Rattle.re_describe.specs.DescribeWords.{MayDescribe, may_refuse};

    ghost fits = { λ _. Unit {0} };

    ghost may = { MayDescribe };

    ghost judging = { may_refuse };

    fn find(&self, alloc: Global, text: Vec<u8>) -> Result<Output, NoMemory> {
        text_output(alloc, *self, text.as_slice())
    }
}
