//! What `describe` answers to evidence of several parts, or of one that `judge` alone decides.
ghost use Rattle.re_describe.specs.ClassReports.{IsClassMarkdown, is_evidence, is_judged_alone};
ghost use Rattle.re_describe.specs.DescribeWords.{IsReport, ReportsEvidence, ReportsHeld};
ghost use Rattle.re_describe.specs.GivenReports.{is_done};
ghost use Rattle.re_frame.specs.Outcomes.{outcome_of, status_of};
ghost use Rattle.re_judging.specs.Judging.{IsJudgedFirst};
ghost use Rattle.std.specs.Prelude.{◌≡◌, ◌≤◌, IfOk, length, true};

use crate::answering::in_form;
use crate::class_reporting::class_report;
use crate::given_reporting::is_done;
use crate::words::ReportForm;
use re_frame::{Output, done};
use re_io::MAX_BYTES;
use re_judging::{Judged, PartKind, first_part, joint_at, judge_behind, judge_part, kind_of};
use re_labels::NoMemory;
use re_problem::Problem;
use std::alloc::Global;

// Whether `judge` alone decides such a part.
fn is_judged_alone(kind: PartKind) -> bool
    ensures { result ≡ is_judged_alone kind }
{
    match kind {
        PartKind::Certificate => false,
        PartKind::Given => false,
        PartKind::Graph => false,
        PartKind::Length => true,
        PartKind::Flexible => true,
        PartKind::Greedy => true,
    }
}

/// Whether a text is evidence of several parts, or of one that `judge` alone decides.
pub(crate) fn is_evidence(text: &[u8]) -> bool
    requires { length text.now ≤ MAX_BYTES }
    ensures { result ≡ is_evidence text.now }
{
    joint_at(text).is_some() || is_judged_alone(kind_of(text))
}

// The report on evidence on this problem, of which `judge` answers this.
fn class_output(
    alloc: Global,
    form: ReportForm,
    text: &[u8],
    problem: &Problem,
    told: &Output,
) -> Result<Output, NoMemory>
    requires { length text.now ≤ MAX_BYTES }
    ensures { IfOk result (λ output. IsReport form (IsClassMarkdown text.now problem.now (outcome_of told.now)) (outcome_of output)) }
{
    let markdown = class_report(alloc, text, problem, told)?;
    Ok(done(in_form(alloc, form, markdown)?))
}

// The report where this came of its first part.
#[tactic(auto, using(crate::proofs::Reported::first_holds))]
fn held_output(
    alloc: Global,
    form: ReportForm,
    text: &[u8],
    told: &Output,
    first: &Judged,
) -> Result<Output, NoMemory>
    requires few { length text.now ≤ MAX_BYTES }
    requires answer { IsJudgedFirst text.now first.now (outcome_of told.now) }
    requires done { is_done (status_of told.now.answer) ≡ true }
    ensures { IfOk result (λ output. ReportsHeld form text.now (outcome_of told.now) first.now (outcome_of output)) }
{
    match first {
        Judged::Holds(part) => class_output(alloc, form, text, &part.problem, told),
        Judged::Refused(_) => unreachable!(),
    }
}

/// What is given to evidence.
#[tactic(auto, using(crate::proofs::Reported::reports_held, crate::proofs::Reported::reports_told))]
pub(crate) fn evidence_output(
    alloc: Global,
    form: ReportForm,
    text: &[u8],
) -> Result<Output, NoMemory>
    requires { length text.now ≤ MAX_BYTES }
    ensures { IfOk result (λ output. ReportsEvidence form text.now (outcome_of output)) }
{
    let first = judge_part(alloc, first_part(text))?;
    let told = judge_behind(alloc, text, &first)?;
    if is_done(told.answer) {
        Ok(held_output(alloc, form, text, &told, &first)?)
    } else {
        Ok(told)
    }
}
