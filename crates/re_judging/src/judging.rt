//! What `judge` answers to a text of evidence.
ghost use Rattle.re_judging.specs.Joints.{joint_at};
ghost use Rattle.re_judging.specs.Judging.{GoesOn, IsJudgedBy, IsJudgedFirst, JudgeLaw, MayJudge, claim_line, class_line, in_part, other_problem, refused_status, told};
ghost use Rattle.re_frame.specs.Outcomes.{outcome_of, status_of};
ghost use Rattle.std.specs.Prelude.{◌≡◌, ◌≤◌, ◌+◌, ◌++◌, IfOk, OnOk, length};

use crate::facts::{claim_from, class_from, nothing_known, with_fact};
use crate::joints::{behind_joint, first_part, joint_at};
use crate::parts::judge_part;
use crate::same::are_same;
use crate::types::{Judged, Known};
use crate::words::Judge;
use re_evidence::{Claim, Class, alone_text, push_claim, push_class};
use re_frame::{Answer, Finding, Output, begun, done, limit_of, push_number, push_words, refused};
use re_gap::{above_log_on_views_law, not_flexible_law};
use re_io::MAX_BYTES;
use re_labels::NoMemory;
use re_problem::Problem;
use std::alloc::Global;

/// How many parts may follow the first one.
const MORE_PARTS: u8 = 15;

// Appends the line of a claim, where there is one.
fn push_claim_line(text: &mut Vec<u8>, passive: u8, claim: Option<Claim>) -> Result<(), NoMemory>
    ensures { OnOk result (text.new.items ≡ text.old.items ++ claim_line passive claim) }
{
    match claim {
        Some(claim) => {
            push_words(text, "holds: ")?;
            push_claim(text, passive, claim)?;
            push_words(text, alone_text(claim))
        }
        None => push_words(text, ""),
    }
}

// Appends the line of a class, or that nothing follows.
fn push_class_line(text: &mut Vec<u8>, class: Option<Class>) -> Result<(), NoMemory>
    ensures { OnOk result (text.new.items ≡ text.old.items ++ class_line class) }
{
    match class {
        Some(class) => {
            push_words(text, "holds: with identifiers: ")?;
            push_class(text, class)?;
            push_words(text, "\n")
        }
        None => push_words(text, "nothing follows\n"),
    }
}

// The output of what is known of the problem.
fn told_output(alloc: Global, problem: &Problem, known: Known) -> Result<Output, NoMemory>
    ensures { IfOk result (λ output. outcome_of output ≡ told problem.now known) }
{
    let mut text = Vec::new(alloc);
    push_claim_line(&mut text, problem.passive().degree(), claim_from(known))?;
    push_class_line(&mut text, class_from(problem, known))?;
    Ok(done(text))
}

// The answer of a part that is refused.
fn refused_answer(answer: Answer) -> Answer
    ensures { status_of result ≡ refused_status (status_of answer) }
{
    match answer {
        Answer::BadInput => Answer::BadInput,
        Answer::Limit => Answer::Limit,
        Answer::Done | Answer::No | Answer::BadWords => Answer::No,
    }
}

/// The output of the part of this number that is refused.
pub(crate) fn in_part(alloc: Global, number: u8, output: &Output) -> Result<Output, NoMemory>
    ensures { IfOk result (λ given. outcome_of given ≡ in_part number (outcome_of output.now)) }
{
    let mut text = begun(alloc, "part ")?;
    push_number(alloc, &mut text, number as usize)?;
    push_words(&mut text, ": ")?;
    text.extend_from_slice(output.text.as_slice())?;
    Ok(Output {
        answer: refused_answer(output.answer),
        text,
    })
}

// The output for the part of this number that is of another problem.
fn other_output(alloc: Global, number: u8) -> Result<Output, NoMemory>
    ensures { IfOk result (λ output. outcome_of output ≡ in_part number other_problem) }
{
    let other = refused(begun(alloc, "not the problem of part 1\n")?);
    in_part(alloc, number, &other)
}

// What is answered where this comes of the part of this number, and so many more may follow.
#[cycle(parts)]
fn judged_by(
    alloc: Global,
    left: u8,
    number: u8,
    problem: &Problem,
    known: Known,
    text: &[u8],
    judged: &Judged,
) -> Result<Output, NoMemory>
    requires few { length text.now ≤ MAX_BYTES }
    requires number { number + left ≤ 16 }
    ensures { IfOk result (λ output. IsJudgedBy (GoesOn left (number + 1) problem.now text.now) number problem.now known judged.now (outcome_of output)) }
{
    match judged {
        Judged::Refused(output) => in_part(alloc, number, output),
        Judged::Holds(part) => {
            if are_same(alloc, &part.problem, problem)? {
                go_on(
                    alloc,
                    left,
                    number + 1,
                    problem,
                    text,
                    with_fact(known, part.fact),
                )
            } else {
                other_output(alloc, number)
            }
        }
    }
}

// What is answered behind the first part of a text, where so many may follow, of which the first has this number.
#[cycle(parts)]
fn go_on(
    alloc: Global,
    left: u8,
    number: u8,
    problem: &Problem,
    text: &[u8],
    known: Known,
) -> Result<Output, NoMemory>
    requires few { length text.now ≤ MAX_BYTES }
    requires number { number + left ≤ 17 }
    ensures { IfOk result (λ output. GoesOn left number problem.now text.now known (outcome_of output)) }
{
    let Some(at) = joint_at(text) else {
        return told_output(alloc, problem, known);
    };
    if left == 0 {
        return limit_of(alloc, 16, "parts");
    }
    let behind = behind_joint(text, at);
    let judged = judge_part(alloc, first_part(behind))?;
    judged_by(alloc, left - 1, number, problem, known, behind, &judged)
}

/// What `judge` answers to a text where this comes of its first part.
pub fn judge_behind(alloc: Global, text: &[u8], judged: &Judged) -> Result<Output, NoMemory>
    requires { length text.now ≤ MAX_BYTES }
    ensures { IfOk result (λ output. IsJudgedFirst text.now judged.now (outcome_of output)) }
{
    match judged {
        Judged::Refused(output) => in_part(alloc, 1, output),
        Judged::Holds(part) => {
            let known = with_fact(nothing_known(), part.fact);
            go_on(alloc, MORE_PARTS, 2, &part.problem, text, known)
        }
    }
}

/// What `judge` answers to a text of evidence: its parts are judged one after another, up to the first that is refused; and where none is, each claim
/// and class that follows from them together.
pub fn judge(alloc: Global, text: &[u8]) -> Result<Output, NoMemory>
    requires { length text.now ≤ MAX_BYTES }
    ensures { IfOk result (λ output. MayJudge text.now (outcome_of output)) }
{
    let judged = judge_part(alloc, first_part(text))?;
    judge_behind(alloc, text, &judged)
}

/// Where the answer is Done, each line is true of the problem of the first part.
pub fn judge_law()
    ensures { JudgeLaw }
{
    not_flexible_law();
    above_log_on_views_law();
}

impl Finding for Judge {
    ghost use Rattle.re_judging.specs.Judging.{MayJudge};
    ghost use Rattle.std.specs.Prelude.{true};

    ghost fits = { λ _. Unit {0} };

    ghost may = { λ _. MayJudge };

    ghost judging = { λ _. true };

    fn find(&self, alloc: Global, text: Vec<u8>) -> Result<Output, NoMemory> {
        judge(alloc, text.as_slice())
    }
}
