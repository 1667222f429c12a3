//! What the word answers: parts of evidence, one behind another as long as `judge` takes all of them.
ghost use Rattle.re_frame.specs.Outcomes.{outcome_of};
ghost use Rattle.re_explore.specs.Evidence.{GoesOn, IsEvidence, IsOfFirst, IsShowing, IsUnjudged, Joins, MayShow, found_part, with_joint};
ghost use Rattle.re_explore.specs.EvidenceWords.{IsEvidenceWord};
ghost use Rattle.std.specs.Prelude.{◌≡◌, ◌≤◌, IfOk, false, length, option_map, true};

use crate::evidence_coloured::coloured_text;
use crate::evidence_greedy::greedy_text;
use crate::evidence_levels::levels_part;
use crate::evidence_texts::{more_text, most_text, way_text};
use crate::evidence_words::EvidenceWord;
use re_flexible::flexibility_of;
use re_frame::{Answer, Finding, Output, begun, done, fault_output, push_words, refused, too_long};
use re_io::MAX_BYTES;
use re_judging::{Judged, are_same, first_part, judge, judge_law, judge_part};
use re_labels::NoMemory;
use re_problem::{Problem, TextFault, read_problem};
use re_settle::{Further, Settled, Shown, settle};
use std::alloc::Global;

// Whether the first part of the text holds, and is of this problem.
fn is_of_first(alloc: Global, problem: &Problem, text: &[u8]) -> Result<bool, NoMemory>
    requires { length text.now ≤ MAX_BYTES }
    ensures holds { IfOk result (λ is. is ≡ true → IsOfFirst problem.now text.now) }
    ensures none { IfOk result (λ is. is ≡ false → IsUnjudged problem.now text.now) }
{
    match judge_part(alloc, first_part(text))? {
        Judged::Holds(part) => are_same(alloc, &part.problem, problem),
        Judged::Refused(_) => Ok(false),
    }
}

// Whether the text is evidence of the problem.
fn is_evidence(alloc: Global, problem: &Problem, text: &[u8]) -> Result<bool, NoMemory>
    requires { length text.now ≤ MAX_BYTES }
    ensures holds { IfOk result (λ is. is ≡ true → IsEvidence problem.now text.now) }
    ensures none { IfOk result (λ is. is ≡ false → IsUnjudged problem.now text.now) }
{
    judge_law();
    let output = judge(alloc, text)?;
    match output.answer {
        Answer::Done => is_of_first(alloc, problem, text),
        _ => Ok(false),
    }
}

// The text with a part more.
fn joined(alloc: Global, text: &[u8], part: &[u8]) -> Result<Vec<u8>, NoMemory>
    ensures { IfOk result (λ longer. longer.items ≡ with_joint text.now part.now) }
{
    let mut longer = Vec::new(alloc);
    longer.extend_from_slice(text)?;
    push_words(&mut longer, "=====\n")?;
    longer.extend_from_slice(part)?;
    Ok(longer)
}

// The evidence with this part more, where there is one, and that is evidence.
#[tactic(auto, using(crate::proofs::Joining::joined_part, crate::proofs::Joining::long_part, crate::proofs::Joining::unjudged_part))]
fn with_part(
    alloc: Global,
    problem: &Problem,
    text: Vec<u8>,
    part: Option<Vec<u8>>,
) -> Result<Vec<u8>, NoMemory>
    requires { IsEvidence problem.now text.items }
    ensures evidence { IfOk result (λ longer. IsEvidence problem.now longer.items) }
    ensures joins { IfOk result (λ longer. Joins problem.now text.items (found_part (option_map (λ p. p.items) part)) longer.items) }
{
    let Some(part) = part else {
        return Ok(text);
    };
    let longer = joined(alloc, text.as_slice(), part.as_slice())?;
    if longer.len() > MAX_BYTES {
        return Ok(text);
    }
    if is_evidence(alloc, problem, longer.as_slice())? {
        Ok(longer)
    } else {
        Ok(text)
    }
}

// The evidence with what shows that it takes exactly so many rounds.
#[tactic(auto, using(crate::proofs::Joining::goes_by, crate::proofs::Joining::goes_further))]
fn with_exactly(
    alloc: Global,
    problem: &Problem,
    text: Vec<u8>,
    shown: Shown,
) -> Result<Vec<u8>, NoMemory>
    requires { IsEvidence problem.now text.items }
    ensures evidence { IfOk result (λ longer. IsEvidence problem.now longer.items) }
    ensures goes_on { IfOk result (λ longer. GoesOn problem.now text.items longer.items) }
{
    let most = most_text(alloc, problem, shown.rounds, shown.way)?;
    let text = with_part(alloc, problem, text, most)?;
    if shown.rounds == 0 {
        return Ok(text);
    }
    let more = more_text(alloc, problem, shown.rounds - 1, shown.way)?;
    with_part(alloc, problem, text, more)
}

// The evidence with two bounds.
#[tactic(auto, using(crate::proofs::Joining::goes_by, crate::proofs::Joining::goes_further))]
fn with_bounds(
    alloc: Global,
    problem: &Problem,
    text: Vec<u8>,
    more: Shown,
    most: Option<Shown>,
) -> Result<Vec<u8>, NoMemory>
    requires { IsEvidence problem.now text.items }
    ensures evidence { IfOk result (λ longer. IsEvidence problem.now longer.items) }
    ensures goes_on { IfOk result (λ longer. GoesOn problem.now text.items longer.items) }
{
    let lower = more_text(alloc, problem, more.rounds, more.way)?;
    let text = with_part(alloc, problem, text, lower)?;
    let Some(most) = most else {
        return Ok(text);
    };
    let upper = most_text(alloc, problem, most.rounds, most.way)?;
    with_part(alloc, problem, text, upper)
}

// The evidence with what shows the number of rounds.
#[tactic(auto, using(crate::proofs::Joining::goes_by, crate::proofs::Joining::goes_nowhere))]
fn with_settled(
    alloc: Global,
    problem: &Problem,
    text: Vec<u8>,
    settled: Settled,
) -> Result<Vec<u8>, NoMemory>
    requires { IsEvidence problem.now text.items }
    ensures evidence { IfOk result (λ longer. IsEvidence problem.now longer.items) }
    ensures goes_on { IfOk result (λ longer. GoesOn problem.now text.items longer.items) }
{
    match settled {
        Settled::Unsolvable => Ok(text),
        Settled::Exactly(shown) => with_exactly(alloc, problem, text, shown),
        Settled::Never(way) => {
            let part = way_text(alloc, problem, way)?;
            with_part(alloc, problem, text, part)
        }
        Settled::Within(more, most) => with_bounds(alloc, problem, text, more, most),
    }
}

// The evidence with what shows more of the class.
#[tactic(auto, using(crate::proofs::Joining::goes_by))]
fn with_further(
    alloc: Global,
    problem: &Problem,
    text: Vec<u8>,
    further: Further,
) -> Result<Vec<u8>, NoMemory>
    requires { IsEvidence problem.now text.items }
    ensures evidence { IfOk result (λ longer. IsEvidence problem.now longer.items) }
    ensures goes_on { IfOk result (λ longer. GoesOn problem.now text.items longer.items) }
{
    let part = match further {
        Further::Nothing | Further::Linear => None,
        Further::FewColours(coloured) => coloured_text(alloc, problem, coloured)?,
        Further::Greedy => greedy_text(alloc, problem)?,
        Further::FixedPoint(way) => way_text(alloc, problem, way)?,
    };
    with_part(alloc, problem, text, part)
}

// The evidence with all that is found.
#[tactic(auto, using(crate::proofs::Joining::goes_further))]
fn with_found(
    alloc: Global,
    problem: &Problem,
    text: Vec<u8>,
    times: u8,
) -> Result<Vec<u8>, NoMemory>
    requires evidence { IsEvidence problem.now text.items }
    requires times { times ≤ 64 }
    ensures evidence { IfOk result (λ longer. IsEvidence problem.now longer.items) }
    ensures goes_on { IfOk result (λ longer. GoesOn problem.now text.items longer.items) }
{
    let classified = settle(alloc, problem, times)?;
    let text = with_settled(alloc, problem, text, classified.settled)?;
    with_further(alloc, problem, text, classified.further)
}

/// What the word gives to a problem: evidence of it, which begins with the part of its levels of labels; or the limit where that part is longer than an
/// input may be, or No where `judge` doesn't take it.
pub fn evidence_of(alloc: Global, problem: &Problem, times: u8) -> Result<Output, NoMemory>
    requires { times ≤ 64 }
    ensures { IfOk result (λ output. IsShowing problem.now (outcome_of output)) }
{
    let levels = flexibility_of(problem);
    let text = levels_part(alloc, problem, &levels)?;
    if text.len() > MAX_BYTES {
        return Ok(too_long(alloc)?);
    }
    if is_evidence(alloc, problem, text.as_slice())? {
        Ok(done(with_found(alloc, problem, text, times)?))
    } else {
        Ok(refused(begun(alloc, "nothing to show\n")?))
    }
}

// What the word gives to a text.
#[tactic(auto, unfolding(crate::specs::Evidence::MayShow))]
fn text_output(alloc: Global, word: EvidenceWord, text: &[u8]) -> Result<Output, NoMemory>
    requires word { IsEvidenceWord word }
    requires few { length text.now ≤ MAX_BYTES }
    ensures { IfOk result (λ output. MayShow text.now (outcome_of output)) }
{
    match read_problem(alloc, text) {
        Ok(problem) => evidence_of(alloc, &problem, word.times),
        Err(TextFault::Bad(fault)) => Ok(fault_output(alloc, fault)?),
        Err(TextFault::NoMemory) => Err(NoMemory),
    }
}

impl Finding for EvidenceWord {
    ghost use Rattle.re_explore.specs.Evidence.{MayShow};
    ghost use Rattle.re_explore.specs.EvidenceWords.{IsEvidenceWord};
    ghost use Rattle.std.specs.Prelude.{true};

    ghost fits = { IsEvidenceWord };

    ghost may = { λ _. MayShow };

    ghost judging = { λ _. true };

    fn find(&self, alloc: Global, text: Vec<u8>) -> Result<Output, NoMemory> {
        text_output(alloc, *self, text.as_slice())
    }
}
