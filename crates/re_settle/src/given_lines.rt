//! The lines of an answer given an input problem.
ghost use Rattle.re_frame.specs.Outcomes.{outcome_of};
ghost use Rattle.re_settle.specs.GivenAnswers.{given_lines, given_text_of, law_line, settled_given_outcome, settled_given_text};
ghost use Rattle.re_settle.specs.GivenClaims.{claim_given};
ghost use Rattle.std.specs.Prelude.{◌≡◌, ◌++◌, IfOk, OnOk};

use crate::given_types::SettledGiven;
use crate::lines::push_way;
use crate::notes::push_note;
use re_evidence::{Claim, is_final, push_claim, push_counted, within};
use re_frame::{Output, done, push_words, refused};
use re_labels::{Names, NoMemory};
use re_problem::Problem;
use std::alloc::Global;

/// What is claimed.
pub(crate) fn claim_given(settled: SettledGiven) -> Claim
    ensures { result ≡ claim_given settled }
{
    match settled {
        SettledGiven::Exactly(shown) => Claim::Exactly(shown.rounds),
        SettledGiven::Never(_) => Claim::Never,
        SettledGiven::Within(more, None) => Claim::MoreThan(more.rounds),
        SettledGiven::Within(more, Some(most)) => within(more.rounds, most.rounds),
        SettledGiven::Beyond(rounds, _, None) => Claim::MoreThan(rounds),
        SettledGiven::Beyond(rounds, _, Some(most)) => within(rounds, most.rounds),
        SettledGiven::AtMost(most) => Claim::AtMost(most.rounds),
    }
}

// Appends the line that says that one round more is of no use.
fn push_law(text: &mut Vec<u8>, rounds: u8, shown: u8) -> Result<(), NoMemory>
    ensures { OnOk result (text.new.items ≡ text.old.items ++ law_line rounds shown) }
{
    push_counted(text, "law: ", rounds)?;
    push_counted(text, " hops do no more than ", shown)?;
    push_words(text, " given that input\n")
}

// Appends the lines of the words that show what is known.
fn push_lines(text: &mut Vec<u8>, names: &Names, settled: SettledGiven) -> Result<(), NoMemory>
    ensures { OnOk result (text.new.items ≡ text.old.items ++ given_lines names.now settled) }
{
    match settled {
        SettledGiven::Exactly(shown) => push_way(text, names, shown.way),
        SettledGiven::Never(way) => push_way(text, names, way),
        SettledGiven::Within(more, None) => push_way(text, names, more.way),
        SettledGiven::Within(more, Some(most)) => {
            push_way(text, names, more.way)?;
            push_way(text, names, most.way)
        }
        SettledGiven::Beyond(rounds, shown, None) => {
            push_way(text, names, shown.way)?;
            push_law(text, rounds, shown.rounds)
        }
        SettledGiven::Beyond(rounds, shown, Some(most)) => {
            push_way(text, names, shown.way)?;
            push_way(text, names, most.way)?;
            push_law(text, rounds, shown.rounds)
        }
        SettledGiven::AtMost(most) => push_way(text, names, most.way),
    }
}

// What algorithms have besides, behind a claim: that input.
fn given_text_of(claim: Claim) -> &'static str
    ensures { result.now ≡ given_text_of claim }
{
    match claim {
        Claim::Never => "and that input alone\n",
        _ => " given that input\n",
    }
}

// The text of what is known of the problem.
fn settled_text(
    alloc: Global,
    problem: &Problem,
    settled: SettledGiven,
) -> Result<Vec<u8>, NoMemory>
    ensures { IfOk result (λ text. text.items ≡ settled_given_text problem.now settled) }
{
    let mut text = Vec::new(alloc);
    let claim = claim_given(settled);
    push_claim(&mut text, problem.passive().degree(), claim)?;
    push_words(&mut text, given_text_of(claim))?;
    push_lines(&mut text, problem.names(), settled)?;
    push_note(&mut text, problem)?;
    Ok(text)
}

/// The output for what is known of the problem given an input problem.
pub(crate) fn settled_output(
    alloc: Global,
    problem: &Problem,
    settled: SettledGiven,
) -> Result<Output, NoMemory>
    ensures { IfOk result (λ output. outcome_of output ≡ settled_given_outcome problem.now settled) }
{
    let text = settled_text(alloc, problem, settled)?;
    if is_final(claim_given(settled)) {
        Ok(done(text))
    } else {
        Ok(refused(text))
    }
}
