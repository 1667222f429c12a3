//! What `rounds` counts.
ghost use Rattle.re_frame.specs.Outcomes.{outcome_of};
ghost use Rattle.re_given_words.specs.Counting.{IsBeside, IsCounted, IsLast, IsLow, MayTell, Tells, counted_outcome};
ghost use Rattle.re_labels.specs.declared.TheConstants.{MAX_LABELS};
ghost use Rattle.re_problem.specs.Derived.{derived_by};
ghost use Rattle.re_problem.specs.NamedProblems.{unnamed};
ghost use Rattle.re_problem.specs.Problems.{IsProblem as IsPlain, Problem as Plain};
ghost use Rattle.re_search.specs.Laws.{NonePassed};
ghost use Rattle.re_step.specs.Derivations.{named_derived, step_limit};
ghost use Rattle.std.specs.Fmt.{decimal};
ghost use Rattle.std.specs.Prelude.{◌≡◌, ◌≤◌, ◌<◌, ◌++◌, IfOk, IfSome, None, Some, option_map};

use crate::looking::{Ahead, look_ahead};
use re_frame::{Answer, Output, begun, done, push_number, push_words};
use re_labels::{MAX_LABELS, NoMemory};
use re_limits::limit_output;
use re_problem::{Problem, zero_round};
use re_settings::{FitAnswer, fit_answer, tries_output};
use re_step::{StepFault, StepLimit, step};
use std::alloc::Global;

/// A problem, and the input problem of which a solution is given, if any.
#[derive(Drop)]
pub struct RoundsTexts {
    pub problem: Problem,
    pub input: Option<Problem>,
}

/// What is told of a number of rounds.
#[derive(Clone, Copy, Debug, PartialEq, Eq)]
pub(crate) enum Told {
    /// They are enough.
    Enough,
    /// They are too few.
    Few,
    /// The tries don't suffice to tell.
    Untold,
}

/// How many rounds a problem takes.
#[derive(Clone, Copy, Debug, PartialEq, Eq)]
pub enum Counted {
    /// Exactly so many.
    Exactly(u8),
    /// More than so many.
    MoreThan(u8),
    /// More than so many, and the next step passes this limit.
    Passed(u8, StepLimit),
    /// Not fewer than so many, of which the tries don't suffice to tell.
    Tried(u8),
    /// More than so many, told without the problem that is derived as often, where the step behind so many passes this limit.
    Stopped(u8, u8, StepLimit),
}

/// Of how many rounds ahead of a step that passes a limit the word `rounds` asks.
pub const MAX_AHEAD: u8 = 3;

// What is told of so many rounds by the problem that is derived as often, given the input problem.
fn tell_given(
    alloc: Global,
    texts: &RoundsTexts,
    input: &Problem,
    current: &Problem,
    rounds: u8,
) -> Result<Told, NoMemory>
    requires input { texts.now.input ≡ Some input.now }
    requires beside { IsBeside (unnamed texts.now.problem) (option_map unnamed texts.now.input) }
    requires here { unnamed current.now ≡ derived_by rounds (unnamed texts.now.problem) }
    ensures { IfOk result (Tells (unnamed texts.now.problem) (option_map unnamed texts.now.input) rounds) }
{
    match fit_answer(alloc, current, input, rounds)? {
        FitAnswer::Sets(_) => Ok(Told::Enough),
        FitAnswer::Missing => Ok(Told::Few),
        FitAnswer::TooMany => Ok(Told::Untold),
    }
}

// What is told of so many rounds by the problem that is derived as often.
fn tell(alloc: Global, texts: &RoundsTexts, current: &Problem, rounds: u8) -> Result<Told, NoMemory>
    requires beside { IsBeside (unnamed texts.now.problem) (option_map unnamed texts.now.input) }
    requires here { unnamed current.now ≡ derived_by rounds (unnamed texts.now.problem) }
    ensures { IfOk result (Tells (unnamed texts.now.problem) (option_map unnamed texts.now.input) rounds) }
{
    match &texts.input {
        Some(input) => tell_given(alloc, texts, input, current, rounds),
        None => {
            if zero_round(current).is_some() {
                Ok(Told::Enough)
            } else {
                Ok(Told::Few)
            }
        }
    }
}

// The derived problem in place of the problem, or the limit that it passes.
fn derive(alloc: Global, current: &mut Problem) -> Result<Option<StepLimit>, NoMemory>
    ensures limit { IfOk result (λ passed. passed ≡ step_limit (unnamed current.old)) }
    ensures derived { IfOk result (λ passed. passed ≡ None → current.new ≡ named_derived (unnamed current.old)) }
    ensures kept { IfOk result (λ passed. IfSome passed (λ limit. current.new ≡ current.old)) }
{
    match step(alloc, current) {
        Ok(derived) => {
            *current = derived.problem;
            Ok(None)
        }
        Err(StepFault::Limit(limit)) => Ok(Some(limit)),
        Err(StepFault::NoMemory) => Err(NoMemory),
    }
}

// The same as `count_within`. The problem is that of the texts at first, and where a step passes a limit, it is the one before it.
fn count_on(
    alloc: Global,
    texts: &RoundsTexts,
    current: &mut Problem,
    most: u8,
    labels: u8,
) -> Result<Option<Counted>, NoMemory>
    requires beside { IsBeside (unnamed texts.now.problem) (option_map unnamed texts.now.input) }
    requires most { most ≤ 64 }
    requires first { current.old ≡ texts.now.problem }
    ensures counted { IfOk result (λ found. IfSome found (IsCounted (unnamed texts.now.problem) (option_map unnamed texts.now.input) most)) }
    ensures low { IfOk result (λ found. IfSome found IsLow) }
    ensures none { IfOk result (λ found. found ≡ None → labels < MAX_LABELS) }
    ensures last { IfOk result (λ found. IfSome found (IsLast (unnamed texts.now.problem) (unnamed current.new))) }
{
    for rounds in 0..most {
        match tell(alloc, texts, current, rounds)? {
            Told::Enough => return Ok(Some(Counted::Exactly(rounds))),
            Told::Untold => return Ok(Some(Counted::Tried(rounds))),
            Told::Few => {}
        }
        if current.names().len() > labels as usize {
            return Ok(None);
        }
        match derive(alloc, current)? {
            Some(limit) => return Ok(Some(Counted::Passed(rounds, limit))),
            None => {}
        }
    }
    match tell(alloc, texts, current, most)? {
        Told::Enough => Ok(Some(Counted::Exactly(most))),
        Told::Untold => Ok(Some(Counted::Tried(most))),
        Told::Few => Ok(Some(Counted::MoreThan(most))),
    }
}

/// How many rounds the problem takes, alone or given the input problem, where it takes no more than `most`. The problem, its derived
/// problem, the derived problem of that one and so on are taken in turn: the first that is solvable without communication, given the
/// input problem exchanged as often, tells the number. Where one that isn't has more than so many labels, none is derived from it, and the
/// answer is `None`. The cost is that of `re_step::step` and of the walk of `re_settings` for each; one problem is held at a time.
pub fn count_within(
    alloc: Global,
    texts: &RoundsTexts,
    most: u8,
    labels: u8,
) -> Result<Option<Counted>, NoMemory>
    requires beside { IsBeside (unnamed texts.now.problem) (option_map unnamed texts.now.input) }
    requires most { most ≤ 64 }
    ensures counted { IfOk result (λ found. IfSome found (IsCounted (unnamed texts.now.problem) (option_map unnamed texts.now.input) most)) }
    ensures low { IfOk result (λ found. IfSome found IsLow) }
    ensures none { IfOk result (λ found. found ≡ None → labels < MAX_LABELS) }
{
    let mut current = texts.problem.copy()?;
    count_on(alloc, texts, &mut current, most, labels)
}

// The problem that is derived so often, where no step on the way passes a limit.
fn derived_after(alloc: Global, problem: &Problem, steps: u8) -> Result<Problem, NoMemory>
    requires { NonePassed (unnamed problem.now) steps }
    ensures { IfOk result (λ derived. unnamed derived ≡ derived_by steps (unnamed problem.now)) }
{
    let mut current = problem.copy()?;
    for _done in 0..steps {
        match derive(alloc, &mut current)? {
            Some(_) => unreachable!(),
            None => {}
        }
    }
    Ok(current)
}

// What the problem behind so many steps tells of so many rounds ahead of a step that passes a limit, behind as many steps as there are rounds that are
// too few.
fn count_ahead(
    alloc: Global,
    current: &Problem,
    steps: u8,
    rounds: u8,
    limit: StepLimit,
    most: u8,
    ahead: u8,
) -> Result<Counted, NoMemory>
    requires behind { steps ≤ rounds }
    requires below { rounds < most }
    requires most { most ≤ 64 }
    ensures told { (problem : Plain) → IsPlain problem → unnamed current.now ≡ derived_by steps problem → IsCounted problem None most (Counted.Passed rounds limit) → IfOk result (MayTell problem None most) }
    ensures low { IfOk result IsLow }
{
    let left = (most - steps).min(ahead);
    match look_ahead(alloc, current, left)? {
        Ahead::Exactly(more) => {
            let enough = steps + more;
            Ok(Counted::Exactly(enough))
        }
        Ahead::MoreThan(more) => {
            let told = steps + more;
            let few = rounds.max(told);
            if few == most {
                return Ok(Counted::MoreThan(few));
            }
            Ok(Counted::Stopped(few, rounds, limit))
        }
    }
}

// The same where the problem behind as many steps as there are rounds tells nothing: the one before it tells, if there is one.
fn count_before(
    alloc: Global,
    problem: &Problem,
    rounds: u8,
    limit: StepLimit,
    most: u8,
    ahead: u8,
) -> Result<Counted, NoMemory>
    requires problem { IsPlain (unnamed problem.now) }
    requires most { most ≤ 64 }
    requires below { rounds < most }
    requires counted { IsCounted (unnamed problem.now) None most (Counted.Passed rounds limit) }
    ensures told { IfOk result (MayTell (unnamed problem.now) None most) }
    ensures low { IfOk result IsLow }
{
    if rounds == 0 {
        return Ok(Counted::Passed(rounds, limit));
    }
    let steps = rounds - 1;
    let before = derived_after(alloc, problem, steps)?;
    count_ahead(alloc, &before, steps, rounds, limit, most, ahead)
}

// The same where the problem behind as many steps as there are rounds has too many rows: it tells of three rounds alone, and where these aren't asked
// or nothing is told, the one before it tells.
fn count_beyond_rows(
    alloc: Global,
    problem: &Problem,
    current: &Problem,
    rounds: u8,
    limit: StepLimit,
    most: u8,
    ahead: u8,
) -> Result<Counted, NoMemory>
    requires problem { IsPlain (unnamed problem.now) }
    requires most { most ≤ 64 }
    requires below { rounds < most }
    requires here { unnamed current.now ≡ derived_by rounds (unnamed problem.now) }
    requires counted { IsCounted (unnamed problem.now) None most (Counted.Passed rounds limit) }
    ensures told { IfOk result (MayTell (unnamed problem.now) None most) }
    ensures low { IfOk result IsLow }
{
    if ahead < 3 {
        return count_before(alloc, problem, rounds, limit, most, ahead);
    }
    let counted = count_ahead(alloc, current, rounds, rounds, limit, most, ahead)?;
    if counted == Counted::Stopped(rounds, rounds, limit) {
        return count_before(alloc, problem, rounds, limit, most, ahead);
    }
    Ok(counted)
}

// How many rounds the problem takes alone, where the step behind so many passes a limit.
fn count_alone(
    alloc: Global,
    problem: &Problem,
    current: &Problem,
    rounds: u8,
    limit: StepLimit,
    most: u8,
    ahead: u8,
) -> Result<Counted, NoMemory>
    requires problem { IsPlain (unnamed problem.now) }
    requires most { most ≤ 64 }
    requires below { rounds < most }
    requires here { unnamed current.now ≡ derived_by rounds (unnamed problem.now) }
    requires counted { IsCounted (unnamed problem.now) None most (Counted.Passed rounds limit) }
    ensures told { IfOk result (MayTell (unnamed problem.now) None most) }
    ensures low { IfOk result IsLow }
{
    match limit {
        StepLimit::Rows => count_beyond_rows(alloc, problem, current, rounds, limit, most, ahead),
        StepLimit::Labels(_) | StepLimit::Configurations => {
            count_ahead(alloc, current, rounds, rounds, limit, most, ahead)
        }
    }
}

// How many rounds the problem takes, where the step behind so many passes a limit.
fn count_passed(
    alloc: Global,
    texts: &RoundsTexts,
    current: &Problem,
    rounds: u8,
    limit: StepLimit,
    most: u8,
    ahead: u8,
) -> Result<Counted, NoMemory>
    requires problem { IsPlain (unnamed texts.now.problem) }
    requires most { most ≤ 64 }
    requires below { rounds < most }
    requires here { unnamed current.now ≡ derived_by rounds (unnamed texts.now.problem) }
    requires counted { IsCounted (unnamed texts.now.problem) (option_map unnamed texts.now.input) most (Counted.Passed rounds limit) }
    ensures told { IfOk result (MayTell (unnamed texts.now.problem) (option_map unnamed texts.now.input) most) }
    ensures low { IfOk result IsLow }
{
    match &texts.input {
        Some(_) => Ok(Counted::Passed(rounds, limit)),
        None => count_alone(alloc, &texts.problem, current, rounds, limit, most, ahead),
    }
}

// How many rounds the problem takes, where it is counted up to a step that passes a limit.
fn count_behind(
    alloc: Global,
    texts: &RoundsTexts,
    current: &Problem,
    counted: Counted,
    most: u8,
    ahead: u8,
) -> Result<Counted, NoMemory>
    requires problem { IsPlain (unnamed texts.now.problem) }
    requires most { most ≤ 64 }
    requires counted { IsCounted (unnamed texts.now.problem) (option_map unnamed texts.now.input) most counted }
    requires low { IsLow counted }
    requires last { IsLast (unnamed texts.now.problem) (unnamed current.now) counted }
    ensures told { IfOk result (MayTell (unnamed texts.now.problem) (option_map unnamed texts.now.input) most) }
    ensures low { IfOk result IsLow }
{
    match counted {
        Counted::Passed(rounds, limit) => {
            count_passed(alloc, texts, current, rounds, limit, most, ahead)
        }
        _ => Ok(counted),
    }
}

/// The same, however many labels the problems have. Alone, where a step passes a limit, `re_given_words::look_ahead` goes on from the problem
/// before it, by so many rounds at most; and where that one has too many rows, from the one before that, which is derived anew: two are held then.
/// Of three rounds a problem of too many rows may tell, too; it is asked first.
pub fn count(alloc: Global, texts: &RoundsTexts, most: u8, ahead: u8) -> Result<Counted, NoMemory>
    requires beside { IsBeside (unnamed texts.now.problem) (option_map unnamed texts.now.input) }
    requires most { most ≤ 64 }
    ensures told { IfOk result (MayTell (unnamed texts.now.problem) (option_map unnamed texts.now.input) most) }
    ensures low { IfOk result IsLow }
{
    let _names = texts.problem.names();
    let mut current = texts.problem.copy()?;
    match count_on(alloc, texts, &mut current, most, MAX_LABELS)? {
        Some(counted) => count_behind(alloc, texts, &current, counted, most, ahead),
        None => unreachable!(),
    }
}

// The words with a number behind them, and other words.
fn numbered(alloc: Global, words: &str, number: u8, behind: &str) -> Result<Vec<u8>, NoMemory>
    ensures { IfOk result (λ text. text.items ≡ words.now ++ decimal number ++ behind.now) }
{
    let mut text = begun(alloc, words)?;
    push_number(alloc, &mut text, number as usize)?;
    push_words(&mut text, behind)?;
    Ok(text)
}

// The output of a limit of the step behind so many, behind what is known.
fn stopped_output(
    alloc: Global,
    rounds: u8,
    steps: u8,
    limit: StepLimit,
) -> Result<Output, NoMemory>
    requires { steps < 64 }
    ensures { IfOk result (λ output. outcome_of output ≡ counted_outcome (Counted.Stopped rounds steps limit)) }
{
    let mut text = numbered(alloc, "more than ", rounds, ", then: ")?;
    let line = limit_output(alloc, steps + 1, limit)?;
    text.extend_from_slice(line.text.as_slice())?;
    Ok(Output {
        answer: Answer::Limit,
        text,
    })
}

// The output where the tries don't suffice, behind what is known.
fn tried_output(alloc: Global, rounds: u8) -> Result<Output, NoMemory>
    ensures { IfOk result (λ output. outcome_of output ≡ counted_outcome (Counted.Tried rounds)) }
{
    if rounds == 0 {
        return tries_output(alloc);
    }
    let text = numbered(
        alloc,
        "more than ",
        rounds - 1,
        ", then: limit: more than 1000000 tries\n",
    )?;
    Ok(Output {
        answer: Answer::Limit,
        text,
    })
}

/// The output of what is counted.
pub(crate) fn counted_output(alloc: Global, counted: Counted) -> Result<Output, NoMemory>
    requires { IsLow counted }
    ensures { IfOk result (λ output. outcome_of output ≡ counted_outcome counted) }
{
    match counted {
        Counted::Exactly(rounds) => Ok(done(numbered(alloc, "exactly ", rounds, "\n")?)),
        Counted::MoreThan(rounds) => Ok(done(numbered(alloc, "more than ", rounds, "\n")?)),
        Counted::Passed(rounds, limit) => stopped_output(alloc, rounds, rounds, limit),
        Counted::Stopped(rounds, steps, limit) => stopped_output(alloc, rounds, steps, limit),
        Counted::Tried(rounds) => tried_output(alloc, rounds),
    }
}
