//! Parts of evidence that hold multisets with which a problem behind upper steps is greedy from one side.
ghost use Rattle.re_cert.specs.Bounds.{last_problem};
ghost use Rattle.re_chains.specs.OverChains.{steps_refusal as first_refusal};
ghost use Rattle.re_chains.specs.TwoTexts.{front_chain, has_line};
ghost use Rattle.re_frame.specs.Outcomes.{outcome_of};
ghost use Rattle.re_greedy.specs.Findings.{IsListVerdict};
ghost use Rattle.re_greedy.specs.declared.finding.TheConstants.{MAX_MULTISETS};
ghost use Rattle.re_judging.specs.GreedyParts.{IsFewBy, IsGreedyBy, IsGreedyPart, IsSoundBy, IsTurnedBy, chain_front_fault, is_upper_chain, not_greedy, seen_from, turns_from, turns_on, whole_list};
ghost use Rattle.re_judging.specs.LabelLines.{Gives};
ghost use Rattle.re_judging.specs.PartAnswers.{PartMeans};
ghost use Rattle.re_problem.specs.NamedProblems.{unnamed};
ghost use Rattle.re_problem.specs.ProblemTexts.{lines_of};
ghost use Rattle.std.specs.Prelude.{◌≡◌, ◌<◌, ◌≤◌, ◌+◌, ◌++◌, ◌∷◌, [], IfOk, None, codes, length, nat_lt, true};

use crate::label_lines::{multisets_on, side_on};
use crate::types::{Fact, Judged, Part};
use re_cert::{Certificate, Kind};
use re_chains::{at_line, cut_at, over_problems, read_chain, steps_refusal};
use re_frame::{Output, begun, fault_output, limit_of, not_upper_output, refused, verdict_output};
use re_greedy::{ListVerdict, MAX_MULTISETS, Partial, judge_list, refused_list_law};
use re_inputs::exchanged;
use re_io::MAX_BYTES;
use re_labels::{NoMemory, Side};
use re_problem::{InputFault, Problem, TextFault, cut_line};
use std::alloc::Global;
use std::marker::Model;

/// The name of the line in front of the side and the multisets.
pub(crate) const GREEDY: &[u8] = b"greedy";

/// How many multisets of what a node may see are tried.
const TRIES: u32 = 1_000_000;

/// A side, and multisets of labels. Contracts see the lists of their labels.
#[derive(Drop)]
pub(crate) struct Turns {
    pub(crate) side: Side,
    pub(crate) multisets: Vec<Partial>,
}

impl Model for Turns {
    ghost use Rattle.re_judging.specs.Turns.{Turns as turns};

    ghost Value = { turns };

    ghost view = { λ t. record { side = t.side; multisets = t.multisets.items } };
}

// The degree of the nodes of the other side.
fn degree_seen(problem: &Problem, side: Side) -> u8
    ensures degree { result ≡ (seen_from side problem.now).passive.degree }
    ensures least { 2 ≤ result }
    ensures most { result ≤ 6 }
{
    match side {
        Side::Active => problem.passive().degree(),
        Side::Passive => problem.active().degree(),
    }
}

// The problem whose active nodes are those of the side.
fn seen_from(alloc: Global, problem: &Problem, side: Side) -> Result<Problem, NoMemory>
    ensures { IfOk result (λ seen. seen ≡ seen_from side problem.now) }
{
    match side {
        Side::Active => problem.copy(),
        Side::Passive => exchanged(alloc, problem),
    }
}

// The multisets of the lines behind that of the side.
fn turns_from(
    alloc: Global,
    problem: &Problem,
    number: u32,
    text: &[u8],
    side: Side,
) -> Result<Turns, TextFault>
    requires { 0 < length text.now → number + length text.now ≤ MAX_BYTES + 1 }
    ensures { Gives (λ turns. turns) (turns_from problem.now number (lines_of text.now) side) result }
{
    let degree = degree_seen(problem, side);
    match multisets_on(alloc, problem.names(), degree, number, text) {
        Ok(multisets) => Ok(Turns { side, multisets }),
        Err(fault) => Err(fault),
    }
}

// The side that the first line names, and the multisets of the lines behind it.
fn turns_on(alloc: Global, problem: &Problem, number: u32, text: &[u8]) -> Result<Turns, TextFault>
    requires { 0 < length text.now → number + length text.now ≤ MAX_BYTES + 1 }
    ensures { Gives (λ turns. turns) (turns_on problem.now number (lines_of text.now)) result }
{
    if text.is_empty() {
        return Err(TextFault::Bad(InputFault::EarlyEnd));
    }
    let (line, behind) = cut_line(text);
    match side_on(number, line) {
        Ok(side) => turns_from(alloc, problem, number + 1, behind, side),
        Err(fault) => Err(TextFault::Bad(fault)),
    }
}

// The multisets with the empty one and all passive configurations of the problem that is seen.
fn whole_list(alloc: Global, turns: &Turns, seen: &Problem) -> Result<Vec<Partial>, NoMemory>
    ensures { IfOk result (λ list. list.items ≡ [] ∷ (turns.now.multisets ++ seen.now.passive.configs)) }
{
    let mut list = Vec::new(alloc);
    list.push(Partial::from_labels(&[]))?;
    for multiset in &turns.multisets {
        list.push(multiset.copy())?;
    }
    for config in seen.passive().configs() {
        list.push(Partial::of_config(config))?;
    }
    Ok(list)
}

// The refusal where the problem isn't greedy with the multisets.
fn not_greedy(alloc: Global) -> Result<Output, NoMemory>
    ensures { IfOk result (λ output. outcome_of output ≡ not_greedy) }
{
    Ok(refused(begun(alloc, "no: not greedy with these multisets\n")?))
}

// Whether the problem is greedy from the side with the multisets, the empty one and all passive configurations.
fn list_verdict(alloc: Global, turns: &Turns, problem: &Problem) -> Result<ListVerdict, NoMemory>
    ensures { IfOk result (IsListVerdict (unnamed (seen_from turns.now.side problem.now)) (whole_list turns.now problem.now) 1000000) }
{
    let seen = seen_from(alloc, problem, turns.side)?;
    let list = whole_list(alloc, turns, &seen)?;
    let mut tries = TRIES;
    judge_list(alloc, &seen, list.as_slice(), &mut tries)
}

// What comes of multisets behind upper steps.
fn greedy_by(alloc: Global, turns: &Turns, chain: &Certificate) -> Result<Judged, NoMemory>
    requires sound { first_refusal chain.now ≡ None }
    requires upper { is_upper_chain chain.now ≡ true }
    ensures answer { IfOk result (IsGreedyBy turns.now chain.now) }
    ensures means { IfOk result PartMeans }
{
    refused_list_law();
    over_problems(chain);
    let _kind = chain.kind();
    let verdict = list_verdict(alloc, turns, chain.last())?;
    match &verdict {
        ListVerdict::Greedy => Ok(Judged::Holds(Part {
            problem: chain.first().copy()?,
            fact: Fact::FewColours(Side::Active),
        })),
        ListVerdict::NoEmpty => Ok(Judged::Refused(not_greedy(alloc)?)),
        ListVerdict::NotPassive(_) => Ok(Judged::Refused(not_greedy(alloc)?)),
        ListVerdict::Stuck(_) => Ok(Judged::Refused(not_greedy(alloc)?)),
        ListVerdict::Limit => Ok(Judged::Refused(limit_of(alloc, TRIES as usize, "tries")?)),
    }
}

// What comes of them, where only few are taken.
fn few_by(alloc: Global, turns: &Turns, chain: &Certificate) -> Result<Judged, NoMemory>
    requires sound { first_refusal chain.now ≡ None }
    requires upper { is_upper_chain chain.now ≡ true }
    ensures answer { IfOk result (IsFewBy (nat_lt MAX_MULTISETS (length turns.now.multisets)) turns.now chain.now) }
    ensures means { IfOk result PartMeans }
{
    if turns.multisets.len() > MAX_MULTISETS {
        return Ok(Judged::Refused(limit_of(alloc, MAX_MULTISETS, "multisets")?));
    }
    greedy_by(alloc, turns, chain)
}

// Whether the chain is one of upper steps.
fn is_upper_chain(chain: &Certificate) -> bool
    ensures { result ≡ is_upper_chain chain.now }
{
    match chain.kind() {
        Kind::Upper => true,
        Kind::Lower | Kind::Fixed => chain.steps().is_empty(),
    }
}

// What comes of multisets and a chain.
fn sound_by(alloc: Global, turns: &Turns, chain: &Certificate) -> Result<Judged, NoMemory>
    ensures answer { IfOk result (IsSoundBy (first_refusal chain.now) turns.now chain.now) }
    ensures means { IfOk result PartMeans }
{
    if let Some(verdict) = steps_refusal(chain) {
        return Ok(Judged::Refused(verdict_output(alloc, verdict)?));
    }
    if is_upper_chain(chain) {
        few_by(alloc, turns, chain)
    } else {
        Ok(Judged::Refused(not_upper_output(alloc)?))
    }
}

// What comes of a chain and the lines behind it, of which the first has this number.
fn turned_by(
    alloc: Global,
    chain: &Certificate,
    number: u32,
    text: &[u8],
) -> Result<Judged, NoMemory>
    requires { 0 < length text.now → number + length text.now ≤ MAX_BYTES + 1 }
    ensures answer { IfOk result (IsTurnedBy (turns_on (last_problem chain.now) number (lines_of text.now)) chain.now) }
    ensures means { IfOk result PartMeans }
{
    match turns_on(alloc, chain.last(), number, text) {
        Ok(turns) => sound_by(alloc, &turns, chain),
        Err(TextFault::Bad(fault)) => Ok(Judged::Refused(fault_output(alloc, fault)?)),
        Err(TextFault::NoMemory) => Err(NoMemory),
    }
}

/// What comes of the text of a chain, a side and multisets of labels.
pub(crate) fn greedy_part(alloc: Global, text: &[u8]) -> Result<Judged, NoMemory>
    requires few { length text.now ≤ MAX_BYTES }
    requires has { has_line (codes "greedy") text.now ≡ true }
    ensures answer { IfOk result (IsGreedyPart (chain_front_fault text.now) (front_chain (codes "greedy") text.now) text.now) }
    ensures means { IfOk result PartMeans }
{
    let Some(cut) = cut_at(GREEDY, text) else {
        unreachable!();
    };
    match read_chain(alloc, cut.front) {
        Ok(chain) => turned_by(alloc, &chain, cut.number, cut.behind),
        Err(TextFault::Bad(fault)) => Ok(Judged::Refused(fault_output(
            alloc,
            at_line(cut.number - 1, fault),
        )?)),
        Err(TextFault::NoMemory) => Err(NoMemory),
    }
}
