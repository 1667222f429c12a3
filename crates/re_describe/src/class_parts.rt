//! What the parts of evidence show, one after another.
ghost use Rattle.re_describe.specs.ClassReports.{SaysPart, SaysParts, fact_text, judged_text, kind_text};
ghost use Rattle.re_judging.specs.declared.types.Fact.TheVariants.{FewColours};
ghost use Rattle.std.specs.Prelude.{◌≡◌, ◌≤◌, ◌+◌, ◌++◌, IfOk, OnOk, length};

use crate::heads::{push_fewer, push_rounds};
use crate::pieces::push_between;
use re_frame::push_words;
use re_io::MAX_BYTES;
use re_judging::{Fact, Judged, PartKind, behind_joint, first_part, joint_at, judge_part, kind_of};
use re_labels::{NoMemory, Side};
use std::alloc::Global;

// What a part holds.
#[tactic(auto, unfolding(crate::specs::ClassReports::kind_text))]
fn kind_text(kind: PartKind) -> &'static str
    ensures { result.now ≡ kind_text kind }
{
    match kind {
        PartKind::Certificate => "A certificate that `re check` accepts: ",
        PartKind::Given => "A certificate and an input problem, which `explore given` accepts: ",
        PartKind::Graph => "A finite graph without a solution, as `explore solve` says: ",
        PartKind::Length => "The number of levels of its labels: ",
        PartKind::Flexible => "A set of its labels: ",
        PartKind::Greedy => {
            "What may stand around nodes while others put out their labels one after another: "
        }
    }
}

// What few colours of a side give.
fn push_few(text: &mut Vec<u8>, side: Side) -> Result<(), NoMemory>
    ensures { OnOk result (text.new.items ≡ text.old.items ++ fact_text (FewColours side)) }
{
    match side {
        Side::Active => push_words(
            text,
            "some number of rounds solves problem 0 given a proper colouring of its active nodes with one colour more than such a node meets others, so with identifiers it takes at most the order of $\\log^* N$ rounds (`re_classes::below_log_star_law`).\n",
        ),
        Side::Passive => push_words(
            text,
            "some number of rounds solves problem 0 given a proper colouring of its passive nodes with one colour more than such a node meets others, so with identifiers it takes at most the order of $\\log^* N$ rounds (`re_given_bounds::edge_coloured_law`).\n",
        ),
    }
}

// Appends what a fact says of the problem.
fn push_fact(text: &mut Vec<u8>, fact: Fact) -> Result<(), NoMemory>
    ensures { OnOk result (text.new.items ≡ text.old.items ++ fact_text fact) }
{
    match fact {
        Fact::MoreThan(rounds) => push_fewer(
            text,
            "with port numbers alone problem 0 isn't solvable in ",
            rounds as usize,
            ".\n",
        ),
        Fact::AtMost(rounds) => push_rounds(
            text,
            "with port numbers alone problem 0 is solvable in ",
            rounds as usize,
            ".\n",
        ),
        Fact::Never => push_words(
            text,
            "no number of rounds solves problem 0 with port numbers alone, so with identifiers it takes at least the order of $\\log^* N$ rounds (`re_classes::above_log_star_law`).\n",
        ),
        Fact::FixedPoint => push_words(
            text,
            "no number of rounds solves problem 0 with port numbers alone, and with identifiers it takes at least the order of $\\log N$ rounds (`re_given_bounds::above_log_law`).\n",
        ),
        Fact::FewColours(side) => push_few(text, side),
        Fact::Flexible => push_words(
            text,
            "it is flexible, so on finite forests problem 0 takes at most the order of $\\log N$ rounds (`re_forests::below_log_law`), and where both degrees are 2 of $\\log^* N$ (`re_forests::paths_law`).\n",
        ),
        Fact::Length(count) => push_between(
            text,
            "it is ",
            count as usize,
            ", and no set of labels is flexible, so no number of rounds solves problem 0 with port numbers alone, and with identifiers it takes at least the order of $\\log N$ rounds (`re_gap::not_flexible_law`), on finite forests that of $N$ where there is 1 (`re_forests::above_linear_law`).\n",
        ),
        Fact::NoSolution => push_words(
            text,
            "it is 0, since trimming leaves none, so finite forests of enough nodes have no solution of problem 0 (`re_forests::never_law`).\n",
        ),
        Fact::Nothing => push_words(text, "nothing follows from it without that input.\n"),
    }
}

// What a part of this number and kind shows, of which this comes.
fn judged_text(
    alloc: Global,
    number: u8,
    kind: PartKind,
    judged: &Judged,
) -> Result<Vec<u8>, NoMemory>
    ensures { IfOk result (λ text. text.items ≡ judged_text number kind judged.now) }
{
    let mut text = Vec::new(alloc);
    match judged {
        Judged::Holds(part) => {
            push_between(&mut text, "\n## Part ", number as usize, "\n\n")?;
            push_words(&mut text, kind_text(kind))?;
            push_fact(&mut text, part.fact)?;
        }
        Judged::Refused(_) => {}
    }
    Ok(text)
}

// What the part of this number shows.
fn said_part(alloc: Global, number: u8, bytes: &[u8]) -> Result<Vec<u8>, NoMemory>
    requires { length bytes.now ≤ MAX_BYTES }
    ensures { IfOk result (λ text. SaysPart number bytes.now text.items) }
{
    let judged = judge_part(alloc, bytes)?;
    judged_text(alloc, number, kind_of(bytes), &judged)
}

/// What the first part of a text shows, and at most so many more behind it, of which the first has this number.
#[tactic(auto, using(crate::proofs::PartsSaid::last_part, crate::proofs::PartsSaid::more_parts))]
pub(crate) fn said_parts(
    alloc: Global,
    more: u8,
    number: u8,
    bytes: &[u8],
) -> Result<Vec<u8>, NoMemory>
    requires few { length bytes.now ≤ MAX_BYTES }
    requires number { number + more ≤ 16 }
    ensures { IfOk result (λ text. SaysParts more number bytes.now text.items) }
{
    let said = said_part(alloc, number, first_part(bytes))?;
    if more == 0 {
        return Ok(said);
    }
    match joint_at(bytes) {
        None => Ok(said),
        Some(at) => {
            let rest = said_parts(alloc, more - 1, number + 1, behind_joint(bytes, at))?;
            let mut text = said;
            text.extend_from_slice(rest.as_slice())?;
            Ok(text)
        }
    }
}
