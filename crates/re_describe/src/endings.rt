//! The way back of a fixed point, and what is the same in each report: how constraints are written, and how to check a certificate.
ghost use Rattle.re_describe.specs.Reports.{back_text, back_title, check_text, exit_code, notation_text, pair_with, pairs_text, step_text};
ghost use Rattle.std.specs.Prelude.{◌≡◌, ◌++◌, IfOk, OnOk, flat_map};

use crate::pieces::{index_of, push_between, push_count, push_shown};
use crate::problems::problem_of;
use re_cert::Certificate;
use re_check::Verdict;
use re_frame::{begun, push_words};
use re_labels::{Names, NoMemory};
use std::alloc::Global;

/// How constraints and labels are written.
pub(crate) fn notation_text(alloc: Global) -> Result<Vec<u8>, NoMemory>
    ensures { IfOk result (λ text. text.items ≡ notation_text) }
{
    begun(
        alloc,
        "\n## Notation\n\nA line of a constraint is a row of sets of labels, one for each edge of a node; `[AB]` is the set of `A` and `B`, and `A^2` stands for `A A`. Each choice of one label of each set is a configuration, and the lines of a constraint have all its configurations and no others. Labels of different problems have nothing to do with each other, also where they have one name: in steps `A_2` is the label `A` of problem 2. A label of a problem behind a step stands for a set of labels of the problem before: `<A_1,B_1>` is the set of all labels that are at least as strong as `A` or `B` around passive nodes of problem 1, `[A_1 B_1]` that of `A` and `B` alone. Where several sets became one label, it is merged.\n",
    )
}

// The exit code of `check`.
fn exit_code(verdict: Verdict) -> &'static str
    ensures { result.now ≡ exit_code verdict }
{
    match verdict {
        Verdict::Accepted { .. } => "0",
        Verdict::Refused { .. } => "1",
    }
}

/// How to check the certificate.
pub(crate) fn check_text(alloc: Global, verdict: Verdict) -> Result<Vec<u8>, NoMemory>
    ensures { IfOk result (λ text. text.items ≡ check_text verdict) }
{
    let mut text = begun(
        alloc,
        "\n## How to check it\n\nThat problem 0 is the problem that is meant is for the reader to see. Each step and the end can be checked by hand, by the clauses that docs/DEFINITIONS.md of the repository `re` states; or by `re check < FILE`, where FILE holds the certificate, which prints the line at the top of this report and ends with exit status ",
    )?;
    push_words(&mut text, exit_code(verdict))?;
    push_words(
        &mut text,
        ". That it accepts exactly what meets these clauses, and that an accepted certificate means what the claim above says, is proved of its source by machine. Of a problem text `explore begin lower` gives the certificate.\n",
    )?;
    Ok(text)
}

/// The title of the step of this number.
pub(crate) fn step_text(alloc: Global, number: u8) -> Result<Vec<u8>, NoMemory>
    ensures { IfOk result (λ text. text.items ≡ step_text number) }
{
    let mut text = Vec::new(alloc);
    push_count(&mut text, "\n## Step ", number as usize)?;
    push_count(
        &mut text,
        ", from problem ",
        number.saturating_sub(1) as usize,
    )?;
    push_between(&mut text, " to problem ", number as usize, "\n")?;
    Ok(text)
}

// Appends a label of the last problem, and what it becomes, as a line that stands as it is.
fn push_pair(
    text: &mut Vec<u8>,
    last: &Names,
    last_index: &[u8],
    target: &Names,
    target_index: &[u8],
    pair: (u8, u8),
) -> Result<(), NoMemory>
    ensures { OnOk result (text.new.items ≡ text.old.items ++ pair_with last.now last_index.now target.now target_index.now pair) }
{
    push_words(text, "    ")?;
    push_shown(text, last, last_index, pair.0)?;
    push_words(text, " becomes ")?;
    push_shown(text, target, target_index, pair.1)?;
    push_words(text, "\n")
}

// Appends all pairs, one a line.
fn push_pairs(
    text: &mut Vec<u8>,
    last: &Names,
    last_index: &[u8],
    target: &Names,
    target_index: &[u8],
    pairs: &[(u8, u8)],
) -> Result<(), NoMemory>
    ensures { OnOk result (text.new.items ≡ text.old.items ++ flat_map (pair_with last.now last_index.now target.now target_index.now) pairs.now) }
{
    for pair in pairs {
        push_pair(text, last, last_index, target, target_index, *pair)?;
    }
    Ok(())
}

// The title of the way back, from the problem behind so many steps.
fn back_title(alloc: Global, steps: usize, back: usize) -> Result<Vec<u8>, NoMemory>
    ensures { IfOk result (λ text. text.items ≡ back_title steps back) }
{
    let mut text = Vec::new(alloc);
    push_count(&mut text, "\n## The way back\n\nProblem ", steps)?;
    push_between(
        &mut text,
        " becomes problem ",
        back,
        " under this renaming:\n\n",
    )?;
    Ok(text)
}

// The way back from the problem behind so many steps to that of another number.
fn pairs_text(
    alloc: Global,
    steps: usize,
    last: &Names,
    back: usize,
    target: &Names,
    pairs: &[(u8, u8)],
) -> Result<Vec<u8>, NoMemory>
    ensures { IfOk result (λ text. text.items ≡ pairs_text steps last.now back target.now pairs.now) }
{
    let last_index = index_of(alloc, steps)?;
    let target_index = index_of(alloc, back)?;
    let mut text = back_title(alloc, steps, back)?;
    push_pairs(
        &mut text,
        last,
        last_index.as_slice(),
        target,
        target_index.as_slice(),
        pairs,
    )?;
    Ok(text)
}

/// The way back: to which problem, and the renaming.
pub(crate) fn back_text(alloc: Global, certificate: &Certificate) -> Result<Vec<u8>, NoMemory>
    ensures { IfOk result (λ text. text.items ≡ back_text certificate.now) }
{
    let back = certificate.back();
    pairs_text(
        alloc,
        certificate.steps().len(),
        certificate.last().names(),
        back as usize,
        problem_of(certificate, back).names(),
        certificate.renaming(),
    )
}
