//! The printing of certificates.
ghost use Rattle.re_cert.specs.Bounds.{entries_in, has_row_maps, is_by_row as is_map_by_row, is_fixed, map_fits, map_of, problem_at};
ghost use Rattle.re_cert.specs.CertificateTexts.{certificate_fault, certificate_of, text_lines};
ghost use Rattle.re_texts.specs.PrintedCertificates.{FitBehind, IsAnyRow, IsHeld, IsHeldStep, IsLabelled, StepsFitBehind, back_section, certificate_text, entries_text, images_text, map_text, pairs_text, rows_section, step_text, steps_text};
ghost use Rattle.re_texts.specs.SetTexts.{rows_text};
ghost use Rattle.re_problem.specs.CanonicalTexts.{canonical};
ghost use Rattle.std.specs.List.{AllByRecursion, list_any};
ghost use Rattle.std.specs.Prelude.{◌≡◌, ◌<◌, ◌++◌, [], IfOk, None, OnOk, false, length, map, true};

use crate::diagrams::push_all;
use crate::rows::push_row;
use crate::{certificate_text_law, push_entry, push_header, push_image, push_pair};
use re_cert::{Certificate, Kind, LowerMap, RowImage, SetEntry, Step, StepParts, is_by_row};
use re_labels::{Names, NoMemory, Row};
use re_problem::{Problem, push_problem};
use std::alloc::Global;

// That a problem is one, and no longer than problems are.
fn limits(problem: &Problem)
    ensures { IsHeld problem.now }
{
    let _active = problem.active().len();
    let _passive = problem.passive().len();
}

// Appends the canonical text of the problem, which is one and no longer than problems are.
fn push_held(text: &mut Vec<u8>, problem: &Problem) -> Result<(), NoMemory>
    ensures text { OnOk result (text.new.items ≡ text.old.items ++ canonical problem.now) }
    ensures held { IsHeld problem.now }
{
    limits(problem);
    push_problem(text, problem)
}

// Appends the rows, one a line.
fn push_rows(text: &mut Vec<u8>, names: &Names, rows: &[Row]) -> Result<(), NoMemory>
    requires { AllByRecursion (AllByRecursion (AllByRecursion (λ label. label < length names.now))) rows.now }
    ensures text { OnOk result (text.new.items ≡ text.old.items ++ rows_text names.now rows.now) }
    ensures rows { OnOk result (AllByRecursion IsAnyRow rows.now) }
{
    for row in rows {
        let _sets = row.sets();
        push_row(text, names, row)?;
        text.push(b'\n')?;
    }
    Ok(())
}

// Appends the entries of the map of a step, one a line.
fn push_entries(
    text: &mut Vec<u8>,
    lower: bool,
    before: &Names,
    next: &Names,
    entries: &[SetEntry],
) -> Result<(), NoMemory>
    requires sets { AllByRecursion (λ entry. AllByRecursion (λ label. label < length before.now) entry.set) entries.now }
    requires labels { AllByRecursion (λ entry. entry.label < length next.now) entries.now }
    ensures text { OnOk result (text.new.items ≡ text.old.items ++ entries_text lower before.now next.now entries.now) }
    ensures sets { OnOk result (AllByRecursion IsLabelled entries.now) }
{
    for entry in entries {
        let _number = entry.set.number();
        push_entry(text, lower, before, next, entry)?;
        text.push(b'\n')?;
    }
    Ok(())
}

// Appends the images of the rows, one a line.
fn push_images(text: &mut Vec<u8>, next: &Names, images: &[RowImage]) -> Result<(), NoMemory>
    requires { AllByRecursion (AllByRecursion (λ label. label < length next.now)) images.now }
    ensures { OnOk result (text.new.items ≡ text.old.items ++ images_text next.now images.now) }
{
    for image in images {
        push_image(text, next, image)?;
        text.push(b'\n')?;
    }
    Ok(())
}

// Appends the map of a step from the first problem to the second.
fn push_lower_map(
    text: &mut Vec<u8>,
    before: &Problem,
    next: &Problem,
    map: &LowerMap,
) -> Result<(), NoMemory>
    requires { map_fits before.now next.now (map_of map.now) ≡ true }
    ensures text { OnOk result (text.new.items ≡ text.old.items ++ map_text true before.now.names next.now.names (map_of map.now)) }
    ensures sets { OnOk result (AllByRecursion IsLabelled (entries_in (map_of map.now))) }
{
    match map {
        LowerMap::BySet(entries) => push_entries(
            text,
            true,
            before.names(),
            next.names(),
            entries.as_slice(),
        ),
        LowerMap::ByRow(images) => push_images(text, next.names(), images.as_slice()),
    }
}

// Appends the map of a step.
fn push_map(text: &mut Vec<u8>, before: &Problem, step: &Step) -> Result<(), NoMemory>
    requires { map_fits before.now step.now.next step.now.map ≡ true }
    ensures text { OnOk result (text.new.items ≡ text.old.items ++ map_text step.now.lower before.now.names step.now.next.names step.now.map) }
    ensures sets { OnOk result (AllByRecursion IsLabelled (entries_in step.now.map)) }
{
    match &step.parts {
        StepParts::Lower { map, .. } => push_lower_map(text, before, &step.next, map),
        StepParts::Upper { map } => push_entries(
            text,
            false,
            before.names(),
            step.next.names(),
            map.as_slice(),
        ),
    }
}

// Appends the pairs of a renaming, one a line.
fn push_pairs(
    text: &mut Vec<u8>,
    last: &Names,
    target: &Names,
    pairs: &[(u8, u8)],
) -> Result<(), NoMemory>
    requires last { AllByRecursion (λ pair. pair.0 < length last.now) pairs.now }
    requires target { AllByRecursion (λ pair. pair.1 < length target.now) pairs.now }
    ensures { OnOk result (text.new.items ≡ text.old.items ++ pairs_text last.now target.now pairs.now) }
{
    for pair in pairs {
        push_pair(text, last, target, *pair)?;
        text.push(b'\n')?;
    }
    Ok(())
}

// Appends the rows of a lower step behind their section line.
fn push_rows_of(text: &mut Vec<u8>, before: &Problem, step: &Step) -> Result<(), NoMemory>
    requires { FitBehind before.now step.now }
    ensures text { OnOk result (text.new.items ≡ text.old.items ++ rows_section step.now.lower before.now.names step.now.rows) }
    ensures rows { OnOk result (AllByRecursion IsAnyRow step.now.rows) }
{
    match &step.parts {
        StepParts::Lower { rows, .. } => {
            push_all(text, "== rows\n")?;
            push_rows(text, before.names(), rows.as_slice())
        }
        StepParts::Upper { .. } => Ok(()),
    }
}

// That an upper step has no rows.
fn upper_rows(step: &Step)
    ensures { step.now.lower ≡ false → step.now.rows ≡ [] }
{
    let _parts = &step.parts;
}

// Appends the step from the problem before it.
fn push_step(text: &mut Vec<u8>, before: &Problem, step: &Step) -> Result<(), NoMemory>
    requires { FitBehind before.now step.now }
    ensures text { OnOk result (text.new.items ≡ text.old.items ++ step_text before.now step.now) }
    ensures held { OnOk result (IsHeldStep step.now) }
{
    upper_rows(step);
    push_all(text, "== step\n")?;
    push_held(text, step.next())?;
    push_rows_of(text, before, step)?;
    push_all(text, "== map\n")?;
    push_map(text, before, step)
}

// Appends the steps, the first from the problem before it.
fn push_steps(text: &mut Vec<u8>, before: &Problem, steps: &[Step]) -> Result<(), NoMemory>
    requires { StepsFitBehind before.now steps.now }
    ensures text { OnOk result (text.new.items ≡ text.old.items ++ steps_text before.now steps.now) }
    ensures held { OnOk result (AllByRecursion IsHeldStep steps.now) }
{
    if steps.is_empty() {
        return Ok(());
    }
    let step = &steps[0];
    push_step(text, before, step)?;
    push_steps(text, step.next(), &steps[1..])
}

// Whether the map of some step is by rows.
fn some_by_row(steps: &[Step]) -> bool
    ensures { result ≡ list_any (λ step. is_map_by_row step.map) steps.now }
{
    steps.iter().any(|step| is_by_row(step))
}

// Whether the certificate has maps by rows.
fn has_row_maps(certificate: &Certificate) -> bool
    ensures { result ≡ has_row_maps certificate.now.steps }
{
    some_by_row(certificate.steps())
}

// Whether the kind is that of fixed points.
fn goes_back(kind: Kind) -> bool
    ensures { result ≡ is_fixed kind }
{
    matches!(kind, Kind::Fixed)
}

// The problem to which a fixed point goes back.
fn target(certificate: &Certificate) -> &Problem
    requires { is_fixed certificate.now.kind ≡ true }
    ensures { result.now ≡ problem_at certificate.now certificate.now.back }
{
    certificate.problem_at(certificate.back() as usize)
}

// Appends the way back of a fixed point.
fn push_back(text: &mut Vec<u8>, certificate: &Certificate) -> Result<(), NoMemory>
    ensures { OnOk result (text.new.items ≡ text.old.items ++ back_section certificate.now) }
{
    if !goes_back(certificate.kind()) {
        return Ok(());
    }
    push_all(text, "== back\n")?;
    push_pairs(
        text,
        certificate.last().names(),
        target(certificate).names(),
        certificate.renaming(),
    )
}

/// The text of a certificate: the header, of version 2 exactly where some step has a map by rows; the canonical text of the first problem; for each step `== step`, the canonical text of its
/// problem, for a lower step `== rows` and its rows, one a line, then `== map` and the entries or images of its map, one a line; for a fixed
/// point `== back` and the pairs of its renaming, one a line; and `== end`. Sets are printed as groups, with one space between the two
/// parts of an entry; each line is ended by a line feed. The text is read as the same certificate. Costs the length of the text.
pub fn print_certificate(alloc: Global, certificate: &Certificate) -> Result<Vec<u8>, NoMemory>
    ensures text { IfOk result (λ text. text.items ≡ certificate_text certificate.now) }
    ensures right { IfOk result (λ text. certificate_fault (text_lines text.items) ≡ None) }
    ensures read { IfOk result (λ text. certificate_of (text_lines text.items) ≡ certificate.now) }
{
    certificate_text_law();
    let mut text = Vec::new(alloc);
    push_header(
        &mut text,
        has_row_maps(certificate),
        certificate.kind(),
        certificate.back(),
    )?;
    push_all(&mut text, "\n")?;
    push_held(&mut text, certificate.first())?;
    push_steps(&mut text, certificate.first(), certificate.steps())?;
    push_back(&mut text, certificate)?;
    push_all(&mut text, "== end\n")?;
    Ok(text)
}
