//! Parts of evidence that hold a bound, alone or given an input problem.
ghost use Rattle.re_cert.specs.CertificateTexts.{certificate_fault, certificate_of, text_lines};
ghost use Rattle.re_chains.specs.TwoTexts.{back_problem, front_bound, two_fault};
ghost use Rattle.re_check.specs.Verdicts.{verdict_of};
ghost use Rattle.re_evidence.specs.Colours.{IsNamedColouring};
ghost use Rattle.re_judging.specs.PartAnswers.{PartMeans};
ghost use Rattle.re_judging.specs.PartVerdicts.{IsCertificate, IsChecked, IsGiven, IsGivenBy, IsGivenFact, IsUpperFact, bound_fact};
ghost use Rattle.re_settings.specs.Verdicts.{given_outcome};
ghost use Rattle.re_settings.specs.declared.bound_words.BoundWord.TheVariants.{Given};
ghost use Rattle.std.specs.Prelude.{◌≡◌, ◌≤◌, ◌↔◌, IfOk, IsTrue, codes, length};

use crate::same::are_same;
use crate::types::{Fact, Judged, Part};
use re_cert::{Certificate, Kind, read_certificate};
use re_chains::{TwoTexts, over_problems, read_two};
use re_check::{Verdict, check};
use re_evidence::{colouring_of, few_colours};
use re_frame::{Answer, fault_output, verdict_output};
use re_io::MAX_BYTES;
use re_labels::{NoMemory, Side};
use re_problem::{Problem, TextFault};
use re_settings::{GIVEN, answer_law, given_verdict, given_verdict_output, input_fault};
use std::alloc::Global;

// What an accepted bound says.
fn bound_fact(kind: Kind, steps: u8) -> Fact
    ensures { result ≡ bound_fact kind steps }
{
    match kind {
        Kind::Lower => Fact::MoreThan(steps),
        Kind::Upper => Fact::AtMost(steps),
        Kind::Fixed => Fact::FixedPoint,
    }
}

// What comes of a certificate.
fn checked(alloc: Global, certificate: &Certificate) -> Result<Judged, NoMemory>
    ensures answer { IfOk result (IsChecked (verdict_of certificate.now) certificate.now.first) }
    ensures means { IfOk result PartMeans }
{
    over_problems(certificate);
    let _kind = certificate.kind();
    match check(certificate) {
        Verdict::Accepted { kind, steps } => Ok(Judged::Holds(Part {
            problem: certificate.first().copy()?,
            fact: bound_fact(kind, steps),
        })),
        Verdict::Refused { step, clause } => {
            Ok(Judged::Refused(verdict_output(alloc, Verdict::Refused { step, clause })?))
        }
    }
}

/// What comes of the text of a certificate.
pub(crate) fn certificate_part(alloc: Global, text: &[u8]) -> Result<Judged, NoMemory>
    requires { length text.now ≤ MAX_BYTES }
    ensures answer { IfOk result (IsCertificate (certificate_fault (text_lines text.now)) (certificate_of (text_lines text.now))) }
    ensures means { IfOk result PartMeans }
{
    match read_certificate(alloc, text) {
        Ok(certificate) => checked(alloc, &certificate),
        Err(TextFault::Bad(fault)) => Ok(Judged::Refused(fault_output(alloc, fault)?)),
        Err(TextFault::NoMemory) => Err(NoMemory),
    }
}

// Whether the input problem is the proper colouring of the side with few colours, with the names that `input` gives it.
fn is_colouring(
    alloc: Global,
    problem: &Problem,
    input: &Problem,
    side: Side,
) -> Result<bool, NoMemory>
    ensures { IfOk result (λ is. IsTrue is ↔ IsNamedColouring side problem.now input.now) }
{
    let colours = few_colours(problem, side);
    match colouring_of(alloc, problem, side, colours)? {
        Some(colouring) => are_same(alloc, input, &colouring),
        None => Ok(false),
    }
}

// What an upper bound says that holds given the input problem.
fn upper_fact(alloc: Global, problem: &Problem, input: &Problem) -> Result<Fact, NoMemory>
    ensures { IfOk result (IsUpperFact problem.now input.now) }
{
    if is_colouring(alloc, problem, input, Side::Active)? {
        return Ok(Fact::FewColours(Side::Active));
    }
    if is_colouring(alloc, problem, input, Side::Passive)? {
        return Ok(Fact::FewColours(Side::Passive));
    }
    Ok(Fact::Nothing)
}

// What a bound says that holds given the input problem.
fn given_fact(alloc: Global, bound: &Certificate, input: &Problem) -> Result<Fact, NoMemory>
    ensures { IfOk result (IsGivenFact bound.now.kind (length bound.now.steps) bound.now.first input.now) }
{
    match bound.kind() {
        Kind::Lower => Ok(Fact::MoreThan(bound.steps().len() as u8)),
        Kind::Upper => upper_fact(alloc, bound.first(), input),
        Kind::Fixed => Ok(Fact::Never),
    }
}

// What comes of a bound and an input problem.
fn given_by(alloc: Global, texts: &TwoTexts) -> Result<Judged, NoMemory>
    ensures answer { IfOk result (IsGivenBy (given_outcome Given texts.now.problem texts.now.bound) texts.now.problem texts.now.bound) }
    ensures means { IfOk result PartMeans }
{
    answer_law();
    over_problems(&texts.bound);
    let _kind = texts.bound.kind();
    let _names = texts.problem.names();
    let _fault = input_fault(texts.bound.first(), &texts.problem);
    let verdict = given_verdict(alloc, &texts.bound, &texts.problem)?;
    let output = given_verdict_output(alloc, &texts.bound, &texts.problem, &verdict)?;
    match output.answer {
        Answer::Done => Ok(Judged::Holds(Part {
            problem: texts.bound.first().copy()?,
            fact: given_fact(alloc, &texts.bound, &texts.problem)?,
        })),
        _ => Ok(Judged::Refused(output)),
    }
}

/// What comes of the text of a bound and an input problem.
pub(crate) fn given_part(alloc: Global, text: &[u8]) -> Result<Judged, NoMemory>
    requires { length text.now ≤ MAX_BYTES }
    ensures answer { IfOk result (IsGiven (two_fault (codes "given") text.now) (back_problem (codes "given") text.now) (front_bound (codes "given") text.now)) }
    ensures means { IfOk result PartMeans }
{
    match read_two(alloc, GIVEN, text) {
        Ok(texts) => given_by(alloc, &texts),
        Err(TextFault::Bad(fault)) => Ok(Judged::Refused(fault_output(alloc, fault)?)),
        Err(TextFault::NoMemory) => Err(NoMemory),
    }
}
