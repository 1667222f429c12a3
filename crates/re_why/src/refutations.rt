//! The lines that show why certificates are refused.
ghost use Rattle.re_cert.specs.Bounds.{last_problem, problem_at};
ghost use Rattle.re_why.specs.Witnesses.{IsShown};
ghost use Rattle.re_why.specs.Standing.{standing};
ghost use Rattle.re_why.specs.WitnessTexts.{refutation_line, witness_text};
ghost use Rattle.std.specs.Prelude.{◌≡◌, ◌≤◌, ◌-◌, ◌++◌, OnOk, Some, codes, length};

use crate::finding::Refutation;
use crate::lines::push_witness;
use re_cert::Certificate;
use re_check::Clause;
use re_labels::NoMemory;

// The witness of a step.
fn push_step(
    text: &mut Vec<u8>,
    certificate: &Certificate,
    refutation: &Refutation,
) -> Result<(), NoMemory>
    requires first { 1 ≤ refutation.now.step }
    requires last { refutation.now.step ≤ length certificate.now.steps }
    ensures { OnOk result (text.new.items ≡ text.old.items ++ witness_text (record { before = (problem_at certificate.now (refutation.now.step - 1)).names; next = (problem_at certificate.now refutation.now.step).names; number_before = refutation.now.step - 1; number_next = refutation.now.step }) refutation.now.witness) }
{
    let number = refutation.step as usize;
    let before = certificate.problem_at(number - 1).names();
    let next = certificate.problem_at(number).names();
    push_witness(text, before, next, number - 1, number, &refutation.witness)
}

// The witness of END.
fn push_end(
    text: &mut Vec<u8>,
    certificate: &Certificate,
    refutation: &Refutation,
) -> Result<(), NoMemory>
    ensures { OnOk result (text.new.items ≡ text.old.items ++ witness_text (record { before = (last_problem certificate.now).names; next = (last_problem certificate.now).names; number_before = refutation.now.step; number_next = refutation.now.step }) refutation.now.witness) }
{
    let number = refutation.step as usize;
    let last = certificate.last().names();
    push_witness(text, last, last, number, number, &refutation.witness)
}

// The witness of BACK.
fn push_back(
    text: &mut Vec<u8>,
    certificate: &Certificate,
    refutation: &Refutation,
) -> Result<(), NoMemory>
    ensures { OnOk result (text.new.items ≡ text.old.items ++ witness_text (record { before = (last_problem certificate.now).names; next = (problem_at certificate.now certificate.now.back).names; number_before = refutation.now.step; number_next = certificate.now.back }) refutation.now.witness) }
{
    let back = certificate.back() as usize;
    let number = refutation.step as usize;
    let last = certificate.last().names();
    let target = certificate.problem_at(back).names();
    push_witness(text, last, target, number, back, &refutation.witness)
}

// What shows that the clause fails.
fn push_shown(
    text: &mut Vec<u8>,
    certificate: &Certificate,
    refutation: &Refutation,
) -> Result<(), NoMemory>
    requires { IsShown certificate.now refutation.now.step refutation.now.clause refutation.now.witness }
    ensures { OnOk result (text.new.items ≡ text.old.items ++ witness_text (standing certificate.now refutation.now.step refutation.now.clause) refutation.now.witness) }
{
    match refutation.clause {
        Clause::End => push_end(text, certificate, refutation),
        Clause::Back => push_back(text, certificate, refutation),
        _ => push_step(text, certificate, refutation),
    }
}

/// Appends the line that shows that a clause of the certificate fails, ended by a line feed. After an error the text may have grown.
pub fn push_refutation(
    text: &mut Vec<u8>,
    certificate: &Certificate,
    refutation: &Refutation,
) -> Result<(), NoMemory>
    requires { IsShown certificate.now refutation.now.step refutation.now.clause refutation.now.witness }
    ensures { OnOk result (text.new.items ≡ text.old.items ++ refutation_line certificate.now (Some refutation.now)) }
{
    push_shown(text, certificate, refutation)?;
    Ok(text.push(b'\n')?)
}
