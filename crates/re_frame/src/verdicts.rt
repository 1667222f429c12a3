// The lines of verdicts on certificates.
ghost use Rattle.std.specs.Prelude.{◌≡◌, ◌++◌, codes, string_bytes, IfOk};
ghost use Rattle.std.specs.Fmt.{decimal};
ghost use Rattle.re_frame.specs.Check.{clause_name, is_final as is_final_clause, refused_line, verdict_line, verdict_outcome};
ghost use Rattle.re_frame.specs.Outcomes.{outcome_of};

use crate::output::Output;
use crate::status::Answer;
use re_check::{Clause, Kind, Verdict};
use std::alloc::{AllocError, Global};

fn name_of(clause: Clause) -> &'static str
    ensures { result.now ≡ clause_name clause }
{
    match clause {
        Clause::L1 => "L1",
        Clause::L2 => "L2",
        Clause::L3 => "L3",
        Clause::L4 => "L4",
        Clause::L5 => "L5",
        Clause::U1 => "U1",
        Clause::U2 => "U2",
        Clause::U3 => "U3",
        Clause::U4 => "U4",
        Clause::End => "END",
        Clause::Back => "BACK",
    }
}

fn is_final(clause: Clause) -> bool
    ensures { result ≡ is_final_clause clause }
{
    matches!(clause, Clause::End | Clause::Back)
}

fn final_line(alloc: Global, name: &str) -> Result<String, AllocError>
    ensures { IfOk result (λ text. string_bytes text ≡ codes "refused: clause " ++ name.now ++ codes "\n") }
{
    format!(in alloc; "refused: clause {name}\n")
}

fn step_line(alloc: Global, step: u8, name: &str) -> Result<String, AllocError>
    ensures { IfOk result (λ text. string_bytes text
        ≡ codes "refused: step " ++ decimal step ++ codes ", clause " ++ name.now ++ codes "\n") }
{
    let mut text = format!(in alloc; "refused: step {step}, clause ")?;
    text.push_str(name)?;
    text.push('\n')?;
    Ok(text)
}

fn refused(alloc: Global, step: u8, clause: Clause) -> Result<String, AllocError>
    ensures { IfOk result (λ text. string_bytes text ≡ refused_line step clause) }
{
    let name = name_of(clause);
    if is_final(clause) {
        final_line(alloc, name)
    } else {
        step_line(alloc, step, name)
    }
}

fn accepted(alloc: Global, kind: Kind, steps: u8) -> Result<String, AllocError>
    ensures { IfOk result (λ text. string_bytes text ≡ verdict_line (Verdict.Accepted kind steps)) }
{
    match kind {
        Kind::Lower => { format!(in alloc; "accepted: not solvable in {steps} or fewer rounds\n") }
        Kind::Upper => format!(in alloc; "accepted: solvable in {steps} rounds\n"),
        Kind::Fixed => {
            String::from_str(alloc, "accepted: not solvable in any number of rounds\n")
        }
    }
}

/// The output of a verdict.
pub fn verdict_output(alloc: Global, verdict: Verdict) -> Result<Output, AllocError>
    ensures { IfOk result (λ output. outcome_of output ≡ verdict_outcome verdict) }
{
    match verdict {
        Verdict::Accepted { kind, steps } => Ok(Output {
            answer: Answer::Done,
            text: accepted(alloc, kind, steps)?.into_bytes(),
        }),
        Verdict::Refused { step, clause } => Ok(Output {
            answer: Answer::No,
            text: refused(alloc, step, clause)?.into_bytes(),
        }),
    }
}
