//! Words over chains: what all of them answer where the text has a fault or a step fails, and the text of a certificate as an answer.
ghost use Rattle.re_cert.specs.declared.certificate.Kind.TheVariants.{Fixed};
ghost use Rattle.re_chains.specs.OverChains.{GivesText, IsJudged, Judges, ReadsAny, ReadsSound, certificate_outcome, problem_outcome, refusal_of, steps_refusal};
ghost use Rattle.re_check.specs.Verdicts.{steps_fault};
ghost use Rattle.re_frame.specs.Outcomes.{outcome_of};
ghost use Rattle.re_frame.specs.declared.status.Status.TheVariants.{Done};
ghost use Rattle.re_io.specs.declared.read.TheConstants.{MAX_BYTES};
ghost use Rattle.re_problem.specs.CanonicalTexts.{canonical};
ghost use Rattle.std.specs.Prelude.{◌≡◌, ◌≤◌, ◌+◌, IfOk, length, option_map};

use crate::chain_text::read_chain;
use crate::chains::Chain;
use re_cert::{Certificate, MAX_STEPS, Step};
use re_check::{Verdict, step_clause};
use re_frame::{Output, done, fault_output, too_long, verdict_output};
use re_io::MAX_BYTES;
use re_labels::NoMemory;
use re_problem::{Problem, TextFault, print_problem};
use re_texts::print_certificate;
use std::alloc::Global;

/// What is read of a text for a word that takes any steps: the certificate of the chain on which the word goes on, whether its steps
/// meet their clauses or not, or the output that is the word's answer already.
#[derive(Drop)]
pub enum StepsRead {
    Steps(Certificate),
    Answered(Output),
}

/// What is read of a text for a word: the chain on which the word goes on, or the output that is its answer already.
#[derive(Drop)]
pub enum ChainRead {
    Chain(Chain),
    Answered(Output),
}

// The refusal of the first of the steps from this problem that fails a clause, numbered from here on.
fn refusal_from(before: &Problem, number: u8, steps: &[Step]) -> Option<Verdict>
    requires { number + length steps.now ≤ MAX_STEPS + 1 }
    ensures { result ≡ option_map refusal_of (steps_fault before.now number steps.now) }
{
    let [step, others @ ..] = steps else {
        return None;
    };
    if let Some(clause) = step_clause(before, step) {
        return Some(Verdict::Refused {
            step: number,
            clause,
        });
    }
    refusal_from(step.next(), number + 1, others)
}

/// The verdict of `check` on the first step that fails a clause, if any: END and BACK aren't asked for. It takes no memory, and costs
/// what `step_clause` costs at each step up to the first that fails.
pub fn steps_refusal(certificate: &Certificate) -> Option<Verdict>
    ensures { result ≡ steps_refusal certificate.now }
{
    refusal_from(certificate.first(), 1, certificate.steps())
}

/// The chain of these steps, or the verdict of `check` on the first that fails a clause. It takes no memory, and costs what
/// `steps_refusal` costs.
pub fn judged_chain(certificate: Certificate) -> Result<Chain, Verdict>
    requires { certificate.kind ≡ Fixed → ⊥ }
    ensures { IsJudged certificate result }
{
    match steps_refusal(&certificate) {
        None => Ok(Chain::new(certificate)),
        Some(verdict) => Err(verdict),
    }
}

/// The certificate of the chain that a text writes, whether its steps meet their clauses or not, or the line of the first fault of the text.
pub fn read_any(alloc: Global, text: &[u8]) -> Result<StepsRead, NoMemory>
    requires { length text.now ≤ MAX_BYTES }
    ensures { IfOk result (ReadsAny text.now) }
{
    match read_chain(alloc, text) {
        Ok(chain) => Ok(StepsRead::Steps(chain)),
        Err(TextFault::Bad(fault)) => Ok(StepsRead::Answered(fault_output(alloc, fault)?)),
        Err(TextFault::NoMemory) => Err(NoMemory),
    }
}

// The chain of these steps, or the line of `check` for the first that fails a clause.
fn judged(alloc: Global, certificate: Certificate) -> Result<ChainRead, NoMemory>
    requires { certificate.kind ≡ Fixed → ⊥ }
    ensures { IfOk result (Judges certificate) }
{
    match judged_chain(certificate) {
        Ok(chain) => Ok(ChainRead::Chain(chain)),
        Err(verdict) => Ok(ChainRead::Answered(verdict_output(alloc, verdict)?)),
    }
}

/// The chain that a text writes, where each of its steps meets its clauses; or the line of the first fault of the text, or that of
/// `check` for the first step that fails. It costs what `read_chain` and `steps_refusal` cost.
pub fn read_sound(alloc: Global, text: &[u8]) -> Result<ChainRead, NoMemory>
    requires { length text.now ≤ MAX_BYTES }
    ensures { IfOk result (ReadsSound text.now) }
{
    match read_any(alloc, text)? {
        StepsRead::Steps(chain) => judged(alloc, chain),
        StepsRead::Answered(output) => Ok(ChainRead::Answered(output)),
    }
}

/// The output that is the text of a certificate, or the limit exactly where that text is longer than `MAX_BYTES` bytes, and so would be
/// read by no word. What is put out has no fault, and is read as this certificate.
#[tactic(auto, unfolding(re_frame::specs::Outcomes::within_limit))]
pub fn certificate_output(alloc: Global, certificate: &Certificate) -> Result<Output, NoMemory>
    ensures outcome { IfOk result (λ output. outcome_of output ≡ certificate_outcome certificate.now) }
    ensures text { IfOk result (λ output. GivesText certificate.now (outcome_of output)) }
{
    let text = print_certificate(alloc, certificate)?;
    if text.len() > MAX_BYTES {
        return Ok(too_long(alloc)?);
    }
    Ok(done(text))
}

/// The output that is the canonical text of a problem, or the limit exactly where that text is longer than `MAX_BYTES` bytes, and so
/// would be read by no word.
#[tactic(auto, unfolding(re_frame::specs::Outcomes::within_limit))]
pub fn problem_output(alloc: Global, problem: &Problem) -> Result<Output, NoMemory>
    ensures outcome { IfOk result (λ output. outcome_of output ≡ problem_outcome problem.now) }
    ensures text { IfOk result (λ output. (outcome_of output).status ≡ Done → output.text.items ≡ canonical problem.now) }
{
    let text = print_problem(alloc, problem)?;
    let length = text.len();
    if length > MAX_BYTES {
        return Ok(too_long(alloc)?);
    }
    Ok(done(text))
}
