//! What the words answer.
ghost use Rattle.re_chains.specs.Chains.{IsSoundChain, chain_with};
ghost use Rattle.re_cert.specs.CertificateTexts.{certificate_of, text_lines};
ghost use Rattle.re_shaping.specs.Tidied.{tidied};
ghost use Rattle.re_chains.specs.ChainTexts.{text_chain};
ghost use Rattle.re_chains.specs.OverChains.{GivesSound, GivesText, certificate_outcome, over_any, over_sound};
ghost use Rattle.re_chain_words.specs.Answers.{WordWorth, begin_outcome, begun, last_outcome, shaped, shaped_outcome, tidy_outcome, word_outcome};
ghost use Rattle.re_frame.specs.Outcomes.{outcome_of};
ghost use Rattle.re_frame.specs.declared.status.Status.TheVariants.{Done};
ghost use Rattle.re_io.specs.declared.read.TheConstants.{MAX_BYTES};
ghost use Rattle.std.specs.Prelude.{◌≡◌, ◌≤◌, [], IfOk, length};

use crate::shaping::shaped_output;
use crate::words::{ChainWord, Shaping};
use re_cert::{Certificate, Kind, read_certificate};
use re_chains::{
    ChainRead, StepsRead, certificate_output, chain_kind, over_problems, problem_output, read_any,
    read_sound,
};
use re_frame::{Finding, Output, fault_output};
use re_labels::NoMemory;
use re_problem::{Problem, TextFault, read_problem};
use re_shaping::tidy;
use std::alloc::Global;

// The chain of this kind without steps.
fn built(alloc: Global, kind: Kind, problem: Problem) -> Certificate
    ensures { result ≡ chain_with kind problem [] }
{
    match Certificate::build(
        chain_kind(kind),
        0,
        problem,
        Vec::new(alloc),
        Vec::new(alloc),
    ) {
        Some(chain) => chain,
        None => unreachable!(),
    }
}

// The output of the chain of this kind without steps.
fn begun_output(alloc: Global, kind: Kind, problem: Problem) -> Result<Output, NoMemory>
    ensures output { IfOk result (λ output. outcome_of output ≡ certificate_outcome (chain_with kind problem [])) }
    ensures text { IfOk result (λ output. GivesSound (chain_with kind problem []) (outcome_of output)) }
{
    let chain = built(alloc, kind, problem);
    let _kind = chain.kind();
    over_problems(&chain);
    certificate_output(alloc, &chain)
}

#[tactic(auto, unfolding(crate::specs::Answers::begin_outcome))]
fn begin_output(alloc: Global, kind: Kind, text: &[u8]) -> Result<Output, NoMemory>
    requires { length text.now ≤ MAX_BYTES }
    ensures output { IfOk result (λ output. outcome_of output ≡ begin_outcome kind text.now) }
    ensures text { IfOk result (λ output. GivesSound (begun kind text.now) (outcome_of output)) }
{
    match read_problem(alloc, text) {
        Ok(problem) => begun_output(alloc, kind, problem),
        Err(TextFault::Bad(fault)) => Ok(fault_output(alloc, fault)?),
        Err(TextFault::NoMemory) => Err(NoMemory),
    }
}

// The output of the last problem.
#[tactic(auto, unfolding(crate::specs::Answers::last_outcome))]
fn last_problem(alloc: Global, chain: &Certificate) -> Result<Output, NoMemory>
    ensures { IfOk result (λ output. outcome_of output ≡ last_outcome chain.now) }
{
    problem_output(alloc, chain.last())
}

fn last_output(alloc: Global, text: &[u8]) -> Result<Output, NoMemory>
    requires { length text.now ≤ MAX_BYTES }
    ensures { IfOk result (λ output. outcome_of output ≡ over_any last_outcome text.now) }
{
    match read_any(alloc, text)? {
        StepsRead::Steps(chain) => last_problem(alloc, &chain),
        StepsRead::Answered(output) => Ok(output),
    }
}

#[tactic(auto, unfolding(crate::specs::Answers::tidy_outcome))]
fn tidy_output(alloc: Global, text: &[u8]) -> Result<Output, NoMemory>
    requires { length text.now ≤ MAX_BYTES }
    ensures output { IfOk result (λ output. outcome_of output ≡ tidy_outcome text.now) }
    ensures text { IfOk result (λ output. GivesText (tidied (certificate_of (text_lines text.now))) (outcome_of output)) }
{
    match read_certificate(alloc, text) {
        Ok(certificate) => {
            let tidied = tidy(alloc, &certificate)?;
            certificate_output(alloc, &tidied)
        }
        Err(TextFault::Bad(fault)) => Ok(fault_output(alloc, fault)?),
        Err(TextFault::NoMemory) => Err(NoMemory),
    }
}

fn shape_output(alloc: Global, shaping: &Shaping, text: &[u8]) -> Result<Output, NoMemory>
    requires { length text.now ≤ MAX_BYTES }
    ensures output { IfOk result (λ output. outcome_of output ≡ over_sound (shaped_outcome shaping.now) text.now) }
    ensures text { IfOk result (λ output. GivesSound (shaped shaping.now (text_chain text.now)) (outcome_of output)) }
{
    match read_sound(alloc, text)? {
        ChainRead::Chain(chain) => shaped_output(alloc, shaping, chain.certificate()),
        ChainRead::Answered(output) => Ok(output),
    }
}

fn output_for(alloc: Global, word: &ChainWord, text: &[u8]) -> Result<Output, NoMemory>
    requires { length text.now ≤ MAX_BYTES }
    ensures output { IfOk result (λ output. outcome_of output ≡ word_outcome word.now text.now) }
    ensures text { IfOk result (λ output. (outcome_of output).status ≡ Done → WordWorth word.now text.now output.text.items) }
{
    match word {
        ChainWord::Begin(kind) => begin_output(alloc, *kind, text),
        ChainWord::Last => last_output(alloc, text),
        ChainWord::Tidy => tidy_output(alloc, text),
        ChainWord::Shape(shaping) => shape_output(alloc, shaping, text),
    }
}

impl Finding for ChainWord {
    ghost use Rattle.re_chain_words.specs.Answers.{MayGive, is_judging};

    ghost fits = { λ _. Unit {0} };

    ghost may = { MayGive };

    ghost judging = { λ word. is_judging word };

    fn find(&self, alloc: Global, text: Vec<u8>) -> Result<Output, NoMemory> {
        output_for(alloc, self, text.as_slice())
    }
}
