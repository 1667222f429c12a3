//! The word, and what it answers.
ghost use Rattle.re_cert.specs.Bounds.{Bound, last_problem};
ghost use Rattle.re_cert.specs.declared.certificate.Kind.TheVariants.{Fixed};
ghost use Rattle.re_chains.specs.HeldBounds.{held_bound};
ghost use Rattle.re_chains.specs.ChainTexts.{text_chain};
ghost use Rattle.re_chains.specs.OverChains.{IsJudged, steps_refusal};
ghost use Rattle.re_closure.specs.ClosureWords.{MayGive, MayGiveIn, MayGiveRead, MayGiveSound, closure_help, closure_with, closure_word_of, stop_outcome};
ghost use Rattle.re_closure.specs.DiagramTexts.{AreEdges, diagram_edges, diagram_fault, front_chain};
ghost use Rattle.re_settings.specs.SettingTexts.{parts_of};
ghost use Rattle.re_settings.specs.declared.setting.Setting.TheVariants.{Alone};
ghost use Rattle.re_frame.specs.Outcomes.{outcome_of};
ghost use Rattle.re_io.specs.declared.read.TheConstants.{MAX_BYTES};
ghost use Rattle.re_chains.specs.TwoTexts.{IsCut};
ghost use Rattle.std.specs.Prelude.{◌≡◌, ◌<◌, ◌≤◌, ◌+◌, ℕ, Err, IfOk, List, None, Some, codes, length, map, string_bytes};

use crate::going_on::closure_output;
use crate::limit_lines::limit_output;
use crate::raised_output::raised_output;
use crate::reading::{DiagramText, read_diagram};
use crate::types::ClosureLimit;
use re_cert::Certificate;
use re_chains::{Chain, Cut, cut_at, judged_chain};
use re_check::Verdict;
use re_frame::{Finding, Output, fault_output, not_lower_output, verdict_output};
use re_labels::NoMemory;
use re_limits::limit_output as step_limit_output;
use re_problem::{TextFault, read_number};
use re_settings::{Setting, SettingTexts, input_refusal_in, read_in};
use re_shaping::ChainStepFault;
use std::alloc::Global;

/// The most steps by which the word goes on where a closure is solvable without communication.
pub const MAX_FURTHER: u32 = 8;

// The name of the line between a chain and a diagram.
const DIAGRAM: &[u8] = b"diagram";

/// The word `closure K`. It reads a chain as a whole, and takes the time of `check` on the chain, beside that of `find_closure` for its last
/// problem and for each problem that it goes on to; with an input problem beside that of `given` for each chain and each fixed point.
#[derive(Clone, Copy, Debug, PartialEq, Eq)]
pub struct ClosureWord {
    /// By how many steps it goes on at most, where the closure of the last problem is solvable without communication.
    pub steps: u8,
}

fn closure_with(steps: Option<u32>) -> Option<ClosureWord>
    ensures { result ≡ closure_with steps }
{
    let steps = steps?;
    if steps <= MAX_FURTHER {
        Some(ClosureWord { steps: steps as u8 })
    } else {
        None
    }
}

/// The word that the words name, with its number, which is at most `MAX_FURTHER`, and 0 where none stands. None exactly where they name none.
#[tactic(auto, unfolding(crate::specs::ClosureWords::closure_word_of))]
pub fn closure_word(words: &[String]) -> Option<ClosureWord>
    ensures { result ≡ closure_word_of (map string_bytes words.now) }
{
    match words {
        [word] => {
            if "closure" == word.as_str() {
                Some(ClosureWord { steps: 0 })
            } else {
                None
            }
        }
        [word, steps] => {
            if "closure" == word.as_str() {
                closure_with(read_number(steps.as_bytes()))
            } else {
                None
            }
        }
        _ => None,
    }
}

/// The line of help.
#[tactic(auto, unfolding(crate::specs::ClosureWords::closure_help))]
pub fn closure_help() -> &'static str
    ensures { result.now ≡ closure_help }
{
    "closure, closure K: reads a chain, or one with a diagram or with a line == given and an input problem, gives the fixed point by right-closed sets that goes on from it, or from it with 1, 2, .. K steps more\n"
}

/// The output for what keeps a chain from its step of this number.
pub(crate) fn stop_output(
    alloc: Global,
    number: u8,
    fault: ChainStepFault,
) -> Result<Output, NoMemory>
    ensures told { IfOk result (λ output. outcome_of output ≡ stop_outcome number fault) }
    ensures not_memory { IfOk result (λ _. fault ≡ ChainStepFault.NoMemory → ⊥) }
{
    match fault {
        ChainStepFault::TooManySteps => limit_output(alloc, ClosureLimit::Steps),
        ChainStepFault::Limit(passed) => step_limit_output(alloc, number, passed),
        ChainStepFault::NoMemory => Err(NoMemory),
    }
}

// What the word gives to a chain that was judged.
fn chain_output(
    alloc: Global,
    setting: &Setting,
    judged: Result<Chain, Verdict>,
    more: u8,
) -> Result<Output, NoMemory>
    ensures { (given : Bound) → IsJudged given judged →
        IfOk result (λ output. MayGiveSound (steps_refusal given) None more setting.now given (outcome_of output)) }
{
    match judged {
        Ok(Chain::Lower(chain)) => closure_output(alloc, setting, &chain, more),
        Ok(Chain::Upper(_)) => not_lower_output(alloc),
        Err(verdict) => Ok(verdict_output(alloc, verdict)?),
    }
}

// What the word gives to a chain that was judged, with a diagram of its last problem.
fn diagram_output(
    alloc: Global,
    judged: Result<Chain, Verdict>,
    edges: &[(u8, u8)],
    more: u8,
) -> Result<Output, NoMemory>
    requires { IfOk judged (λ chain. AreEdges (length (last_problem (held_bound chain)).names) edges.now) }
    ensures { (given : Bound) → IsJudged given judged →
        IfOk result (λ output. MayGiveSound (steps_refusal given) (Some edges.now) more Alone given (outcome_of output)) }
{
    match judged {
        Ok(Chain::Lower(chain)) => raised_output(alloc, &chain, edges, more),
        Ok(Chain::Upper(_)) => not_lower_output(alloc),
        Err(verdict) => Ok(verdict_output(alloc, verdict)?),
    }
}

// What the word gives to a chain in a setting.
fn setting_output(
    alloc: Global,
    setting: &Setting,
    chain: Certificate,
    steps: u8,
) -> Result<Output, NoMemory>
    requires { chain.kind ≡ Fixed → ⊥ }
    ensures { IfOk result (λ output. MayGiveIn None steps setting.now chain (outcome_of output)) }
{
    match input_refusal_in(alloc, setting, chain.first())? {
        Some(output) => Ok(output),
        None => chain_output(alloc, setting, judged_chain(chain), steps),
    }
}

// What the word gives to a text without a diagram.
fn plain_output(alloc: Global, steps: u8, text: &[u8]) -> Result<Output, NoMemory>
    requires { length text.now ≤ MAX_BYTES }
    ensures { IfOk result (λ output. MayGiveRead (parts_of text.now).fault None steps (parts_of text.now).setting (text_chain (parts_of text.now).front) (outcome_of output)) }
{
    match read_in(alloc, text) {
        Ok(SettingTexts { chain, setting }) => setting_output(alloc, &setting, chain, steps),
        Err(TextFault::Bad(fault)) => Ok(fault_output(alloc, fault)?),
        Err(TextFault::NoMemory) => Err(NoMemory),
    }
}

// What the word gives to a text that is cut at its line `== diagram`.
fn cut_output(alloc: Global, steps: u8, cut: Cut<'_>) -> Result<Output, NoMemory>
    requires few { length cut.front.now ≤ MAX_BYTES }
    requires counted { cut.number ≤ cut.byte + 1 }
    requires within { 0 < length cut.behind.now → cut.byte + length cut.behind.now ≤ MAX_BYTES }
    requires number { 1 < cut.number }
    ensures { (text : List ℕ) → IsCut (codes "diagram") text cut.entry →
        IfOk result (λ output. MayGiveRead (diagram_fault text) (Some (diagram_edges text)) steps Alone (front_chain text) (outcome_of output)) }
{
    match read_diagram(alloc, cut) {
        Ok(text) => {
            let DiagramText { chain, edges } = text;
            diagram_output(alloc, judged_chain(chain), edges.as_slice(), steps)
        }
        Err(TextFault::Bad(fault)) => Ok(fault_output(alloc, fault)?),
        Err(TextFault::NoMemory) => Err(NoMemory),
    }
}

// What the word gives to a text.
#[tactic(auto, unfolding(crate::specs::ClosureWords::MayGive))]
fn text_output(alloc: Global, word: ClosureWord, text: &[u8]) -> Result<Output, NoMemory>
    requires { length text.now ≤ MAX_BYTES }
    ensures { IfOk result (λ output. MayGive word text.now (outcome_of output)) }
{
    match cut_at(DIAGRAM, text) {
        Some(cut) => cut_output(alloc, word.steps, cut),
        None => plain_output(alloc, word.steps, text),
    }
}

impl Finding for ClosureWord {
    ghost use Rattle.std.specs.Prelude.{true};
    ghost use Rattle.re_closure.specs.ClosureWords.{MayGive};

    ghost fits = { λ _. Unit {0} };

    ghost may = { MayGive };

    ghost judging = { λ _. true };

    fn find(&self, alloc: Global, text: Vec<u8>) -> Result<Output, NoMemory> {
        text_output(alloc, *self, text.as_slice())
    }
}
