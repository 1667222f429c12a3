//! What the words answer.
ghost use Rattle.re_cert.specs.declared.certificate.Kind.TheVariants.{Fixed};
ghost use Rattle.re_cert.specs.declared.certificate.TheConstants.{MAX_STEPS};
ghost use Rattle.re_chains.specs.HeldBounds.{held_bound};
ghost use Rattle.re_chains.specs.OverChains.{steps_refusal};
ghost use Rattle.re_frame.specs.Outcomes.{outcome_of};
ghost use Rattle.re_settings.specs.declared.setting.Setting.TheVariants.{Alone};
ghost use Rattle.re_io.specs.declared.read.TheConstants.{MAX_BYTES};
ghost use Rattle.re_relaxed.specs.Answers.{Answers};
ghost use Rattle.re_search_words.specs.RelaxedWords.{MayGive, looked_at};
ghost use Rattle.re_search_words.specs.MayGive.{MayFindBy, MayGiveAt, MayGiveSound};
ghost use Rattle.re_search_words.specs.declared.words.SearchWord.TheVariants.{Cycle};
ghost use Rattle.std.specs.Prelude.{◌≡◌, ◌≤◌, IfOk, length};

use crate::relaxed_words::{RelaxedWord, looked_at};
use crate::{searched_limit, searched_output};
use re_cert::Certificate;
use re_chains::{Chain, LowerChain, certificate_output, judged_chain, read_chain};
use re_frame::{Finding, Output, fault_output, not_lower_output, solvable_output, verdict_output};
use re_labels::NoMemory;
use re_problem::TextFault;
use re_relaxed::{MAX_TRIES, Relaxed, find_relaxed, find_through};
use re_settings::taken_alone_law;
use std::alloc::Global;

// What the word searches for.
fn searched(alloc: Global, chain: &LowerChain, word: RelaxedWord) -> Result<Relaxed, NoMemory>
    ensures { IfOk result (Answers chain.now.certificate) }
{
    match word {
        RelaxedWord::Relaxed(nodes) => find_relaxed(alloc, chain, nodes),
        RelaxedWord::Through(member) => find_through(alloc, chain, member, MAX_TRIES),
    }
}

// What the word gives to a chain of kind lower.
fn relaxed_output(alloc: Global, chain: &LowerChain, word: RelaxedWord) -> Result<Output, NoMemory>
    ensures { IfOk result (λ output. MayFindBy (Cycle MAX_STEPS 0 (looked_at word)) Alone chain.now.certificate (outcome_of output)) }
{
    taken_alone_law();
    let nodes = looked_at(word);
    match searched(alloc, chain, word)? {
        Relaxed::Found(certificate) => certificate_output(alloc, &certificate),
        Relaxed::Solvable(place) => solvable_output(alloc, chain.certificate.last(), place),
        Relaxed::NotFound { nodes: seen, cut } => searched_output(alloc, seen, cut),
        Relaxed::TooMany => searched_limit(alloc, nodes),
    }
}

// What the word gives to a chain.
fn chain_output(alloc: Global, chain: &Chain, word: RelaxedWord) -> Result<Output, NoMemory>
    ensures { IfOk result (λ output. MayGiveAt (held_bound chain.now).kind (Cycle MAX_STEPS 0 (looked_at word)) Alone (held_bound chain.now) (outcome_of output)) }
{
    match chain {
        Chain::Lower(chain) => relaxed_output(alloc, chain, word),
        Chain::Upper(_) => not_lower_output(alloc),
    }
}

// What the word gives to the chain of these steps.
fn sound_output(alloc: Global, chain: Certificate, word: RelaxedWord) -> Result<Output, NoMemory>
    requires { chain.kind ≡ Fixed → ⊥ }
    ensures { IfOk result (λ output. MayGiveSound (steps_refusal chain) (Cycle MAX_STEPS 0 (looked_at word)) Alone chain (outcome_of output)) }
{
    match judged_chain(chain) {
        Ok(chain) => chain_output(alloc, &chain, word),
        Err(verdict) => Ok(verdict_output(alloc, verdict)?),
    }
}

// What the word gives to a text.
#[tactic(auto, unfolding(crate::specs::RelaxedWords::MayGive))]
fn text_output(alloc: Global, word: RelaxedWord, text: &[u8]) -> Result<Output, NoMemory>
    requires { length text.now ≤ MAX_BYTES }
    ensures { IfOk result (λ output. MayGive word text.now (outcome_of output)) }
{
    match read_chain(alloc, text) {
        Ok(chain) => sound_output(alloc, chain, word),
        Err(TextFault::Bad(fault)) => Ok(fault_output(alloc, fault)?),
        Err(TextFault::NoMemory) => Err(NoMemory),
    }
}

impl Finding for RelaxedWord {
    ghost use Rattle.std.specs.Prelude.{true};
    ghost use Rattle.re_search_words.specs.RelaxedWords.{MayGive};

    ghost fits = { λ _. Unit {0} };

    ghost may = { MayGive };

    ghost judging = { λ _. true };

    fn find(&self, alloc: Global, text: Vec<u8>) -> Result<Output, NoMemory> {
        text_output(alloc, *self, text.as_slice())
    }
}
