//! What the words answer.
ghost use Rattle.re_cert.specs.declared.certificate.Kind.TheVariants.{Fixed};
ghost use Rattle.re_chains.specs.HeldBounds.{held_bound};
ghost use Rattle.re_chains.specs.ChainTexts.{text_chain};
ghost use Rattle.re_chains.specs.OverChains.{steps_refusal};
ghost use Rattle.re_frame.specs.Outcomes.{outcome_of};
ghost use Rattle.re_settings.specs.SettingTexts.{parts_of};
ghost use Rattle.re_settings.specs.Settings.{IsSettingOf, IsTakenIn};
ghost use Rattle.re_io.specs.declared.read.TheConstants.{MAX_BYTES};
ghost use Rattle.re_problem.specs.NamedProblems.{unnamed};
ghost use Rattle.re_search_words.specs.MayGive.{MayFind, MayFindBy, MayFindElse, MayGive, MayGiveAt, MayGiveIn, MayGiveSound, upper_chain, word_chain};
ghost use Rattle.std.specs.Prelude.{◌≡◌, ◌≤◌, IfOk, length};

use crate::fitting::{fitting_lower, fitting_upper, three_quarters};
use crate::lines::{searched_limit, searched_output};
use crate::words::SearchWord;
use re_cert::{Certificate, Kind};
use re_chains::{Chain, LowerChain, UpperChain, is_certificate_text, judged_chain};
use re_frame::{
    Answer, Finding, Output, fault_output, not_found_output, not_lower_output, not_upper_output,
    verdict_output,
};
use re_given_words::repeated_in;
use re_going_on::{Cycle, Shortest, find_cycle, find_shortest};
use re_labels::NoMemory;
use re_problem::TextFault;
use re_settings::{
    Setting, SettingTexts, front_of, input_refusal_in, is_taken, print_in, read_in, refusal_in,
};
use std::alloc::Global;

// What `longest` gives to a chain that is taken.
fn longest_found(
    alloc: Global,
    setting: &Setting,
    chain: &LowerChain,
    steps: u8,
    labels: u8,
) -> Result<Output, NoMemory>
    requires input { IsSettingOf (unnamed chain.now.certificate.first) setting.now }
    requires taken { IsTakenIn setting.now chain.now.certificate }
    ensures { IfOk result (λ output. MayFind (SearchWord.Longest steps labels) setting.now chain.now.certificate (outcome_of output)) }
{
    if let Some(output) = fitting_lower(alloc, setting, chain, steps, labels)? {
        return Ok(output);
    }
    let same = repeated_in(alloc, setting, &chain.certificate, steps, labels)?;
    print_in(alloc, setting, &same)
}

// What `longest` gives to a chain of kind lower.
fn longest_output(
    alloc: Global,
    setting: &Setting,
    chain: &LowerChain,
    steps: u8,
    labels: u8,
) -> Result<Output, NoMemory>
    requires { IsSettingOf (unnamed chain.now.certificate.first) setting.now }
    ensures { IfOk result (λ output. MayFindBy (SearchWord.Longest steps labels) setting.now chain.now.certificate (outcome_of output)) }
{
    match refusal_in(alloc, setting, chain)? {
        Some(output) => Ok(output),
        None => longest_found(alloc, setting, chain, steps, labels),
    }
}

// What `cycle` gives to a chain that is taken.
fn cycle_found(
    alloc: Global,
    setting: &Setting,
    chain: &LowerChain,
    steps: u8,
    merges: u8,
    nodes: u32,
) -> Result<Output, NoMemory>
    ensures { IfOk result (λ output. MayFind (SearchWord.Cycle steps merges nodes) setting.now chain.now.certificate (outcome_of output)) }
{
    match find_cycle(alloc, setting, chain, steps, merges, nodes)? {
        Cycle::Found(certificate) => print_in(alloc, setting, &certificate),
        Cycle::NotFound { nodes: seen, cut } => searched_output(alloc, seen, cut),
        Cycle::TooMany => searched_limit(alloc, nodes),
    }
}

// What `cycle` gives to a chain of kind lower.
fn cycle_output(
    alloc: Global,
    setting: &Setting,
    chain: &LowerChain,
    steps: u8,
    merges: u8,
    nodes: u32,
) -> Result<Output, NoMemory>
    ensures { IfOk result (λ output. MayFindBy (SearchWord.Cycle steps merges nodes) setting.now chain.now.certificate (outcome_of output)) }
{
    match refusal_in(alloc, setting, chain)? {
        Some(output) => Ok(output),
        None => cycle_found(alloc, setting, chain, steps, merges, nodes),
    }
}

// What `shortest` gives to a chain that is taken.
fn shortest_same(
    alloc: Global,
    setting: &Setting,
    chain: &UpperChain,
    steps: u8,
    labels: u8,
) -> Result<Output, NoMemory>
    requires { IsTakenIn setting.now chain.now.certificate }
    ensures { IfOk result (λ output. MayFind (SearchWord.Shortest steps labels) setting.now chain.now.certificate (outcome_of output)) }
{
    let same = repeated_in(alloc, setting, &chain.certificate, steps, labels)?;
    print_in(alloc, setting, &same)
}

// What `shortest` gives to a chain that isn't taken, however long its text is.
fn shortest_found(
    alloc: Global,
    setting: &Setting,
    chain: &UpperChain,
    steps: u8,
    labels: u8,
) -> Result<Output, NoMemory>
    requires { IsSettingOf (unnamed chain.now.certificate.first) setting.now }
    ensures { IfOk result (λ output. MayFindElse (SearchWord.Shortest steps labels) setting.now chain.now.certificate (outcome_of output)) }
{
    match find_shortest(alloc, setting, chain, steps, labels)? {
        Shortest::Found(certificate) => print_in(alloc, setting, &certificate),
        Shortest::NotFound { nodes, cut } => not_found_output(alloc, nodes, cut),
    }
}

// What `shortest` gives to a chain that isn't taken.
fn shortest_else(
    alloc: Global,
    setting: &Setting,
    chain: &UpperChain,
    steps: u8,
    labels: u8,
) -> Result<Output, NoMemory>
    requires { IsSettingOf (unnamed chain.now.certificate.first) setting.now }
    ensures { IfOk result (λ output. MayFindElse (SearchWord.Shortest steps labels) setting.now chain.now.certificate (outcome_of output)) }
{
    let output = shortest_found(alloc, setting, chain, steps, labels)?;
    if output.answer != Answer::Limit {
        return Ok(output);
    }
    match fitting_upper(alloc, setting, chain, steps, three_quarters(labels))? {
        Some(fitting) => Ok(fitting),
        None => Ok(output),
    }
}

// What `shortest` gives to a chain of kind upper.
fn shortest_output(
    alloc: Global,
    setting: &Setting,
    chain: &UpperChain,
    steps: u8,
    labels: u8,
) -> Result<Output, NoMemory>
    requires { IsSettingOf (unnamed chain.now.certificate.first) setting.now }
    ensures { IfOk result (λ output. MayFindBy (SearchWord.Shortest steps labels) setting.now chain.now.certificate (outcome_of output)) }
{
    if is_taken(alloc, setting, &chain.certificate)? {
        shortest_same(alloc, setting, chain, steps, labels)
    } else {
        shortest_else(alloc, setting, chain, steps, labels)
    }
}

// What the word gives to a chain.
fn chain_output(
    alloc: Global,
    word: SearchWord,
    setting: &Setting,
    chain: &Chain,
) -> Result<Output, NoMemory>
    requires { IsSettingOf (unnamed (held_bound chain.now).first) setting.now }
    ensures { IfOk result (λ output. MayGiveAt (held_bound chain.now).kind word setting.now (held_bound chain.now) (outcome_of output)) }
{
    match (word, chain) {
        (SearchWord::Longest(steps, labels), Chain::Lower(chain)) => {
            longest_output(alloc, setting, chain, steps, labels)
        }
        (SearchWord::Cycle(steps, merges, nodes), Chain::Lower(chain)) => {
            cycle_output(alloc, setting, chain, steps, merges, nodes)
        }
        (SearchWord::Shortest(..), Chain::Lower(_)) => not_upper_output(alloc),
        (SearchWord::Shortest(steps, labels), Chain::Upper(chain)) => {
            shortest_output(alloc, setting, chain, steps, labels)
        }
        (SearchWord::Longest(..) | SearchWord::Cycle(..), Chain::Upper(_)) => {
            not_lower_output(alloc)
        }
    }
}

// What the word gives to steps: that to their chain where none fails.
fn sound_output(
    alloc: Global,
    word: SearchWord,
    setting: &Setting,
    certificate: Certificate,
) -> Result<Output, NoMemory>
    requires input { IsSettingOf (unnamed certificate.first) setting.now }
    requires open { certificate.kind ≡ Fixed → ⊥ }
    ensures { IfOk result (λ output. MayGiveSound (steps_refusal certificate) word setting.now certificate (outcome_of output)) }
{
    match judged_chain(certificate) {
        Ok(chain) => chain_output(alloc, word, setting, &chain),
        Err(verdict) => Ok(verdict_output(alloc, verdict)?),
    }
}

// What the word gives to steps in a setting.
fn setting_output(
    alloc: Global,
    word: SearchWord,
    setting: &Setting,
    certificate: Certificate,
) -> Result<Output, NoMemory>
    requires { certificate.kind ≡ Fixed → ⊥ }
    ensures { IfOk result (λ output. MayGiveIn word setting.now certificate (outcome_of output)) }
{
    match input_refusal_in(alloc, setting, certificate.first())? {
        Some(output) => Ok(output),
        None => sound_output(alloc, word, setting, certificate),
    }
}

// The chain that the text stands for where an upper bound is searched for, of the one that it writes.
fn upper_chain(alloc: Global, text: &[u8], chain: Certificate) -> Result<Certificate, NoMemory>
    requires { chain ≡ text_chain text.now }
    ensures { IfOk result (λ upper. upper ≡ upper_chain text.now) }
{
    if is_certificate_text(text) {
        return Ok(chain);
    }
    let first = chain.first().copy()?;
    match Certificate::build(Kind::Upper, 0, first, Vec::new(alloc), Vec::new(alloc)) {
        Some(upper) => Ok(upper),
        None => unreachable!(),
    }
}

// The chain that the text stands for to the word, of the one that it writes.
fn word_chain(
    alloc: Global,
    word: SearchWord,
    text: &[u8],
    chain: Certificate,
) -> Result<Certificate, NoMemory>
    requires { chain ≡ text_chain text.now }
    ensures { IfOk result (λ meant. meant ≡ word_chain word text.now) }
{
    match word {
        SearchWord::Shortest(..) => upper_chain(alloc, text, chain),
        SearchWord::Longest(..) | SearchWord::Cycle(..) => Ok(chain),
    }
}

// What the word gives to a text without a fault, which writes these.
fn read_output(
    alloc: Global,
    word: SearchWord,
    text: &[u8],
    texts: SettingTexts,
) -> Result<Output, NoMemory>
    requires few { length text.now ≤ MAX_BYTES }
    requires chain { texts.chain ≡ text_chain (parts_of text.now).front }
    ensures { IfOk result (λ output. MayGiveIn word texts.setting (word_chain word (parts_of text.now).front) (outcome_of output)) }
{
    let SettingTexts { chain, setting } = texts;
    let chain = word_chain(alloc, word, front_of(text), chain)?;
    setting_output(alloc, word, &setting, chain)
}

// What the word gives to a text.
#[tactic(auto, unfolding(crate::specs::MayGive::MayGive))]
fn text_output(alloc: Global, word: SearchWord, text: &[u8]) -> Result<Output, NoMemory>
    requires { length text.now ≤ MAX_BYTES }
    ensures { IfOk result (λ output. MayGive word text.now (outcome_of output)) }
{
    match read_in(alloc, text) {
        Ok(texts) => read_output(alloc, word, text, texts),
        Err(TextFault::Bad(fault)) => Ok(fault_output(alloc, fault)?),
        Err(TextFault::NoMemory) => Err(NoMemory),
    }
}

impl Finding for SearchWord {
    ghost use Rattle.std.specs.Prelude.{true};
    ghost use Rattle.re_search_words.specs.MayGive.{MayGive};
    ghost use Rattle.re_search_words.specs.Words.{IsSearchWord};

    ghost fits = { IsSearchWord };

    ghost may = { MayGive };

    ghost judging = { λ _. true };

    fn find(&self, alloc: Global, text: Vec<u8>) -> Result<Output, NoMemory> {
        text_output(alloc, *self, text.as_slice())
    }
}
