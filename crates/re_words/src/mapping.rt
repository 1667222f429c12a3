// The commands that judge a map between two problems.
ghost use Rattle.re_words.specs.Mapping.{IsNamedVerdict, map_outcome, mapping_outcome};
ghost use Rattle.re_words.specs.Command.{judges};
ghost use Rattle.re_frame.specs.Outcomes.{outcome_of, refused as refused_with};
ghost use Rattle.re_texts.specs.SetTexts.{named_text};
ghost use Rattle.re_problem.specs.CanonicalTexts.{config_text};
ghost use Rattle.std.specs.List.{AllByRecursion};
ghost use Rattle.std.specs.Prelude.{◌≡◌, ◌≤◌, ◌<◌, ◌++◌, ℕ, List, [], Some, codes, length, IfOk, IsErrOf, true};

use crate::command::{Command, Mapping};
use re_frame::{Answer, Answering, Output, begun, fault_output, refused};
use re_io::MAX_BYTES;
use re_labels::{Config, Names, NoMemory, Side};
use re_problem::{MapVerdict, TextFault, push_label, relaxes, renames, restricts};
use re_texts::{push_config, read_label_map, read_set_map};
use std::alloc::Global;

// The refusal that names a label.
fn label_refused(alloc: Global, names: &Names, words: &str, label: u8) -> Result<Output, NoMemory>
    requires { label < length names.now }
    ensures { IfOk result (λ output. outcome_of output ≡ refused_with (words.now ++ named_text names.now label ++ codes "\n")) }
{
    let mut text = begun(alloc, words)?;
    push_label(&mut text, names.name(label))?;
    text.push(b'\n')?;
    Ok(refused(text))
}

// The refusal that names a configuration.
fn config_refused(
    alloc: Global,
    names: &Names,
    words: &str,
    config: &Config,
) -> Result<Output, NoMemory>
    requires { AllByRecursion (λ label. label < length names.now) config.now }
    ensures { IfOk result (λ output. outcome_of output ≡ refused_with (words.now ++ config_text names.now config.now ++ codes "\n")) }
{
    let mut text = begun(alloc, words)?;
    push_config(&mut text, names, config)?;
    text.push(b'\n')?;
    Ok(refused(text))
}

// The output for a verdict, where these are the names of the labels that have images.
fn verdict_output(alloc: Global, names: &Names, verdict: &MapVerdict) -> Result<Output, NoMemory>
    requires { IsNamedVerdict (length names.now) verdict.now }
    ensures { IfOk result (λ output. outcome_of output ≡ map_outcome names.now verdict.now) }
{
    match verdict {
        MapVerdict::Yes => Ok(Output {
            answer: Answer::Done,
            text: begun(alloc, "yes\n")?,
        }),
        MapVerdict::Degrees => Ok(refused(begun(alloc, "no: degrees\n")?)),
        MapVerdict::Empty(label) => label_refused(alloc, names, "no: empty ", *label),
        MapVerdict::Twice(label) => label_refused(alloc, names, "no: twice ", *label),
        MapVerdict::Active(config) => config_refused(alloc, names, "no: active ", config),
        MapVerdict::Passive(config) => config_refused(alloc, names, "no: passive ", config),
        MapVerdict::Count(Side::Active) => Ok(refused(begun(alloc, "no: active count\n")?)),
        MapVerdict::Count(Side::Passive) => Ok(refused(begun(alloc, "no: passive count\n")?)),
    }
}

// The output for an input of labels.
#[tactic(auto, unfolding(crate::specs::Mapping::mapping_outcome))]
fn relax_output(alloc: Global, text: &[u8]) -> Result<Output, NoMemory>
    requires { length text.now ≤ MAX_BYTES }
    ensures { IfOk result (λ output. outcome_of output ≡ mapping_outcome Mapping.Relax text.now) }
{
    match read_label_map(alloc, text) {
        Ok(input) => {
            let verdict = relaxes(&input.from, &input.to, &input.map);
            verdict_output(alloc, input.from.names(), &verdict)
        }
        Err(TextFault::Bad(fault)) => Ok(fault_output(alloc, fault)?),
        Err(TextFault::NoMemory) => Err(NoMemory),
    }
}

#[tactic(auto, unfolding(crate::specs::Mapping::mapping_outcome))]
fn rename_output(alloc: Global, text: &[u8]) -> Result<Output, NoMemory>
    requires { length text.now ≤ MAX_BYTES }
    ensures { IfOk result (λ output. outcome_of output ≡ mapping_outcome Mapping.Rename text.now) }
{
    match read_label_map(alloc, text) {
        Ok(input) => {
            let verdict = renames(&input.from, &input.to, &input.map);
            verdict_output(alloc, input.from.names(), &verdict)
        }
        Err(TextFault::Bad(fault)) => Ok(fault_output(alloc, fault)?),
        Err(TextFault::NoMemory) => Err(NoMemory),
    }
}

// The output for an input of sets.
#[tactic(auto, unfolding(crate::specs::Mapping::mapping_outcome))]
fn restrict_output(alloc: Global, text: &[u8]) -> Result<Output, NoMemory>
    requires { length text.now ≤ MAX_BYTES }
    ensures { IfOk result (λ output. outcome_of output ≡ mapping_outcome Mapping.Restrict text.now) }
{
    match read_set_map(alloc, text) {
        Ok(input) => {
            let verdict = restricts(&input.from, &input.to, &input.map);
            verdict_output(alloc, input.to.names(), &verdict)
        }
        Err(TextFault::Bad(fault)) => Ok(fault_output(alloc, fault)?),
        Err(TextFault::NoMemory) => Err(NoMemory),
    }
}

fn map_output(alloc: Global, mapping: Mapping, text: &[u8]) -> Result<Output, NoMemory>
    requires { length text.now ≤ MAX_BYTES }
    ensures { IfOk result (λ output. outcome_of output ≡ mapping_outcome mapping text.now) }
{
    match mapping {
        Mapping::Relax => relax_output(alloc, text),
        Mapping::Restrict => restrict_output(alloc, text),
        Mapping::Rename => rename_output(alloc, text),
    }
}

impl Answering for Mapping {
    ghost use Rattle.re_words.specs.Mapping.{mapping_outcome};

    ghost fits = { λ _. Unit {0} };

    ghost outcome = { mapping_outcome };

    ghost worth = { λ _ _. Unit {0} };

    ghost judging = { λ _. true };

    fn answer(&self, alloc: Global, text: Vec<u8>) -> Result<Output, NoMemory> {
        map_output(alloc, *self, text.as_slice())
    }
}
