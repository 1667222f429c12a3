// The command that the words name. A family of words is a variant here, an arm in `command_from` and in `output_from`, and its lines of help.
ghost use Rattle.re_asking.specs.NearWords.{wrong_word as wrong_word_with};
ghost use Rattle.re_explore.specs.Commands.{Fits, bad_text, bad_words, chain_lines, command_alone, command_behind, command_beside, command_of, command_over_certificates, command_over_chains, command_over_problems, help_on, help_text, is_chain_word, is_help, is_help_on, is_problem_word, lines_of_re, problem_lines, word_lines};
ghost use Rattle.re_frame.specs.Outcomes.{done as done_with, outcome_of};
ghost use Rattle.std.specs.Prelude.{◌≡◌, ◌++◌, IfOk, IfSome, OnOk, map, string_bytes};

use crate::evidence_words::{EvidenceWord, evidence_help, evidence_word};
use crate::text_words::{TextWord, front_of};
use re_asking::{
    Beside, NamedInput, has_own_line, named_input, own_words, push_own_lines, wrong_word,
};
use re_bridge_words::{bridge_help, bridge_word};
use re_chain_words::{ChainWord, chain_help, chain_word};
use re_closure::{closure_help, closure_word};
use re_describe::{DescribeWord, describe_help, describe_word};
use re_forest_words::{ForestWord, forest_help, forest_word};
use re_frame::{Answer, Output, begun, done, push_words};
use re_given_words::{given_help, given_word};
use re_graph_words::{graph_help, graph_word};
use re_inputs::{InputWord, input_help, input_word};
use re_judging::{judge_help, names_judge};
use re_labels::NoMemory;
use re_search_words::{RelaxedWord, relaxed_help, relaxed_word, search_help, search_word};
use re_settle::{settle_help, settle_word};
use re_why::{names_why, why_help};
use std::alloc::Global;

#[derive(Drop, Debug)]
pub(crate) enum Command {
    /// The words, with what each reads and gives.
    Help,
    /// The lines of help of a word.
    HelpOn,
    /// Chains that begin, grow by a step, and are shaped.
    Chains(ChainWord),
    /// What shows a refusal.
    Explains,
    /// A fixed point behind a relaxation.
    Relaxes(RelaxedWord),
    /// A report on a certificate.
    Describes(DescribeWord),
    /// Texts of evidence of one problem.
    Judges,
    /// Evidence of what is found of a problem.
    Shows(EvidenceWord),
    /// A problem on finite forests: flexible sets of labels, or nodes one after another.
    Forests(ForestWord),
    /// An input problem that has a name.
    Inputs(InputWord),
    /// A word of families some of whose words read an input problem.
    Reads(TextWord),
    /// Such a word, with an input problem behind it that has a name.
    Beside(Beside<TextWord>),
}

fn is_help(words: &[String]) -> bool
    ensures { result ≡ is_help (map string_bytes words.now) }
{
    match words {
        [word] => "help" == word.as_str(),
        _ => false,
    }
}

// The command that goes on from a chain.
fn command_over_chains(words: &[String]) -> Option<Command>
    ensures command { result ≡ command_over_chains (map string_bytes words.now) }
    ensures fits { IfSome result Fits }
{
    if let Some(word) = chain_word(words) {
        return Some(Command::Chains(word));
    }
    if let Some(word) = search_word(words) {
        return Some(Command::Reads(TextWord::Searches(word)));
    }
    if let Some(word) = closure_word(words) {
        return Some(Command::Reads(TextWord::Closes(word)));
    }
    if let Some(word) = relaxed_word(words) {
        return Some(Command::Relaxes(word));
    }
    if let Some(word) = bridge_word(words) {
        return Some(Command::Reads(TextWord::Bridges(word)));
    }
    None
}

// The command that tells of a certificate, or of texts of evidence.
fn command_over_certificates(words: &[String]) -> Option<Command>
    ensures command { result ≡ command_over_certificates (map string_bytes words.now) }
    ensures fits { IfSome result Fits }
{
    if names_why(words) {
        return Some(Command::Explains);
    }
    if let Some(word) = describe_word(words) {
        return Some(Command::Describes(word));
    }
    if names_judge(words) {
        return Some(Command::Judges);
    }
    None
}

// The command that tells of a problem, alone or beside an input problem or a graph.
fn command_over_problems(words: &[String]) -> Option<Command>
    ensures command { result ≡ command_over_problems (map string_bytes words.now) }
    ensures fits { IfSome result Fits }
{
    if let Some(word) = forest_word(words) {
        return Some(Command::Forests(word));
    }
    if let Some(word) = graph_word(words) {
        return Some(Command::Reads(TextWord::Graphs(word)));
    }
    if let Some(word) = given_word(words) {
        return Some(Command::Reads(TextWord::Givens(word)));
    }
    if let Some(word) = input_word(words) {
        return Some(Command::Inputs(word));
    }
    if let Some(word) = settle_word(words) {
        return Some(Command::Reads(TextWord::Settles(word)));
    }
    if let Some(word) = evidence_word(words) {
        return Some(Command::Shows(word));
    }
    None
}

// The command that the words name without an input problem behind them.
#[tactic(auto, unfolding(crate::specs::Commands::command_alone))]
fn command_alone(words: &[String]) -> Option<Command>
    ensures command { result ≡ command_alone (map string_bytes words.now) }
    ensures fits { IfSome result Fits }
{
    if is_help(words) {
        return Some(Command::Help);
    }
    if let Some(command) = command_over_certificates(words) {
        return Some(command);
    }
    if let Some(command) = command_over_problems(words) {
        return Some(command);
    }
    command_over_chains(words)
}

// The command with this input problem behind it, where it reads one.
fn command_beside(command: Option<Command>, input: Option<NamedInput>) -> Option<Command>
    requires { IfSome command Fits }
    ensures command { result ≡ command_beside command input }
    ensures fits { IfSome result Fits }
{
    let Some(Command::Reads(word)) = command else {
        return None;
    };
    let front = front_of(word)?;
    let input = input?;
    Some(Command::Beside(Beside { word, front, input }))
}

fn is_chain_word(word: &[u8]) -> bool
    ensures { result ≡ is_chain_word word.now }
{
    has_own_line(word, chain_help().as_bytes())
        || has_own_line(word, why_help().as_bytes())
        || has_own_line(word, search_help().as_bytes())
        || has_own_line(word, closure_help().as_bytes())
        || has_own_line(word, relaxed_help().as_bytes())
        || has_own_line(word, bridge_help().as_bytes())
        || has_own_line(word, describe_help().as_bytes())
        || has_own_line(word, judge_help().as_bytes())
}

fn is_problem_word(word: &[u8]) -> bool
    ensures { result ≡ is_problem_word word.now }
{
    has_own_line(word, settle_help().as_bytes())
        || has_own_line(word, evidence_help().as_bytes())
        || has_own_line(word, forest_help().as_bytes())
        || has_own_line(word, graph_help().as_bytes())
        || has_own_line(word, given_help().as_bytes())
        || has_own_line(word, input_help().as_bytes())
}

fn is_help_on(words: &[String]) -> bool
    ensures { result ≡ is_help_on (map string_bytes words.now) }
{
    match words {
        [word, help] => {
            "help" == help.as_str()
                && (is_chain_word(word.as_bytes()) || is_problem_word(word.as_bytes()))
        }
        _ => false,
    }
}

// The command with a named input problem behind its word, or the help on a word.
fn command_behind(words: &[String]) -> Option<Command>
    ensures command { result ≡ command_behind (map string_bytes words.now) }
    ensures fits { IfSome result Fits }
{
    if is_help_on(words) {
        return Some(Command::HelpOn);
    }
    let command = command_alone(own_words(words));
    command_beside(command, named_input(words))
}

#[tactic(auto, unfolding(crate::specs::Commands::command_of))]
pub(crate) fn command_from(words: &[String]) -> Option<Command>
    ensures command { result ≡ command_of (map string_bytes words.now) }
    ensures fits { IfSome result Fits }
{
    match command_alone(words) {
        Some(command) => Some(command),
        None => command_behind(words),
    }
}

// Puts the lines of help of the words over chains and certificates behind the text.
#[tactic(auto, unfolding(crate::specs::Commands::chain_lines))]
fn push_chain_lines(text: &mut Vec<u8>) -> Result<(), NoMemory>
    ensures { OnOk result (text.new.items ≡ text.old.items ++ chain_lines) }
{
    push_words(text, chain_help())?;
    push_words(text, why_help())?;
    push_words(text, search_help())?;
    push_words(text, closure_help())?;
    push_words(text, relaxed_help())?;
    push_words(text, bridge_help())?;
    push_words(text, describe_help())?;
    push_words(text, judge_help())?;
    Ok(())
}

// And those of the words over problems.
#[tactic(auto, unfolding(crate::specs::Commands::problem_lines))]
fn push_problem_lines(text: &mut Vec<u8>) -> Result<(), NoMemory>
    ensures { OnOk result (text.new.items ≡ text.old.items ++ problem_lines) }
{
    push_words(text, settle_help())?;
    push_words(text, evidence_help())?;
    push_words(text, forest_help())?;
    push_words(text, graph_help())?;
    push_words(text, given_help())?;
    push_words(text, input_help())?;
    Ok(())
}

// The lines of help of the words of `re`, a block of its own, and a hint.
#[tactic(auto, unfolding(crate::specs::Commands::lines_of_re))]
fn help_of_re() -> &'static str
    ensures { result.now ≡ lines_of_re }
{
    "\nre check: reads a certificate, gives the verdict on it\nre zero: reads a problem, gives whether it is solvable without communication\nre rounds K: reads a problem, gives its number of rounds, up to K\nre lower K M, re upper K M, re fixed K M: reads a problem, gives a certificate with at most K steps, with at most M labels merged or left out in each\nre read: reads a problem, gives its canonical text\nre step N: reads a problem, gives the N-th derived problem\nre universal: reads a problem, gives the maximal rows of its passive side\nre diagram active, re diagram passive: reads a problem, gives the strength diagram of this side\nre merge, re trim: reads a problem, gives it with equal labels merged, or without covered labels\nre relax, re restrict, re rename: reads two problems and a map between them, gives whether it leads from the one to the other\nre extract: reads the certificate of an upper bound, gives its algorithm as a table\nre run: reads the certificate of an upper bound, a tree and deliveries, gives what the nodes output\nre table, re faster, re slower: reads a table, gives whether it solves its problem, or one with a round less or more\nre family NAME A P N, re make N: reads nothing, gives a problem of a family, or the verdict on one step from a colouring\n\nA label that stands on one side of a problem alone is in no solution: look for a typo\nBehind words that read a line == given its input problem may be named instead: given N colours, given N edge colours, given sides, given orientation, given both\n"
}

// Puts the lines of help of all words behind the text.
#[tactic(auto, unfolding(crate::specs::Commands::word_lines))]
fn push_word_lines(text: &mut Vec<u8>) -> Result<(), NoMemory>
    ensures { OnOk result (text.new.items ≡ text.old.items ++ word_lines) }
{
    push_words(text, "help: reads nothing, gives these lines\n")?;
    push_chain_lines(text)?;
    push_problem_lines(text)?;
    Ok(())
}

// All lines of help behind these words.
#[tactic(auto, unfolding(crate::specs::Commands::help_text))]
fn with_help(alloc: Global, words: &str) -> Result<Vec<u8>, NoMemory>
    ensures { IfOk result (λ text. text.items ≡ words.now ++ help_text) }
{
    let mut text = begun(alloc, words)?;
    push_word_lines(&mut text)?;
    push_words(&mut text, help_of_re())?;
    Ok(text)
}

/// The output of `help`.
pub(crate) fn help(alloc: Global) -> Result<Output, NoMemory>
    ensures { IfOk result (λ output. outcome_of output ≡ done_with help_text) }
{
    Ok(done(with_help(alloc, "")?))
}

/// The output of `help` behind the first of these words.
#[tactic(auto, unfolding(crate::specs::Commands::help_on))]
pub(crate) fn help_on(alloc: Global, words: &[String]) -> Result<Output, NoMemory>
    ensures { IfOk result (λ output. outcome_of output ≡ done_with (help_on (map string_bytes words.now))) }
{
    let mut lines = Vec::new(alloc);
    if let [word, ..] = words {
        let mut help = Vec::new(alloc);
        push_word_lines(&mut help)?;
        push_own_lines(&mut lines, word.as_bytes(), help.as_slice())?;
    }
    Ok(done(lines))
}

// The text for words that are no command, of which this is the first one.
fn wrong_text(alloc: Global, word: &str) -> Result<Vec<u8>, NoMemory>
    ensures { IfOk result (λ text. text.items ≡ wrong_word_with word.now word_lines) }
{
    let mut help = Vec::new(alloc);
    push_word_lines(&mut help)?;
    wrong_word(alloc, word, help.as_slice())
}

#[tactic(auto, unfolding(crate::specs::Commands::bad_text))]
fn bad_text(alloc: Global, words: &[String]) -> Result<Vec<u8>, NoMemory>
    ensures { IfOk result (λ text. text.items ≡ bad_text (map string_bytes words.now)) }
{
    match words {
        [] => with_help(alloc, "words: not a command\n"),
        [word, ..] => wrong_text(alloc, word.as_str()),
    }
}

/// The output for words that are no command.
pub(crate) fn bad_words(alloc: Global, words: &[String]) -> Result<Output, NoMemory>
    ensures { IfOk result (λ output. outcome_of output ≡ bad_words (map string_bytes words.now)) }
{
    Ok(Output {
        answer: Answer::BadWords,
        text: bad_text(alloc, words)?,
    })
}
