//! The words.
ghost use Rattle.re_chain_words.specs.ChainWords.{begin_with, begun_kind, chain_help, chain_word_of, drop_with, merge_with, name_with, word_alone, word_of_three, word_of_two};
ghost use Rattle.std.specs.Prelude.{◌≡◌, map, string_bytes};

use crate::labels::{LabelWord, label_word};
use re_cert::Kind;

/// What is done to a sound chain.
#[derive(Drop, Debug)]
pub enum Shaping {
    /// One derived step more.
    Step,
    /// The first label becomes the second.
    Merge(LabelWord, LabelWord),
    /// The label gets the name.
    Name(LabelWord, LabelWord),
    /// The label goes.
    Drop(LabelWord),
}

/// A word that begins a chain, gives its last problem, or shapes it.
#[derive(Drop, Debug)]
pub enum ChainWord {
    /// The certificate without steps of this kind, which is lower or upper; a fixed point is begun as a lower bound.
    Begin(Kind),
    /// The last problem.
    Last,
    /// The certificate with its lists in order.
    Tidy,
    /// A sound chain, shaped.
    Shape(Shaping),
}

// The kind of a chain that begins.
fn begun_kind(word: &str) -> Option<Kind>
    ensures { result ≡ begun_kind word.now }
{
    if "lower" == word {
        Some(Kind::Lower)
    } else if "upper" == word {
        Some(Kind::Upper)
    } else {
        None
    }
}

fn begin_with(kind: Option<Kind>) -> Option<ChainWord>
    ensures { result ≡ begin_with kind }
{
    Some(ChainWord::Begin(kind?))
}

fn drop_with(label: Option<LabelWord>) -> Option<ChainWord>
    ensures { result ≡ drop_with label }
{
    match label {
        Some(label) => Some(ChainWord::Shape(Shaping::Drop(label))),
        None => None,
    }
}

fn merge_with(from: Option<LabelWord>, to: Option<LabelWord>) -> Option<ChainWord>
    ensures { result ≡ merge_with from to }
{
    match (from, to) {
        (Some(from), Some(to)) => Some(ChainWord::Shape(Shaping::Merge(from, to))),
        _ => None,
    }
}

fn name_with(label: Option<LabelWord>, name: Option<LabelWord>) -> Option<ChainWord>
    ensures { result ≡ name_with label name }
{
    match (label, name) {
        (Some(label), Some(name)) => Some(ChainWord::Shape(Shaping::Name(label, name))),
        _ => None,
    }
}

#[tactic(auto, unfolding(crate::specs::ChainWords::word_alone))]
fn word_alone(word: &str) -> Option<ChainWord>
    ensures { result ≡ word_alone word.now }
{
    if "last" == word {
        return Some(ChainWord::Last);
    }
    if "tidy" == word {
        return Some(ChainWord::Tidy);
    }
    if "step" == word {
        return Some(ChainWord::Shape(Shaping::Step));
    }
    None
}

#[tactic(auto, unfolding(crate::specs::ChainWords::word_of_two))]
fn word_of_two(word: &str, x: &str) -> Option<ChainWord>
    ensures { result ≡ word_of_two word.now x.now }
{
    if "begin" == word {
        return begin_with(begun_kind(x));
    }
    if "drop" == word {
        return drop_with(label_word(x));
    }
    None
}

#[tactic(auto, unfolding(crate::specs::ChainWords::word_of_three))]
fn word_of_three(word: &str, x: &str, y: &str) -> Option<ChainWord>
    ensures { result ≡ word_of_three word.now x.now y.now }
{
    if "merge" == word {
        return merge_with(label_word(x), label_word(y));
    }
    if "name" == word {
        return name_with(label_word(x), label_word(y));
    }
    None
}

/// The word that these name, if any: `begin lower`, `begin upper`, `last`, `tidy`, `step`, `merge X Y`, `name X Y` or `drop X`, where X
/// and Y are one letter or digit, a name in parentheses, or a bare longer name. It takes no memory.
#[tactic(auto, unfolding(crate::specs::ChainWords::chain_word_of))]
pub fn chain_word(words: &[String]) -> Option<ChainWord>
    ensures { result ≡ chain_word_of (map string_bytes words.now) }
{
    match words {
        [word] => word_alone(word.as_str()),
        [word, x] => word_of_two(word.as_str(), x.as_str()),
        [word, x, y] => word_of_three(word.as_str(), x.as_str(), y.as_str()),
        _ => None,
    }
}

/// The lines of help, one a word.
#[tactic(auto, unfolding(crate::specs::ChainWords::chain_help))]
pub fn chain_help() -> &'static str
    ensures { result.now ≡ chain_help }
{
    "begin lower, begin upper: reads a problem, gives the certificate of a lower or an upper bound without steps\nlast: reads a chain, gives its last problem\ntidy: reads a certificate, gives the same with its rows, entries, images and pairs in their order\nstep: reads a chain, gives the chain with one more step, to the derived problem\nmerge X Y: reads a chain of kind lower, gives the chain in whose last problem the label X has become Y\nname X Y: reads a chain, gives the chain in whose last problem X is called Y\ndrop X: reads a chain of kind upper, gives the chain whose last problem lacks X\n"
}
