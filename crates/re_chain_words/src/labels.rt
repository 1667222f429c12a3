//! Labels as words give them.
ghost use Rattle.re_chain_words.specs.LabelWords.{given_text, is_enclosed, label_word, word_with};
ghost use Rattle.std.specs.Prelude.{◌≡◌, ◌++◌, ◌≤◌, IfOk, OnOk, Option, List, ℕ, length, true};

use re_frame::push_words;
use re_labels::{Name, NoMemory};

/// A label as a word gives it: its name, and whether it stood in parentheses.
#[derive(Drop, Debug)]
pub struct LabelWord {
    pub name: Name,
    pub enclosed: bool,
}

// Whether the word stands in parentheses.
fn is_enclosed(word: &[u8]) -> bool
    ensures test { result ≡ is_enclosed word.now }
    ensures long { result ≡ true → 2 ≤ length word.now }
{
    word.len() >= 2 && word[0] == b'(' && word[word.len() - 1] == b')'
}

// The label of this name.
fn word_with(enclosed: bool, name: Option<Name>) -> Option<LabelWord>
    ensures { result ≡ word_with enclosed name }
{
    match name {
        Some(name) => Some(LabelWord { name, enclosed }),
        None => None,
    }
}

/// The label that a word gives: a name in parentheses, or a bare one, which isn't `_` alone.
#[tactic(auto, unfolding(crate::specs::LabelWords::label_word))]
pub(crate) fn label_word(word: &str) -> Option<LabelWord>
    ensures { result ≡ label_word word.now }
{
    let bytes = word.as_bytes();
    if is_enclosed(bytes) {
        return word_with(true, Name::new(&bytes[1..bytes.len() - 1]));
    }
    if "_" == word {
        return None;
    }
    word_with(false, Name::new(bytes))
}

// Appends these bytes.
fn push_bytes(text: &mut Vec<u8>, bytes: &[u8]) -> Result<(), NoMemory>
    ensures { OnOk result (text.new.items ≡ text.old.items ++ bytes.now) }
{
    Ok(text.extend_from_slice(bytes)?)
}

/// Appends the word as it was given.
pub(crate) fn push_given(text: &mut Vec<u8>, label: &LabelWord) -> Result<(), NoMemory>
    ensures { OnOk result (text.new.items ≡ text.old.items ++ given_text label.now) }
{
    if !label.enclosed {
        return push_bytes(text, label.name.text());
    }
    push_words(text, "(")?;
    push_bytes(text, label.name.text())?;
    push_words(text, ")")
}
