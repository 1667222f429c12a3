//! The text for words that are no command.
ghost use Rattle.re_asking.specs.NearWords.{own_lines, near_words, wrong_by, wrong_word};
ghost use Rattle.std.specs.Prelude.{◌≡◌, ◌<◌, ◌+◌, ◌^◌, ◌++◌, IfOk, [], codes, length};

use crate::near_words::{push_near_words, push_own_lines};
use re_frame::{begun, push_words};
use re_labels::NoMemory;
use std::alloc::Global;

// The text for a first word that has no lines.
fn no_word(alloc: Global, word: &str, help: &[u8]) -> Result<Vec<u8>, NoMemory>
    requires { length word.now + length help.now < 2 ^ 64 }
    ensures { IfOk result (λ text. text.items ≡ wrong_by [] word.now help.now) }
{
    let mut text = begun(alloc, "words: no word ")?;
    push_words(&mut text, word)?;
    push_words(&mut text, ": ")?;
    push_near_words(alloc, &mut text, word.as_bytes(), help)?;
    push_words(&mut text, "explore help shows all\n")?;
    Ok(text)
}

// The text for one that has these lines, of words that were put behind each other wrongly.
fn with_lines(alloc: Global, lines: &[u8]) -> Result<Vec<u8>, NoMemory>
    ensures { IfOk result (λ text. text.items ≡ codes "words: not a command: " ++ lines.now) }
{
    let mut text = begun(alloc, "words: not a command: ")?;
    text.extend_from_slice(lines)?;
    Ok(text)
}

/// The text for words that are no command, by their first word and the lines of help: the lines of this word, and where there are none, the words
/// that it is nearest to.
#[tactic(auto, unfolding(crate::specs::NearWords::wrong_word))]
pub fn wrong_word(alloc: Global, word: &str, help: &[u8]) -> Result<Vec<u8>, NoMemory>
    requires { length word.now + length help.now < 2 ^ 64 }
    ensures { IfOk result (λ text. text.items ≡ wrong_word word.now help.now) }
{
    let mut lines = Vec::new(alloc);
    push_own_lines(&mut lines, word.as_bytes(), help)?;
    if lines.is_empty() {
        no_word(alloc, word, help)
    } else {
        with_lines(alloc, lines.as_slice())
    }
}
