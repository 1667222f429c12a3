// Texts that are put together piece by piece.
ghost use Rattle.std.specs.Fmt.{decimal};
ghost use Rattle.std.specs.Prelude.{◌≡◌, ◌++◌, IfOk, OnOk, string_bytes};

use re_labels::NoMemory;
use std::alloc::{AllocError, Global};

/// The text that begins with these words.
pub fn begun(alloc: Global, words: &str) -> Result<Vec<u8>, NoMemory>
    ensures { IfOk result (λ text. text.items ≡ words.now) }
{
    Ok(String::from_str(alloc, words)?.into_bytes())
}

/// Appends these words.
pub fn push_words(text: &mut Vec<u8>, words: &str) -> Result<(), NoMemory>
    ensures { OnOk result (text.new.items ≡ text.old.items ++ words.now) }
{
    Ok(text.extend_from_slice(words.as_bytes())?)
}

fn digits(alloc: Global, number: usize) -> Result<String, AllocError>
    ensures { IfOk result (λ text. string_bytes text ≡ decimal number) }
{
    format!(in alloc; "{number}")
}

/// Appends a number.
pub fn push_number(alloc: Global, text: &mut Vec<u8>, number: usize) -> Result<(), NoMemory>
    ensures { OnOk result (text.new.items ≡ text.old.items ++ decimal number) }
{
    let digits = digits(alloc, number)?;
    push_words(text, digits.as_str())
}
