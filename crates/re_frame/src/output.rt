// What a command makes: an answer and its text.
ghost use Rattle.std.specs.Prelude.{◌≡◌, IfOk};
ghost use Rattle.re_frame.specs.Outcomes.{done as done_with, limit as limit_with, limit_of as limit_of_with, outcome_of, refused as refused_with, too_long as is_too_long};
ghost use Rattle.re_frame.specs.declared.output.OutputFault.TheVariants.{NoMemory as no_memory};

use crate::status::Answer;
use crate::text::{begun, push_number, push_words};
use re_labels::NoMemory;
use std::alloc::{AllocError, Global};

/// An answer, and the whole text that is put with it.
#[derive(Drop)]
pub struct Output {
    pub answer: Answer,
    pub text: Vec<u8>,
}

/// Why there is no output.
#[derive(Clone, Copy, Debug, PartialEq, Eq)]
pub enum OutputFault {
    ReadFault,
    NoMemory,
}

impl From<AllocError> for OutputFault {
    ghost from_gives = { λ _ e. e ≡ no_memory };

    fn from(_: AllocError) -> Self {
        OutputFault::NoMemory
    }
}

impl From<NoMemory> for OutputFault {
    ghost from_gives = { λ _ e. e ≡ no_memory };

    fn from(_: NoMemory) -> Self {
        OutputFault::NoMemory
    }
}

/// The output of a text that is the whole answer.
pub fn done(text: Vec<u8>) -> Output
    ensures { outcome_of result ≡ done_with text.items }
{
    Output {
        answer: Answer::Done,
        text,
    }
}

/// The refusal with this text.
pub fn refused(text: Vec<u8>) -> Output
    ensures { outcome_of result ≡ refused_with text.items }
{
    Output {
        answer: Answer::No,
        text,
    }
}

/// The output for a limit that is passed, with this text.
pub fn limited(text: Vec<u8>) -> Output
    ensures output { outcome_of result ≡ limit_with text.items }
    ensures limit { result.answer ≡ Answer.Limit }
{
    Output {
        answer: Answer::Limit,
        text,
    }
}

/// The output for more than this number of what the unit counts.
pub fn limit_of(alloc: Global, number: usize, unit: &str) -> Result<Output, NoMemory>
    ensures output { IfOk result (λ output. outcome_of output ≡ limit_of_with number unit.now) }
    ensures limit { IfOk result (λ output. output.answer ≡ Answer.Limit) }
{
    let mut text = begun(alloc, "limit: more than ")?;
    push_number(alloc, &mut text, number)?;
    push_words(&mut text, " ")?;
    push_words(&mut text, unit)?;
    push_words(&mut text, "\n")?;
    Ok(limited(text))
}

/// The output for an input of more than `MAX_BYTES` bytes.
pub fn too_long(alloc: Global) -> Result<Output, AllocError>
    ensures { IfOk result (λ output. outcome_of output ≡ is_too_long) }
{
    Ok(Output {
        answer: Answer::Limit,
        text: String::from_str(alloc, "limit: more than 16777216 bytes\n")?.into_bytes(),
    })
}
