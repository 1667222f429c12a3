//! The word `input`, and what it answers.
ghost use Rattle.re_frame.specs.Outcomes.{outcome_of};
ghost use Rattle.re_inputs.specs.InputWords.{IsInputWord, input_help as help_line, input_outcome, input_with, input_word_of, kind_named, kind_word};
ghost use Rattle.std.specs.Prelude.{◌≡◌, IfOk, IfSome, map, string_bytes};
ghost use Rattle.std.specs.Str.{bytes_eq};

use crate::kinds::{InputKind, fits};
use crate::making::input;
use re_frame::{Output, done};
use re_labels::NoMemory;
use re_problem::{print_problem, read_number};
use std::alloc::Global;

/// `input` with a kind, the active and the passive degree, and a number.
#[derive(Clone, Copy, Debug, PartialEq, Eq)]
pub struct InputWord {
    pub kind: InputKind,
    pub active: u8,
    pub passive: u8,
    pub number: u8,
}

const KINDS: [InputKind; 6] = [
    InputKind::Colouring,
    InputKind::Edges,
    InputKind::Sides,
    InputKind::Orientation,
    InputKind::Both,
    InputKind::Nothing,
];

fn kind_word(kind: InputKind) -> &'static str
    ensures { result.now ≡ kind_word kind }
{
    match kind {
        InputKind::Colouring => "colouring",
        InputKind::Edges => "edges",
        InputKind::Sides => "sides",
        InputKind::Orientation => "orientation",
        InputKind::Both => "both",
        InputKind::Nothing => "nothing",
    }
}

fn is_kind_word(kind: InputKind, word: &str) -> bool
    ensures { result ≡ bytes_eq (kind_word kind) word.now }
{
    kind_word(kind) == word
}

// The kind that a word names.
fn kind_named(word: &str) -> Option<InputKind>
    ensures { result ≡ kind_named word.now }
{
    KINDS.iter().copied().find(|kind| is_kind_word(*kind, word))
}

// The kind and the numbers, where there is such an input problem.
fn input_with(
    kind: Option<InputKind>,
    active: Option<u32>,
    passive: Option<u32>,
    number: Option<u32>,
) -> Option<InputWord>
    ensures word { result ≡ input_with kind active passive number }
    ensures fits { IfSome result IsInputWord }
{
    let kind = kind?;
    let active = active?;
    let passive = passive?;
    let number = number?;
    if fits(kind, active, passive, number) {
        Some(InputWord {
            kind,
            active: active as u8,
            passive: passive as u8,
            number: number as u8,
        })
    } else {
        None
    }
}

/// The word that the words name: `input`, a kind, the active and the passive degree, and a number, which is 0 where it doesn't stand. None
/// exactly where they name none, or there is no such input problem. Numbers have no leading zero.
#[tactic(auto, unfolding(crate::specs::InputWords::input_word_of))]
pub fn input_word(words: &[String]) -> Option<InputWord>
    ensures word { result ≡ input_word_of (map string_bytes words.now) }
    ensures fits { IfSome result IsInputWord }
{
    match words {
        [word, kind, active, passive] => {
            if "input" == word.as_str() {
                input_with(
                    kind_named(kind.as_str()),
                    read_number(active.as_bytes()),
                    read_number(passive.as_bytes()),
                    Some(0),
                )
            } else {
                None
            }
        }
        [word, kind, active, passive, number] => {
            if "input" == word.as_str() {
                input_with(
                    kind_named(kind.as_str()),
                    read_number(active.as_bytes()),
                    read_number(passive.as_bytes()),
                    read_number(number.as_bytes()),
                )
            } else {
                None
            }
        }
        _ => None,
    }
}

/// The line of help.
#[tactic(auto, unfolding(crate::specs::InputWords::input_help))]
pub fn input_help() -> &'static str
    ensures { result.now ≡ help_line }
{
    "input NAME A P N: reads nothing, gives an input problem: a colouring or edges with N colours, or without N edges, sides, orientation, both or nothing\n"
}

/// What the word answers: the input problem.
pub fn input_output(alloc: Global, word: InputWord) -> Result<Output, NoMemory>
    requires { IsInputWord word }
    ensures { IfOk result (λ output. outcome_of output ≡ input_outcome word) }
{
    let problem = input(alloc, word.kind, word.active, word.passive, word.number)?;
    Ok(done(print_problem(alloc, &problem)?))
}
