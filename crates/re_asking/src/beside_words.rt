//! Words with an input problem behind them that has a name.
ghost use Rattle.re_asking.specs.BesideWords.{input_by, is_given, named_input, own_words, with_colours, words_behind};
ghost use Rattle.std.specs.List.{after_first, position_or_len};
ghost use Rattle.std.specs.Prelude.{◌≡◌, ◌≤◌, [], ◌∷◌, length, map, string_bytes};

use re_inputs::InputKind;
use re_problem::read_number;

/// The name of an input problem: its kind, and the number of its colours, which is 0 where it has none.
#[derive(Clone, Copy, Debug, PartialEq, Eq)]
pub struct NamedInput {
    pub kind: InputKind,
    pub number: u32,
}

// How many words stand in front of the first `given`.
fn given_place(words: &[String]) -> usize
    ensures place { result ≡ position_or_len is_given (map string_bytes words.now) }
    ensures within { result ≤ length words.now }
{
    let mut place: usize = 0;
    let mut rest = words;
    'words: while let [word, others @ ..] = rest {
        if "given" == word.as_str() {
            return place;
        }
        place += 1;
        rest = others;
    }
    place
}

/// The words in front of the first `given` behind the first word: all, where there is none.
pub fn own_words(words: &[String]) -> &[String]
    ensures { map string_bytes result.now ≡ own_words (map string_bytes words.now) }
{
    if words.is_empty() {
        return words;
    }
    let others = words.split_at(1).1;
    let place = given_place(others);
    words.split_at(place + 1).0
}

// The words behind the first `given` of these.
fn behind_given(words: &[String]) -> &[String]
    ensures { map string_bytes result.now ≡ after_first is_given (map string_bytes words.now) }
{
    let place = given_place(words);
    if place < words.len() {
        words.split_at(place + 1).1
    } else {
        words.split_at(place).1
    }
}

// The words behind the first `given` behind the first word: none, where there is none.
fn words_behind(words: &[String]) -> &[String]
    ensures { map string_bytes result.now ≡ words_behind (map string_bytes words.now) }
{
    if words.is_empty() {
        return words;
    }
    behind_given(words.split_at(1).1)
}

fn with_colours(kind: InputKind, number: Option<u32>) -> Option<NamedInput>
    ensures { result ≡ with_colours kind number }
{
    let number = number?;
    if number == 0 {
        None
    } else {
        Some(NamedInput { kind, number })
    }
}

// The input problem that has no number, of this name.
#[tactic(auto, unfolding(crate::specs::BesideWords::input_by))]
fn unnumbered(name: &str) -> Option<NamedInput>
    ensures { result ≡ input_by (name.now ∷ []) }
{
    let kind = if "sides" == name {
        InputKind::Sides
    } else if "orientation" == name {
        InputKind::Orientation
    } else if "both" == name {
        InputKind::Both
    } else {
        return None;
    };
    Some(NamedInput { kind, number: 0 })
}

// The input problem that words name.
#[tactic(auto, unfolding(crate::specs::BesideWords::input_by))]
fn input_by(words: &[String]) -> Option<NamedInput>
    ensures { result ≡ input_by (map string_bytes words.now) }
{
    match words {
        [name] => unnumbered(name.as_str()),
        [number, colours] => {
            if "colours" == colours.as_str() {
                with_colours(InputKind::Colouring, read_number(number.as_bytes()))
            } else {
                None
            }
        }
        [number, edge, colours] => {
            if "edge" == edge.as_str() && "colours" == colours.as_str() {
                with_colours(InputKind::Edges, read_number(number.as_bytes()))
            } else {
                None
            }
        }
        _ => None,
    }
}

/// The input problem that the words behind the first `given` behind the first word name: `N colours`, `N edge colours`, for N from 1 on without a
/// leading zero, `sides`, `orientation` or `both`. None exactly where they name none.
pub fn named_input(words: &[String]) -> Option<NamedInput>
    ensures { result ≡ named_input (map string_bytes words.now) }
{
    input_by(words_behind(words))
}
