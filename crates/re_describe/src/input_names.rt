//! The names of input problems.
ghost use Rattle.re_describe.specs.InputNames.{input_text, is_of_kind, kind_of, kind_text, name_text, number_for};
ghost use Rattle.re_problem.specs.CanonicalTexts.{canonical};
ghost use Rattle.std.specs.Prelude.{◌≡◌, ◌++◌, IfOk, OnOk, find, length};
ghost use Rattle.std.specs.Str.{bytes_eq};

use crate::pieces::push_between;
use crate::problems::push_counts;
use re_frame::{begun, push_words};
use re_inputs::{InputKind, fits, input};
use re_labels::NoMemory;
use re_problem::{Problem, print_problem};
use std::alloc::Global;

// The number that the kind has where an input problem has so many labels.
fn number_for(kind: InputKind, labels: u8) -> u8
    ensures { result ≡ number_for kind labels }
{
    match kind {
        InputKind::Colouring => labels,
        InputKind::Edges => labels,
        InputKind::Sides => 0,
        InputKind::Orientation => 0,
        InputKind::Both => 0,
        InputKind::Nothing => 0,
    }
}

// Whether the two problems have one text.
fn is_same(alloc: Global, problem: &Problem, other: &Problem) -> Result<bool, NoMemory>
    ensures { IfOk result (λ same. same ≡ bytes_eq (canonical problem.now) (canonical other.now)) }
{
    let text = print_problem(alloc, problem)?;
    let other_text = print_problem(alloc, other)?;
    Ok(text.as_slice() == other_text.as_slice())
}

// Whether the input problem is the one of this kind in its degrees.
fn is_of_kind(alloc: Global, given: &Problem, kind: InputKind) -> Result<bool, NoMemory>
    ensures { IfOk result (λ is. is ≡ is_of_kind given.now kind) }
{
    let degrees = given.degrees();
    let number = number_for(kind, given.names().len() as u8);
    if !fits(
        kind,
        u32::from(degrees.active),
        u32::from(degrees.passive),
        u32::from(number),
    ) {
        return Ok(false);
    }
    let named = input(alloc, kind, degrees.active, degrees.passive, number)?;
    is_same(alloc, &named, given)
}

// The first of these kinds that the input problem is of.
fn first_kind(
    alloc: Global,
    given: &Problem,
    kinds: &[InputKind],
) -> Result<Option<InputKind>, NoMemory>
    ensures { IfOk result (λ kind. kind ≡ find (is_of_kind given.now) kinds.now) }
{
    let [kind, others @ ..] = kinds else {
        return Ok(None);
    };
    if is_of_kind(alloc, given, *kind)? {
        return Ok(Some(*kind));
    }
    first_kind(alloc, given, others)
}

// The kind that it is of.
fn kind_of(alloc: Global, given: &Problem) -> Result<Option<InputKind>, NoMemory>
    ensures { IfOk result (λ kind. kind ≡ kind_of given.now) }
{
    first_kind(
        alloc,
        given,
        &[
            InputKind::Sides,
            InputKind::Colouring,
            InputKind::Edges,
            InputKind::Orientation,
            InputKind::Both,
            InputKind::Nothing,
        ],
    )
}

// Appends what a solution of this kind is, with so many labels.
fn push_kind(text: &mut Vec<u8>, kind: InputKind, labels: usize) -> Result<(), NoMemory>
    ensures { OnOk result (text.new.items ≡ text.old.items ++ kind_text kind labels) }
{
    match kind {
        InputKind::Colouring => push_between(
            text,
            "\nA solution is a proper colouring of the active nodes with ",
            labels,
            " colours: all edges of an active node have its colour, and those of a passive node different ones.\n",
        ),
        InputKind::Edges => push_between(
            text,
            "\nA solution is a proper colouring of the passive nodes with ",
            labels,
            " colours: all edges of a passive node have its colour, and those of an active node different ones.\n",
        ),
        InputKind::Sides => push_words(
            text,
            "\nA solution tells the two sides of the graph whose edges are the passive nodes: all edges of an active node have the label of its side, and those of a passive node one label of each.\n",
        ),
        InputKind::Orientation => push_words(
            text,
            "\nA solution is an orientation: exactly one edge of each passive node leads out of its active node, and it has the label `O`; the others have `I`.\n",
        ),
        InputKind::Both => push_words(
            text,
            "\nA solution is an orientation by which edges lead into each active node and out of it: exactly one edge of each passive node leads out of its active node, and it has the label `O`; the others have `I`.\n",
        ),
        InputKind::Nothing => {
            push_words(text, "\nA solution says nothing: there is one label.\n")
        }
    }
}

// Appends it where the input problem is of a kind.
fn push_name(text: &mut Vec<u8>, kind: Option<InputKind>, labels: usize) -> Result<(), NoMemory>
    ensures { OnOk result (text.new.items ≡ text.old.items ++ name_text kind labels) }
{
    match kind {
        Some(kind) => push_kind(text, kind, labels),
        None => push_words(text, ""),
    }
}

// The same of an input problem.
fn push_named(text: &mut Vec<u8>, given: &Problem) -> Result<(), NoMemory>
    ensures { OnOk result (text.new.items ≡ text.old.items ++ name_text (kind_of given.now) (length given.now.names)) }
{
    let alloc = *text.allocator();
    let kind = kind_of(alloc, given)?;
    push_name(text, kind, given.names().len())
}

/// The input problem: its title, what a solution is where it is one that `re_inputs` makes, and its numbers.
pub(crate) fn input_text(alloc: Global, given: &Problem) -> Result<Vec<u8>, NoMemory>
    ensures { IfOk result (λ text. text.items ≡ input_text given.now) }
{
    let mut text = begun(alloc, "\n## Input problem\n")?;
    push_named(&mut text, given)?;
    push_counts(&mut text, given)?;
    Ok(text)
}
