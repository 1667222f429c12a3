//! The names of the labels of the families.
ghost use Rattle.re_families.specs.Families.{colour_name, rules_of};
ghost use Rattle.re_labels.specs.ListSets.{list_set, with_list};
ghost use Rattle.re_labels.specs.Lists.{count_from};
ghost use Rattle.re_labels.specs.Names.{IsName};
ghost use Rattle.std.specs.Char.{is_ascii_alphanumeric};
ghost use Rattle.std.specs.List.{AllByRecursion};
ghost use Rattle.std.specs.Prelude.{◌≡◌, ◌≤◌, ◌<◌, ◌∷◌, [], IfOk, IsTrue, OnOk, length, map};

use crate::types::Family;
use re_labels::{MAX_LABELS, Name, Names, NamesFault, NoMemory};
use std::alloc::Global;

// One name more, where there is room.
fn put_name(names: &mut Names, text: &[u8]) -> Result<(), NoMemory>
    requires name { IsName text.now }
    requires room { length names.old < MAX_LABELS }
    ensures { OnOk result (names.new ≡ with_list names.old text.now) }
{
    let Some(name) = Name::new(text) else {
        unreachable!();
    };
    match names.insert(name) {
        Ok(_) => Ok(()),
        Err(NamesFault::NoMemory) => Err(NoMemory),
        Err(NamesFault::TooMany) => unreachable!(),
    }
}

// The name of one of so many colours, which count from 1.
fn put_colour(names: &mut Names, colours: u8, colour: u8) -> Result<(), NoMemory>
    requires least { 1 ≤ colour }
    requires among { colour ≤ colours }
    requires most { colours ≤ 16 }
    requires room { length names.old < MAX_LABELS }
    ensures { OnOk result (names.new ≡ with_list names.old (colour_name colours colour)) }
{
    if colours <= 9 {
        put_name(names, &[b'0' + colour])
    } else {
        put_name(names, &[b'0' + colour / 10, b'0' + colour % 10])
    }
}

fn colour_names(alloc: Global, colours: u8) -> Result<Names, NoMemory>
    requires { colours ≤ 16 }
    ensures { IfOk result (λ names. names ≡ map (colour_name colours) (count_from 1 colours)) }
{
    let mut names = Names::new(alloc);
    for before in 0..colours {
        put_colour(&mut names, colours, before + 1)?;
    }
    Ok(names)
}

// The names of one letter each.
fn letter_names(alloc: Global, letters: &[u8]) -> Result<Names, NoMemory>
    requires few { length letters.now ≤ MAX_LABELS }
    requires letters { AllByRecursion (λ letter. IsTrue (is_ascii_alphanumeric letter)) letters.now }
    ensures { IfOk result (λ names. names ≡ list_set (map (λ letter. letter ∷ []) letters.now)) }
{
    let mut names = Names::new(alloc);
    for letter in letters {
        put_name(&mut names, &[*letter])?;
    }
    Ok(names)
}

/// The names of the labels of a family, in order.
pub fn names_of(alloc: Global, kind: Family, number: u8) -> Result<Names, NoMemory>
    requires { number ≤ 16 }
    ensures { IfOk result (λ names. names ≡ (rules_of kind number).names) }
{
    match kind {
        Family::Colouring => colour_names(alloc, number),
        Family::Matching => letter_names(alloc, b"MO"),
        Family::Orientation => letter_names(alloc, b"IO"),
        Family::Mis => letter_names(alloc, b"MOP"),
    }
}
