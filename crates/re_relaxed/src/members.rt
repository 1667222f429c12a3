//! The problems of the library.
use crate::library::Member;
use re_families::{Family, FamilyFault, family};
use re_io::MAX_BYTES;
use re_labels::NoMemory;
use re_problem::{Problem, TextFault, read_problem};
use std::alloc::Global;

// The digit of a power.
fn digit(power: u8) -> u8 {
    b'0' + power.min(9)
}

// What a letter stands for as a power: `a` is the active degree, `b`, `c` and `d` are it less one to three; `p` is the passive degree, `q` and `r` are
// it less one and two. `h` is half the active degree less one, and `m` what is left of the degree.
fn power(letter: u8, active: u8, passive: u8) -> u8 {
    let half = (active / 2).saturating_sub(1);
    match letter {
        b'a' => digit(active),
        b'b' => digit(active.saturating_sub(1)),
        b'c' => digit(active.saturating_sub(2)),
        b'd' => digit(active.saturating_sub(3)),
        b'h' => digit(half),
        b'm' => digit(active.saturating_sub(half)),
        b'p' => digit(passive),
        b'q' => digit(passive.saturating_sub(1)),
        b'r' => digit(passive.saturating_sub(2)),
        other => other,
    }
}

// The text of a problem, in which lower letters are powers.
fn form(member: Member) -> &'static str {
    match member {
        Member::SinklessOrientation => "O [IO]^b\n\nO I^q\n",
        Member::SinklessExchanged => "O I^b\n\nO [IO]^q\n",
        Member::NoSinksNoSources => "I O [IO]^c\n\nO I^q\n",
        Member::PerfectMatching => "M O^b\n\nM^p\nO^p\n",
        Member::WeakSplitting => "A B [AB]^c\n\nA^p\nB^p\n",
        Member::HypergraphTwoColouring => "A^a\nB^a\n\nA B [AB]^r\n",
        Member::ArbdefectiveTwoColouring => "A^m X^h\nB^m X^h\n\nX [ABX]\nA B\n",
        Member::ArbdefectiveThreeColouring => "A^5 X\nB^5 X\nC^5 X\n\nX [ABCX]\nA [BC]\nB C\n",
        Member::DefectiveTwoColouring => "A D^2 D^d\nB E^2 E^d\n\nA [ABE]\nB [BD]\nD E\n",
        Member::TwiceDefectiveTwoColouring => "A^2 D^4\nB^2 E^4\n\nA [ABE]\nB [BD]\nD E\n",
        _ => "",
    }
}

// The problem of a text with these degrees, if there is one.
fn written(
    alloc: Global,
    form: &str,
    active: u8,
    passive: u8,
) -> Result<Option<Problem>, NoMemory> {
    let mut text = Vec::new(alloc);
    for letter in form.as_bytes() {
        text.push(power(*letter, active, passive))?;
    }
    if text.len() > MAX_BYTES {
        return Ok(None);
    }
    match read_problem(alloc, text.as_slice()) {
        Ok(problem) => Ok(Some(problem)),
        Err(TextFault::Bad(_)) => Ok(None),
        Err(TextFault::NoMemory) => Err(NoMemory),
    }
}

// The problem of a colouring with so many colours, if it isn't more than there are edges around a node.
fn coloured(
    alloc: Global,
    colours: u8,
    active: u8,
    passive: u8,
) -> Result<Option<Problem>, NoMemory> {
    if colours < passive || colours > active.max(passive) {
        return Ok(None);
    }
    match family(alloc, Family::Colouring, active, passive, colours) {
        Ok(problem) => Ok(Some(problem)),
        Err(FamilyFault::OutOfRange(_)) => Ok(None),
        Err(FamilyFault::NoMemory) => Err(NoMemory),
    }
}

// The problem, if it has these degrees.
fn with_degrees(problem: Option<Problem>, active: u8, passive: u8) -> Option<Problem> {
    let problem = problem?;
    if problem.active().degree() == active && problem.passive().degree() == passive {
        Some(problem)
    } else {
        None
    }
}

/// The problem of the library with these degrees, if there is one.
pub(crate) fn member_problem(
    alloc: Global,
    member: Member,
    active: u8,
    passive: u8,
) -> Result<Option<Problem>, NoMemory> {
    let problem = match member {
        Member::TwoColouring => coloured(alloc, 2, active, passive)?,
        Member::ThreeColouring => coloured(alloc, 3, active, passive)?,
        Member::FourColouring => coloured(alloc, 4, active, passive)?,
        Member::FiveColouring if passive < 5 => coloured(alloc, 5, active, passive)?,
        _ => written(alloc, form(member), active, passive)?,
    };
    Ok(with_degrees(problem, active, passive))
}
