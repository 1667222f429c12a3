//! Lines that are written, with ample memory.
ghost use Rattle.re_labels.specs.Sets.{IsLabelSet};
ghost use Rattle.std.specs.List.{AllByRecursion};
ghost use Rattle.std.specs.Prelude.{◌≡◌, length};

use re_cert::{Kind, SetEntry};
use re_labels::{LabelSet, Name, Names, Row};
use re_texts::{push_entry, push_header, push_pair, push_row};
use std::alloc::Global;
use std::test::Fail;

fn names_of(alloc: Global, texts: &[&[u8]]) -> Result<Names, Fail> {
    let mut names = Names::new(alloc);
    for text in texts {
        let name = Name::new(text).ok_or("no name")?;
        names.insert(name)?;
    }
    Ok(names)
}

fn entry(set: LabelSet, label: u8) -> SetEntry
    ensures set { result.set ≡ set }
    ensures label { result.label ≡ label }
{
    SetEntry { set, label }
}

// Lines of entries between `A B long` and `I O`.
fn entry_lines(alloc: Global, letters: &Names, halves: &Names) -> Result<Vec<u8>, Fail>
    requires letters { length letters.now ≡ 3 }
    requires halves { length halves.now ≡ 2 }
{
    let single = LabelSet::single(0);
    let all = LabelSet::single(0).insert(1).insert(2);
    let mut text = Vec::new(alloc);
    push_entry(&mut text, true, letters, letters, &entry(all, 0))?;
    text.push(b'\n')?;
    push_entry(
        &mut text,
        true,
        halves,
        letters,
        &entry(LabelSet::empty(), 0),
    )?;
    text.push(b'\n')?;
    push_entry(&mut text, false, halves, letters, &entry(single, 0))?;
    text.push(b'\n')?;
    push_entry(&mut text, false, letters, letters, &entry(all, 2))?;
    text.push(b'\n')?;
    push_pair(&mut text, letters, halves, (0, 1))?;
    text.push(b'\n')?;
    push_pair(&mut text, halves, letters, (0, 2))?;
    Ok(text)
}

#[test]
fn entries_and_pairs(rt: HostRuntime) -> Result<(), Fail> {
    let letters = names_of(rt.alloc(), &[b"long", b"A", b"B"])?;
    let halves = names_of(rt.alloc(), &[b"I", b"O"])?;
    assert_eq!(rt; letters.len(), 3);
    assert_eq!(rt; halves.len(), 2);
    if letters.len() == 3 && halves.len() == 2 {
        let text = entry_lines(rt.alloc(), &letters, &halves)?;
        assert!(rt;
            text.as_slice()
                == b"[AB(long)] A\n[] A\nA [I]\n(long) [AB(long)]\nA O\nI (long)".as_slice()
        );
    }
    Ok(())
}

// The line of the row of these sets, which are given in order.
fn push_line(text: &mut Vec<u8>, names: &Names, sets: &[LabelSet]) -> Result<(), Fail>
    requires { AllByRecursion (IsLabelSet (length names.now)) sets.now }
{
    let _count = names.len();
    let row = Row::from_sets(sets).ok_or("no row")?;
    if row.sets() == sets {
        push_row(text, names, &row)?;
    }
    Ok(text.push(b'\n')?)
}

fn row_lines(alloc: Global, letters: &Names, halves: &Names) -> Result<Vec<u8>, Fail>
    requires letters { length letters.now ≡ 3 }
    requires halves { length halves.now ≡ 2 }
{
    let first = LabelSet::single(0);
    let second = LabelSet::single(1);
    let both = LabelSet::single(0).insert(1);
    let long = LabelSet::single(2);
    let mut text = Vec::new(alloc);
    push_line(&mut text, halves, &[first, both])?;
    push_line(&mut text, letters, &[second, both, both])?;
    push_line(&mut text, letters, &[long, long])?;
    Ok(text)
}

#[test]
fn rows(rt: HostRuntime) -> Result<(), Fail> {
    let letters = names_of(rt.alloc(), &[b"long", b"A", b"B"])?;
    let halves = names_of(rt.alloc(), &[b"I", b"O"])?;
    if letters.len() == 3 && halves.len() == 2 {
        let text = row_lines(rt.alloc(), &letters, &halves)?;
        assert!(rt; text.as_slice() == b"[I] [IO]\n[B] [AB]^2\n[(long)]^2\n".as_slice());
    }
    Ok(())
}

#[test]
fn headers(rt: HostRuntime) -> Result<(), Fail> {
    let table: [(Kind, u8, &[u8]); 5] = [
        (Kind::Lower, 0, b"== certificate 1 lower"),
        (Kind::Upper, 0, b"== certificate 1 upper"),
        (Kind::Fixed, 0, b"== certificate 1 fixed 0"),
        (Kind::Fixed, 10, b"== certificate 1 fixed 10"),
        (Kind::Fixed, 63, b"== certificate 1 fixed 63"),
    ];
    for (kind, back, line) in table {
        let mut text = Vec::new(rt.alloc());
        push_header(&mut text, false, kind, back)?;
        assert!(rt; text.as_slice() == line);
    }
    Ok(())
}
