//! Lines as they are written, and each call once with ample memory.
ghost use Rattle.std.specs.Prelude.{◌≤◌, length};

use re_labels::{LabelSet, Name, Names, NamesFault};
use re_problem::{
    Item, ItemStep, add_item_names, first_bad_byte, is_empty_line, item_labels, next_item,
    read_empty_degree, read_number,
};

fn label(to: usize, power: Option<u8>) -> ItemStep {
    ItemStep::Item(Item {
        from: 0,
        to,
        group: false,
        empty: false,
        power,
    })
}

fn group(from: usize, to: usize, empty: bool, power: Option<u8>) -> ItemStep {
    ItemStep::Item(Item {
        from,
        to,
        group: true,
        empty,
        power,
    })
}

// The item from this place on, which is in the line.
fn step_at(line: &[u8], at: usize) -> ItemStep {
    if at <= line.len() {
        next_item(line, at)
    } else {
        ItemStep::Bad
    }
}

#[test]
fn lines_that_begin_with_no_item(rt: HostRuntime) {
    for line in [b"".as_slice(), b" \t\r"] {
        assert!(rt; next_item(line, 0) == ItemStep::End);
    }
    for line in [
        b"%".as_slice(),
        b"A^0",
        b"A^01",
        b"A^100",
        b"A^",
        b"A^2^2",
        b"A^2B",
        b"AB",
        b"A[B]",
        b"A(B)",
        b"_",
        b"(abcdefghijklmnopq)",
        b"[A",
        b"A]",
        b"[[A]]",
        b"[A^2]",
        b"[A][B]",
    ] {
        assert!(rt; next_item(line, 0) == ItemStep::Bad);
    }
}

#[test]
fn lines_that_begin_with_a_label(rt: HostRuntime) {
    for (line, to, power) in [
        (b"A".as_slice(), 1, None),
        (b"A B", 1, None),
        (b"A\t", 1, None),
        (b"(A)", 3, None),
        (b"(AB)^2", 6, Some(2)),
        (b"A^1", 3, Some(1)),
        (b"A^99", 4, Some(99)),
        (b"A ^2", 1, None),
        (b"(_)", 3, None),
        (b"(abcdefghijklmnop)", 18, None),
    ] {
        assert!(rt; next_item(line, 0) == label(to, power));
    }
}

#[test]
fn lines_that_begin_with_a_group(rt: HostRuntime) {
    for (line, at, from, to, empty, power) in [
        (b"[]".as_slice(), 0, 0, 2, true, None),
        (b"[ ]^2", 0, 0, 5, true, Some(2)),
        (b"[A (BC)]", 0, 0, 8, false, None),
        (b"[ A\tB\r]^3 C", 0, 0, 9, false, Some(3)),
        (b"A^2  [B]", 3, 5, 8, false, None),
    ] {
        assert!(rt; step_at(line, at) == group(from, to, empty, power));
    }
}

#[test]
fn bytes_that_are_not_allowed(rt: HostRuntime) {
    for (line, place) in [
        (b"[A_0](z)^% \t\r".as_slice(), None),
        (b"A*B=", Some(1)),
        (b"A\x0b", Some(1)),
        (b"\x00", Some(0)),
        (b"AB\xc3", Some(2)),
    ] {
        assert!(rt; first_bad_byte(line) == place);
    }
}

#[test]
fn numbers(rt: HostRuntime) {
    for (text, number) in [
        (b"0".as_slice(), Some(0)),
        (b"64", Some(64)),
        (b"999999999", Some(999_999_999)),
        (b"1000000000", None),
        (b"00", None),
        (b"07", None),
        (b"+1", None),
        (b"1a", None),
        (b"", None),
    ] {
        assert!(rt; read_number(text) == number);
    }
}

#[test]
fn degrees_of_empty_constraints(rt: HostRuntime) {
    for (line, degree) in [
        (b"%3".as_slice(), Some(3)),
        (b"\t%99 ", Some(99)),
        (b"% 2", None),
        (b"%0", None),
        (b"%03", None),
        (b"%100", None),
        (b"A %2", None),
        (b"%2 A", None),
        (b"%", None),
    ] {
        assert!(rt; read_empty_degree(line) == degree);
    }
}

#[test]
fn empty_lines(rt: HostRuntime) {
    assert!(rt; is_empty_line(b"\r \t") && !is_empty_line(b" _ "));
}

fn labels_at(line: &[u8], at: usize, names: &Names) -> Option<LabelSet>
    requires { at ≤ length line.now }
{
    match next_item(line, at) {
        ItemStep::Item(item) => item_labels(line, &item, names),
        _ => None,
    }
}

fn add_names_at(line: &[u8], at: usize, names: &mut Names) -> Result<(), NamesFault>
    requires { at ≤ length line.now }
{
    match next_item(line, at) {
        ItemStep::Item(item) => add_item_names(line, &item, names),
        _ => Err(NamesFault::TooMany),
    }
}

// Whether the name is new.
fn is_added(names: &mut Names, text: &[u8]) -> bool {
    match Name::new(text) {
        Some(name) => names.insert(name) == Ok(true),
        None => false,
    }
}

// Whether the labels of the items of a line have these numbers, before and behind the names of the second one.
fn are_numbered(names: &mut Names) -> bool {
    let line = b"[C (A) C]^2 [A(bc)]";
    labels_at(line, 0, names) == Some(LabelSet::of_number(3))
        && labels_at(line, 11, names).is_none()
        && add_names_at(line, 11, names) == Ok(())
        && labels_at(line, 11, names) == Some(LabelSet::of_number(5))
}

fn are_items_numbered(names: &mut Names) -> bool {
    is_added(names, b"A") && is_added(names, b"C") && are_numbered(names)
}

#[test]
fn labels_of_items(rt: HostRuntime) {
    let mut names = Names::new(rt.alloc());
    assert!(rt; are_items_numbered(&mut names));
}
