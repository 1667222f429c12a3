//! What no clause says: each call once with ample memory, and the values at the ends.
use re_labels::{Degrees, LabelSet, Name, Names, NamesFault, NoMemory, PortLabels, Side};
use std::alloc::AllocError;

fn are_swapped() -> bool {
    let degrees = Degrees {
        active: 3,
        passive: 2,
    };
    degrees.of(Side::Active) == 3
        && degrees.of(Side::Passive.other()) == 3
        && degrees.swapped().of(Side::Active) == 2
}

#[test]
fn sides_and_degrees(rt: HostRuntime) {
    assert!(rt; are_swapped());
    assert!(rt; NoMemory::from(AllocError) == NoMemory);
}

fn are_members() -> bool {
    let low = LabelSet::single(0).insert(5);
    low.has(5)
        && !low.has(127)
        && !low.remove(5).has(5)
        && low.first() == Some(0)
        && LabelSet::empty().first().is_none()
        && low.number() == 33
        && LabelSet::of_number(33) == low
        && LabelSet::default().is_empty()
        && !low.is_empty()
}

#[test]
fn members_of_sets(rt: HostRuntime) {
    assert!(rt; are_members());
}

fn are_compared() -> bool {
    let low = LabelSet::single(0).insert(5);
    let ends = LabelSet::single(127).insert(0);
    low.union(ends).count() == 3
        && low.meet(ends) == LabelSet::single(0)
        && low.meet(ends).within(low)
        && !low.within(ends)
        && low < ends
}

#[test]
fn two_sets(rt: HostRuntime) {
    assert!(rt; are_compared());
}

#[test]
fn labels_in_order(rt: HostRuntime) {
    let ends = LabelSet::single(127).insert(0);
    for (label, next) in [(0, Some(127)), (126, Some(127)), (127, None)] {
        assert!(rt; ends.after(label) == next);
    }
}

fn is_named(text: &[u8], name: &Name) -> bool {
    name.text() == text && name.copy() == *name
}

// Whether the text is a name, or isn't, as wanted.
fn is_name(text: &[u8], want: bool) -> bool {
    match Name::new(text) {
        Some(name) => want && is_named(text, &name),
        None => !want,
    }
}

#[test]
fn texts_of_names(rt: HostRuntime) {
    for (text, want) in [
        (b"".as_slice(), false),
        (b"M", true),
        (b"azAZ09_", true),
        (b"sixteen_bytes_16", true),
        (b"seventeen_bytes17", false),
        (b"a-b", false),
        (b"a b", false),
        (b"@[`{/:", false),
        (b"\xc3\xa9", false),
    ] {
        assert!(rt; is_name(text, want));
    }
}

// Adds a name, or tells that it can't.
fn add(names: &mut Names, text: &[u8]) -> Option<Result<bool, NamesFault>> {
    match Name::new(text) {
        Some(name) => Some(names.insert(name)),
        None => None,
    }
}

// As many names as there may be, from `Aa` to `Ph`; whether all of them are new.
fn add_most(names: &mut Names) -> bool {
    for i in 0..128 {
        if add(names, &[b'A' + i % 16, b'a' + i / 16]) != Some(Ok(true)) {
            return false;
        }
    }
    true
}

// Whether this comes of one name more, and there are as many then as may be.
fn is_added(names: &mut Names, text: &[u8], want: Result<bool, NamesFault>) -> bool {
    add(names, text) == Some(want) && names.len() == 128
}

// Whether the name is found there, as a name and as a text.
fn is_found(names: &Names, text: &[u8], want: Option<u8>) -> bool {
    match Name::new(text) {
        Some(name) => names.find(&name) == want && names.find_text(text) == want,
        None => false,
    }
}

fn are_found(names: &Names) -> bool {
    is_found(names, b"z", None)
        && is_found(names, b"Aa", Some(0))
        && is_found(names, b"Ph", Some(127))
        && is_found(names, b"A", None)
}

fn ends_with(names: &Names, text: &[u8]) -> bool {
    names.len() == 128 && names.name(127).text() == text
}

fn is_copied(names: &Names) -> bool {
    match names.copy() {
        Ok(copied) => ends_with(&copied, b"Ph"),
        Err(_) => false,
    }
}

// Whether names that are new come to 128, and are found and copied then.
fn are_most_names(names: &mut Names) -> bool {
    names.is_empty()
        && add_most(names)
        && is_added(names, b"z", Err(NamesFault::TooMany))
        && is_added(names, b"Aa", Ok(false))
        && are_found(names)
        && is_copied(names)
}

#[test]
fn the_129th_name(rt: HostRuntime) {
    let mut names = Names::new(rt.alloc());
    assert!(rt; are_most_names(&mut names));
}

fn are_three(labels: &[u8]) -> bool {
    match PortLabels::new(labels) {
        Some(found) => found.labels() == labels,
        None => false,
    }
}

#[test]
fn few_or_many_labels(rt: HostRuntime) {
    assert!(rt; PortLabels::new(&[1]).is_none());
    assert!(rt; PortLabels::new(&[1, 2, 3, 4, 5, 6, 7]).is_none());
    assert!(rt; are_three(&[3, 1, 2]));
}
