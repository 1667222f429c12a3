//! Maps as they are read: the image of each label.
use re_labels::LabelSet;
use re_problem::TextFault;
use re_texts::{LabelMapInput, SetMapInput, read_label_map, read_set_map};
use std::alloc::{AllocError, Global};

// Problems of 3 and 2 edges with the labels I and O; the entries begin at byte 46, in line 10.
const RELAX: &[u8] = b"== from\nO I^2\n\nI O\n== to\nO [IO]^2\n\nI O\n== map\n";

// From labels I and O to labels A and B; the entries begin in line 10.
const RESTRICT: &[u8] = b"== from\n[IO]^3\n\nI O\n== to\nA B\n\n[AB]^3\n== map\n";

fn joined(alloc: Global, front: &[u8], back: &[u8]) -> Result<Vec<u8>, AllocError> {
    let mut text = Vec::from_slice(alloc, front)?;
    text.extend_from_slice(back)?;
    Ok(text)
}

// The map of a text, which is short.
fn label_map(alloc: Global, text: &[u8]) -> Result<LabelMapInput, TextFault> {
    if text.len() > 1_000 {
        return Err(TextFault::NoMemory);
    }
    read_label_map(alloc, text)
}

fn set_map(alloc: Global, text: &[u8]) -> Result<SetMapInput, TextFault> {
    if text.len() > 1_000 {
        return Err(TextFault::NoMemory);
    }
    read_set_map(alloc, text)
}

// Whether the map gives each label this image, between problems of one active configuration and of three.
fn gives_labels(input: &LabelMapInput, images: &[u8]) -> bool {
    input.map.images() == images && input.from.active().len() == 1 && input.to.active().len() == 3
}

// Whether the text is of such a map.
fn has_images(alloc: Global, text: &[u8], images: &[u8]) -> bool {
    match label_map(alloc, text) {
        Ok(input) => gives_labels(&input, images),
        Err(_) => false,
    }
}

// Whether these entries are.
fn have_images(alloc: Global, entries: &[u8], images: &[u8]) -> bool {
    match joined(alloc, RELAX, entries) {
        Ok(text) => has_images(alloc, text.as_slice(), images),
        Err(_) => false,
    }
}

#[test]
fn maps_of_labels(rt: HostRuntime) {
    for (entries, images) in [
        (b"I I\nO O\n".as_slice(), [0, 1]),
        // an unfinished last line
        (b"I I\nO O", [0, 1]),
        (b"\nI  (O)\r\n \n\tO I\n\n", [1, 0]),
    ] {
        assert!(rt; have_images(rt.alloc(), entries, &images));
    }
}

// Whether the text gives each label the set of this number.
fn has_sets(alloc: Global, text: &[u8], numbers: &[u128; 2]) -> bool {
    let sets = [
        LabelSet::of_number(numbers[0]),
        LabelSet::of_number(numbers[1]),
    ];
    match set_map(alloc, text) {
        Ok(input) => input.map.images() == sets.as_slice(),
        Err(_) => false,
    }
}

fn have_sets(alloc: Global, entries: &[u8], numbers: &[u128; 2]) -> bool {
    match joined(alloc, RESTRICT, entries) {
        Ok(text) => has_sets(alloc, text.as_slice(), numbers),
        Err(_) => false,
    }
}

#[test]
fn maps_of_sets(rt: HostRuntime) {
    for (entries, numbers) in [
        (b"A [I]\nB [OI]\n".as_slice(), [1, 3]),
        (b"A I\nB [ ]\n", [1, 0]),
        (b"A []\nB []", [0, 0]),
    ] {
        assert!(rt; have_sets(rt.alloc(), entries, &numbers));
    }
}
