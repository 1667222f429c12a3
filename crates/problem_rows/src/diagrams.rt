//! Small problems merged: the label of the smaller problem that stands for each of theirs.
use re_changes::merge;
use re_problem::{Problem, TextFault, read_problem};
use std::alloc::Global;

const ALL_LABELS: &[u8] =
    b"[0123456789ABCDEFGHIJKLMNOPQRSTUVWXYZabcdefghijklmnopqrstuvwxyz(A0)(A1)(A2)(A3)(A4)(A5)(A6)(A7)(A8)(A9)(AA)(B0)(B1)(B2)(B3)(B4)(B5)(B6)(B7)(B8)(B9)(BA)(C0)(C1)(C2)(C3)(C4)(C5)(C6)(C7)(C8)(C9)(CA)(D0)(D1)(D2)(D3)(D4)(D5)(D6)(D7)(D8)(D9)(DA)(E0)(E1)(E2)(E3)(E4)(E5)(E6)(E7)(E8)(E9)(EA)(F0)(F1)(F2)(F3)(F4)(F5)(F6)(F7)(F8)(F9)(FA)]^2\n\n[0123456789ABCDEFGHIJKLMNOPQRSTUVWXYZabcdefghijklmnopqrstuvwxyz(A0)(A1)(A2)(A3)(A4)(A5)(A6)(A7)(A8)(A9)(AA)(B0)(B1)(B2)(B3)(B4)(B5)(B6)(B7)(B8)(B9)(BA)(C0)(C1)(C2)(C3)(C4)(C5)(C6)(C7)(C8)(C9)(CA)(D0)(D1)(D2)(D3)(D4)(D5)(D6)(D7)(D8)(D9)(DA)(E0)(E1)(E2)(E3)(E4)(E5)(E6)(E7)(E8)(E9)(EA)(F0)(F1)(F2)(F3)(F4)(F5)(F6)(F7)(F8)(F9)(FA)]^2";

// The problem of a text, which is short.
fn read(alloc: Global, text: &[u8]) -> Result<Problem, TextFault> {
    if text.len() > 1_000 {
        return Err(TextFault::NoMemory);
    }
    read_problem(alloc, text)
}

// Whether merging the problem maps each label to this one.
fn maps_to(alloc: Global, problem: &Problem, images: &[u8]) -> bool {
    match merge(alloc, problem) {
        Ok(merged) => merged.map.images() == images,
        Err(_) => false,
    }
}

// The same of the problem of the text.
fn has_images(alloc: Global, text: &[u8], images: &[u8]) -> bool {
    match read(alloc, text) {
        Ok(problem) => maps_to(alloc, &problem, images),
        Err(_) => false,
    }
}

#[test]
fn merged_labels(rt: HostRuntime) {
    for (text, images) in [
        (b"[AB] C\n\n[AB] C".as_slice(), [0, 0, 1].as_slice()),
        (b"[ABC] D\n\n[ABC] D", &[0, 0, 0, 1]),
        // equally strong on one side alone
        (b"[AB]^2\n\nA [AB]", &[0, 1]),
        (ALL_LABELS, &[0; 128]),
    ] {
        assert!(rt; has_images(rt.alloc(), text, images));
    }
}
