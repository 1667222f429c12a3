//! What is refused as out of range of a family.
use re_families::{Family, FamilyFault, family};
use std::alloc::Global;

// The parameter that is out of range, or 255 where none is.
fn refused(alloc: Global, kind: Family, active: u8, passive: u8, number: u8) -> u8 {
    match family(alloc, kind, active, passive, number) {
        Err(FamilyFault::OutOfRange(value)) => value,
        _ => 255,
    }
}

#[test]
fn parameters_out_of_range(rt: HostRuntime) {
    for (kind, active, passive, number, value) in [
        (Family::Mis, 3, 3, 0, 3),
        (Family::Mis, 7, 3, 1, 7),
        (Family::Matching, 3, 1, 2, 1),
        (Family::Orientation, 3, 6, 2, 2),
        (Family::Colouring, 3, 2, 0, 0),
        (Family::Colouring, 3, 2, 17, 17),
    ] {
        assert!(rt; refused(rt.alloc(), kind, active, passive, number) == value);
    }
}
