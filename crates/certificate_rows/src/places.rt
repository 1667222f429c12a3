//! How many views there are, as numbers that were counted by hand.
use re_algo::view_count;
use re_labels::{Degrees, Side};

const DEGREES: Degrees = Degrees {
    active: 3,
    passive: 2,
};

#[test]
fn views_are_counted(rt: HostRuntime) {
    for (side, radius, want) in [
        (Side::Active, 0, Some(1)),
        (Side::Active, 1, Some(8)),
        (Side::Active, 2, Some(216)),
        (Side::Active, 3, Some(13_824)),
        (Side::Active, 4, None),
        (Side::Active, 255, None),
        (Side::Passive, 0, Some(1)),
        (Side::Passive, 1, Some(9)),
        (Side::Passive, 2, Some(144)),
        (Side::Passive, 3, Some(11_664)),
        (Side::Passive, 4, None),
    ] {
        assert!(rt; view_count(DEGREES, side, radius) == want);
    }
}

// No more than are listed: 2 to the power of 16.
#[test]
fn views_on_paths(rt: HostRuntime) {
    let narrow = Degrees {
        active: 2,
        passive: 2,
    };
    assert!(rt; view_count(narrow, Side::Active, 8) == Some(65_536));
    assert!(rt; view_count(narrow, Side::Active, 9).is_none());
}
