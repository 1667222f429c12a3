//! How many views there are.
ghost use Rattle.re_labels.specs.Sides.{degree_of, opposite};
ghost use Rattle.re_algo.specs.Counting.{listed, tree_count, view_count};
ghost use Rattle.std.specs.Prelude.{◌≡◌, ◌≤◌, ◌*◌, ◌^◌};

use re_labels::{Degrees, Side};

/// The most views that are listed.
pub const MAX_VIEWS: u32 = 65_536;

/// How many views of that radius a node of that side has, or None exactly where they are more than `MAX_VIEWS`. The degrees are from
/// 2 to 6. It takes no memory, and one multiplication for each round and port.
pub fn view_count(degrees: Degrees, side: Side, radius: u8) -> Option<u32>
    requires active_least { 2 ≤ degrees.active }
    requires active_most { degrees.active ≤ 6 }
    requires passive_least { 2 ≤ degrees.passive }
    requires passive_most { degrees.passive ≤ 6 }
    ensures { result ≡ view_count (degree_of degrees side) (degree_of degrees (opposite side)) radius }
{
    let own = degrees.of(side);
    let other = degrees.of(side.other());
    tree_count(own, other, radius, own)
}

// How many trees show so many ports of a node of degree `own` to that depth, where the neighbours have degree `other`.
fn tree_count(own: u8, other: u8, depth: u8, ports: u8) -> Option<u32>
    requires own { 2 ≤ own }
    requires own_most { own ≤ 6 }
    requires other { 2 ≤ other }
    requires other_most { other ≤ 6 }
    requires ports { 1 ≤ ports }
    ensures { result ≡ listed (tree_count own other depth ports) }
{
    if depth == 0 {
        return Some(1);
    }
    let branches = tree_count(other, own, depth - 1, other - 1)?;
    power(u64::from(branches) * u64::from(other), ports)
}

// The power, where it isn't more than `MAX_VIEWS`.
fn power(base: u64, exponent: u8) -> Option<u32>
    requires base { 1 ≤ base }
    requires most { base ≤ 6 * MAX_VIEWS }
    ensures { result ≡ listed (base ^ exponent) }
{
    let mut done = 1u64;
    for _ in 0..exponent {
        done *= base;
        if done > u64::from(MAX_VIEWS) {
            return None;
        }
    }
    Some(done as u32)
}
