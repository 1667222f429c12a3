// All orders of up to six places.
ghost use Rattle.std.specs.Prelude.{◌≡◌, ◌<◌, ◌≤◌, length, slice_index_or, []};
ghost use Rattle.re_labels.specs.Orders.{factorial as factorial_of, placements};

use arrayvec::ArrayVec;

/// The number of orders of n places.
#[tactic(auto, unfolding(crate::specs::Orders::factorial))]
pub fn factorial(n: usize) -> usize
    requires { n ≤ 6 }
    ensures value { result ≡ factorial_of n }
    ensures positive { 0 < result }
{
    match n {
        0 | 1 => 1,
        2 => 2,
        3 => 6,
        4 => 24,
        5 => 120,
        _ => 720,
    }
}

/// The order at this index of the list of all orders.
pub fn order_at(count: usize, index: usize) -> ArrayVec<u8, 6>
    requires few { count ≤ 6 }
    requires there { index < factorial_of count }
    ensures order { result.items ≡ slice_index_or (placements count) index [] }
    ensures count { length result.items ≡ count }
{
    let mut left: ArrayVec<u8, 6> = ArrayVec::new();
    for place in 0..count {
        left.push(place as u8);
    }
    let mut places: ArrayVec<u8, 6> = ArrayVec::new();
    let mut rest = index;
    while !left.is_empty() {
        let size = factorial(left.len() - 1);
        let at = rest / size;
        rest %= size;
        let place = left.remove(at);
        places.push(place);
    }
    places
}
