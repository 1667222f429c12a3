//! All multisets of numbers as configurations.
ghost use Rattle.re_labels.specs.Configs.{sorted};
ghost use Rattle.re_labels.specs.Orders.{multisets};
ghost use Rattle.re_labels.specs.declared.TheConstants.{MAX_LABELS};
ghost use Rattle.std.specs.List.{AllByRecursion};
ghost use Rattle.std.specs.Prelude.{◌<◌, ◌≡◌, ◌≤◌, IfOk, length};

use arrayvec::ArrayVec;
use re_labels::{Config, MAX_LABELS, Multisets, NoMemory};
use std::alloc::Global;

// The configuration of these numbers.
fn config_of(numbers: &[u16]) -> Config
    requires two { 2 ≤ length numbers.now }
    requires six { length numbers.now ≤ 6 }
    requires below { AllByRecursion (λ number. number < MAX_LABELS) numbers.now }
    ensures { result ≡ sorted numbers.now }
{
    let mut held: ArrayVec<u8, 6> = ArrayVec::new();
    for number in numbers {
        held.push(*number as u8);
    }
    Config::from_labels(held.as_slice())
}

/// All multisets of so many numbers below a bound.
pub(crate) fn multisets_of(alloc: Global, count: u8, below: u8) -> Result<Vec<Config>, NoMemory>
    requires two { 2 ≤ count }
    requires six { count ≤ 6 }
    requires below { below ≤ MAX_LABELS }
    ensures { IfOk result (λ all. all.items ≡ multisets count 0 below) }
{
    let mut all = Vec::new(alloc);
    for picks in Multisets::new(count as usize, below as u16) {
        all.push(config_of(picks.numbers()))?;
    }
    Ok(all)
}
