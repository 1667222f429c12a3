//! Numbers by which problems and configurations are compared as they stand: equal for equal ones, and for others hardly ever. They go by
//! the numbers of the labels, so a renaming changes them.
ghost use Rattle.re_shaping.specs.Colours.{times_in};
ghost use Rattle.re_shaping.specs.Marks.{config_mark, constraint_mark, label_mark, problem_mark};
ghost use Rattle.re_shaping.specs.Mixing.{mixed};
ghost use Rattle.std.specs.Prelude.{◌≡◌, ◌+◌, ◌%◌, ◌^◌};

use re_labels::{Config, Constraint};
use re_problem::Problem;

/// The number with its bits mixed.
pub fn mixed(number: u64) -> u64
    ensures { result ≡ mixed number }
{
    let number = (number ^ (number >> 30)).wrapping_mul(0xBF58_476D_1CE4_E5B9);
    let number = (number ^ (number >> 27)).wrapping_mul(0x94D0_49BB_1331_11EB);
    number ^ (number >> 31)
}

/// The number of a label.
pub fn label_mark(label: u8) -> u64
    ensures { result ≡ label_mark label }
{
    mixed((label as u64 + 1).wrapping_mul(0x9E37_79B9_7F4A_7C15))
}

/// The number of the configuration: the sum of those of its labels, as far as it lies in 64 bits.
pub fn config_mark(config: &Config) -> u64
    ensures { result ≡ config_mark config.now }
{
    let mut mark: u64 = 0;
    for label in config.labels() {
        mark = mark.wrapping_add(label_mark(*label));
    }
    mark
}

/// The number with this change for each time that the label stands in the configuration. With the difference of the numbers of two labels
/// it is that of the configuration in which the one has become the other (`moved_mark_law`).
pub fn moved_mark(mark: u64, config: &Config, label: u8, change: u64) -> u64
    ensures { result ≡ (mark + times_in config.now label change) % 2 ^ 64 }
{
    let mut moved = mark;
    for other in config.labels() {
        let grows = if *other == label { change } else { 0 };
        moved = moved.wrapping_add(grows);
    }
    moved
}

// The number of a constraint.
fn constraint_mark(constraint: &Constraint) -> u64
    ensures { result ≡ constraint_mark constraint.now }
{
    let mut mark: u64 = 0;
    for config in constraint.configs() {
        mark = mark.wrapping_add(mixed(config_mark(config)));
    }
    mixed(mark)
}

/// The number of the two constraints of a problem, whatever its labels are called. It costs a pass over all configurations.
pub fn problem_mark(problem: &Problem) -> u64
    ensures { result ≡ problem_mark problem.now }
{
    let active = constraint_mark(problem.active());
    let passive = constraint_mark(problem.passive());
    active.wrapping_mul(3).wrapping_add(passive)
}
