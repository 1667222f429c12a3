//! The test whether a problem is solvable without communication.

ghost use Rattle.re_problem.specs.NamedProblems.{unnamed};
ghost use Rattle.re_problem.specs.Zero.{Zero, ZeroPlaceLaw, shows_zero, zero_place};
ghost use Rattle.re_problem.specs.Drawing.{AlwaysFits};
ghost use Rattle.std.specs.List.{AllByRecursion, position};
ghost use Rattle.std.specs.Prelude.{◌≡◌, ◌≤◌, ◌<◌, ◌↔◌, IsNone, IsSome, IsTrue, length};

use crate::named::Problem;
use arrayvec::ArrayVec;
use re_labels::{Config, Constraint, MAX_LABELS};

/// Whether the drawn labels are a configuration of the constraint, however they are filled up to its degree with some of
/// these labels, each as often as may be.
fn always_fits(constraint: &Constraint, drawn: &mut ArrayVec<u8, 6>, labels: &[u8]) -> bool
    requires room { length drawn.old.items ≤ constraint.now.degree }
    requires drawn_below { AllByRecursion (λ label. label < MAX_LABELS) drawn.old.items }
    requires labels_below { AllByRecursion (λ label. label < MAX_LABELS) labels.now }
    ensures fits { IsTrue result ↔ AlwaysFits constraint.now drawn.old.items labels.now }
    ensures drawn { drawn.new.items ≡ drawn.old.items }
{
    if drawn.len() == constraint.degree() as usize {
        return constraint.contains(&Config::from_labels(drawn.as_slice()));
    }
    let [first, others @ ..] = labels else {
        return true;
    };
    if let [second, ..] = others {
        // a label that stands there twice counts once
        if *first == *second {
            return always_fits(constraint, drawn, others);
        }
    }
    drawn.push(*first);
    let with_first = always_fits(constraint, drawn, labels);
    drawn.pop();
    with_first && always_fits(constraint, drawn, others)
}

/// Whether every multiset of labels of this configuration, drawn with repetition, is a passive configuration.
fn shows_zero(passive: &Constraint, config: &Config) -> bool
    ensures { result ≡ shows_zero passive.now config.now }
{
    let mut drawn = ArrayVec::new();
    always_fits(passive, &mut drawn, config.labels())
}

// The place of the first active configuration that shows Zero.
fn first_fit(active: &Constraint, passive: &Constraint) -> Option<usize>
    ensures { result ≡ position (shows_zero passive.now) active.now.configs }
{
    let mut left = active.configs();
    for place in 0..active.len() {
        match left.next() {
            None => unreachable!(),
            Some(config) => {
                if shows_zero(passive, config) {
                    return Some(place);
                }
            }
        }
    }
    None
}

/// The place in the active constraint of the first configuration from whose labels every multiset, drawn with repetition,
/// is a passive configuration. None exactly where there is no such configuration: where the problem isn't solvable without
/// communication. It takes no memory. Of each configuration before that place it draws up to 462 multisets, until one
/// isn't passive.
pub fn zero_round(problem: &Problem) -> Option<usize>
    ensures place { result ≡ zero_place (unnamed problem.now) }
    ensures none { IsNone result ↔ (Zero (unnamed problem.now) → ⊥) }
    ensures some { IsSome result ↔ Zero (unnamed problem.now) }
{
    first_fit(problem.active(), problem.passive())
}

/// The test of a configuration is the fact, and a problem has a place of the first configuration that shows Zero exactly
/// where it is Zero.
pub fn zero_place_law()
    ensures { ZeroPlaceLaw }
{}
