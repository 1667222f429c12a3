//! Bounds put together: what is claimed, and which class it is.
ghost use Rattle.re_evidence.specs.Claims.{is_final, within};
ghost use Rattle.re_evidence.specs.Classes.{bounded_class};
ghost use Rattle.re_evidence.specs.OnForests.{most_of};
ghost use Rattle.re_problem.specs.NamedProblems.{unnamed};
ghost use Rattle.std.specs.Prelude.{◌≡◌};

use crate::types::{Claim, Class, Least, Most, Order};
use re_problem::Problem;

/// The claim of more than the first number of rounds and at most the second.
pub fn within(more: u8, most: u8) -> Claim
    ensures { result ≡ within more most }
{
    if most as usize == more as usize + 1 {
        Claim::Exactly(most)
    } else {
        Claim::Between(more, most)
    }
}

/// Whether the claim leaves no question.
pub fn is_final(claim: Claim) -> bool
    ensures { result ≡ is_final claim }
{
    matches!(claim, Claim::Exactly(_) | Claim::Never)
}

/// The class with a bound below alone, or with a bound above too.
pub fn bounded_class(least: Least, above: Option<Most>) -> Class
    ensures { result ≡ bounded_class least above }
{
    match (least, above) {
        (Least::Log, Some(_)) => Class::Order(Order::Log),
        (Least::LogStar, Some(Most::LogStar)) => Class::Order(Order::LogStar),
        (least, above) => Class::Bounds(least, above),
    }
}

/// At most how many rounds a problem takes that has a flexible set of labels.
pub fn most_of(problem: &Problem) -> Most
    ensures { result ≡ most_of (unnamed problem.now) }
{
    if problem.active().degree() == 2 && problem.passive().degree() == 2 {
        Most::LogStar
    } else {
        Most::Log
    }
}
