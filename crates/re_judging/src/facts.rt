//! Facts together, and what follows from them.
ghost use Rattle.re_judging.specs.Facts.{above_few, above_flexible, bounds_claim, claim_from, class_from, class_with, greater_of, least_from, lesser_of, nothing_known, rounds_class, with_fact};
ghost use Rattle.re_problem.specs.NamedProblems.{unnamed};
ghost use Rattle.std.specs.Prelude.{◌≡◌};

use crate::types::{Fact, Known};
use re_evidence::{Claim, Class, Least, Most, Order, bounded_class, most_of, within};
use re_labels::Side;
use re_problem::Problem;

/// Nothing is known.
pub(crate) fn nothing_known() -> Known
    ensures { result ≡ nothing_known }
{
    Known {
        more: None,
        most: None,
        never: false,
        log: false,
        few: None,
        flexible: false,
        linear: false,
        unsolvable: false,
    }
}

// The greater number.
fn greater_of(known: Option<u8>, number: u8) -> u8
    ensures { result ≡ greater_of known number }
{
    match known {
        Some(other) => { if number < other { other } else { number } }
        None => number,
    }
}

// The lesser number.
fn lesser_of(known: Option<u8>, number: u8) -> u8
    ensures { result ≡ lesser_of known number }
{
    match known {
        Some(other) => { if other < number { other } else { number } }
        None => number,
    }
}

/// One fact more.
pub(crate) fn with_fact(known: Known, fact: Fact) -> Known
    ensures { result ≡ with_fact known fact }
{
    let mut more = known;
    match fact {
        Fact::MoreThan(rounds) => more.more = Some(greater_of(known.more, rounds)),
        Fact::AtMost(rounds) => more.most = Some(lesser_of(known.most, rounds)),
        Fact::Never => more.never = true,
        Fact::FixedPoint => {
            more.never = true;
            more.log = true;
        }
        Fact::FewColours(side) => more.few = Some(side),
        Fact::Flexible => more.flexible = true,
        Fact::Length(count) => {
            more.never = true;
            more.log = true;
            more.linear = known.linear || count == 1;
        }
        Fact::NoSolution => {
            more.never = true;
            more.unsolvable = true;
        }
        Fact::Nothing => {}
    }
    more
}

// The claim of these bounds.
fn bounds_claim(more: Option<u8>, most: Option<u8>) -> Option<Claim>
    ensures { result ≡ bounds_claim more most }
{
    match (more, most) {
        (None, None) => None,
        (Some(more), None) => Some(Claim::MoreThan(more)),
        (None, Some(0)) => Some(Claim::Exactly(0)),
        (None, Some(most)) => Some(Claim::AtMost(most)),
        (Some(more), Some(most)) => Some(within(more, most)),
    }
}

/// What is claimed of rounds with port numbers alone.
pub(crate) fn claim_from(known: Known) -> Option<Claim>
    ensures { result ≡ claim_from known }
{
    if known.never {
        Some(Claim::Never)
    } else {
        bounds_claim(known.more, known.most)
    }
}

// A bound above.
fn above_few(few: Option<Side>, other: Option<Most>) -> Option<Most>
    ensures { result ≡ above_few few other }
{
    match few {
        Some(_) => Some(Most::LogStar),
        None => other,
    }
}

// That of a flexible set.
fn above_flexible(problem: &Problem, flexible: bool) -> Option<Most>
    ensures { result ≡ above_flexible (unnamed problem.now) flexible }
{
    if flexible {
        Some(most_of(problem))
    } else {
        None
    }
}

// The bound below where no number of rounds is enough with port numbers alone.
fn least_from(log: bool) -> Least
    ensures { result ≡ least_from log }
{
    if log { Least::Log } else { Least::LogStar }
}

// The class of these bounds on numbers of rounds, beside a bound above.
fn rounds_class(more: Option<u8>, most: Option<u8>, above: Option<Most>) -> Option<Class>
    ensures { result ≡ rounds_class more most above }
{
    match (more, most) {
        (more, Some(most)) => match bounds_claim(more, Some(most)) {
            Some(claim) => Some(Class::Constant(claim)),
            None => None,
        },
        (Some(more), None) => Some(bounded_class(Least::MoreThan(more), above)),
        (None, None) => match above {
            Some(most) => Some(Class::AtMost(most)),
            None => None,
        },
    }
}

// The class beside a bound above.
fn class_with(known: Known, above: Option<Most>) -> Option<Class>
    ensures { result ≡ class_with known above }
{
    if known.unsolvable {
        Some(Class::NoSolution)
    } else if known.linear {
        Some(Class::Order(Order::Linear))
    } else if known.never {
        Some(bounded_class(least_from(known.log), above))
    } else {
        rounds_class(known.more, known.most, above)
    }
}

/// The class with unique identifiers, on finite forests.
pub(crate) fn class_from(problem: &Problem, known: Known) -> Option<Class>
    ensures { result ≡ class_from (unnamed problem.now) known }
{
    let flexible = above_flexible(problem, known.flexible);
    class_with(known, above_few(known.few, flexible))
}
