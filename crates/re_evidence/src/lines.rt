//! The words for claims and classes.
ghost use Rattle.re_laws.specs.Rounds.{rounds_above, rounds_below};
ghost use Rattle.re_evidence.specs.Lines.{alone_text, bounds_text, claim_text, class_text, graph_part, least_text, most_text, order_text, rounds_text};
ghost use Rattle.std.specs.Fmt.{decimal};
ghost use Rattle.std.specs.Prelude.{◌≡◌, ◌++◌, OnOk, codes};

use crate::types::{Claim, Class, Least, Most, Order};
use re_frame::{push_number, push_words};
use re_labels::NoMemory;

/// Appends words and a number.
pub fn push_counted(text: &mut Vec<u8>, words: &str, number: u8) -> Result<(), NoMemory>
    ensures { OnOk result (text.new.items ≡ text.old.items ++ (words.now ++ decimal number)) }
{
    let alloc = *text.allocator();
    push_words(text, words)?;
    push_number(alloc, text, number as usize)
}

// Appends the rounds of the graph behind the words, where the passive nodes have two neighbours.
fn push_graph(text: &mut Vec<u8>, words: &str, passive: u8, rounds: usize) -> Result<(), NoMemory>
    ensures { OnOk result (text.new.items ≡ text.old.items ++ graph_part words.now passive rounds) }
{
    if passive != 2 {
        return push_words(text, "");
    }
    let alloc = *text.allocator();
    push_words(text, " (")?;
    push_words(text, words)?;
    push_number(alloc, text, rounds)?;
    push_words(text, " rounds of the graph)")
}

// Appends a number of hops behind the words, and rounds of the graph behind others.
fn push_rounds(
    text: &mut Vec<u8>,
    words: &str,
    hops: u8,
    graph: &str,
    passive: u8,
    rounds: usize,
) -> Result<(), NoMemory>
    ensures { OnOk result (text.new.items ≡ text.old.items ++ (words.now ++ (decimal hops ++ graph_part graph.now passive rounds))) }
{
    let alloc = *text.allocator();
    push_words(text, words)?;
    push_number(alloc, text, hops as usize)?;
    push_graph(text, graph, passive, rounds)
}

// Appends a bound below.
fn push_more(text: &mut Vec<u8>, hops: u8, passive: u8) -> Result<(), NoMemory>
    ensures { OnOk result (text.new.items ≡ text.old.items ++ (codes "more than " ++ (decimal hops ++ graph_part (codes "more than ") passive (rounds_below hops)))) }
{
    push_rounds(
        text,
        "more than ",
        hops,
        "more than ",
        passive,
        hops as usize / 2,
    )
}

// Appends a bound above, behind the words.
fn push_most(text: &mut Vec<u8>, words: &str, hops: u8, passive: u8) -> Result<(), NoMemory>
    ensures { OnOk result (text.new.items ≡ text.old.items ++ (words.now ++ (decimal hops ++ graph_part (codes "at most ") passive (rounds_above hops)))) }
{
    push_rounds(
        text,
        words,
        hops,
        "at most ",
        passive,
        (hops as usize + 1) / 2,
    )
}

/// Appends a claim on a problem whose passive nodes have this degree. Behind that of no number of rounds stand port numbers, and something behind
/// them.
pub fn push_claim(text: &mut Vec<u8>, passive: u8, claim: Claim) -> Result<(), NoMemory>
    ensures { OnOk result (text.new.items ≡ text.old.items ++ claim_text passive claim) }
{
    match claim {
        Claim::Exactly(k) => push_rounds(text, "exactly ", k, "", passive, (k as usize + 1) / 2),
        Claim::Never => push_words(
            text,
            "not solvable in any number of rounds with port numbers ",
        ),
        Claim::MoreThan(k) => push_more(text, k, passive),
        Claim::AtMost(m) => push_most(text, "at most ", m, passive),
        Claim::Between(k, m) => {
            push_more(text, k, passive)?;
            push_most(text, ", at most ", m, passive)
        }
    }
}

/// What algorithms have besides, behind a claim: nothing.
pub fn alone_text(claim: Claim) -> &'static str
    ensures { result.now ≡ alone_text claim }
{
    match claim {
        Claim::Never => "alone\n",
        _ => "\n",
    }
}

// Appends a claim in rounds.
fn push_claimed(text: &mut Vec<u8>, claim: Claim) -> Result<(), NoMemory>
    ensures { OnOk result (text.new.items ≡ text.old.items ++ rounds_text claim) }
{
    match claim {
        Claim::Exactly(k) => push_counted(text, "exactly ", k),
        Claim::Never => push_words(text, "never"),
        Claim::MoreThan(k) => push_counted(text, "more than ", k),
        Claim::AtMost(m) => push_counted(text, "at most ", m),
        Claim::Between(k, m) => {
            push_counted(text, "more than ", k)?;
            push_counted(text, ", at most ", m)
        }
    }
}

// The words for an order.
fn order_text(order: Order) -> &'static str
    ensures { result.now ≡ order_text order }
{
    match order {
        Order::LogStar => "order log* N",
        Order::Log => "order log N",
        Order::Linear => "order N",
    }
}

// The words for the order of a bound above.
fn most_text(most: Most) -> &'static str
    ensures { result.now ≡ most_text most }
{
    match most {
        Most::LogStar => "order log* N",
        Most::Log => "order log N",
    }
}

// Appends a bound below.
fn push_least(text: &mut Vec<u8>, least: Least) -> Result<(), NoMemory>
    ensures { OnOk result (text.new.items ≡ text.old.items ++ least_text least) }
{
    match least {
        Least::MoreThan(k) => push_claimed(text, Claim::MoreThan(k)),
        Least::LogStar => push_words(text, "at least order log* N"),
        Least::Log => push_words(text, "at least order log N"),
    }
}

// Appends a bound below, and one above where it is known.
fn push_bounds(text: &mut Vec<u8>, least: Least, most: Option<Most>) -> Result<(), NoMemory>
    ensures { OnOk result (text.new.items ≡ text.old.items ++ bounds_text least most) }
{
    push_least(text, least)?;
    match most {
        Some(most) => {
            push_words(text, ", at most ")?;
            push_words(text, most_text(most))
        }
        None => push_words(text, ""),
    }
}

/// Appends a class.
pub fn push_class(text: &mut Vec<u8>, class: Class) -> Result<(), NoMemory>
    ensures { OnOk result (text.new.items ≡ text.old.items ++ class_text class) }
{
    match class {
        Class::NoSolution => push_words(text, "no solution"),
        Class::Constant(claim) => {
            push_words(text, "constant, ")?;
            push_claimed(text, claim)
        }
        Class::Order(order) => push_words(text, order_text(order)),
        Class::Bounds(least, most) => push_bounds(text, least, most),
        Class::AtMost(most) => {
            push_words(text, "at most ")?;
            push_words(text, most_text(most))
        }
    }
}
