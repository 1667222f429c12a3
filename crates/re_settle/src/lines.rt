//! The lines of an answer.
ghost use Rattle.re_frame.specs.Outcomes.{outcome_of};
ghost use Rattle.re_settle.specs.Answers.{by_claim, settled_outcome};
ghost use Rattle.re_evidence.specs.Claims.{is_final, within};
ghost use Rattle.re_settle.specs.Claims.{claim_of};
ghost use Rattle.re_evidence.specs.Classes.{bounded_class};
ghost use Rattle.re_settle.specs.Classes.{above_with, class_of, least_of, never_class};
ghost use Rattle.re_evidence.specs.Lines.{alone_text};
ghost use Rattle.re_settle.specs.Lines.{above_line, bound_lines, claim_lines, class_lines, classes_text, coloured_line, coloured_words, colours_text, first_text, further_lines, length_lines, number_texts, rest_lines, shows_lines, way_line, way_lines, way_numbers, way_rest, way_words};
ghost use Rattle.std.specs.Prelude.{◌≡◌, ◌++◌, ◌∷◌, [], IfOk, OnOk, Some};

use crate::notes::push_note;
use crate::types::{Classified, Coloured, ColouredWay, Further, Settled, Way};
use arrayvec::ArrayVec;
use re_evidence::{
    Claim, Class, Least, Most, Order, alone_text, bounded_class, is_final, push_claim, push_class,
    push_counted, within,
};
use re_forest_words::push_name;
use re_frame::{Output, done, push_number, push_words, refused};
use re_labels::{Names, NoMemory, Side};
use re_problem::Problem;
use std::alloc::Global;

// What is claimed.
fn claim_of(settled: Settled) -> Claim
    ensures { result ≡ claim_of settled }
{
    match settled {
        Settled::Unsolvable | Settled::Never(_) => Claim::Never,
        Settled::Exactly(shown) => Claim::Exactly(shown.rounds),
        Settled::Within(more, None) => Claim::MoreThan(more.rounds),
        Settled::Within(more, Some(most)) => within(more.rounds, most.rounds),
    }
}

// The program and the word.
fn way_words(way: Way) -> &'static str
    ensures { result.now ≡ way_words way }
{
    match way {
        Way::Zero => "re zero",
        Way::Flexible => "explore flexible",
        Way::Lower(..) => "re lower",
        Way::Upper(..) => "re upper",
        Way::Fixed(..) => "re fixed",
        Way::Closure(_) | Way::Raised(..) => "explore closure",
        Way::Merge(..) => "explore merge",
        Way::Cover(_) => "explore cover",
        Way::Cycle(..) => "explore cycle",
        Way::Relaxed(_) => "explore relaxed",
        Way::Through => "explore through",
        Way::Rounds(_) => "explore rounds",
        Way::Longest(..) => "explore longest",
        Way::Shortest(..) => "explore shortest",
    }
}

// These two numbers.
fn two(first: u8, second: u8) -> ArrayVec<u32, 3>
    ensures { result.items ≡ first ∷ second ∷ [] }
{
    let mut numbers = ArrayVec::new();
    numbers.push(u32::from(first));
    numbers.push(u32::from(second));
    numbers
}

// This number.
fn one(number: u32) -> ArrayVec<u32, 3>
    ensures { result.items ≡ number ∷ [] }
{
    let mut numbers = ArrayVec::new();
    numbers.push(number);
    numbers
}

// The numbers behind the words.
fn way_numbers(way: Way) -> ArrayVec<u32, 3>
    ensures { result.items ≡ way_numbers way }
{
    match way {
        Way::Zero | Way::Flexible | Way::Through => ArrayVec::new(),
        Way::Closure(0) | Way::Raised(..) | Way::Merge(..) => ArrayVec::new(),
        Way::Closure(steps) => one(u32::from(steps)),
        Way::Cover(nodes) => one(u32::from(nodes)),
        Way::Relaxed(nodes) => one(nodes),
        Way::Rounds(most) => one(u32::from(most)),
        Way::Lower(steps, changes) | Way::Upper(steps, changes) | Way::Fixed(steps, changes) => {
            two(steps, changes)
        }
        Way::Longest(steps, labels) => two(steps, labels),
        Way::Shortest(steps, labels) => two(steps, labels),
        Way::Cycle(steps, merges, nodes) => {
            let mut numbers = two(steps, merges);
            numbers.push(nodes);
            numbers
        }
    }
}

// Appends each number behind a blank.
fn push_numbers(text: &mut Vec<u8>, numbers: &[u32]) -> Result<(), NoMemory>
    ensures { OnOk result (text.new.items ≡ text.old.items ++ number_texts numbers.now) }
{
    let [number, others @ ..] = numbers else {
        return push_words(text, "");
    };
    let alloc = *text.allocator();
    push_words(text, " ")?;
    push_number(alloc, text, *number as usize)?;
    push_numbers(text, others)
}

// Appends the labels of a merge and the words that read what it gives, or the edge of a diagram.
fn push_rest(text: &mut Vec<u8>, names: &Names, way: Way) -> Result<(), NoMemory>
    ensures { OnOk result (text.new.items ≡ text.old.items ++ way_rest names.now way) }
{
    match way {
        Way::Merge(from, to) => {
            push_words(text, " '")?;
            push_name(text, names, from)?;
            push_words(text, "' '")?;
            push_name(text, names, to)?;
            push_words(text, "' | explore closure")
        }
        Way::Raised(low, high) => {
            push_words(text, " with diagram ")?;
            push_name(text, names, low)?;
            push_words(text, " ")?;
            push_name(text, names, high)
        }
        _ => push_words(text, ""),
    }
}

/// Appends the line of these words, on a problem whose labels have these names.
pub fn push_way(text: &mut Vec<u8>, names: &Names, way: Way) -> Result<(), NoMemory>
    ensures { OnOk result (text.new.items ≡ text.old.items ++ way_line names.now way) }
{
    let numbers = way_numbers(way);
    push_words(text, "by: ")?;
    push_words(text, way_words(way))?;
    push_numbers(text, numbers.as_slice())?;
    push_rest(text, names, way)?;
    push_words(text, "\n")
}

// Appends the first line: that there is no solution, or the claim.
fn push_first(text: &mut Vec<u8>, passive: u8, settled: Settled) -> Result<(), NoMemory>
    ensures { OnOk result (text.new.items ≡ text.old.items ++ first_text passive settled) }
{
    match settled {
        Settled::Unsolvable => push_words(text, "no solution\n"),
        other => {
            let claim = claim_of(other);
            push_claim(text, passive, claim)?;
            push_words(text, alone_text(claim))
        }
    }
}

// Appends the lines of the words that show what is known.
fn push_ways(text: &mut Vec<u8>, names: &Names, settled: Settled) -> Result<(), NoMemory>
    ensures { OnOk result (text.new.items ≡ text.old.items ++ way_lines names.now settled) }
{
    match settled {
        Settled::Unsolvable => push_way(text, names, Way::Flexible),
        Settled::Exactly(shown) => push_way(text, names, shown.way),
        Settled::Never(way) => push_way(text, names, way),
        Settled::Within(more, None) => push_way(text, names, more.way),
        Settled::Within(more, Some(most)) => {
            push_way(text, names, more.way)?;
            push_way(text, names, most.way)
        }
    }
}

// The bound below of what no number of rounds solves by these words.
pub(crate) fn least_of(way: Way) -> Least
    ensures { result ≡ least_of way }
{
    match way {
        Way::Cover(_) => Least::LogStar,
        _ => Least::Log,
    }
}

// The class of what no number of rounds solves by these words, where so much is found besides.
fn never_class(way: Way, further: Further, above: Option<Most>) -> Class
    ensures { result ≡ never_class way further above }
{
    match further {
        Further::Nothing => bounded_class(least_of(way), above),
        Further::Linear => Class::Order(Order::Linear),
        Further::FewColours(_) | Further::Greedy => Class::Order(Order::LogStar),
        Further::FixedPoint(_) => bounded_class(Least::Log, above),
    }
}

// The bound above that is found besides, or else this one.
fn above_with(further: Further, above: Option<Most>) -> Option<Most>
    ensures { result ≡ above_with further above }
{
    match further {
        Further::FewColours(_) | Further::Greedy => Some(Most::LogStar),
        _ => above,
    }
}

// The class of what takes more than so many rounds, where so much is found besides.
fn open_class(rounds: u8, further: Further, above: Option<Most>) -> Class
    ensures { result ≡ bounded_class (Least.MoreThan rounds) (above_with further above) }
{
    bounded_class(Least::MoreThan(rounds), above_with(further, above))
}

// The class, where at most so many rounds are known to be enough.
fn class_of(settled: Settled, further: Further, above: Option<Most>) -> Class
    ensures { result ≡ class_of settled further above }
{
    match settled {
        Settled::Unsolvable => Class::NoSolution,
        Settled::Exactly(shown) => Class::Constant(Claim::Exactly(shown.rounds)),
        Settled::Never(way) => never_class(way, further, above),
        Settled::Within(more, None) => open_class(more.rounds, further, above),
        Settled::Within(more, Some(most)) => Class::Constant(within(more.rounds, most.rounds)),
    }
}

// Appends the words, given a proper colouring.
fn push_coloured_words(text: &mut Vec<u8>, way: ColouredWay) -> Result<(), NoMemory>
    ensures { OnOk result (text.new.items ≡ text.old.items ++ coloured_words way) }
{
    match way {
        ColouredWay::Rounds(most) => push_counted(text, "explore rounds ", most),
        ColouredWay::Shortest(steps, labels) => {
            push_counted(text, "explore shortest ", steps)?;
            push_counted(text, " ", labels)
        }
    }
}

// What has colours.
fn colours_text(side: Side) -> &'static str
    ensures { result.now ≡ colours_text side }
{
    match side {
        Side::Active => " colours\n",
        Side::Passive => " edge colours\n",
    }
}

// Appends the line of words, given a proper colouring.
fn push_coloured(text: &mut Vec<u8>, coloured: Coloured) -> Result<(), NoMemory>
    ensures { OnOk result (text.new.items ≡ text.old.items ++ coloured_line coloured) }
{
    push_words(text, "by: ")?;
    push_coloured_words(text, coloured.way)?;
    push_counted(text, " given ", coloured.colours)?;
    push_words(text, colours_text(coloured.side))
}

// Appends the line of the word that finds a flexible set, where one gives a bound above.
fn push_above(text: &mut Vec<u8>, names: &Names, above: Option<Most>) -> Result<(), NoMemory>
    ensures { OnOk result (text.new.items ≡ text.old.items ++ above_line names.now above) }
{
    match above {
        Some(_) => push_way(text, names, Way::Flexible),
        None => push_words(text, ""),
    }
}

// Appends what the literature says of a problem with so many levels of labels, and the line of the word that counts them.
fn push_literature(text: &mut Vec<u8>, names: &Names, count: u8) -> Result<(), NoMemory>
    ensures { OnOk result (text.new.items ≡ text.old.items ++ length_lines names.now (Some count)) }
{
    push_counted(text, "literature: order N^(1/", count)?;
    push_words(text, ")\n")?;
    push_way(text, names, Way::Flexible)
}

// Appends it, where the literature says something.
fn push_length(text: &mut Vec<u8>, names: &Names, length: Option<u8>) -> Result<(), NoMemory>
    ensures { OnOk result (text.new.items ≡ text.old.items ++ length_lines names.now length) }
{
    match length {
        Some(count) => push_literature(text, names, count),
        None => push_words(text, ""),
    }
}

// Appends the lines of what a flexible set, or the number of levels, adds to a bound below.
fn push_bound_lines(
    text: &mut Vec<u8>,
    names: &Names,
    above: Option<Most>,
    length: Option<u8>,
) -> Result<(), NoMemory>
    ensures { OnOk result (text.new.items ≡ text.old.items ++ bound_lines names.now above length) }
{
    push_above(text, names, above)?;
    push_length(text, names, length)
}

// Appends the lines of the words that show the class of what no number of rounds is known to solve, where these aren't those that show the claim.
fn push_further(
    text: &mut Vec<u8>,
    names: &Names,
    further: Further,
    above: Option<Most>,
    length: Option<u8>,
) -> Result<(), NoMemory>
    ensures { OnOk result (text.new.items ≡ text.old.items ++ further_lines names.now further above length) }
{
    match further {
        Further::Nothing => push_bound_lines(text, names, above, length),
        Further::Linear => push_words(text, ""),
        Further::FewColours(coloured) => push_coloured(text, coloured),
        Further::Greedy => push_words(text, "by: explore greedy\n"),
        Further::FixedPoint(way) => {
            push_way(text, names, way)?;
            push_bound_lines(text, names, above, length)
        }
    }
}

// Appends the lines of the words that show the class, where these aren't those that show the claim.
fn push_shows(text: &mut Vec<u8>, names: &Names, classified: Classified) -> Result<(), NoMemory>
    ensures { OnOk result (text.new.items ≡ text.old.items ++ shows_lines names.now classified.settled classified.further classified.above classified.length) }
{
    match classified.settled {
        Settled::Never(_) | Settled::Within(_, None) => push_further(
            text,
            names,
            classified.further,
            classified.above,
            classified.length,
        ),
        _ => push_words(text, ""),
    }
}

// Appends the lines on unique identifiers.
fn push_class_lines(
    text: &mut Vec<u8>,
    names: &Names,
    classified: Classified,
) -> Result<(), NoMemory>
    ensures { OnOk result (text.new.items ≡ text.old.items ++ class_lines names.now classified) }
{
    push_words(text, "with identifiers: ")?;
    push_class(
        text,
        class_of(classified.settled, classified.further, classified.above),
    )?;
    push_words(text, "\n")?;
    push_shows(text, names, classified)
}

// Appends them, where there is a solution.
fn push_classes(text: &mut Vec<u8>, names: &Names, classified: Classified) -> Result<(), NoMemory>
    ensures { OnOk result (text.new.items ≡ text.old.items ++ classes_text names.now classified) }
{
    match classified.settled {
        Settled::Unsolvable => push_words(text, ""),
        _ => push_class_lines(text, names, classified),
    }
}

// Appends what is claimed of the problem, and the lines of the words that show it.
fn push_claim_lines(text: &mut Vec<u8>, problem: &Problem, settled: Settled) -> Result<(), NoMemory>
    ensures { OnOk result (text.new.items ≡ text.old.items ++ claim_lines problem.now settled) }
{
    push_first(text, problem.passive().degree(), settled)?;
    push_ways(text, problem.names(), settled)
}

// Appends the lines behind them.
fn push_rest_lines(
    text: &mut Vec<u8>,
    problem: &Problem,
    classified: Classified,
) -> Result<(), NoMemory>
    ensures { OnOk result (text.new.items ≡ text.old.items ++ rest_lines problem.now classified) }
{
    push_classes(text, problem.names(), classified)?;
    push_note(text, problem)
}

/// The lines of what is claimed of the problem, and of the words that show it.
pub(crate) fn claim_text(
    alloc: Global,
    problem: &Problem,
    settled: Settled,
) -> Result<Vec<u8>, NoMemory>
    ensures { IfOk result (λ text. text.items ≡ claim_lines problem.now settled) }
{
    let mut text = Vec::new(alloc);
    push_claim_lines(&mut text, problem, settled)?;
    Ok(text)
}

/// The lines behind them.
pub(crate) fn rest_text(
    alloc: Global,
    problem: &Problem,
    classified: Classified,
) -> Result<Vec<u8>, NoMemory>
    ensures { IfOk result (λ text. text.items ≡ rest_lines problem.now classified) }
{
    let mut text = Vec::new(alloc);
    push_rest_lines(&mut text, problem, classified)?;
    Ok(text)
}

/// The output of a text, with the answer of what is claimed.
pub(crate) fn by_claim(settled: Settled, text: Vec<u8>) -> Output
    ensures { outcome_of result ≡ by_claim settled text.items }
{
    if is_final(claim_of(settled)) {
        done(text)
    } else {
        refused(text)
    }
}

/// The output for what is known of the problem.
pub(crate) fn settled_output(
    alloc: Global,
    problem: &Problem,
    classified: Classified,
) -> Result<Output, NoMemory>
    ensures { IfOk result (λ output. outcome_of output ≡ settled_outcome problem.now classified) }
{
    let mut text = claim_text(alloc, problem, classified.settled)?;
    push_rest_lines(&mut text, problem, classified)?;
    Ok(by_claim(classified.settled, text))
}
