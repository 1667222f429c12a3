// The command that the words name.
ghost use Rattle.std.specs.Prelude.{◌≡◌, map, string_bytes};
ghost use Rattle.std.specs.Str.{bytes_eq};
ghost use Rattle.re_words.specs.Command.{command_among, command_of, command_of_five, command_of_three, command_of_two, family_named, family_with, family_word, is_family, kind_named, kind_word, least_steps, rounds_up_to, search_with, step_from, steps_of, word_of};
ghost use Rattle.re_families.specs.Families.{is_degree};

use re_cert::{Kind, MAX_STEPS};
use re_families::Family;
use re_labels::Side;
use re_problem::read_number;
use re_table_texts::TableForm;

/// A command that goes through its input piece by piece.
#[derive(Clone, Copy, Debug, PartialEq, Eq)]
pub enum Streaming {
    /// The verdict on a certificate.
    Check,
}

/// A command that takes its input as a whole.
#[derive(Clone, Copy, Debug, PartialEq, Eq)]
pub enum Reading {
    /// The problem in its canonical form.
    Read,
    /// Whether it is solvable without communication.
    Zero,
    /// The diagram of its labels on a side.
    Diagram(Side),
    /// The maximal rows of its passive constraint.
    Universal,
    /// Labels that are equally strong made one.
    Merge,
    /// Labels that others cover left out.
    Trim,
    /// The problem derived so many times, from 1 to `MAX_STEPS`.
    Step(u8),
    /// The number of rounds, where it is no more than this, at most `MAX_STEPS`.
    Rounds(u8),
    /// A search for a bound of this kind: so many steps, and at most so many changes in each.
    Search(Kind, u8, u8),
}

/// A command that judges a map between two problems.
#[derive(Clone, Copy, Debug, PartialEq, Eq)]
pub enum Mapping {
    /// Whether the second problem is a relaxation of the first by images of its labels.
    Relax,
    /// Whether the second problem is an upper step of the first by sets.
    Restrict,
    /// Whether the second problem is the first under other labels.
    Rename,
}

/// A command that reads nothing.
#[derive(Clone, Copy, Debug, PartialEq, Eq)]
pub enum Making {
    /// The problem of a family: its active and its passive degree, and its number.
    OfFamily(Family, u8, u8, u8),
    /// One step from the problem of so many colours, from 1 to 16.
    OneStep(u8),
}

/// What words can ask for.
#[derive(Clone, Copy, Debug, PartialEq, Eq)]
pub enum Command {
    /// It goes through a certificate.
    Streams(Streaming),
    /// It takes a problem.
    Reads(Reading),
    /// It takes two problems and a map.
    Maps(Mapping),
    /// Whether a table solves its problem, and the tables with one round less and more.
    Tables(TableForm),
    /// The algorithm of the certificate of an upper bound.
    Extracts,
    /// It reads nothing.
    Makes(Making),
    /// The algorithm of a certificate at work on a finite tree.
    Runs,
}

// The commands that are one word.
const ONE_WORD: [Command; 14] = [
    Command::Streams(Streaming::Check),
    Command::Reads(Reading::Read),
    Command::Reads(Reading::Zero),
    Command::Reads(Reading::Universal),
    Command::Reads(Reading::Merge),
    Command::Reads(Reading::Trim),
    Command::Maps(Mapping::Relax),
    Command::Maps(Mapping::Restrict),
    Command::Maps(Mapping::Rename),
    Command::Tables(TableForm::Plain),
    Command::Tables(TableForm::Faster),
    Command::Tables(TableForm::Slower),
    Command::Extracts,
    Command::Runs,
];

// The diagrams.
const DIAGRAMS: [Command; 2] = [
    Command::Reads(Reading::Diagram(Side::Active)),
    Command::Reads(Reading::Diagram(Side::Passive)),
];

// The kinds of bounds that are searched for.
const KINDS: [Kind; 3] = [Kind::Lower, Kind::Upper, Kind::Fixed];

// The families.
const FAMILIES: [Family; 4] = [
    Family::Colouring,
    Family::Matching,
    Family::Orientation,
    Family::Mis,
];

// The most colours.
const MOST_COLOURS: u32 = 16;

// The most changes in each step of a search.
const MOST_CHANGES: u32 = 8;

// The word of a search for a bound.
fn kind_word(kind: Kind) -> &'static str
    ensures { result.now ≡ kind_word kind }
{
    match kind {
        Kind::Lower => "lower",
        Kind::Upper => "upper",
        Kind::Fixed => "fixed",
    }
}

// The word of a command of one word, the second word of a diagram, and the first one of each other command.
#[tactic(auto, unfolding(crate::specs::Command::word_of))]
fn word_of(command: Command) -> &'static str
    ensures { result.now ≡ word_of command }
{
    match command {
        Command::Streams(Streaming::Check) => "check",
        Command::Reads(Reading::Read) => "read",
        Command::Reads(Reading::Zero) => "zero",
        Command::Reads(Reading::Universal) => "universal",
        Command::Reads(Reading::Merge) => "merge",
        Command::Reads(Reading::Trim) => "trim",
        Command::Reads(Reading::Diagram(Side::Active)) => "active",
        Command::Reads(Reading::Diagram(Side::Passive)) => "passive",
        Command::Reads(Reading::Step(_)) => "step",
        Command::Reads(Reading::Rounds(_)) => "rounds",
        Command::Reads(Reading::Search(kind, _, _)) => kind_word(kind),
        Command::Maps(Mapping::Relax) => "relax",
        Command::Maps(Mapping::Restrict) => "restrict",
        Command::Maps(Mapping::Rename) => "rename",
        Command::Tables(TableForm::Plain) => "table",
        Command::Tables(TableForm::Faster) => "faster",
        Command::Tables(TableForm::Slower) => "slower",
        Command::Extracts => "extract",
        Command::Makes(Making::OfFamily(_, _, _, _)) => "family",
        Command::Makes(Making::OneStep(_)) => "make",
        Command::Runs => "run",
    }
}

fn is_named(command: Command, word: &str) -> bool
    ensures { result ≡ bytes_eq (word_of command) word.now }
{
    word_of(command) == word
}

// The first of these commands whose word this is.
fn find_command(commands: &[Command], word: &str) -> Option<Command>
    ensures { result ≡ command_among commands.now word.now }
{
    commands
        .iter()
        .copied()
        .find(|command| is_named(*command, word))
}

// So many steps, from 1 to as many as a certificate may have.
fn steps_of(number: Option<u32>) -> Option<Command>
    ensures { result ≡ steps_of number }
{
    let steps = number?;
    if 1 <= steps && steps as usize <= MAX_STEPS {
        Some(Command::Reads(Reading::Step(steps as u8)))
    } else {
        None
    }
}

// The number of rounds, where it is no more than so many, up to as many as a certificate may have steps.
fn rounds_up_to(number: Option<u32>) -> Option<Command>
    ensures { result ≡ rounds_up_to number }
{
    let most = number?;
    if most as usize <= MAX_STEPS {
        Some(Command::Reads(Reading::Rounds(most as u8)))
    } else {
        None
    }
}

// One step from the problem of so many colours, from 1 to 16.
fn step_from(number: Option<u32>) -> Option<Command>
    ensures { result ≡ step_from number }
{
    let colours = number?;
    if 1 <= colours && colours <= MOST_COLOURS {
        Some(Command::Makes(Making::OneStep(colours as u8)))
    } else {
        None
    }
}

fn is_word(word: &str, other: &str) -> bool
    ensures { result ≡ bytes_eq word.now other.now }
{
    word == other
}

#[tactic(auto, unfolding(crate::specs::Command::command_of_two))]
fn command_of_two(first: &str, second: &str) -> Option<Command>
    ensures { result ≡ command_of_two first.now second.now }
{
    if is_word("diagram", first) {
        return find_command(&DIAGRAMS, second);
    }
    if is_word("step", first) {
        return steps_of(read_number(second.as_bytes()));
    }
    if is_word("rounds", first) {
        return rounds_up_to(read_number(second.as_bytes()));
    }
    if is_word("make", first) {
        return step_from(read_number(second.as_bytes()));
    }
    None
}

fn is_kind(kind: Kind, word: &str) -> bool
    ensures { result ≡ bytes_eq (kind_word kind) word.now }
{
    kind_word(kind) == word
}

// The kind of bound that a word searches for.
fn kind_named(word: &str) -> Option<Kind>
    ensures { result ≡ kind_named word.now }
{
    KINDS.iter().copied().find(|kind| is_kind(*kind, word))
}

// A fixed point has at least one step.
fn least_steps(kind: Kind) -> u32
    ensures { result ≡ least_steps kind }
{
    match kind {
        Kind::Lower | Kind::Upper => 0,
        Kind::Fixed => 1,
    }
}

// The search for a bound of this kind with these numbers, which are within their bounds.
fn search_with(kind: Option<Kind>, steps: Option<u32>, changes: Option<u32>) -> Option<Command>
    ensures { result ≡ search_with kind steps changes }
{
    let kind = kind?;
    let steps = steps?;
    let changes = changes?;
    if least_steps(kind) <= steps && steps as usize <= MAX_STEPS && changes <= MOST_CHANGES {
        Some(Command::Reads(Reading::Search(kind, steps as u8, changes as u8)))
    } else {
        None
    }
}

#[tactic(auto, unfolding(crate::specs::Command::command_of_three))]
fn command_of_three(first: &str, second: &str, third: &str) -> Option<Command>
    ensures { result ≡ command_of_three first.now second.now third.now }
{
    search_with(
        kind_named(first),
        read_number(second.as_bytes()),
        read_number(third.as_bytes()),
    )
}

// The word of a family.
fn family_word(kind: Family) -> &'static str
    ensures { result.now ≡ family_word kind }
{
    match kind {
        Family::Colouring => "colouring",
        Family::Matching => "matching",
        Family::Orientation => "orientation",
        Family::Mis => "mis",
    }
}

fn is_family_word(kind: Family, word: &str) -> bool
    ensures { result ≡ bytes_eq (family_word kind) word.now }
{
    family_word(kind) == word
}

// The family that a word names.
fn family_named(word: &str) -> Option<Family>
    ensures { result ≡ family_named word.now }
{
    FAMILIES
        .iter()
        .copied()
        .find(|kind| is_family_word(*kind, word))
}

fn is_degree(degree: u32) -> bool
    ensures { result ≡ is_degree degree }
{
    2 <= degree && degree <= 6
}

// Whether the degrees and the number of a family are each within its range.
fn is_family(kind: Family, active: u32, passive: u32, number: u32) -> bool
    ensures { result ≡ is_family kind active passive number }
{
    let passive_fits = match kind {
        Family::Mis => passive == 2,
        _ => is_degree(passive),
    };
    let number_fits = match kind {
        Family::Colouring => 1 <= number && number <= MOST_COLOURS,
        _ => number == 0,
    };
    is_degree(active) && passive_fits && number_fits
}

// The family of this kind with these numbers, which are within their ranges.
fn family_with(
    kind: Option<Family>,
    active: Option<u32>,
    passive: Option<u32>,
    number: Option<u32>,
) -> Option<Command>
    ensures { result ≡ family_with kind active passive number }
{
    let kind = kind?;
    let active = active?;
    let passive = passive?;
    let number = number?;
    if is_family(kind, active, passive, number) {
        Some(Command::Makes(Making::OfFamily(kind, active as u8, passive as u8, number as u8)))
    } else {
        None
    }
}

#[tactic(auto, unfolding(crate::specs::Command::command_of_five))]
fn command_of_five(
    first: &str,
    name: &str,
    active: &str,
    passive: &str,
    number: &str,
) -> Option<Command>
    ensures { result ≡ command_of_five first.now name.now active.now passive.now number.now }
{
    if is_word("family", first) {
        return family_with(
            family_named(name),
            read_number(active.as_bytes()),
            read_number(passive.as_bytes()),
            read_number(number.as_bytes()),
        );
    }
    None
}

/// The command that the words name, or None exactly where they name none.
#[tactic(auto, unfolding(crate::specs::Command::command_of))]
pub fn command_from(words: &[String]) -> Option<Command>
    ensures { result ≡ command_of (map string_bytes words.now) }
{
    match words {
        [word] => find_command(&ONE_WORD, word.as_str()),
        [first, second] => command_of_two(first.as_str(), second.as_str()),
        [first, second, third] => {
            command_of_three(first.as_str(), second.as_str(), third.as_str())
        }
        [first, name, active, passive, number] => command_of_five(
            first.as_str(),
            name.as_str(),
            active.as_str(),
            passive.as_str(),
            number.as_str(),
        ),
        _ => None,
    }
}
