//! What a report says of the first problem, in rounds of the tree and of a graph, and where nodes have identifiers or random strings.
ghost use Rattle.re_describe.specs.Heads.{at_most, claim, fewer_claim, graph_claim, identifiers_claim, in_all, model, up_to};
ghost use Rattle.std.specs.Prelude.{◌≡◌, ◌==◌, ◌≤◌, ◌++◌, [], OnOk, if◌then◌else◌};

use crate::pieces::{push_between, push_count};
use re_cert::Kind;
use re_check::Verdict;
use re_frame::{push_number, push_words};
use re_labels::NoMemory;

// So many or fewer rounds.
fn push_at_most(text: &mut Vec<u8>, rounds: usize) -> Result<(), NoMemory>
    ensures { OnOk result (text.new.items ≡ text.old.items ++ at_most rounds) }
{
    if rounds == 0 {
        return push_words(text, "0 rounds");
    }
    let alloc = *text.allocator();
    push_number(alloc, text, rounds)?;
    push_words(text, " or fewer rounds")
}

// So many rounds.
fn push_in_all(text: &mut Vec<u8>, rounds: usize) -> Result<(), NoMemory>
    ensures { OnOk result (text.new.items ≡ text.old.items ++ in_all rounds) }
{
    let alloc = *text.allocator();
    push_number(alloc, text, rounds)?;
    push_words(text, if rounds == 1 { " round" } else { " rounds" })
}

/// Words, a number of rounds or fewer, and words.
pub(crate) fn push_fewer(
    text: &mut Vec<u8>,
    words: &str,
    rounds: usize,
    more: &str,
) -> Result<(), NoMemory>
    ensures { OnOk result (text.new.items ≡ text.old.items ++ (words.now ++ (at_most rounds ++ more.now))) }
{
    push_words(text, words)?;
    push_at_most(text, rounds)?;
    push_words(text, more)
}

/// Words, a number of rounds, and words.
pub(crate) fn push_rounds(
    text: &mut Vec<u8>,
    words: &str,
    rounds: usize,
    more: &str,
) -> Result<(), NoMemory>
    ensures { OnOk result (text.new.items ≡ text.old.items ++ (words.now ++ (in_all rounds ++ more.now))) }
{
    push_words(text, words)?;
    push_in_all(text, rounds)?;
    push_words(text, more)
}

// What an accepted certificate of this kind, with so many steps, says of the first problem.
fn push_accepted(text: &mut Vec<u8>, kind: Kind, steps: usize) -> Result<(), NoMemory>
    ensures { OnOk result (text.new.items ≡ text.old.items ++ claim (Verdict.Accepted kind steps)) }
{
    match kind {
        Kind::Lower => push_fewer(
            text,
            "\nNo deterministic port-numbering algorithm solves problem 0 in ",
            steps,
            ".\n",
        ),
        Kind::Upper => push_rounds(
            text,
            "\nA deterministic port-numbering algorithm solves problem 0 in ",
            steps,
            ".\n",
        ),
        Kind::Fixed => push_words(
            text,
            "\nNo deterministic port-numbering algorithm solves problem 0 in any number of rounds.\n",
        ),
    }
}

/// Appends what the verdict says of the first problem.
pub(crate) fn push_claim(text: &mut Vec<u8>, verdict: Verdict) -> Result<(), NoMemory>
    ensures { OnOk result (text.new.items ≡ text.old.items ++ claim verdict) }
{
    match verdict {
        Verdict::Accepted { kind, steps } => push_accepted(text, kind, steps as usize),
        Verdict::Refused { .. } => push_words(
            text,
            "\nThe check fails, so nothing follows from this certificate.\n",
        ),
    }
}

/// Appends where algorithms run, and what a round is.
pub(crate) fn push_model(text: &mut Vec<u8>, active: u8, passive: u8) -> Result<(), NoMemory>
    ensures { OnOk result (text.new.items ≡ text.old.items ++ model active passive) }
{
    push_count(
        text,
        "\nThe algorithms run on the infinite biregular tree with port numbers whose active nodes have degree ",
        active as usize,
    )?;
    push_between(
        text,
        " and whose passive nodes have degree ",
        passive as usize,
        ", without identifiers, random bits or inputs. A round is one hop of this tree.\n",
    )
}

// What an accepted certificate says of rounds of the graph whose edges the passive nodes are.
fn push_graph_accepted(text: &mut Vec<u8>, kind: Kind, steps: u8) -> Result<(), NoMemory>
    ensures { OnOk result (text.new.items ≡ text.old.items ++ graph_claim (Verdict.Accepted kind steps)) }
{
    match kind {
        Kind::Lower => push_fewer(
            text,
            "\nThe passive nodes are the edges of a graph, and two hops are one round of the graph. Problem 0 isn't solvable in ",
            steps as usize / 2,
            " of the graph.\n",
        ),
        Kind::Upper => push_rounds(
            text,
            "\nThe passive nodes are the edges of a graph, and two hops are one round of the graph. Problem 0 is solvable in ",
            (steps as usize + 1) / 2,
            " of the graph, where each edge numbers its two ends, so that the graph comes with an orientation.\n",
        ),
        Kind::Fixed => push_words(
            text,
            "\nThe passive nodes are the edges of a graph, and two hops are one round of the graph. Problem 0 isn't solvable in any number of rounds of the graph.\n",
        ),
    }
}

/// Appends what the verdict says of rounds of the graph whose edges the passive nodes are.
pub(crate) fn push_graph_claim(text: &mut Vec<u8>, verdict: Verdict) -> Result<(), NoMemory>
    ensures { OnOk result (text.new.items ≡ text.old.items ++ graph_claim verdict) }
{
    match verdict {
        Verdict::Accepted { kind, steps } => push_graph_accepted(text, kind, steps),
        Verdict::Refused { .. } => push_words(
            text,
            "\nThe passive nodes are the edges of a graph, and two hops are one round of the graph.\n",
        ),
    }
}

// The numbers of rounds up to this one.
fn push_up_to(text: &mut Vec<u8>, rounds: usize) -> Result<(), NoMemory>
    ensures { OnOk result (text.new.items ≡ text.old.items ++ up_to rounds) }
{
    if rounds == 0 {
        return push_words(text, "for $T = 0$");
    }
    push_count(text, "for each $T$ from 0 to ", rounds)
}

// What a lower bound of so many steps says of forests, and of random strings, where active nodes have this degree.
fn push_fewer_claim(text: &mut Vec<u8>, active: u8, steps: u8) -> Result<(), NoMemory>
    requires { 1 ≤ steps }
    ensures { OnOk result (text.new.items ≡ text.old.items ++ fewer_claim active steps) }
{
    push_words(
        text,
        "\nOn finite forests of $N$ nodes, whose identifiers are the numbers below $N$, no deterministic algorithm of $T$ rounds solves it, ",
    )?;
    push_up_to(text, steps as usize - 1)?;
    push_between(
        text,
        " and each $N$ from $",
        active as usize + 1,
        " C^{T + 2}$ on (`re_forests::link_law`, `re_forests::fewer_on_forests_law`).\n\nRandomised algorithms, in which each active node of these trees also draws a private random string: ",
    )?;
    push_up_to(text, steps as usize)?;
    push_words(
        text,
        ", each $N$ from $B^{T + 1}$ on and each $q$ from $2^{D^{T + 1}}$ on, each such algorithm of $T$ rounds has port numbers and different identifiers with which it fails at some node with a probability of at least $1/q$. The numbers $B$ and $D$ depend on the degrees and the number of labels of the last problem alone (`re_given_bounds::whole_randomised_law`).\n",
    )
}

// The same where there are steps.
fn push_where_fewer(text: &mut Vec<u8>, active: u8, steps: u8) -> Result<(), NoMemory>
    ensures { OnOk result (text.new.items ≡ text.old.items ++ (if steps == 0 then [] else fewer_claim active steps)) }
{
    if steps == 0 {
        return push_words(text, "");
    }
    push_fewer_claim(text, active, steps)
}

// What a lower bound of so many steps says of algorithms with unique identifiers.
fn push_lower_identifiers(text: &mut Vec<u8>, active: u8, steps: u8) -> Result<(), NoMemory>
    ensures { OnOk result (text.new.items ≡ text.old.items ++ identifiers_claim active (Verdict.Accepted Kind.Lower steps)) }
{
    push_words(
        text,
        "\nWith unique identifiers at the active nodes of these trees, one of $N$ at each and different ones wherever a node sees two, no deterministic algorithm of $T$ rounds solves problem 0, ",
    )?;
    push_up_to(text, steps as usize)?;
    push_words(
        text,
        " and each $N$ from $C^{T + 1}$ on, where $C$ depends on the degrees and the number of labels of the last problem alone (`re_given_bounds::whole_lower_bound_law`).\n",
    )?;
    push_where_fewer(text, active, steps)
}

// What an upper bound of so many steps says of them.
fn push_upper_identifiers(text: &mut Vec<u8>, active: u8, steps: u8) -> Result<(), NoMemory>
    ensures { OnOk result (text.new.items ≡ text.old.items ++ identifiers_claim active (Verdict.Accepted Kind.Upper steps)) }
{
    push_rounds(
        text,
        "\nWith unique identifiers a deterministic algorithm solves problem 0 on these trees in ",
        steps as usize,
        " too, however many there are (`re_classes::any_identifiers_law`), and on finite forests in ",
    )?;
    push_in_all(text, steps as usize + 1)?;
    push_words(text, " (`re_forests::ports_on_forests_law`).\n")
}

// What an accepted certificate says of them.
fn push_identifiers_accepted(
    text: &mut Vec<u8>,
    active: u8,
    kind: Kind,
    steps: u8,
) -> Result<(), NoMemory>
    ensures { OnOk result (text.new.items ≡ text.old.items ++ identifiers_claim active (Verdict.Accepted kind steps)) }
{
    match kind {
        Kind::Lower => push_lower_identifiers(text, active, steps),
        Kind::Upper => push_upper_identifiers(text, active, steps),
        Kind::Fixed => push_words(
            text,
            "\nWith unique identifiers at the active nodes of these trees, one of $N$ at each and different ones wherever a node sees two, no deterministic algorithm of $T$ rounds solves problem 0, for each $T$ and each $N$ from $C^{T + 1}$ on, where $C$ depends on the degrees and the greatest number of labels of a problem alone (`re_given_bounds::logarithmic_bound_law`): it takes more than $\\log_C N - 1$ rounds. So on finite forests of $N$ nodes, whose identifiers are the numbers below $N$, it takes at least the order of $\\log N$ rounds (`re_given_bounds::above_log_law`, `re_forests::above_law`).\n\nRandomised algorithms, in which each active node of these trees also draws a private random string: for each $T$, each $N$ from $C^{T + 1}$ on and each $q$ from $2^{D^{T + 1}}$ on, each such algorithm of $T$ rounds has port numbers and different identifiers with which it fails at some node with a probability of at least $1/q$. The number $D$ depends on the degrees and the greatest number of labels of a problem alone (`re_given_bounds::identified_bound_law`). So with $n$ identifiers and a probability of failure below $1/n$ at each node, problem 0 takes at least the order of $\\log \\log n$ rounds.\n",
        ),
    }
}

/// Appends what the verdict says of algorithms whose nodes have unique identifiers, and of randomised ones, where active nodes have this degree.
pub(crate) fn push_identifiers(
    text: &mut Vec<u8>,
    active: u8,
    verdict: Verdict,
) -> Result<(), NoMemory>
    ensures { OnOk result (text.new.items ≡ text.old.items ++ identifiers_claim active verdict) }
{
    match verdict {
        Verdict::Accepted { kind, steps } => push_identifiers_accepted(text, active, kind, steps),
        Verdict::Refused { .. } => push_words(text, ""),
    }
}
