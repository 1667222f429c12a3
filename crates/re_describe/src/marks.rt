//! Marks where the check of a certificate fails.
ghost use Rattle.re_describe.specs.Reports.{asked, fails_text};
ghost use Rattle.std.specs.Prelude.{◌≡◌, IfOk};

use re_check::Clause;
use re_frame::{begun, push_words};
use re_labels::NoMemory;
use std::alloc::Global;

// The name of a clause, and what it asks.
fn asked(clause: Clause) -> &'static str
    ensures { result.now ≡ asked clause }
{
    match clause {
        Clause::L1 => "L1: the degrees of the next problem are those of the one before, exchanged",
        Clause::L2 => {
            "L2: the rows are the maximal rows of the passive constraint before, in order"
        }
        Clause::L3 => {
            "L3: by sets, the entries have exactly the sets that occur in the rows, each once and ascending; by rows, there are as many images as rows"
        }
        Clause::L4 => "L4: the image of each row is an active configuration of the next problem",
        Clause::L5 => {
            "L5: for each multiset of the sets that occur from which some choice is active before, each choice of a label that each of them becomes is passive in the next problem"
        }
        Clause::U1 => "U1: the degrees of the next problem are those of the one before, exchanged",
        Clause::U2 => {
            "U2: the entries have exactly the labels of the next problem, each once and ascending, each with a nonempty set of labels of the problem before"
        }
        Clause::U3 => {
            "U3: the sets of each active configuration of the next problem are a good row of the passive constraint before: every choice from them is passive"
        }
        Clause::U4 => {
            "U4: from the sets of each passive configuration of the next problem some choice is active before"
        }
        Clause::End => {
            "END: the last problem is not solvable without communication, or in an upper bound it is"
        }
        Clause::Back => {
            "BACK: the first labels of the renaming are exactly those of the last problem, each once and ascending; it is one to one, and makes the last problem the one to which it goes back"
        }
    }
}

/// The line that says that the clause fails here.
pub(crate) fn fails_text(alloc: Global, clause: Clause) -> Result<Vec<u8>, NoMemory>
    ensures { IfOk result (λ text. text.items ≡ fails_text clause) }
{
    let mut text = begun(alloc, "\n**The check fails here, at clause ")?;
    push_words(&mut text, asked(clause))?;
    push_words(&mut text, ". `explore why` shows what refutes it.**\n")?;
    Ok(text)
}
