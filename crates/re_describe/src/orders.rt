//! What flexible sets of labels say of the order of rounds.
ghost use Rattle.re_describe.specs.Reports.{SaysOrder, order_text};
ghost use Rattle.std.specs.Prelude.{◌≡◌, IfOk};

use crate::pieces::push_listed;
use re_flexible::{Flexibility, flexibility_of};
use re_frame::{begun, push_words};
use re_labels::{Names, NoMemory};
use re_problem::Problem;
use std::alloc::Global;

// What they say of a problem with these names.
fn order_text(alloc: Global, names: &Names, flexibility: &Flexibility) -> Result<Vec<u8>, NoMemory>
    ensures { IfOk result (λ text. text.items ≡ order_text names.now flexibility.now) }
{
    match flexibility {
        Flexibility::Flexible(set) => {
            let mut text = begun(alloc, "\nThe labels `")?;
            push_listed(&mut text, names, &[], b"`, `", *set)?;
            push_words(
                &mut text,
                "` are a flexible set (`re_flexible::flexibility_of`), so on these forests problem 0 takes at most the order of $\\log N$ rounds, too (`re_forests::below_log_law`): exactly that order.\n",
            )?;
            Ok(text)
        }
        Flexibility::Length(_) => begun(alloc, ""),
        Flexibility::NoSolution => begun(
            alloc,
            "\nNo set of its labels is left by trimming (`re_flexible::flexibility_of`), so forests of enough nodes have no solution of problem 0 (`re_forests::never_law`).\n",
        ),
    }
}

/// What the flexible sets of the problem say, or the levels of its labels.
pub(crate) fn problem_order(alloc: Global, problem: &Problem) -> Result<Vec<u8>, NoMemory>
    ensures { IfOk result (λ text. SaysOrder problem.now text.items) }
{
    let flexibility = flexibility_of(problem);
    order_text(alloc, problem.names(), &flexibility)
}
