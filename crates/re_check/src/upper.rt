//! What an upper step is that meets its clauses.
ghost use Rattle.re_check.specs.ClauseLaws.{HaveSets, IsUpperWhereMet};

use re_cert::{SetEntry, Step};
use re_problem::Problem;

// That the entries have sets.
fn have_sets(entries: &[SetEntry])
    ensures { HaveSets entries.now }
{
    let [entry, others @ ..] = entries else {
        return;
    };
    let _count = entry.set.count();
    have_sets(others)
}

/// The same as `upper_step_law`, of a step in memory, whose entries have sets. It goes once over the entries, and takes no memory.
pub fn upper_step(before: &Problem, step: &Step)
    ensures { IsUpperWhereMet before.now step.now }
{
    let _before = before;
    have_sets(step.entries());
}
