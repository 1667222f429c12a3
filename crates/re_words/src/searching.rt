// The commands that search for a certificate.
ghost use Rattle.re_cert.specs.declared.certificate.TheConstants.{MAX_STEPS};
ghost use Rattle.re_frame.specs.Check.{check_outcome};
ghost use Rattle.re_words.specs.Command.{least_steps};
ghost use Rattle.re_words.specs.Found.{Accepts};
ghost use Rattle.re_frame.specs.Outcomes.{outcome_of};
ghost use Rattle.re_words.specs.Searching.{search_outcome};
ghost use Rattle.re_search.specs.Searches.{Answers, FindsSteps, FindsValid};
ghost use Rattle.std.specs.Prelude.{◌≡◌, ◌≤◌, IfOk};

use re_cert::Kind;
use re_frame::{Answer, Output, done, limit_of, not_found_output};
use re_labels::NoMemory;
use re_problem::Problem;
use re_search::{FindFault, MAX_NODES, Search, find_fixed, find_lower, find_upper};
use re_texts::print_certificate;
use std::alloc::Global;

// What the search for a bound of this kind comes to.
fn find(
    alloc: Global,
    kind: Kind,
    steps: u8,
    changes: u8,
    problem: &Problem,
) -> Result<Search, FindFault>
    requires least { least_steps kind ≤ steps }
    requires steps { steps ≤ MAX_STEPS }
    requires changes { changes ≤ 8 }
    ensures answer { Answers kind steps changes problem.now result }
    ensures valid { FindsValid kind result }
    ensures found_steps { FindsSteps kind steps result }
{
    match kind {
        Kind::Lower => find_lower(alloc, problem, steps, changes),
        Kind::Upper => find_upper(alloc, problem, steps, changes),
        Kind::Fixed => find_fixed(alloc, problem, steps, changes),
    }
}

/// The certificate that a search finds, which `check` accepts, or the counts of its nodes, unless these are too many.
#[tactic(auto, unfolding(crate::specs::Searching::search_outcome))]
pub(crate) fn search_output(
    alloc: Global,
    kind: Kind,
    steps: u8,
    changes: u8,
    problem: &Problem,
) -> Result<Output, NoMemory>
    requires least { least_steps kind ≤ steps }
    requires steps { steps ≤ MAX_STEPS }
    requires changes { changes ≤ 8 }
    ensures output { IfOk result (λ output. outcome_of output ≡ search_outcome kind steps changes problem.now) }
    ensures accepted { IfOk result (λ output. output.answer ≡ Answer.Done → Accepts kind steps (check_outcome output.text.items)) }
{
    match find(alloc, kind, steps, changes, problem) {
        Ok(Search::Found(certificate)) => Ok(done(print_certificate(alloc, &certificate)?)),
        Ok(Search::NotFound { nodes, cut }) => not_found_output(alloc, nodes, cut),
        Err(FindFault::TooManyNodes) => limit_of(alloc, MAX_NODES as usize, "nodes"),
        Err(FindFault::NoMemory) => Err(NoMemory),
    }
}
