//! Parts of evidence that hold a flexible set of labels.
ghost use Rattle.re_chains.specs.TwoTexts.{has_line};
ghost use Rattle.re_frame.specs.Outcomes.{outcome_of};
ghost use Rattle.re_judging.specs.PartAnswers.{PartMeans};
ghost use Rattle.re_judging.specs.PartVerdicts.{IsFlexibleBy, IsFlexiblePart, IsSetBy, front_fault, not_flexible};
ghost use Rattle.std.specs.Prelude.{◌≡◌, ◌≤◌, IfOk, codes, length, true};

use crate::label_lines::one_set;
use crate::types::{Fact, Judged, Part};
use re_chains::{cut_at, read_problem_at};
use re_flexible::is_flexible;
use re_frame::{Output, begun, fault_output, refused};
use re_io::MAX_BYTES;
use re_labels::{LabelSet, NoMemory};
use re_problem::{InputFault, Problem, TextFault};
use std::alloc::Global;

/// The name of the line in front of the set.
pub(crate) const FLEXIBLE: &[u8] = b"flexible";

// The refusal of a set that isn't flexible.
fn not_flexible(alloc: Global) -> Result<Output, NoMemory>
    ensures { IfOk result (λ output. outcome_of output ≡ not_flexible) }
{
    Ok(refused(begun(alloc, "no: not flexible\n")?))
}

// What comes of a problem and a set of labels.
fn flexible_by(alloc: Global, problem: Problem, set: LabelSet) -> Result<Judged, NoMemory>
    ensures answer { IfOk result (IsFlexibleBy set problem) }
    ensures means { IfOk result PartMeans }
{
    let _names = problem.names();
    if is_flexible(&problem, set) {
        Ok(Judged::Holds(Part {
            problem,
            fact: Fact::Flexible,
        }))
    } else {
        Ok(Judged::Refused(not_flexible(alloc)?))
    }
}

// What comes of a problem and the set that is read, if any.
fn set_by(
    alloc: Global,
    problem: Problem,
    set: Result<LabelSet, InputFault>,
) -> Result<Judged, NoMemory>
    ensures answer { IfOk result (IsSetBy set problem) }
    ensures means { IfOk result PartMeans }
{
    match set {
        Ok(set) => flexible_by(alloc, problem, set),
        Err(fault) => Ok(Judged::Refused(fault_output(alloc, fault)?)),
    }
}

/// What comes of the text of a problem and a set of labels.
pub(crate) fn flexible_part(alloc: Global, text: &[u8]) -> Result<Judged, NoMemory>
    requires few { length text.now ≤ MAX_BYTES }
    requires has { has_line (codes "flexible") text.now ≡ true }
    ensures answer { IfOk result (IsFlexiblePart (front_fault (codes "flexible") text.now) text.now) }
    ensures means { IfOk result PartMeans }
{
    let Some(cut) = cut_at(FLEXIBLE, text) else {
        unreachable!();
    };
    match read_problem_at(alloc, 0, 1, cut.front) {
        Ok(problem) => {
            let set = one_set(problem.names(), cut.number, cut.behind);
            set_by(alloc, problem, set)
        }
        Err(TextFault::Bad(fault)) => Ok(Judged::Refused(fault_output(alloc, fault)?)),
        Err(TextFault::NoMemory) => Err(NoMemory),
    }
}
