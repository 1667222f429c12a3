//! The lines of a search for a fixed point without success.
ghost use Rattle.re_frame.specs.Outcomes.{outcome_of};
ghost use Rattle.re_search_words.specs.Lines.{searched_limit, searched_outcome};
ghost use Rattle.std.specs.Prelude.{◌≡◌, IfOk};

use re_frame::{Answer, Output, begun, push_number, push_words, refused};
use re_labels::NoMemory;
use std::alloc::Global;

/// The output of a search for a fixed point without success: how many problems were looked at, and how many were cut off. It says nothing of
/// the problem.
pub fn searched_output(alloc: Global, nodes: u32, cut: u32) -> Result<Output, NoMemory>
    ensures { IfOk result (λ output. outcome_of output ≡ searched_outcome nodes cut) }
{
    let mut text = begun(alloc, "not found: searched nodes ")?;
    push_number(alloc, &mut text, nodes as usize)?;
    push_words(&mut text, ", cut ")?;
    push_number(alloc, &mut text, cut as usize)?;
    push_words(&mut text, "\n")?;
    Ok(refused(text))
}

/// The output of one that looked at as many problems as it may.
pub fn searched_limit(alloc: Global, nodes: u32) -> Result<Output, NoMemory>
    ensures { IfOk result (λ output. outcome_of output ≡ searched_limit nodes) }
{
    let mut text = begun(alloc, "limit: searched more than ")?;
    push_number(alloc, &mut text, nodes as usize)?;
    push_words(&mut text, " nodes\n")?;
    Ok(Output {
        answer: Answer::Limit,
        text,
    })
}
