//! The lines of limits that a step passes.
ghost use Rattle.re_frame.specs.Outcomes.{limit as limit_with, outcome_of};
ghost use Rattle.re_limits.specs.StepLimits.{limit_line};
ghost use Rattle.std.specs.Fmt.{decimal};
ghost use Rattle.std.specs.Prelude.{◌≡◌, ◌++◌, IfOk, codes, string_bytes};

use re_frame::{Answer, Output};
use re_labels::NoMemory;
use re_step::StepLimit;
use std::alloc::{AllocError, Global};

fn rows_line(alloc: Global, number: u8) -> Result<String, AllocError>
    ensures { IfOk result (λ text. string_bytes text ≡ limit_line number StepLimit.Rows) }
{
    format!(in alloc; "limit: step {number}: more than 1024 rows\n")
}

fn labels_begin(alloc: Global, number: u8) -> Result<String, AllocError>
    ensures { IfOk result (λ text. string_bytes text ≡ codes "limit: step " ++ decimal number ++ codes ": more than 128 labels: ") }
{
    format!(in alloc; "limit: step {number}: more than 128 labels: ")
}

fn count_line(alloc: Global, count: u32) -> Result<String, AllocError>
    ensures { IfOk result (λ text. string_bytes text ≡ decimal count ++ codes "\n") }
{
    format!(in alloc; "{count}\n")
}

fn labels_line(alloc: Global, number: u8, count: u32) -> Result<String, AllocError>
    ensures { IfOk result (λ text. string_bytes text ≡ limit_line number (StepLimit.Labels count)) }
{
    let mut text = labels_begin(alloc, number)?;
    let rest = count_line(alloc, count)?;
    text.push_str(rest.as_str())?;
    Ok(text)
}

fn configurations_line(alloc: Global, number: u8) -> Result<String, AllocError>
    ensures { IfOk result (λ text. string_bytes text ≡ limit_line number StepLimit.Configurations) }
{
    format!(in alloc; "limit: step {number}: more than 1048576 configurations\n")
}

fn limit_line(alloc: Global, number: u8, limit: StepLimit) -> Result<String, AllocError>
    ensures { IfOk result (λ text. string_bytes text ≡ limit_line number limit) }
{
    match limit {
        StepLimit::Rows => rows_line(alloc, number),
        StepLimit::Labels(count) => labels_line(alloc, number, count),
        StepLimit::Configurations => configurations_line(alloc, number),
    }
}

/// The output for a limit that the step of this number passes.
pub fn limit_output(alloc: Global, number: u8, limit: StepLimit) -> Result<Output, NoMemory>
    ensures { IfOk result (λ output. outcome_of output ≡ limit_with (limit_line number limit)) }
{
    Ok(Output {
        answer: Answer::Limit,
        text: limit_line(alloc, number, limit)?.into_bytes(),
    })
}
