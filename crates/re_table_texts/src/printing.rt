//! The printing of tables.
ghost use Rattle.re_algo.specs.Tables.{IsTable};
ghost use Rattle.re_problem.specs.CanonicalTexts.{canonical};
ghost use Rattle.re_table_texts.specs.PrintedTables.{IsTableFor, answer_text, answers_text, table_text};
ghost use Rattle.re_table_texts.specs.TableTexts.{TableText, may_stand, table_input};
ghost use Rattle.std.specs.Fmt.{decimal};
ghost use Rattle.std.specs.List.{AllByRecursion};
ghost use Rattle.std.specs.Prelude.{◌≡◌, ◌<◌, ◌++◌, codes, IfOk, None, Ok, OnOk, length, string_bytes, true};

use crate::table_texts::TableForm;
use re_algo::Table;
use re_cert::RowImage;
use re_labels::{Names, NoMemory, PortLabels};
use re_problem::{Problem, push_problem};
use re_texts::{limits, push_all, push_image};
use std::alloc::{AllocError, Global};

// Appends an answer: its labels with one space between.
fn push_answer(text: &mut Vec<u8>, names: &Names, labels: &PortLabels) -> Result<(), NoMemory>
    requires { AllByRecursion (λ label. label < length names.now) labels.now }
    ensures { OnOk result (text.new.items ≡ text.old.items ++ answer_text names.now labels.now) }
{
    let Some(line) = RowImage::new(labels.labels()) else {
        unreachable!();
    };
    push_image(text, names, &line)
}

// Appends the answers, one a line.
fn push_answers(text: &mut Vec<u8>, names: &Names, answers: &[PortLabels]) -> Result<(), NoMemory>
    requires { AllByRecursion (AllByRecursion (λ label. label < length names.now)) answers.now }
    ensures { OnOk result (text.new.items ≡ text.old.items ++ answers_text names.now answers.now) }
{
    for labels in answers {
        push_answer(text, names, labels)?;
        text.push(b'\n')?;
    }
    Ok(())
}

// The section line of a table.
fn section_line(alloc: Global, radius: u8) -> Result<String, AllocError>
    ensures { IfOk result (λ text. string_bytes text ≡ codes "== table " ++ decimal radius ++ codes "\n") }
{
    format!(in alloc; "== table {radius}\n")
}

// Appends the section line of a table.
fn push_section(text: &mut Vec<u8>, radius: u8) -> Result<(), NoMemory>
    ensures { OnOk result (text.new.items ≡ text.old.items ++ codes "== table " ++ decimal radius ++ codes "\n") }
{
    let alloc = *text.allocator();
    let line = section_line(alloc, radius)?;
    push_all(text, line.as_str())
}

// The text of a problem and a table.
fn table_bytes(alloc: Global, problem: &Problem, table: &Table) -> Result<Vec<u8>, NoMemory>
    requires { IsTableFor problem.now table.now }
    ensures { IfOk result (λ text. text.items ≡ table_text problem.now table.now) }
{
    let mut text = Vec::new(alloc);
    push_all(&mut text, "== problem\n")?;
    push_problem(&mut text, problem)?;
    push_section(&mut text, table.radius())?;
    push_answers(&mut text, problem.names(), table.answers())?;
    Ok(text)
}

/// The text of a problem and a table for it: `== problem`, the canonical text, `== table T` with its radius, and a line for each view,
/// each label as in the canonical text and with one space between. The table has the degrees of the problem, and labels of it alone.
/// The text is read as the same problem and the same table where it has at most `re_io::MAX_BYTES` bytes.
pub fn print_table(alloc: Global, problem: &Problem, table: &Table) -> Result<Vec<u8>, NoMemory>
    requires { IsTableFor problem.now table.now }
    ensures text { IfOk result (λ text. text.items ≡ table_text problem.now table.now) }
    ensures read { IfOk result (λ text. table_input TableForm.Plain text.items ≡ Ok (record { problem = problem.now; next = None; table = table.now })) }
    ensures faster { IfOk result (λ text. may_stand TableForm.Faster table.now.radius ≡ true → table_input TableForm.Faster text.items ≡ Ok (record { problem = problem.now; next = None; table = table.now })) }
{
    limits(problem);
    let _radius = table.radius();
    let text = table_bytes(alloc, problem, table)?;
    Ok(text)
}
