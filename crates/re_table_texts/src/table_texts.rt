//! The texts of tables, read as a whole.
ghost use Rattle.re_io.specs.declared.read.TheConstants.{MAX_BYTES};
ghost use Rattle.re_table_texts.specs.Reading.{Gives, owner_in};
ghost use Rattle.re_table_texts.specs.TableTexts.{may_stand, table_input};
ghost use Rattle.std.specs.Prelude.{◌≡◌, ◌==◌, ◌≤◌, ◌<◌, ◌+◌, ◌↔◌, IfOk, IsSome, length, true};

use crate::reading::{Place, end_lines, judge};
use re_algo::Table;
use re_problem::{Problem, TextFault, cut_line};
use std::alloc::Global;

/// What the text of a table is for.
#[derive(Clone, Copy, Debug, PartialEq, Eq)]
pub enum TableForm {
    /// A problem and a table of it.
    Plain,
    /// The same, with a table of at least 1 round.
    Faster,
    /// A problem, its derived problem, and a table of the latter.
    Slower,
}

/// A problem, its derived problem in the form `TableForm::Slower`, and a table of the last of them.
#[derive(Drop)]
pub struct TableInput {
    pub problem: Problem,
    pub next: Option<Problem>,
    pub table: Table,
}

/// What the text of a table writes: its problem, its derived problem where the form is `TableForm::Slower`, and the table, which
/// belongs to the last of them. `Bad` comes exactly where the text has a fault, with its first one.
///
/// The text has the section `== problem` with a problem text, in the form `TableForm::Slower` the section `== next` with another one,
/// and `== table T` with one line for each view of radius T, in the order of `re_laws::all_views`, up to its end: the labels that the
/// node outputs, by port. A section line is one whose first two bytes are `==`, and its words are separated by blanks. Before the
/// first one, and among the lines of labels, empty lines are passed over. Bytes count from 0 and lines from 1 in the whole text; the
/// last line needs no line feed.
///
/// A line of a problem text is at fault as `read_problem` has it, and a section line behind a problem text that lacks its passive
/// block is `MissingBlock` first. Any other line where a section line is due, and any other section line, is `BadSection`, and so is a
/// T that isn't written as a number from 0 to 64 without a leading zero, or is 0 in the form `TableForm::Faster`. Then `== table T` is
/// `TooManyViews` where there are more than `re_algo::MAX_VIEWS` views of that radius. A line of labels is `BadByte`, else `BadItem`
/// where it isn't a list of labels without power, else `BadEntry` where a label is unknown, they aren't as many as active nodes have
/// ports, or each view has its line already. At the end it is `BadEntry` where views lack their lines, with the number of the line
/// that would come next, and `EarlyEnd` where `== table` hasn't come.
pub fn read_table(alloc: Global, text: &[u8], form: TableForm) -> Result<TableInput, TextFault>
    requires { length text.now ≤ MAX_BYTES }
    ensures gives { Gives (table_input form text.now) result }
    ensures next { IfOk result (λ input. IsSome input.next ↔ (form ≡ TableForm.Slower)) }
    ensures rounds { IfOk result (λ input. may_stand form input.table.radius ≡ true) }
    ensures active { IfOk result (λ input. input.table.degrees.active ≡ (owner_in input).active.degree) }
    ensures passive { IfOk result (λ input. input.table.degrees.passive ≡ (owner_in input).passive.degree) }
{
    let mut place = Place::Start;
    let mut byte: u32 = 0;
    let mut number: u32 = 1;
    let mut rest = text;
    'lines: while !rest.is_empty() {
        let (line, behind) = cut_line(rest);
        place = match judge(alloc, form, place, byte, number, line) {
            Ok(next) => next,
            Err(fault) => return Err(fault),
        };
        byte += line.len() as u32 + 1;
        number += 1;
        rest = behind;
    }
    end_lines(form, place, number)
}
