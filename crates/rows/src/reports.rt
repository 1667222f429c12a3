//! Rows of files, and a line for each that isn't as it should be.
use crate::script::Script;
use std::alloc::Global;
use std::{fs, io};

fn tell_wrong(rt: &impl Print, place: &str, number: usize) -> io::Result<()> {
    println!(rt; "{place}line {number}: not so")
}

fn tell_right(rt: &impl Print, rows: usize) -> io::Result<()> {
    println!(rt; "rows as they should be: {rows}")
}

// Takes the rows of a text, and prints a line for each that isn't as it should be, with the place of the text before it.
fn take_rows(rt: &impl Print, script: &mut Script, place: &str, text: &str) -> io::Result<()> {
    for (number, line) in text.lines().enumerate() {
        if !script.take(line)? {
            tell_wrong(rt, place, number.saturating_add(1))?;
        }
    }
    Ok(())
}

/// Prints a line for each row of the files that isn't as it should be, with the name of its file, and then how many are. A text that one file
/// names is known in those behind it.
pub(crate) fn report_files(rt: &HostRuntime, alloc: Global, names: &[String]) -> io::Result<()> {
    let mut script = Script::new(alloc);
    for name in names {
        let text = fs::read_to_string(rt, name.as_str())?;
        let place = format!(in alloc; "{name}: ")?;
        take_rows(rt, &mut script, place.as_str(), text.as_str())?;
    }
    tell_right(rt, script.right())
}
