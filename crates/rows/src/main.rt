//! Worked rows of the two programs, as texts: words and bytes, and what is answered. The arguments name the files that have the rows, one after
//! another; standard output gets a line for each row that isn't as it should be, and how many are.
#![tactic(auto)]

mod answers;
mod damage;
mod devices;
mod failing;
mod growing;
mod reports;
mod script;

use reports::report_files;
use std::{env, io};

fn main(rt: HostRuntime) -> io::Result<()> {
    let arguments: Vec<String> = env::args(&rt)?.collect(rt.alloc())?;
    report_files(&rt, rt.alloc(), arguments.get(1..).unwrap_or(&[]))
}
