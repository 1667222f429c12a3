//! The program: its words are the arguments, its source standard input, its sink standard output.
#![tactic(auto)]

use re_explore::run;
use re_io::{StdSink, StdSource};
use std::process::ExitCode;
use std::{env, io};

// The exit codes of a run that had no words.
const NO_MEMORY: u8 = 7;

const NO_TEXT: u8 = 8;

// All arguments, or the exit code where they cannot be had.
fn arguments(rt: &HostRuntime) -> Result<Vec<String>, u8> {
    match env::args(rt) {
        Ok(arguments) => arguments.collect(rt.alloc()).map_err(|_| NO_MEMORY),
        Err(error) if error.kind() == io::ErrorKind::OutOfMemory => Err(NO_MEMORY),
        Err(_) => Err(NO_TEXT),
    }
}

fn main(rt: HostRuntime) -> ExitCode {
    match arguments(&rt) {
        Ok(arguments) => {
            let words = arguments.get(1..).unwrap_or(&[]);
            let mut source = StdSource::new(rt.stdin());
            let mut sink = StdSink::new(rt.stdout());
            let status = run(rt.alloc(), words, &mut source, &mut sink);
            ExitCode::from(status.code())
        }
        Err(code) => ExitCode::from(code),
    }
}
