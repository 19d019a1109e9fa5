//! The program `brushed`: it hands its words, standard input, standard output and the files to `run`, and ends with the
//! number of the status.
#![tactic(auto)]

use edit_session::run;
use outside_io::{FileVault, StdSink, StdSource};
use std::process::ExitCode;
use std::{env, io};

/// The words are refused by the system.
const REFUSED: u8 = 7;

/// There is no memory for the words.
const MEMORY: u8 = 5;

/// A word isn't text.
const USAGE: u8 = 1;

/// The words after the program's name.
fn words(rt: &HostRuntime) -> io::Result<Vec<String>> {
    let mut args = env::args(rt)?;
    let _program = args.next();
    Ok(args.collect(rt.alloc())?)
}

/// The number to end with where the words couldn't be had.
fn without_words(error: &io::Error) -> u8 {
    match error.kind() {
        io::ErrorKind::OutOfMemory => MEMORY,
        io::ErrorKind::InvalidData => USAGE,
        _ => REFUSED,
    }
}

fn main(rt: HostRuntime) -> ExitCode {
    let words = match words(&rt) {
        Ok(words) => words,
        Err(error) => return ExitCode::from(without_words(&error)),
    };
    let alloc = rt.alloc();
    let mut script = StdSource::new(rt.stdin());
    let mut replies = StdSink::new(rt.stdout());
    let mut vault = FileVault::new(rt);
    let status = run(alloc, &words, &mut vault, &mut script, &mut replies);
    ExitCode::from(status.number())
}
