//! Worked rows of whole runs: what the program answers over devices in memory, on cases that stand in a text.
//!
//! Standard input is a text of cases, with a blank line between two. Standard output is the same text with the replies behind `<`,
//! and the status and what was kept behind `=`. The answers that are wanted were worked out apart from the program.
#![tactic(auto)]

mod devices;
mod replies;
mod runs;

use case_text::add_transcript;
use runs::Runs;
use std::io;

fn main(rt: HostRuntime) -> io::Result<()> {
    let alloc = rt.alloc();
    let cases = io::read_to_string(alloc, rt.reader())?;
    let mut out = String::new(alloc);
    let answered = add_transcript(alloc, &cases, &Runs, &mut out);
    rt.print(out)?;
    if let Err(fault) = answered {
        eprintln!(rt; "{fault}")?;
        return Err(io::Error::from(io::ErrorKind::InvalidInput));
    }
    Ok(())
}
