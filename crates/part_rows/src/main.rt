//! Worked rows of the libraries: what each answers on cases that stand in a text.
//!
//! Standard input is a text of cases, with a blank line between two. Standard output is the same text with an answer behind each
//! thing that is asked. The answers that are wanted were worked out apart from the program.
#![tactic(auto)]

mod brushes;
mod carried;
mod cutting;
mod documents;
mod hulls;
mod kinds;
mod maps;
mod motions;
mod moved;
mod numbers;
mod planes;
mod polyhedra;
mod properties;
mod row;
mod shown;
mod sides;
mod solids;
mod tokens;
mod vertices;
mod words;

use case_text::add_transcript;
use kinds::Parts;
use std::io;

fn main(rt: HostRuntime) -> io::Result<()> {
    let alloc = rt.alloc();
    let cases = io::read_to_string(alloc, rt.reader())?;
    let mut out = String::new(alloc);
    let answered = add_transcript(alloc, &cases, &Parts, &mut out);
    rt.print(out)?;
    if let Err(fault) = answered {
        eprintln!(rt; "{fault}")?;
        return Err(io::Error::from(io::ErrorKind::InvalidInput));
    }
    Ok(())
}
