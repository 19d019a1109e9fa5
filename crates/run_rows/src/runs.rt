//! Runs of a script over a map.

use crate::devices::{Devices, Way, words};
use crate::replies::add_replies;
use case_text::{Answers, Case, CaseFault, Texts, add_lines};
use edit_session::{Status, run};
use outside_io::MemVault;
use std::alloc::{AllocError, Global};

/// How many bytes a call of the script gives at most, where a case doesn't say it.
const PIECE: u32 = 4096;

// Adds what a vault was given to keep: the name of the text that has the same bytes, or else its lines.
fn add_kept(out: &mut String, vault: &MemVault, texts: &Texts) -> Result<(), AllocError> {
    for (name, bytes) in vault.kept() {
        match texts.name_of(bytes) {
            Some(same) => writeln!(out, "= {name} is {same}")?,
            None => {
                writeln!(out, "= {name}")?;
                add_lines(out, "=| ", bytes)?;
            }
        }
    }
    Ok(())
}

// Adds what a run left behind: its replies, its status, and what it kept.
fn add_left(
    out: &mut String,
    status: Status,
    devices: &Devices,
    texts: &Texts,
) -> Result<(), AllocError> {
    add_replies(out, devices.replies.given())?;
    writeln!(out, "= status {}", status.number())?;
    add_kept(out, &devices.vault, texts)
}

// What a run over the devices leaves behind.
fn outcome(
    alloc: Global,
    words: &[String],
    devices: Devices,
    texts: &Texts,
) -> Result<String, AllocError> {
    let mut devices = devices;
    let status = run(
        alloc,
        words,
        &mut devices.vault,
        &mut devices.script,
        &mut devices.replies,
    );
    let mut out = String::new(alloc);
    add_left(&mut out, status, &devices, texts)?;
    Ok(out)
}

// What comes of a run over devices that are set in a way.
fn outcome_in(
    alloc: Global,
    case: &Case<'_>,
    texts: &Texts,
    way: Way,
) -> Result<String, CaseFault> {
    let words = words(alloc, case)?;
    let devices = Devices::of(alloc, case, &words, texts, way)?;
    Ok(outcome(alloc, &words, devices, texts)?)
}

// Adds an outcome behind another, or that it is the same.
fn add_outcome(
    out: &mut String,
    before: &str,
    outcome: &str,
    piece: u32,
) -> Result<(), AllocError> {
    if outcome == before {
        return writeln!(out, "= the same in pieces of {piece}");
    }
    if !before.is_empty() {
        writeln!(out, "= in pieces of {piece}")?;
    }
    out.push_str(outcome)
}

// The sizes of the pieces in which a script is given.
fn pieces(alloc: Global, case: &Case<'_>) -> Result<Vec<u32>, CaseFault> {
    let mut pieces = case.numbers(alloc, "pieces")?;
    if pieces.is_empty() {
        pieces.push(PIECE)?;
    }
    Ok(pieces)
}

// Adds what comes of a run, for each size of pieces that the case names. Where the size makes no difference it is told so.
fn add_run(
    alloc: Global,
    case: &Case<'_>,
    texts: &Texts,
    out: &mut String,
) -> Result<(), CaseFault> {
    let mut before = String::new(alloc);
    for piece in &pieces(alloc, case)? {
        let way = Way {
            piece: *piece,
            cut: None,
        };
        let outcome = outcome_in(alloc, case, texts, way)?;
        add_outcome(out, before.as_str(), outcome.as_str(), *piece)?;
        before = outcome;
    }
    Ok(())
}

// Adds what comes of a run over the first bytes of its texts, for each number of bytes from `first` to `last`, where it is another
// than that of a byte less.
fn add_cuts(
    alloc: Global,
    case: &Case<'_>,
    texts: &Texts,
    first: u32,
    last: u32,
    out: &mut String,
) -> Result<(), CaseFault> {
    let mut before = String::new(alloc);
    for length in first..=last {
        let way = Way {
            piece: PIECE,
            cut: Some(length),
        };
        let outcome = outcome_in(alloc, case, texts, way)?;
        if outcome != before {
            writeln!(out, "= cut after {length}")?;
            out.push_str(outcome.as_str())?;
        }
        before = outcome;
    }
    Ok(())
}

/// What the program answers.
pub struct Runs;

impl Answers for Runs {
    fn answer(
        &self,
        alloc: Global,
        case: &Case<'_>,
        texts: &Texts,
        out: &mut String,
    ) -> Result<(), CaseFault> {
        if case.kind() != "run" {
            return Err(CaseFault::NoKind);
        }
        case.add_to(out)?;
        match case.numbers(alloc, "cuts")?.as_slice() {
            [] => add_run(alloc, case, texts, out),
            [first, last] => add_cuts(alloc, case, texts, *first, *last, out),
            _ => Err(CaseFault::Number),
        }
    }
}
