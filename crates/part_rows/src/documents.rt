//! What map texts read as.

use crate::shown::add_shown;
use case_text::{Case, CaseFault, Texts, add_line, add_lines};
use map_text::{MapDoc, RawBrush, RawEntity, ReadFault, read_map};
use map_write::{all_good, write_map};
use std::alloc::{AllocError, Global};

/// The longest text that is read.
const LONGEST: usize = 1_000_000;

// Adds the reason of each brush of an entity, or that it is good.
fn add_entity(out: &mut String, entity: &RawEntity) -> Result<(), AllocError> {
    for brush in entity.brushes.list() {
        match brush {
            RawBrush::Faces(_) => out.push_str(" Good")?,
            RawBrush::Bad(reason) => write!(out, " {reason:?}")?,
        }
    }
    Ok(())
}

// Adds the reason of each brush, or that it is good.
fn add_brushes(out: &mut String, doc: &MapDoc) -> Result<(), AllocError> {
    out.push_str("= brushes")?;
    for entity in doc.entities.list() {
        add_entity(out, entity)?;
    }
    out.push('\n')
}

/// What stands around the part of a text that a row spells, by the fields of a case.
#[derive(Drop)]
pub struct Around {
    pub before: Vec<u8>,
    pub behind: Vec<u8>,
}

impl Around {
    /// What the fields `before` and `behind` spell.
    pub fn of(alloc: Global, case: &Case<'_>) -> Result<Around, CaseFault> {
        Ok(Around {
            before: case.bytes(alloc, "before")?,
            behind: case.bytes(alloc, "behind")?,
        })
    }

    // What stands between the two, where there is something before.
    fn part_of<'a>(&self, text: &'a [u8]) -> Option<&'a [u8]> {
        if self.before.is_empty() {
            return None;
        }
        let rest = text.strip_prefix(self.before.as_slice())?;
        rest.strip_suffix(self.behind.as_slice())
    }
}

// Adds what is written: what stands in the place of the part, or the name of an equal text, or all of the lines.
fn add_written(
    out: &mut String,
    around: &Around,
    texts: &Texts,
    written: &[u8],
) -> Result<(), AllocError> {
    if let Some(part) = around.part_of(written) {
        return add_line(out, "= ", part);
    }
    match texts.name_of(written) {
        Some(name) => writeln!(out, "= written as {name}"),
        None => add_lines(out, "=| ", written),
    }
}

// Adds what a document is written as, or its brushes where one is bad.
fn add_document(
    alloc: Global,
    out: &mut String,
    around: &Around,
    texts: &Texts,
    doc: &MapDoc,
) -> Result<(), AllocError> {
    if !all_good(doc) {
        return add_brushes(out, doc);
    }
    let written = write_map(alloc, doc)?;
    add_written(out, around, texts, &written)
}

/// What a text reads as. A text that is longer than a map may be is no case.
pub fn read(alloc: Global, text: &[u8]) -> Result<Result<MapDoc, ReadFault>, CaseFault> {
    if text.len() > LONGEST {
        return Err(CaseFault::Number);
    }
    Ok(read_map(alloc, text))
}

/// Adds what the document of a text is written as, or its brushes where one is bad, or why the text is refused.
pub fn add_read(
    alloc: Global,
    out: &mut String,
    around: &Around,
    texts: &Texts,
    text: &[u8],
) -> Result<(), CaseFault> {
    match read(alloc, text)? {
        Ok(doc) => Ok(add_document(alloc, out, around, texts, &doc)?),
        Err(fault) => add_shown(out, &fault),
    }
}

/// Adds the format of a text, or why it is refused.
pub fn add_format(alloc: Global, out: &mut String, text: &[u8]) -> Result<(), CaseFault> {
    match read(alloc, text)? {
        Ok(doc) => add_shown(out, &doc.format),
        Err(fault) => add_shown(out, &fault),
    }
}

/// Why a text is refused, if it is.
pub fn refusal(alloc: Global, text: &[u8]) -> Result<Option<ReadFault>, CaseFault> {
    Ok(read(alloc, text)?.err())
}
