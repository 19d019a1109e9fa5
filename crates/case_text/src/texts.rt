//! Texts that cases name, and texts with other lines in them.

use crate::case::Case;
use crate::fault::CaseFault;
use crate::spelling::spelled_bytes;
use std::alloc::{AllocError, Global};

#[derive(Drop)]
struct Text {
    name: String,
    bytes: Vec<u8>,
}

/// The texts of the cases before, each under its name.
#[derive(Drop)]
pub struct Texts {
    texts: Vec<Text>,
}

impl Texts {
    /// No text at all.
    pub(crate) fn new(alloc: Global) -> Texts {
        Texts {
            texts: Vec::new(alloc),
        }
    }

    /// Adds the text whose lines stand behind `|`, under the name in the head.
    pub(crate) fn add(&mut self, alloc: Global, case: &Case<'_>) -> Result<(), CaseFault> {
        let name = String::from_str(alloc, case.behind_kind().unwrap_or(""))?;
        let bytes = case.marked(alloc, '|')?;
        self.texts.push(Text { name, bytes })?;
        Ok(())
    }

    /// The first text under this name.
    pub fn named(&self, name: &str) -> Option<&[u8]> {
        for text in &self.texts {
            if text.name.as_str() == name {
                return Some(text.bytes.as_slice());
            }
        }
        None
    }

    /// The name of the first text that has these bytes.
    pub fn name_of(&self, bytes: &[u8]) -> Option<&str> {
        for text in &self.texts {
            if text.bytes.as_slice() == bytes {
                return Some(text.name.as_str());
            }
        }
        None
    }
}

// Adds the lines of a text, with another one at a place, counted from 1.
fn add_with_line(
    out: &mut Vec<u8>,
    text: &[u8],
    number: usize,
    other: &[u8],
) -> Result<(), AllocError> {
    for (place, line) in text.split_inclusive(|byte| *byte == b'\n').enumerate() {
        if place == number {
            out.extend_from_slice(other)?;
            out.push(b'\n')?;
        } else {
            out.extend_from_slice(line)?;
        }
    }
    Ok(())
}

/// The lines of a text with another one in the place of one of them, as `12: {` has its number and what stands there.
pub fn with_line(alloc: Global, text: &[u8], change: &str) -> Result<Vec<u8>, CaseFault> {
    let (number, spelled) = change.split_once(':').ok_or(CaseFault::Line)?;
    let number: usize = number.parse().ok().ok_or(CaseFault::Number)?;
    let place = number.checked_sub(1).ok_or(CaseFault::Number)?;
    let other = spelled_bytes(alloc, spelled.strip_prefix(' ').unwrap_or(spelled))?;
    let mut out = Vec::new(alloc);
    add_with_line(&mut out, text, place, &other)?;
    Ok(out)
}
