//! A case: comments, a head, fields, and lines behind a mark.

use crate::fault::CaseFault;
use crate::spelling::{add_spelled, spelled_bytes};
use std::alloc::{AllocError, Global};
use std::str::Lines;

/// A case: comments that begin with `#`, a head, fields as `pieces: 1 7`, and rows behind the mark `>` or `|`.
#[derive(Clone, Copy, Debug)]
pub struct Case<'a> {
    text: &'a str,
    // The first line that is no comment, or `#`.
    head: &'a str,
}

// Whether a line is a field.
fn is_field(line: &str) -> bool {
    line.starts_with("pieces: ")
        || line.starts_with("vault fails: ")
        || line.starts_with("script fails: ")
        || line.starts_with("replies fail: ")
        || line.starts_with("before: ")
        || line.starts_with("behind: ")
        || line.starts_with("limit: ")
        || line.starts_with("places: ")
        || line.starts_with("retag: ")
        || line.starts_with("cuts: ")
        || line.starts_with("line ")
}

// Whether a line may stand in a case with this head.
fn is_part(head: &str, line: &str) -> bool {
    line == head || line.starts_with(['#', '>', '|']) || is_field(line)
}

// The first line that is no comment, if there is one.
fn head_of(text: &str) -> Option<&str> {
    text.lines().find(|line| !line.starts_with('#'))
}

// What is spelled behind a mark, without the blank there.
fn behind_mark<'a>(line: &'a str, mark: char) -> Option<&'a str> {
    let spelled = line.strip_prefix(mark)?;
    Some(spelled.strip_prefix(' ').unwrap_or(spelled))
}

impl<'a> Case<'a> {
    /// The case that a text is. A line of no known form makes it none, as an answer or a name that is spelled otherwise.
    pub fn of(text: &'a str) -> Result<Case<'a>, CaseFault> {
        let head = head_of(text).unwrap_or("#");
        if text.lines().any(|line| !is_part(head, line)) {
            return Err(CaseFault::Line);
        }
        Ok(Case { text, head })
    }

    /// Its lines.
    pub fn lines(&self) -> Lines<'a> {
        self.text.lines()
    }

    /// Adds its lines.
    pub fn add_to(&self, out: &mut String) -> Result<(), AllocError> {
        out.push_str(self.text)?;
        out.push('\n')
    }

    /// How many rows it has.
    pub(crate) fn row_count(&self) -> usize {
        self.lines().filter(|line| line.starts_with('>')).count()
    }

    /// The first word of its head, and `#` where comments are all that it has.
    pub fn kind(&self) -> &'a str {
        match self.head.split_once(' ') {
            Some((kind, _)) => kind,
            None => self.head,
        }
    }

    /// What stands in the head behind its first word, if anything.
    pub fn behind_kind(&self) -> Option<&'a str> {
        Some(self.head.split_once(' ')?.1)
    }

    /// What stands behind a field's name and its colon, if the case has the field.
    pub fn field(&self, name: &str) -> Option<&'a str> {
        for line in self.lines() {
            if let Some(value) = line.strip_prefix(name) {
                return value.strip_prefix(": ");
            }
        }
        None
    }

    /// The bytes that a field spells, and none where the case doesn't have it.
    pub fn bytes(&self, alloc: Global, name: &str) -> Result<Vec<u8>, CaseFault> {
        spelled_bytes(alloc, self.field(name).unwrap_or(""))
    }

    /// The numbers of a field.
    pub fn numbers(&self, alloc: Global, name: &str) -> Result<Vec<u32>, CaseFault> {
        let mut numbers = Vec::new(alloc);
        for number in self.field(name).unwrap_or("").split_whitespace() {
            numbers.push(number.parse().ok().ok_or(CaseFault::Number)?)?;
        }
        Ok(numbers)
    }

    /// The text whose lines stand behind a mark and a blank. A line whose spelling ends with `%` goes on with the next.
    pub fn marked(&self, alloc: Global, mark: char) -> Result<Vec<u8>, CaseFault> {
        let mut text = Vec::new(alloc);
        for line in self.lines() {
            if let Some(spelled) = behind_mark(line, mark) {
                add_spelled(&mut text, spelled)?;
                if !spelled.ends_with('%') {
                    text.push(b'\n')?;
                }
            }
        }
        Ok(text)
    }
}
