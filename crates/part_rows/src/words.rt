//! Tables of three words.

use crate::shown::add_shown;
use case_text::{CaseFault, spelled_bytes};
use key_table::{Keys, Word};
use std::alloc::Global;
use std::str::SplitWhitespace;

// The next word of a row.
fn next_word(alloc: Global, words: &mut SplitWhitespace<'_>) -> Result<Word, CaseFault> {
    let spelled = words.next().ok_or(CaseFault::Number)?;
    Word::of(&spelled_bytes(alloc, spelled)?).ok_or(CaseFault::Number)
}

/// Adds the place of a fourth word in the table of three, or that there is no such table.
pub fn add_three(alloc: Global, out: &mut String, spelled: &str) -> Result<(), CaseFault> {
    let mut words = spelled.split_whitespace();
    let three = [
        next_word(alloc, &mut words)?,
        next_word(alloc, &mut words)?,
        next_word(alloc, &mut words)?,
    ];
    let sought = next_word(alloc, &mut words)?;
    match Keys::of(three) {
        Some(keys) => add_shown(out, &keys.find(sought.bytes())),
        None => Ok(out.push_str("= no table\n")?),
    }
}
