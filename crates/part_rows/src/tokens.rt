//! Texts, and the tokens that they are cut into.

use crate::shown::add_shown;
use case_text::{CaseFault, add_bytes};
use map_lex::{Token, Tokens};
use std::alloc::AllocError;

/// The longest text of a row.
const LONGEST: usize = 1000;

// Adds a token: its line, and its text, in quotes where it is quoted.
fn add_token(out: &mut String, token: &Token<'_>) -> Result<(), AllocError> {
    let quote = if token.quoted { "\"" } else { "" };
    write!(out, "= {} {quote}", token.line)?;
    add_bytes(out, token.text)?;
    out.push_str(quote)?;
    out.push('\n')
}

/// Adds the tokens of a text and what stands behind the last one.
pub fn add_tokens(out: &mut String, text: &[u8]) -> Result<(), CaseFault> {
    if text.len() > LONGEST {
        return Err(CaseFault::Number);
    }
    let mut tokens = Tokens::new(text);
    for _ in 0..=LONGEST {
        match tokens.next() {
            Ok(Some(token)) => add_token(out, &token)?,
            Ok(None) => return Ok(out.push_str("= end\n")?),
            Err(fault) => return add_shown(out, &fault),
        }
    }
    Ok(())
}
