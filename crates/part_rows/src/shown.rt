//! Values as their types show them.

use case_text::CaseFault;
use std::fmt::Debug;

/// Adds a line with a value.
pub fn add_shown<T: Debug>(out: &mut String, value: &T) -> Result<(), CaseFault> {
    Ok(writeln!(out, "= {value:?}")?)
}
