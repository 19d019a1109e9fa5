//! How bytes are spelled: `%` and two hexadecimal digits for any byte, `%{N}` for N times the byte behind it or the bytes in
//! brackets behind it, where `;` is a line feed, and `%` at the end for nothing.

use crate::fault::CaseFault;
use std::alloc::{AllocError, Global};

// Adds the bytes of a unit once; a `;` is a line feed where the unit stands in brackets.
fn add_unit(bytes: &mut Vec<u8>, unit: Unit<'_>) -> Result<(), AllocError> {
    for byte in unit.spelled.as_bytes() {
        if unit.is_bracketed && *byte == b';' {
            bytes.push(b'\n')?;
        } else {
            bytes.push(*byte)?;
        }
    }
    Ok(())
}

// Adds a unit so many times.
fn add_times(bytes: &mut Vec<u8>, unit: Unit<'_>, times: u32) -> Result<(), AllocError> {
    for _ in 0..times {
        add_unit(bytes, unit)?;
    }
    Ok(())
}

// What comes again.
#[derive(Clone, Copy, Debug)]
struct Unit<'a> {
    spelled: &'a str,
    is_bracketed: bool,
}

// The byte that comes again or the bytes in brackets, and what stands behind.
fn split_unit(spelled: &str) -> Option<(Unit<'_>, &str)> {
    let (spelled, rest, is_bracketed) = match spelled.strip_prefix('(') {
        Some(unit) => {
            let (unit, rest) = unit.split_once(')')?;
            (unit, rest, true)
        }
        None => {
            let (unit, rest) = spelled.split_at_checked(1)?;
            (unit, rest, false)
        }
    };
    Some((
        Unit {
            spelled,
            is_bracketed,
        },
        rest,
    ))
}

// Adds what stands behind a `%{`.
fn add_repeated(bytes: &mut Vec<u8>, spelled: &str) -> Result<(), CaseFault> {
    let (times, rest) = spelled.split_once('}').ok_or(CaseFault::Spelling)?;
    let times: u32 = times.parse().ok().ok_or(CaseFault::Spelling)?;
    let (unit, rest) = split_unit(rest).ok_or(CaseFault::Spelling)?;
    add_times(bytes, unit, times)?;
    bytes.extend_from_slice(rest.as_bytes())?;
    Ok(())
}

// Adds what stands behind a `%`.
fn add_escaped(bytes: &mut Vec<u8>, spelled: &str) -> Result<(), CaseFault> {
    if spelled.is_empty() {
        return Ok(());
    }
    if let Some(repeated) = spelled.strip_prefix('{') {
        return add_repeated(bytes, repeated);
    }
    let (digits, rest) = spelled.split_at_checked(2).ok_or(CaseFault::Spelling)?;
    let byte = u8::from_str_radix(digits, 16)
        .ok()
        .ok_or(CaseFault::Spelling)?;
    bytes.push(byte)?;
    bytes.extend_from_slice(rest.as_bytes())?;
    Ok(())
}

// Adds the bytes that are spelled so.
pub(crate) fn add_spelled(bytes: &mut Vec<u8>, spelled: &str) -> Result<(), CaseFault> {
    let mut parts = spelled.split('%');
    bytes.extend_from_slice(parts.next().unwrap_or("").as_bytes())?;
    for part in parts {
        add_escaped(bytes, part)?;
    }
    Ok(())
}

/// The bytes that are spelled so.
pub fn spelled_bytes(alloc: Global, spelled: &str) -> Result<Vec<u8>, CaseFault> {
    let mut bytes = Vec::new(alloc);
    add_spelled(&mut bytes, spelled)?;
    Ok(bytes)
}

/// The text that is spelled so.
pub fn spelled_text(alloc: Global, spelled: &str) -> Result<String, CaseFault> {
    let bytes = spelled_bytes(alloc, spelled)?;
    String::from_utf8(bytes).ok().ok_or(CaseFault::Spelling)
}

fn add_byte(out: &mut String, byte: u8) -> Result<(), AllocError> {
    match byte {
        b'%' | ..b' ' | 127.. => write!(out, "%{byte:02X}"),
        _ => out.push(char::from(byte)),
    }
}

/// Adds bytes as they are spelled.
pub fn add_bytes(out: &mut String, bytes: &[u8]) -> Result<(), AllocError> {
    for byte in bytes {
        add_byte(out, *byte)?;
    }
    Ok(())
}

/// Adds a line: a mark, and bytes as they are spelled.
pub fn add_line(out: &mut String, mark: &str, bytes: &[u8]) -> Result<(), AllocError> {
    out.push_str(mark)?;
    add_bytes(out, bytes)?;
    out.push('\n')
}

/// Adds the lines of a text, each behind a mark. A last line without a line feed gets a `%`.
pub fn add_lines(out: &mut String, mark: &str, text: &[u8]) -> Result<(), AllocError> {
    for line in text.split_inclusive(|byte| *byte == b'\n') {
        out.push_str(mark)?;
        match line.strip_suffix(b"\n") {
            Some(whole) => add_bytes(out, whole)?,
            None => {
                add_bytes(out, line)?;
                out.push('%')?;
            }
        }
        out.push('\n')?;
    }
    Ok(())
}
