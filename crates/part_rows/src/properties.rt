//! Properties that rows change.

use crate::shown::add_shown;
use case_text::{Case, CaseFault, add_bytes, add_line, spelled_bytes};
use map_nodes::Props;
use std::alloc::{AllocError, Global};

fn add_pair(out: &mut String, key: &[u8], value: &[u8]) -> Result<(), AllocError> {
    out.push(' ')?;
    add_bytes(out, key)?;
    out.push('=')?;
    add_bytes(out, value)
}

// Adds the pairs in order.
fn add_pairs(out: &mut String, props: &Props) -> Result<(), AllocError> {
    out.push('=')?;
    for place in 0..props.len() {
        if let Some((key, value)) = props.pair(place) {
            add_pair(out, key, value)?;
        }
    }
    out.push('\n')
}

fn add_value(out: &mut String, value: Option<&[u8]>) -> Result<(), AllocError> {
    match value {
        Some(value) => add_line(out, "= value ", value),
        None => out.push_str("= None\n"),
    }
}

// Does what a row says: `set KEY VALUE`, `unset KEY` or `value KEY`.
fn add_change(
    alloc: Global,
    out: &mut String,
    props: &mut Props,
    spelled: &str,
) -> Result<(), CaseFault> {
    let (what, words) = spelled.split_once(' ').ok_or(CaseFault::Line)?;
    let (key, value) = words.split_once(' ').unwrap_or((words, ""));
    let key = spelled_bytes(alloc, key)?;
    let value = spelled_bytes(alloc, value)?;
    match what {
        "set" => props.set(alloc, &key, &value)?,
        "unset" => add_shown(out, &props.unset(&key))?,
        "value" => add_value(out, props.value(&key))?,
        _ => return Err(CaseFault::Line),
    }
    Ok(())
}

// Adds whether a copy is the same, and whether it is with a further pair.
fn add_copy(alloc: Global, out: &mut String, props: &Props) -> Result<(), AllocError> {
    let mut copy = props.copy()?;
    write!(out, "= copy {}", copy.is_same(props))?;
    copy.set(alloc, b"", b"further")?;
    writeln!(out, ", with a further pair {}", copy.is_same(props))
}

/// Adds a case, and behind each row the properties after it, from none on.
pub fn answer(alloc: Global, case: &Case<'_>, out: &mut String) -> Result<(), CaseFault> {
    let mut props = Props::new(alloc);
    for line in case.lines() {
        writeln!(out, "{line}")?;
        if let Some(spelled) = line.strip_prefix("> ") {
            add_change(alloc, out, &mut props, spelled)?;
            add_pairs(out, &props)?;
        }
    }
    add_copy(alloc, out, &props)?;
    add_pairs(out, &props)?;
    Ok(())
}
