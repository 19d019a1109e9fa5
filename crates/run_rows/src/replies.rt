//! Replies in a transcript.

use case_text::add_lines;
use std::alloc::AllocError;

// A line that comes more often in a row is told once, with how often it came.
const MOST_ALIKE: usize = 3;

// Adds a line that came so often in a row.
fn add_repeated(out: &mut String, line: &[u8], times: usize) -> Result<(), AllocError> {
    if times > MOST_ALIKE {
        add_lines(out, "< ", line)?;
        return writeln!(out, "= so {times} times");
    }
    for step in 0..times {
        add_lines(out, "< ", line)?;
    }
    Ok(())
}

/// Adds the lines of what was replied.
pub fn add_replies(out: &mut String, text: &[u8]) -> Result<(), AllocError> {
    let mut last: &[u8] = &[];
    let mut times = 0usize;
    for line in text.split_inclusive(|byte| *byte == b'\n') {
        if line == last {
            times = times.saturating_add(1);
            continue;
        }
        add_repeated(out, last, times)?;
        last = line;
        times = 1;
    }
    add_repeated(out, last, times)
}
