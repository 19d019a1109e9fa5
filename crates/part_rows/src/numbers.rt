//! Decimals, quotients and divisors.

use crate::row::Row;
use crate::shown::add_shown;
use case_text::{CaseFault, add_line};
use exact_geom::gcd;
use fixed_num::{
    Micro, Nano, NumBuf, Pico, exact_quotient, read_whole, write_micro, write_nano, write_pico,
};

/// Adds the whole number that a word is read as, at most so large.
pub fn add_whole(out: &mut String, word: &[u8], limit: i64) -> Result<(), CaseFault> {
    if limit < 0 || limit > 1_000_000 {
        return Err(CaseFault::Number);
    }
    add_shown(out, &read_whole(word, limit))
}

// Writes a count of units of so many decimals, where it is below a million and there are such units.
fn write(count: i64, places: u32, buf: &mut NumBuf) -> Result<(), CaseFault> {
    let size = count.unsigned_abs();
    if places == 6 && size < 1_000_000_000_000 {
        write_micro(Micro(count), buf);
    } else if places == 9 && size < 1_000_000_000_000_000 {
        write_nano(Nano(count), buf);
    } else if places == 12 && size < 1_000_000_000_000_000_000 {
        write_pico(Pico(count), buf);
    } else {
        return Err(CaseFault::Number);
    }
    Ok(())
}

/// Adds the decimal that a count of units of so many decimals is written as.
pub fn add_decimal(out: &mut String, spelled: &str, places: u32) -> Result<(), CaseFault> {
    let mut buf = NumBuf::new();
    write(Row::of(spelled).number()?, places, &mut buf)?;
    Ok(add_line(out, "= ", buf.text())?)
}

/// Adds the quotient of two numbers below a third.
pub fn add_quotient(out: &mut String, spelled: &str) -> Result<(), CaseFault> {
    let mut row = Row::of(spelled);
    let (n, d): (i128, i128) = (row.number()?, row.number()?);
    let limit: i128 = row.number()?;
    if d == 0 || limit <= 0 {
        return Err(CaseFault::Number);
    }
    add_shown(out, &exact_quotient(n, d, limit))
}

/// Adds the greatest common divisor of two numbers.
pub fn add_divisor(out: &mut String, spelled: &str) -> Result<(), CaseFault> {
    let mut row = Row::of(spelled);
    let (a, b) = (row.number()?, row.number()?);
    add_shown(out, &gcd(a, b))
}
