//! Number words without an exponent, in one pass over their digits.

ghost use Rattle.std.specs.Prelude.{◌≡◌, ◌-◌, ◌^◌, ◌<◌, ◌≤◌, IfSome};
ghost use Rattle.fixed_num.specs.PlainWord.{Continues, IsBehindPoint, IsRoundedBehind, IsPlainSize};

use crate::scale::HALF;
use crate::word::{all_digits, digit_of};

// A count has at most so many digits.
const MAX_DIGITS: usize = 18;

// The number that a value and the digits at the front write together, and how many these are. It stops
// at the first byte that is no digit, and behind so many.
#[inline(always)]
fn continued(value: u64, bytes: &[u8], most: usize) -> (u64, usize)
    requires few { most ≤ 18 }
    requires small { value < 10 ^ (18 - most) }
    ensures { Continues value bytes.now most result.0 result.1 }
{
    let mut total = value;
    let mut count = 0;
    for byte in bytes {
        if count == most || !byte.is_ascii_digit() {
            return (total, count);
        }
        total = total * 10 + digit_of(*byte);
        count += 1;
    }
    (total, count)
}

// One, as a count of units of so many decimals: a table, and so faster than `pow`.
fn power_of_ten(decimals: u32) -> u64
    requires few { decimals ≤ 12 }
    ensures { result ≡ 10 ^ decimals }
{
    match decimals {
        0 => 1,
        1 => 10,
        2 => 100,
        3 => 1_000,
        4 => 10_000,
        5 => 100_000,
        6 => 1_000_000,
        7 => 10_000_000,
        8 => 100_000_000,
        9 => 1_000_000_000,
        10 => 10_000_000_000,
        11 => 100_000_000_000,
        _ => 1_000_000_000_000,
    }
}

// What stands behind a point, and nothing behind nothing; `None` for anything else.
fn behind_point(bytes: &[u8]) -> Option<&[u8]>
    ensures { IfSome result (λ rest. IsBehindPoint bytes.now rest.now) }
{
    match bytes {
        [] => Some(bytes),
        [b'.', rest @ ..] => Some(rest),
        _ => None,
    }
}

// The number with this whole part and these digits behind its point, rounded to so many decimals.
#[inline(always)]
fn rounded_behind(whole: u64, fraction: &[u8], decimals: u32) -> Option<u64>
    requires few { decimals ≤ 12 }
    requires small { whole < 10 ^ (18 - decimals) }
    ensures { IfSome result (IsRoundedBehind decimals whole fraction.now) }
{
    let (total, count) = continued(whole, fraction, decimals as usize);
    let behind = &fraction[count..];
    if behind.is_empty() {
        return Some(total * power_of_ten(decimals - count as u32));
    }
    if count as u32 != decimals || !all_digits(behind) {
        return None;
    }
    if behind[0] < HALF {
        Some(total)
    } else {
        Some(total + 1)
    }
}

/// The number that digits, perhaps with a point, write, rounded to so many decimals, halves away from
/// zero. `None` where the bytes are anything else, or their whole part is long.
#[inline(always)]
pub(crate) fn plain_size(bytes: &[u8], decimals: u32) -> Option<u64>
    requires few { decimals ≤ 12 }
    ensures { IfSome result (IsPlainSize decimals bytes.now) }
{
    let (whole, count) = continued(0, bytes, MAX_DIGITS - decimals as usize);
    let fraction = behind_point(&bytes[count..])?;
    if count == 0 && fraction.is_empty() {
        return None;
    }
    rounded_behind(whole, fraction, decimals)
}
