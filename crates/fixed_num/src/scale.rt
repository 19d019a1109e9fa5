//! The count of a number, rounded to so many decimals.

ghost use Rattle.std.specs.Prelude.{◌≡◌, ℕ, ◌+◌, ◌*◌, ◌^◌, ◌<◌, ◌≤◌, ◌++◌, length, take, slice_index};
ghost use Rattle.std.specs.Str.Parse.{AllDigits, digits_value_after};
ghost use Rattle.fixed_num.specs.Scan.{squeezed, power_of, parts_of, places_kept, rounded_at, IsReadable, KeepsNearest};

use crate::word::{Number, digit_of};

// Counts below this are kept as they are.
const EXACT_BELOW: u64 = 1_000_000_000_000_000_000;
// Of greater ones the last six digits are kept.
const KEPT_REST: u64 = 1_000_000;
// So many zeros make any count but 0 a great one.
const MAX_ZEROS: usize = 18;
/// Digits from this on are rounded up: half of ten.
pub(crate) const HALF: u8 = b'5';

fn squeezed(count: u64) -> u64
    ensures value { result ≡ squeezed count }
    ensures bound { result < 10 ^ 18 + 10 ^ 6 }
{
    if count < EXACT_BELOW {
        count
    } else {
        EXACT_BELOW + count % KEPT_REST
    }
}

// What is kept of a count, with one more digit behind it.
fn with_digit(kept: u64, digit: u64) -> u64
    requires small { kept < 10 ^ 18 + 10 ^ 6 }
    requires is_digit { digit < 10 }
    ensures value { result ≡ squeezed (kept * 10 + digit) }
    ensures bound { result < 10 ^ 18 + 10 ^ 6 }
{
    squeezed(kept * 10 + digit)
}

fn with_digits(kept: u64, digits: &[u8]) -> u64
    requires small { kept < 10 ^ 18 + 10 ^ 6 }
    requires all_digits { AllDigits 10 digits.now }
    ensures bound { result < 10 ^ 18 + 10 ^ 6 }
    ensures value { (count : ℕ) → kept ≡ squeezed count
        → result ≡ squeezed (digits_value_after 10 count digits.now) }
{
    let mut kept = kept;
    for digit in digits {
        kept = with_digit(kept, digit_of(*digit));
    }
    kept
}

fn with_zeros(kept: u64, zeros: usize) -> u64
    requires small { kept < 10 ^ 18 + 10 ^ 6 }
    ensures bound { result < 10 ^ 18 + 10 ^ 6 }
    ensures value { (count : ℕ) → kept ≡ squeezed count → result ≡ squeezed (count * 10 ^ zeros) }
{
    let mut kept = kept;
    for _ in 0..zeros.min(MAX_ZEROS) {
        kept = with_digit(kept, 0);
    }
    kept
}

fn front(bytes: &[u8], count: usize) -> &[u8]
    ensures { result.now ≡ take count bytes.now }
{
    &bytes[..count.min(bytes.len())]
}

// The byte at a place of the one text behind the other, and 0 past their end.
fn byte_at(first: &[u8], second: &[u8], place: usize) -> u8
    ensures { result ≡ slice_index (first.now ++ second.now) place }
{
    if place < first.len() {
        first[place]
    } else if place - first.len() < second.len() {
        second[place - first.len()]
    } else {
        0
    }
}

// The count that the first digits write, with zeros behind them where there are fewer, and rounded by
// the digit behind them alone.
fn rounded_at(whole: &[u8], fraction: &[u8], places: usize) -> u64
    requires whole_digits { AllDigits 10 whole.now }
    requires fraction_digits { AllDigits 10 fraction.now }
    requires short { length whole.now + length fraction.now ≤ 64 }
    ensures { result ≡ squeezed (rounded_at (whole.now ++ fraction.now) places) }
{
    let kept = with_digits(0, front(whole, places));
    let kept = with_digits(kept, front(fraction, places.saturating_sub(whole.len())));
    let kept = with_zeros(kept, places.saturating_sub(whole.len() + fraction.len()));
    if byte_at(whole, fraction, places) >= HALF {
        squeezed(kept + 1)
    } else {
        kept
    }
}

// How many digits stand before the last place of the unit; `None` where the first is behind the next.
fn places(number: &Number<'_>, decimals: u32) -> Option<usize>
    requires few { decimals ≤ 12 }
    requires readable { IsReadable number.now.whole.now number.now.fraction.now number.now.exponent.size }
    ensures { result ≡ places_kept (length number.now.whole.now + decimals)
        (power_of number.now.exponent.lowers number.now.exponent.size) }
{
    let ahead = number.whole.len() + decimals as usize;
    if number.exponent.lowers {
        ahead.checked_sub(number.exponent.size)
    } else {
        Some(ahead + number.exponent.size)
    }
}

/// The size of a number as a count of units of so many decimals, rounded to the nearest, and halves
/// away from zero: itself below `EXACT_BELOW`, and else with its last six digits.
pub(crate) fn rounded(number: &Number<'_>, decimals: u32) -> u64
    requires few { decimals ≤ 12 }
    requires readable { IsReadable number.now.whole.now number.now.fraction.now number.now.exponent.size }
    ensures { KeepsNearest decimals
        (parts_of number.now.negative number.now.whole.now number.now.fraction.now
        (power_of number.now.exponent.lowers number.now.exponent.size))
        result }
{
    match places(number, decimals) {
        Some(places) => rounded_at(number.whole, number.fraction, places),
        None => 0,
    }
}
