//! Counts written as decimals.

ghost use Rattle.std.specs.Prelude.{◌≡◌, ◌+◌, ◌^◌, ◌<◌, ◌≤◌, ◌++◌, length, unsigned_abs};
ghost use Rattle.fixed_num.specs.DecimalValue.{RoundsTo};
ghost use Rattle.fixed_num.specs.Shortest.{IsShortest, minus_of, shortest_decimal, places, fraction_text};

use crate::micro::Micro;
use crate::nano::Nano;
use crate::num_buf::NumBuf;
use crate::pico::Pico;
use crate::units::{MICRO_DECIMALS, NANO_DECIMALS, PICO_DECIMALS};
use itoa::Buffer;

// The decimal places of the rest, up to the last one that is not 0.
fn push_places(buf: &mut NumBuf, rest: u64, decimals: u32)
    requires few { decimals ≤ 12 }
    requires below_one { rest < 10 ^ decimals }
    requires room { length buf.old + decimals ≤ 24 }
    ensures { buf.new ≡ buf.old ++ places decimals rest }
{
    let mut rest = rest;
    let mut left = decimals;
    'places: while rest > 0 {
        left -= 1;
        let unit = 10u64.pow(left);
        buf.push(b'0' + (rest / unit) as u8);
        rest %= unit;
    }
}

fn push_fraction(buf: &mut NumBuf, rest: u64, decimals: u32)
    requires few { decimals ≤ 12 }
    requires below_one { rest < 10 ^ decimals }
    requires room { length buf.old + decimals < 24 }
    ensures { buf.new ≡ buf.old ++ fraction_text decimals rest }
{
    if rest > 0 {
        buf.push(b'.');
        push_places(buf, rest, decimals);
    }
}

// Empties the buffer, and writes the minus of a negative count.
fn push_sign(buf: &mut NumBuf, count: i64)
    ensures { buf.new ≡ minus_of count }
{
    buf.clear();
    if count < 0 {
        buf.push(b'-');
    }
}

// The shortest decimal of a count of units of so many decimals.
fn write_count(count: i64, decimals: u32, buf: &mut NumBuf)
    requires few { decimals ≤ 12 }
    requires below_million { unsigned_abs count < 10 ^ (6 + decimals) }
    ensures { buf.new ≡ shortest_decimal decimals count }
{
    push_sign(buf, count);
    let size = count.unsigned_abs();
    let one = 10u64.pow(decimals);
    let mut digits = Buffer::new();
    buf.push_all(digits.format(size / one).as_bytes());
    push_fraction(buf, size % one, decimals);
}

/// The shortest decimal of a count of millionths: `0` for zero, no exponent and no trailing zero. It takes
/// the place of what the buffer held.
pub fn write_micro(value: Micro, buf: &mut NumBuf)
    ensures text { buf.new ≡ shortest_decimal 6 value }
    ensures shortest { IsShortest 6 buf.new value }
    ensures reads_back { RoundsTo 6 buf.new value }
{
    write_count(value.0, MICRO_DECIMALS, buf);
}

/// The shortest decimal of a count of billionths, as `write_micro` writes those of millionths.
pub fn write_nano(value: Nano, buf: &mut NumBuf)
    ensures text { buf.new ≡ shortest_decimal 9 value }
    ensures shortest { IsShortest 9 buf.new value }
    ensures reads_back { RoundsTo 9 buf.new value }
{
    write_count(value.0, NANO_DECIMALS, buf);
}

/// The shortest decimal of a count of trillionths, as `write_micro` writes those of millionths.
pub fn write_pico(value: Pico, buf: &mut NumBuf)
    ensures text { buf.new ≡ shortest_decimal 12 value }
    ensures shortest { IsShortest 12 buf.new value }
    ensures reads_back { RoundsTo 12 buf.new value }
{
    write_count(value.0, PICO_DECIMALS, buf);
}
