//! Number words read into whole numbers.

ghost use Rattle.std.specs.Prelude.{◌≡◌, ◌≢◌, ◌^◌, ◌<◌, ◌≤◌, ◌↔◌, ℤ, pos, negsuc, ◌*ℤ◌, ◌≤ℤ◌, unsigned_abs, IfOk, MatchBool};
ghost use Rattle.fixed_num.specs.NumberWord.{IsNumberWord};
ghost use Rattle.fixed_num.specs.DecimalValue.{RoundsTo};
ghost use Rattle.fixed_num.specs.Whole.{IsWithin, IsWide};

use crate::kept_count::read_kept_count;
use crate::sign::with_sign;
use crate::units::MICRO_DECIMALS;

// One, as a count of millionths.
const ONE: u64 = 1_000_000;
// The range of a number that a field of 32 bits keeps, signed or not.
const WIDE_LEAST: i64 = -2_147_483_648;

const WIDE_MOST: i64 = 4_294_967_295;

/// Why a word gives no whole number.
#[derive(Clone, Copy, Debug, PartialEq, Eq)]
pub enum WholeFault {
    /// The word is no number word.
    NotNumber,
    /// The value, rounded to six decimals, is not whole.
    NotWhole,
    /// The whole value is out of range.
    TooLarge,
}

fn is_within(least: i64, most: i64, whole: i64) -> bool
    ensures { MatchBool result (IsWithin least most whole) (¬ IsWithin least most whole) }
{
    least <= whole && whole <= most
}

// The value of a number word that is whole once it is rounded to six decimals, in a range about zero.
#[inline(always)]
fn read_within(word: &[u8], least: i64, most: i64) -> Result<i64, WholeFault>
    requires low { IsWithin (negsuc 4294967295) (pos 0) least }
    requires high { IsWithin (pos 0) (pos 4294967296) most }
    ensures ok { IfOk result (λ whole. RoundsTo 6 word.now (whole *ℤ pos (10 ^ 6)) × IsWithin least most whole) }
    ensures not_number { (result ≡ Err WholeFault.NotNumber) ↔ ¬ IsNumberWord word.now }
    ensures not_whole { (result ≡ Err WholeFault.NotWhole)
        ↔ ((count : ℤ) × RoundsTo 6 word.now count × ((whole : ℤ) → count ≢ whole *ℤ pos (10 ^ 6))) }
    ensures too_large { (result ≡ Err WholeFault.TooLarge)
        ↔ ((whole : ℤ) × RoundsTo 6 word.now (whole *ℤ pos (10 ^ 6)) × ¬ IsWithin least most whole) }
{
    let count = read_kept_count(word, MICRO_DECIMALS).ok_or(WholeFault::NotNumber)?;
    if count.size % ONE != 0 {
        return Err(WholeFault::NotWhole);
    }
    let whole = with_sign(count.negative, count.size / ONE);
    if is_within(least, most, whole) {
        Ok(whole)
    } else {
        Err(WholeFault::TooLarge)
    }
}

/// The value of a number word that is whole once it is rounded to six decimals, up to a limit in size.
/// The faults are tried in their order.
#[inline(always)]
pub fn read_whole(word: &[u8], limit: i64) -> Result<i64, WholeFault>
    requires low { pos 0 ≤ℤ limit }
    requires high { limit ≤ℤ pos 1000000 }
    ensures ok { IfOk result (λ whole. RoundsTo 6 word.now (whole *ℤ pos (10 ^ 6))
        × (unsigned_abs whole ≤ unsigned_abs limit)) }
    ensures not_number { (result ≡ Err WholeFault.NotNumber) ↔ ¬ IsNumberWord word.now }
    ensures not_whole { (result ≡ Err WholeFault.NotWhole)
        ↔ ((count : ℤ) × RoundsTo 6 word.now count × ((whole : ℤ) → count ≢ whole *ℤ pos (10 ^ 6))) }
    ensures too_large { (result ≡ Err WholeFault.TooLarge)
        ↔ ((whole : ℤ) × RoundsTo 6 word.now (whole *ℤ pos (10 ^ 6))
        × (unsigned_abs limit < unsigned_abs whole)) }
{
    read_within(word, -limit, limit)
}

/// The value of a number word that is whole once it is rounded to six decimals, from -2,147,483,648 to
/// 4,294,967,295: what a field of 32 bits keeps, signed or not. The faults are tried in their order.
#[inline(always)]
pub fn read_wide(word: &[u8]) -> Result<i64, WholeFault>
    ensures ok { IfOk result (λ whole. RoundsTo 6 word.now (whole *ℤ pos (10 ^ 6)) × IsWide whole) }
    ensures not_number { (result ≡ Err WholeFault.NotNumber) ↔ ¬ IsNumberWord word.now }
    ensures not_whole { (result ≡ Err WholeFault.NotWhole)
        ↔ ((count : ℤ) × RoundsTo 6 word.now count × ((whole : ℤ) → count ≢ whole *ℤ pos (10 ^ 6))) }
    ensures too_large { (result ≡ Err WholeFault.TooLarge)
        ↔ ((whole : ℤ) × RoundsTo 6 word.now (whole *ℤ pos (10 ^ 6)) × ¬ IsWide whole) }
{
    read_within(word, WIDE_LEAST, WIDE_MOST)
}
