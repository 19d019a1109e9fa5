//! Number words read into counts.

ghost use Rattle.std.specs.Prelude.{◌≡◌, ◌^◌, ◌<◌, ◌≤◌, ◌↔◌, ℤ, unsigned_abs, IfOk};
ghost use Rattle.fixed_num.specs.NumberWord.{IsNumberWord};
ghost use Rattle.fixed_num.specs.DecimalValue.{RoundsTo};

use crate::kept_count::read_kept_count;
use crate::micro::Micro;
use crate::nano::Nano;
use crate::pico::Pico;
use crate::sign::with_sign;
use crate::units::{
    MICRO_DECIMALS, MICRO_LIMIT, NANO_DECIMALS, NANO_LIMIT, PICO_DECIMALS, PICO_LIMIT,
};

/// Why a word gives no count.
#[derive(Clone, Copy, Debug, PartialEq, Eq)]
pub enum MicroFault {
    /// The word is no number word.
    NotNumber,
    /// The rounded count reaches the limit of its type in size.
    TooLarge,
}

// The value of a word in units of so many decimals, below the limit in size.
#[inline(always)]
fn read_count(word: &[u8], decimals: u32, limit: u64) -> Result<i64, MicroFault>
    requires few { decimals ≤ 12 }
    requires within { limit ≤ 10 ^ 18 }
    ensures ok { IfOk result (λ count. RoundsTo decimals word.now count × (unsigned_abs count < limit)) }
    ensures not_number { (result ≡ Err MicroFault.NotNumber) ↔ ¬ IsNumberWord word.now }
    ensures too_large { (result ≡ Err MicroFault.TooLarge)
        ↔ ((count : ℤ) × RoundsTo decimals word.now count × (limit ≤ unsigned_abs count)) }
{
    let count = read_kept_count(word, decimals).ok_or(MicroFault::NotNumber)?;
    if count.size >= limit {
        return Err(MicroFault::TooLarge);
    }
    Ok(with_sign(count.negative, count.size))
}

/// The value of a number word as a count of millionths, rounded half away from zero.
#[inline(always)]
pub fn read_micro(word: &[u8]) -> Result<Micro, MicroFault>
    ensures ok { IfOk result (RoundsTo 6 word.now) }
    ensures not_number { (result ≡ Err MicroFault.NotNumber) ↔ ¬ IsNumberWord word.now }
    ensures too_large { (result ≡ Err MicroFault.TooLarge)
        ↔ ((count : ℤ) × RoundsTo 6 word.now count × (10 ^ 12 ≤ unsigned_abs count)) }
{
    Ok(Micro(read_count(word, MICRO_DECIMALS, MICRO_LIMIT)?))
}

/// The value of a number word as a count of billionths, rounded half away from zero.
#[inline(always)]
pub fn read_nano(word: &[u8]) -> Result<Nano, MicroFault>
    ensures ok { IfOk result (RoundsTo 9 word.now) }
    ensures not_number { (result ≡ Err MicroFault.NotNumber) ↔ ¬ IsNumberWord word.now }
    ensures too_large { (result ≡ Err MicroFault.TooLarge)
        ↔ ((count : ℤ) × RoundsTo 9 word.now count × (10 ^ 15 ≤ unsigned_abs count)) }
{
    Ok(Nano(read_count(word, NANO_DECIMALS, NANO_LIMIT)?))
}

/// The value of a number word as a count of trillionths, rounded half away from zero.
#[inline(always)]
pub fn read_pico(word: &[u8]) -> Result<Pico, MicroFault>
    ensures ok { IfOk result (RoundsTo 12 word.now) }
    ensures not_number { (result ≡ Err MicroFault.NotNumber) ↔ ¬ IsNumberWord word.now }
    ensures too_large { (result ≡ Err MicroFault.TooLarge)
        ↔ ((count : ℤ) × RoundsTo 12 word.now count × (10 ^ 18 ≤ unsigned_abs count)) }
{
    Ok(Pico(read_count(word, PICO_DECIMALS, PICO_LIMIT)?))
}
