//! Number words as counts of their units.

ghost use Rattle.std.specs.Prelude.{◌≡◌, ◌^◌, IfSome};
ghost use Rattle.fixed_num.specs.Whole.{IsWide};
ghost use Rattle.cmd_text.specs.Spelling.{count_below, wide_of};

use fixed_num::{Micro, Nano, Pico, read_micro, read_nano, read_pico, read_wide};

/// A rotation or a surface value: six decimals.
pub(crate) fn micro_of(word: &[u8]) -> Option<Micro>
    ensures { result ≡ count_below 6 (10 ^ 12) word.now }
{
    match read_micro(word) {
        Ok(count) => Some(count),
        Err(_) => None,
    }
}

/// A scale: nine decimals.
pub(crate) fn nano_of(word: &[u8]) -> Option<Nano>
    ensures { result ≡ count_below 9 (10 ^ 15) word.now }
{
    match read_nano(word) {
        Ok(count) => Some(count),
        Err(_) => None,
    }
}

/// An offset: twelve decimals.
pub(crate) fn pico_of(word: &[u8]) -> Option<Pico>
    ensures { result ≡ count_below 12 (10 ^ 18) word.now }
{
    match read_pico(word) {
        Ok(count) => Some(count),
        Err(_) => None,
    }
}

/// Contents or flags: whole, once rounded to six decimals, from -2,147,483,648 to 4,294,967,295.
pub(crate) fn wide_of(word: &[u8]) -> Option<i64>
    ensures wide { result ≡ wide_of word.now }
    ensures within { IfSome result IsWide }
{
    match read_wide(word) {
        Ok(whole) => Some(whole),
        Err(_) => None,
    }
}
