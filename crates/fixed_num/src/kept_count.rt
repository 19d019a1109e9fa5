//! The count of a number word, whatever its size is.

ghost use Rattle.std.specs.Prelude.{◌≤◌, IfSome, MatchOption};
ghost use Rattle.fixed_num.specs.NumberWord.{IsNumberWord};
ghost use Rattle.fixed_num.specs.Scan.{KeepsCount};

use crate::plain_word::plain_size;
use crate::scale::rounded;
use crate::word::{MAX_LEN, read_number, split_sign};

/// A count by its sign and its size. A size from 10^18 on is kept by its last six digits.
#[derive(Clone, Copy)]
pub(crate) struct KeptCount {
    pub(crate) negative: bool,
    pub(crate) size: u64,
}

// The count of a number word without an exponent and with a short whole part, as most are.
#[inline(always)]
fn read_plain_count(word: &[u8], decimals: u32) -> Option<KeptCount>
    requires few { decimals ≤ 12 }
    ensures { IfSome result (λ kept. KeepsCount decimals word.now kept.negative kept.size) }
{
    if word.len() > MAX_LEN {
        return None;
    }
    let (negative, bytes) = split_sign(word);
    let size = plain_size(bytes, decimals)?;
    Some(KeptCount { negative, size })
}

// The count of any number word. Apart, so that the short way to most counts can stand where they are read.
#[inline(never)]
fn read_any_count(word: &[u8], decimals: u32) -> Option<KeptCount>
    requires few { decimals ≤ 12 }
    ensures { MatchOption result (¬ IsNumberWord word.now)
        (λ kept. KeepsCount decimals word.now kept.negative kept.size) }
{
    let number = read_number(word)?;
    Some(KeptCount {
        negative: number.negative,
        size: rounded(&number, decimals),
    })
}

/// The value of a number word in units of so many decimals, rounded half away from zero; `None` for any
/// other word.
#[inline(always)]
pub(crate) fn read_kept_count(word: &[u8], decimals: u32) -> Option<KeptCount>
    requires few { decimals ≤ 12 }
    ensures { MatchOption result (¬ IsNumberWord word.now)
        (λ kept. KeepsCount decimals word.now kept.negative kept.size) }
{
    if let Some(count) = read_plain_count(word, decimals) {
        return Some(count);
    }
    read_any_count(word, decimals)
}
