//! A law on the definitions alone.

ghost use Rattle.fixed_num.specs.Count.{WordsHaveCounts};

/// Each number word has exactly one count in units of so many decimals, and `count_of` is this count.
pub fn count_law()
    ensures { WordsHaveCounts }
{}
