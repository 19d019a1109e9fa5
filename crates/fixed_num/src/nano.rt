//! Counts of billionths.

ghost use Rattle.std.specs.Prelude.{◌≡◌, ◌^◌, ◌<◌, ◌*ℤ◌, ℤ, pos, unsigned_abs};
ghost use Rattle.fixed_num.specs.Shortest.{shortest_decimal};

use crate::micro::Micro;
use std::marker::Model;

/// A count of 10^-9, below 10^15 in size. Contracts see the count.
#[derive(Clone, Copy, Debug, PartialEq, Eq, PartialOrd, Ord)]
pub struct Nano(pub i64);

impl Model for Nano {
    ghost Value = { ℤ };

    ghost view = { λ n. n.0 };

    ghost invariant = { λ n. unsigned_abs n.0 < 10 ^ 15 };

    ghost inverse = { λ count. record { 0 = count } };
}

impl Nano {
    /// The same value, which is written as the same text.
    pub fn from_micro(micro: Micro) -> Nano
        ensures count { result ≡ micro *ℤ pos (10 ^ 3) }
        ensures same_text { shortest_decimal 9 result ≡ shortest_decimal 6 micro }
    {
        Nano(micro.0 * 1_000)
    }
}
