//! Counts of trillionths.

ghost use Rattle.std.specs.Prelude.{◌≡◌, ◌^◌, ◌<◌, ◌*ℤ◌, ℤ, pos, unsigned_abs};
ghost use Rattle.fixed_num.specs.Shortest.{shortest_decimal};

use crate::micro::Micro;
use std::marker::Model;

/// A count of 10^-12, below 10^18 in size. Contracts see the count.
#[derive(Clone, Copy, Debug, PartialEq, Eq, PartialOrd, Ord)]
pub struct Pico(pub i64);

impl Model for Pico {
    ghost Value = { ℤ };

    ghost view = { λ p. p.0 };

    ghost invariant = { λ p. unsigned_abs p.0 < 10 ^ 18 };

    ghost inverse = { λ count. record { 0 = count } };
}

impl Pico {
    /// The same value, which is written as the same text.
    pub fn from_micro(micro: Micro) -> Pico
        ensures count { result ≡ micro *ℤ pos (10 ^ 6) }
        ensures same_text { shortest_decimal 12 result ≡ shortest_decimal 6 micro }
    {
        Pico(micro.0 * 1_000_000)
    }
}
