//! Counts of millionths.

ghost use Rattle.std.specs.Prelude.{◌^◌, ◌<◌, ℤ, unsigned_abs};

use std::marker::Model;

/// A count of millionths, below 10^12 in size. Contracts see the count.
#[derive(Clone, Copy, Debug, PartialEq, Eq, PartialOrd, Ord)]
pub struct Micro(pub i64);

impl Model for Micro {
    ghost Value = { ℤ };

    ghost view = { λ m. m.0 };

    ghost invariant = { λ m. unsigned_abs m.0 < 10 ^ 12 };

    ghost inverse = { λ count. record { 0 = count } };
}
